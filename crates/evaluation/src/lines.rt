// Every line's value worked out, from one line to another, with lines and pins held.
ghost use Rattle.std.specs.Prelude.{◌≡◌, ◌+◌, ◌*◌, ◌/◌, ◌≤◌, ◌<◌, length};
ghost use Rattle.netlist.specs.Netlist.{holds_of};
ghost use Rattle.simulation.specs.Run.{gate_of};
ghost use Rattle.simulation.specs.Service.{read_back};
ghost use Rattle.evaluation.specs.Inner.Ready.{Ready};
ghost use Rattle.evaluation.specs.Inner.Walk.{Awaits, Walks, PinsFree, first_of, end_of, made_by, worked, stepped_over};

use crate::board::Board;
use crate::ranks::Next;

// The next hold of a line, and the next of a pin.
#[derive(Clone, Copy, Drop)]
struct Cursor {
    line: Next,
    pin: Next,
}

// How a line's byte is read: one that is neither 0 nor 1 as 1.
pub fn read_back(byte: u8) -> u8
    ensures { result ≡ read_back byte }
{
    if byte == 0 { 0 } else { 1 }
}

// What a gate makes of two bytes as they are read: AND (kind 0) and OR (kind 1) are what most of the kind and the two are.
fn make(kind: u8, a: u8, b: u8) -> u8
    requires { kind ≤ 1 }
    ensures { result ≡ gate_of kind (read_back a) (read_back b) }
{
    (kind + read_back(a) + read_back(b)) / 2
}

impl Board<'_> {
    // The line of its first gate.
    fn gate_line(&self) -> usize
        ensures { result ≡ first_of self.now }
    {
        2 + self.rails.len()
    }

    // Works out rails' lines, from one to another, each with its hold.
    fn put_rails(&self, next: Next, from: usize, to: usize, lines: &mut [u8]) -> Next
        requires awaits { Awaits self.now.holds.now from next }
        requires le_from { (2 ≤ from) × (from ≤ to) × (from < to → to ≤ first_of self.now) × (to ≤ length lines.old) }
        ensures awaits { Awaits self.now.holds.now to result }
        ensures lines_after { lines.new ≡ worked self.now from to lines.old }
    {
        let mut on_line = next;
        // By number: x is the line, by which its hold is found.
        for x in from..to {
            lines[x] = self.held(&mut on_line, x).unwrap_or(self.rails[x - 2]);
        }
        on_line
    }

    // What the gate of a line makes of its sources, as they are read.
    fn made(&self, line: usize, lines: &[u8]) -> u8
        requires bounds { (first_of self.now ≤ line) × (line < end_of self.now) }
        requires room { line ≤ length lines.now }
        ensures { result ≡ made_by self.now line lines.now }
    {
        let gate = netlist::gate_at(self.gates, line - self.gate_line());
        make(
            gate.kind,
            lines[gate.left as usize],
            lines[gate.right as usize],
        )
    }

    // Works out gates of which no pin is held, from one line to another, each with its line's hold.
    fn put_gates(&self, next: Next, from: usize, to: usize, lines: &mut [u8]) -> Next
        requires awaits { Awaits self.now.holds.now from next × PinsFree self.now.holds.now from to }
        requires bounds { (first_of self.now ≤ from) × (from ≤ to) × (to ≤ end_of self.now) }
        requires room { end_of self.now ≤ length lines.old }
        ensures awaits { Awaits self.now.holds.now to result }
        ensures lines_after { lines.new ≡ worked self.now from to lines.old }
    {
        let mut on_line = next;
        // By number: x is the line, by which its hold is found.
        for x in from..to {
            lines[x] = match self.held(&mut on_line, x) {
                Some(value) => value,
                None => self.made(x, lines),
            };
        }
        on_line
    }

    // Works out a gate with its pins' holds and its line's. Each by a match: `unwrap_or` would read the source first, and the largest board
    // with every first pin held took 22 µs for 17.
    fn put_pinned(&self, cursor: &mut Cursor, line: usize, lines: &mut [u8])
        requires walks { Walks self.now.holds.now line cursor.old }
        requires bounds { (first_of self.now ≤ line) × (line < end_of self.now) }
        requires room { end_of self.now ≤ length lines.old }
        ensures walks { Walks self.now.holds.now (line + 1) cursor.new }
        ensures lines_after { lines.new ≡ worked self.now line (line + 1) lines.old }
    {
        let gate = netlist::gate_at(self.gates, line - self.gate_line());
        let left = match self.held(&mut cursor.pin, 65537 + 2 * line) {
            Some(level) => level,
            None => lines[gate.left as usize],
        };
        let right = match self.held(&mut cursor.pin, 65538 + 2 * line) {
            Some(level) => level,
            None => lines[gate.right as usize],
        };
        lines[line] = match self.held(&mut cursor.line, line) {
            Some(shown) => shown,
            None => make(gate.kind, left, right),
        };
    }

    // Works out gates from one line to another: those up to the next whose pin is held, then that one, and so on.
    fn put_all(&self, next: Next, from: usize, to: usize, lines: &mut [u8])
        requires awaits { Awaits self.now.holds.now from next }
        requires bounds { (first_of self.now ≤ from) × (from ≤ to) × (to ≤ end_of self.now) }
        requires room { end_of self.now ≤ length lines.old }
        ensures { lines.new ≡ worked self.now from to lines.old }
    {
        let mut cursor = Cursor {
            line: next,
            pin: self.seek(65537 + 2 * from),
        };
        let mut at = from;
        loop {
            let stop = ((cursor.pin.rank - 65537) / 2).min(to);
            cursor.line = self.put_gates(cursor.line, at, stop, lines);
            if stop == to {
                return;
            }
            self.put_pinned(&mut cursor, stop, lines);
            at = stop + 1;
        }
    }

    // Works out lines from one to another, rails like gates.
    fn put_lines(&self, from: usize, to: usize, lines: &mut [u8])
        requires bounds { (2 ≤ from) × (from ≤ to) × (to ≤ end_of self.now) }
        requires room { end_of self.now ≤ length lines.old }
        ensures { lines.new ≡ worked self.now from to lines.old }
    {
        let next = self.seek(from);
        let stop = from.max(self.gate_line().min(to));
        let next_gate = self.put_rails(next, from, stop, lines);
        if stop < to {
            self.put_all(next_gate, stop, to, lines);
        }
    }
}

// Sets the constants, and works out the lines from one to another, rails like gates, from the lines before them as they are read.
pub fn work_out(gates: &[u8], rails: &[u8], holds: &[u8], from: usize, to: usize, lines: &mut [u8])
    requires ready { Ready gates.now rails.now holds.now (length lines.old) }
    requires le_from { (2 ≤ from) × (from ≤ to) × (to ≤ 2 + length rails.now + length gates.now / 5) }
    ensures { lines.new
        ≡ stepped_over (holds_of holds.now) rails.now gates.now from to lines.old }
{
    lines[0] = 0;
    lines[1] = 1;
    let board = Board {
        gates: gates,
        rails: rails,
        holds: holds,
    };
    board.put_lines(from, to, lines);
}
