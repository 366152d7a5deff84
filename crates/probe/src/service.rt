// The service probe.
ghost use Rattle.std.specs.List.{flat_map};
ghost use Rattle.std.specs.Prelude.{◌≡◌, ℕ, true, [], ◌++◌, ◌+◌, ◌*◌, ◌≤◌, length, take};
ghost use Rattle.diagram.specs.Diagram.{input_of};
ghost use Rattle.netlist.specs.Netlist.{hold_at, pairs_of, file_with, net_of};
ghost use Rattle.files.specs.Room.{over};
ghost use Rattle.rules.specs.Board.{board_of};
ghost use Rattle.rules.specs.Code.{code_rails};
ghost use Rattle.faults.specs.Betrayal.{stuck_at, some_no_code};
ghost use Rattle.stuck.specs.Service.{found, found_at, answer_of, probing_with, probing_of};
ghost use Rattle.stuck.specs.Inner.Probing.{probing_on};
ghost use Rattle.stuck.specs.Inner.Findings.{RunReady, WriteReady, AcceptedDiagram};

use diagram::Diagram;
use drive::Holds;
use files::{Refusal, Room};
use search::{Board, Shown};
use stuck::{Fanout, Probed, Way};

// Each contact's two rails at a code input, the true one first.
fn code_rails(input: u32) -> [[u8; 2]; 12]
    ensures { (n : ℕ) → n ≤ 12 → flat_map (λ x. x) (take n result) ≡ code_rails n (input_of input) }
{
    let mut rails = [[0; 2]; 12];
    for (i, pair) in rails.iter_mut().enumerate() {
        let on = ((input >> i) % 2) as u8;
        *pair = [on, 1 - on];
    }
    rails
}

// Writes every line's value at a code input with a line or pin held.
fn show_at(board: Board, hold: &[u8], input: u32, lines: &mut [u8])
    requires { RunReady board.contacts board.gates.now hold.now (length lines.old) }
    ensures { lines.new
        ≡ over (stuck_at (net_of board.entry.contacts board.entry.gates.now board.entry.pairs.now) (hold_at hold.now 0) input) lines.old }
{
    let rails = code_rails(input);
    let rails = rails[..board.contacts].as_flattened();
    evaluation::work_out(board.gates, rails, hold, 2, board.line_count(), lines);
}

// Writes the netlist's file and, behind it, every line's value at a code input with a line or pin held, and returns where these
// start.
fn write_at(board: Board, hold: &[u8], input: u32, buffer: &mut [u8]) -> usize
    requires { WriteReady board.contacts board.gates.now board.pairs.now hold.now (length buffer.old) }
    ensures value { result ≡ 10 + length board.entry.gates.now + length board.entry.pairs.now }
    ensures buffer_after { buffer.new
        ≡ over
        (file_with board.entry.contacts board.entry.gates.now board.entry.pairs.now []
        ++ stuck_at (net_of board.entry.contacts board.entry.gates.now board.entry.pairs.now) (hold_at hold.now 0) input)
        buffer.old }
{
    netlist::put_file(buffer, board.contacts, board.gates, board.pairs, b"");
    let start = 10 + board.gates.len() + board.pairs.len();
    show_at(board, hold, input, &mut buffer[start..]);
    start
}

// Names the lowest output whose pair shows no code among the line values at an input, and the way it shows.
fn name_output(shown: Shown, input: u32) -> Probed
    requires { some_no_code (pairs_of shown.pairs.now) shown.lines.now ≡ true }
    ensures { found result ≡ found_at (pairs_of shown.entry.pairs.now) input shown.entry.lines.now }
{
    let output = shown.lowest();
    let (on, _) = shown.pair(output as usize);
    Probed {
        input,
        output,
        way: Way::from(on),
    }
}

// Finds the smallest code input that betrays a held line or pin, and writes the netlist's file and the line values there; at input 0
// where no input does.
fn find(board: Board, hold: &[u8], buffer: &mut [u8]) -> Probed
    requires { WriteReady board.contacts board.gates.now board.pairs.now hold.now (length buffer.old) }
    ensures { record { answer = found result; buffer = buffer.new }
        ≡ probing_with (file_with board.entry.contacts board.entry.gates.now board.entry.pairs.now [])
        (net_of board.entry.contacts board.entry.gates.now board.entry.pairs.now) (hold_at hold.now 0) buffer.old }
{
    let Some(input) = search::search(board, netlist::hold_at(hold, 0)) else {
        write_at(board, hold, 0, buffer);
        return Probed::hidden();
    };
    let start = write_at(board, hold, input, buffer);
    let end = start + board.line_count();
    let shown = Shown {
        pairs: board.pairs,
        lines: &buffer[start..end],
    };
    name_output(shown, input)
}

// What probe returns and leaves of an accepted table's diagram; its board's gates are written to a buffer of their own.
fn probe_board(
    d: &Diagram,
    hold: &[u8],
    buffer: &mut [u8],
    gates: &mut [u8],
) -> Result<Probed, Refusal>
    requires { AcceptedDiagram d.now × (5 * length (board_of d.now).gates ≤ length gates.old) }
    ensures { record { answer = answer_of result; buffer = buffer.new }
        ≡ probing_on (board_of d.now) hold.now buffer.old }
{
    let mut pairs = [0u8; 32];
    let made = synthesis::synthesise(d, gates, &mut pairs);
    let first = 2 + 2 * d.contacts;
    let lines = first + made;
    let Holds::Ordered = stuck::ask_one_hold(first, lines, hold) else {
        return Err(Refusal::Holds);
    };
    let line = netlist::number_at(hold, 0) as usize;
    let Fanout::Read = stuck::ask_fanout(d, line) else {
        return Err(Refusal::Fanout);
    };
    let gate_bytes = 5 * made;
    let pair_bytes = 4 * d.outputs;
    let Room::Enough = files::ask_room(10 + gate_bytes + pair_bytes + lines, buffer.len()) else {
        return Err(Refusal::Room);
    };
    let board = Board {
        contacts: d.contacts,
        gates: &gates[..gate_bytes],
        pairs: &pairs[..pair_bytes],
    };
    Ok(find(board, hold, buffer))
}

// The same, with so many bytes for the gates.
fn probe_within<const BYTES: usize>(
    d: &Diagram,
    hold: &[u8],
    buffer: &mut [u8],
) -> Result<Probed, Refusal>
    requires { AcceptedDiagram d.now × (5 * length (board_of d.now).gates ≤ BYTES) × (BYTES ≤ 52800) }
    ensures { record { answer = answer_of result; buffer = buffer.new }
        ≡ probing_on (board_of d.now) hold.now buffer.old }
{
    let mut gates = [0u8; BYTES];
    probe_board(d, hold, buffer, &mut gates)
}

// The smallest code input at which a held line or pin makes some pair 00 or 11, the lowest such output and the way it shows, or that
// there is none; the buffer then holds the netlist's file and the line values at that input, or at input 0, with the line or pin
// held. A refusal leaves it as it came.
// The buffer for the gates is as long as the formula asks, in three lengths.
pub fn probe(table: &[u8], hold: &[u8], buffer: &mut [u8]) -> Result<Probed, Refusal>
    ensures { record { answer = answer_of result; buffer = buffer.new }
        ≡ probing_of table.now hold.now buffer.old }
{
    let d = table::read(table)?;
    let most = synthesis::most_gates(&d);
    // Chosen here: a length is a const argument, which no function hands in.
    if most <= 960 {
        return probe_within::<4_800>(&d, hold, buffer);
    }
    if most <= 2880 {
        return probe_within::<14_400>(&d, hold, buffer);
    }
    probe_within::<52_800>(&d, hold, buffer)
}
