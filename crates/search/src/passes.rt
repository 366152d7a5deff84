// Every line's batches with a line or pin held, at the 64 inputs from a base on and at the 64 after them.
ghost use Rattle.std.specs.Prelude.{◌≡◌, ℕ, [], ◌∷◌, ◌+◌, ◌*◌, ◌/◌, ◌%◌, ◌≤◌, ◌<◌, not, length, take};
ghost use Rattle.diagram.specs.Diagram.{bit, input_of};
ghost use Rattle.netlist.specs.Netlist.{gate_line, net_of};
ghost use Rattle.faults.specs.Betrayal.{stuck_at};
ghost use Rattle.batches.specs.Inner.Batches.{firsts, seconds, BatchesAre, rails_at, gates_at};
ghost use Rattle.bits.specs.Inner.Bits.{bit_of, bits_of};
ghost use Rattle.batches.specs.Inner.Batches.{AreConstants};
ghost use Rattle.search.specs.Inner.Taken.{SourcesTaken};

use crate::Board;
use batches::{Site, TwoBatches};
use netlist::{Gate, Hold};

// Both batches of a line that is at one value everywhere, 0 or 1 as a hold has it.
fn same_batches(value: u8) -> TwoBatches
    requires { value ≤ 1 }
    ensures first { (k : ℕ) → k < 64 → bit_of k result.first ≡ value }
    ensures second { (k : ℕ) → k < 64 → bit_of k result.second ≡ value }
{
    let batch = bits::same_batch(value);
    TwoBatches {
        first: batch,
        second: batch,
    }
}

// Both batches of a contact's true rail, and of its false rail.
fn rail_batches(contact: usize, base: usize) -> (TwoBatches, TwoBatches)
    requires { (contact < 12) × (base % 64 ≡ 0) × (base < 4096) }
    ensures on_first { (k : ℕ) → k < 64 → bit_of k result.0.first ≡ bit (input_of (base + k) contact) }
    ensures on_second { (k : ℕ) → k < 64 → bit_of k result.0.second ≡ bit (input_of (base + 64 + k) contact) }
    ensures off_first { (k : ℕ) → k < 64 → bit_of k result.1.first ≡ bit (not (input_of (base + k) contact)) }
    ensures off_second { (k : ℕ) → k < 64 → bit_of k result.1.second ≡ bit (not (input_of (base + 64 + k) contact)) }
{
    let first = bits::rail_batch(contact, base);
    let second = bits::rail_batch(contact, base + 64);
    let on = TwoBatches { first, second };
    let off = TwoBatches {
        first: first ^ bits::ONES,
        second: second ^ bits::ONES,
    };
    (on, off)
}

// A gate's two sources: 4 bytes, where a gate is 6. The kinds stay in the board's bytes.
#[derive(Clone, Copy, Drop)]
pub struct Sources {
    pub left: u16,
    pub right: u16,
}

// Writes each gate's sources as the hold leaves them. A held line's gate reads the line of its constant twice, and so makes that constant;
// the gate of a held pin reads it there.
pub fn take_sources(board: Board, hold: Hold, taken: &mut [Sources])
    requires { length board.gates.now / 5 ≤ length taken.old }
    ensures { SourcesTaken (gate_line board.entry.contacts) hold (length board.entry.gates.now / 5) board.entry.gates.now taken.new }
{
    let left = batches::held_line(hold, Site::FirstPin);
    let right = batches::held_line(hold, Site::SecondPin);
    let level = u16::from(hold.value % 2);
    let first = board.gate_line();
    // Written by index: after a zip with `taken.iter_mut()` nothing is known of `taken` (tried).
    for (g, gate) in board.gates.as_chunks::<5>().0.iter().enumerate() {
        let gate = Gate::from(gate);
        taken[g] = Sources {
            left: batches::show(left, level, first + g, gate.left),
            right: batches::show(right, level, first + g, gate.right),
        };
    }
}

// A board with a line or pin held, and its gates' sources as the hold leaves them.
#[derive(Clone, Copy, Drop)]
pub struct HeldBoard<'a> {
    pub board: Board<'a>,
    pub hold: Hold,
    pub taken: &'a [Sources],
    ghost count: { length taken.now ≡ length board.gates.now / 5 },
    ghost left: { SourcesTaken (gate_line board.contacts) hold (length board.gates.now / 5) board.gates.now taken.now },
}

impl HeldBoard<'_> {
    // Writes the rails' batches from line 2 up.
    fn put_rails(self, base: usize, batches: &mut [TwoBatches])
        requires { (base % 64 ≡ 0) × (base < 4096) × (gate_line self.board.contacts ≤ length batches.old) }
        ensures first { BatchesAre (gate_line self.entry.board.contacts) (firsts batches.new)
            (λ k. rails_at self.entry.board.contacts base self.entry.hold k (bits_of k (take 2 (firsts batches.old)))) }
        ensures second { BatchesAre (gate_line self.entry.board.contacts) (seconds batches.new)
            (λ k. rails_at self.entry.board.contacts (base + 64) self.entry.hold k (bits_of k (take 2 (seconds batches.old)))) }
    {
        let held = batches::held_line(self.hold, Site::Line);
        let level = same_batches(self.hold.value % 2);
        // By number: i is the contact.
        for i in 0..self.board.contacts {
            let at = 2 + 2 * i;
            let (on, off) = rail_batches(i, base);
            batches[at] = batches::show(held, level, at, on);
            batches[at + 1] = batches::show(held, level, at + 1, off);
        }
    }

    // Writes the gates' batches, given those of the lines before them.
    fn put_gates(self, batches: &mut [TwoBatches])
        requires room { gate_line self.board.contacts + length self.board.gates.now / 5 ≤ length batches.old }
        requires constants { AreConstants (firsts batches.old) × AreConstants (seconds batches.old) }
        ensures first { BatchesAre (gate_line self.entry.board.contacts + length self.entry.board.gates.now / 5) (firsts batches.new)
            (λ k. gates_at self.entry.board.gates.now self.entry.hold (bits_of k (take (gate_line self.entry.board.contacts) (firsts batches.old)))) }
        ensures second { BatchesAre (gate_line self.entry.board.contacts + length self.entry.board.gates.now / 5) (seconds batches.new)
            (λ k. gates_at self.entry.board.gates.now self.entry.hold (bits_of k (take (gate_line self.entry.board.contacts) (seconds batches.old)))) }
    {
        let first = self.board.gate_line();
        for (g, sources) in self.taken.iter().enumerate() {
            let gate = Gate {
                kind: self.board.gates[5 * g],
                left: sources.left,
                right: sources.right,
            };
            batches[first + g] = batches::make_batches(batches, gate);
        }
    }

    // Writes every line's batches, from line 0 up, at the 64 inputs from a base on and at the 64 after them.
    pub fn work_batches(self, base: usize, batches: &mut [TwoBatches])
        requires room { gate_line self.board.contacts + length self.board.gates.now / 5 ≤ length batches.old }
        requires base { (base % 64 ≡ 0) × (base < 4096) }
        ensures first { BatchesAre (gate_line self.entry.board.contacts + length self.entry.board.gates.now / 5) (firsts batches.new)
            (λ k. stuck_at (net_of self.entry.board.contacts self.entry.board.gates.now []) self.entry.hold (base + k)) }
        ensures second { BatchesAre (gate_line self.entry.board.contacts + length self.entry.board.gates.now / 5) (seconds batches.new)
            (λ k. stuck_at (net_of self.entry.board.contacts self.entry.board.gates.now []) self.entry.hold (base + 64 + k)) }
    {
        batches[0] = same_batches(0);
        batches[1] = same_batches(1);
        self.put_rails(base, batches);
        self.put_gates(batches);
    }
}
