// The smallest code input that betrays a held line or pin.
ghost use Rattle.std.specs.Prelude.{◌≡◌, true, ℕ, ◌+◌, ◌/◌, ◌≤◌, ◌<◌, length};
ghost use Rattle.diagram.specs.Diagram.{bit};
ghost use Rattle.netlist.specs.Netlist.{gate_line, pairs_of, net_of};
ghost use Rattle.wiring.specs.Questions.{are_pairs};
ghost use Rattle.faults.specs.Betrayal.{some_no_code};
ghost use Rattle.batches.specs.Inner.Batches.{firsts, seconds, BuffersFit};
ghost use Rattle.bits.specs.Inner.Bits.{bit_of, bits_of};
ghost use Rattle.search.specs.Inner.Found.{found_in};

use crate::passes::{HeldBoard, Sources};
use crate::{Board, passes};
use batches::TwoBatches;
use netlist::{Hold, Pair};

// The inputs at which some output's true and false line agree.
fn agreeing(pairs: &[u8], batches: &[TwoBatches]) -> TwoBatches
    requires { are_pairs (length batches.now) pairs.now ≡ true }
    ensures first { (k : ℕ) → k < 64 →
        bit_of k result.first ≡ bit (some_no_code (pairs_of pairs.now) (bits_of k (firsts batches.now))) }
    ensures second { (k : ℕ) → k < 64 →
        bit_of k result.second ≡ bit (some_no_code (pairs_of pairs.now) (bits_of k (seconds batches.now))) }
{
    let mut first = 0;
    let mut second = 0;
    for bytes in pairs.as_chunks::<4>().0 {
        let pair = Pair::from(bytes);
        let on = batches[usize::from(pair.on)];
        let off = batches[usize::from(pair.off)];
        first |= (on.first ^ off.first) ^ bits::ONES;
        second |= (on.second ^ off.second) ^ bits::ONES;
    }
    TwoBatches { first, second }
}

// The smallest code input that betrays a held line or pin, with room for the gates and the lines' batches. Inputs past the last repeat
// those before, so none of them is the smallest.
fn search_in(
    board: Board,
    hold: Hold,
    taken: &mut [Sources],
    batches: &mut [TwoBatches],
) -> Option<u32>
    requires fit { BuffersFit board.contacts board.gates.now (length taken.old) (length batches.old) }
    ensures { result ≡ found_in (net_of board.entry.contacts board.entry.gates.now board.entry.pairs.now) hold }
{
    passes::take_sources(board, hold, taken);
    let held = HeldBoard {
        board,
        hold,
        taken: &taken[..board.gates.len() / 5],
    };
    let lines = board.line_count();
    // By number: inputs have no list.
    for base in (0..1usize << board.contacts).step_by(128) {
        held.work_batches(base, batches);
        let masks = agreeing(board.pairs, &batches[..lines]);
        if masks.first != 0 {
            return Some(base as u32 + bits::lowest_bit(masks.first));
        }
        if masks.second != 0 {
            return Some(base as u32 + 64 + bits::lowest_bit(masks.second));
        }
    }
    None
}

// The same, with room for so many gates and lines.
fn search_within<const GATES: usize, const LINES: usize>(board: Board, hold: Hold) -> Option<u32>
    requires fit { BuffersFit board.contacts board.gates.now GATES LINES }
    requires few { (GATES ≤ 10560) × (LINES ≤ 10586) }
    ensures { result ≡ found_in (net_of board.entry.contacts board.entry.gates.now board.entry.pairs.now) hold }
{
    let blank = Sources { left: 0, right: 0 };
    let none = TwoBatches {
        first: 0,
        second: 0,
    };
    let mut taken = [blank; GATES];
    let mut batches = [none; LINES];
    search_in(board, hold, &mut taken, &mut batches)
}

// The smallest code input that betrays a held line or pin. A small board has little room to clear.
pub fn search(board: Board, hold: Hold) -> Option<u32>
    ensures { result ≡ found_in (net_of board.entry.contacts board.entry.gates.now board.entry.pairs.now) hold }
{
    // Chosen here: a length is a const argument, which no function hands in.
    if board.gates.len() <= 1150 {
        return search_within::<230, 256>(board, hold);
    }
    if board.gates.len() <= 11390 {
        return search_within::<2278, 2304>(board, hold);
    }
    search_within::<10560, 10586>(board, hold)
}
