// Batches of 64 inputs: bit k of a line's batch is the line's value at input base + k.
ghost use Rattle.std.specs.Prelude.{◌≡◌, ◌<◌, length};
ghost use Rattle.batches.specs.Inner.Batches.{at, gate_batches, held_batch, held_line, site_number};

use netlist::{Gate, Hold};

// A line's two batches: at the 64 inputs from a base on, and at the 64 after them.
#[derive(Clone, Copy, Drop)]
pub struct TwoBatches {
    pub first: u64,
    pub second: u64,
}

// What a hold can be of: a line, or a pin of its gate.
#[derive(Clone, Copy, Drop)]
pub enum Site {
    Line,
    FirstPin,
    SecondPin,
}

impl Site {
    // The number that a hold's value byte has for it.
    pub fn number(self) -> u8
        ensures { result ≡ site_number self }
    {
        match self {
            Site::Line => 0,
            Site::FirstPin => 1,
            Site::SecondPin => 2,
        }
    }
}

// The two batches that a gate makes of those of its sources and those of its kind's constant: a bit is set where two of the three are.
// So an AND, of kind 0, and an OR, of kind 1, take the same steps.
pub fn make_batches(batches: &[TwoBatches], gate: Gate) -> TwoBatches
    requires { (gate.kind < length batches.now) × (gate.left < length batches.now) × (gate.right < length batches.now) }
    ensures { result ≡ gate_batches (at batches.now gate.kind) (at batches.now gate.left) (at batches.now gate.right) }
{
    let kind = batches[usize::from(gate.kind)];
    let a = batches[usize::from(gate.left)];
    let b = batches[usize::from(gate.right)];
    TwoBatches {
        first: (a.first & b.first) | ((a.first | b.first) & kind.first),
        second: (a.second & b.second) | ((a.second | b.second) & kind.second),
    }
}

// What a line shows, given what its driver makes: the held line what it is held at.
pub fn show<T: Copy + Drop>(line: usize, held: T, at: usize, made: T) -> T
    ensures { result ≡ held_batch line held at made }
{
    if line == at { held } else { made }
}

// The line whose site is held: a held line holds every site of it, a held pin one. 0, which nothing drives, if there is none, so
// that one comparison serves.
pub fn held_line(hold: Hold, site: Site) -> usize
    ensures { result ≡ held_line hold (site_number site) }
{
    let held = hold.value / 2;
    if held == 0 || held == site.number() {
        usize::from(hold.line)
    } else {
        0
    }
}
