// Two-rail netlists of AND and OR gates, and their files.
//
// Lines 0 and 1 are the constants. The true rail of contact i is line 2 + 2 i, its false rail 3 + 2 i, and gate g is line
// 2 + 2 n + g.
#![tactic(auto)]

mod file;
mod parts;

pub use file::{length_of, put_file};
pub use parts::{gate_at, hold_at, number_at, pair_at};

// A gate: AND (kind 0) or OR (kind 1) of two lines. The kind is a byte, since question 12 is asked of every byte that a file may have.
#[derive(Clone, Copy, Drop)]
pub struct Gate {
    pub kind: u8,
    pub left: u16,
    pub right: u16,
}

// An output's or a lamp's true line and false line.
#[derive(Clone, Copy, Drop)]
pub struct Pair {
    pub on: u16,
    pub off: u16,
}

// A stuck line or pin: value 0 or 1 holds the line at it, 2 or 3 the first pin of its gate at 0 or 1, 4 or 5 the second. It is a byte, since question
// 14 is asked of every byte.
#[derive(Clone, Copy, Drop)]
pub struct Hold {
    pub line: u16,
    pub value: u8,
}
