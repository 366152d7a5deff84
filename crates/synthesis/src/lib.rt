// From a diagram to its two-rail netlist, gate for gate, with a lamp or without.
#![tactic(auto)]

mod board;
mod service;

pub use board::{most_gates, synthesise};
pub use service::{Checked, Counts, build, build_with_lamp, check};
