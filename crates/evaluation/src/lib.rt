// The lines of a netlist worked out, with lines and pins held.
#![tactic(auto)]

mod board;
mod lines;
mod ranks;

pub use lines::{read_back, work_out};
