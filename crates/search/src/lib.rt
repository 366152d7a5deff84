// The search for the smallest code input that betrays a stuck line or pin, two batches of 64 inputs a pass.
#![tactic(auto)]

mod board;
mod inputs;
mod passes;
mod shown;

pub use board::Board;
pub use inputs::search;
pub use shown::Shown;
