// Batches of 64 code inputs.
#![tactic(auto)]

mod batch;

pub use batch::{Site, TwoBatches, held_line, make_batches, show};
