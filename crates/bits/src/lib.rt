// Values at 64 inputs in one word, a bit each.
#![tactic(auto)]

mod word;

pub use word::{ONES, lowest_bit, rail_batch, same_batch};
