// Table files: the diagram that one holds under questions 1 to 7, and its word at an input.
#![tactic(auto)]

mod decode;
mod fit;
mod reading;

pub use fit::Levels;
pub use reading::{Reading, find_twins, read, read_off};
