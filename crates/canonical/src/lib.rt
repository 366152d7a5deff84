// From truth tables to the table file of their functions: questions 17 and 9.
#![tactic(auto)]

mod blocks;
mod layout;
mod levels;

pub use layout::write;
