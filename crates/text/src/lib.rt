// Text, numbers and bytes as a program shows them, and the parts of a spelt case.
#![tactic(auto)]

pub mod print;
pub mod spelling;
