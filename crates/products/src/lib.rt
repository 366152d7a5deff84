// Products of matrices of entries, and the gates that they make.
#![tactic(auto)]

mod product;

pub use product::{Rows, multiply};
