// The matrix of a level, and of a block of several levels with the gates that it makes.
#![tactic(auto)]

mod matrices;

pub use matrices::block;
