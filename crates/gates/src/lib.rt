// The gates of a product's entry, the ANDs of its terms and the ORs that join them, and the gates of a lamp.
#![tactic(auto)]

mod gate;
mod join;
mod lamp;

pub use gate::Gates;
