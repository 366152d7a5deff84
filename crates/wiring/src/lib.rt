// Questions 11 and 12, about netlist files, and reading one.
#![tactic(auto)]

mod form;
mod parts;
mod reading;
mod sound;

pub use form::ask_form;
pub use parts::Parts;
pub use reading::read;
pub use sound::{Wiring, ask_wiring};
