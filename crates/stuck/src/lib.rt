// What probe is asked and answers about a stuck line or pin.
#![tactic(auto)]

mod answer;
mod fanout;
mod hold;

pub use answer::{Probed, Way};
pub use fanout::{Fanout, ask_fanout};
pub use hold::ask_one_hold;
