// How the rules of a sheet cover the inputs: questions 19 and 20, the outputs' truth tables, and the service from-rules.
#![tactic(auto)]

mod cover;
mod service;

pub use cover::{Gaps, Shares};
pub use service::from_rules;
