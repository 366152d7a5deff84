// Rule sheets, as site leads write them: question 18, and the rules of a sheet one after the other.
#![tactic(auto)]

mod form;
mod sheet;

pub use form::ask_form;
pub use sheet::{Rules, Sheet};
