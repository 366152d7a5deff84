// Drawings, decision diagrams as planners draw them: question 16.
#![tactic(auto)]

mod form;

pub use form::{Parts, ask_form};
