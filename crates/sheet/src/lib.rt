// The gate sheet of a netlist: a row for each gate, each output and the lamp, in columns, under headings.
#![tactic(auto)]

mod page;
mod row;
mod service;

pub use service::sheet;
