// The depth of a netlist.
#![tactic(auto)]

mod depth;

pub use depth::depth_of;
