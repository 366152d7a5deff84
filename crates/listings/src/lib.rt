// What a case shows of what check says and of the netlist that a build writes.
#![tactic(auto)]

pub mod netlists;
