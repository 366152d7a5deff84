// The simulation of a netlist with stuck lines and pins: definitions and laws, no code.
#![tactic(auto)]
