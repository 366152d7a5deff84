// Steps one after the other, each with holds of its own, make one run: specs/ and proofs/.
#![tactic(auto)]
