// Which stuck pins of boards are hidden: specs/ and proofs/.
#![tactic(auto)]
