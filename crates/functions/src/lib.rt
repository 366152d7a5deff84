// Functions of the contacts, and the one table that some of them have: specs/ and proofs/. The code that finds it is in `canonical`.
#![tactic(auto)]
