// Stuck lines on boards, and demand 3 about them: specs/ and proofs/. The code that finds one is in `search` and `probe`.
#![tactic(auto)]
