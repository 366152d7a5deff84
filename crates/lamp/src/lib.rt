// The lamp of boards, and what is promised of it: specs/ and proofs/. The code that builds one is in `synthesis`.
#![tactic(auto)]
