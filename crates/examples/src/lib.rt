// Runs that the checker computes: specs/ and proofs/, no code.
#![tactic(auto)]
