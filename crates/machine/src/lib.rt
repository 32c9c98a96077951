// The queue machine: specs/ and proofs/, no code.
#![tactic(auto)]
