// The history of a list of calls: specs/ and proofs/, no code.
#![tactic(auto)]
