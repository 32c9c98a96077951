// Journal words and calls: specs/ and proofs/, and what reading and writing a call answer.
#![tactic(auto)]

pub mod types;
