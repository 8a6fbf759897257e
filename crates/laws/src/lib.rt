// General laws, in specs/ and proofs/. This crate has no code.
#![tactic(auto)]
