// What a processor loads after a write, in specs/ and proofs/. This crate has no code.
#![tactic(auto)]
