// The index of the store that an accepted write leaves, in specs/ and proofs/. This crate has no code.
#![tactic(auto)]
