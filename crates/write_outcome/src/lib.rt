// The outcome of a write: what it may empty, and the bytes that it leaves.
#![tactic(auto)]

pub mod bytes;
