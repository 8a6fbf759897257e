// The calls that make or go by an index. Any bytes, any index and any numbers end in a defined answer.
#![tactic(auto)]

pub mod index;
pub mod read;
