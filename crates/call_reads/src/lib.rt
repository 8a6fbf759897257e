// The update calls that only read a store. Any bytes, any lengths and any numbers end in a defined answer; only `copy_planned` asks for
// something, a plan that was made for what it is lent.
#![tactic(auto)]

pub mod presence;
pub mod read;
