// The answers of the update calls and of the load choice, and their codes.
#![tactic(auto)]

pub mod answer;
pub mod choice;
pub mod code;
pub mod refusal;
