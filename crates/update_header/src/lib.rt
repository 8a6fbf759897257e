// The header of an update: its fields, the sizes that they mean, the checks that need no sum, and the data bytes behind it.
// Every public function takes any bytes, of any length. A byte behind the end of a slice reads as 0.
#![tactic(auto)]

pub mod checks;
pub mod data;
pub mod fields;
