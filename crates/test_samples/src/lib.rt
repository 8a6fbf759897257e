// Sample updates and stores, made in a lent buffer, for the programs that try the library. A write behind the buffer's end is left out.
#![tactic(auto)]

pub mod bytes;
pub mod make;
pub mod stores;
