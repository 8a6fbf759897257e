// The answer of the load choice.
use crate::refusal::Refusal;

// The update that a processor gets: its first block and its revision.
#[derive(Clone, Copy)]
pub struct Chosen {
    pub start: u32,
    pub revision: u32,
}

// The update, if one covers the processor, or why the choice is refused.
pub type LoadChoice = Result<Option<Chosen>, Refusal>;
