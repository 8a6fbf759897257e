// The answers of the calls: an enum with a struct in each case, which holds the codes and the case's numbers.
ghost use Rattle.std.specs.Prelude.{◌≡◌};
ghost use Rattle.call_answers.specs.Answers.{refusal};
ghost use Rattle.call_answers.specs.Refusals.{refused};

use crate::refusal::Refusal;

// The bytes INTE and LPEP, the loader version, the number of blocks.
#[derive(Clone, Copy)]
pub struct Presence {
    // eight fields: C gets a word for each, and a definition knows no array's length
    pub byte0: u8,
    pub byte1: u8,
    pub byte2: u8,
    pub byte3: u8,
    pub byte4: u8,
    pub byte5: u8,
    pub byte6: u8,
    pub byte7: u8,
    pub loader_version: u32,
    pub blocks: u32,
    pub ah: u8,
    pub al: u8,
    pub carry: bool,
}

// The start block, how many stored updates were emptied, and their blocks: bit b for each block b of an emptied update.
#[derive(Clone, Copy)]
pub struct Written {
    pub start: u32,
    pub emptied: u32,
    pub emptied_blocks: u32,
    pub ah: u8,
    pub al: u8,
    pub carry: bool,
}

// 1 for loading on, 0 for off.
#[derive(Clone, Copy)]
pub struct Control {
    pub status: u32,
    pub ah: u8,
    pub al: u8,
    pub carry: bool,
}

// How many blocks were copied.
#[derive(Clone, Copy)]
pub struct Read {
    pub blocks: u32,
    pub ah: u8,
    pub al: u8,
    pub carry: bool,
}

// The codes; the status is FFh for a control call refused for its task, else 0.
#[derive(Clone, Copy)]
pub struct Refused {
    pub status: u32,
    pub ah: u8,
    pub al: u8,
    pub carry: bool,
}

// An enum of its own with the codes in each case, and no Result: demand 1 is said of it, and C gets its codes and numbers.
#[derive(Clone, Copy)]
pub enum Answer {
    Presence(Presence),
    Written(Written),
    Control(Control),
    Read(Read),
    Refused(Refused),
}

// An answer, and the loading state beside it.
#[derive(Clone, Copy)]
pub struct Reply {
    pub answer: Answer,
    pub loading: bool,
}

// A refusal whose other numbers are 0.
pub fn refuse(ah: u8, al: u8) -> Answer
    ensures { result ≡ refusal ah al }
{
    Answer::Refused(Refused {
        ah,
        al,
        carry: true,
        status: 0,
    })
}

impl From<Refusal> for Answer {
    ghost from_gives = { λ r a. a ≡ refused r };

    fn from(r: Refusal) -> Self {
        refuse(r.ah(), r.al())
    }
}
