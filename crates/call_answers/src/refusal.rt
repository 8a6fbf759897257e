// Why a call is refused.
ghost use Rattle.std.specs.Prelude.{◌≡◌};
ghost use Rattle.call_answers.specs.Refusals.{ah_for, al_for};

use crate::code;

// A refusal by its rule, in the order of AH and AL.
#[derive(Clone, Copy, PartialEq, Eq)]
pub enum Refusal {
    // an unknown function, sub-function or control task
    NotImplemented,
    BadStore,
    // a bad processor list or platform
    BadProcessors,
    ShortDestination,
    // an update that shares is needed (check 7)
    SharingNeeded,
    // no run (check 8)
    NoRun,
    ProcessorNotPresent,
    InvalidHeader,
    InvalidHeaderSum,
    SecurityFailure,
    InvalidRevision,
    InvalidBlock,
    NotEmpty,
}

impl Refusal {
    pub fn ah(self) -> u8
        ensures { result ≡ ah_for self }
    {
        match self {
            Refusal::NotImplemented => code::NOT_IMPLEMENTED,
            Refusal::BadStore => code::READ_FAILURE,
            Refusal::BadProcessors => code::READ_FAILURE,
            Refusal::ShortDestination => code::READ_FAILURE,
            Refusal::SharingNeeded => code::STORAGE_FULL,
            Refusal::NoRun => code::STORAGE_FULL,
            Refusal::ProcessorNotPresent => code::CPU_NOT_PRESENT,
            Refusal::InvalidHeader => code::INVALID_HEADER,
            Refusal::InvalidHeaderSum => code::INVALID_HEADER_CS,
            Refusal::SecurityFailure => code::SECURITY_FAILURE,
            Refusal::InvalidRevision => code::INVALID_REVISION,
            Refusal::InvalidBlock => code::UPDATE_NUM_INVALID,
            Refusal::NotEmpty => code::NOT_EMPTY,
        }
    }

    pub fn al(self) -> u8
        ensures { result ≡ al_for self }
    {
        match self {
            Refusal::BadStore => code::BAD_STORE,
            Refusal::BadProcessors => code::BAD_PROCESSORS,
            Refusal::ShortDestination => code::SHORT_DESTINATION,
            Refusal::SharingNeeded => code::SHARING_NEEDED,
            Refusal::NoRun => code::NO_RUN,
            _ => code::NONE,
        }
    }
}
