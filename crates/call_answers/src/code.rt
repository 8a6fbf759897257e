// The codes of the answers: AH by document 01's names, and the AL numbers beside READ_FAILURE and STORAGE_FULL.
pub const SUCCESS: u8 = 0x00;

pub const NOT_IMPLEMENTED: u8 = 0x86;

pub const READ_FAILURE: u8 = 0x92;

pub const STORAGE_FULL: u8 = 0x93;

pub const CPU_NOT_PRESENT: u8 = 0x94;

pub const INVALID_HEADER: u8 = 0x95;

pub const INVALID_HEADER_CS: u8 = 0x96;

pub const SECURITY_FAILURE: u8 = 0x97;

pub const INVALID_REVISION: u8 = 0x98;

pub const UPDATE_NUM_INVALID: u8 = 0x99;

pub const NOT_EMPTY: u8 = 0x9A;

// No AL number is given.
pub const NONE: u8 = 0;
// READ_FAILURE: a bad store; a bad processor list or platform; a destination too short.
pub const BAD_STORE: u8 = 1;

pub const BAD_PROCESSORS: u8 = 2;

pub const SHORT_DESTINATION: u8 = 3;
// STORAGE_FULL: an update that shares is needed (check 7); no run (check 8).
pub const SHARING_NEEDED: u8 = 4;

pub const NO_RUN: u8 = 5;
