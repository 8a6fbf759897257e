// The buffers, the lists and the index that the steps set. Each buffer and list has room for more than the calls accept.
use store_blocks::MOST_BLOCKS;
use store_index::COLUMNS;

pub const STORE: usize = 69632;

pub const CANDIDATE: usize = 36864;

pub const DESTINATION: usize = 69632;

pub const LIST: usize = 16;

// Words of an index.
pub const INDEX: usize = 128;

pub type Store = [u8; STORE];

pub type Candidate = [u8; CANDIDATE];

pub type Destination = [u8; DESTINATION];

pub type Signatures = [u32; LIST];

pub type Platforms = [u8; LIST];

pub type Index = [[u32; MOST_BLOCKS]; COLUMNS];

#[derive(Drop)]
pub struct Memory {
    pub store: Store,
    pub candidate: Candidate,
    pub destination: Destination,
    pub signatures: Signatures,
    pub platforms: Platforms,
    pub index: Index,
}
