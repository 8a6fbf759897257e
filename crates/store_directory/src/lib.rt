// The directory of a store: the stored updates in the order of their first blocks, where the store is valid.
// Every function that judges or lists a store takes any bytes, of any length.
#![tactic(auto)]

mod clash;
pub mod kind;
mod scan;

ghost use Rattle.std.specs.Prelude.{◌≡◌};
ghost use Rattle.store_directory.specs.Scan.{stored};

use store_blocks::MOST_BLOCKS;

// Arrays of 32 with a count, since the library takes no memory of its own. Not one array of structs: the marks take both arrays over as they
// stand, and the definitions speak of each by itself (`starts_to`, `HavePairs`, `clash`).
#[derive(Clone, Copy)]
pub struct Directory {
    // how many updates it holds
    pub count: usize,
    // the first block of each, and how many blocks each has
    pub starts: [u8; MOST_BLOCKS],
    pub sizes: [u8; MOST_BLOCKS],
}

// Reads a store; a bad one has no directory.
pub fn read_store(s: &[u8]) -> Option<Directory>
    ensures { result ≡ stored s.now }
{
    if !store_blocks::length_ok(s.len()) {
        return None;
    }
    let d = scan::scan(s, s.len() / store_blocks::BLOCK)?;
    if clash::clash(s, &d) {
        return None;
    }
    Some(d)
}
