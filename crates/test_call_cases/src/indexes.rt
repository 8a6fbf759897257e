// Cases of the index made from a store.
use crate::lines;
use std::io;
use std::io::Print;
use store_blocks::MOST_BLOCKS;
use store_index::COLUMNS;
use test_samples::{bytes, stores};

// The index of a store.
pub fn made<P: Print>(out: &P, label: &[u8], store: &[u8]) -> io::Result<()> {
    let mut index = [[0xA5A5A5A5u32; MOST_BLOCKS]; COLUMNS];
    let mut answer = [0xA5A5A5A5u32; 16];
    let ax = board::update_store_index(store, &mut index, &mut answer);
    lines::answer(out, label, ax, &answer)?;
    lines::index(out, &index)
}

// Four blocks with P in block 1, then eight with an update of two blocks as well.
pub fn run<P: Print>(out: &P) -> io::Result<()> {
    let store: &mut [u8] = &mut [0u8; 65536];
    stores::four_blocks(store);
    made(out, b"index of four blocks: ", bytes::first(store, 8192))?;
    made(
        out,
        b"index of four blocks and a byte: ",
        bytes::first(store, 8193),
    )?;
    made(
        out,
        b"index of an unused block: ",
        bytes::first(store, 2048),
    )?;
    made(out, b"index of no bytes: ", bytes::first(store, 0))?;
    stores::eight_blocks(store);
    made(out, b"index of eight blocks: ", bytes::first(store, 16384))?;
    made(
        out,
        b"index of an update cut off: ",
        bytes::first(store, 8192),
    )
}
