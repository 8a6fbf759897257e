// Cases of the read and of the load choice through an index.
use crate::numbers::Index;
use crate::{lines, numbers};
use std::io;
use std::io::Print;
use store_blocks::MOST_BLOCKS;
use store_index::{COLUMNS, KINDS, REVISIONS, SIZES};
use test_samples::{bytes, stores};

// A read into a destination of `n` bytes.
fn read<P: Print>(
    out: &P,
    label: &[u8],
    index: &Index,
    store: &[u8],
    block: u32,
    n: usize,
) -> io::Result<()> {
    let destination: &mut [u8] = &mut [0u8; 65536];
    let mut answer = [0xA5A5A5A5u32; 16];
    if n <= destination.len() {
        let ax = board::update_store_read_indexed(
            index,
            block,
            store,
            &mut destination[0..n],
            &mut answer,
        );
        lines::answer(out, label, ax, &answer)?;
    }
    Ok(())
}

fn load<P: Print>(
    out: &P,
    label: &[u8],
    loading: bool,
    index: &Index,
    store: &[u8],
    signature: u32,
    platform: u32,
) -> io::Result<()> {
    let mut answer = [0xA5A5A5A5u32; 16];
    let ax = board::update_store_load_indexed(
        loading,
        index,
        store,
        signature,
        platform,
        &mut answer,
    );
    lines::answer(out, label, ax, &answer)
}

fn reads<P: Print>(out: &P, own: &Index, store: &[u8]) -> io::Result<()> {
    read(out, b"indexed read, block 0: ", own, store, 0, 2048)?;
    read(out, b"indexed read, block 1: ", own, store, 1, 2048)?;
    read(out, b"indexed read, block 3: ", own, store, 3, 4096)?;
    read(
        out,
        b"indexed read, block 3, a byte short: ",
        own,
        store,
        3,
        4095,
    )?;
    read(out, b"indexed read, block 4: ", own, store, 4, 4096)?;
    read(out, b"indexed read, block 8: ", own, store, 8, 2048)
}

// Reads through indexes that differ from the own one in one number, and through that of four blocks.
fn other_reads<P: Print>(out: &P, own: &Index, other: &Index, store: &[u8]) -> io::Result<()> {
    let revision = numbers::with_number(own, REVISIONS, 1, 8);
    read(
        out,
        b"indexed read, another revision: ",
        &revision,
        store,
        1,
        2048,
    )?;
    read(
        out,
        b"indexed read, another revision, block 8: ",
        &revision,
        store,
        8,
        2048,
    )?;
    let behind = numbers::with_number(own, SIZES, 31, 1);
    read(
        out,
        b"indexed read, a size behind N: ",
        &behind,
        store,
        1,
        2048,
    )?;
    let kind = numbers::with_number(own, KINDS, 0, 3);
    read(out, b"indexed read, a kind 3: ", &kind, store, 0, 2048)?;
    read(
        out,
        b"indexed read, another store's index: ",
        other,
        store,
        1,
        2048,
    )
}

fn loads<P: Print>(out: &P, own: &Index, store: &[u8]) -> io::Result<()> {
    load(out, b"indexed load, (650, 1): ", true, own, store, 0x650, 1)?;
    load(out, b"indexed load, (683, 7): ", true, own, store, 0x683, 7)?;
    load(out, b"indexed load, (650, 0): ", true, own, store, 0x650, 0)?;
    load(
        out,
        b"indexed load, (650, 1), loading off: ",
        false,
        own,
        store,
        0x650,
        1,
    )?;
    load(out, b"indexed load, (650, 8): ", true, own, store, 0x650, 8)?;
    let size = numbers::with_number(own, SIZES, 4, 1);
    load(
        out,
        b"indexed load, another size: ",
        true,
        &size,
        store,
        0x650,
        1,
    )?;
    load(
        out,
        b"indexed load, another size, (650, 8): ",
        true,
        &size,
        store,
        0x650,
        8,
    )?;
    load(
        out,
        b"indexed load, another size, loading off: ",
        false,
        &size,
        store,
        0x650,
        1,
    )
}

// The update in block 3 is cut off. Its index is 128 zeros.
fn bad_store<P: Print>(out: &P, own: &Index, store: &[u8]) -> io::Result<()> {
    let mut zeros = [[0xA5A5A5A5u32; MOST_BLOCKS]; COLUMNS];
    let mut answer = [0u32; 16];
    board::update_store_index(store, &mut zeros, &mut answer);
    read(out, b"indexed read, bad store: ", &zeros, store, 0, 2048)?;
    read(
        out,
        b"indexed read, bad store, another index: ",
        own,
        store,
        1,
        2048,
    )?;
    load(
        out,
        b"indexed load, bad store: ",
        true,
        &zeros,
        store,
        0x650,
        8,
    )?;
    load(
        out,
        b"indexed load, bad store, another index: ",
        false,
        own,
        store,
        0x650,
        1,
    )
}

pub fn run<P: Print>(out: &P) -> io::Result<()> {
    let store: &mut [u8] = &mut [0u8; 65536];
    let mut other = [[0u32; MOST_BLOCKS]; COLUMNS];
    let mut own = [[0u32; MOST_BLOCKS]; COLUMNS];
    let mut answer = [0u32; 16];
    stores::four_blocks(store);
    board::update_store_index(bytes::first(store, 8192), &mut other, &mut answer);
    stores::eight_blocks(store);
    board::update_store_index(bytes::first(store, 16384), &mut own, &mut answer);
    reads(out, &own, bytes::first(store, 16384))?;
    other_reads(out, &own, &other, bytes::first(store, 16384))?;
    loads(out, &own, bytes::first(store, 16384))?;
    bad_store(out, &own, bytes::first(store, 8192))
}
