// Cases of the write. Behind each stands what the processors get at start-up.
use crate::lines;
use std::io;
use std::io::Print;
use test_samples::{bytes, make, stores};

// What the processor with a signature and platform 1 gets.
fn load<P: Print>(out: &P, label: &[u8], store: &[u8], signature: u32) -> io::Result<()> {
    let mut answer = [0xA5A5A5A5u32; 16];
    let ax = board::update_store_load(true, store, signature, 1, &mut answer);
    lines::answer(out, label, ax, &answer)
}

// A write; its answer words are returned.
pub fn write<P: Print>(
    out: &P,
    label: &[u8],
    store: &mut [u8],
    signatures: &[u32],
    platforms: &[u8],
    candidate: &[u8],
    back: u32,
) -> io::Result<[u32; 16]> {
    let mut destination = [0u8; 1];
    let mut answer = [0xA5A5A5A5u32; 16];
    let ax = board::update_store_call(
        0xD042,
        1,
        0,
        0,
        false,
        store,
        signatures,
        platforms,
        candidate,
        back,
        &mut destination,
        &mut answer,
    );
    lines::answer(out, label, ax, &answer)?;
    Ok(answer)
}

// Writes a revision of P into four blocks with P in block 1, for one listed processor.
fn write_p<P: Print>(
    out: &P,
    label: &[u8],
    revision: u32,
    checksum: u32,
    back: u32,
    signature: u32,
    platform: u8,
) -> io::Result<()> {
    let store: &mut [u8] = &mut [0u8; 8192];
    stores::four_blocks(store);
    let candidate: &mut [u8] = &mut [0u8; 65536];
    make::p(candidate, revision, checksum);
    write(
        out,
        label,
        store,
        &[signature],
        &[platform],
        candidate,
        back,
    )?;
    load(out, b"  (650, 1): ", store, 0x650)
}

// Stored E covers A, (651h, 1) and B, (652h, 1); the candidate covers A only. `n` of A, B are listed.
fn write_over_e<P: Print>(out: &P, label: &[u8], n: usize) -> io::Result<()> {
    let store: &mut [u8] = &mut [0u8; 4096];
    make::tabled(store, 0x650, 2, 1956, 2);
    bytes::fill(store, 2048, 2048, 255);
    let candidate: &mut [u8] = &mut [0u8; 65536];
    make::plain(candidate, 8, 0x651, 2, 2000, 2048);
    let signatures = [0x651u32, 0x652];
    let platforms = [1u8, 1];
    if n <= 2 {
        write(
            out,
            label,
            store,
            &signatures[..n],
            &platforms[..n],
            candidate,
            8,
        )?;
    }
    load(out, b"  A: ", store, 0x651)?;
    load(out, b"  B: ", store, 0x652)
}

pub fn run<P: Print>(out: &P) -> io::Result<()> {
    write_p(out, b"P written again: ", 7, 0xF8E7E009, 7, 0x650, 1)?;
    write_p(
        out,
        b"P with revision 8 written: ",
        8,
        0xF8E7E008,
        8,
        0x650,
        1,
    )?;
    write_p(
        out,
        b"P with revision 8, read back 7: ",
        8,
        0xF8E7E008,
        7,
        0x650,
        1,
    )?;
    write_p(
        out,
        b"P with a wrong checksum written: ",
        8,
        0xF8E7E009,
        8,
        0x650,
        1,
    )?;
    write_p(out, b"P written for (650, 2): ", 8, 0xF8E7E008, 8, 0x650, 2)?;
    write_p(out, b"P written for (650, 0): ", 8, 0xF8E7E008, 8, 0x650, 0)?;
    write_p(out, b"P written for (650, 8): ", 8, 0xF8E7E008, 8, 0x650, 8)?;
    write_over_e(out, b"E over A and B, both listed: ", 2)?;
    write_over_e(out, b"E over A and B, only A listed: ", 1)?;
    write_over_e(out, b"E over A and B, none listed: ", 0)
}
