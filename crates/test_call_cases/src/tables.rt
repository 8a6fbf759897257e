// Updates with a table of one entry, most of which end off the kilobyte: each is written into 17 unused blocks and read back; then the byte
// right behind it is made 00h, so that the rest of a last block begins one byte late.
use crate::{lines, writes};
use std::io;
use std::io::Print;
use test_samples::{bytes, make};

// Bytes of the store.
const STORE: usize = 34816;

// Presence, or a read of block 0.
fn call<P: Print>(
    out: &P,
    label: &[u8],
    sub: u32,
    store: &mut [u8],
    destination: &mut [u8],
) -> io::Result<()> {
    let mut answer = [0xA5A5A5A5u32; 16];
    let ax = board::update_store_call(
        0xD042,
        sub,
        0,
        0,
        false,
        store,
        &[],
        &[],
        &[],
        0,
        destination,
        &mut answer,
    );
    lines::answer(out, label, ax, &answer)
}

// Makes the store's blocks unused.
fn empty(store: &mut [u8]) {
    bytes::fill(store, 0, 32768, 255);
    bytes::fill(store, 32768, 2048, 255);
}

// What was read of an update of `t` bytes in blocks of `taken`: the sums of its bytes and of the rest, and the rest's first dword.
fn read_back<P: Print>(out: &P, s: &[u8], t: usize, taken: usize) -> io::Result<()> {
    let rest = bytes::behind(bytes::first(s, taken), t);
    test_output::dword(
        out,
        b"  its bytes sum to ",
        bytes_dwords::sum(bytes::first(s, t)),
    )?;
    test_output::dword(out, b", the rest to ", bytes_dwords::sum(rest))?;
    test_output::dword(out, b", which begins ", bytes_dwords::dword(rest, 0))?;
    test_output::text(out, b"\n")
}

// An update of `d` data bytes and `t` in all is written into unused blocks, for the processor of its entry.
fn write_tabled<P: Print>(
    out: &P,
    label: &[u8],
    store: &mut [u8],
    d: u32,
    t: u32,
) -> io::Result<()> {
    let candidate: &mut [u8] = &mut [0u8; 65536];
    make::tabled(candidate, 0x650, 2, d, 1);
    empty(store);
    writes::write(
        out,
        label,
        store,
        &[0x651],
        &[1],
        bytes::first(candidate, t as usize),
        7,
    )?;
    Ok(())
}

// One that is stored in blocks of `taken` bytes.
fn good<P: Print>(out: &P, label: &[u8], d: u32, t: u32, taken: usize) -> io::Result<()> {
    let store: &mut [u8] = &mut [0u8; STORE];
    write_tabled(out, label, store, d, t)?;
    let destination: &mut [u8] = &mut [0u8; 65536];
    call(out, b"  read: ", 3, store, destination)?;
    read_back(out, destination, t as usize, taken)?;
    bytes::fill(store, t as usize, 1, 0);
    call(out, b"  with 00h right behind it: ", 0, store, destination)
}

// One that is refused: block 0 is unused as before.
fn refused<P: Print>(out: &P, label: &[u8], d: u32, t: u32) -> io::Result<()> {
    let store: &mut [u8] = &mut [0u8; STORE];
    write_tabled(out, label, store, d, t)?;
    let destination: &mut [u8] = &mut [0u8; 65536];
    call(out, b"  read: ", 3, store, destination)?;
    test_output::dword(out, b"  sums to ", bytes_dwords::sum(destination))?;
    test_output::text(out, b"\n")
}

pub fn run<P: Print>(out: &P) -> io::Result<()> {
    good(out, b"T 2044, one entry, written: ", 1964, 2044, 2048)?;
    good(out, b"T 2048, one entry, written: ", 1968, 2048, 2048)?;
    good(out, b"T 2052, one entry, written: ", 1972, 2052, 4096)?;
    good(out, b"T 84, one entry, written: ", 4, 84, 2048)?;
    good(out, b"T 32768, one entry, written: ", 32688, 32768, 32768)?;
    refused(out, b"T 32772, one entry, written: ", 32692, 32772)?;
    refused(out, b"T 2046, one entry, written: ", 1966, 2046)
}
