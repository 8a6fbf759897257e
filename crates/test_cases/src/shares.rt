// Cases of sharing.
use crate::lines;
use std::io;
use std::io::Print;
use test_samples::make;

// Whether P shares a processor with an update without a table.
fn p_shares<P: Print>(out: &P, label: &[u8], signature: u32, flags: u32) -> io::Result<()> {
    let buf: &mut [u8] = &mut [0u8; 65536];
    let other: &mut [u8] = &mut [0u8; 65536];
    make::p(buf, 7, 0xF8E7E009);
    make::plain(other, 7, signature, flags, 976, 1024);
    lines::shares(out, label, buf, other)
}

// Whether two updates share a processor, the first with flags 06 and `m` entries, the second with `n`.
fn entries_share<P: Print>(
    out: &P,
    label: &[u8],
    first: u32,
    m: u32,
    second: u32,
    n: u32,
    flags: u32,
) -> io::Result<()> {
    let buf: &mut [u8] = &mut [0u8; 65536];
    let other: &mut [u8] = &mut [0u8; 65536];
    make::tabled(buf, first, 6, 1980 - 12 * (m % 65), m % 65);
    make::tabled(other, second, flags, 1980 - 12 * (n % 65), n % 65);
    lines::shares(out, label, buf, other)
}

pub fn run<P: Print>(out: &P) -> io::Result<()> {
    p_shares(out, b"P and 650 with flags 02", 0x650, 2)?;
    p_shares(out, b"P and 650 with flags 01", 0x650, 1)?;
    p_shares(out, b"P and 650 with flags 104", 0x650, 0x104)?;
    p_shares(out, b"P and 651 with flags 06", 0x651, 6)?;
    entries_share(
        out,
        b"650 in the header and in an entry",
        0x650,
        1,
        0x64F,
        1,
        6,
    )?;
    entries_share(
        out,
        b"650 in an entry and in the header",
        0x64F,
        1,
        0x650,
        1,
        6,
    )?;
    entries_share(
        out,
        b"the last of 64 entries in common",
        0x610,
        64,
        0x5D0,
        64,
        2,
    )?;
    entries_share(
        out,
        b"64 entries each, none in common",
        0x610,
        64,
        0x651,
        64,
        6,
    )?;
    entries_share(
        out,
        b"64 entries each, bit 8 alone in common",
        0x610,
        64,
        0x610,
        64,
        0x101,
    )
}
