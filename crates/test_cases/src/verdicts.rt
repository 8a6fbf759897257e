// Cases of the verdict: the checksum and the sizes of one update. A function for each way to make the update: they differ in what they call.
use crate::lines;
use std::io;
use std::io::Print;
use test_samples::{bytes, make};

// The first `n` bytes of P, with a revision and a checksum.
fn p<P: Print>(out: &P, label: &[u8], revision: u32, checksum: u32, n: usize) -> io::Result<()> {
    let buf: &mut [u8] = &mut [0u8; 65536];
    make::p(buf, revision, checksum);
    lines::verdict(out, label, bytes::first(buf, n))
}

// P with one dword changed and its checksum made right.
fn changed_p<P: Print>(out: &P, label: &[u8], at: usize, x: u32) -> io::Result<()> {
    let buf: &mut [u8] = &mut [0u8; 65536];
    make::p(buf, 7, 0);
    bytes::dword(buf, at, x);
    make::balance(buf, 16, 0, 2048);
    lines::verdict(out, label, bytes::first(buf, 2048))
}

// `n` bytes with D and T as given, whose sum is right.
fn sizes<P: Print>(out: &P, label: &[u8], d: u32, t: u32, n: usize) -> io::Result<()> {
    let buf: &mut [u8] = &mut [0u8; 65536];
    make::plain(buf, 7, 0x650, 6, d, t);
    lines::verdict(out, label, bytes::first(buf, n))
}

// `lent` bytes with D and a table of `n` entries, whose sums are right.
fn table<P: Print>(out: &P, label: &[u8], d: u32, n: u32, lent: usize) -> io::Result<()> {
    let buf: &mut [u8] = &mut [0u8; 65536];
    make::tabled(buf, 0x650, 6, d, n);
    lines::verdict(out, label, bytes::first(buf, lent))
}

// The same with D 1,968 and one entry, a dword of the table at 2,016 changed, and the table's sum made right.
fn changed_table<P: Print>(out: &P, label: &[u8], at: usize, x: u32) -> io::Result<()> {
    let buf: &mut [u8] = &mut [0u8; 65536];
    make::tabled(buf, 0x650, 6, 1968, 1);
    bytes::dword(buf, at, x);
    make::balance(buf, 2020, 2016, 2048);
    lines::verdict(out, label, bytes::first(buf, 2048))
}

// The same with a table that sums to 1, the header's sum made right, and with it the entry's.
fn unsealed_table<P: Print>(out: &P, label: &[u8]) -> io::Result<()> {
    let buf: &mut [u8] = &mut [0u8; 65536];
    make::tabled(buf, 0x650, 6, 1968, 1);
    bytes::dword(buf, 2024, 2);
    let checksum = update_header::fields::checksum(buf);
    bytes::dword(buf, 16, checksum.wrapping_sub(1));
    let entry = bytes_dwords::dword(buf, 2044);
    bytes::dword(buf, 2044, entry.wrapping_sub(1));
    lines::verdict(out, label, bytes::first(buf, 2048))
}

fn verdicts<P: Print>(out: &P) -> io::Result<()> {
    p(out, b"P", 7, 0xF8E7E009, 2048)?;
    p(out, b"P with bytes behind it", 7, 0xF8E7E009, 2049)?;
    p(out, b"P, a byte short", 7, 0xF8E7E009, 2047)?;
    p(out, b"47 bytes of P", 7, 0xF8E7E009, 47)?;
    p(out, b"no bytes", 7, 0xF8E7E009, 0)?;
    p(out, b"P with checksum F8E7E00A", 7, 0xF8E7E00A, 2048)?;
    p(
        out,
        b"P with revision 8, checksum F8E7E008",
        8,
        0xF8E7E008,
        2048,
    )?;
    changed_p(out, b"header version 2", 0, 2)?;
    changed_p(out, b"loader version 0", 20, 0)?;
    changed_p(out, b"D 0 with FFFFFFFF at 32", 32, 0xFFFFFFFF)?;
    changed_p(out, b"reserved bytes of any content", 44, 0x12345678)?;
    changed_p(out, b"data of any content", 2044, 0x12345678)
}

fn plain_sizes<P: Print>(out: &P) -> io::Result<()> {
    sizes(out, b"D 976, T 1024", 976, 1024, 1024)?;
    sizes(out, b"D 2000, T 2048", 2000, 2048, 2048)?;
    sizes(out, b"D 32720, T 32768", 32720, 32768, 32768)?;
    sizes(out, b"D 32720, T 32768, a byte short", 32720, 32768, 32767)?;
    sizes(out, b"D 33744, T 33792", 33744, 33792, 33792)?;
    sizes(out, b"D 980, T 1028", 980, 1028, 1028)?;
    sizes(out, b"D 978, T 1026", 978, 1026, 1028)?;
    sizes(
        out,
        b"D FFFFFFD0, T 0: 48 + D is not 0",
        0xFFFFFFD0,
        0,
        2048,
    )?;
    sizes(
        out,
        b"D 964, T 1024: twelve bytes are no table",
        964,
        1024,
        1024,
    )?;
    sizes(
        out,
        b"D 956, T 1024: a table of no entries",
        956,
        1024,
        1024,
    )
}

fn table_sizes<P: Print>(out: &P) -> io::Result<()> {
    table(out, b"D 1968, T 2048, n 1", 1968, 1, 2048)?;
    table(out, b"D 1212, T 2048, n 64", 1212, 64, 2048)?;
    table(out, b"D 1200, T 2048, n 65", 1200, 65, 2048)?;
    changed_table(
        out,
        b"a table's reserved bytes of any content",
        2032,
        0x12345678,
    )?;
    changed_table(out, b"count field 2 in a table of one entry", 2016, 2)?;
    changed_table(out, b"an entry whose sum is not the header's", 2036, 0x660)?;
    unsealed_table(out, b"a table that doesn't sum to 0")
}

// T off the kilobyte, with a table.
fn other_ends<P: Print>(out: &P) -> io::Result<()> {
    table(out, b"D 1964, T 2044, n 1", 1964, 1, 2044)?;
    table(out, b"D 1972, T 2052, n 1", 1972, 1, 2052)?;
    table(out, b"D 1972, T 2052, n 1, a byte short", 1972, 1, 2051)?;
    table(out, b"D 4, T 84, n 1", 4, 1, 84)?;
    table(out, b"D 1966, T 2046, n 1", 1966, 1, 2048)?;
    table(out, b"D 1968, T 2804, n 64", 1968, 64, 2804)?;
    table(out, b"D 1968, T 2816, n 65", 1968, 65, 2816)?;
    table(out, b"D 32688, T 32768, n 1", 32688, 1, 32768)?;
    table(out, b"D 32692, T 32772, n 1", 32692, 1, 32772)
}

pub fn run<P: Print>(out: &P) -> io::Result<()> {
    verdicts(out)?;
    plain_sizes(out)?;
    table_sizes(out)?;
    other_ends(out)
}
