// Cases of coverage, a function for each way to make the update.
use crate::lines;
use std::io;
use std::io::Print;
use test_samples::{bytes, make};

// Coverage by P.
fn p_covers<P: Print>(out: &P, label: &[u8], signature: u32, platform: u32) -> io::Result<()> {
    let buf: &mut [u8] = &mut [0u8; 65536];
    make::p(buf, 7, 0xF8E7E009);
    lines::covers(out, label, buf, signature, platform)
}

// Coverage by an update of signature 650 with given flags.
fn flags_cover<P: Print>(out: &P, label: &[u8], flags: u32, platform: u32) -> io::Result<()> {
    let buf: &mut [u8] = &mut [0u8; 65536];
    make::plain(buf, 7, 0x650, flags, 976, 1024);
    lines::covers(out, label, buf, 0x650, platform)
}

// Coverage by the first `n` bytes of an update of signature 650 and 64 entries for 651 to 690.
fn entries_cover<P: Print>(
    out: &P,
    label: &[u8],
    n: usize,
    signature: u32,
    platform: u32,
) -> io::Result<()> {
    let buf: &mut [u8] = &mut [0u8; 65536];
    make::tabled(buf, 0x650, 6, 1212, 64);
    lines::covers(out, label, bytes::first(buf, n), signature, platform)
}

pub fn run<P: Print>(out: &P) -> io::Result<()> {
    p_covers(out, b"P covers (650, 0)", 0x650, 0)?;
    p_covers(out, b"P covers (650, 1)", 0x650, 1)?;
    p_covers(out, b"P covers (650, 2)", 0x650, 2)?;
    p_covers(out, b"P covers (650, 3)", 0x650, 3)?;
    p_covers(out, b"P covers (651, 1)", 0x651, 1)?;
    flags_cover(out, b"flags FFFFFF00 cover (650, 0)", 0xFFFFFF00, 0)?;
    flags_cover(out, b"flags FFFFFF00 cover (650, 8)", 0xFFFFFF00, 8)?;
    flags_cover(out, b"flags 80 cover (650, 7)", 0x80, 7)?;
    entries_cover(out, b"64 entries cover (690, 2)", 2048, 0x690, 2)?;
    entries_cover(out, b"64 entries cover (691, 2)", 2048, 0x691, 2)?;
    entries_cover(out, b"2,047 bytes of them cover (650, 2)", 2047, 0x650, 2)
}
