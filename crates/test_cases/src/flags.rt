// Cases of the platforms that flags name.
use crate::lines;
use std::io;
use std::io::Print;
use test_samples::make;

fn flags_name<P: Print>(out: &P, label: &[u8], flags: u32) -> io::Result<()> {
    let buf: &mut [u8] = &mut [0u8; 65536];
    make::plain(buf, 7, 0x650, flags, 976, 1024);
    lines::platforms(out, label, buf)
}

pub fn run<P: Print>(out: &P) -> io::Result<()> {
    flags_name(out, b"flags 06", 6)?;
    flags_name(out, b"flags FFFFFF81", 0xFFFFFF81)?;
    flags_name(out, b"flags 80", 0x80)?;
    flags_name(out, b"flags 100", 0x100)?;
    flags_name(out, b"flags 0", 0)
}
