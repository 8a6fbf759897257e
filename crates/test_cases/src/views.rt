// Cases of a view: the header fields of P that no other line has.
use crate::lines;
use std::io;
use std::io::Print;
use test_samples::{bytes, make};

// The first `n` bytes of P.
fn p<P: Print>(out: &P, label: &[u8], n: usize) -> io::Result<()> {
    let buf: &mut [u8] = &mut [0u8; 65536];
    make::p(buf, 7, 0xF8E7E009);
    lines::view(out, label, bytes::first(buf, n))
}

pub fn run<P: Print>(out: &P) -> io::Result<()> {
    p(out, b"view of P", 2048)?;
    p(out, b"view of P, a byte short", 2047)
}
