// Sums slices of 0 to 8,192 dwords, with up to three bytes behind them, and slices that begin inside a dword, and writes a line for each.
#![tactic(auto)]

use std::io;
use std::io::Print;
use test_samples::bytes;

// Dword k is k + 1 times 9E3779B9h, modulo 2^32: a sum that leaves one out, adds one twice or counts bytes behind the last shows it.
fn fill(buf: &mut [u8]) {
    let mut x: u32 = 0;
    for k in 0..8200usize {
        x = x.wrapping_add(0x9E3779B9);
        bytes::dword(buf, 4 * k, x);
    }
}

// The sum of so many dwords and so many bytes behind them, from byte `from` on.
fn line<P: Print>(out: &P, buf: &[u8], from: u32, dwords: u32, more: u32) -> io::Result<()> {
    let n = 4 * (dwords as usize) + more as usize;
    let part = bytes::first(bytes::behind(buf, from as usize), n);
    test_output::number(out, b"from byte ", from)?;
    test_output::number(out, b", dwords ", dwords)?;
    test_output::number(out, b", more bytes ", more)?;
    test_output::dword(out, b": ", bytes_dwords::sum(part))?;
    test_output::text(out, b"\n")
}

// With no byte behind the last dword, and with one, two and three.
fn lines<P: Print>(out: &P, buf: &[u8], dwords: u32) -> io::Result<()> {
    for more in 0..4 {
        line(out, buf, 0, dwords, more)?;
    }
    Ok(())
}

fn main(rt: HostRuntime) -> io::Result<()> {
    let buf: &mut [u8] = &mut [0u8; 65536];
    fill(buf);
    for dwords in [0, 1, 15, 16, 17, 31, 32, 33, 512, 8192] {
        lines(&rt, buf, dwords)?;
    }
    line(&rt, buf, 1, 33, 0)?;
    line(&rt, buf, 2, 33, 1)?;
    line(&rt, buf, 3, 33, 2)?;
    line(&rt, buf, 1, 8192, 3)
}
