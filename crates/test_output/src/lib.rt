// What the programs write to standard output.
#![tactic(auto)]

use std::io;
use std::io::Print;

pub fn text<P: Print>(out: &P, s: &[u8]) -> io::Result<()> {
    out.write_all(s)
}

// A number behind a label. The next two differ in its form alone, which `print!` takes only as a literal.
pub fn number<P: Print>(out: &P, label: &[u8], n: u32) -> io::Result<()> {
    text(out, label)?;
    print!(out; "{n}")
}

// A number of two hex digits behind a label.
pub fn code<P: Print>(out: &P, label: &[u8], n: u32) -> io::Result<()> {
    text(out, label)?;
    print!(out; "{n:02x}")
}

// A number of eight hex digits behind a label.
pub fn dword<P: Print>(out: &P, label: &[u8], n: u32) -> io::Result<()> {
    text(out, label)?;
    print!(out; "{n:08x}")
}

// The 16 answer words, each behind a space.
pub fn words<P: Print>(out: &P, answer: &[u32; 16]) -> io::Result<()> {
    for n in answer {
        number(out, b" ", *n)?;
    }
    Ok(())
}
