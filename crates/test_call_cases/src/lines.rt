// Lines of output.
use crate::numbers::Index;
use std::io;
use std::io::Print;
use store_blocks::MOST_BLOCKS;
use store_index::{KINDS, Line, REVISIONS, SIZES, STARTS};

// A label, the result, and the answer words.
pub fn answer<P: Print>(out: &P, label: &[u8], ax: u32, answer: &[u32; 16]) -> io::Result<()> {
    test_output::dword(out, label, ax)?;
    test_output::text(out, b",")?;
    test_output::words(out, answer)?;
    test_output::text(out, b"\n")
}

// The line of block `b`: block, kind, start, revision and size. One of zeros is left out.
fn line<P: Print>(out: &P, b: u32, l: Line) -> io::Result<()> {
    if (l.kind | l.start | l.revision | l.size) != 0 {
        test_output::number(out, b"  ", b)?;
        test_output::number(out, b": ", l.kind)?;
        test_output::number(out, b" ", l.start)?;
        test_output::number(out, b" ", l.revision)?;
        test_output::number(out, b" ", l.size)?;
        test_output::text(out, b"\n")?;
    }
    Ok(())
}

// The lines of an index.
pub fn index<P: Print>(out: &P, x: &Index) -> io::Result<()> {
    for b in 0..MOST_BLOCKS {
        let l = Line {
            kind: x[KINDS][b],
            start: x[STARTS][b],
            revision: x[REVISIONS][b],
            size: x[SIZES][b],
        };
        line(out, b as u32, l)?;
    }
    Ok(())
}
