// The lines of output.
ghost use Rattle.std.specs.Prelude.{◌≡◌};
ghost use Rattle.test_vectors.specs.Lines.{line_of};

use crate::digest;
use crate::state::State;
use std::io;
use std::io::Print;

// The line of a call: its result, the answer words, and the digests of the store and the destination.
#[derive(Clone, Copy)]
pub struct Line {
    pub result: u32,
    pub answer: [u32; 16],
    pub store: u32,
    pub destination: u32,
}

impl Line {
    // The line of a result, the answer words, the store and the destination.
    pub fn of(returned: u32, answer: [u32; 16], store: &[u8], destination: &[u8]) -> Line
        ensures { result ≡ line_of returned answer store.now destination.now }
    {
        Line {
            result: returned,
            answer,
            store: digest::digest(store),
            destination: digest::digest(destination),
        }
    }
}

// The line of a call that makes an index, with its digest behind.
#[derive(Clone, Copy)]
pub struct IndexLine {
    pub line: Line,
    pub index: u32,
}

// The columns that every line has.
fn columns<P: Print>(out: &P, line: Line) -> io::Result<()> {
    let answer = line.answer;
    test_output::dword(out, b"", line.result)?;
    test_output::words(out, &answer)?;
    test_output::dword(out, b" ", line.store)?;
    test_output::dword(out, b" ", line.destination)
}

pub fn write<P: Print>(out: &P, line: Line) -> io::Result<()> {
    columns(out, line)?;
    test_output::text(out, b"\n")
}

pub fn write_index<P: Print>(out: &P, made: IndexLine) -> io::Result<()> {
    let line = made.line;
    columns(out, line)?;
    test_output::dword(out, b" ", made.index)?;
    test_output::text(out, b"\n")
}

// The line behind the last step, after which there is no state where it broke a bound.
pub fn last<P: Print>(out: &P, last: Option<State>) -> io::Result<()> {
    match last {
        Some(s) => {
            test_output::number(out, b"", s.calls)?;
            test_output::text(out, b" calls\n")
        }
        None => test_output::text(out, b"bad vectors\n"),
    }
}
