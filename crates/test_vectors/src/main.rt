// Runs test vectors on the board's C interface: reads steps from standard input, makes the calls, and writes a line for each.
#![tactic(auto)]

mod buffers;
mod calls;
mod digest;
mod edits;
mod indexed;
mod indexes;
mod input;
mod lengths;
mod lines;
mod lists;
mod run;
mod state;

use crate::buffers::{CANDIDATE, DESTINATION, LIST, Memory, STORE};
use std::io;
use store_blocks::MOST_BLOCKS;
use store_index::COLUMNS;

fn main(rt: HostRuntime) -> io::Result<()> {
    let mut memory = Memory {
        store: [0; STORE],
        candidate: [0; CANDIDATE],
        destination: [0; DESTINATION],
        signatures: [0; LIST],
        platforms: [0; LIST],
        index: [[0; MOST_BLOCKS]; COLUMNS],
    };
    let mut reader = rt.stdin();
    let last = run::run(&rt, &mut reader, &mut memory)?;
    lines::last(&rt, last)
}
