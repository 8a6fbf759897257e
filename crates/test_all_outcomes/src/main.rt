// Tries the write call on every small store, and compares each answer and each store afterwards with the best of all outcomes, found by
// going through them one by one.
#![tactic(auto)]

mod layout;
mod make;
mod outcomes;
mod set_blocks;
mod tally;
mod trial;

use std::io;

fn main(rt: HostRuntime) -> io::Result<()> {
    let mut store = [0u8; 65536];
    let mut wanted = [0u8; 65536];
    tally::write(&rt, tally::all(&mut store, &mut wanted))
}
