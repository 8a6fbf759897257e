// Runs cases of the calls and of the index on the board's C interface, and writes for each the result and the 16 answer words.
#![tactic(auto)]

mod calls;
mod carried;
mod indexed;
mod indexes;
mod lines;
mod numbers;
mod tables;
mod writes;

use std::io;

fn main(rt: HostRuntime) -> io::Result<()> {
    writes::run(&rt)?;
    tables::run(&rt)?;
    calls::run(&rt)?;
    indexes::run(&rt)?;
    carried::run(&rt)?;
    indexed::run(&rt)
}
