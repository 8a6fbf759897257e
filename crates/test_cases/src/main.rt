// Runs document 01's cases of updates, of a store and of the calls that only read, and writes a line for each.
#![tactic(auto)]

mod covers;
mod flags;
mod lines;
mod shares;
mod stores;
mod verdicts;
mod views;

use std::io;

fn main(rt: HostRuntime) -> io::Result<()> {
    verdicts::run(&rt)?;
    covers::run(&rt)?;
    shares::run(&rt)?;
    flags::run(&rt)?;
    views::run(&rt)?;
    stores::run(&rt)
}
