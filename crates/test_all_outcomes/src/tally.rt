// All small stores tried, and counted by their answers.
ghost use Rattle.std.specs.Prelude.{◌≡◌};
ghost use Rattle.test_all_outcomes.specs.Tallies.{no_tally, with_written, with_refused, with_became, with_judged, with_call, with_seen};

use crate::trial::{Candidate, Seen};
use crate::{layout, make, trial};
use call_answers::code;
use std::io;
use std::io::Print;

#[derive(Clone, Copy)]
pub struct Tally {
    pub writes: u32,
    pub both_marks: u32,
    pub full: u32,
    pub written: u32,
    pub differences: u32,
    pub emptied: [u32; 5],
}

#[tactic(auto, unfolding(crate::specs::Tallies::no_tally))]
fn none() -> Tally
    ensures { result ≡ no_tally }
{
    let emptied = [0; 5];
    Tally {
        writes: 0,
        both_marks: 0,
        full: 0,
        written: 0,
        differences: 0,
        emptied,
    }
}

// A write counted by its emptied count.
#[tactic(auto, unfolding(crate::specs::Tallies::with_written))]
fn with_written(t: Tally, emptied: u32) -> Tally
    ensures { result ≡ with_written t emptied }
{
    let mut u = t;
    let i = emptied as usize;
    u.written = t.written.wrapping_add(1);
    if i < 5 {
        u.emptied[i] = t.emptied[i].wrapping_add(1);
    }
    u
}

// A refusal counted by its AL.
#[tactic(auto, unfolding(crate::specs::Tallies::with_refused))]
fn with_refused(t: Tally, al: u8) -> Tally
    ensures { result ≡ with_refused t al }
{
    let mut u = t;
    match al {
        code::SHARING_NEEDED => u.both_marks = t.both_marks.wrapping_add(1),
        code::NO_RUN => u.full = t.full.wrapping_add(1),
        _ => {}
    }
    u
}

// A write counted by its emptied count, or a refusal by its AL.
#[tactic(auto, unfolding(crate::specs::Tallies::with_became))]
fn with_became(t: Tally, became: Result<u32, u8>) -> Tally
    ensures { result ≡ with_became t became }
{
    match became {
        Ok(emptied) => with_written(t, emptied),
        Err(al) => with_refused(t, al),
    }
}

// A difference counted, if a write was not as it should be.
#[tactic(auto, unfolding(crate::specs::Tallies::with_judged))]
fn with_judged(t: Tally, same: bool) -> Tally
    ensures { result ≡ with_judged t same }
{
    let mut u = t;
    if !same {
        u.differences = t.differences.wrapping_add(1);
    }
    u
}

// A write counted.
#[tactic(auto, unfolding(crate::specs::Tallies::with_call))]
fn with_call(t: Tally) -> Tally
    ensures { result ≡ with_call t }
{
    let mut u = t;
    u.writes = t.writes.wrapping_add(1);
    u
}

// A write counted by what was seen of it.
#[tactic(auto, unfolding(crate::specs::Tallies::with_seen))]
fn with(t: Tally, seen: Seen) -> Tally
    ensures { result ≡ with_seen t seen }
{
    with_call(with_judged(with_became(t, seen.became), seen.same))
}

// All stores of a number of blocks tried with one candidate.
fn stores(
    tally: Tally,
    store: &mut [u8],
    wanted: &mut [u8],
    blocks: u32,
    candidate: Candidate,
) -> Tally {
    let mut u = tally;
    for code in 0..layout::codes(blocks) {
        if let Some(l) = layout::coded(blocks, code) {
            u = with(u, trial::trial(store, wanted, l, candidate));
        }
    }
    u
}

// All stores of up to six blocks tried with one candidate.
fn sizes(tally: Tally, store: &mut [u8], wanted: &mut [u8], candidate: Candidate) -> Tally {
    let mut u = tally;
    for blocks in 1..7 {
        u = stores(u, store, wanted, blocks, candidate);
    }
    u
}

// All stores tried with a candidate of `k` times 1,024 bytes.
fn tried(tally: Tally, store: &mut [u8], wanted: &mut [u8], k: u32) -> Tally {
    let mut space = [0u8; 65536];
    if k < 7 {
        make::candidate(&mut space, k * 1024);
        let candidate = Candidate {
            bytes: &space,
            total: k * 1024,
            blocks: (k + 1) / 2,
        };
        sizes(tally, store, wanted, candidate)
    } else {
        tally
    }
}

// All stores tried with candidates of one to three blocks, whose last block is full or half full.
pub fn all(store: &mut [u8], wanted: &mut [u8]) -> Tally {
    let mut u = none();
    for k in 1..7 {
        u = tried(u, store, wanted, k);
    }
    u
}

fn line<P: Print>(out: &P, label: &[u8], n: u32) -> io::Result<()> {
    test_output::number(out, label, n)?;
    test_output::text(out, b"\n")
}

pub fn write<P: Print>(out: &P, t: Tally) -> io::Result<()> {
    let emptied = t.emptied;
    line(out, b"writes ", t.writes)?;
    line(out, b"refused with AL 4 ", t.both_marks)?;
    line(out, b"refused with AL 5 ", t.full)?;
    line(out, b"written ", t.written)?;
    line(out, b"emptied 0: ", emptied[0])?;
    line(out, b"emptied 1: ", emptied[1])?;
    line(out, b"emptied 2: ", emptied[2])?;
    line(out, b"emptied 3: ", emptied[3])?;
    line(out, b"emptied 4: ", emptied[4])?;
    line(out, b"differences ", t.differences)
}
