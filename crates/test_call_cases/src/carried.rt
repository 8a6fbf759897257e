// Cases of the index carried over a write.
ghost use Rattle.std.specs.Prelude.{◌≡◌, replicate};
ghost use Rattle.test_samples.specs.SampleBytes.{put};
ghost use Rattle.test_samples.specs.Make.{plain};

use crate::numbers::Index;
use crate::{indexes, lines, numbers, writes};
use std::io;
use std::io::Print;
use store_blocks::MOST_BLOCKS;
use store_index::{COLUMNS, KINDS};
use test_samples::{bytes, make, stores};

// The index after a write of a candidate with revision 9.
fn after<P: Print>(
    out: &P,
    label: &[u8],
    old: &Index,
    emptied: u32,
    start: u32,
    size: u32,
) -> io::Result<()> {
    let mut new_index = [[0xA5A5A5A5u32; MOST_BLOCKS]; COLUMNS];
    let mut answer = [0xA5A5A5A5u32; 16];
    let ax = board::update_store_index_after(
        old,
        emptied,
        start,
        9,
        size,
        &mut new_index,
        &mut answer,
    );
    lines::answer(out, label, ax, &answer)?;
    lines::index(out, &new_index)
}

// Puts an update of `t` bytes, at most two blocks, into a store.
fn put_update(
    store: &mut [u8],
    at: usize,
    revision: u32,
    signature: u32,
    flags: u32,
    d: u32,
    t: u32,
)
    ensures { store.new ≡ put store.old at (plain (replicate 4096 0) revision signature flags d t) t }
{
    let mut update = [0u8; 4096];
    make::plain(&mut update, revision, signature, flags, d, t);
    bytes::put(store, at, &update, t);
}

// 32 blocks, with P in block 1 and an update of two blocks in the last two.
fn edges<P: Print>(out: &P) -> io::Result<()> {
    let store: &mut [u8] = &mut [0u8; 65536];
    bytes::fill(store, 0, 32768, 255);
    bytes::fill(store, 32768, 32768, 255);
    stores::four_blocks(store);
    put_update(store, 61440, 6, 0x683, 0x81, 3024, 3072);
    indexes::made(out, b"index of 32 blocks: ", store)?;
    let mut old = [[0u32; MOST_BLOCKS]; COLUMNS];
    let mut answer = [0u32; 16];
    board::update_store_index(store, &mut old, &mut answer);
    after(out, b"index after: start 32, size 2: ", &old, 0, 32, 2)?;
    after(out, b"index after: start 1, size 0: ", &old, 0, 1, 0)?;
    after(out, b"index after: start 30, size 16: ", &old, 0, 30, 16)?;
    after(
        out,
        b"index after: start FFFFFFFFh, size 2: ",
        &old,
        0,
        0xFFFFFFFF,
        2,
    )?;
    after(
        out,
        b"index after: start 31, size FFFFFFFFh: ",
        &old,
        0,
        31,
        0xFFFFFFFF,
    )?;
    after(
        out,
        b"index after: emptied 80000000h: ",
        &old,
        0x80000000,
        0,
        0,
    )?;
    after(
        out,
        b"index after: emptied FFFFFFFFh: ",
        &old,
        0xFFFFFFFF,
        0,
        0,
    )?;
    after(
        out,
        b"index after: emptied FFFFFFFFh, start 2, size 2: ",
        &old,
        0xFFFFFFFF,
        2,
        2,
    )?;
    after(
        out,
        b"index after: emptied 2, start 0, size 1, an old kind 3: ",
        &numbers::with_number(&old, KINDS, 5, 3),
        2,
        0,
        1,
    )
}

// Writes a candidate, carries the index over the write, and holds it to the one made from the new store.
// Listed are (650h, 1) and (651h, 0).
fn carried<P: Print>(
    out: &P,
    label: &[u8],
    store: &mut [u8],
    candidate: &[u8],
    revision: u32,
    size: u32,
) -> io::Result<()> {
    let mut old = [[0u32; MOST_BLOCKS]; COLUMNS];
    let mut answer = [0u32; 16];
    board::update_store_index(store, &mut old, &mut answer);
    let written = writes::write(
        out,
        label,
        store,
        &[0x650, 0x651],
        &[1, 0],
        candidate,
        revision,
    )?;
    let mut new_index = [[0xA5A5A5A5u32; MOST_BLOCKS]; COLUMNS];
    board::update_store_index_after(
        &old,
        written[7],
        written[5],
        revision,
        size,
        &mut new_index,
        &mut answer,
    );
    lines::index(out, &new_index)?;
    let mut index = [[0u32; MOST_BLOCKS]; COLUMNS];
    board::update_store_index(store, &mut index, &mut answer);
    if numbers::same(&new_index, &index) {
        test_output::text(out, b"  carried: same\n")
    } else {
        test_output::text(out, b"  carried: other\n")
    }
}

// Four blocks with P in block 1: P with revision 8, then an update of two blocks that shares nothing.
fn in_four_blocks<P: Print>(out: &P) -> io::Result<()> {
    let store: &mut [u8] = &mut [0u8; 8192];
    stores::four_blocks(store);
    let candidate: &mut [u8] = &mut [0u8; 65536];
    make::p(candidate, 8, 0xF8E7E008);
    carried(out, b"P with revision 8, carried: ", store, candidate, 8, 1)?;
    make::plain(candidate, 3, 0x651, 1, 3024, 3072);
    carried(
        out,
        b"two blocks behind it, carried: ",
        store,
        candidate,
        3,
        2,
    )
}

// Seven blocks: sharing, (650h, 1); needed; stale, of two; unused; sharing, (650h, 2), of two. Four blocks are wanted.
fn over_many<P: Print>(out: &P) -> io::Result<()> {
    let store: &mut [u8] = &mut [0u8; 14336];
    bytes::fill(store, 0, 14336, 255);
    put_update(store, 0, 3, 0x650, 2, 2000, 2048);
    put_update(store, 2048, 5, 0x651, 1, 2000, 2048);
    put_update(store, 4096, 7, 0x683, 0x81, 3024, 3072);
    put_update(store, 10240, 4, 0x650, 4, 4048, 4096);
    indexes::made(out, b"index of seven blocks: ", store)?;
    let candidate: &mut [u8] = &mut [0u8; 65536];
    make::plain(candidate, 9, 0x650, 6, 7120, 7168);
    carried(
        out,
        b"three updates emptied, carried: ",
        store,
        candidate,
        9,
        4,
    )
}

pub fn run<P: Print>(out: &P) -> io::Result<()> {
    in_four_blocks(out)?;
    over_many(out)?;
    edges(out)
}
