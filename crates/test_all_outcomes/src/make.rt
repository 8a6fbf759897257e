// The candidates, and the stores of layouts, made in a lent buffer.
ghost use Rattle.std.specs.Prelude.{◌≡◌};
ghost use Rattle.test_all_outcomes.specs.MadeStores.{plain_of, tabled_of, plain_data, candidate_of, total_of, sharing_cover, own_cover, single_data, single_of, both_of, stored_of, stored_at, store_of};

use crate::layout;
use crate::layout::Layout;
use test_samples::{bytes, make as sample};

// One signature and its flags.
#[derive(Clone, Copy)]
struct Cover {
    signature: u32,
    flags: u32,
}

// An update of T bytes without a table, with D as given and one byte as its data.
#[tactic(auto, unfolding(crate::specs::MadeStores::plain_of))]
fn plain(buf: &mut [u8], revision: u32, cover: Cover, d: u32, t: u32, byte: u8)
    ensures { buf.new ≡ plain_of buf.old revision cover d t byte }
{
    bytes::fill(buf, 0, t, byte);
    sample::plain(buf, revision, cover.signature, cover.flags, d, t);
}

// An update of T bytes with a table of one entry, of revision 5.
#[tactic(auto, unfolding(crate::specs::MadeStores::tabled_of))]
fn tabled(buf: &mut [u8], one: Cover, other: Cover, t: u32, byte: u8)
    ensures { buf.new ≡ tabled_of buf.old one other t byte }
{
    if t < 80 {
        return;
    }
    let at = t - 32;
    bytes::fill(buf, 0, t, byte);
    sample::header(buf, 5, one.signature, one.flags, t - 80, t);
    sample::balance(buf, 16, 0, at);
    bytes::dword(buf, at as usize, 1);
    sample::entry(buf, at, 0, other.signature, other.flags);
    sample::balance(buf, at + 4, at, t);
}

// D where the data fill T.
#[tactic(auto, unfolding(crate::specs::MadeStores::plain_data))]
fn plain_data(t: u32) -> u32
    ensures { result ≡ plain_data t }
{
    t.wrapping_sub(48)
}

// A candidate of T bytes and revision 9, which covers (100, 0) to (100, 7).
#[tactic(auto, unfolding(crate::specs::MadeStores::candidate_of))]
pub fn candidate(buf: &mut [u8], t: u32)
    ensures { buf.new ≡ candidate_of buf.old t }
{
    let cover = Cover {
        signature: 0x100,
        flags: 0xFF,
    };
    plain(buf, 9, cover, plain_data(t), t, 0xC5);
}

// T of a stored update. It fills its last block, or leaves the half of it.
#[tactic(auto, unfolding(crate::specs::MadeStores::total_of))]
fn total(start: u32, size: u32) -> u32
    ensures { result ≡ total_of start size }
{
    if size == 1 {
        return 2048;
    }
    if start % 2 == 0 { 4096 } else { 3072 }
}

// The one platform by which update `i` shares, with the candidate's signature.
#[tactic(auto, unfolding(crate::specs::MadeStores::sharing_cover))]
fn sharing(i: usize) -> Cover
    ensures { result ≡ sharing_cover i }
{
    let flags = match i {
        0 => 1,
        1 => 2,
        2 => 4,
        _ => 8,
    };
    Cover {
        signature: 0x100,
        flags,
    }
}

// A signature of update `i` alone.
#[tactic(auto, unfolding(crate::specs::MadeStores::own_cover))]
fn own(signature: u32, i: usize) -> Cover
    ensures { result ≡ own_cover signature i }
{
    Cover {
        signature: signature.wrapping_add((i % 4) as u32),
        flags: 1,
    }
}

// D of a stored update with one signature. One of one block has D 0 if it begins at an odd block.
#[tactic(auto, unfolding(crate::specs::MadeStores::single_data))]
fn single_data(start: u32, t: u32) -> u32
    ensures { result ≡ single_data start t }
{
    if t == 2048 && start % 2 == 1 {
        0
    } else {
        plain_data(t)
    }
}

// A stored update with one signature.
#[tactic(auto, unfolding(crate::specs::MadeStores::single_of))]
fn single(buf: &mut [u8], cover: Cover, start: u32, t: u32, byte: u8)
    ensures { buf.new ≡ single_of buf.old cover start t byte }
{
    plain(buf, 5, cover, single_data(start, t), t, byte);
}

// A stored update with both marks. It shares by its header or, at an odd block, by its entry.
#[tactic(auto, unfolding(crate::specs::MadeStores::both_of))]
fn both(buf: &mut [u8], i: usize, start: u32, t: u32, byte: u8)
    ensures { buf.new ≡ both_of buf.old i start t byte }
{
    if start % 2 == 0 {
        tabled(buf, sharing(i), own(0x200, i), t, byte);
    } else {
        tabled(buf, own(0x200, i), sharing(i), t, byte);
    }
}

// Update `i` at the buffer's first byte.
#[tactic(auto, unfolding(crate::specs::MadeStores::stored_of, crate::specs::MadeStores::marked_of))]
fn stored(buf: &mut [u8], i: usize, start: u32, size: u32, shares: bool, needed: bool)
    ensures { buf.new ≡ stored_of buf.old i start size shares needed }
{
    let t = total(start, size);
    let byte = (i % 4) as u8 + 1;
    match (shares, needed) {
        (true, true) => both(buf, i, start, t, byte),
        (true, false) => single(buf, sharing(i), start, t, byte),
        (false, true) => single(buf, own(0x200, i), start, t, byte),
        (false, false) => single(buf, own(0x300, i), start, t, byte),
    }
}

// Update `i` of a layout, at its place.
#[tactic(auto, unfolding(crate::specs::MadeStores::stored_at))]
fn stored_at(buf: &mut [u8], l: Layout, i: usize)
    ensures { buf.new ≡ stored_at buf.old l i }
{
    if i < 4 {
        let start = l.starts[i];
        let at = layout::bytes(start) as usize;
        if at <= buf.len() {
            stored(
                &mut buf[at..],
                i,
                start,
                l.sizes[i],
                l.shares[i],
                l.needed[i],
            );
        }
    }
}

// The store of a layout.
#[tactic(auto, using(crate::specs::MadeStoreLaws::placing))]
pub fn store(buf: &mut [u8], l: Layout)
    ensures { buf.new ≡ store_of buf.old l }
{
    bytes::fill(buf, 0, 12288, 255);
    for i in 0..l.count as usize {
        stored_at(buf, l, i);
    }
}
