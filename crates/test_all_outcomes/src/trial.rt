// One write tried, and compared with the best outcome. `store` and `wanted` are lent side by side: each is written, at another time.
ghost use Rattle.std.specs.Prelude.{◌≡◌};
ghost use Rattle.test_all_outcomes.specs.MadeStores.{store_of};
ghost use Rattle.test_all_outcomes.specs.WantedStores.{emptied_at, emptied_to, candidate_at, wanted_in};
ghost use Rattle.test_all_outcomes.specs.JudgedAnswers.{written_right, full_al, refused_right, judged, same_first};

use crate::layout::Layout;
use crate::outcomes::{Outcome, Set};
use crate::{layout, make, outcomes, set_blocks};
use call_answers::answer::Answer;
use call_answers::{answer, code};
use test_samples::bytes;

// What was seen of one write: whether it was as it should be, and its emptied count, or AL of its refusal.
#[derive(Clone, Copy)]
pub struct Seen {
    pub same: bool,
    pub became: Result<u32, u8>,
}

// A candidate of T bytes, which takes a number of blocks, and may have bytes behind it.
#[derive(Clone, Copy)]
pub struct Candidate<'a> {
    pub bytes: &'a [u8],
    pub total: u32,
    pub blocks: u32,
}

// The write of a candidate of revision 9 to the first `n` bytes, with (100, 7), two processors by which a stored update may share,
// and one of each update that is needed.
fn call(store: &mut [u8], n: usize, candidate: &[u8]) -> Answer {
    let signatures: [u32; 7] = [0x100, 0x200, 0x201, 0x202, 0x203, 0x100, 0x100];
    let platforms: [u8; 7] = [7, 0, 0, 0, 0, 0, 2];
    let mut destination = [0u8; 1];
    if n <= store.len() {
        let reply = call_dispatch::call(
            0xD042,
            1,
            0,
            0,
            false,
            &mut store[..n],
            &signatures,
            &platforms,
            candidate,
            9,
            &mut destination,
        );
        reply.answer
    } else {
        answer::refuse(0, 0)
    }
}

// Fills the blocks of update `i` with FFh if a set has it.
#[tactic(auto, unfolding(crate::specs::WantedStores::emptied_at, laws::specs::Arrays::mark_at))]
fn empty_update(buf: &mut [u8], l: Layout, set: Set, i: usize)
    ensures { buf.new ≡ emptied_at buf.old l set i }
{
    if i < 4 && set.has[i] {
        bytes::fill(
            buf,
            layout::bytes(l.starts[i]) as usize,
            layout::bytes(l.sizes[i]),
            255,
        );
    }
}

// Fills the blocks of all updates of a set with FFh.
#[tactic(auto, using(crate::specs::WantedStoreLaws::emptying))]
fn empty_all(buf: &mut [u8], l: Layout, set: Set)
    ensures { buf.new ≡ emptied_to buf.old l set 4 }
{
    for i in 0..4 {
        empty_update(buf, l, set, i);
    }
}

// Puts a candidate at a start, and FFh behind it to the end of its run of blocks.
#[tactic(auto, unfolding(crate::specs::WantedStores::candidate_at))]
fn put_candidate(buf: &mut [u8], start: u32, candidate: Candidate)
    ensures { buf.new ≡ candidate_at buf.old start candidate.entry.bytes.now
        candidate.entry.total candidate.entry.blocks }
{
    let at = layout::bytes(start) as usize;
    bytes::fill(buf, at, layout::bytes(candidate.blocks), 255);
    bytes::put(buf, at, candidate.bytes, candidate.total);
}

// Whether two buffers have the same first `n` bytes.
#[tactic(auto, using(crate::specs::JudgedAnswerLaws::fronts))]
fn same(a: &[u8], b: &[u8], n: usize) -> bool
    ensures { result ≡ same_first a.now b.now n }
{
    n <= a.len() && n <= b.len() && a[..n] == b[..n]
}

// Whether a write that was done is the best outcome.
#[tactic(auto, unfolding(crate::specs::JudgedAnswers::written_right))]
fn written_right(l: Layout, best: Option<Outcome>, start: u32, emptied: u32, blocks: u32) -> bool
    ensures { result ≡ written_right l best start emptied blocks }
{
    best.is_some_and(|o| {
        start == o.start && emptied == o.emptied && blocks == set_blocks::bits(l, o.set)
    })
}

// AL of a refusal for want of room.
#[tactic(auto, unfolding(crate::specs::JudgedAnswers::full_al))]
fn full_al(l: Layout) -> u8
    ensures { result ≡ full_al l }
{
    if layout::both_marks(l) {
        code::SHARING_NEEDED
    } else {
        code::NO_RUN
    }
}

// Whether a refusal is right: there is no legal outcome, and the codes say why.
#[tactic(auto, unfolding(crate::specs::JudgedAnswers::refused_right))]
fn refused_right(l: Layout, best: Option<Outcome>, ah: u8, al: u8, status: u32) -> bool
    ensures { result ≡ refused_right l best ah al status }
{
    best.is_none() && ah == code::STORAGE_FULL && al == full_al(l) && status == 0
}

// An answer compared with the best outcome.
fn judged(answer: Answer, l: Layout, best: Option<Outcome>) -> Seen
    ensures { result ≡ judged answer l best }
{
    match answer {
        Answer::Written(w) => Seen {
            same: written_right(l, best, w.start, w.emptied, w.emptied_blocks),
            became: Ok(w.emptied),
        },
        Answer::Refused(r) => Seen {
            same: refused_right(l, best, r.ah, r.al, r.status),
            became: Err(r.al),
        },
        Answer::Presence(_) | Answer::Control(_) | Answer::Read(_) => Seen {
            same: false,
            became: Err(0),
        },
    }
}

// Makes the store and the bytes of the best outcome, or the same bytes where there is none.
#[tactic(auto, unfolding(crate::specs::WantedStores::wanted_in, crate::specs::WantedStores::wanted_of))]
fn prepare(
    store: &mut [u8],
    wanted: &mut [u8],
    l: Layout,
    best: Option<Outcome>,
    candidate: Candidate,
)
    ensures stores { store.new ≡ store_of store.old l }
    ensures wants { wanted.new ≡ wanted_in wanted.old (store_of store.old l) l best
        candidate.entry.bytes.now candidate.entry.total candidate.entry.blocks }
{
    make::store(store, l);
    bytes::put(wanted, 0, store, 12288);
    if let Some(o) = best {
        empty_all(wanted, l, o.set);
        put_candidate(wanted, o.start, candidate);
    }
}

// The write of a candidate to the store of a layout.
pub fn trial(store: &mut [u8], wanted: &mut [u8], l: Layout, candidate: Candidate) -> Seen {
    let best = outcomes::best(l, candidate.blocks);
    prepare(store, wanted, l, best, candidate);
    let answer = call(store, layout::bytes(l.blocks) as usize, candidate.bytes);
    let seen = judged(answer, l, best);
    Seen {
        same: seen.same && same(store, wanted, 12288),
        became: seen.became,
    }
}
