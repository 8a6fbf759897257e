// The write call, sub-function 1: its checks in their order, and the bytes.
#![tactic(auto)]

ghost use Rattle.std.specs.Prelude.{◌≡◌};
ghost use Rattle.update_header.specs.Fields.{total_size};
ghost use Rattle.processor_list.specs.Processors.{list_of};
ghost use Rattle.write_outcome.specs.OutcomeBytes.{outcome_bytes};
ghost use Rattle.write_outcome.specs.EmptiedBlocks.{emptied_blocks};
ghost use Rattle.write_plan.specs.VerdictCode.{refusal_of};
ghost use Rattle.write_call.specs.Write.{emptied_at, write_answer, write_bytes};
ghost use Rattle.write_call.specs.Demand.{Passes, Demand3};
ghost use Rattle.write_call.specs.Storing.{Storing};
ghost use Rattle.write_call.specs.WriteCases.{answer_of, Meant};

use call_answers::answer::{Answer, Written};
use call_answers::code;
use call_answers::refusal::Refusal;
use update_header::fields;
use update_verdict::BadUpdate;
use write_marks::Marked;
use write_outcome::bytes;
use write_plan::marks;

// Checks 2 and 3 of a bad update have one refusal, check 4 another. No From: both types are of other crates.
fn refusal_of(x: BadUpdate) -> Refusal
    ensures { result ≡ refusal_of x }
{
    match x {
        BadUpdate::Header => Refusal::InvalidHeader,
        BadUpdate::Sum => Refusal::InvalidHeaderSum,
    }
}

// Empties all sharing updates, wherever they lie, and all that the run touches, and puts the candidate of `t` bytes at the start. Answers
// the emptied blocks.
#[tactic(auto, using(crate::proofs::AnsweredBlocks::storing))]
fn store_candidate(store: &mut [u8], m: &Marked, start: u32, candidate: &[u8], t: u32) -> u32
    requires { Storing store.old candidate.now m.now start × (t ≡ total_size candidate.now) }
    ensures answers { result ≡ emptied_blocks store.old (emptied_at store.old candidate.now start) }
    ensures stores { store.new ≡ outcome_bytes store.old (total_size candidate.now)
        candidate.now start (emptied_at store.old candidate.now start) }
{
    let k = update_sizes::blocks_of(t);
    let blocks = m.emptied_blocks(k, start);
    let gone = m.to_fill(k, start);
    bytes::write_bytes(
        store, &m.starts, &m.sizes, gone, m.count, start, candidate, t as usize,
    );
    blocks
}

// Checks 1 to 9 in their order, then the bytes. A refusal changes no byte. The IA-32 archive keeps no slice in a struct, so the two lists are
// lent side by side.
#[tactic(auto, using(crate::proofs::Checking::checking))]
fn accept(
    store: &mut [u8],
    signatures: &[u32],
    platforms: &[u8],
    candidate: &[u8],
    back: u32,
) -> Result<Written, Refusal>
    ensures { Meant store.old (list_of signatures.now platforms.now) candidate.now back (answer_of result) store.new }
{
    let Some(d) = store_directory::read_store(store) else {
        return Err(Refusal::BadStore);
    };
    if !processor_list::list_ok(signatures, platforms) {
        return Err(Refusal::BadProcessors);
    }
    let good = match update_verdict::check_update(candidate) {
        Ok(measures) => measures,
        Err(x) => return Err(refusal_of(x)),
    };
    let pairs = update_coverage::pairs_with(candidate, good.data, good.entries + 1);
    let covered = processor_list::covered(signatures, platforms, candidate, pairs);
    if !processor_list::covers_one(covered, signatures.len()) {
        return Err(Refusal::ProcessorNotPresent);
    }
    if marks::outdated(store, d, candidate, pairs) {
        return Err(Refusal::InvalidRevision);
    }
    let marked = marks::mark(store, d, signatures, platforms, covered, candidate, pairs);
    let run = write_plan::plan_marked(store, &marked, good.blocks)?;
    if back != fields::revision(candidate) {
        return Err(Refusal::SecurityFailure);
    }
    let emptied_blocks = store_candidate(store, &marked, run.start, candidate, good.total);
    Ok(Written {
        ah: code::SUCCESS,
        al: code::NONE,
        carry: false,
        start: run.start,
        emptied: run.emptied,
        emptied_blocks,
    })
}

// The write call: its checks in their order 1 to 9, then the bytes. A refusal changes no byte.
pub fn write(
    store: &mut [u8],
    signatures: &[u32],
    platforms: &[u8],
    candidate: &[u8],
    back: u32,
) -> Answer
    ensures answers { let list = list_of signatures.now platforms.now in
        result ≡ write_answer store.old list candidate.now back }
    ensures stores { let list = list_of signatures.now platforms.now in
        store.new ≡ write_bytes store.old list candidate.now back }
    ensures demand { let list = list_of signatures.now platforms.now in
        let old = store.old in
        let cand = candidate.now in
        Passes old list cand → Demand3 old list cand back result store.new }
{
    match accept(store, signatures, platforms, candidate, back) {
        Ok(written) => Answer::Written(written),
        Err(r) => Answer::from(r),
    }
}
