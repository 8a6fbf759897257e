// The marks of the stored updates against a candidate, and whether one of them is as new.
// The IA-32 archive keeps no slice in a struct, so the two lists, and an update and its pairs, are lent side by side.
ghost use Rattle.std.specs.Prelude.{◌≡◌, ◌≤◌, length};
ghost use Rattle.processor_list.specs.Processors.{list_of};
ghost use Rattle.store_directory.specs.Scan.{directory};
ghost use Rattle.update_coverage.specs.Covers.{pairs_of};
ghost use Rattle.processor_list.specs.Covered.{Covered};
ghost use Rattle.write_plan.specs.CandidateMarks.{outdated};
ghost use Rattle.write_plan.specs.RightMarks.{Marks};

use store_blocks::MOST_BLOCKS;
use store_directory::Directory;
use update_coverage::Pairs;
use update_header::fields;
use write_marks::Marked;

// Marks each stored update: it shares a processor with the candidate; it covers a listed processor that the candidate doesn't. `marks` are
// those of the listed processors that the candidate covers.
#[tactic(auto, using(crate::specs::CandidateMarkLaws::marking))]
pub fn mark(
    store: &[u8],
    d: Directory,
    signatures: &[u32],
    platforms: &[u8],
    marks: [bool; 8],
    candidate: &[u8],
    pairs: Pairs,
) -> Marked
    requires d_value { (d ≡ directory store.now) × (pairs ≡ pairs_of candidate.now) }
    requires signatures_len_bound { (length signatures.now ≤ 8) × (length signatures.now ≡ length platforms.now) }
    requires covered { Covered (list_of signatures.now platforms.now) candidate.now marks }
    ensures { Marks store.now (list_of signatures.now platforms.now) candidate.now result }
{
    let mut shares = [false; MOST_BLOCKS];
    let mut needed = [false; MOST_BLOCKS];
    for i in 0..d.count {
        let u = store_blocks::from_start(store, d.starts[i]);
        let p = update_coverage::judged_pairs(u);
        shares[i] = update_sharing::shares_with(u, p, candidate, pairs);
        needed[i] = processor_list::is_needed(signatures, platforms, marks, u, p);
    }
    Marked {
        starts: d.starts,
        sizes: d.sizes,
        shares,
        needed,
        count: d.count,
    }
}

// Check 6: does some stored update share a processor with the candidate, with a revision that is equal or greater? The scan of its pairs
// and the candidate's leaves at the first two that share; an older update isn't compared.
#[tactic(auto, using(crate::specs::CandidateMarkLaws::outdating), unfolding(update_sharing::specs::Shares::shares))]
pub fn outdated(store: &[u8], d: Directory, candidate: &[u8], pairs: Pairs) -> bool
    requires { (d ≡ directory store.now) × (pairs ≡ pairs_of candidate.now) }
    ensures { result ≡ outdated store.now candidate.now }
{
    let new = fields::revision(candidate);
    let mut found = false;
    'scan: for i in 0..d.count {
        let u = store_blocks::from_start(store, d.starts[i]);
        if fields::revision(u) < new {
            continue;
        }
        let p = update_coverage::judged_pairs(u);
        for j in 0..p.count {
            let x = update_coverage::signature_at(u, p, j);
            let f = update_coverage::platforms_at(u, p, j);
            for k in 0..pairs.count {
                if update_sharing::shares_at(x, f, candidate, pairs, k) {
                    found = true;
                    break 'scan;
                }
            }
        }
    }
    found
}
