// The board's processor list, and which of its processors an update covers. Loops go by index: iterators over slices, and closures that
// capture one, don't fit the IA-32 archive.
#![tactic(auto)]

ghost use Rattle.std.specs.Prelude.{◌≡◌, ◌≤◌, ◌<◌, not, ◌&&◌, length};
ghost use Rattle.update_coverage.specs.Covers.{pairs_of};
ghost use Rattle.laws.specs.Below.{any_below};
ghost use Rattle.processor_list.specs.Processors.{list_of, platform_ok, list_ok, covers_listed};
ghost use Rattle.laws.specs.Arrays.{mark_at};
ghost use Rattle.processor_list.specs.Covered.{Covered, needed_by_marks};

use update_coverage::Pairs;

#[tactic(auto, unfolding(crate::specs::Processors::platform_ok))]
fn platform_ok(platforms: &[u8], i: usize) -> bool
    requires { i < length platforms.now }
    ensures { result ≡ platform_ok platforms.now i }
{
    platforms[i] <= 7
}

// 1 to 8 signatures with as many platform numbers, each at most 7. The list is two slices because the C interface lends it so, and a struct
// that holds them doesn't fit the IA-32 archive.
#[tactic(auto, using(laws::specs::Loops::each, crate::specs::ListLaws::list_tests))]
pub fn list_ok(signatures: &[u32], platforms: &[u8]) -> bool
    ensures { result ≡ list_ok (list_of signatures.now platforms.now) }
{
    if signatures.len() != platforms.len() || signatures.is_empty() || signatures.len() > 8 {
        return false;
    }
    for i in 0..platforms.len() {
        if !platform_ok(platforms, i) {
            return false;
        }
    }
    true
}

// Does the update cover listed processor `i`?
#[tactic(auto, unfolding(crate::specs::Processors::covers_listed))]
fn covers_listed(signatures: &[u32], platforms: &[u8], u: &[u8], pairs: Pairs, i: usize) -> bool
    requires { (i < length signatures.now) × (i < length platforms.now) × (pairs ≡ pairs_of u.now) }
    ensures { result ≡ covers_listed (list_of signatures.now platforms.now) u.now i }
{
    update_coverage::covers_with(u, pairs, signatures[i], u32::from(platforms[i]))
}

// Marks the listed processors that the candidate covers.
#[tactic(auto, using(laws::specs::Arrays::filling, laws::specs::Arrays::filled_all))]
pub fn covered(signatures: &[u32], platforms: &[u8], candidate: &[u8], pairs: Pairs) -> [bool; 8]
    requires { (length signatures.now ≤ 8) × (length signatures.now ≡ length platforms.now) × (pairs ≡ pairs_of candidate.now) }
    ensures { Covered (list_of signatures.now platforms.now) candidate.now result }
{
    let mut marks = [false; 8];
    for i in 0..signatures.len() {
        marks[i] = covers_listed(signatures, platforms, candidate, pairs, i);
    }
    marks
}

// Is one of the first `n` marks set? The marks are an array of the most processors, since nothing is allocated; the list has `n`.
#[tactic(auto, using(laws::specs::Loops::scan), unfolding(laws::specs::Arrays::mark_at))]
pub fn covers_one(marks: [bool; 8], n: usize) -> bool
    requires { n ≤ 8 }
    ensures { result ≡ any_below n (mark_at marks) }
{
    for i in 0..n {
        if marks[i] {
            return true;
        }
    }
    false
}

fn needed_for(
    signatures: &[u32],
    platforms: &[u8],
    mark: bool,
    u: &[u8],
    pairs: Pairs,
    i: usize,
) -> bool
    requires { (i < length signatures.now) × (i < length platforms.now) × (pairs ≡ pairs_of u.now) }
    ensures { result ≡ covers_listed (list_of signatures.now platforms.now) u.now i && not mark }
{
    covers_listed(signatures, platforms, u, pairs, i) && !mark
}

// Does the update cover a listed processor that is not marked?
#[tactic(auto, using(laws::specs::Loops::scan), unfolding(crate::specs::Covered::needed_by_marks, laws::specs::Arrays::mark_at))]
pub fn is_needed(
    signatures: &[u32],
    platforms: &[u8],
    marks: [bool; 8],
    u: &[u8],
    pairs: Pairs,
) -> bool
    requires { (length signatures.now ≤ 8) × (length signatures.now ≡ length platforms.now) × (pairs ≡ pairs_of u.now) }
    ensures { result ≡ any_below (length signatures.now) (needed_by_marks (list_of signatures.now
        platforms.now) marks u.now) }
{
    for i in 0..signatures.len() {
        if needed_for(signatures, platforms, marks[i], u, pairs, i) {
            return true;
        }
    }
    false
}
