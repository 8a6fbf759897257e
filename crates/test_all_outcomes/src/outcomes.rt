// All outcomes of a write, gone through one by one: each start, and each set of stored updates to be emptied.
ghost use Rattle.std.specs.Prelude.{◌≡◌, ◌<◌};
ghost use Rattle.test_all_outcomes.specs.TriedOutcomes.{numbered, size_of, free_of, is_open, run_open, allowed_at, allowed, legal, no_worse, better, best_at, best};

use crate::layout;
use crate::layout::Layout;

// A set of the at most four updates.
#[derive(Clone, Copy)]
pub struct Set {
    pub has: [bool; 4],
}

#[derive(Clone, Copy)]
pub struct Outcome {
    pub start: u32,
    pub emptied: u32,
    pub set: Set,
}

#[tactic(auto, unfolding(crate::specs::TriedOutcomes::numbered))]
fn numbered(k: u32) -> Set
    ensures { result ≡ numbered k }
{
    let has = [k % 2 == 1, k / 2 % 2 == 1, k / 4 % 2 == 1, k / 8 % 2 == 1];
    Set { has }
}

#[tactic(auto, using(laws::specs::Count::counting), unfolding(crate::specs::TriedOutcomes::size_of, laws::specs::Arrays::mark_at))]
fn size(set: Set) -> u32
    ensures { result ≡ size_of set }
{
    let mut n: u32 = 0;
    for i in 0..4 {
        if set.has[i] {
            n += 1;
        }
    }
    n
}

// Whether block `c` belongs to no update `i` outside the set.
#[tactic(auto, unfolding(crate::specs::TriedOutcomes::free_of, laws::specs::Arrays::mark_at))]
fn free_of(l: Layout, set: Set, c: u32, i: usize) -> bool
    requires { i < 4 }
    ensures { result ≡ free_of l set c i }
{
    set.has[i] || !layout::owns(l, i, c)
}

// Whether block `c` was unused or belongs to an update of the set.
fn open(l: Layout, set: Set, c: u32) -> bool
    ensures { result ≡ is_open l set c }
{
    (0..4).all(|i| free_of(l, set, c, i))
}

// Whether `n` blocks from `start` on lie in the store, and each was unused or belongs to an update of the set.
#[tactic(auto, using(crate::specs::TriedOutcomeLaws::opened))]
fn run_open(l: Layout, set: Set, start: u32, n: u32) -> bool
    ensures { result ≡ run_open l set start n }
{
    for k in 0..n {
        let c = start + k;
        if c >= l.blocks || !open(l, set, c) {
            return false;
        }
    }
    true
}

// Whether update `i` may be in the set, if it is there, and outside it if not.
#[tactic(auto, unfolding(crate::specs::TriedOutcomes::allowed_at, laws::specs::Arrays::mark_at))]
fn allowed_at(l: Layout, set: Set, i: usize) -> bool
    requires { i < 4 }
    ensures { result ≡ allowed_at l set i }
{
    if set.has[i] {
        i < l.count as usize && !l.needed[i]
    } else {
        !l.shares[i]
    }
}

// Whether the set has only stored updates, none that is needed, and each that shares.
fn allowed(l: Layout, set: Set) -> bool
    ensures { result ≡ allowed l set }
{
    (0..4).all(|i| allowed_at(l, set, i))
}

// Whether the set may be emptied, and the run is open then.
#[tactic(auto, unfolding(crate::specs::TriedOutcomes::legal))]
fn legal(l: Layout, n: u32, start: u32, set: Set) -> bool
    ensures { result ≡ legal l n start set }
{
    allowed(l, set) && run_open(l, set, start, n)
}

// Whether an outcome was found that empties no more.
#[tactic(auto, unfolding(crate::specs::TriedOutcomes::no_worse))]
fn no_worse(old: Option<Outcome>, emptied: u32) -> bool
    ensures { result ≡ no_worse old emptied }
{
    old.is_some_and(|o| o.emptied <= emptied)
}

// The better of an outcome and the one with a start and a set: one that is legal, then the fewer emptied, then the one that came first.
#[tactic(auto, unfolding(crate::specs::TriedOutcomes::better))]
fn better(old: Option<Outcome>, l: Layout, n: u32, start: u32, set: Set) -> Option<Outcome>
    ensures { result ≡ better old l n start set }
{
    let emptied = size(set);
    if !legal(l, n, start, set) || no_worse(old, emptied) {
        return old;
    }
    Some(Outcome {
        start,
        emptied,
        set,
    })
}

// The best of an outcome and all sets at one start.
#[tactic(auto, using(crate::specs::TriedOutcomeLaws::sets))]
fn best_at(old: Option<Outcome>, l: Layout, n: u32, start: u32) -> Option<Outcome>
    ensures { result ≡ best_at old l n start 16 }
{
    let mut o = old;
    for k in 0..16 {
        o = better(o, l, n, start, numbered(k));
    }
    o
}

// The legal outcome that empties the fewest updates, the lowest start on a tie, for a candidate of `n` blocks; none where none is legal.
#[tactic(auto, using(crate::specs::TriedOutcomeLaws::starts), unfolding(crate::specs::TriedOutcomes::best))]
pub fn best(l: Layout, n: u32) -> Option<Outcome>
    ensures { result ≡ best l n }
{
    let mut o = None;
    for start in 0..l.blocks {
        o = best_at(o, l, n, start);
    }
    o
}
