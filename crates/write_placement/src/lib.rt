// The choice of a run of blocks for a new update. `k` is the number of blocks that it takes, `s` a start block.
#![tactic(auto)]

ghost use Rattle.std.specs.Prelude.{◌≡◌, ◌≤◌};
ghost use Rattle.write_marks.specs.StoredMarks.{stored_of};
ghost use Rattle.write_placement.specs.Choose.{choose};
ghost use Rattle.write_placement.specs.Choices.{choice_of, untouched};
ghost use Rattle.write_placement.specs.Tries.{limit_of, turn};

use write_marks::Marked;

// A run: its start, and how many updates that do not share it touches.
#[derive(Clone, Copy)]
pub struct Place {
    pub start: u32,
    pub touched: u32,
}

// How many updates the choice so far touches. A store has at most 32.
fn limit(sofar: Option<Place>) -> u32
    ensures { result ≡ limit_of sofar }
{
    sofar.map_or(33, |p| p.touched)
}

// The choice so far against a later start: taken only if it touches fewer, and is not ruled out.
#[tactic(auto, using(crate::specs::Tries::trying), unfolding(write_marks::specs::StoredMarks::stored_of))]
fn tried(m: &Marked, k: u32, s: u32, sofar: Option<Place>) -> Option<Place>
    ensures { result ≡ turn (stored_of m.now) k s sofar }
{
    let most = limit(sofar);
    let touched = m.lost(k, s, most);
    if touched < most && !m.ruled_out(k, s) {
        Some(Place { start: s, touched })
    } else {
        sofar
    }
}

// Does the choice touch no update that does not share?
fn untouched(c: Option<Place>) -> bool
    ensures { result ≡ untouched c }
{
    c.is_some_and(|p| p.touched == 0)
}

// The start for a run of `k` of the `n` blocks: the one that loses the fewest updates, the lowest on a tie.
#[tactic(auto, using(crate::specs::Choices::picking), unfolding(crate::specs::Choose::choose))]
pub fn choose_run(m: &Marked, n: u32, k: u32) -> Option<Place>
    requires { n ≤ 32 }
    ensures { result ≡ choice_of (choose n k (stored_of m.now)) }
{
    let mut sofar = None;
    for s in 0..(n + 1).saturating_sub(k) {
        sofar = tried(m, k, s, sofar);
        if untouched(sofar) {
            return sofar;
        }
    }
    sofar
}
