// Checks 6 to 8 of the write, and the run that they choose: check 6 and the marks, then checks 7 and 8 by the marks. No byte changes.
#![tactic(auto)]

pub mod marks;

ghost use Rattle.std.specs.Prelude.{◌≡◌, ◌/◌, ◌≤◌, length};
ghost use Rattle.write_marks.specs.StoredMarks.{stored_of};
ghost use Rattle.write_placement.specs.Choose.{choose};
ghost use Rattle.write_plan.specs.Plan.{placed, marked_plan};
ghost use Rattle.store_blocks.specs.Blocks.{block_count};

use call_answers::refusal::Refusal;
use write_marks::Marked;

// The run that checks 1 to 8 choose: its start block, and how many stored updates are to be emptied.
#[derive(Clone, Copy)]
pub struct Run {
    pub start: u32,
    pub emptied: u32,
}

// What checks 1 to 8 find: a run, or the refusal of the first that fails.
pub type Plan = Result<Run, Refusal>;

// Check 8: the run that touches the fewest non-sharing updates, lowest start on a tie.
#[tactic(auto, using(crate::specs::PlanLaws::placing))]
fn place(m: &Marked, n: u32, k: u32) -> Plan
    requires { n ≤ 32 }
    ensures { let h = stored_of m.now in result ≡ placed h (choose n k h) }
{
    let place = write_placement::choose_run(m, n, k).ok_or(Refusal::NoRun)?;
    Ok(Run {
        start: place.start,
        emptied: m.shared() + place.touched,
    })
}

// Checks 7 and 8, for a candidate of `k` blocks and the stored updates with their marks.
#[tactic(auto, using(crate::specs::PlanLaws::planning), unfolding(store_blocks::specs::Blocks::block_count))]
pub fn plan_marked(store: &[u8], m: &Marked, k: u32) -> Plan
    requires { length store.now / 2048 ≤ 32 }
    ensures { result ≡ marked_plan (block_count store.now) (stored_of m.now) k }
{
    if m.both_marks() {
        return Err(Refusal::SharingNeeded);
    }
    let n = (store.len() / store_blocks::BLOCK) as u32;
    place(m, n, k)
}
