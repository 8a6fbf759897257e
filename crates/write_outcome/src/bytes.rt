// The bytes of an outcome, written into the store.
ghost use Rattle.std.specs.Prelude.{◌≡◌, ◌+◌, ◌*◌, ◌≤◌, length};
ghost use Rattle.update_sizes.specs.Sizes.{blocks_of};
ghost use Rattle.write_outcome.specs.OutcomeBytes.{outcome_bytes};
ghost use Rattle.write_outcome.specs.Cleared.{cleared};
ghost use Rattle.write_outcome.specs.EmptiedEntries.{marked, Entries, empty_if};

use store_blocks::MOST_BLOCKS;
use update_sizes::{BLOCK, BLOCK_ROUNDING};

// The update of `size` blocks from `start` on is emptied, if it is marked.
#[tactic(auto, using(crate::proofs::EmptiedEntries::emptying))]
fn empty_if(gone: bool, store: &mut [u8], start: u8, size: u8)
    requires { start * 2048 + size * 2048 ≤ length store.old }
    ensures { store.new ≡ empty_if gone store.old start size }
{
    if gone {
        bytes_copy::fill(store, start as usize * BLOCK, size as usize * BLOCK);
    }
}

// The marked ones of the first `count` entries are emptied.
#[tactic(auto, using(crate::proofs::EmptiedEntries::marking))]
fn empty_marked(
    store: &mut [u8],
    starts: &[u8; MOST_BLOCKS],
    sizes: &[u8; MOST_BLOCKS],
    gone: [bool; MOST_BLOCKS],
    count: usize,
)
    requires { Entries store.old starts.now sizes.now count }
    ensures { store.new ≡ cleared store.old (marked starts.now gone count) }
{
    for i in 0..count {
        empty_if(gone[i], store, starts[i], sizes[i]);
    }
}

// All the bytes of a write: the marked ones of the first `count` entries are emptied, and the candidate's `t` bytes stand at block `start`,
// FFh behind them to the end of its last block.
// The entries are lent as the arrays and the count of the caller's marks, which stand in a crate above this one.
#[tactic(auto, using(crate::proofs::EmptiedEntries::all_written), unfolding(update_sizes::specs::Sizes::blocks_of))]
pub fn write_bytes(
    store: &mut [u8],
    starts: &[u8; MOST_BLOCKS],
    sizes: &[u8; MOST_BLOCKS],
    gone: [bool; MOST_BLOCKS],
    count: usize,
    start: u32,
    candidate: &[u8],
    t: usize,
)
    requires entries { Entries store.old starts.now sizes.now count }
    requires t_in_bounds { (t ≤ length candidate.now) × (t ≤ 32768) }
    requires t_in_bounds_2 { (start + blocks_of t) * 2048 ≤ length store.old }
    ensures { store.new ≡ outcome_bytes store.old t candidate.now start (marked
        starts.now gone count) }
{
    empty_marked(store, starts, sizes, gone, count);
    let at = start as usize * BLOCK;
    bytes_copy::put(store, at, candidate, t);
    bytes_copy::fill(store, at + t, (t + BLOCK_ROUNDING) / BLOCK * BLOCK - t);
}
