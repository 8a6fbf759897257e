// The stored updates against a run of blocks. `k` is the number of blocks that the candidate takes, `s` a start block.
#![tactic(auto)]

ghost use Rattle.std.specs.Prelude.{◌≡◌, ◌+◌, ◌≤◌};
ghost use Rattle.laws.specs.Bits.{bits_below};
ghost use Rattle.laws.specs.Span.{spans};

use store_blocks::MOST_BLOCKS;
use write_overlap::Stored;

// The stored updates in the order of their starts: update i < count starts at a block, has a size in blocks, and two marks against the
// candidate: it covers a processor that the candidate covers; it covers a listed processor that the candidate doesn't.
// Not one array of structs: `starts` and `sizes` are the directory's as they stand, and `write_bytes` is lent them.
#[derive(Clone, Copy)]
pub struct Marked {
    pub starts: [u8; MOST_BLOCKS],
    pub sizes: [u8; MOST_BLOCKS],
    pub shares: [bool; MOST_BLOCKS],
    pub needed: [bool; MOST_BLOCKS],
    pub count: usize,
    pub ghost few: { count ≤ 32 },
}

// A bit for each of 32 blocks.
const ALL_BLOCKS: u32 = 0xFFFF_FFFF;

// The bits of the `size` blocks from `start` on.
#[tactic(auto, using(crate::specs::EmptiedBits::span_number))]
fn block_bits(start: u8, size: u8) -> u32
    requires { (1 ≤ size) × (start + size ≤ 32) }
    ensures { result ≡ bits_below 32 (spans start size) }
{
    (ALL_BLOCKS >> (32 - size as u32)) << (start as u32)
}

impl Marked {
    ghost use Rattle.std.specs.Prelude.{◌≡◌, ◌<◌, false};
    ghost use Rattle.laws.specs.Below.{any_below};
    ghost use Rattle.laws.specs.Count.{count_below};
    ghost use Rattle.laws.specs.Arrays.{Filled, mark_at};
    ghost use Rattle.laws.specs.Bits.{bits_below};
    ghost use Rattle.write_marks.specs.StoredUpdates.{Fitting};
    ghost use Rattle.write_marks.specs.Against.{fills, ruled_out, lost, emptied_block};
    ghost use Rattle.write_marks.specs.Capped.{capped};
    ghost use Rattle.write_marks.specs.StoredMarks.{stored_of, update_of, both_at};

    // Update i.
    fn at(&self, i: usize) -> Stored
        requires { i < self.now.count }
        ensures { result ≡ update_of self.now i }
    {
        Stored {
            start: self.starts[i],
            size: self.sizes[i],
            shares: self.shares[i],
            needed: self.needed[i],
        }
    }

    // Does some update rule the start out?
    #[tactic(auto, using(laws::specs::Loops::scan), unfolding(crate::specs::Against::ruled_out, crate::specs::Against::rules_out, crate::specs::StoredMarks::stored_of))]
    pub fn ruled_out(&self, k: u32, s: u32) -> bool
        ensures { result ≡ ruled_out (stored_of self.now) k s }
    {
        for i in 0..self.count {
            if self.at(i).rules_out(k, s) {
                return true;
            }
        }
        false
    }

    // How many updates that do not share does the run touch, up to `limit`? Whether they are needed doesn't matter here.
    #[tactic(auto, using(crate::proofs::Capped::losing), unfolding(crate::specs::Against::loses, crate::specs::StoredMarks::stored_of))]
    pub fn lost(&self, k: u32, s: u32, limit: u32) -> u32
        ensures { result ≡ capped limit (lost (stored_of self.now) k s) }
    {
        let mut touched: u32 = 0;
        for i in 0..self.count {
            if self.at(i).loses(k, s) {
                if limit <= touched + 1 {
                    return limit;
                }
                touched += 1;
            }
        }
        touched
    }

    // Has some update both marks? Then it rules every start out.
    #[tactic(auto, using(laws::specs::Loops::scan), unfolding(crate::specs::StoredMarks::both_at, laws::specs::Arrays::mark_at))]
    pub fn both_marks(&self) -> bool
        ensures { result ≡ any_below self.now.count (both_at self.now.shares self.now.needed) }
    {
        for i in 0..self.count {
            if self.shares[i] && self.needed[i] {
                return true;
            }
        }
        false
    }

    // How many updates share?
    #[tactic(auto, using(laws::specs::Count::counting), unfolding(laws::specs::Arrays::mark_at))]
    pub fn shared(&self) -> u32
        ensures { result ≡ count_below self.now.count (mark_at self.now.shares) }
    {
        let mut sharing: u32 = 0;
        for i in 0..self.count {
            if self.shares[i] {
                sharing += 1;
            }
        }
        sharing
    }

    // Marks the updates that must be filled with FFh if the candidate goes to `s`: those that are emptied, but for those that the run
    // overwrites whole.
    pub fn to_fill(&self, k: u32, s: u32) -> [bool; MOST_BLOCKS]
        ensures { Filled false 32 (fills (stored_of self.now) k s) self.now.count result }
    {
        let mut marks = [false; MOST_BLOCKS];
        for i in 0..self.count {
            marks[i] = self.at(i).fills(k, s);
        }
        marks
    }

    // Bit b for each block b of an update that is emptied if the candidate goes to `s`, in the run or not.
    #[tactic(auto, using(crate::specs::EmptiedBits::gathering), unfolding(crate::specs::Against::emptied_by_number, crate::specs::StoredMarks::stored_of))]
    pub fn emptied_blocks(&self, k: u32, s: u32) -> u32
        requires { Fitting 32 (stored_of self.now) }
        ensures { result ≡ bits_below 32 (emptied_block (stored_of self.now) k s) }
    {
        let mut bits: u32 = 0;
        for i in 0..self.count {
            let u = self.at(i);
            if u.is_emptied(k, s) {
                bits |= block_bits(u.start, u.size);
            }
        }
        bits
    }
}
