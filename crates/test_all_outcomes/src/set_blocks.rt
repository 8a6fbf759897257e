// The blocks of a set of updates, as the bits of a number.
ghost use Rattle.std.specs.Prelude.{◌≡◌, ◌<◌};
ghost use Rattle.test_all_outcomes.specs.SetBlocks.{takes, taken, set_blocks};

use crate::layout;
use crate::layout::Layout;
use crate::outcomes::Set;

// Whether update `i` is in the set and has block `c`.
#[tactic(auto, unfolding(crate::specs::SetBlocks::takes, laws::specs::Arrays::mark_at))]
fn takes(l: Layout, set: Set, c: u32, i: usize) -> bool
    requires { i < 4 }
    ensures { result ≡ takes l set c i }
{
    set.has[i] && layout::owns(l, i, c)
}

// Whether some update of the set has block `c`.
fn taken(l: Layout, set: Set, c: u32) -> bool
    ensures { result ≡ taken l set c }
{
    (0..4).any(|i| takes(l, set, c, i))
}

// Bit c for each of the six blocks that an update of the set has.
#[tactic(auto, using(crate::specs::SetBlockLaws::gathering))]
pub fn bits(l: Layout, set: Set) -> u32
    ensures { result ≡ set_blocks l set }
{
    let mut bits: u32 = 0;
    for c in 0..6 {
        if taken(l, set, c) {
            bits += 1 << c;
        }
    }
    bits
}
