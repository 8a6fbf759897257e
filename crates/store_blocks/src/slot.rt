// What stands at a block.
ghost use Rattle.std.specs.Prelude.{◌≡◌, ◌%◌};
ghost use Rattle.update_sizes.specs.Sizes.{blocks_of};
ghost use Rattle.store_blocks.specs.Slot.{fits, slot_of};

use crate::{BLOCK, filled, unused};

// Three kinds, and no Result of an Option: a bad slot is what the reading finds, and only the directory refuses the store for it.
#[derive(Clone, Copy)]
pub enum Slot {
    Unused,
    // the first block of a valid update of so many blocks
    Update { blocks: u32 },
    // nothing that may stand there
    Bad,
}

// An update of `t` bytes in `k` blocks fits in the part, and the rest of its last block is FFh.
#[tactic(auto, using(crate::proofs::SlotCases::fitting), unfolding(update_sizes::specs::Sizes::blocks_of))]
fn fits(s: &[u8], t: u32, k: u32) -> bool
    requires { (k ≡ blocks_of t) × (t % 4 ≡ 0) }
    ensures { result ≡ fits s.now t }
{
    let size = t as usize;
    let end = k as usize * BLOCK;
    end <= s.len() && filled(s, size, end - size)
}

// What stands at the first byte of the part, which is the store from a block on.
#[tactic(auto, using(crate::proofs::SlotCases::slotting), unfolding(crate::specs::Slot::slot_of))]
pub fn read_slot(part: &[u8]) -> Slot
    ensures { result ≡ slot_of part.now }
{
    if unused(part) {
        return Slot::Unused;
    }
    let Ok(m) = update_verdict::check_update(part) else {
        return Slot::Bad;
    };
    if fits(part, m.total, m.blocks) {
        Slot::Update { blocks: m.blocks }
    } else {
        Slot::Bad
    }
}
