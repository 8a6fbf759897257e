// Blocks of 2,048 bytes, whether bytes are all FFh, and what stands at a block.
#![tactic(auto)]

pub mod slot;

ghost use Rattle.std.specs.Prelude.{◌≡◌, ◌+◌, ◌%◌, ◌≤◌, ◌<◌, length};
ghost use Rattle.store_blocks.specs.Blocks.{is_ff, filled, unused, from_block, length_ok};

pub use update_sizes::BLOCK;

// The most blocks of a store.
pub const MOST_BLOCKS: usize = 32;
// Four bytes of FFh.
const ALL_FF: u32 = 0xFFFF_FFFF;

#[tactic(auto, unfolding(crate::specs::Blocks::is_ff))]
fn is_ff(s: &[u8], i: usize, k: usize) -> bool
    requires { i + k < length s.now }
    ensures { result ≡ is_ff s.now i k }
{
    s[i + k] == 255
}

// Are the `n` bytes from `i` on FFh, whole dwords? They are exactly if the `and` of the dwords is FFFFFFFFh, and that is quicker than a
// test of each.
pub fn filled(s: &[u8], i: usize, n: usize) -> bool
    requires { (i + n ≤ length s.now) × (n ≤ 2048) × (n % 4 ≡ 0) }
    ensures { result ≡ filled s.now i n }
{
    let dwords = (n / 4) as u32;
    let mut all: u32 = ALL_FF;
    for k in 0..dwords {
        all &= bytes_dwords::dword_inside(s, i + 4 * k as usize);
    }
    all == ALL_FF
}

// Is the first block of the part unused? The first byte tells for all but an unused one.
#[tactic(auto, using(crate::specs::FilledLaws::unused_no), unfolding(crate::specs::Blocks::unused))]
pub fn unused(s: &[u8]) -> bool
    ensures { result ≡ unused s.now }
{
    BLOCK <= s.len() && is_ff(s, 0, 0) && filled(s, 0, BLOCK)
}

// The store from block `b`'s first byte on; nothing where that is behind the end.
pub fn from_block(s: &[u8], b: u32) -> &[u8]
    ensures { result.now ≡ from_block s.now b }
{
    let at = usize::min(b as usize * BLOCK, s.len());
    &s[at..]
}

// The same, by a first block of a directory, which is a byte.
pub fn from_start(s: &[u8], start: u8) -> &[u8]
    ensures { result.now ≡ from_block s.now start }
{
    from_block(s, u32::from(start))
}

// 1 to 32 whole blocks.
#[tactic(auto, unfolding(crate::specs::Blocks::length_ok))]
pub fn length_ok(n: usize) -> bool
    ensures { result ≡ length_ok n }
{
    n % BLOCK == 0 && n / BLOCK >= 1 && n / BLOCK <= MOST_BLOCKS
}
