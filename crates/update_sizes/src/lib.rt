// The sizes of an update, as numbers: what D and T mean, the rule for them, the number of entries and of blocks.
#![tactic(auto)]

ghost use Rattle.std.specs.Prelude.{◌≡◌};
ghost use Rattle.update_sizes.specs.Sizes.{data_size_of, total_size_of, sizes_ok, entries_of, blocks_of};

// Bytes of the header, behind which the data begins.
pub const HEADER: usize = 48;
// Bytes of the table before its entries: count, checksum, 12 reserved bytes.
pub const TABLE_HEAD: usize = 20;
// Bytes of an entry: signature, flags, checksum.
pub const ENTRY: usize = 12;
// The most entries of a table.
pub const MOST_ENTRIES: u32 = 64;
// The data bytes that D = 0 means.
pub const DEFAULT_DATA: u32 = 2000;
// The bytes in all that D = 0 means.
pub const DEFAULT_TOTAL: u32 = 2048;
// D is a multiple of this.
pub const DATA_UNIT: u32 = 4;
// T without a table is a multiple of this.
pub const TOTAL_UNIT: u32 = 1024;
// The greatest T.
pub const MOST_TOTAL: u32 = 32768;
// Bytes of a block.
pub const BLOCK: usize = 2048;
// Added before a division by BLOCK, it rounds up.
pub const BLOCK_ROUNDING: usize = BLOCK - 1;

// The number of data bytes that the stored D means.
#[tactic(auto, unfolding(crate::specs::Sizes::data_size_of))]
pub fn data_size_of(d: u32) -> u32
    ensures { result ≡ data_size_of d }
{
    if d == 0 { DEFAULT_DATA } else { d }
}

// The number of bytes in all that the stored D and T mean.
#[tactic(auto, unfolding(crate::specs::Sizes::total_size_of))]
pub fn total_size_of(d: u32, t: u32) -> u32
    ensures { result ≡ total_size_of d t }
{
    if d == 0 { DEFAULT_TOTAL } else { t }
}

// The rule for D and T, with the table's count field. No sum is taken in 32 bits, so a huge D can't look small. With a table T is a multiple
// of 4 because D is. The three stay plain numbers, as its definition and its laws take them.
#[tactic(auto, unfolding(crate::specs::Sizes::sizes_ok))]
pub fn sizes_ok(d: u32, t: u32, n: u32) -> bool
    ensures { result ≡ sizes_ok d t n }
{
    if d % DATA_UNIT != 0 || t > MOST_TOTAL {
        return false;
    }
    if t as usize == HEADER + d as usize {
        return t % TOTAL_UNIT == 0;
    }
    n >= 1
        && n <= MOST_ENTRIES
        && t as usize == HEADER + d as usize + TABLE_HEAD + ENTRY * (n as usize)
}

// The number of entries, where the sizes are right.
#[tactic(auto, unfolding(crate::specs::Sizes::entries_of))]
pub fn entries_of(d: u32, t: u32, n: u32) -> u32
    ensures { result ≡ entries_of d t n }
{
    if t as usize == HEADER + d as usize {
        0
    } else {
        n
    }
}

// The number of blocks that `t` bytes occupy.
#[tactic(auto, unfolding(crate::specs::Sizes::blocks_of))]
pub fn blocks_of(t: u32) -> u32
    ensures { result ≡ blocks_of t }
{
    ((t as usize + BLOCK_ROUNDING) / BLOCK) as u32
}
