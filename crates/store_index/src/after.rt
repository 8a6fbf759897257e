// The index after an accepted write.
ghost use Rattle.std.specs.Prelude.{◌≡◌};
ghost use Rattle.store_index.specs.IndexAfter.{index_after};
ghost use Rattle.store_index.specs.IndexColumns.{columns_of, index_in};
ghost use Rattle.store_index.specs.UpdateLines.{Columns};
ghost use Rattle.store_index.specs.AfterLines.{run_end, low_zeros, Cleared};

use crate::{COLUMNS, Index, UNUSED_LINE, lines};
use store_blocks::MOST_BLOCKS;

// The end of the run of `size` blocks from `start` on. It doesn't wrap, and blocks above 31 are ignored.
#[tactic(auto, unfolding(crate::specs::AfterLines::run_end))]
fn run_end(start: u32, size: u32) -> usize
    ensures { result ≡ run_end start size }
{
    let end = start as usize + size as usize;
    end.min(MOST_BLOCKS)
}

// How many low bits are 0, by eights, so that a write into high blocks doesn't go through all of them.
#[tactic(auto, unfolding(crate::specs::AfterLines::low_zeros))]
fn low_zeros(bits: u32) -> u32
    ensures { result ≡ low_zeros bits }
{
    if bits % 0x1000000 == 0 {
        24
    } else if bits % 0x10000 == 0 {
        16
    } else if bits % 0x100 == 0 {
        8
    } else {
        0
    }
}

// Clears the lines of the emptied blocks.
fn clear_lines(columns: &mut [[u32; MOST_BLOCKS]; COLUMNS], emptied: u32)
    requires { Columns columns.old }
    ensures { Cleared emptied 32 columns.old columns.new }
{
    for b in low_zeros(emptied)..32 {
        let left = emptied >> b;
        if left == 0 {
            return;
        }
        let here = left % 2 == 1;
        if here {
            lines::put_line(columns, b as usize, UNUSED_LINE);
        }
    }
}

// Makes of a lent index the one after a write, from the emptied blocks, and the candidate's start, revision and size in blocks. Any numbers
// will do. They come one by one, as from C.
pub fn carry(
    columns: &mut [[u32; MOST_BLOCKS]; COLUMNS],
    emptied: u32,
    start: u32,
    revision: u32,
    size: u32,
)
    ensures { columns.new ≡ columns_of (index_after (index_in columns.old) emptied start revision size) }
{
    lines::lengths(columns);
    clear_lines(columns, emptied);
    let end = run_end(start, size);
    if (start as usize) < end {
        lines::put_lines(columns, start, revision, size, end);
    }
}

// The same of an index by value.
pub fn index_after(old: Index, emptied: u32, start: u32, revision: u32, size: u32) -> Index
    ensures { result ≡ index_after old emptied start revision size }
{
    let mut columns = crate::columns_of(old);
    carry(&mut columns, emptied, start, revision, size);
    crate::index_in(&columns)
}
