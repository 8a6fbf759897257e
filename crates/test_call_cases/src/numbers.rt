// The 128 numbers of an index: kinds, starts, revisions and sizes of the 32 blocks.
// As in test_vectors: a program shares no types with another.
ghost use Rattle.std.specs.Prelude.{◌≡◌, [], ◌<◌, get_or, set};
ghost use Rattle.test_call_cases.specs.SameNumbers.{same_numbers};

use store_blocks::MOST_BLOCKS;
use store_index::COLUMNS;

pub const NUMBERS: usize = 128;

pub type Index = [[u32; MOST_BLOCKS]; COLUMNS];

// Are all the numbers of two indexes the same? By a loop: the proof of `x == y` lacks a law that a row of an array of arrays has its 32
// numbers.
#[tactic(auto, using(crate::specs::SameNumberLaws::samenesses))]
pub fn same(x: &Index, y: &Index) -> bool
    ensures { result ≡ same_numbers x.now y.now }
{
    for i in 0..NUMBERS {
        if x[i / MOST_BLOCKS][i % MOST_BLOCKS] != y[i / MOST_BLOCKS][i % MOST_BLOCKS] {
            return false;
        }
    }
    true
}

// An index with another number for block `b` in a column.
pub fn with_number(x: &Index, column: usize, b: usize, number: u32) -> Index
    requires { (column < 4) × (b < 32) }
    ensures { result ≡ set x.now column (set (get_or x.now column []) b number) }
{
    let mut y = *x;
    y[column][b] = number;
    y
}
