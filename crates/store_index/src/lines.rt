// Lines written into lent columns.
ghost use Rattle.std.specs.Prelude.{◌≡◌, ◌<◌, ◌≤◌, length};
ghost use Rattle.store_index.specs.UpdateLines.{Columns, kind_from, LinePut, LinesPut};

use crate::{COLUMNS, FIRST, KINDS, LATER, Line, REVISIONS, SIZES, STARTS};
use store_blocks::MOST_BLOCKS;

// The kind of block `b` of an update.
#[tactic(auto, unfolding(crate::specs::UpdateLines::kind_from))]
pub fn kind_from(start: u32, b: u32) -> u32
    ensures { result ≡ kind_from start b }
{
    if start == b { FIRST } else { LATER }
}

// Writes line `b`. The others stay.
pub fn put_line(columns: &mut [[u32; MOST_BLOCKS]; COLUMNS], b: usize, line: Line)
    requires { (b < 32) × Columns columns.old }
    ensures { LinePut b line columns.old columns.new }
{
    columns[KINDS][b] = line.kind;
    columns[STARTS][b] = line.start;
    columns[REVISIONS][b] = line.revision;
    columns[SIZES][b] = line.size;
}

// Writes the lines of an update of `size` blocks from `start` on, up to block `end`. The others stay. The numbers come one by one, as C passes
// them on for a carried index.
pub fn put_lines(
    columns: &mut [[u32; MOST_BLOCKS]; COLUMNS],
    start: u32,
    revision: u32,
    size: u32,
    end: usize,
)
    requires { (start ≤ end) × (end ≤ 32) × Columns columns.old }
    ensures { LinesPut start revision size end columns.old columns.new }
{
    for b in start as usize..end {
        let line = Line {
            kind: kind_from(start, b as u32),
            start,
            revision,
            size,
        };
        put_line(columns, b, line);
    }
}

// How many places a lent column has. The length of an array in a lent one is told only where it is passed on as a slice, so this one does
// nothing but take one.
fn places(column: &[u32])
    requires { length column.now ≡ 32 }
    ensures { length column.now ≡ 32 }
{}

// Lent columns are four of 32 places.
pub fn lengths(columns: &[[u32; MOST_BLOCKS]; COLUMNS])
    ensures { Columns columns.now }
{
    places(&columns[KINDS]);
    places(&columns[STARTS]);
    places(&columns[REVISIONS]);
    places(&columns[SIZES]);
}
