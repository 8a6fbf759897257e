// Whether an index is the store's own: the lines of each stored update are right, and no more lines are used than these. The differences are
// gathered, which is quicker than to leave at the first, and the used lines are counted before the directory is looked at, since its bytes
// have only just been written.
ghost use Rattle.std.specs.Prelude.{◌≡◌, ◌+◌, ◌≤◌, Some};
ghost use Rattle.laws.specs.Count.{count_below};
ghost use Rattle.store_directory.specs.Scan.{stored};
ghost use Rattle.store_index.specs.Index.{index_of};
ghost use Rattle.store_index.specs.IndexColumns.{index_in};
ghost use Rattle.store_index.specs.SameIndex.{same_index};
ghost use Rattle.store_index.specs.OwnLines.{used_in, Gathered, UpdateFrom};

use crate::{COLUMNS, KINDS, REVISIONS, SIZES, STARTS, lines};
use store_blocks::MOST_BLOCKS;
use store_directory::Directory;
use update_header::fields;

// How many lines are used: some number of theirs isn't 0.
fn used_lines(columns: &[[u32; MOST_BLOCKS]; COLUMNS]) -> u32
    ensures { result ≡ count_below 32 (used_in (index_in columns.now)) }
{
    let mut used: u32 = 0;
    for b in 0..MOST_BLOCKS {
        let all = columns[KINDS][b]
            | columns[STARTS][b]
            | columns[REVISIONS][b]
            | columns[SIZES][b];
        if all != 0 {
            used += 1;
        }
    }
    used
}

// Gathers where the lines of an update differ from what they should be, which is said of its three numbers (`UpdateFrom`).
fn update_lines(
    columns: &[[u32; MOST_BLOCKS]; COLUMNS],
    differs: u32,
    start: u32,
    revision: u32,
    size: u32,
) -> u32
    requires { start + size ≤ 32 }
    ensures { Gathered result differs (UpdateFrom (index_in columns.now) start revision size (start + size)) }
{
    let end = start as usize + size as usize;
    let mut all = differs;
    for b in start as usize..end {
        all |= columns[KINDS][b] ^ lines::kind_from(start, b as u32);
        all |= columns[STARTS][b] ^ start;
        all |= columns[REVISIONS][b] ^ revision;
        all |= columns[SIZES][b] ^ size;
    }
    all
}

// Is the lent index that of the valid store whose directory `d` is? It is lent, since by value its arrays are copied.
pub fn is_own(store: &[u8], d: &Directory, columns: &[[u32; MOST_BLOCKS]; COLUMNS]) -> bool
    requires { stored store.now ≡ Some d.now }
    ensures { result ≡ same_index (index_in columns.now) (index_of store.now) }
{
    let used = used_lines(columns);
    let mut differs: u32 = 0;
    let mut blocks: u32 = 0;
    for i in 0..d.count {
        let start = u32::from(d.starts[i]);
        let size = u32::from(d.sizes[i]);
        let revision = fields::revision(store_blocks::from_block(store, start));
        differs = update_lines(columns, differs, start, revision, size);
        blocks += size;
    }
    (differs | (used ^ blocks)) == 0
}
