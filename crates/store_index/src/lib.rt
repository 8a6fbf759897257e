// The index of a store: for each of up to 32 blocks what it is, and of which update. By value it is a struct of four arrays; where it is lent,
// the four arrays stand one behind the other.
#![tactic(auto)]

pub mod after;
mod lines;
pub mod own;

ghost use Rattle.std.specs.Prelude.{◌≡◌};
ghost use Rattle.store_directory.specs.Scan.{store_ok};
ghost use Rattle.store_index.specs.Index.{index_of};
ghost use Rattle.store_index.specs.IndexColumns.{columns_of, index_in};

use store_blocks::MOST_BLOCKS;
use update_header::fields;

// The kinds of a block: numbers, since C reads them.
pub const UNUSED: u32 = 0;
// The first block of an update.
pub const FIRST: u32 = 1;
// A later block of an update.
pub const LATER: u32 = 2;

// The columns of an index, in the order in which C lends them.
pub const KINDS: usize = 0;

pub const STARTS: usize = 1;

pub const REVISIONS: usize = 2;

pub const SIZES: usize = 3;

pub const COLUMNS: usize = 4;

// What the index says of one block: its kind; of a block of an update its first block, its revision and its size in blocks.
#[derive(Clone, Copy)]
pub struct Line {
    pub kind: u32,
    pub start: u32,
    pub revision: u32,
    pub size: u32,
}

// The line of an unused block.
pub const UNUSED_LINE: Line = Line {
    kind: UNUSED,
    start: 0,
    revision: 0,
    size: 0,
};

// Four arrays and not 32 lines, since C lends the columns.
#[derive(Clone, Copy)]
pub struct Index {
    pub kinds: [u32; MOST_BLOCKS],
    pub starts: [u32; MOST_BLOCKS],
    pub revisions: [u32; MOST_BLOCKS],
    pub sizes: [u32; MOST_BLOCKS],
}

// The columns of an index, to be lent. A function, and no From, as `index_in` is: callers use these names, which are the definitions' too.
pub fn columns_of(x: Index) -> [[u32; MOST_BLOCKS]; COLUMNS]
    ensures { result ≡ columns_of x }
{
    // Tried without these variables: fields as an array's elements don't prove.
    let kinds = x.kinds;
    let starts = x.starts;
    let revisions = x.revisions;
    let sizes = x.sizes;
    [kinds, starts, revisions, sizes]
}

// The index that columns hold.
pub fn index_in(columns: &[[u32; MOST_BLOCKS]; COLUMNS]) -> Index
    ensures { result ≡ index_in columns.now }
{
    Index {
        kinds: columns[KINDS],
        starts: columns[STARTS],
        revisions: columns[REVISIONS],
        sizes: columns[SIZES],
    }
}

// Writes the index of a store, and answers whether the store is valid: of a bad one all lines are unused. The store is read once; then of
// each update the revision is read, and nothing is judged again.
pub fn put_index(store: &[u8], columns: &mut [[u32; MOST_BLOCKS]; COLUMNS]) -> bool
    ensures valid { result ≡ store_ok store.now }
    ensures makes { columns.new ≡ columns_of (index_of store.now) }
{
    *columns = [[UNUSED; MOST_BLOCKS]; COLUMNS];
    let Some(d) = store_directory::read_store(store) else {
        return false;
    };
    for i in 0..d.count {
        let start = u32::from(d.starts[i]);
        let size = u32::from(d.sizes[i]);
        let revision = fields::revision(store_blocks::from_block(store, start));
        lines::put_lines(
            columns,
            start,
            revision,
            size,
            start as usize + size as usize,
        );
    }
    true
}
