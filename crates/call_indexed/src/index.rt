// The index of a store.
ghost use Rattle.std.specs.Prelude.{◌≡◌};
ghost use Rattle.store_directory.specs.Scan.{store_ok};
ghost use Rattle.store_index.specs.Index.{index_of};
ghost use Rattle.store_index.specs.IndexColumns.{columns_of};
ghost use Rattle.call_indexed.specs.IndexCall.{index_codes, index_reply};

use call_answers::refusal::Refusal;
use store_blocks::MOST_BLOCKS;
use store_index::{COLUMNS, Index};

// An index, and whether the call was done. Of a bad store it is all unused, and stands beside the refusal.
#[derive(Clone, Copy)]
pub struct IndexReply {
    pub index: Index,
    pub codes: Result<(), Refusal>,
}

// Writes the index of a store. Of a bad one all lines are unused.
#[tactic(auto, unfolding(crate::specs::IndexCall::index_codes, laws::specs::Unless::unless))]
pub fn put_index(store: &[u8], columns: &mut [[u32; MOST_BLOCKS]; COLUMNS]) -> Result<(), Refusal>
    ensures answers { result ≡ index_codes (store_ok store.now) }
    ensures makes { columns.new ≡ columns_of (index_of store.now) }
{
    if store_index::put_index(store, columns) {
        Ok(())
    } else {
        Err(Refusal::BadStore)
    }
}

// The same by value.
#[tactic(auto, unfolding(crate::specs::IndexCall::index_reply))]
pub fn index(store: &[u8]) -> IndexReply
    ensures { result ≡ index_reply store.now }
{
    let mut columns = [[store_index::UNUSED; MOST_BLOCKS]; COLUMNS];
    let codes = put_index(store, &mut columns);
    let index = store_index::index_in(&columns);
    IndexReply { index, codes }
}
