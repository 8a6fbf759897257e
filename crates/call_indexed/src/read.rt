// A read through an index.
ghost use Rattle.std.specs.Prelude.{◌≡◌, length};
ghost use Rattle.store_index.specs.IndexColumns.{index_in};
ghost use Rattle.call_indexed.specs.IndexedRead.{line_plan, indexed_plan, indexed_answer, indexed_bytes};

use call_answers::answer::Answer;
use call_answers::refusal::Refusal;
use call_reads::read;
use call_reads::read::ReadPlan;
use store_blocks::{BLOCK, MOST_BLOCKS};
use store_index::{COLUMNS, Index, KINDS, SIZES, own};

// By the line of the block, for a destination of `lent` bytes. The kinds are numbers, as C lends an index.
#[tactic(auto, unfolding(crate::specs::IndexedRead::line_plan, laws::specs::Unless::unless))]
fn line_plan(kind: u32, size: u32, lent: usize) -> ReadPlan
    ensures { result ≡ line_plan kind size lent }
{
    match kind {
        store_index::FIRST => read::read_blocks(size, lent),
        store_index::UNUSED => read::read_blocks(1, lent),
        _ => Err(Refusal::NotEmpty),
    }
}

// The checks in their order. The store is read once; then its own index, which is lent, decides.
pub fn indexed_plan(
    store: &[u8],
    columns: &[[u32; MOST_BLOCKS]; COLUMNS],
    block: u32,
    lent: usize,
) -> ReadPlan
    ensures { result ≡ indexed_plan store.now (index_in columns.now) block lent }
{
    let d = store_directory::read_store(store).ok_or(Refusal::BadStore)?;
    if !own::is_own(store, &d, columns) {
        return Err(Refusal::BadStore);
    }
    let b = block as usize;
    if b >= store.len() / BLOCK {
        return Err(Refusal::InvalidBlock);
    }
    line_plan(columns[KINDS][b], columns[SIZES][b], lent)
}

// Copies an unused block, or all blocks of the update that begins at the block. The bytes behind them stay.
pub fn read_indexed(store: &[u8], x: Index, block: u32, destination: &mut [u8]) -> Answer
    ensures answers { result ≡ indexed_answer store.now x block (length destination.old) }
    ensures copies { destination.new ≡ indexed_bytes store.now x block destination.old }
{
    let columns = store_index::columns_of(x);
    let plan = indexed_plan(store, &columns, block, destination.len());
    read::copy_planned(store, block, destination, plan)
}
