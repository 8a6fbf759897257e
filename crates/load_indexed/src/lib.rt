// The load choice through an index.
#![tactic(auto)]

ghost use Rattle.std.specs.Prelude.{◌≡◌, true, Ok};
ghost use Rattle.store_directory.specs.Scan.{store_ok};
ghost use Rattle.store_index.specs.Index.{index_of};
ghost use Rattle.store_index.specs.IndexColumns.{index_in};
ghost use Rattle.store_index.specs.SameIndex.{same_index};
ghost use Rattle.load_choice.specs.Load.{chosen_data};
ghost use Rattle.load_indexed.specs.IndexedLoad.{found_in, indexed_choice};

use call_answers::choice::{Chosen, LoadChoice};
use call_answers::refusal::Refusal;
use store_blocks::{BLOCK, MOST_BLOCKS};
use store_index::{COLUMNS, Index, KINDS, REVISIONS, own};

// The stored update that covers the processor, by the store's own index, which is lent.
fn find_in(
    store: &[u8],
    columns: &[[u32; MOST_BLOCKS]; COLUMNS],
    signature: u32,
    platform: u32,
) -> Option<Chosen>
    requires { (store_ok store.now ≡ true) × (same_index (index_in columns.now) (index_of store.now) ≡ true) }
    ensures { Ok result ≡ found_in store.now (index_in columns.now) signature platform }
{
    for b in 0..store.len() / BLOCK {
        if columns[KINDS][b] == store_index::FIRST {
            let u = store_blocks::from_block(store, b as u32);
            if update_coverage::covers_with(
                u,
                update_coverage::judged_pairs(u),
                signature,
                platform,
            ) {
                return Some(Chosen {
                    start: b as u32,
                    revision: columns[REVISIONS][b],
                });
            }
        }
    }
    None
}

// The choice for a processor. The store is read once; then its own index, which is lent, decides.
#[tactic(auto, using(crate::proofs::IndexedLoadLaws::indexed_platform, store_directory::proofs::StoreLaws::stored_good))]
pub fn choose_by(
    loading: bool,
    store: &[u8],
    columns: &[[u32; MOST_BLOCKS]; COLUMNS],
    signature: u32,
    platform: u32,
) -> LoadChoice
    ensures { result ≡ indexed_choice loading store.now (index_in columns.now) signature platform }
{
    let d = store_directory::read_store(store).ok_or(Refusal::BadStore)?;
    if !own::is_own(store, &d, columns) {
        return Err(Refusal::BadStore);
    }
    if platform > 7 {
        return Err(Refusal::BadProcessors);
    }
    if !loading {
        return Ok(None);
    }
    Ok(find_in(store, columns, signature, platform))
}

// The same with an index by value.
pub fn choose(loading: bool, store: &[u8], x: Index, signature: u32, platform: u32) -> LoadChoice
    ensures { result ≡ indexed_choice loading store.now x signature platform }
{
    let columns = store_index::columns_of(x);
    choose_by(loading, store, &columns, signature, platform)
}

// The data bytes that the processor gets, a part of the lent store; none where nothing is chosen.
pub fn data(loading: bool, store: &[u8], x: Index, signature: u32, platform: u32) -> &[u8]
    ensures { result.now ≡ chosen_data store.now (indexed_choice loading store.now x signature platform) }
{
    load_choice::data_of(store, choose(loading, store, x, signature, platform))
}
