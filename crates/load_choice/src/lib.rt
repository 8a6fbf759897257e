// The load choice at start-up: which stored update a processor gets, and its data as a part of the lent store.
#![tactic(auto)]

ghost use Rattle.std.specs.Prelude.{◌≡◌, Some, Ok};
ghost use Rattle.store_directory.specs.Scan.{stored};
ghost use Rattle.load_choice.specs.Load.{found, load_choice, chosen_data};

use call_answers::choice::{Chosen, LoadChoice};
use call_answers::refusal::Refusal;
use store_directory::Directory;
use update_header::data::data_part;
use update_header::fields;

// The stored update that covers the processor, by the directory of the store.
fn find(store: &[u8], d: &Directory, signature: u32, platform: u32) -> Option<Chosen>
    requires { stored store.now ≡ Some d.now }
    ensures { Ok result ≡ found store.now signature platform }
{
    for i in 0..d.count {
        let start = u32::from(d.starts[i]);
        let u = store_blocks::from_block(store, start);
        if update_coverage::covers_with(u, update_coverage::judged_pairs(u), signature, platform) {
            return Some(Chosen {
                start,
                revision: fields::revision(u),
            });
        }
    }
    None
}

// The choice for a processor.
#[tactic(auto, using(crate::specs::LoadLaws::choose_platform, store_directory::proofs::StoreLaws::stored_good))]
pub fn choose(loading: bool, store: &[u8], signature: u32, platform: u32) -> LoadChoice
    ensures { result ≡ load_choice loading store.now signature platform }
{
    let d = store_directory::read_store(store).ok_or(Refusal::BadStore)?;
    if platform > 7 {
        return Err(Refusal::BadProcessors);
    }
    if !loading {
        return Ok(None);
    }
    Ok(find(store, &d, signature, platform))
}

// The chosen data bytes, a part of the lent store; none where nothing is chosen.
#[tactic(auto, unfolding(crate::specs::Load::chosen_data))]
pub fn data_of(store: &[u8], choice: LoadChoice) -> &[u8]
    ensures { result.now ≡ chosen_data store.now choice }
{
    match choice {
        Ok(Some(chosen)) => data_part(store_blocks::from_block(store, chosen.start)),
        _ => &store[..0],
    }
}

// Both in one: the data bytes that the processor gets.
pub fn data(loading: bool, store: &[u8], signature: u32, platform: u32) -> &[u8]
    ensures { result.now ≡ chosen_data store.now (load_choice loading store.now signature platform) }
{
    data_of(store, choose(loading, store, signature, platform))
}
