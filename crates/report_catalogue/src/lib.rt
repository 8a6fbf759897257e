// The catalogue of a store, written into a lent buffer. It takes any bytes, of any length.
#![tactic(auto)]

mod lines;

ghost use Rattle.std.specs.Prelude.{◌≡◌, true, ◌≤◌, length};
ghost use Rattle.store_blocks.specs.Blocks.{block_count};
ghost use Rattle.store_directory.specs.Scan.{store_ok, directory};
ghost use Rattle.report_text.specs.Texts.{text_room, no_text, added};
ghost use Rattle.report_catalogue.specs.Catalogue.{catalogue_text};
ghost use Rattle.report_catalogue.specs.Reported.{reported, reported_bytes};

use report_text::{Report, Text, give};
use store_blocks::{BLOCK, MOST_BLOCKS};
use store_directory::Directory;

// The bytes of the most blocks.
pub const LARGEST_STORE: usize = MOST_BLOCKS * BLOCK;

// The text of a valid store of `n` blocks, whose directory `d` is. A block that no entry has is unused.
#[tactic(auto, using(report_text::specs::TextLaws::added_twice, report_text::specs::TextLaws::added_none, crate::proofs::LineLaws::entry_small, crate::proofs::CatalogueLaws::count_small, crate::proofs::WalkLaws::entries_none, crate::proofs::WalkLaws::entries_more, crate::proofs::WalkLaws::used_none, crate::proofs::WalkLaws::used_more, crate::proofs::WalkLaws::used_inside, store_directory::proofs::StoreLaws::directory_few))]
fn listing(s: &[u8], d: Directory, n: u32) -> Text
    requires { (store_ok s.now ≡ true) × (d ≡ directory s.now) × (n ≡ block_count s.now) }
    ensures text { result ≡ added no_text (catalogue_text s.now) }
    ensures long { result.len ≤ text_room }
{
    let mut t = lines::number(Text::empty().word(b"blocks "), n, b'\n');
    let mut free = n;
    for i in 0..d.count {
        let start = u32::from(d.starts[i]);
        let size = u32::from(d.sizes[i]);
        t = lines::update_line(t, s, start, size);
        free -= size;
    }
    lines::number(t.word(b"free "), free, b'\n')
}

// The text of any bytes, taken as a store.
#[tactic(auto, using(store_directory::proofs::StoreLaws::stored_some, store_directory::proofs::StoreLaws::stored_none, store_directory::proofs::ValidLaws::blocks_few, crate::proofs::CatalogueLaws::count_is, crate::proofs::CatalogueLaws::text_bad))]
fn text_of(s: &[u8]) -> Text
    ensures text { result ≡ added no_text (catalogue_text s.now) }
    ensures long { result.len ≤ text_room }
{
    match store_directory::read_store(s) {
        Some(d) => listing(s, d, (s.len() / BLOCK) as u32),
        None => Text::empty().word(b"bad store\n"),
    }
}

// Writes the catalogue of any bytes, taken as a store, into `out`. A text's room is always enough.
#[tactic(auto, using(report_text::specs::TextLaws::made_text, crate::proofs::CatalogueLaws::text_short))]
pub fn catalogue(store: &[u8], out: &mut [u8]) -> Report
    ensures value { result ≡ reported store.now (length out.old) }
    ensures out_after { out.new ≡ reported_bytes store.now out.old }
    ensures store_len_bound { length (catalogue_text store.now) ≤ text_room }
{
    give::give(text_of(store), out)
}
