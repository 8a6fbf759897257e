// The processors that an update covers. Its pairs of a signature and flags are the header's (pair 0) and those of the entries (entry k is
// pair k + 1).
#![tactic(auto)]

pub mod platforms;

ghost use Rattle.std.specs.Prelude.{◌≡◌, ◌+◌, ◌-◌, ◌≤◌, ◌<◌, cond, eqb};
ghost use Rattle.update_sizes.specs.Sizes.{entry_offset};
ghost use Rattle.update_header.specs.Fields.{data_size, total_size, entry_count};
ghost use Rattle.update_coverage.specs.Covers.{pair_count, pairs_of, signature_at, platforms_at, names, covers_at, covers};

use update_header::{checks, fields};
use update_sizes::{ENTRY, HEADER, TABLE_HEAD};

// One reading of an update's header: the number of data bytes, behind which the entries stand, that of the pairs, and pair 0. The update's
// bytes go beside it, since a struct that holds a slice doesn't fit the IA-32 archive.
#[derive(Clone, Copy)]
pub struct Pairs {
    pub data: u32,
    pub count: u32,
    pub signature: u32,
    pub platforms: u8,
}

// How many pairs there are: none where check 2 or 3 of the write fails.
#[tactic(auto, using(crate::proofs::PairLaws::pairing))]
fn pair_count(s: &[u8], d: u32) -> u32
    requires { d ≡ data_size s.now }
    ensures { result ≡ pair_count s.now }
{
    if !checks::header_ok(s) {
        return 0;
    }
    let t = fields::total_size(s);
    let n = fields::table_count(s, d);
    if checks::sizes_fit(s, d, t, n) {
        update_sizes::entries_of(d, t, n) + 1
    } else {
        0
    }
}

// The reading, with `d` data bytes and `n` pairs, where those are known.
#[tactic(auto, using(crate::proofs::PairLaws::reading))]
pub fn pairs_with(s: &[u8], d: u32, n: u32) -> Pairs
    requires { (d ≡ data_size s.now) × (n ≡ pair_count s.now) }
    ensures { result ≡ pairs_of s.now }
{
    Pairs {
        data: d,
        count: n,
        signature: fields::signature(s),
        platforms: platforms::header_platforms(s),
    }
}

// The reading of any bytes.
pub fn pairs_of(s: &[u8]) -> Pairs
    ensures { result ≡ pairs_of s.now }
{
    let d = fields::data_size(s);
    pairs_with(s, d, pair_count(s, d))
}

// How many entries an update has that has passed checks 2 and 3.
#[tactic(auto, using(crate::proofs::PairLaws::table_lent, crate::proofs::PairLaws::no_entries, crate::proofs::PairLaws::some_entries))]
fn judged_entries(s: &[u8], d: u32, t: u32) -> u32
    requires { (0 < pair_count s.now) × (d ≡ data_size s.now) × (t ≡ total_size s.now) }
    ensures { result ≡ entry_count s.now }
{
    if t as usize == HEADER + d as usize {
        0
    } else {
        bytes_dwords::dword_inside(s, HEADER + d as usize)
    }
}

// The reading of such an update. It isn't judged again: each field is one load.
#[tactic(auto, using(crate::proofs::PairLaws::judging))]
pub fn judged_pairs(s: &[u8]) -> Pairs
    requires { 0 < pair_count s.now }
    ensures { result ≡ pairs_of s.now }
{
    let stored = bytes_dwords::dword_inside(s, fields::DATA_SIZE_AT);
    let d = update_sizes::data_size_of(stored);
    let t = update_sizes::total_size_of(
        stored,
        bytes_dwords::dword_inside(s, fields::TOTAL_SIZE_AT),
    );
    Pairs {
        data: d,
        count: judged_entries(s, d, t) + 1,
        signature: bytes_dwords::dword_inside(s, fields::SIGNATURE_AT),
        platforms: (bytes_dwords::dword_inside(s, fields::FLAGS_AT) % 256) as u8,
    }
}

// Where a field of pair `i` stands, behind `d` data bytes: at `in_header` in the header, or at `in_entry` in an entry.
#[tactic(auto, unfolding(update_sizes::specs::Sizes::entry_offset))]
fn field_offset(d: u32, i: u32, in_header: usize, in_entry: usize) -> usize
    requires { (i ≤ 64) × (in_entry < 12) }
    ensures { result ≡ cond (eqb i 0) in_header (entry_offset d (i - 1) + in_entry) }
{
    if i == 0 {
        in_header
    } else {
        HEADER + d as usize + TABLE_HEAD + ENTRY * ((i - 1) as usize) + in_entry
    }
}

pub fn signature_at(s: &[u8], pairs: Pairs, i: u32) -> u32
    requires { (pairs ≡ pairs_of s.now) × (i < pairs.count) }
    ensures { result ≡ signature_at s.now i }
{
    bytes_dwords::dword_inside(s, field_offset(pairs.data, i, fields::SIGNATURE_AT, 0))
}

// The flags that count: bits 8 to 31 are ignored.
pub fn platforms_at(s: &[u8], pairs: Pairs, i: u32) -> u8
    requires { (pairs ≡ pairs_of s.now) × (i < pairs.count) }
    ensures { result ≡ platforms_at s.now i }
{
    (bytes_dwords::dword_inside(s, field_offset(pairs.data, i, fields::FLAGS_AT, 4)) % 256) as u8
}

#[tactic(auto, unfolding(crate::specs::Covers::names, laws::specs::Bits::bit))]
fn names(f: u8, platform: u32) -> bool
    ensures { result ≡ names f platform }
{
    platform < 8 && (f >> platform) % 2 == 1
}

#[tactic(auto, unfolding(crate::specs::Covers::covers_at, crate::specs::Covers::pair_covers))]
fn covers_at(u: &[u8], pairs: Pairs, i: u32, signature: u32, platform: u32) -> bool
    requires { (pairs ≡ pairs_of u.now) × (i < pairs.count) }
    ensures { result ≡ covers_at u.now signature platform i }
{
    signature_at(u, pairs, i) == signature && names(platforms_at(u, pairs, i), platform)
}

// Does the update with these pairs cover the processor? The loop goes by number: a closure that captures bytes doesn't fit the IA-32 archive.
#[tactic(auto, using(laws::specs::Loops::scan, crate::proofs::PairLaws::count_is), unfolding(crate::specs::Covers::covers))]
pub fn covers_with(u: &[u8], pairs: Pairs, signature: u32, platform: u32) -> bool
    requires { pairs ≡ pairs_of u.now }
    ensures { result ≡ covers u.now signature platform }
{
    for i in 0..pairs.count {
        if covers_at(u, pairs, i, signature, platform) {
            return true;
        }
    }
    false
}

pub fn covers(u: &[u8], signature: u32, platform: u32) -> bool
    ensures { result ≡ covers u.now signature platform }
{
    covers_with(u, pairs_of(u), signature, platform)
}
