// The verdict on any bytes: a candidate, or what lies in the store from a block on. Every public function takes any bytes, of any length.
#![tactic(auto)]

mod sums;

ghost use Rattle.std.specs.Prelude.{◌≡◌};
ghost use Rattle.update_verdict.specs.Verdict.{verdict};

use update_header::{checks, fields};

// What a good update says of its sizes: T, the number of data bytes, of entries and of blocks.
#[derive(Clone, Copy)]
pub struct Measures {
    pub total: u32,
    pub data: u32,
    pub entries: u32,
    pub blocks: u32,
}

// Why an update is bad: check 2 or 3, or check 4.
#[derive(Clone, Copy, PartialEq, Eq)]
pub enum BadUpdate {
    Header,
    Sum,
}

pub type Verdict = Result<Measures, BadUpdate>;

// Checks 2 to 4 of the write, in their order. Bytes behind T are ignored.
#[tactic(auto, using(crate::specs::VerdictLaws::judging), unfolding(crate::specs::Verdict::verdict))]
pub fn check_update(part: &[u8]) -> Verdict
    ensures { result ≡ verdict part.now }
{
    if !checks::header_ok(part) {
        return Err(BadUpdate::Header);
    }
    let data = fields::data_size(part);
    let total = fields::total_size(part);
    let n = fields::table_count(part, data);
    if !checks::sizes_fit(part, data, total, n) {
        return Err(BadUpdate::Header);
    }
    let entries = update_sizes::entries_of(data, total, n);
    if !sums::sums_ok(part, data, total, entries) {
        return Err(BadUpdate::Sum);
    }
    Ok(Measures {
        total,
        data,
        entries,
        blocks: update_sizes::blocks_of(total),
    })
}
