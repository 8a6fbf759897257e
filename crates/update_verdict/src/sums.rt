// The sums of an update whose header and sizes are right. Each wraps on purpose.
ghost use Rattle.std.specs.Prelude.{◌≡◌, ◌+◌, ◌*◌, ◌≤◌, min, length};
ghost use Rattle.laws.specs.Below.{all_below};
ghost use Rattle.update_header.specs.Fields.{data_size, total_size, entry_count};
ghost use Rattle.update_sizes.specs.Sizes.{entry_offset};
ghost use Rattle.update_verdict.specs.Sums.{sum_of, header_sum, entry_ok, sums_ok};
ghost use Rattle.update_header.specs.Inside.{Inside};

use update_header::fields;
use update_sizes::{ENTRY, HEADER, TABLE_HEAD};

#[tactic(auto, unfolding(crate::specs::Sums::sum_of))]
fn sum_of(signature: u32, flags: u32, checksum: u32) -> u32
    ensures { result ≡ sum_of signature flags checksum }
{
    signature.wrapping_add(flags).wrapping_add(checksum)
}

#[tactic(auto, unfolding(crate::specs::Sums::header_sum))]
fn header_sum(s: &[u8]) -> u32
    ensures { result ≡ header_sum s.now }
{
    sum_of(fields::signature(s), fields::flags(s), fields::checksum(s))
}

#[tactic(auto, unfolding(crate::specs::Sums::entry_ok, update_sizes::specs::Sizes::entry_offset))]
fn entry_ok(s: &[u8], d: u32, want: u32, k: u32) -> bool
    requires { entry_offset d k + 12 ≤ length s.now }
    ensures { result ≡ entry_ok s.now d want k }
{
    let at = HEADER + d as usize + TABLE_HEAD + ENTRY * (k as usize);
    sum_of(
        bytes_dwords::dword_inside(s, at),
        bytes_dwords::dword_inside(s, at + 4),
        bytes_dwords::dword_inside(s, at + 8),
    ) == want
}

#[tactic(auto, using(laws::specs::Loops::each), unfolding(update_sizes::specs::Sizes::entry_offset))]
fn entries_ok(s: &[u8], d: u32, n: u32, want: u32) -> bool
    requires { 48 + d + 20 * min 1 n + 12 * n ≤ length s.now }
    ensures { result ≡ all_below n (entry_ok s.now d want) }
{
    for k in 0..n {
        if !entry_ok(s, d, want, k) {
            return false;
        }
    }
    true
}

// `d`, `t` and `n` are the sizes and the number of entries. The bytes before the table and the table are summed once each.
#[tactic(auto, using(crate::specs::SumLaws::summing))]
pub fn sums_ok(s: &[u8], d: u32, t: u32, n: u32) -> bool
    requires { Inside s.now × (d ≡ data_size s.now) × (t ≡ total_size s.now) × (n ≡ entry_count s.now) }
    ensures { result ≡ sums_ok s.now }
{
    let end = t as usize;
    let begin = HEADER + d as usize;
    let table = bytes_dwords::sum(&s[begin..end]);
    let all = bytes_dwords::sum(&s[..begin]).wrapping_add(table);
    all == 0 && table == 0 && entries_ok(s, d, n, header_sum(s))
}
