// Updates made over what stands in a buffer.
ghost use Rattle.std.specs.Prelude.{◌≡◌};
ghost use Rattle.test_samples.specs.Make.{header, negated, balance, p, plain, rest_of, entry, entries, tabled};

use crate::bytes;
use update_header::fields;

// A header with right versions and the date of document 01's P. D and T are written as given.
#[tactic(auto, unfolding(crate::specs::Make::header))]
pub fn header(buf: &mut [u8], revision: u32, signature: u32, flags: u32, d: u32, t: u32)
    ensures { buf.new ≡ header buf.old revision signature flags d t }
{
    bytes::dword(buf, 0, 1);
    bytes::dword(buf, 4, revision);
    bytes::dword(buf, 8, 0x07181998);
    bytes::dword(buf, 12, signature);
    bytes::dword(buf, 20, 1);
    bytes::dword(buf, 24, flags);
    bytes::dword(buf, 28, d);
    bytes::dword(buf, 32, t);
}

// What makes a sum 0.
fn negated(x: u32) -> u32
    ensures { result ≡ negated x }
{
    x.wrapping_neg()
}

// Writes into the dword at `at` what makes the bytes from `from` to `end` sum to 0.
#[tactic(auto, unfolding(crate::specs::Make::balance))]
pub fn balance(buf: &mut [u8], at: u32, from: u32, end: u32)
    ensures { buf.new ≡ balance buf.old at from end }
{
    bytes::dword(buf, at as usize, 0);
    let sum = bytes_dwords::sum(bytes::behind(bytes::first(buf, end as usize), from as usize));
    bytes::dword(buf, at as usize, negated(sum));
}

// The update P of document 01, with a revision and a checksum, in a buffer of zeros.
#[tactic(auto, unfolding(crate::specs::Make::p))]
pub fn p(buf: &mut [u8], revision: u32, checksum: u32)
    ensures { buf.new ≡ p buf.old revision checksum }
{
    header(buf, revision, 0x650, 6, 0, 0);
    bytes::dword(buf, 16, checksum);
}

// An update of T bytes without a table.
#[tactic(auto, unfolding(crate::specs::Make::plain))]
pub fn plain(buf: &mut [u8], revision: u32, signature: u32, flags: u32, d: u32, t: u32)
    ensures { buf.new ≡ plain buf.old revision signature flags d t }
{
    header(buf, revision, signature, flags, d, t);
    balance(buf, 16, 0, t);
}

// The checksum that is right for an entry.
#[tactic(auto, unfolding(crate::specs::Make::rest_of))]
fn rest_of(s: &[u8], signature: u32, flags: u32) -> u32
    ensures { result ≡ rest_of s.now signature flags }
{
    fields::signature(s)
        .wrapping_add(fields::flags(s))
        .wrapping_add(fields::checksum(s))
        .wrapping_add(negated(signature.wrapping_add(flags)))
}

// Writes entry `k` of the table at `at`, with the checksum that is right for it.
#[tactic(auto, unfolding(crate::specs::Make::entry))]
pub fn entry(buf: &mut [u8], at: u32, k: u32, signature: u32, flags: u32)
    ensures { buf.new ≡ entry buf.old at k signature flags }
{
    let rest = rest_of(buf, signature, flags);
    let to = at as usize + 20 + 12 * (k as usize);
    bytes::dword(buf, to, signature);
    bytes::dword(buf, to + 4, flags);
    bytes::dword(buf, to + 8, rest);
}

// Writes the `n` entries of the table at `at`, for the signatures after `signature`.
#[tactic(auto, using(crate::specs::Make::entries_none, crate::specs::Make::entries_more, crate::specs::Make::entries_done))]
fn entries(buf: &mut [u8], at: u32, n: u32, signature: u32, flags: u32)
    ensures { buf.new ≡ entries buf.old at signature flags n }
{
    for k in 0..n {
        entry(buf, at, k, signature.wrapping_add(k + 1), flags);
    }
}

// An update of `d` data bytes with a table of `n` entries for the signatures after `signature`: nothing where D or n is far too large.
#[tactic(auto, using(crate::specs::Make::tabled_long, crate::specs::Make::tabled_many, crate::specs::Make::tabled_made))]
pub fn tabled(buf: &mut [u8], signature: u32, flags: u32, d: u32, n: u32)
    ensures { buf.new ≡ tabled buf.old signature flags d n }
{
    if d > 65536 || n > 1000 {
        return;
    }
    let at = 48 + d;
    let end = at + 20 + 12 * n;
    header(buf, 7, signature, flags, d, end);
    balance(buf, 16, 0, at);
    bytes::dword(buf, at as usize, n);
    entries(buf, at, n, signature, flags);
    balance(buf, at + 4, at, end);
}
