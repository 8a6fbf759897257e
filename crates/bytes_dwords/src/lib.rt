// Little-endian 32-bit numbers in a byte slice, and their sum modulo 2^32.
#![tactic(auto)]

ghost use Rattle.std.specs.Prelude.{◌≡◌, ◌+◌, ◌*◌, ◌/◌, ◌%◌, ◌^◌, ◌<◌, ◌≤◌, min, length, slice_index};
ghost use Rattle.bytes_dwords.specs.Dword.{dword};
ghost use Rattle.bytes_dwords.specs.Sum.{dword_sum};
ghost use Rattle.bytes_dwords.specs.Summed.{summed};

// The dword at byte `at`, all four bytes of which are there. It compiles to one load.
#[tactic(auto, unfolding(crate::specs::Dword::dword))]
pub fn dword_inside(s: &[u8], at: usize) -> u32
    requires { at + 4 ≤ length s.now }
    ensures { result ≡ dword s.now at }
{
    u32::from_le_bytes([s[at], s[at + 1], s[at + 2], s[at + 3]])
}

// The library's `get` answers an Option of a reference, which doesn't fit the IA-32 archive.
fn byte_or_zero(s: &[u8], at: usize) -> u8
    ensures { result ≡ slice_index s.now at }
{
    if at < s.len() { s[at] } else { 0 }
}

// The dword at byte `at`, behind which the slice may end.
#[tactic(auto, unfolding(crate::specs::Dword::dword))]
fn dword_cut(s: &[u8], at: usize) -> u32
    requires { at < length s.now }
    ensures { result ≡ dword s.now at }
{
    u32::from_le_bytes([
        s[at],
        byte_or_zero(s, at + 1),
        byte_or_zero(s, at + 2),
        byte_or_zero(s, at + 3),
    ])
}

// The dword at byte `at`; a byte behind the end counts as 0.
#[tactic(auto, using(crate::proofs::DwordLaws::dword_behind))]
pub fn dword(s: &[u8], at: usize) -> u32
    ensures { result ≡ dword s.now at }
{
    if at >= s.len() {
        0
    } else if at + 4 <= s.len() {
        dword_inside(s, at)
    } else {
        dword_cut(s, at)
    }
}

// A sum with the dword at byte `at` added to it.
fn add_dword(sum: u32, s: &[u8], at: usize) -> u32
    requires { at + 4 ≤ length s.now }
    ensures { result ≡ (sum + dword s.now at) % 2 ^ 32 }
{
    sum.wrapping_add(dword_inside(s, at))
}

// A sum with the dwords from dword `i` on added to it, one a turn.
fn add_rest(sum: u32, s: &[u8], i: usize) -> u32
    ensures { result ≡ summed s.now sum (4 * i) }
{
    let n = s.len() / 4;
    let mut total = sum;
    for next in i..n {
        total = add_dword(total, s, 4 * next);
    }
    total
}

// How many turns of sixteen dwords `length` bytes have, at most FFFFFFFFh.
fn turns_in(length: usize) -> u32
    ensures { result ≡ min (length / 64) 4294967295 }
{
    usize::min(length / 64, 4294967295) as u32
}

// The sum of the dwords of a slice, modulo 2^32. It wraps on purpose. Up to three bytes at the end that are no whole dword don't count.
//
// A turn adds sixteen dwords to four sums, every fourth to the same, so that an addition needn't wait for the one before it. Turns are
// counted in 32 bits, which IA-32 does in one step. What they leave is added one dword a turn.
pub fn sum(s: &[u8]) -> u32
    ensures { result ≡ dword_sum s.now }
{
    let turns = turns_in(s.len());
    let mut a: u32 = 0;
    let mut b: u32 = 0;
    let mut c: u32 = 0;
    let mut d: u32 = 0;
    for turn in 0..turns {
        let at = 64 * (turn as usize);
        a = add_dword(a, s, at);
        b = add_dword(b, s, at + 4);
        c = add_dword(c, s, at + 8);
        d = add_dword(d, s, at + 12);
        a = add_dword(a, s, at + 16);
        b = add_dword(b, s, at + 20);
        c = add_dword(c, s, at + 24);
        d = add_dword(d, s, at + 28);
        a = add_dword(a, s, at + 32);
        b = add_dword(b, s, at + 36);
        c = add_dword(c, s, at + 40);
        d = add_dword(d, s, at + 44);
        a = add_dword(a, s, at + 48);
        b = add_dword(b, s, at + 52);
        c = add_dword(c, s, at + 56);
        d = add_dword(d, s, at + 60);
    }
    let ab = a.wrapping_add(b);
    let cd = c.wrapping_add(d);
    add_rest(ab.wrapping_add(cd), s, 16 * (turns as usize))
}
