// A digest of bytes, or of the numbers of an index: 1, then for each 31 times what was, plus the number, modulo 2^32 - 5.
ghost use Rattle.std.specs.Prelude.{◌≡◌, ◌<◌};
ghost use Rattle.test_vectors.specs.Digest.{modulus, digest_step, digest, index_digest};

use crate::buffers::{INDEX, Index};
use store_blocks::MOST_BLOCKS;

const MODULUS: u64 = 4294967291;

#[tactic(auto, unfolding(crate::specs::Digest::digest_step))]
fn step(h: u64, number: u32) -> u64
    requires { h < modulus }
    ensures { (result ≡ digest_step h number) × (result < modulus) }
{
    (h * 31 + number as u64) % MODULUS
}

// Four steps with one division.
#[tactic(auto, using(crate::specs::DigestLaws::four_steps))]
fn four(h: u64, a: u8, b: u8, c: u8, d: u8) -> u64
    requires { h < modulus }
    ensures { (result ≡ digest_step (digest_step (digest_step (digest_step h a) b) c) d) × (result < modulus) }
{
    (h * 923521 + (a as u64) * 29791 + (b as u64) * 961 + (c as u64) * 31 + d as u64) % MODULUS
}

// The digest of bytes.
pub fn digest(s: &[u8]) -> u32
    ensures { result ≡ digest s.now }
{
    let n = s.len();
    let mut h: u64 = 1;
    for k in 0..n / 4 {
        let i = 4 * k;
        h = four(h, s[i], s[i + 1], s[i + 2], s[i + 3]);
    }
    for i in n / 4 * 4..n {
        h = step(h, s[i] as u32);
    }
    h as u32
}

// The digest of the numbers of an index.
#[tactic(auto, using(crate::specs::DigestLaws::indexing))]
pub fn numbers(x: &Index) -> u32
    ensures { result ≡ index_digest x.now }
{
    let mut h: u64 = 1;
    for i in 0..INDEX {
        h = step(h, x[i / MOST_BLOCKS][i % MOST_BLOCKS]);
    }
    h as u32
}
