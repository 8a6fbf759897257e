// Whether two updates share a processor, listed or not. Loops go by number: closures that capture bytes don't fit the IA-32 archive.
#![tactic(auto)]

ghost use Rattle.std.specs.Prelude.{◌≡◌, ◌<◌};
ghost use Rattle.update_coverage.specs.Covers.{pair_count, pairs_of, signature_at, platforms_at};
ghost use Rattle.laws.specs.Count.{count_below};
ghost use Rattle.update_sharing.specs.Shares.{common, pair_shares, has_signature, both_alone, headers_apart, shares};

use update_coverage::Pairs;

#[tactic(auto, using(crate::proofs::ShareLaws::common_and))]
fn common(f: u8, g: u8) -> bool
    ensures { result ≡ common f g }
{
    f & g != 0
}

#[tactic(auto, unfolding(crate::specs::Shares::pair_shares))]
fn pair_shares(x: u32, f: u8, y: u32, g: u8) -> bool
    ensures { result ≡ pair_shares x f y g }
{
    x == y && common(f, g)
}

// Does pair `j` of `b` share a processor with a pair of signature `x` and flags `f`?
pub fn shares_at(x: u32, f: u8, b: &[u8], pairs: Pairs, j: u32) -> bool
    requires { (pairs ≡ pairs_of b.now) × (j < pairs.count) }
    ensures { result ≡ pair_shares x f (signature_at b.now j) (platforms_at b.now j) }
{
    pair_shares(
        x,
        f,
        update_coverage::signature_at(b, pairs, j),
        update_coverage::platforms_at(b, pairs, j),
    )
}

// Has pair `j` of `b` signature `x`?
#[tactic(auto, unfolding(crate::specs::Shares::has_signature))]
fn has_signature(x: u32, b: &[u8], pairs: Pairs, j: u32) -> bool
    requires { (pairs ≡ pairs_of b.now) × (j < pairs.count) }
    ensures { result ≡ has_signature x b.now j }
{
    x == update_coverage::signature_at(b, pairs, j)
}

// How many pairs of `b` have signature `x`. It takes them all, which the compiler makes faster than a search that stops.
#[tactic(auto, using(laws::specs::Count::counting, update_coverage::proofs::PairLaws::count_is))]
fn alike(x: u32, b: &[u8], pairs: Pairs) -> u32
    requires { pairs ≡ pairs_of b.now }
    ensures { result ≡ count_below (pair_count b.now) (has_signature x b.now) }
{
    let mut count: u32 = 0;
    for j in 0..pairs.count {
        if has_signature(x, b, pairs, j) {
            count += 1;
        }
    }
    count
}

// Is some processor covered by both? `p` and `q` are the readings of their headers.
#[tactic(auto, using(crate::proofs::ShareLaws::meets), unfolding(crate::specs::Shares::shares))]
pub fn pairs_share(a: &[u8], p: Pairs, b: &[u8], q: Pairs) -> bool
    requires { (p ≡ pairs_of a.now) × (q ≡ pairs_of b.now) }
    ensures { result ≡ shares a.now b.now }
{
    for i in 0..p.count {
        let x = update_coverage::signature_at(a, p, i);
        let f = update_coverage::platforms_at(a, p, i);
        if alike(x, b, q) == 0 {
            continue;
        }
        for j in 0..q.count {
            if shares_at(x, f, b, q, j) {
                return true;
            }
        }
    }
    false
}

// Most updates have the header's pair alone, and of two such the readings tell whether they share: their bytes needn't be looked at. Are
// they two such?
#[tactic(auto, unfolding(crate::specs::Shares::both_alone))]
fn both_alone(p: Pairs, q: Pairs) -> bool
    ensures { result ≡ both_alone p q }
{
    p.count == 1 && q.count == 1
}

// Are they two such that don't share?
#[tactic(auto, unfolding(crate::specs::Shares::headers_apart))]
pub fn headers_apart(p: Pairs, q: Pairs) -> bool
    ensures { result ≡ headers_apart p q }
{
    both_alone(p, q) && !pair_shares(p.signature, p.platforms, q.signature, q.platforms)
}

// The same as `pairs_share`; where each has one pair the readings tell.
#[tactic(auto, using(crate::proofs::ShareLaws::one_pair))]
pub fn shares_with(a: &[u8], p: Pairs, b: &[u8], q: Pairs) -> bool
    requires { (p ≡ pairs_of a.now) × (q ≡ pairs_of b.now) }
    ensures { result ≡ shares a.now b.now }
{
    if both_alone(p, q) {
        pair_shares(p.signature, p.platforms, q.signature, q.platforms)
    } else {
        pairs_share(a, p, b, q)
    }
}

pub fn shares(a: &[u8], b: &[u8]) -> bool
    ensures { result ≡ shares a.now b.now }
{
    shares_with(
        a,
        update_coverage::pairs_of(a),
        b,
        update_coverage::pairs_of(b),
    )
}
