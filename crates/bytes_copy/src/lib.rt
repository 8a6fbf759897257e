// Bytes put at a place of a slice, and a part of a slice filled with FFh.
#![tactic(auto)]

ghost use Rattle.std.specs.Prelude.{◌≡◌, ◌+◌, ◌≤◌, length};
ghost use Rattle.bytes_copy.specs.Paste.{put_at, fill_at};

// The `count` bytes from `from` on become FFh. The library's `fill` goes over references, which the IA-32 archive can't hold in an Option.
#[tactic(auto, using(crate::specs::Paste::pasting))]
pub fn fill(dst: &mut [u8], from: usize, count: usize)
    requires { from + count ≤ length dst.old }
    ensures { dst.new ≡ fill_at dst.old from count }
{
    for i in 0..count {
        dst[from + i] = 255;
    }
}

// The most bytes that are put at once.
pub const MOST_BYTES: usize = 32768;

// The first `n` bytes of `src` are put at `at`. They go by way of a local array: for all that the compiler knows two slices might overlap,
// a local can't, and so it makes one move of the two loops and leaves the local out. The library's `copy_from_slice` stays a loop over bytes,
// and goes over references, which the IA-32 archive can't hold in an Option.
#[tactic(auto, using(crate::specs::Paste::pasting))]
pub fn put(dst: &mut [u8], at: usize, src: &[u8], n: usize)
    requires { (at + n ≤ length dst.old) × (n ≤ length src.now) × (n ≤ 32768) }
    ensures { dst.new ≡ put_at dst.old at src.now n }
{
    let mut part = [0u8; MOST_BYTES];
    for i in 0..n {
        part[i] = src[i];
    }
    for j in 0..n {
        dst[at + j] = part[j];
    }
}
