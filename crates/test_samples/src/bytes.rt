// Bytes set in a buffer, and parts of it.
ghost use Rattle.std.specs.Prelude.{◌≡◌, take, drop};
ghost use Rattle.test_samples.specs.SampleBytes.{put, put_dword, fill};

// Puts the first `n` bytes of `src` at `at`, where both are long enough and n is at most 32,768.
#[tactic(auto, using(crate::specs::SampleBytes::putting))]
pub fn put(buf: &mut [u8], at: usize, src: &[u8], n: u32)
    ensures { buf.new ≡ put buf.old at src.now n }
{
    let count = n as usize;
    if count <= 32768 && count <= src.len() && at <= buf.len() && at + count <= buf.len() {
        bytes_copy::put(buf, at, src, count);
    }
}

// Writes one dword.
#[tactic(auto, using(crate::specs::SampleBytes::little_endian))]
pub fn dword(buf: &mut [u8], at: usize, x: u32)
    ensures { buf.new ≡ put_dword buf.old at x }
{
    put(buf, at, &x.to_le_bytes(), 4);
}

// Fills `n` bytes from `from` on with one byte.
#[tactic(auto, unfolding(crate::specs::SampleBytes::fill))]
pub fn fill(buf: &mut [u8], from: usize, n: u32, byte: u8)
    ensures { buf.new ≡ fill buf.old from n byte }
{
    put(buf, from, &[byte; 32768], n);
}

// The first `n` bytes, or all where there are fewer.
pub fn first(s: &[u8], n: usize) -> &[u8]
    ensures { result.now ≡ take n s.now }
{
    &s[..n.min(s.len())]
}

// The bytes behind the first `n`.
pub fn behind(s: &[u8], n: usize) -> &[u8]
    ensures { result.now ≡ drop n s.now }
{
    &s[n.min(s.len())..]
}
