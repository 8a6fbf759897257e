// Input that arrives in pieces, gathered in a lent buffer.
#![tactic(auto)]

ghost use Rattle.std.specs.Prelude.{◌≡◌};
ghost use Rattle.report_input.specs.Input.{fitting, count_with, bytes_with};

// How many of the `n` bytes of a piece a buffer of `size` bytes takes that holds `have`.
#[tactic(auto, unfolding(crate::specs::Input::fitting))]
fn fitting(size: usize, have: usize, n: usize) -> usize
    ensures { result ≡ fitting size have n }
{
    n.min(size.saturating_sub(have))
}

// Puts a piece behind the `have` bytes that the buffer holds, as far as there is room, and answers how many it holds now.
// The buffer is lent, so the count stands beside it.
#[tactic(auto, unfolding(crate::specs::Input::fitting))]
pub fn add(buffer: &mut [u8], have: usize, piece: &[u8]) -> usize
    ensures value { result ≡ count_with buffer.old have piece.now }
    ensures buffer_after { buffer.new ≡ bytes_with buffer.old have piece.now }
{
    let n = fitting(buffer.len(), have, piece.len());
    if n > 0 {
        buffer[have..have + n].copy_from_slice(&piece[..n]);
    }
    have + n
}
