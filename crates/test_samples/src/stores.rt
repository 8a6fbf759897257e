// Stores made in a buffer.
ghost use Rattle.std.specs.Prelude.{◌≡◌};
ghost use Rattle.test_samples.specs.Stores.{four_blocks, eight_blocks};

use crate::{bytes, make};

// Four blocks of FFh, with P in block 1.
#[tactic(auto, unfolding(crate::specs::Stores::four_blocks))]
pub fn four_blocks(buf: &mut [u8])
    ensures { buf.new ≡ four_blocks buf.old }
{
    let mut update = [0u8; 2048];
    make::p(&mut update, 7, 0xF8E7E009);
    bytes::fill(buf, 0, 8192, 255);
    bytes::put(buf, 2048, &update, 2048);
}

// Eight blocks of FFh, with P in block 1 and an update of two blocks, 3,072 bytes, in blocks 3 and 4.
#[tactic(auto, unfolding(crate::specs::Stores::eight_blocks))]
pub fn eight_blocks(buf: &mut [u8])
    ensures { buf.new ≡ eight_blocks buf.old }
{
    let mut update = [0u8; 3072];
    make::plain(&mut update, 7, 0x683, 0x81, 3024, 3072);
    bytes::fill(buf, 0, 16384, 255);
    four_blocks(buf);
    bytes::put(buf, 6144, &update, 3072);
}
