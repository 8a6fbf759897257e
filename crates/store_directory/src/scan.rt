// The reading of a store from block 0.
ghost use Rattle.std.specs.Prelude.{◌≡◌, ◌≤◌};
ghost use Rattle.store_directory.specs.Scan.{scanned};

use crate::Directory;
use store_blocks::slot::Slot;
use store_blocks::{MOST_BLOCKS, slot};

// Reads the first `n` blocks: the reading goes on behind each update, and ends at a block where nothing may stand.
pub fn scan(s: &[u8], n: usize) -> Option<Directory>
    requires { n ≤ 32 }
    ensures { result ≡ scanned s.now n }
{
    let mut starts = [0u8; MOST_BLOCKS];
    let mut sizes = [0u8; MOST_BLOCKS];
    let mut count: usize = 0;
    let mut next: usize = 0;
    for b in 0..n {
        if next <= b {
            match slot::read_slot(store_blocks::from_block(s, b as u32)) {
                Slot::Unused => {
                    next = b + 1;
                }
                Slot::Update { blocks } => {
                    starts[count] = b as u8;
                    sizes[count] = blocks as u8;
                    count += 1;
                    next = b + blocks as usize;
                }
                Slot::Bad => {
                    return None;
                }
            }
        }
    }
    Some(Directory {
        count,
        starts,
        sizes,
    })
}
