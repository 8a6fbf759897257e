// The kind of a block, by the directory.
ghost use Rattle.std.specs.Prelude.{◌≡◌, ◌≤◌};
ghost use Rattle.laws.specs.Span.{spans};
ghost use Rattle.store_directory.specs.Kind.{kind_if, kind_in};

use crate::Directory;

#[derive(Clone, Copy)]
pub enum Kind {
    // in no update
    Unused,
    // the first block of an update of so many blocks
    First { blocks: u32 },
    // a later block of an update
    Later,
}

// Is block `b` one of the `size` blocks from `start` on? The end doesn't wrap.
#[tactic(auto, unfolding(laws::specs::Span::spans))]
pub fn owns(start: u32, size: u32, b: u32) -> bool
    ensures { result ≡ spans start size b }
{
    start <= b && (b as usize) < start as usize + size as usize
}

#[tactic(auto, unfolding(crate::specs::Kind::kind_if))]
fn kind_if(start: u32, size: u32, b: u32) -> Kind
    ensures { result ≡ kind_if start size b }
{
    if start == b {
        Kind::First { blocks: size }
    } else {
        Kind::Later
    }
}

// The kind of block `b` of the store whose directory `d` is.
#[tactic(auto, using(crate::specs::KindScan::finding))]
pub fn block_kind(d: Directory, b: u32) -> Kind
    requires { d.count ≤ 32 }
    ensures { result ≡ kind_in d b }
{
    for i in 0..d.count {
        let start = u32::from(d.starts[i]);
        let size = u32::from(d.sizes[i]);
        if owns(start, size, b) {
            return kind_if(start, size, b);
        }
    }
    Kind::Unused
}
