// Whether two stored updates cover a common processor.
ghost use Rattle.std.specs.Prelude.{◌≡◌, ◌≤◌};
ghost use Rattle.store_directory.specs.Scan.{clash};
ghost use Rattle.store_directory.specs.DirectoryEntries.{HavePairs};

use crate::Directory;
use store_blocks::MOST_BLOCKS;
use update_coverage::Pairs;

// Do two of the updates that `d` lists cover a common processor? The header of each is read once.
#[tactic(auto, using(crate::proofs::ClashLaws::clash_few))]
pub fn clash(s: &[u8], d: &Directory) -> bool
    requires { (d.now.count ≤ 32) × HavePairs s.now d.now.starts d.now.count }
    ensures { result ≡ clash s.now d.now.starts d.now.count }
{
    if d.count < 2 {
        return false;
    }
    let none = Pairs {
        data: 0,
        count: 0,
        signature: 0,
        platforms: 0,
    };
    let mut pairs = [none; MOST_BLOCKS];
    for i in 0..d.count {
        let a = store_blocks::from_start(s, d.starts[i]);
        let p = update_coverage::judged_pairs(a);
        pairs[i] = p;
        for j in 0..i {
            let q = pairs[j];
            if update_sharing::headers_apart(p, q) {
                continue;
            }
            let b = store_blocks::from_start(s, d.starts[j]);
            if update_sharing::pairs_share(a, p, b, q) {
                return true;
            }
        }
    }
    false
}
