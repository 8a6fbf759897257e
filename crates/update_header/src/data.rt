// The data bytes of an update, as a part of its bytes.
ghost use Rattle.std.specs.Prelude.{◌≡◌};
ghost use Rattle.update_header.specs.DataPart.{data_part};

use crate::fields;
use update_sizes::HEADER;

// The data bytes, as many as there are.
#[tactic(auto, using(crate::specs::DataPartLaws::parting))]
pub fn data_part(s: &[u8]) -> &[u8]
    ensures { result.now ≡ data_part s.now }
{
    let n = fields::data_size(s) as usize;
    if s.len() < HEADER {
        return &s[..0];
    }
    let rest = s.len() - HEADER;
    if n <= rest {
        let end = HEADER + n;
        &s[HEADER..end]
    } else {
        &s[HEADER..]
    }
}
