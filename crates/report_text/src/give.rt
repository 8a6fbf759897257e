// A text put into a lent buffer.
ghost use Rattle.std.specs.Prelude.{◌≡◌, ◌≤◌, length};
ghost use Rattle.report_text.specs.Texts.{text_room, text_of};
ghost use Rattle.report_text.specs.Given.{given, given_bytes};

use crate::{Report, ShortBuffer, Text};

#[tactic(auto, using(crate::specs::GivenLaws::giving, crate::specs::TextLaws::text_length))]
pub fn give(t: Text, out: &mut [u8]) -> Report
    requires { t.len ≤ text_room }
    ensures value { result ≡ given (text_of t) (length out.old) }
    ensures out_after { out.new ≡ given_bytes (text_of t) out.old }
{
    let n = t.len;
    if n > out.len() {
        return Err(ShortBuffer { needed: n as u32 });
    }
    bytes_copy::put(out, 0, &t.bytes, n);
    Ok(n as u32)
}
