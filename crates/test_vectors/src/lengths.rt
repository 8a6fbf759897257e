// The step that sets the length of a buffer.
ghost use Rattle.std.specs.Prelude.{◌≡◌, IfOk};
ghost use Rattle.test_vectors.specs.RunState.{with_length, Within, Kept};

use crate::buffers::{CANDIDATE, DESTINATION, STORE};
use crate::input;
use crate::state::State;
use std::io;
use std::io::Read;

// The state with another length of buffer 0, 1 or 2; none where there is no such buffer, or no room for it.
// Buffers are numbers as the input has them: each is matched once, here and in `edits`, where it is used.
#[tactic(auto, unfolding(crate::specs::RunState::with_length))]
fn with_length(s: State, buffer: u8, length: u32) -> Option<State>
    ensures { result ≡ with_length s buffer length }
{
    let n = length as usize;
    match buffer {
        0 if n <= STORE => Some(State { store: n, ..s }),
        1 if n <= CANDIDATE => Some(State { candidate: n, ..s }),
        2 if n <= DESTINATION => Some(State {
            destination: n,
            ..s
        }),
        _ => None,
    }
}

#[tactic(auto, using(crate::specs::RunStateLaws::kept_within))]
pub fn length<R: Read>(reader: &mut R, s: State) -> io::Result<Option<State>>
    requires { Within s }
    ensures { IfOk result Kept }
{
    let Some(b) = input::read_array::<5, R>(reader)? else {
        return Ok(None);
    };
    Ok(with_length(s, b[0], bytes_dwords::dword(&b, 1)))
}
