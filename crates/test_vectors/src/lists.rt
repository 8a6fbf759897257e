// The step that sets the list of processors: signatures, then platforms.
ghost use Rattle.std.specs.Prelude.{◌≡◌, IfOk};
ghost use Rattle.test_vectors.specs.Operands.{dwords};
ghost use Rattle.test_vectors.specs.RunState.{with_lengths, Within, Kept};

use crate::buffers::{LIST, Memory, Signatures};
use crate::input;
use crate::state::State;
use std::io;
use std::io::Read;

// The 16 numbers of 64 bytes.
#[tactic(auto, using(crate::specs::OperandLaws::reading))]
fn dwords(b: &[u8; 64]) -> Signatures
    ensures { result ≡ dwords b.now 16 }
{
    let mut list = [0u32; LIST];
    for i in 0..LIST {
        list[i] = bytes_dwords::dword(b, 4 * i);
    }
    list
}

// Reads the first `m` signatures: false where the list has no room for them, or where the input ends before.
fn read_signatures<R: Read>(reader: &mut R, list: &mut Signatures, m: u8) -> io::Result<bool> {
    if m > 16 {
        return Ok(false);
    }
    let mut b = [0u8; 64];
    let good = input::read_part(reader, &mut b, 0, 4 * u32::from(m))?;
    *list = dwords(&b);
    Ok(good)
}

// The state with other lengths of the lists; none where there is no room for one.
#[tactic(auto, unfolding(crate::specs::RunState::with_lengths))]
fn with_lengths(s: State, signatures: u8, platforms: u8) -> Option<State>
    ensures { result ≡ with_lengths s signatures platforms }
{
    let m = usize::from(signatures);
    let n = usize::from(platforms);
    (m <= LIST && n <= LIST).then_some(State {
        signatures: m,
        platforms: n,
        ..s
    })
}

#[tactic(auto, using(crate::specs::RunStateLaws::kept_within))]
pub fn list<R: Read>(reader: &mut R, s: State, memory: &mut Memory) -> io::Result<Option<State>>
    requires { Within s }
    ensures within { IfOk result Kept }
    ensures keeps { (memory.new.store ≡ memory.old.store) × (memory.new.candidate ≡ memory.old.candidate)
        × (memory.new.destination ≡ memory.old.destination) × (memory.new.index ≡ memory.old.index) }
{
    let Some(m) = input::read_byte(reader)? else {
        return Ok(None);
    };
    if !read_signatures(reader, &mut memory.signatures, m)? {
        return Ok(None);
    }
    let Some(n) = input::read_byte(reader)? else {
        return Ok(None);
    };
    if !input::read_part(reader, &mut memory.platforms, 0, u32::from(n))? {
        return Ok(None);
    }
    Ok(with_lengths(s, m, n))
}
