// The steps that set bytes of a buffer.
ghost use Rattle.std.specs.Prelude.{◌≡◌, IfOk};
ghost use Rattle.test_vectors.specs.RunState.{judged, Within, Kept};
ghost use Rattle.test_vectors.specs.Operands.{fill_edit, put_edit};
ghost use Rattle.test_vectors.specs.Edits.{fits, edited, edited_by, edit_good};

use crate::buffers::{Candidate, Destination, Memory, Store};
use crate::state::State;
use crate::{input, state};
use std::io;
use std::io::Read;

// The most bytes that may follow a step.
const FOLLOWING: usize = 1024;

type Following = [u8; FOLLOWING];

// Bytes to be set: all to one byte, or where there is none, to those that follow in the input.
#[derive(Clone, Copy)]
pub struct Edit {
    pub buffer: u8,
    pub offset: u32,
    pub count: u32,
    pub byte: Option<u8>,
}

// The edit of opcode 2, of its ten bytes.
#[tactic(auto, unfolding(crate::specs::Operands::fill_edit))]
fn fill_edit(b: &[u8; 10]) -> Edit
    ensures { result ≡ fill_edit b.now }
{
    Edit {
        buffer: b[0],
        offset: bytes_dwords::dword(b, 1),
        count: bytes_dwords::dword(b, 5),
        byte: Some(b[9]),
    }
}

// The edit of opcode 3, of its seven bytes. The count has two bytes, behind which the operands end.
#[tactic(auto, unfolding(crate::specs::Operands::put_edit))]
fn put_edit(b: &[u8; 7]) -> Edit
    ensures { result ≡ put_edit b.now }
{
    Edit {
        buffer: b[0],
        offset: bytes_dwords::dword(b, 1),
        count: bytes_dwords::dword(b, 5),
        byte: None,
    }
}

// Reads the edit of opcode 3, and the bytes that follow; none where they are too many, or the input ends before.
fn read_put<R: Read>(reader: &mut R, bytes: &mut Following) -> io::Result<Option<Edit>> {
    let Some(b) = input::read_array::<7, R>(reader)? else {
        return Ok(None);
    };
    let e = put_edit(&b);
    let all = input::read_part(reader, bytes, 0, e.count)?;
    Ok(all.then_some(e))
}

// Sets a part of a buffer: false where the buffer has no such part.
#[tactic(auto, unfolding(crate::specs::Edits::fits, crate::specs::Edits::edited, crate::specs::Edits::source))]
fn set(buf: &mut [u8], e: Edit, bytes: &Following) -> bool
    ensures answers { result ≡ fits e buf.old }
    ensures sets { buf.new ≡ edited e bytes.now buf.old }
{
    let at = e.offset as usize;
    let n = e.count as usize;
    if at + n > buf.len() {
        return false;
    }
    match e.byte {
        Some(byte) => {
            buf[at..at + n].fill(byte);
            true
        }
        None => {
            if n > FOLLOWING {
                return false;
            }
            bytes_copy::put(buf, at, bytes, n);
            true
        }
    }
}

// Sets a part of the buffer that the edit names.
// Buffers are numbers as the input has them: each is matched once, here and in `lengths`, where it is used.
#[tactic(auto, unfolding(crate::specs::Edits::edit_good, crate::specs::Edits::edited_by, crate::specs::Edits::sets))]
fn make(
    s: State,
    e: Edit,
    bytes: &Following,
    store: &mut Store,
    candidate: &mut Candidate,
    destination: &mut Destination,
) -> Option<State>
    ensures judges { result ≡ judged s (edit_good e store.old candidate.old destination.old) }
    ensures store { store.new ≡ edited_by e 0 bytes.now store.old }
    ensures candidate { candidate.new ≡ edited_by e 1 bytes.now candidate.old }
    ensures destination { destination.new ≡ edited_by e 2 bytes.now destination.old }
{
    match e.buffer {
        0 => state::judged(s, set(store, e, bytes)),
        1 => state::judged(s, set(candidate, e, bytes)),
        2 => state::judged(s, set(destination, e, bytes)),
        _ => None,
    }
}

// The step of opcode 2. No bytes follow it.
#[tactic(auto, using(crate::specs::RunStateLaws::kept_within))]
pub(crate) fn fill_step<R: Read>(
    reader: &mut R,
    s: State,
    memory: &mut Memory,
) -> io::Result<Option<State>>
    requires { Within s }
    ensures within { IfOk result Kept }
    ensures keeps { (memory.new.signatures ≡ memory.old.signatures) × (memory.new.platforms ≡ memory.old.platforms)
        × (memory.new.index ≡ memory.old.index) }
{
    let bytes = [0u8; FOLLOWING];
    let Some(b) = input::read_array::<10, R>(reader)? else {
        return Ok(None);
    };
    Ok(make(
        s,
        fill_edit(&b),
        &bytes,
        &mut memory.store,
        &mut memory.candidate,
        &mut memory.destination,
    ))
}

// The step of opcode 3.
#[tactic(auto, using(crate::specs::RunStateLaws::kept_within))]
pub(crate) fn put_step<R: Read>(
    reader: &mut R,
    s: State,
    memory: &mut Memory,
) -> io::Result<Option<State>>
    requires { Within s }
    ensures within { IfOk result Kept }
    ensures keeps { (memory.new.signatures ≡ memory.old.signatures) × (memory.new.platforms ≡ memory.old.platforms)
        × (memory.new.index ≡ memory.old.index) }
{
    let mut bytes = [0u8; FOLLOWING];
    let Some(e) = read_put(reader, &mut bytes)? else {
        return Ok(None);
    };
    Ok(make(
        s,
        e,
        &bytes,
        &mut memory.store,
        &mut memory.candidate,
        &mut memory.destination,
    ))
}
