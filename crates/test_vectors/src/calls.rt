// The steps that make a call. Each writes a line. Each call has a function of its own with the lengths that are set, here and in `indexed` and
// `indexes`: it says that the line is its call's on the parts.
ghost use Rattle.std.specs.Prelude.{◌≡◌, ◌≤◌, ◌++◌, length, take, drop, IfOk};
ghost use Rattle.test_vectors.specs.RunState.{Within, Kept};
ghost use Rattle.test_vectors.specs.Operands.{call_operands, load_operands};
ghost use Rattle.test_vectors.specs.CallLine.{buffers, parts, store_after, destination_after, call_line, load_line};

use crate::buffers::Memory;
use crate::lines::Line;
use crate::state::State;
use crate::{input, lines, state};
use std::io;
use std::io::{Print, Read};

// The operands of one of the four calls.
#[derive(Clone, Copy)]
pub struct CallOperands {
    pub function: u32,
    pub sub_function: u32,
    pub task: u32,
    pub block: u32,
    pub read_back: u32,
    pub loading: bool,
}

// The operands of a load choice.
#[derive(Clone, Copy)]
pub struct LoadOperands {
    pub signature: u32,
    pub platform: u32,
    pub loading: bool,
}

// None where the loading state is no such.
#[tactic(auto, unfolding(crate::specs::Operands::call_operands))]
fn call_operands(b: &[u8; 21]) -> Option<CallOperands>
    ensures { result ≡ call_operands b.now }
{
    (b[20] < 2).then_some(CallOperands {
        function: bytes_dwords::dword(b, 0),
        sub_function: bytes_dwords::dword(b, 4),
        task: bytes_dwords::dword(b, 8),
        block: bytes_dwords::dword(b, 12),
        read_back: bytes_dwords::dword(b, 16),
        loading: b[20] == 1,
    })
}

#[tactic(auto, unfolding(crate::specs::Operands::load_operands))]
pub fn load_operands(b: &[u8; 9]) -> Option<LoadOperands>
    ensures { result ≡ load_operands b.now }
{
    (b[8] < 2).then_some(LoadOperands {
        signature: bytes_dwords::dword(b, 0),
        platform: bytes_dwords::dword(b, 4),
        loading: b[8] == 1,
    })
}

// A call, and the line that tells of it.
#[tactic(auto, unfolding(crate::specs::CallLine::reply_to, crate::specs::CallLine::store_after, crate::specs::CallLine::destination_after, crate::specs::CallLine::call_line))]
fn call_line(
    c: CallOperands,
    store: &mut [u8],
    signatures: &[u32],
    platforms: &[u8],
    candidate: &[u8],
    destination: &mut [u8],
) -> Line
    ensures tells { result ≡ call_line c
        (buffers store.old signatures.now platforms.now
        candidate.now destination.old) }
    ensures stores { store.new ≡ store_after c
        (buffers store.old signatures.now platforms.now
        candidate.now destination.old) }
    ensures copies { destination.new ≡ destination_after c
        (buffers store.old signatures.now platforms.now
        candidate.now destination.old) }
{
    let mut answer = [0xA5A5A5A5u32; 16];
    let result = board::update_store_call(
        c.function,
        c.sub_function,
        c.task,
        c.block,
        c.loading,
        store,
        signatures,
        platforms,
        candidate,
        c.read_back,
        destination,
        &mut answer,
    );
    Line::of(result, answer, store, destination)
}

// A load choice, and the line that tells of it.
#[tactic(auto, unfolding(crate::specs::CallLine::load_line))]
fn load_line(l: LoadOperands, store: &[u8], destination: &[u8]) -> Line
    ensures { result ≡ load_line l store.now destination.now }
{
    let mut answer = [0xA5A5A5A5u32; 16];
    let result = board::update_store_load(l.loading, store, l.signature, l.platform, &mut answer);
    Line::of(result, answer, store, destination)
}

// The call with buffers and lists of the lengths that are set.
fn call_with(
    s: State,
    c: CallOperands,
    store: &mut [u8],
    signatures: &[u32],
    platforms: &[u8],
    candidate: &[u8],
    destination: &mut [u8],
) -> Line
    requires { (s.store ≤ length store.old) × (s.candidate ≤ length candidate.now) × (s.destination ≤ length destination.old)
        × (s.signatures ≤ length signatures.now) × (s.platforms ≤ length platforms.now) }
    ensures tells { result ≡ call_line c (parts s
        (buffers store.old signatures.now platforms.now
        candidate.now destination.old)) }
    ensures stores { store.new ≡ store_after c (parts s
        (buffers store.old signatures.now platforms.now
        candidate.now destination.old))
        ++ drop s.store store.old }
    ensures copies { destination.new ≡ destination_after c (parts s
        (buffers store.old signatures.now platforms.now
        candidate.now destination.old))
        ++ drop s.destination destination.old }
{
    let i = s.store;
    let j = s.signatures;
    let k = s.platforms;
    let m = s.candidate;
    let n = s.destination;
    call_line(
        c,
        &mut store[..i],
        &signatures[..j],
        &platforms[..k],
        &candidate[..m],
        &mut destination[..n],
    )
}

// The load choice with buffers of the lengths that are set.
fn load_with(s: State, l: LoadOperands, store: &[u8], destination: &[u8]) -> Line
    requires { (s.store ≤ length store.now) × (s.destination ≤ length destination.now) }
    ensures { result ≡ load_line l (take s.store store.now) (take s.destination destination.now) }
{
    let i = s.store;
    let n = s.destination;
    load_line(l, &store[..i], &destination[..n])
}

pub fn call<P: Print, R: Read>(
    out: &P,
    reader: &mut R,
    s: State,
    memory: &mut Memory,
) -> io::Result<Option<State>>
    requires { Within s }
    ensures within { IfOk result Kept }
    ensures keeps { (memory.new.candidate ≡ memory.old.candidate) × (memory.new.signatures ≡ memory.old.signatures)
        × (memory.new.platforms ≡ memory.old.platforms) × (memory.new.index ≡ memory.old.index) }
{
    let Some(b) = input::read_array::<21, R>(reader)? else {
        return Ok(None);
    };
    let Some(c) = call_operands(&b) else {
        return Ok(None);
    };
    let line = call_with(
        s,
        c,
        &mut memory.store,
        &memory.signatures,
        &memory.platforms,
        &memory.candidate,
        &mut memory.destination,
    );
    lines::write(out, line)?;
    Ok(Some(state::called(s)))
}

pub fn load<P: Print, R: Read>(
    out: &P,
    reader: &mut R,
    s: State,
    memory: &Memory,
) -> io::Result<Option<State>>
    requires { Within s }
    ensures { IfOk result Kept }
{
    let Some(b) = input::read_array::<9, R>(reader)? else {
        return Ok(None);
    };
    let Some(l) = load_operands(&b) else {
        return Ok(None);
    };
    lines::write(out, load_with(s, l, &memory.store, &memory.destination))?;
    Ok(Some(state::called(s)))
}
