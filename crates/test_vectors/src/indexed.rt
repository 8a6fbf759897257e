// The steps that make a call through the index. Each writes a line.
ghost use Rattle.std.specs.Prelude.{◌≡◌, ◌≤◌, ◌++◌, length, take, drop, IfOk};
ghost use Rattle.test_vectors.specs.RunState.{Within, Kept};
ghost use Rattle.test_vectors.specs.Operands.{read_operands};
ghost use Rattle.test_vectors.specs.IndexedLine.{read_destination, read_line, load_indexed_line};

use crate::buffers::{Index, Memory};
use crate::calls::LoadOperands;
use crate::lines::Line;
use crate::state::State;
use crate::{calls, input, lines, state};
use std::io;
use std::io::{Print, Read};

// The operands of a read through the index.
#[derive(Clone, Copy)]
pub struct ReadOperands {
    pub block: u32,
}

#[tactic(auto, unfolding(crate::specs::Operands::read_operands))]
fn read_operands(b: &[u8; 4]) -> ReadOperands
    ensures { result ≡ read_operands b.now }
{
    ReadOperands {
        block: bytes_dwords::dword(b, 0),
    }
}

// A read, and the line that tells of it.
#[tactic(auto, unfolding(crate::specs::IndexedLine::read_answer, crate::specs::IndexedLine::read_destination, crate::specs::IndexedLine::read_line))]
fn read_line(c: ReadOperands, index: &Index, store: &[u8], destination: &mut [u8]) -> Line
    ensures tells { result ≡ read_line c index.now store.now destination.old }
    ensures copies { destination.new ≡
        read_destination c index.now store.now destination.old }
{
    let mut answer = [0xA5A5A5A5u32; 16];
    let result = board::update_store_read_indexed(index, c.block, store, destination, &mut answer);
    Line::of(result, answer, store, destination)
}

// A load choice, and the line that tells of it.
#[tactic(auto, unfolding(crate::specs::IndexedLine::choice_by, crate::specs::IndexedLine::load_indexed_line))]
fn load_line(l: LoadOperands, index: &Index, store: &[u8], destination: &[u8]) -> Line
    ensures { result ≡ load_indexed_line l index.now store.now destination.now }
{
    let mut answer = [0xA5A5A5A5u32; 16];
    let result = board::update_store_load_indexed(
        l.loading,
        index,
        store,
        l.signature,
        l.platform,
        &mut answer,
    );
    Line::of(result, answer, store, destination)
}

// The read with buffers of the lengths that are set.
fn read_with(s: State, c: ReadOperands, index: &Index, store: &[u8], destination: &mut [u8]) -> Line
    requires { (s.store ≤ length store.now) × (s.destination ≤ length destination.old) }
    ensures tells { result ≡ read_line c index.now
        (take s.store store.now) (take s.destination destination.old) }
    ensures copies { destination.new ≡ read_destination c index.now
        (take s.store store.now) (take s.destination destination.old)
        ++ drop s.destination destination.old }
{
    let i = s.store;
    let n = s.destination;
    read_line(c, index, &store[..i], &mut destination[..n])
}

// The load choice with buffers of the lengths that are set.
fn load_with(s: State, l: LoadOperands, index: &Index, store: &[u8], destination: &[u8]) -> Line
    requires { (s.store ≤ length store.now) × (s.destination ≤ length destination.now) }
    ensures { result ≡ load_indexed_line l index.now
        (take s.store store.now) (take s.destination destination.now) }
{
    let i = s.store;
    let n = s.destination;
    load_line(l, index, &store[..i], &destination[..n])
}

pub fn read<P: Print, R: Read>(
    out: &P,
    reader: &mut R,
    s: State,
    memory: &mut Memory,
) -> io::Result<Option<State>>
    requires { Within s }
    ensures within { IfOk result Kept }
    ensures keeps { (memory.new.store ≡ memory.old.store) × (memory.new.candidate ≡ memory.old.candidate)
        × (memory.new.signatures ≡ memory.old.signatures) × (memory.new.platforms ≡ memory.old.platforms)
        × (memory.new.index ≡ memory.old.index) }
{
    let Some(b) = input::read_array::<4, R>(reader)? else {
        return Ok(None);
    };
    let line = read_with(
        s,
        read_operands(&b),
        &memory.index,
        &memory.store,
        &mut memory.destination,
    );
    lines::write(out, line)?;
    Ok(Some(state::called(s)))
}

pub fn load<P: Print, R: Read>(
    out: &P,
    reader: &mut R,
    s: State,
    memory: &Memory,
) -> io::Result<Option<State>>
    requires { Within s }
    ensures { IfOk result Kept }
{
    let Some(b) = input::read_array::<9, R>(reader)? else {
        return Ok(None);
    };
    let Some(l) = calls::load_operands(&b) else {
        return Ok(None);
    };
    let line = load_with(s, l, &memory.index, &memory.store, &memory.destination);
    lines::write(out, line)?;
    Ok(Some(state::called(s)))
}
