// The steps that set the index: it is made from the store, carried over a write, or put number by number.
ghost use Rattle.std.specs.Prelude.{◌≡◌, ◌<◌, ◌≤◌, length, take, IfOk};
ghost use Rattle.test_vectors.specs.RunState.{Within, Kept};
ghost use Rattle.test_vectors.specs.Operands.{after_operands, put_operands};
ghost use Rattle.test_vectors.specs.IndexLine.{made_index, carried_index, with_word, make_line, after_line};

use crate::buffers::{Index, Memory};
use crate::lines::{IndexLine, Line};
use crate::state::State;
use crate::{digest, input, lines, state};
use std::io;
use std::io::{Print, Read};
use store_blocks::MOST_BLOCKS;

// The operands of an index carried over a write.
#[derive(Clone, Copy)]
pub struct AfterOperands {
    pub emptied: u32,
    pub start: u32,
    pub revision: u32,
    pub size: u32,
}

// The operands of a number of the index.
#[derive(Clone, Copy)]
pub struct PutOperands {
    pub place: u8,
    pub number: u32,
}

#[tactic(auto, unfolding(crate::specs::Operands::after_operands))]
fn after_operands(b: &[u8; 16]) -> AfterOperands
    ensures { result ≡ after_operands b.now }
{
    AfterOperands {
        emptied: bytes_dwords::dword(b, 0),
        start: bytes_dwords::dword(b, 4),
        revision: bytes_dwords::dword(b, 8),
        size: bytes_dwords::dword(b, 12),
    }
}

// None where the index has no such place.
#[tactic(auto, unfolding(crate::specs::Operands::put_operands))]
fn put_operands(b: &[u8; 5]) -> Option<PutOperands>
    ensures { result ≡ put_operands b.now }
{
    (b[0] < 128).then_some(PutOperands {
        place: b[0],
        number: bytes_dwords::dword(b, 1),
    })
}

// The index of the store, and the line that tells of it.
#[tactic(auto, unfolding(crate::specs::IndexLine::made_index, crate::specs::IndexLine::make_line))]
fn make_line(store: &[u8], destination: &[u8], index: &mut Index) -> IndexLine
    ensures tells { result ≡ make_line store.now destination.now }
    ensures makes { index.new ≡ made_index store.now }
{
    let mut answer = [0xA5A5A5A5u32; 16];
    let result = board::update_store_index(store, index, &mut answer);
    IndexLine {
        line: Line::of(result, answer, store, destination),
        index: digest::numbers(index),
    }
}

// The index after a write, from the old one, and the line that tells of it.
#[tactic(auto, unfolding(crate::specs::IndexLine::carried_index, crate::specs::IndexLine::after_line))]
fn after_line(
    c: AfterOperands,
    store: &[u8],
    destination: &[u8],
    old: &Index,
    new_index: &mut Index,
) -> IndexLine
    ensures tells { result ≡ after_line c old.now store.now destination.now }
    ensures makes { new_index.new ≡ carried_index c old.now }
{
    let mut answer = [0xA5A5A5A5u32; 16];
    let result = board::update_store_index_after(
        old,
        c.emptied,
        c.start,
        c.revision,
        c.size,
        new_index,
        &mut answer,
    );
    IndexLine {
        line: Line::of(result, answer, store, destination),
        index: digest::numbers(new_index),
    }
}

// The index of a store of the length that is set.
fn make_with(s: State, store: &[u8], destination: &[u8], index: &mut Index) -> IndexLine
    requires { (s.store ≤ length store.now) × (s.destination ≤ length destination.now) }
    ensures tells { result ≡ make_line (take s.store store.now) (take s.destination destination.now) }
    ensures makes { index.new ≡ made_index (take s.store store.now) }
{
    let i = s.store;
    let n = s.destination;
    make_line(&store[..i], &destination[..n], index)
}

// The carried index in the place of the old one.
fn after_with(
    s: State,
    c: AfterOperands,
    store: &[u8],
    destination: &[u8],
    index: &mut Index,
) -> IndexLine
    requires { (s.store ≤ length store.now) × (s.destination ≤ length destination.now) }
    ensures tells { result ≡ after_line c index.old
        (take s.store store.now) (take s.destination destination.now) }
    ensures makes { index.new ≡ carried_index c index.old }
{
    let i = s.store;
    let n = s.destination;
    let old = *index;
    after_line(c, &store[..i], &destination[..n], &old, index)
}

// Sets one number.
fn set_number(index: &mut Index, p: PutOperands)
    requires { p.place < 128 }
    ensures { index.new ≡ with_word index.old p.place p.number }
{
    let place = p.place as usize;
    index[place / MOST_BLOCKS][place % MOST_BLOCKS] = p.number;
}

pub fn make<P: Print>(out: &P, s: State, memory: &mut Memory) -> io::Result<Option<State>>
    requires { Within s }
    ensures within { IfOk result Kept }
    ensures keeps { (memory.new.store ≡ memory.old.store) × (memory.new.candidate ≡ memory.old.candidate)
        × (memory.new.destination ≡ memory.old.destination) × (memory.new.signatures ≡ memory.old.signatures)
        × (memory.new.platforms ≡ memory.old.platforms) }
{
    let line = make_with(s, &memory.store, &memory.destination, &mut memory.index);
    lines::write_index(out, line)?;
    Ok(Some(state::called(s)))
}

pub fn after<P: Print, R: Read>(
    out: &P,
    reader: &mut R,
    s: State,
    memory: &mut Memory,
) -> io::Result<Option<State>>
    requires { Within s }
    ensures within { IfOk result Kept }
    ensures keeps { (memory.new.store ≡ memory.old.store) × (memory.new.candidate ≡ memory.old.candidate)
        × (memory.new.destination ≡ memory.old.destination) × (memory.new.signatures ≡ memory.old.signatures)
        × (memory.new.platforms ≡ memory.old.platforms) }
{
    let Some(b) = input::read_array::<16, R>(reader)? else {
        return Ok(None);
    };
    let line = after_with(
        s,
        after_operands(&b),
        &memory.store,
        &memory.destination,
        &mut memory.index,
    );
    lines::write_index(out, line)?;
    Ok(Some(state::called(s)))
}

pub fn put<R: Read>(reader: &mut R, s: State, memory: &mut Memory) -> io::Result<Option<State>>
    requires { Within s }
    ensures within { IfOk result Kept }
    ensures keeps { (memory.new.store ≡ memory.old.store) × (memory.new.candidate ≡ memory.old.candidate)
        × (memory.new.destination ≡ memory.old.destination) × (memory.new.signatures ≡ memory.old.signatures)
        × (memory.new.platforms ≡ memory.old.platforms) }
{
    let Some(b) = input::read_array::<5, R>(reader)? else {
        return Ok(None);
    };
    let Some(p) = put_operands(&b) else {
        return Ok(None);
    };
    set_number(&mut memory.index, p);
    Ok(Some(s))
}
