// The steps, one by one. A step is an opcode and its operands, all numbers little-endian:
//   1  a length           buffer u8, length u32
//   2  equal bytes        buffer u8, offset u32, count u32, byte u8
//   3  bytes              buffer u8, offset u32, count u16, then as many bytes, at most 1,024
//   4  the processors     m u8, m signatures u32, n u8, n platforms u8
//   5  a call             function u32, sub-function u32, task u32, block u32, read-back u32, loading u8
//   6  a load choice      signature u32, platform u32, loading u8
//   7  an index           no operands
//   8  a carried index    emptied u32, start u32, revision u32, size u32
//   9  a number of it     place u8, number u32
//  10  a read through it  block u32
//  11  a load choice      signature u32, platform u32, loading u8; through the index
// Buffer 0 is the store, 1 the candidate, 2 the destination. They begin as zeros of length 0, and the index as 128 zeros.
ghost use Rattle.std.specs.Prelude.{IfOk};
ghost use Rattle.test_vectors.specs.RunState.{Within, Kept};

use crate::buffers::Memory;
use crate::state::State;
use crate::{calls, edits, indexed, indexes, input, lengths, lists, state};
use std::io;
use std::io::{Print, Read};

// The step with an opcode. There is no state after one that breaks a bound.
// Each step takes other parameters, so closures for the opcodes would be no plainer.
fn step<P: Print, R: Read>(
    out: &P,
    reader: &mut R,
    op: u8,
    s: State,
    memory: &mut Memory,
) -> io::Result<Option<State>>
    requires { Within s }
    ensures { IfOk result Kept }
{
    match op {
        1 => lengths::length(reader, s),
        2 => edits::fill_step(reader, s, memory),
        3 => edits::put_step(reader, s, memory),
        4 => lists::list(reader, s, memory),
        5 => calls::call(out, reader, s, memory),
        6 => calls::load(out, reader, s, memory),
        7 => indexes::make(out, s, memory),
        8 => indexes::after(out, reader, s, memory),
        9 => indexes::put(reader, s, memory),
        10 => indexed::read(out, reader, s, memory),
        11 => indexed::load(out, reader, s, memory),
        _ => Ok(None),
    }
}

// All steps up to the end of the input, or to the first that breaks a bound. A million steps are the most.
pub fn run<P: Print, R: Read>(
    out: &P,
    reader: &mut R,
    memory: &mut Memory,
) -> io::Result<Option<State>> {
    let mut s = state::begun();
    for _ in 0..1000000 {
        let Some(op) = input::read_byte(reader)? else {
            return Ok(Some(s));
        };
        let Some(next) = step(out, reader, op, s, memory)? else {
            return Ok(None);
        };
        s = next;
    }
    Ok(state::judged(s, input::read_byte(reader)?.is_none()))
}
