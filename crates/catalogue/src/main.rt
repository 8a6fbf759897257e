// Reads a store from standard input and writes its catalogue.
#![tactic(auto)]

ghost use Rattle.std.specs.Prelude.{◌≡◌, ◌≤◌, IfOk, length};
ghost use Rattle.report_catalogue.specs.Catalogue.{input_room};

use report_catalogue::LARGEST_STORE;
use report_text::ROOM;
use std::io;
use std::io::{Print, Read};

// One byte more than the largest store has: more input than that makes no difference.
const INPUT_ROOM: usize = LARGEST_STORE + 1;

fn space() -> [u8; INPUT_ROOM]
    ensures { input_room ≡ length result }
{
    [0; INPUT_ROOM]
}

// Reads until the buffer is full or the input ends, however it arrives, and answers how many bytes there are. A read that fails ends it.
// The buffer is lent, so the count stands beside it.
fn read<R: Read>(input: &mut R, buffer: &mut [u8]) -> io::Result<usize>
    ensures { IfOk result (λ n. n ≤ length buffer.new) }
{
    let mut chunk = [0u8; 4096];
    let mut have: usize = 0;
    // a count of bytes: how far each turn goes is the reader's to say
    while have < buffer.len() {
        let n = input.read(&mut chunk)?;
        if n == 0 {
            return Ok(have);
        }
        have = report_input::add(buffer, have, &chunk[..n]);
    }
    Ok(have)
}

// Writes the catalogue of the bytes. A text's room is enough for each.
fn write<P: Print>(out: &P, store: &[u8]) -> io::Result<()> {
    let mut text = [0u8; ROOM];
    match report_catalogue::catalogue(store, &mut text) {
        Ok(length) => out.write_all(&text[..length as usize]),
        Err(_) => Ok(()),
    }
}

fn main(rt: HostRuntime) -> io::Result<()> {
    let mut buffer = space();
    let n = read(&mut rt.stdin(), &mut buffer)?;
    write(&rt, &buffer[..n])
}
