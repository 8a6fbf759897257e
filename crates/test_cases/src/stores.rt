// Cases of a store: presence, control, reads and load choices at each edge.
ghost use Rattle.std.specs.Prelude.{◌≡◌, length};

use crate::lines;
use std::io;
use std::io::Print;
use test_samples::{bytes, make};

// The catalogue of four blocks with P in block 1, whole.
fn catalogue<P: Print>(out: &P) -> io::Result<()> {
    let buf: &mut [u8] = &mut [0u8; 65536];
    test_samples::stores::four_blocks(buf);
    lines::catalogue(out, bytes::first(buf, 8192))
}

// The catalogue of four blocks with two updates that end off the kilobyte: 2,044 bytes in block 0, 2,052 in blocks 1 and 2.
fn catalogue_off_the_kilobyte<P: Print>(out: &P) -> io::Result<()> {
    let buf: &mut [u8] = &mut [0u8; 65536];
    bytes::fill(buf, 2048, 6144, 255);
    make::tabled(buf, 0x650, 6, 1964, 1);
    bytes::fill(buf, 2044, 4, 255);
    if 2048 <= buf.len() {
        bytes::fill(buf, 2048, 2052, 0);
        make::tabled(&mut buf[2048..], 0x683, 0x81, 1972, 1);
    }
    lines::catalogue(out, bytes::first(buf, 8192))
}

// Room for one byte more than the largest store has.
fn input_space() -> [u8; 65537]
    ensures { 65537 ≡ length result }
{
    [0; 65537]
}

// The catalogue of an input of `n` bytes FFh that arrives in pieces of 777 bytes.
fn in_pieces<P: Print>(out: &P, label: &[u8], n: u32) -> io::Result<()> {
    let buffer: &mut [u8] = &mut input_space();
    let piece = [255u8; 777];
    let mut have: usize = 0;
    for _ in 0..n / 777 {
        have = report_input::add(buffer, have, &piece);
    }
    have = report_input::add(buffer, have, bytes::first(&piece, n as usize % 777));
    test_output::text(out, label)?;
    lines::catalogue(out, bytes::first(buffer, have))
}

fn inputs<P: Print>(out: &P) -> io::Result<()> {
    in_pieces(out, b"no input: ", 0)?;
    in_pieces(out, b"65,536 bytes FFh in pieces: ", 65536)?;
    in_pieces(out, b"65,537 bytes FFh in pieces: ", 65537)?;
    in_pieces(out, b"67,584 bytes FFh in pieces: ", 67584)
}

fn presence<P: Print>(out: &P, label: &[u8], n: usize) -> io::Result<()> {
    let buf: &mut [u8] = &mut [0u8; 65536];
    test_samples::stores::eight_blocks(buf);
    lines::reply(
        out,
        label,
        call_reads::presence::presence(bytes::first(buf, n)),
    )
}

// Presence of the eight blocks with one byte changed.
fn damaged<P: Print>(out: &P, label: &[u8], at: usize, byte: u8) -> io::Result<()> {
    let buf: &mut [u8] = &mut [0u8; 65536];
    test_samples::stores::eight_blocks(buf);
    bytes::fill(buf, at, 1, byte);
    lines::reply(
        out,
        label,
        call_reads::presence::presence(bytes::first(buf, 16384)),
    )
}

// Presence of four blocks with P in block 1 and a second P in block 3.
fn two_of_p<P: Print>(out: &P, label: &[u8]) -> io::Result<()> {
    let buf: &mut [u8] = &mut [0u8; 65536];
    test_samples::stores::four_blocks(buf);
    bytes::fill(buf, 6144, 2048, 0);
    if 6144 <= buf.len() {
        make::p(&mut buf[6144..], 8, 0xF8E7E008);
    }
    lines::reply(
        out,
        label,
        call_reads::presence::presence(bytes::first(buf, 8192)),
    )
}

fn presences<P: Print>(out: &P) -> io::Result<()> {
    presence(out, b"presence of eight blocks", 16384)?;
    presence(out, b"presence of one block", 2048)?;
    presence(out, b"presence of no bytes", 0)?;
    presence(out, b"presence of a block and a byte", 2049)?;
    presence(out, b"presence of an update cut off by the end", 8192)?;
    damaged(out, b"an unused block with one byte 0", 2047, 0)?;
    damaged(out, b"the rest of a last block with one byte 0", 10239, 0)?;
    damaged(out, b"a byte of P changed", 3000, 1)?;
    damaged(out, b"the last byte changed", 16383, 0xFE)?;
    two_of_p(out, b"two updates that share a processor")
}

fn control<P: Print>(out: &P, label: &[u8], task: u32, loading: bool) -> io::Result<()> {
    let r = call_control::control(task, loading);
    lines::reply(out, label, r.answer)?;
    lines::loading(out, r.loading)
}

fn controls<P: Print>(out: &P) -> io::Result<()> {
    control(out, b"task 1, loading off", 1, false)?;
    control(out, b"task 2, loading off", 2, false)?;
    control(out, b"task 2, loading on", 2, true)?;
    control(out, b"task 0, loading off", 0, false)?;
    control(out, b"task 3, loading on", 3, true)?;
    control(out, b"task 65537, loading off", 65537, false)
}

// A read of a block of the eight into a destination of `n` bytes of a buffer of 8,192.
fn read<P: Print>(out: &P, label: &[u8], block: u32, n: usize) -> io::Result<()> {
    let buf: &mut [u8] = &mut [0u8; 65536];
    test_samples::stores::eight_blocks(buf);
    let to: &mut [u8] = &mut [0u8; 65536];
    if n <= to.len() {
        lines::reply(
            out,
            label,
            call_reads::read::read(bytes::first(buf, 16384), block, &mut to[0..n]),
        )?;
    }
    lines::destination(out, to)
}

fn reads<P: Print>(out: &P) -> io::Result<()> {
    read(out, b"read an unused block, exact", 0, 2048)?;
    read(out, b"read an unused block, a byte short", 0, 2047)?;
    read(out, b"read P", 1, 2048)?;
    read(out, b"read two blocks, exact", 3, 4096)?;
    read(out, b"read two blocks, a byte short", 3, 4095)?;
    read(out, b"read two blocks into more", 3, 8192)?;
    read(out, b"read a later block", 4, 4096)?;
    read(out, b"read a later block into nothing", 4, 0)?;
    read(out, b"read the last block", 7, 2048)?;
    read(out, b"read block N", 8, 2048)?;
    read(out, b"read block 4294967295", 4294967295, 2048)
}

fn load<P: Print>(
    out: &P,
    label: &[u8],
    loading: bool,
    n: usize,
    signature: u32,
    platform: u32,
) -> io::Result<()> {
    let buf: &mut [u8] = &mut [0u8; 65536];
    test_samples::stores::eight_blocks(buf);
    let s = bytes::first(buf, n);
    lines::load(
        out,
        label,
        load_choice::choose(loading, s, signature, platform),
        load_choice::data(loading, s, signature, platform),
    )
}

fn loads<P: Print>(out: &P) -> io::Result<()> {
    load(out, b"load (650, 1)", true, 16384, 0x650, 1)?;
    load(out, b"load (650, 0)", true, 16384, 0x650, 0)?;
    load(out, b"load (683, 7)", true, 16384, 0x683, 7)?;
    load(out, b"load (683, 8)", true, 16384, 0x683, 8)?;
    load(out, b"load (650, 1), loading off", false, 16384, 0x650, 1)?;
    load(out, b"load (650, 8), loading off", false, 16384, 0x650, 8)?;
    load(out, b"load from a bad store", false, 16383, 0x650, 8)
}

pub fn run<P: Print>(out: &P) -> io::Result<()> {
    catalogue(out)?;
    catalogue_off_the_kilobyte(out)?;
    inputs(out)?;
    presences(out)?;
    controls(out)?;
    reads(out)?;
    loads(out)
}
