// Cases of the dispatcher.
use crate::lines;
use std::io;
use std::io::Print;
use test_samples::{make, stores};

// A call with four blocks as store, P in block 1; the candidate is P with revision 8, the destination has 2,048 bytes.
fn call<P: Print>(
    out: &P,
    label: &[u8],
    function: u32,
    sub: u32,
    task: u32,
    block: u32,
) -> io::Result<()> {
    let store: &mut [u8] = &mut [0u8; 8192];
    stores::four_blocks(store);
    let candidate: &mut [u8] = &mut [0u8; 65536];
    make::p(candidate, 8, 0xF8E7E008);
    let mut destination = [0u8; 2048];
    let mut answer = [0xA5A5A5A5u32; 16];
    let ax = board::update_store_call(
        function,
        sub,
        task,
        block,
        false,
        store,
        &[0x650],
        &[1],
        candidate,
        8,
        &mut destination,
        &mut answer,
    );
    lines::answer(out, label, ax, &answer)
}

pub fn run<P: Print>(out: &P) -> io::Result<()> {
    call(out, b"D042h, 0: ", 0xD042, 0, 0, 0)?;
    call(out, b"D042h, 1: ", 0xD042, 1, 0, 0)?;
    call(out, b"D042h, 2, task 1: ", 0xD042, 2, 1, 0)?;
    call(out, b"D042h, 2, task 7: ", 0xD042, 2, 7, 0)?;
    call(out, b"D042h, 3, block 1: ", 0xD042, 3, 0, 1)?;
    call(out, b"D042h, 3, block 4: ", 0xD042, 3, 0, 4)?;
    call(out, b"D042h, 4: ", 0xD042, 4, 1, 0)?;
    call(out, b"D042h, 10001h: ", 0xD042, 0x10001, 1, 0)?;
    call(out, b"D043h, 2, task 1: ", 0xD043, 2, 1, 0)?;
    call(out, b"1D042h, 2, task 7: ", 0x1D042, 2, 7, 0)
}
