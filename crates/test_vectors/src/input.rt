// Bytes read from a reader.
use std::io;
use std::io::{ErrorKind, Read};

// Reads a whole buffer: false where the input ends before.
pub fn read_all<R: Read>(reader: &mut R, buf: &mut [u8]) -> io::Result<bool> {
    match reader.read_exact(buf) {
        Ok(()) => Ok(true),
        Err(e) if e.kind() == ErrorKind::UnexpectedEof => Ok(false),
        Err(e) => Err(e),
    }
}

// The next N bytes, or none where the input ends before.
pub(crate) fn read_array<const N: usize, R: Read>(reader: &mut R) -> io::Result<Option<[u8; N]>> {
    let mut b = [0u8; N];
    let whole = read_all(reader, &mut b)?;
    Ok(whole.then_some(b))
}

// The next byte, or none at the end of the input.
pub fn read_byte<R: Read>(reader: &mut R) -> io::Result<Option<u8>> {
    Ok(read_array::<1, R>(reader)?.map(|b| b[0]))
}

// Reads a part of a buffer: false where it has no such part, or where the input ends before.
pub fn read_part<R: Read>(
    reader: &mut R,
    buf: &mut [u8],
    offset: u32,
    count: u32,
) -> io::Result<bool> {
    let at = offset as usize;
    let end = at + count as usize;
    if end > buf.len() {
        return Ok(false);
    }
    read_all(reader, &mut buf[at..end])
}
