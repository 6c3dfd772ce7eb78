// Output through a buffer. Each function but `write` puts something at `at` and answers the place behind it.
use std::io;
use std::io::Write;

pub(crate) type Out = [u8; 16384];

pub(crate) fn put(out: &mut Out, at: usize, s: &[u8]) -> usize {
    text_words::put(out, at, s)
}

pub(crate) fn put_natural(out: &mut Out, at: usize, n: u64) -> usize {
    text_numerals::put_natural(out, at, n)
}

pub(crate) fn put_whole(out: &mut Out, at: usize, n: i64) -> usize {
    text_numerals::put_whole(out, at, n)
}

pub(crate) fn put_hex(out: &mut Out, at: usize, s: &[u8]) -> usize {
    text_numerals::put_hex(out, at, s)
}

// Writes the first `at` bytes.
pub(crate) fn write(writer: &mut impl Write, out: &[u8], at: usize) -> io::Result<()> {
    writer.write_all(text_words::before(out, at))
}

// Writes what stands in the buffer where it leaves less room than two lines take.
pub(crate) fn written(writer: &mut impl Write, out: &[u8], at: usize) -> io::Result<usize> {
    if at < 12288 {
        return Ok(at);
    }
    write(writer, out, at)?;
    Ok(0)
}

// What is printed where a line is no case.
pub(crate) fn bad(out: &mut Out, at: usize) -> usize {
    put(out, at, b"?")
}

pub(crate) fn put_count(out: &mut Out, at: usize, n: usize) -> usize {
    put_natural(out, at, n as u64)
}

pub(crate) fn put_small(out: &mut Out, at: usize, n: u8) -> usize {
    put_natural(out, at, n as u64)
}

// A space and a number.
pub(crate) fn put_next(out: &mut Out, at: usize, n: u64) -> usize {
    let to = put(out, at, b" ");
    put_natural(out, to, n)
}

// A space and a number of either sign.
pub(crate) fn put_next_whole(out: &mut Out, at: usize, n: i64) -> usize {
    let to = put(out, at, b" ");
    put_whole(out, to, n)
}

// REFUSAL LENGTH : BUFFER, what a writer answered and the whole buffer after it.
pub(crate) fn put_written(
    out: &mut Out,
    at: usize,
    refusal: u8,
    length: usize,
    buffer: &[u8],
) -> usize {
    let to = put_small(out, at, refusal);
    let to = put(out, to, b" ");
    let to = put_count(out, to, length);
    let to = put(out, to, b" : ");
    put_hex(out, to, buffer)
}
