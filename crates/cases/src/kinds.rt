// `NAME kinds HEX`: the refusals of the six readers of records, and the bytes written from the record of the one that accepts.
use super::output;
use super::output::Out;
use arith::refusals::Refusal;
use layout::Written;
use message_records::Record;
use record_grids::Grid;
use record_projections::{Lambert, ObliqueMercator, Projection};
use record_transformations::{Helmert, MolodenskiBadekas};

type Buffer = [u8; 160];

pub(crate) fn answer(given: &[u8], out: &mut Out, at: usize) -> usize {
    let mut bytes = [0u8; 400];
    let Some(n) = text_numerals::hex(given, &mut bytes) else {
        return output::bad(out, at);
    };
    let mut buffer = [0u8; 160];
    put_kinds(text_words::before(&bytes, n), &mut buffer, out, at)
}

// K1 to K6 : BYTES
fn put_kinds(s: &[u8], buffer: &mut Buffer, out: &mut Out, at: usize) -> usize {
    let w = rewritten::<Helmert>(s, buffer);
    let to = output::put_small(out, at, w.refusal);
    let n = w.length;
    let w = rewritten::<MolodenskiBadekas>(s, buffer);
    let to = put_next(w.refusal, out, to);
    let n = n.max(w.length);
    let w = rewritten::<Grid>(s, buffer);
    let to = put_next(w.refusal, out, to);
    put_projected(s, n.max(w.length), buffer, out, to)
}

// K4 to K6 : BYTES, of which there are `n` where an earlier reader accepted.
fn put_projected(s: &[u8], n: usize, buffer: &mut Buffer, out: &mut Out, at: usize) -> usize {
    let w = rewritten::<Projection>(s, buffer);
    let to = put_next(w.refusal, out, at);
    let n = n.max(w.length);
    let w = rewritten::<Lambert>(s, buffer);
    let to = put_next(w.refusal, out, to);
    let n = n.max(w.length);
    let w = rewritten::<ObliqueMercator>(s, buffer);
    let to = put_next(w.refusal, out, to);
    put_bytes(buffer, n.max(w.length), out, to)
}

fn put_next(refusal: u8, out: &mut Out, at: usize) -> usize {
    output::put_next(out, at, refusal as u64)
}

fn put_bytes(buffer: &Buffer, n: usize, out: &mut Out, at: usize) -> usize {
    let to = output::put(out, at, b" : ");
    output::put_hex(out, to, text_words::before(buffer, n))
}

// The record of a kind, where the reader gives one, written: the reader's refusal, and the length.
fn rewritten<R: Record>(s: &[u8], buffer: &mut Buffer) -> Written {
    Written::from(rewrite::<R>(s, buffer))
}

fn rewrite<R: Record>(s: &[u8], buffer: &mut Buffer) -> Result<usize, Refusal> {
    let r = message_records::read_record::<R>(s)?;
    message_records::write_record(r, buffer)
}
