// `NAME remake KIND ROOM PRESENT V1 .. Vn`: a record made from a row, written into ROOM bytes of a5.
use super::numbers::{Present, Values};
use super::output::Out;
use layout::Written;
use message_records::Record;
use record_grids::Grid;
use record_projections::{Lambert, ObliqueMercator, Projection};
use record_transformations::{Helmert, MolodenskiBadekas};

pub(crate) fn answer(given: &[u8], out: &mut Out, at: usize) -> usize {
    let Some(kind) = text_numerals::natural(text_words::word(given)) else {
        return super::output::bad(out, at);
    };
    if 6 < kind {
        return super::output::bad(out, at);
    }
    if kind == 0 {
        return super::output::bad(out, at);
    }
    put_record(kind, text_words::rest(given), out, at)
}

// A record of the kind from the row that is given behind the room.
fn put_record(kind: usize, given: &[u8], out: &mut Out, at: usize) -> usize {
    let Some(room) = text_numerals::natural(text_words::word(given)) else {
        return super::output::bad(out, at);
    };
    let mut values = [0i64; 96];
    let mut present = [1u8; 96];
    let Some(_) = super::numbers::places(text_words::rest(given), &mut values, &mut present) else {
        return super::output::bad(out, at);
    };
    put_made(kind, room, &values, &present, out, at)
}

fn put_made(
    kind: usize,
    room: usize,
    values: &Values,
    present: &Present,
    out: &mut Out,
    at: usize,
) -> usize {
    if 160 < room {
        return super::output::bad(out, at);
    }
    let mut buffer = [0xa5u8; 160];
    put_written(kind, values, present, &mut buffer[0..room], out, at)
}

// REFUSAL LENGTH : BUFFER
fn put_written(
    kind: usize,
    values: &Values,
    present: &Present,
    buffer: &mut [u8],
    out: &mut Out,
    at: usize,
) -> usize {
    let w = write(kind, values, present, buffer);
    super::output::put_written(out, at, w.refusal, w.length, buffer)
}

fn write(kind: usize, values: &Values, present: &Present, buffer: &mut [u8]) -> Written {
    match kind {
        1 => write_made::<Helmert>(values, present, buffer),
        2 => write_made::<MolodenskiBadekas>(values, present, buffer),
        3 => write_made::<Grid>(values, present, buffer),
        4 => write_made::<Projection>(values, present, buffer),
        5 => write_made::<Lambert>(values, present, buffer),
        _ => write_made::<ObliqueMercator>(values, present, buffer),
    }
}

// The record of the row, written.
fn write_made<R: Record>(values: &Values, present: &Present, buffer: &mut [u8]) -> Written {
    Written::from(message_records::write_record(R::of_row(values, present), buffer))
}
