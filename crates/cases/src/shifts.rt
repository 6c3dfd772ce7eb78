// `NAME answer HEX NORTH EAST`: the kind and value of each of the three answers from a grid message, and whether the shifts from its record are the same.
// `NAME shiftof NORTH EAST PRESENT V1 .. Vn`: the three shifts from a record that is made from a row.
use super::numbers::{Present, Values};
use super::output::Out;
use grid_shifts::{Answer, Shift, ThreeShifts};
use record_grids::Grid;

pub(crate) fn answer(given: &[u8], out: &mut Out, at: usize) -> usize {
    let mut bytes = [0u8; 400];
    let Some(n) = text_numerals::hex(text_words::word(given), &mut bytes) else {
        return super::output::bad(out, at);
    };
    put_case(&bytes, n, text_words::rest(given), out, at)
}

// All that is printed of the message in the first `n` bytes and of the position that is given.
fn put_case(bytes: &[u8], n: usize, given: &[u8], out: &mut Out, at: usize) -> usize {
    let Some(p) = super::numbers::place_of(text_words::word(given), text_words::rest(given)) else {
        return super::output::bad(out, at);
    };
    put_answers(text_words::before(bytes, n), p.north, p.east, out, at)
}

// `NAME shiftof NORTH EAST PRESENT V1 .. Vn`
pub(crate) fn answer_of(given: &[u8], out: &mut Out, at: usize) -> usize {
    let rest = text_words::rest(given);
    let Some(p) = super::numbers::place_of(text_words::word(given), text_words::word(rest)) else {
        return super::output::bad(out, at);
    };
    let mut values = [0i64; 96];
    let mut present = [1u8; 96];
    let Some(_) = super::numbers::places(text_words::rest(rest), &mut values, &mut present) else {
        return super::output::bad(out, at);
    };
    put_record_shifts(&values, &present, p.north, p.east, out, at)
}

// The three shifts from the record that is made from a row.
fn put_record_shifts(
    values: &Values,
    present: &Present,
    north: i64,
    east: i64,
    out: &mut Out,
    at: usize,
) -> usize {
    let g = record_grids::grid_of(values, present);
    put_shifts(grid_shifts::shifts_of(g, north, east), out, at)
}

// The three answers, and whether the record's shifts differ.
fn put_answers(s: &[u8], north: i64, east: i64, out: &mut Out, at: usize) -> usize {
    let r = grid_shifts::shifts_at(s, north, east);
    let to = put_kinds(r, out, at);
    if record_differs(s, north, east) {
        return super::output::put(out, to, b" differs");
    }
    to
}

// KIND VALUE of each part, north, east and height.
fn put_kinds(r: ThreeShifts, out: &mut Out, at: usize) -> usize {
    let p = r.parts;
    let to = put_answer(p.north, out, at);
    let to = super::output::put(out, to, b" ");
    let to = put_answer(p.east, out, to);
    let to = super::output::put(out, to, b" ");
    put_answer(p.height, out, to)
}

fn put_answer(p: Shift, out: &mut Out, at: usize) -> usize {
    let kind = p.answer;
    put_kind(kind, out, at)
}

// REFUSAL COUNT KIND VALUE FLOAT of each part, north, east and height.
fn put_shifts(r: ThreeShifts, out: &mut Out, at: usize) -> usize {
    let p = r.parts;
    let to = put_part(p.north, r.north, out, at);
    let to = super::output::put(out, to, b" ");
    let to = put_part(p.east, r.east, out, to);
    let to = super::output::put(out, to, b" ");
    put_part(p.height, r.height, out, to)
}

// REFUSAL COUNT KIND VALUE FLOAT
fn put_part(p: Shift, x: f64, out: &mut Out, at: usize) -> usize {
    let kind = p.answer;
    let to = super::output::put_small(out, at, p.refusal);
    let to = super::output::put_next_whole(out, to, p.count);
    let to = super::output::put(out, to, b" ");
    let to = put_kind(kind, out, to);
    put_float(b" ", x, out, to)
}

// KIND VALUE
fn put_kind(kind: Answer, out: &mut Out, at: usize) -> usize {
    match kind {
        Answer::Seconds(x) => put_float(b"seconds ", x, out, at),
        Answer::Metres(x) => put_float(b"metres ", x, out, at),
        Answer::Refused(n) => put_refused(n, out, at),
    }
}

fn put_refused(n: u8, out: &mut Out, at: usize) -> usize {
    let to = super::output::put(out, at, b"refused ");
    super::output::put_small(out, to, n)
}

// What stands before a float, and its bits as a whole number, `?` for a float that is no number.
fn put_float(before: &[u8], x: f64, out: &mut Out, at: usize) -> usize {
    let to = super::output::put(out, at, before);
    if x != x {
        return super::output::bad(out, to);
    }
    super::output::put_natural(out, to, f64::to_bits(x))
}

// Whether the message has a record whose shifts have another refusal or count.
fn record_differs(s: &[u8], north: i64, east: i64) -> bool {
    let Ok(g) = message_records::read_record::<Grid>(s) else {
        return false;
    };
    differ(
        grid_shifts::shifts_of(g, north, east),
        grid_shifts::shifts_at(s, north, east),
    )
}

// Whether two answers differ in the refusal or the count of a part.
fn differ(a: ThreeShifts, b: ThreeShifts) -> bool {
    let p = a.parts;
    let q = b.parts;
    if parts_differ(p.north, q.north) {
        return true;
    }
    if parts_differ(p.east, q.east) {
        return true;
    }
    parts_differ(p.height, q.height)
}

fn parts_differ(p: Shift, q: Shift) -> bool {
    if p.refusal != q.refusal {
        return true;
    }
    p.count != q.count
}
