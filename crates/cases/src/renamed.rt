// `NAME rename KIND ROOM SIDE LENGTH PLACE CHAR HEX`: a message's record with another name, written into ROOM bytes of a5.
use super::output::Out;
use layout::Written;
use record_transformations::{Helmert, MolodenskiBadekas, Name};

// What a name gets: a length, and a character at a place where the name has that place.
#[derive(Clone, Copy)]
struct Change {
    length: usize,
    place: usize,
    character: u8,
}

// A 1021 with its source's name changed for side 0, its target's for another.
fn helmert_with(r: Helmert, side: usize, c: Change) -> Helmert {
    let mut changed = r;
    if side == 0 {
        changed.source = name_with(r.source, c);
    } else {
        changed.target = name_with(r.target, c);
    }
    changed
}

// The same of a 1022.
fn molodenski_badekas_with(r: MolodenskiBadekas, side: usize, c: Change) -> MolodenskiBadekas {
    let mut changed = r;
    if side == 0 {
        changed.source = name_with(r.source, c);
    } else {
        changed.target = name_with(r.target, c);
    }
    changed
}

fn name_with(r: Name, c: Change) -> Name {
    let mut chars = r.chars;
    let k = c.place;
    if k < 31 {
        chars[k] = c.character;
    }
    Name {
        length: c.length,
        chars,
    }
}

pub(crate) fn answer(given: &[u8], out: &mut Out, at: usize) -> usize {
    let Some(kind) = text_numerals::natural(text_words::word(given)) else {
        return super::output::bad(out, at);
    };
    if 2 < kind {
        return super::output::bad(out, at);
    }
    if kind == 0 {
        return super::output::bad(out, at);
    }
    put_record(kind, text_words::rest(given), out, at)
}

// The record of the kind, by what is given behind it.
fn put_record(kind: usize, given: &[u8], out: &mut Out, at: usize) -> usize {
    let Some(room) = text_numerals::natural(text_words::word(given)) else {
        return super::output::bad(out, at);
    };
    let rest = text_words::rest(given);
    let Some(side) = text_numerals::natural(text_words::word(rest)) else {
        return super::output::bad(out, at);
    };
    if 1 < side {
        return super::output::bad(out, at);
    }
    put_change(kind, room, side, text_words::rest(rest), out, at)
}

// The change that is given, and the message behind it.
fn put_change(
    kind: usize,
    room: usize,
    side: usize,
    given: &[u8],
    out: &mut Out,
    at: usize,
) -> usize {
    let rest = text_words::rest(given);
    let behind = text_words::rest(rest);
    let Some(c) = change_of(
        text_words::word(given),
        text_words::word(rest),
        text_words::word(behind),
    ) else {
        return super::output::bad(out, at);
    };
    let mut bytes = [0u8; 400];
    let Some(n) = text_numerals::hex(text_words::rest(behind), &mut bytes) else {
        return super::output::bad(out, at);
    };
    put_message(kind, room, side, c, &bytes, n, out, at)
}

fn change_of(length: &[u8], place: &[u8], character: &[u8]) -> Option<Change> {
    Some(Change {
        length: text_numerals::natural(length)?,
        place: text_numerals::natural(place)?,
        character: text_numerals::small(character)?,
    })
}

// The record of the message in the first `n` bytes.
fn put_message(
    kind: usize,
    room: usize,
    side: usize,
    c: Change,
    bytes: &[u8],
    n: usize,
    out: &mut Out,
    at: usize,
) -> usize {
    if 160 < room {
        return super::output::bad(out, at);
    }
    let mut buffer = [0xa5u8; 160];
    put_written(
        kind,
        side,
        c,
        text_words::before(bytes, n),
        &mut buffer[0..room],
        out,
        at,
    )
}

// REFUSAL LENGTH : BUFFER
fn put_written(
    kind: usize,
    side: usize,
    c: Change,
    s: &[u8],
    buffer: &mut [u8],
    out: &mut Out,
    at: usize,
) -> usize {
    let w = write(kind, side, c, s, buffer);
    super::output::put_written(out, at, w.refusal, w.length, buffer)
}

fn write(kind: usize, side: usize, c: Change, s: &[u8], buffer: &mut [u8]) -> Written {
    if kind == 1 {
        return write_helmert(side, c, s, buffer);
    }
    write_molodenski_badekas(side, c, s, buffer)
}

fn write_helmert(side: usize, c: Change, s: &[u8], buffer: &mut [u8]) -> Written {
    let (_, r) = message_records::read_or_zero::<Helmert>(s);
    Written::from(message_records::write_record(helmert_with(r, side, c), buffer))
}

fn write_molodenski_badekas(side: usize, c: Change, s: &[u8], buffer: &mut [u8]) -> Written {
    let (_, r) = message_records::read_or_zero::<MolodenskiBadekas>(s);
    Written::from(message_records::write_record(molodenski_badekas_with(r, side, c), buffer))
}
