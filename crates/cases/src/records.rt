// `NAME record KIND HEX`: each field of the record that a kind's reader gives, by its DF number.
use super::output::Out;

pub(crate) fn answer(given: &[u8], out: &mut Out, at: usize) -> usize {
    let Some(kind) = text_numerals::natural(text_words::word(given)) else {
        return super::output::bad(out, at);
    };
    let mut bytes = [0u8; 400];
    let Some(n) = text_numerals::hex(text_words::rest(given), &mut bytes) else {
        return super::output::bad(out, at);
    };
    put_message(kind, &bytes, n, out, at)
}

// The record that a kind's reader gives of the message in the first `n` bytes.
fn put_message(kind: usize, bytes: &[u8], n: usize, out: &mut Out, at: usize) -> usize {
    put_record(kind, text_words::before(bytes, n), out, at)
}

fn put_record(kind: usize, s: &[u8], out: &mut Out, at: usize) -> usize {
    match kind {
        1 => super::transformations::put_helmert(s, out, at),
        2 => super::transformations::put_molodenski_badekas(s, out, at),
        3 => super::grids::put_grid(s, out, at),
        _ => put_projected(kind, s, out, at),
    }
}

fn put_projected(kind: usize, s: &[u8], out: &mut Out, at: usize) -> usize {
    match kind {
        4 => super::projections::put_projection(s, out, at),
        5 => super::projections::put_lambert(s, out, at),
        6 => super::projections::put_oblique_mercator(s, out, at),
        _ => super::output::bad(out, at),
    }
}
