// `NAME tally COMPONENT NORTH EAST HEX T1 .. T21`: a tally that is lent, and one point more.
use super::output::Out;
use report_update::{Report, Tally};

pub(crate) fn answer(given: &[u8], out: &mut Out, at: usize) -> usize {
    let Some(component) = text_numerals::small(text_words::word(given)) else {
        return super::output::bad(out, at);
    };
    let rest = text_words::rest(given);
    let behind = text_words::rest(rest);
    let Some(p) = super::numbers::place_of(text_words::word(rest), text_words::word(behind)) else {
        return super::output::bad(out, at);
    };
    answer_point(
        component,
        p.north,
        p.east,
        text_words::rest(behind),
        out,
        at,
    )
}

// The message and the tally that are given.
fn answer_point(
    component: u8,
    north: i64,
    east: i64,
    given: &[u8],
    out: &mut Out,
    at: usize,
) -> usize {
    let mut bytes = [0u8; 400];
    let Some(n) = text_numerals::hex(text_words::word(given), &mut bytes) else {
        return super::output::bad(out, at);
    };
    let Some(tally) = tally_of(text_words::rest(given)) else {
        return super::output::bad(out, at);
    };
    put_after(tally, &bytes, n, component, north, east, out, at)
}

// REFUSAL : NUMBERS of a tally and a point more, by the message in the first `n` bytes.
fn put_after(
    t: Tally,
    bytes: &[u8],
    n: usize,
    component: u8,
    north: i64,
    east: i64,
    out: &mut Out,
    at: usize,
) -> usize {
    let r = super::lent::tally_after(t, text_words::before(bytes, n), component, north, east);
    put_report(r, out, at)
}

// The tally of 21 numbers in words.
fn tally_of(s: &[u8]) -> Option<Tally> {
    let answered = text_numerals::natural(text_words::word(s))?;
    let mut refused = [0u64; 15];
    let s = refused_of(text_words::rest(s), &mut refused)?;
    let smallest = text_numerals::whole(text_words::word(s))?;
    let s = text_words::rest(s);
    let greatest = text_numerals::whole(text_words::word(s))?;
    let s = text_words::rest(s);
    let smallest_place = text_numerals::natural(text_words::word(s))?;
    let s = text_words::rest(s);
    let greatest_place = text_numerals::natural(text_words::word(s))?;
    let sum = text_numerals::whole(text_words::rest(s))?;
    Some(Tally {
        answered: answered as u64,
        refused,
        smallest,
        greatest,
        smallest_place: smallest_place as u64,
        greatest_place: greatest_place as u64,
        sum,
    })
}

// The fifteen numbers with which a line begins: what stands behind them.
fn refused_of<'a>(s: &'a [u8], refused: &mut [u64; 15]) -> Option<&'a [u8]> {
    let mut rest = s;
    for count in refused.iter_mut() {
        *count = text_numerals::natural(text_words::word(rest))? as u64;
        rest = text_words::rest(rest);
    }
    Some(rest)
}

// REFUSAL : NUMBERS
pub(crate) fn put_report(r: Report, out: &mut Out, at: usize) -> usize {
    let to = super::output::put_small(out, at, r.refusal);
    let to = super::output::put(out, to, b" :");
    put_tally(r.tally, out, to)
}

// The numbers of a tally, with a space before each.
fn put_tally(t: Tally, out: &mut Out, at: usize) -> usize {
    let refused = t.refused;
    let to = super::output::put_next(out, at, t.answered);
    let to = put_refused(&refused, out, to);
    let to = super::output::put_next_whole(out, to, t.smallest);
    let to = super::output::put_next_whole(out, to, t.greatest);
    let to = super::output::put_next(out, to, t.smallest_place);
    let to = super::output::put_next(out, to, t.greatest_place);
    super::output::put_next_whole(out, to, t.sum)
}

fn put_refused(refused: &[u64; 15], out: &mut Out, at: usize) -> usize {
    let mut to = at;
    for n in refused {
        to = super::output::put_next(out, to, *n);
    }
    to
}
