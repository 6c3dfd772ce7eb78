// One field behind its DF number: a space, the number in three digits, `=` and the value.
use super::output;
use super::output::Out;
use record_rows::Pair;

fn put_df(df: u64, out: &mut Out, at: usize) -> usize {
    if df < 10 {
        return put_digits(b" 00", df, out, at);
    }
    if df < 100 {
        return put_digits(b" 0", df, out, at);
    }
    put_digits(b" ", df, out, at)
}

fn put_digits(before: &[u8], df: u64, out: &mut Out, at: usize) -> usize {
    let to = output::put(out, at, before);
    let to = output::put_natural(out, to, df);
    output::put(out, to, b"=")
}

pub(crate) fn put_number(df: u64, n: i64, out: &mut Out, at: usize) -> usize {
    let to = put_df(df, out, at);
    output::put_whole(out, to, n)
}

pub(crate) fn put_reading(df: u64, r: Option<i64>, out: &mut Out, at: usize) -> usize {
    match r {
        Some(n) => put_number(df, n, out, at),
        None => put_none(df, out, at),
    }
}

fn put_none(df: u64, out: &mut Out, at: usize) -> usize {
    let to = put_df(df, out, at);
    output::put(out, to, b"none")
}

pub(crate) fn put_count(df: u64, n: usize, out: &mut Out, at: usize) -> usize {
    let to = put_df(df, out, at);
    output::put_count(out, to, n)
}

// Bytes, `-` for none.
pub(crate) fn put_bytes(df: u64, s: &[u8], out: &mut Out, at: usize) -> usize {
    let to = put_df(df, out, at);
    output::put_hex(out, to, s)
}

// Two numbers that follow one another.
pub(crate) fn put_numbers(
    first: u64,
    n: i64,
    second: u64,
    m: i64,
    out: &mut Out,
    at: usize,
) -> usize {
    let to = put_number(first, n, out, at);
    put_number(second, m, out, to)
}

// Two readings that follow one another.
pub(crate) fn put_readings(
    first: u64,
    r: Option<i64>,
    second: u64,
    q: Option<i64>,
    out: &mut Out,
    at: usize,
) -> usize {
    let to = put_reading(first, r, out, at);
    put_reading(second, q, out, to)
}

// Both fields of a pair.
pub(crate) fn put_pair(first: u64, second: u64, r: Pair, out: &mut Out, at: usize) -> usize {
    put_numbers(first, r.horizontal, second, r.vertical, out, at)
}

// REFUSAL :
pub(crate) fn put_refusal(refusal: u8, out: &mut Out, at: usize) -> usize {
    let to = output::put_small(out, at, refusal);
    output::put(out, to, b" :")
}
