// `NAME points COMPONENT COUNT HEX N1 E1 .. Nk Ek`: the report of COUNT points, which go through those given over and over.
use super::numbers::Values;
use super::output::Out;
use report_points::Point;
use report_update::Report;

type Points = [Point; 10001];

pub(crate) fn answer(given: &[u8], out: &mut Out, at: usize) -> usize {
    let Some(component) = text_numerals::small(text_words::word(given)) else {
        return super::output::bad(out, at);
    };
    let rest = text_words::rest(given);
    let Some(count) = text_numerals::natural(text_words::word(rest)) else {
        return super::output::bad(out, at);
    };
    if 10001 < count {
        return super::output::bad(out, at);
    }
    answer_list(component, count, text_words::rest(rest), out, at)
}

// The message and the points that are given.
fn answer_list(component: u8, count: usize, given: &[u8], out: &mut Out, at: usize) -> usize {
    let mut bytes = [0u8; 400];
    let Some(n) = text_numerals::hex(text_words::word(given), &mut bytes) else {
        return super::output::bad(out, at);
    };
    let mut numbers = [0i64; 96];
    let Some(k) = super::numbers::row(text_words::rest(given), &mut numbers) else {
        return super::output::bad(out, at);
    };
    let points = listed(&numbers, k / 2);
    put_report(&bytes, n, component, points, count, out, at)
}

// REFUSAL : NUMBERS of the message in the first `n` bytes and the first `count` points.
fn put_report(
    bytes: &[u8],
    n: usize,
    component: u8,
    points: Points,
    count: usize,
    out: &mut Out,
    at: usize,
) -> usize {
    if 10001 < count {
        return super::output::bad(out, at);
    }
    let r = super::lent::report_of(text_words::before(bytes, n), component, points, count);
    super::tallies::put_report(r, out, at)
}

// Points that go through the first `k` of those given over and over.
fn listed(numbers: &Values, k: usize) -> Points {
    let mut points = [Point { north: 0, east: 0 }; 10001];
    let mut j: usize = 0;
    for point in points.iter_mut() {
        *point = point_at(numbers, j);
        j = following(j, k);
    }
    points
}

// The point given at a place, from 0.
fn point_at(numbers: &Values, j: usize) -> Point {
    if 47 < j {
        return Point { north: 0, east: 0 };
    }
    Point {
        north: numbers[2 * j],
        east: numbers[2 * j + 1],
    }
}

// The place behind another of `k`, the first again behind the last.
fn following(j: usize, k: usize) -> usize {
    if k <= j {
        return 0;
    }
    if j + 1 < k {
        return j + 1;
    }
    0
}
