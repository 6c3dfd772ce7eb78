// The rows of messages 1021 and 1022, in wire order, from their records.
#![tactic(auto)]

ghost use Rattle.std.specs.Prelude.{◌≡◌, ◌&&◌, ◌++◌, ◌+◌, ◌≤◌, ◌<◌, length, pos};
ghost use Rattle.arith.specs.Lists.{up_to};
ghost use Rattle.record_rows.specs.Numbers.{values_of, present_of};
ghost use Rattle.record_rows.specs.Inner.{buffers, numbers};
ghost use Rattle.record_rows.specs.Private.{Appended};
ghost use Rattle.record_transformations.specs.Private.{names, shared, last};
ghost use Rattle.record_transformations.specs.Transformations.{name_row, char_good, good_name, point_row, helmert_row, molodenski_badekas_row};
ghost use Rattle.record_transformation_rows.specs.Private.{char_value};

use record_rows::{Pair, Row};
use record_transformations::{
    Area, Ellipsoids, Helmert, MolodenskiBadekas, Name, Parameters, RotationPoint, System,
};

// Whether character j is used, or zero.
fn char_good(n: Name, j: usize) -> bool
    requires { j < 31 }
    ensures { result ≡ char_good n j }
{
    j < n.length || n.chars[j] == 0
}

// Whether a name has at most 31 characters and zeros behind them.
fn good_name(n: Name) -> bool
    ensures { result ≡ good_name n }
{
    n.length <= 31 && (0..31).all(|j| char_good(n, j))
}

// Whether both names are good.
fn good_names(source: Name, target: Name) -> bool
    ensures { result ≡ (good_name source && good_name target) }
{
    good_name(source) && good_name(target)
}

// The values of the first `count` characters into dst from place `at` on: the place behind them.
fn append_chars(dst: &mut [i64], at: usize, chars: &[u8; 31], count: usize) -> usize
    requires { (count ≤ 31) × (at + count ≤ length dst.old) }
    ensures { Appended dst.old at (up_to (char_value chars.now) count) result dst.new }
{
    for (j, c) in chars[..count].iter().enumerate() {
        dst[at + j] = i64::from(*c);
    }
    at + count
}

// The values of a name's counter and characters into dst from place `at` on: the place behind them.
fn append_name(dst: &mut [i64], at: usize, n: Name) -> usize
    requires { (n.length ≤ 31) × (at + 32 ≤ length dst.old) }
    ensures { Appended dst.old at (values_of (name_row n)) result dst.new }
{
    let k = record_rows::append(dst, at, &[n.length as i64]);
    append_chars(dst, k, &n.chars, n.length)
}

// The values of the message's number and of both names from place 0 on: the place behind them.
fn append_names(dst: &mut [i64], number: i64, source: Name, target: Name) -> usize
    requires { (source.length ≤ 31) × ((target.length ≤ 31) × (65 ≤ length dst.old)) }
    ensures { Appended dst.old 0 (values_of (names number source target)) result dst.new }
{
    let a = record_rows::append(dst, 0, &[number]);
    let b = append_name(dst, a, source);
    append_name(dst, b, target)
}

// What the places behind the names that both messages have say.
#[tactic(auto, unfolding(record_transformations::specs::Transformations::system_row, record_transformations::specs::Transformations::area_row, record_transformations::specs::Transformations::parameters_row))]
fn shared(s: System, a: Area, p: Parameters) -> [Option<i64>; 16]
    ensures { result ≡ shared s a p }
{
    [
        Some(s.sin),
        Some(s.messages),
        Some(s.plate),
        Some(s.computation),
        Some(s.height),
        a.latitude,
        a.longitude,
        Some(a.north),
        Some(a.east),
        p.dx,
        p.dy,
        p.dz,
        p.rx,
        p.ry,
        p.rz,
        p.ds,
    ]
}

// The last six places of a 1021.
fn last(e: Ellipsoids, q: Pair) -> [Option<i64>; 6]
    ensures { result ≡ last e q }
{
    [
        Some(e.source_major),
        Some(e.source_minor),
        Some(e.target_major),
        Some(e.target_minor),
        Some(q.horizontal),
        Some(q.vertical),
    ]
}

// The last nine places of a 1022.
fn point_and_last(o: RotationPoint, e: Ellipsoids, q: Pair) -> [Option<i64>; 9]
    ensures { result ≡ point_row o ++ last e q }
{
    [
        o.x,
        o.y,
        o.z,
        Some(e.source_major),
        Some(e.source_minor),
        Some(e.target_major),
        Some(e.target_minor),
        Some(q.horizontal),
        Some(q.vertical),
    ]
}

// Both names, the sixteen places that both messages have, and the tail behind them: none where a name is bad.
fn named_row(
    number: i64,
    source: Name,
    target: Name,
    shared: &[i64],
    presence: &[u8],
    tail: &[i64],
    tailpresence: &[u8],
) -> Option<Row>
    requires { (length shared.now ≡ 16) × ((length presence.now ≡ 16) × ((length tail.now ≤ 9) × (length tailpresence.now ≡ length tail.now))) }
    ensures { result ≡ buffers (good_name source && good_name target) (values_of (names number source target) ++ shared.now ++ tail.now) (present_of (names number source target) ++ presence.now ++ tailpresence.now) }
{
    if !good_names(source, target) {
        return record_rows::no_numbers();
    }
    let mut values = [0i64; 96];
    let mut present = [1u8; 96];
    let a = append_names(&mut values, number, source, target);
    let b = record_rows::append(&mut values, a, shared);
    let count = record_rows::append(&mut values, b, tail);
    let k = record_rows::append(&mut present, a, presence);
    record_rows::append(&mut present, k, tailpresence);
    Some(Row {
        count,
        values,
        present,
    })
}

// The row of a 1021: none where a name is bad.
pub fn helmert_row(r: Helmert) -> Option<Row>
    ensures { result ≡ numbers (good_name r.source && good_name r.target) (helmert_row r) }
{
    let shared = shared(r.system, r.area, r.parameters);
    let tail = last(r.ellipsoids, r.quality);
    named_row(
        r.number,
        r.source,
        r.target,
        &shared.map(layout::value_in),
        &shared.map(layout::present_in),
        &tail.map(layout::value_in),
        &tail.map(layout::present_in),
    )
}

// The row of a 1022: none where a name is bad.
pub fn molodenski_badekas_row(r: MolodenskiBadekas) -> Option<Row>
    ensures { result ≡ numbers (good_name r.source && good_name r.target) (molodenski_badekas_row r) }
{
    let shared = shared(r.system, r.area, r.parameters);
    let tail = point_and_last(r.point, r.ellipsoids, r.quality);
    named_row(
        r.number,
        r.source,
        r.target,
        &shared.map(layout::value_in),
        &shared.map(layout::present_in),
        &tail.map(layout::value_in),
        &tail.map(layout::present_in),
    )
}
