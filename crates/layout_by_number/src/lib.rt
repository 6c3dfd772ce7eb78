// Messages 1025, 1026 and 1027 checked, read and written by their layouts.
#![tactic(auto)]

ghost use Rattle.std.specs.Prelude.{◌≡◌, map, ◌++◌, length, take, ◌+◌, ◌≤◌, ℕ, MatchOption};
ghost use Rattle.arith.specs.Refusals.{outcome_number};
ghost use Rattle.layout.specs.Inner.{refusal_of, decode_refusal, encode_refusal};
ghost use Rattle.layout.specs.Layout.{as_written, decode_all, value_in, present_in, stored, row_takes, row_of, encode_all, answered};
ghost use Rattle.layout_tables.specs.Layouts.{layout1025, layout1026, layout1027, names};
ghost use Rattle.layout_tables.specs.Inner.{counter, layout_by};
ghost use Rattle.layout_by_number.specs.Inner.{checked_refusal, values_checked, present_checked};
ghost use Rattle.layout_by_number.specs.Private.{Other, named_refusal};

use arith::refusals::{Refusal, outcome_number};
use layout_tables::{DECLARED, INT};

// A latitude, a longitude or an azimuth of a projection.
const ANGLE_90: u64 = 8181818181 * DECLARED + INT + 34;

const ANGLE_180: u64 = 16363636363 * DECLARED + INT + 35;

const ANGLE_360: u64 = 32727272727 * DECLARED + 35;

const LAYOUT_1025: [u64; 8] = [
    12, // DF002
    8, // DF147
    6, // DF170
    ANGLE_90, // DF171
    ANGLE_180, // DF172
    30, // DF173
    36, // DF174
    INT + 35, // DF175
];

const LAYOUT_1026: [u64; 9] = [
    12, // DF002
    8, // DF147
    6, // DF170
    ANGLE_90, // DF176
    ANGLE_180, // DF177
    ANGLE_90, // DF178
    ANGLE_90, // DF179
    36, // DF180
    INT + 35, // DF181
];

const LAYOUT_1027: [u64; 11] = [
    12, // DF002
    8, // DF147
    6, // DF170
    1, // DF182
    ANGLE_90, // DF183
    ANGLE_180, // DF184
    ANGLE_360, // DF185
    INT + 26, // DF186
    30, // DF187
    36, // DF188
    INT + 35, // DF189
];

// Why s is no message of a layout: its bits, then its fields with a declared range.
pub fn check_1025(s: &[u8]) -> Result<(), Refusal>
    ensures { outcome_number result ≡ refusal_of layout1025 s.now }
{
    let r = layout::check_size(s, 196);
    let r = layout::check_place_after(r, s, 26, ANGLE_90);
    layout::check_place_after(r, s, 60, ANGLE_180)
}

pub fn check_1026(s: &[u8]) -> Result<(), Refusal>
    ensures { outcome_number result ≡ refusal_of layout1026 s.now }
{
    let r = layout::check_size(s, 234);
    let r = layout::check_place_after(r, s, 26, ANGLE_90);
    let r = layout::check_place_after(r, s, 60, ANGLE_180);
    let r = layout::check_place_after(r, s, 95, ANGLE_90);
    layout::check_place_after(r, s, 129, ANGLE_90)
}

pub fn check_1027(s: &[u8]) -> Result<(), Refusal>
    ensures { outcome_number result ≡ refusal_of layout1027 s.now }
{
    let r = layout::check_size(s, 258);
    let r = layout::check_place_after(r, s, 27, ANGLE_90);
    let r = layout::check_place_after(r, s, 61, ANGLE_180);
    layout::check_place_after(r, s, 96, ANGLE_360)
}

// What the fields of a layout say where a check has passed; or what it refused, or ROOM.
pub fn decode_after(
    checked: Result<(), Refusal>,
    s: &[u8],
    layout: &[u64],
    values: &mut [i64],
    present: &mut [u8],
) -> Result<(), Refusal>
    ensures answer { outcome_number result ≡ checked_refusal (outcome_number checked) (length layout.now) (length values.old) (length present.old) }
    ensures values { values.new ≡ values_checked (outcome_number checked) layout.now s.now values.old present.old }
    ensures present { present.new ≡ present_checked (outcome_number checked) layout.now s.now values.old present.old }
{
    checked?;
    if values.len() < layout.len() {
        return Err(Refusal::Room);
    }
    if present.len() < layout.len() {
        return Err(Refusal::Room);
    }
    layout_reader::read(s, 0, layout, values, present);
    Ok(())
}

// The same by number: what the fields of a layout say where r, a check's answer, is 0; or r, or 6 ROOM.
#[tactic(auto, unfolding(crate::specs::Inner::checked_refusal, crate::specs::Inner::values_checked, crate::specs::Inner::present_checked))]
pub fn decode_checked(r: u8, s: &[u8], layout: &[u64], values: &mut [i64], present: &mut [u8]) -> u8
    ensures answer { result ≡ checked_refusal r (length layout.now) (length values.old) (length present.old) }
    ensures values { values.new ≡ values_checked r layout.now s.now values.old present.old }
    ensures present { present.new ≡ present_checked r layout.now s.now values.old present.old }
{
    if r != 0 {
        return r;
    }
    outcome_number(decode_after(Ok(()), s, layout, values, present))
}

// Messages checked, read and written by the layout of their number.

// DF002, DF143, which DF145 is as wide as, and a character of DF144 or DF146.
const NUMBER: u64 = 12;

const COUNTER: u64 = 5;

const CHARACTER: u64 = 8;

// DF152 and DF153: the origin of the area of validity.
const LATITUDE: u64 = 162000 * DECLARED + INT + 19;

const LONGITUDE: u64 = 324000 * DECLARED + INT + 20;

// Behind the names of 1021.
const TAIL_1021: [u64; 22] = [
    8, // DF147
    10, // DF148
    5, // DF149
    4, // DF150
    2, // DF151
    LATITUDE,
    LONGITUDE,
    14, // DF154
    14, // DF155
    INT + 23, // DF156
    INT + 23, // DF157
    INT + 23, // DF158
    INT + 32, // DF159
    INT + 32, // DF160
    INT + 32, // DF161
    INT + 25, // DF162
    24, // DF166
    25, // DF167
    24, // DF168
    25, // DF169
    3, // DF214
    3, // DF215
];

// Behind the names of 1022.
const TAIL_1022: [u64; 25] = [
    8, // DF147
    10, // DF148
    5, // DF149
    4, // DF150
    2, // DF151
    LATITUDE,
    LONGITUDE,
    14, // DF154
    14, // DF155
    INT + 23, // DF156
    INT + 23, // DF157
    INT + 23, // DF158
    INT + 32, // DF159
    INT + 32, // DF160
    INT + 32, // DF161
    INT + 25, // DF162
    INT + 35, // DF163
    INT + 35, // DF164
    INT + 35, // DF165
    24, // DF166
    25, // DF167
    24, // DF168
    25, // DF169
    3, // DF214
    3, // DF215
];

// A layout in the first entries.
#[derive(Clone, Copy)]
struct Plan {
    entries: [u64; 96],
    count: usize,
}

impl Plan {
    // Its entries.
    fn layout(&self) -> &[u64]
        ensures { result.now ≡ take self.now.count self.now.entries }
    {
        &self.entries[..self.count.min(96)]
    }
}

// src behind the first `at` entries: how many there are then.
fn append(dst: &mut [u64], at: usize, src: &[u64]) -> usize
    requires { at + length src.now ≤ length dst.old }
    ensures { (result ≡ at + length src.now) × (take result dst.new ≡ take at dst.old ++ src.now) }
{
    let end = at + src.len();
    dst[at..end].copy_from_slice(src);
    end
}

// The layout that starts with names of n and m characters and goes on with `tail`.
fn named_plan(n: usize, m: usize, tail: &[u64]) -> Plan
    requires { (n ≤ 31) × ((m ≤ 31) × (length tail.now ≤ 31)) }
    ensures { take result.count result.entries ≡ names n m ++ tail.now }
{
    let mut entries = [CHARACTER; 96];
    entries[0] = NUMBER;
    entries[1] = COUNTER;
    entries[n + 2] = COUNTER;
    let count = append(&mut entries, n + m + 3, tail);
    Plan { entries, count }
}

// A name counter; 0 for a number that none has.
fn counter_of(n: usize) -> usize
    ensures { (result ≡ counter n) × (result ≤ 31) }
{
    if 31 < n {
        return 0;
    }
    n
}

// The layout of 1021 or 1022 with names of n and m characters, or the layout of no field.
#[tactic(auto, unfolding(layout_tables::specs::Inner::layout_by, layout_tables::specs::Layouts::layout_of, layout_tables::specs::Layouts::layout1021, layout_tables::specs::Layouts::layout1022, layout_tables::specs::Layouts::tail1021, layout_tables::specs::Layouts::tail1022))]
fn other_plan(number: u64, n: usize, m: usize) -> Plan
    requires { Other number }
    ensures { take result.count result.entries ≡ layout_by number n m }
{
    match number {
        1021 => named_plan(counter_of(n), counter_of(m), &TAIL_1021),
        1022 => named_plan(counter_of(n), counter_of(m), &TAIL_1022),
        _ => Plan {
            entries: [0u64; 96],
            count: 0,
        },
    }
}

// Why s is no message with names of n and m characters that has so many bits without them: its bits, then its fields with a declared range.
fn check_named(s: &[u8], bits: usize, n: usize, m: usize) -> Result<(), Refusal>
    requires { (bits ≤ 1000) × ((n ≤ 31) × (m ≤ 31)) }
    ensures { outcome_number result ≡ named_refusal bits n m s.now }
{
    let names = 8 * (n + m);
    let r = layout::check_size(s, bits + names);
    let r = layout::check_place_after(r, s, 51 + names, LATITUDE);
    layout::check_place_after(r, s, 70 + names, LONGITUDE)
}

// Why s is no message of the layout of another number.
fn check_other(s: &[u8], number: u64, n: usize, m: usize) -> Result<(), Refusal>
    requires { Other number }
    ensures { outcome_number result ≡ refusal_of (layout_by number n m) s.now }
{
    match number {
        1021 => check_named(s, 412, counter_of(n), counter_of(m)),
        1022 => check_named(s, 517, counter_of(n), counter_of(m)),
        _ => layout::check_size(s, 0),
    }
}

// Why s is no message of the layout of a number, with names of n and m characters where it carries names: LENGTH, FILL, RANGE.
#[tactic(auto, unfolding(layout_tables::specs::Inner::layout_by, layout_tables::specs::Layouts::layout_of))]
pub fn check_by(s: &[u8], number: u64, n: usize, m: usize) -> Result<(), Refusal>
    ensures { outcome_number result ≡ refusal_of (layout_by number n m) s.now }
{
    match number {
        1023 => layout_tables::check_1023(s),
        1024 => layout_tables::check_1024(s),
        1025 => check_1025(s),
        1026 => check_1026(s),
        1027 => check_1027(s),
        _ => check_other(s, number, n, m),
    }
}

// What the fields of a message of another number say, or why not.
fn decode_other(
    s: &[u8],
    number: u64,
    n: usize,
    m: usize,
    values: &mut [i64],
    present: &mut [u8],
) -> Result<(), Refusal>
    requires { Other number }
    ensures answer { outcome_number result ≡ decode_refusal (layout_by number n m) s.now (length values.old) (length present.old) }
    ensures values { values.new ≡ stored (decode_refusal (layout_by number n m) s.now (length values.old) (length present.old)) (map value_in (decode_all (layout_by number n m) 0 s.now)) values.old }
    ensures present { present.new ≡ stored (decode_refusal (layout_by number n m) s.now (length values.old) (length present.old)) (map present_in (decode_all (layout_by number n m) 0 s.now)) present.old }
{
    let plan = other_plan(number, n, m);
    decode_after(
        check_other(s, number, n, m),
        s,
        plan.layout(),
        values,
        present,
    )
}

// What the fields of a message of that layout say, into the first places of both buffers; or why not: as check_by, then 6 ROOM.
#[tactic(auto, unfolding(layout_tables::specs::Inner::layout_by, layout_tables::specs::Layouts::layout_of))]
pub fn decode_by(
    s: &[u8],
    number: u64,
    n: usize,
    m: usize,
    values: &mut [i64],
    present: &mut [u8],
) -> Result<(), Refusal>
    ensures answer { outcome_number result ≡ decode_refusal (layout_by number n m) s.now (length values.old) (length present.old) }
    ensures values { values.new ≡ stored (decode_refusal (layout_by number n m) s.now (length values.old) (length present.old)) (map value_in (decode_all (layout_by number n m) 0 s.now)) values.old }
    ensures present { present.new ≡ stored (decode_refusal (layout_by number n m) s.now (length values.old) (length present.old)) (map present_in (decode_all (layout_by number n m) 0 s.now)) present.old }
{
    match number {
        1023 => layout_tables::decode_1023(s, values, present),
        1024 => layout_tables::decode_1024(s, values, present),
        1025 => decode_after(check_1025(s), s, &LAYOUT_1025, values, present),
        1026 => decode_after(check_1026(s), s, &LAYOUT_1026, values, present),
        1027 => decode_after(check_1027(s), s, &LAYOUT_1027, values, present),
        _ => decode_other(s, number, n, m, values, present),
    }
}

// The entries of a layout that no counter changes.
#[tactic(auto, unfolding(layout_tables::specs::Inner::layout_by, layout_tables::specs::Layouts::layout_of, layout_tables::specs::Layouts::layout1023, layout_tables::specs::Layouts::layout1024, layout_tables::specs::Layouts::layout1025, layout_tables::specs::Layouts::layout1026, layout_tables::specs::Layouts::layout1027))]
fn table(number: u64) -> Option<&'static [u64]>
    ensures { MatchOption result (Other number) (λ t. (n m : ℕ) → layout_by number n m ≡ t.now) }
{
    match number {
        1023 => Some(&layout_tables::LAYOUT_1023),
        1024 => Some(&layout_tables::LAYOUT_1024),
        1025 => Some(&LAYOUT_1025),
        1026 => Some(&LAYOUT_1026),
        1027 => Some(&LAYOUT_1027),
        _ => None,
    }
}

// Whether each field of that layout takes its place of a row.
pub fn taken_by(number: u64, n: usize, m: usize, values: &[i64], present: &[u8]) -> bool
    ensures { result ≡ row_takes (layout_by number n m) values.now present.now }
{
    match table(number) {
        Some(entries) => layout_writer::row_taken(entries, values, present),
        None => layout_writer::row_taken(other_plan(number, n, m).layout(), values, present),
    }
}

// The message of a row of that layout in the first bytes of out, or RANGE, ROOM.
pub fn encode_by(
    number: u64,
    n: usize,
    m: usize,
    values: &[i64],
    present: &[u8],
    out: &mut [u8],
) -> Result<usize, Refusal>
    ensures answer { as_written result ≡ answered (encode_refusal (layout_by number n m) values.now present.now (length out.old)) (encode_all (layout_by number n m) (row_of values.now present.now)) }
    ensures output { out.new ≡ stored (encode_refusal (layout_by number n m) values.now present.now (length out.old)) (encode_all (layout_by number n m) (row_of values.now present.now)) out.old }
{
    match table(number) {
        Some(entries) => layout_writer::encode(entries, values, present, out),
        None => layout_writer::encode(other_plan(number, n, m).layout(), values, present, out),
    }
}
