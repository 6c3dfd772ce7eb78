// The seven layouts as definitions and laws, and how the code's tables write an entry: range * 128 + signed * 64 + width.
#![tactic(auto)]

ghost use Rattle.std.specs.Prelude.{◌≡◌, ◌+◌, ◌*◌, ◌≤◌, ◌++◌, map, length, take, drop};
ghost use Rattle.arith.specs.Refusals.{outcome_number};
ghost use Rattle.layout.specs.Layout.{as_written, total, decode_all, value_in, present_in, stored};
ghost use Rattle.layout.specs.Inner.{refusal_of, decode_refusal};
ghost use Rattle.layout_tables.specs.Layouts.{points, layout1023, layout1024};
ghost use Rattle.layout_tables.specs.Private.{nodes, behind};

use arith::refusals::Refusal;

pub const DECLARED: u64 = 128;

pub const INT: u64 = 64;

// Messages 1023 and 1024 checked, read and written by their layouts.

// DF199, DF200 and DF201, or DF209, DF210 and DF211.
const NODE: u64 = INT + 9;

// DF192 and DF193: the origin of the grids.
const GRID_LATITUDE: u64 = 648000 * DECLARED + INT + 21;

const GRID_LONGITUDE: u64 = 1296000 * DECLARED + INT + 22;

pub const LAYOUT_1023: [u64; 64] = [
    12, // DF002
    8, // DF147
    1, // DF190
    1, // DF191
    GRID_LATITUDE,
    GRID_LONGITUDE,
    12, // DF194
    12, // DF195
    INT + 8, // DF196
    INT + 8, // DF197
    INT + 15, // DF198
    NODE,
    NODE,
    NODE, // node 1
    NODE,
    NODE,
    NODE, // node 2
    NODE,
    NODE,
    NODE, // node 3
    NODE,
    NODE,
    NODE, // node 4
    NODE,
    NODE,
    NODE, // node 5
    NODE,
    NODE,
    NODE, // node 6
    NODE,
    NODE,
    NODE, // node 7
    NODE,
    NODE,
    NODE, // node 8
    NODE,
    NODE,
    NODE, // node 9
    NODE,
    NODE,
    NODE, // node 10
    NODE,
    NODE,
    NODE, // node 11
    NODE,
    NODE,
    NODE, // node 12
    NODE,
    NODE,
    NODE, // node 13
    NODE,
    NODE,
    NODE, // node 14
    NODE,
    NODE,
    NODE, // node 15
    NODE,
    NODE,
    NODE, // node 16
    2, // DF212
    2, // DF213
    3, // DF216
    3, // DF217
    16, // DF051
];

pub const LAYOUT_1024: [u64; 64] = [
    12, // DF002
    8, // DF147
    1, // DF190
    1, // DF191
    INT + 25, // DF202
    26, // DF203
    12, // DF204
    12, // DF205
    INT + 10, // DF206
    INT + 10, // DF207
    INT + 15, // DF208
    NODE,
    NODE,
    NODE, // node 1
    NODE,
    NODE,
    NODE, // node 2
    NODE,
    NODE,
    NODE, // node 3
    NODE,
    NODE,
    NODE, // node 4
    NODE,
    NODE,
    NODE, // node 5
    NODE,
    NODE,
    NODE, // node 6
    NODE,
    NODE,
    NODE, // node 7
    NODE,
    NODE,
    NODE, // node 8
    NODE,
    NODE,
    NODE, // node 9
    NODE,
    NODE,
    NODE, // node 10
    NODE,
    NODE,
    NODE, // node 11
    NODE,
    NODE,
    NODE, // node 12
    NODE,
    NODE,
    NODE, // node 13
    NODE,
    NODE,
    NODE, // node 14
    NODE,
    NODE,
    NODE, // node 15
    NODE,
    NODE,
    NODE, // node 16
    2, // DF212
    2, // DF213
    3, // DF216
    3, // DF217
    16, // DF051
];

// The number of fields before the grid points.
const HEAD: usize = 11;

// The fields behind the grid points: DF212, DF213, DF216, DF217 and DF051.
const TAIL: [u64; 5] = [2, 2, 3, 3, 16];

// Why s is no message of a layout: its bits, then its fields with a declared range.
pub fn check_1023(s: &[u8]) -> Result<(), Refusal>
    ensures { outcome_number result ≡ refusal_of layout1023 s.now }
{
    let r = layout::check_size(s, 578);
    let r = layout::check_place_after(r, s, 22, GRID_LATITUDE);
    layout::check_place_after(r, s, 43, GRID_LONGITUDE)
}

pub fn check_1024(s: &[u8]) -> Result<(), Refusal>
    ensures { outcome_number result ≡ refusal_of layout1024 s.now }
{
    layout::check_size(s, 590)
}

// What the grid points from bit p on say, into their places of a row.
fn read_points(s: &[u8], p: usize, values: &mut [i64], present: &mut [u8])
    requires { (p ≤ 1000) × ((p + 432 ≤ 8 * length s.now) × ((59 ≤ length values.old) × (59 ≤ length present.old))) }
    ensures values { values.new ≡ take 11 values.old ++ (map value_in (decode_all nodes p s.now) ++ drop 59 values.old) }
    ensures present { present.new ≡ take 11 present.old ++ (map present_in (decode_all nodes p s.now) ++ drop 59 present.old) }
{
    layout_reader::read_times(s, p, NODE, &mut values[11..59], &mut present[11..59]);
}

// The same of the fields behind them.
fn read_tail(s: &[u8], p: usize, values: &mut [i64], present: &mut [u8])
    requires { (p ≤ 2000) × ((p + 26 ≤ 8 * length s.now) × ((64 ≤ length values.old) × (64 ≤ length present.old))) }
    ensures values { values.new ≡ take 59 values.old ++ (map value_in (decode_all behind p s.now) ++ drop 64 values.old) }
    ensures present { present.new ≡ take 59 present.old ++ (map present_in (decode_all behind p s.now) ++ drop 64 present.old) }
{
    layout_reader::read(s, p, &TAIL, &mut values[59..64], &mut present[59..64]);
}

// The fields of a grid message, whose p first bits are those of `head`.
fn read_grid(s: &[u8], head: &[u64], p: usize, values: &mut [i64], present: &mut [u8])
    requires { ((length head.now ≡ 11) × ((total head.now ≡ p) × (p ≤ 1000))) × ((p + 458 ≤ 8 * length s.now) × ((64 ≤ length values.old) × (64 ≤ length present.old))) }
    ensures values { values.new ≡ map value_in (decode_all (head.now ++ points) 0 s.now) ++ drop 64 values.old }
    ensures present { present.new ≡ map present_in (decode_all (head.now ++ points) 0 s.now) ++ drop 64 present.old }
{
    layout_reader::read(s, 0, head, values, present);
    read_points(s, p, values, present);
    read_tail(s, p + 432, values, present);
}

// What the fields of a grid message say; or why s is no such message, or ROOM.
fn decode_grid(
    checked: Result<(), Refusal>,
    s: &[u8],
    head: &[u64],
    p: usize,
    values: &mut [i64],
    present: &mut [u8],
) -> Result<(), Refusal>
    requires { (outcome_number checked ≡ refusal_of (head.now ++ points) s.now) × ((length head.now ≡ 11) × ((total head.now ≡ p) × (p ≤ 1000))) }
    ensures answer { outcome_number result ≡ decode_refusal (head.now ++ points) s.now (length values.old) (length present.old) }
    ensures values { values.new ≡ stored (decode_refusal (head.now ++ points) s.now (length values.old) (length present.old)) (map value_in (decode_all (head.now ++ points) 0 s.now)) values.old }
    ensures present { present.new ≡ stored (decode_refusal (head.now ++ points) s.now (length values.old) (length present.old)) (map present_in (decode_all (head.now ++ points) 0 s.now)) present.old }
{
    checked?;
    if values.len() < 64 {
        return Err(Refusal::Room);
    }
    if present.len() < 64 {
        return Err(Refusal::Room);
    }
    read_grid(s, head, p, values, present);
    Ok(())
}

// As decode_by, of one layout.
pub fn decode_1023(s: &[u8], values: &mut [i64], present: &mut [u8]) -> Result<(), Refusal>
    ensures answer { outcome_number result ≡ decode_refusal layout1023 s.now (length values.old) (length present.old) }
    ensures values { values.new ≡ stored (decode_refusal layout1023 s.now (length values.old) (length present.old)) (map value_in (decode_all layout1023 0 s.now)) values.old }
    ensures present { present.new ≡ stored (decode_refusal layout1023 s.now (length values.old) (length present.old)) (map present_in (decode_all layout1023 0 s.now)) present.old }
{
    decode_grid(check_1023(s), s, &LAYOUT_1023[..HEAD], 120, values, present)
}

pub fn decode_1024(s: &[u8], values: &mut [i64], present: &mut [u8]) -> Result<(), Refusal>
    ensures answer { outcome_number result ≡ decode_refusal layout1024 s.now (length values.old) (length present.old) }
    ensures values { values.new ≡ stored (decode_refusal layout1024 s.now (length values.old) (length present.old)) (map value_in (decode_all layout1024 0 s.now)) values.old }
    ensures present { present.new ≡ stored (decode_refusal layout1024 s.now (length values.old) (length present.old)) (map present_in (decode_all layout1024 0 s.now)) present.old }
{
    decode_grid(check_1024(s), s, &LAYOUT_1024[..HEAD], 132, values, present)
}
