// The records of messages 1021 and 1022, from a row in wire order.
#![tactic(auto)]

ghost use Rattle.std.specs.Prelude.{◌≡◌, ◌+◌, ◌%◌, ◌≤◌, ◌<◌};
ghost use Rattle.arith.specs.Whole.{natural};
ghost use Rattle.layout.specs.Layout.{row_of};
ghost use Rattle.record_rows.specs.Numbers.{says, number_at, counter_at};
ghost use Rattle.record_transformations.specs.Transformations.{name_at, system_at, area_at, parameters_at, point_at, ellipsoids_at, behind_names, helmert_of, molodenski_badekas_of};

use record_rows::Pair;

// DF143 and DF144, or DF145 and DF146: a length of 0 to 31; the unused characters are zero.
#[derive(Clone, Copy)]
pub struct Name {
    pub length: usize, // DF143, DF145
    pub chars: [u8; 31], // DF144, DF146
}

// The system that a transformation is of.
#[derive(Clone, Copy)]
pub struct System {
    pub sin: i64, // DF147
    pub messages: i64, // DF148
    pub plate: i64, // DF149
    pub computation: i64, // DF150
    pub height: i64, // DF151
}

// The area of validity: its origin and its extension from there.
#[derive(Clone, Copy)]
pub struct Area {
    pub latitude: Option<i64>, // DF152
    pub longitude: Option<i64>, // DF153
    pub north: i64, // DF154
    pub east: i64, // DF155
}

// Translation, rotation and scale.
#[derive(Clone, Copy)]
pub struct Parameters {
    pub dx: Option<i64>, // DF156
    pub dy: Option<i64>, // DF157
    pub dz: Option<i64>, // DF158
    pub rx: Option<i64>, // DF159
    pub ry: Option<i64>, // DF160
    pub rz: Option<i64>, // DF161
    pub ds: Option<i64>, // DF162
}

// The rotation point.
#[derive(Clone, Copy)]
pub struct RotationPoint {
    pub x: Option<i64>, // DF163
    pub y: Option<i64>, // DF164
    pub z: Option<i64>, // DF165
}

// The axes of the source and of the target ellipsoid.
#[derive(Clone, Copy)]
pub struct Ellipsoids {
    pub source_major: i64, // DF166
    pub source_minor: i64, // DF167
    pub target_major: i64, // DF168
    pub target_minor: i64, // DF169
}

// 1021.
#[derive(Clone, Copy)]
pub struct Helmert {
    pub number: i64, // DF002
    pub source: Name, // DF143, DF144
    pub target: Name, // DF145, DF146
    pub system: System,
    pub area: Area,
    pub parameters: Parameters,
    pub ellipsoids: Ellipsoids,
    pub quality: Pair, // DF214, DF215
}

// 1022.
#[derive(Clone, Copy)]
pub struct MolodenskiBadekas {
    pub number: i64, // DF002
    pub source: Name, // DF143, DF144
    pub target: Name, // DF145, DF146
    pub system: System,
    pub area: Area,
    pub parameters: Parameters,
    pub point: RotationPoint,
    pub ellipsoids: Ellipsoids,
    pub quality: Pair, // DF214, DF215
}

// The character at place k.
fn char_at(values: &[i64], present: &[u8], k: usize) -> u8
    ensures { result ≡ natural (number_at (says (row_of values.now present.now)) k) % 256 }
{
    (record_rows::natural_at(values, present, k) % 256) as u8
}

fn name_at(values: &[i64], present: &[u8], k: usize) -> Name
    requires { k < 64 }
    ensures { result ≡ name_at (says (row_of values.now present.now)) k }
{
    let length = record_rows::counter_at(values, present, k);
    let mut chars = [0u8; 31];
    for j in 0..length {
        chars[j] = char_at(values, present, k + 1 + j);
    }
    Name { length, chars }
}

fn system_at(values: &[i64], present: &[u8], k: usize) -> System
    requires { k + 5 ≤ 96 }
    ensures { result ≡ system_at (says (row_of values.now present.now)) k }
{
    System {
        sin: record_rows::number_at(values, present, k),
        messages: record_rows::number_at(values, present, k + 1),
        plate: record_rows::number_at(values, present, k + 2),
        computation: record_rows::number_at(values, present, k + 3),
        height: record_rows::number_at(values, present, k + 4),
    }
}

fn area_at(values: &[i64], present: &[u8], k: usize) -> Area
    requires { k + 4 ≤ 96 }
    ensures { result ≡ area_at (says (row_of values.now present.now)) k }
{
    Area {
        latitude: record_rows::says_at(values, present, k),
        longitude: record_rows::says_at(values, present, k + 1),
        north: record_rows::number_at(values, present, k + 2),
        east: record_rows::number_at(values, present, k + 3),
    }
}

fn parameters_at(values: &[i64], present: &[u8], k: usize) -> Parameters
    requires { k + 7 ≤ 96 }
    ensures { result ≡ parameters_at (says (row_of values.now present.now)) k }
{
    Parameters {
        dx: record_rows::says_at(values, present, k),
        dy: record_rows::says_at(values, present, k + 1),
        dz: record_rows::says_at(values, present, k + 2),
        rx: record_rows::says_at(values, present, k + 3),
        ry: record_rows::says_at(values, present, k + 4),
        rz: record_rows::says_at(values, present, k + 5),
        ds: record_rows::says_at(values, present, k + 6),
    }
}

fn point_at(values: &[i64], present: &[u8], k: usize) -> RotationPoint
    requires { k + 3 ≤ 96 }
    ensures { result ≡ point_at (says (row_of values.now present.now)) k }
{
    RotationPoint {
        x: record_rows::says_at(values, present, k),
        y: record_rows::says_at(values, present, k + 1),
        z: record_rows::says_at(values, present, k + 2),
    }
}

fn ellipsoids_at(values: &[i64], present: &[u8], k: usize) -> Ellipsoids
    requires { k + 4 ≤ 96 }
    ensures { result ≡ ellipsoids_at (says (row_of values.now present.now)) k }
{
    Ellipsoids {
        source_major: record_rows::number_at(values, present, k),
        source_minor: record_rows::number_at(values, present, k + 1),
        target_major: record_rows::number_at(values, present, k + 2),
        target_minor: record_rows::number_at(values, present, k + 3),
    }
}

// The name behind the first one.
fn target_of(values: &[i64], present: &[u8]) -> Name
    ensures { result ≡ name_at (says (row_of values.now present.now)) (2 + counter_at (says (row_of values.now present.now)) 1) }
{
    let n = record_rows::counter_at(values, present, 1);
    name_at(values, present, 2 + n)
}

// Where the fields behind both names begin.
fn behind_names(values: &[i64], present: &[u8]) -> usize
    ensures value { result ≡ behind_names (says (row_of values.now present.now)) }
    ensures upper_bound { result ≤ 65 }
{
    let n = record_rows::counter_at(values, present, 1);
    let m = record_rows::counter_at(values, present, 2 + n);
    3 + n + m
}

// 1021 from the row of a message.
pub fn helmert_of(values: &[i64; 96], present: &[u8; 96]) -> Helmert
    ensures { result ≡ helmert_of (says (row_of values.now present.now)) }
{
    let b = behind_names(values, present);
    Helmert {
        number: record_rows::number_at(values, present, 0),
        source: name_at(values, present, 1),
        target: target_of(values, present),
        system: system_at(values, present, b),
        area: area_at(values, present, b + 5),
        parameters: parameters_at(values, present, b + 9),
        ellipsoids: ellipsoids_at(values, present, b + 16),
        quality: record_rows::pair_at(values, present, b + 20),
    }
}

// 1022 from the row of a message.
pub fn molodenski_badekas_of(values: &[i64; 96], present: &[u8; 96]) -> MolodenskiBadekas
    ensures { result ≡ molodenski_badekas_of (says (row_of values.now present.now)) }
{
    let b = behind_names(values, present);
    MolodenskiBadekas {
        number: record_rows::number_at(values, present, 0),
        source: name_at(values, present, 1),
        target: target_of(values, present),
        system: system_at(values, present, b),
        area: area_at(values, present, b + 5),
        parameters: parameters_at(values, present, b + 9),
        point: point_at(values, present, b + 16),
        ellipsoids: ellipsoids_at(values, present, b + 19),
        quality: record_rows::pair_at(values, present, b + 23),
    }
}
