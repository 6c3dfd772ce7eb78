// The records of messages 1023 and 1024, from a row in wire order and back.
#![tactic(auto)]

ghost use Rattle.std.specs.Prelude.{◌≡◌, true, ◌++◌, ◌+◌, ◌≤◌, length, replicate};
ghost use Rattle.layout.specs.Layout.{row_of};
ghost use Rattle.record_rows.specs.Numbers.{says, values_of, present_of};
ghost use Rattle.record_rows.specs.Inner.{buffers, numbers};
ghost use Rattle.record_rows.specs.Private.{Appended};
ghost use Rattle.record_grids.specs.Grids.{origin_at, spacing_at, shifts_at, shifts_row, nodes_at, nodes_row, grid_of, grid_row, settings_of};
ghost use Rattle.record_grids.specs.Private.{start_row, end_row};

use record_rows::{Pair, Row};

// The middle of a grid, north-south and east-west: DF192 and DF193 in a 1023, DF202 and DF203 in a 1024.
#[derive(Clone, Copy)]
pub struct Origin {
    pub north: Option<i64>, // DF192, DF202
    pub east: Option<i64>, // DF193, DF203
}

// The spacing of neighbouring nodes, north-south and east-west.
#[derive(Clone, Copy)]
pub struct Spacing {
    pub north: i64, // DF194, DF204
    pub east: i64, // DF195, DF205
}

// A shift of three components: the mean, DF196 to DF198 or DF206 to DF208, or a node.
#[derive(Clone, Copy)]
pub struct Shifts {
    pub north: Option<i64>, // DF196, DF206; of a node DF199, DF209
    pub east: Option<i64>, // DF197, DF207; of a node DF200, DF210
    pub height: Option<i64>, // DF198, DF208; of a node DF201, DF211
}

// 1023 and 1024. Nodes 1 to 16 stand in rows of four, west to east, the northern row first.
#[derive(Clone, Copy)]
pub struct Grid {
    pub number: i64, // DF002
    pub sin: i64, // DF147
    pub indicators: Pair, // DF190, DF191
    pub origin: Origin,
    pub spacing: Spacing,
    pub mean: Shifts,
    pub nodes: [Shifts; 16],
    pub methods: Pair, // DF212, DF213
    pub quality: Pair, // DF216, DF217
    pub day: i64, // DF051
}

// What a grid says besides its shifts, its quality and its day.
#[derive(Clone, Copy)]
pub struct Settings {
    pub number: i64, // DF002
    pub indicators: Pair, // DF190, DF191
    pub origin: Origin,
    pub spacing: Spacing,
    pub methods: Pair, // DF212, DF213
}

fn origin_at(values: &[i64; 96], present: &[u8; 96], k: usize) -> Origin
    requires { k + 2 ≤ 96 }
    ensures { result ≡ origin_at (says (row_of values.now present.now)) k }
{
    Origin {
        north: record_rows::says_at(values, present, k),
        east: record_rows::says_at(values, present, k + 1),
    }
}

fn spacing_at(values: &[i64; 96], present: &[u8; 96], k: usize) -> Spacing
    requires { k + 2 ≤ 96 }
    ensures { result ≡ spacing_at (says (row_of values.now present.now)) k }
{
    Spacing {
        north: record_rows::number_at(values, present, k),
        east: record_rows::number_at(values, present, k + 1),
    }
}

fn shifts_at(values: &[i64; 96], present: &[u8; 96], k: usize) -> Shifts
    requires { k + 3 ≤ 96 }
    ensures { result ≡ shifts_at (says (row_of values.now present.now)) k }
{
    Shifts {
        north: record_rows::says_at(values, present, k),
        east: record_rows::says_at(values, present, k + 1),
        height: record_rows::says_at(values, present, k + 2),
    }
}

fn nodes_at(values: &[i64; 96], present: &[u8; 96], k: usize) -> [Shifts; 16]
    requires { k + 48 ≤ 96 }
    ensures { result ≡ nodes_at (says (row_of values.now present.now)) k }
{
    let mut nodes = [Shifts {
        north: Some(0),
        east: Some(0),
        height: Some(0),
    }; 16];
    for i in 0..16 {
        nodes[i] = shifts_at(values, present, k + 3 * i);
    }
    nodes
}

// 1023 or 1024 from the row of a message.
pub fn grid_of(values: &[i64; 96], present: &[u8; 96]) -> Grid
    ensures { result ≡ grid_of (says (row_of values.now present.now)) }
{
    Grid {
        number: record_rows::number_at(values, present, 0),
        sin: record_rows::number_at(values, present, 1),
        indicators: record_rows::pair_at(values, present, 2),
        origin: origin_at(values, present, 4),
        spacing: spacing_at(values, present, 6),
        mean: shifts_at(values, present, 8),
        nodes: nodes_at(values, present, 11),
        methods: record_rows::pair_at(values, present, 59),
        quality: record_rows::pair_at(values, present, 61),
        day: record_rows::number_at(values, present, 63),
    }
}

// A node into both buffers from place `at` on: the place behind it.
fn append_shifts(values: &mut [i64], present: &mut [u8], at: usize, r: Shifts) -> usize
    requires { (at + 3 ≤ length values.old) × (at + 3 ≤ length present.old) }
    ensures values { Appended values.old at (values_of (shifts_row r)) result values.new }
    ensures present { Appended present.old at (present_of (shifts_row r)) result present.new }
{
    let places = [r.north, r.east, r.height];
    record_rows::append(values, at, &places.map(layout::value_in));
    record_rows::append(present, at, &places.map(layout::present_in))
}

// The nodes into both buffers from place `at` on: the place behind them.
fn append_nodes(values: &mut [i64], present: &mut [u8], at: usize, nodes: &[Shifts; 16]) -> usize
    requires { (at + 48 ≤ length values.old) × (at + 48 ≤ length present.old) }
    ensures values { Appended values.old at (values_of (nodes_row nodes.now)) result values.new }
    ensures present { Appended present.old at (present_of (nodes_row nodes.now)) result present.new }
    ensures place { result ≤ at + 48 }
{
    let mut place = at;
    for node in nodes {
        place = append_shifts(values, present, place, *node);
    }
    place
}

// What the places of a grid before its nodes say.
#[tactic(auto, unfolding(record_rows::specs::Numbers::pair_row, crate::specs::Grids::origin_row, crate::specs::Grids::spacing_row, crate::specs::Grids::shifts_row))]
fn start_row(
    number: i64,
    sin: i64,
    indicators: Pair,
    origin: Origin,
    spacing: Spacing,
    mean: Shifts,
) -> [Option<i64>; 11]
    ensures { result ≡ start_row number sin indicators origin spacing mean }
{
    [
        Some(number),
        Some(sin),
        Some(indicators.horizontal),
        Some(indicators.vertical),
        origin.north,
        origin.east,
        Some(spacing.north),
        Some(spacing.east),
        mean.north,
        mean.east,
        mean.height,
    ]
}

// The values of a grid behind its nodes.
fn end_row(methods: Pair, quality: Pair, day: i64) -> [i64; 5]
    ensures { result ≡ values_of (end_row methods quality day) }
{
    [
        methods.horizontal,
        methods.vertical,
        quality.horizontal,
        quality.vertical,
        day,
    ]
}

// The nodes between the values before and behind them. All behind them are present.
fn numbers_around(start: &[i64], presence: &[u8], nodes: &[Shifts; 16], end: &[i64]) -> Option<Row>
    requires { (length start.now ≡ length presence.now) × (length start.now + length end.now ≤ 48) }
    ensures { result ≡ buffers true (start.now ++ values_of (nodes_row nodes.now) ++ end.now) (presence.now ++ present_of (nodes_row nodes.now) ++ replicate (length end.now) 1) }
{
    let mut values = [0i64; 96];
    let mut present = [1u8; 96];
    record_rows::append(&mut values, 0, start);
    let a = record_rows::append(&mut present, 0, presence);
    let b = append_nodes(&mut values, &mut present, a, nodes);
    let count = record_rows::append(&mut values, b, end);
    Some(Row {
        count,
        values,
        present,
    })
}

// The row of a 1023 or 1024.
pub fn grid_row(r: Grid) -> Option<Row>
    ensures { result ≡ numbers true (grid_row r) }
{
    let start = start_row(r.number, r.sin, r.indicators, r.origin, r.spacing, r.mean);
    numbers_around(
        &start.map(layout::value_in),
        &start.map(layout::present_in),
        &r.nodes,
        &end_row(r.methods, r.quality, r.day),
    )
}

// What a grid says besides its shifts, its quality and its day.
pub fn settings_of(r: Grid) -> Settings
    ensures { result ≡ settings_of r }
{
    Settings {
        number: r.number,
        indicators: r.indicators,
        origin: r.origin,
        spacing: r.spacing,
        methods: r.methods,
    }
}
