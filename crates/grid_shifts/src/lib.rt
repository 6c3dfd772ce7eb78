// The shift at a position from a grid message, 1023 or 1024.
#![tactic(auto)]

ghost use Rattle.std.specs.Prelude.{◌≡◌, ◌≤◌, ℤ, pos, nat_abs};
ghost use Rattle.grid_shifts.specs.Shift.{part, node_of, answer_of, outcome, float_of, three_of, message_shifts};
ghost use Rattle.grid_shifts.specs.Inner.{record_shifts};
ghost use Rattle.grid_shifts.specs.Private.{nodes_in, cell_shift, part_shift};

use arith::refusals::{Refusal, outcome_number};
use grid_cell::Weights;
use grid_fields::Nodes;
use record_grids::{Grid, Shifts};

// What the add-on gets: arc seconds, metres, or the refusal number.
#[derive(Clone, Copy)]
pub enum Answer {
    Seconds(f64),
    Metres(f64),
    Refused(u8),
}

// One part, the shift of a component: a refusal number, or 0 with the shift in counts; and the same as the add-on gets it.
#[derive(Clone, Copy)]
pub struct Shift {
    pub refusal: u8,
    pub count: i64,
    pub answer: Answer,
}

// The three parts, component by component.
#[derive(Clone, Copy)]
pub struct Components {
    pub north: Shift,
    pub east: Shift,
    pub height: Shift,
}

// The three shifts in arc seconds or metres, 0.0 where a part is refused, and their counts, refusal numbers and second answers.
#[derive(Clone, Copy)]
pub struct ThreeShifts {
    pub north: f64,
    pub east: f64,
    pub height: f64,
    pub parts: Components,
}

// A refusal, with a count of 0.
fn refused(refusal: u8) -> Shift
    ensures { (result.refusal ≡ refusal) × (result.count ≡ pos 0) × (result.answer ≡ Answer.Refused refusal) }
{
    Shift {
        refusal,
        count: 0,
        answer: Answer::Refused(refusal),
    }
}

// The second answer for a count.
fn answer_of(number: i64, component: u8, count: i64) -> Answer
    requires { nat_abs count ≤ 9007199254740992 }
    ensures { result ≡ answer_of number component 0 count }
{
    if number == 1023 && component < 2 {
        return Answer::Seconds(count as f64 / 100000.0);
    }
    Answer::Metres(count as f64 / 10000.0)
}

// ABSENT, or the shift at a place.
fn cell_shift(number: i64, component: u8, mean: Option<i64>, n: Nodes, k: Weights) -> Shift
    ensures { result ≡ cell_shift number component mean n k }
{
    let c = grid_counts::cell_count(number, component, mean, n, k);
    if c.refusal != 0 {
        return refused(c.refusal);
    }
    Shift {
        refusal: 0,
        count: c.count,
        answer: answer_of(number, component, c.count),
    }
}

// One part: the refusal of the position, or the shift at its place.
fn part_shift(
    number: i64,
    component: u8,
    refusal: u8,
    mean: Option<i64>,
    n: Nodes,
    k: Weights,
) -> Shift
    ensures { result ≡ part_shift number component refusal mean n k }
{
    if refusal != 0 {
        return refused(refusal);
    }
    cell_shift(number, component, mean, n, k)
}

// What a second answer reads as a float: 0.0 where it is a refusal.
fn float_of(a: Answer) -> f64
    ensures { result ≡ float_of a }
{
    match a {
        Answer::Seconds(x) | Answer::Metres(x) => x,
        Answer::Refused(_) => 0.0,
    }
}

// The three parts as one answer.
fn three_of(n: Shift, e: Shift, h: Shift) -> ThreeShifts
    ensures { result ≡ three_of n e h }
{
    ThreeShifts {
        north: float_of(n.answer),
        east: float_of(e.answer),
        height: float_of(h.answer),
        parts: Components {
            north: n,
            east: e,
            height: h,
        },
    }
}

// The same refusal of all three.
fn all_refused(refusal: u8) -> ThreeShifts
    requires { refusal ≡ 0 → ⊥ }
    ensures { (z : ℤ) → result ≡ three_of (outcome z 0 refusal (pos 0)) (outcome z 1 refusal (pos 0)) (outcome z 2 refusal (pos 0)) }
{
    let r = refused(refusal);
    three_of(r, r, r)
}

// The component of a shift.
fn part_of(component: u8, s: Shifts) -> Option<i64>
    ensures { result ≡ part component s }
{
    match component {
        0 => s.north,
        1 => s.east,
        _ => s.height,
    }
}

// What node i from the north and j from the west says in a record.
fn node_of(nodes: [Shifts; 16], component: u8, i: u64, j: u64) -> Option<i64>
    requires { (i ≤ 3) × (j ≤ 3) }
    ensures { result ≡ node_of nodes component i j }
{
    part_of(component, nodes[(4 * i + j) as usize])
}

// What the nodes of the cell k from the south and l from the west say in a record.
fn nodes_of(nodes: [Shifts; 16], component: u8, k: u64, l: u64) -> Nodes
    requires { (k ≤ 2) × (l ≤ 2) }
    ensures { result ≡ nodes_in nodes component k l }
{
    Nodes {
        sw: node_of(nodes, component, 3 - k, l),
        se: node_of(nodes, component, 3 - k, l + 1),
        nw: node_of(nodes, component, 2 - k, l),
        ne: node_of(nodes, component, 2 - k, l + 1),
    }
}

// The three shifts at a position from a message's bytes.
pub fn shifts_at(message: &[u8], north: i64, east: i64) -> ThreeShifts
    ensures { result ≡ message_shifts message.now north east }
{
    let refusal = outcome_number(message_rows::check_kind(message, 1023, 1024));
    if refusal != 0 {
        return all_refused(refusal);
    }
    // Never so: that the bytes are there spares the compiler a test at each field.
    if message.len() < 71 {
        return all_refused(Refusal::Length as u8);
    }
    let f = grid_fields::settings_at(message);
    let number = f.number;
    let p = grid_place::locate_both(f, north, east);
    let t = p.place;
    let k = grid_cell::weights_in(t.height, t.width, t.north, t.east);
    let n = grid_fields::cells_at(message, t.row, t.column);
    let m = grid_fields::means_at(message);
    three_of(
        part_shift(number, 0, p.horizontal, m.north, n.north, k),
        part_shift(number, 1, p.horizontal, m.east, n.east, k),
        part_shift(number, 2, p.vertical, m.height, n.height, k),
    )
}

// The same from a record; RANGE where no grid message holds it.
pub fn shifts_of(grid: Grid, north: i64, east: i64) -> ThreeShifts
    ensures { result ≡ record_shifts grid north east }
{
    if !message_records::grid_held(grid) {
        return all_refused(Refusal::Range as u8);
    }
    let settings = record_grids::settings_of(grid);
    let number = settings.number;
    let p = grid_place::locate_both(settings, north, east);
    let t = p.place;
    let k = grid_cell::weights_in(t.height, t.width, t.north, t.east);
    let nodes = grid.nodes;
    let a = nodes_of(nodes, 0, t.row, t.column);
    let b = nodes_of(nodes, 1, t.row, t.column);
    let c = nodes_of(nodes, 2, t.row, t.column);
    three_of(
        part_shift(number, 0, p.horizontal, part_of(0, grid.mean), a, k),
        part_shift(number, 1, p.horizontal, part_of(1, grid.mean), b, k),
        part_shift(number, 2, p.vertical, part_of(2, grid.mean), c, k),
    )
}
