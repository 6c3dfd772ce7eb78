// The refusal of a row of shifts at equal steps east.
#![tactic(auto)]

ghost use Rattle.std.specs.Prelude.{◌≡◌, not, cond, [], ◌∷◌, ◌+◌, ◌*◌, ◌-◌, ◌≤◌, ◌<◌, ltb, pos, ◌≤ℤ◌};
ghost use Rattle.arith.specs.First.{first};
ghost use Rattle.arith.specs.Lists.{all_below};
ghost use Rattle.grid_cell.specs.Private.{Within};
ghost use Rattle.grid_row_refusals.specs.ShiftRow.{east_at, any_beyond, misplaced, shift_row_refusal};
ghost use Rattle.grid_row_refusals.specs.Inner.{places_in, Greatest};
ghost use Rattle.grid_row_refusals.specs.Private.{lacking_at, Ready, Looked, first_refused};

use arith::refusals::{Refusal, outcome_number};
use grid_fields::Nodes;
use record_grids::Settings;

// Places of a row that stand in one cell, or one place outside: the refusal of the first of them refused, and how many they are.
#[derive(Clone, Copy)]
struct Run {
    refusal: u8,
    places: usize,
}

// How many of `left` places stand in a cell of width w, the first x steps from its western edge, and each a step further.
pub fn places_in(left: usize, w: u64, x: u64, step: u64) -> usize
    ensures number { result ≡ places_in left w x step }
    ensures greatest { Greatest left w x step result }
{
    if w < x {
        return 0;
    }
    if step == 0 {
        return left;
    }
    let more = (w - x) / step;
    if more < left as u64 {
        return more as usize + 1;
    }
    left
}

// ABSENT where one of so many places in a cell lacks a value, or 0: between the edges the same nodes have weight, and those of an edge too, so the first place and the second tell.
fn run_refusal(
    mean: Option<i64>,
    n: Nodes,
    h: u64,
    w: u64,
    y: u64,
    x: u64,
    step: u64,
    places: usize,
) -> u8
    requires { Within h w y x × (0 < places) × (x + (places - 1) * step ≤ w) }
    ensures { result ≡ cond (all_below (λ j. not (lacking_at mean n h w y (x + j * step))) places) 0 15 }
{
    if grid_counts::cell_lacks(mean, n, grid_cell::weights_in(h, w, y, x)) {
        return Refusal::Absent as u8;
    }
    if places < 2 {
        return 0;
    }
    if grid_counts::cell_lacks(mean, n, grid_cell::weights_in(h, w, y, x + step)) {
        return Refusal::Absent as u8;
    }
    0
}

// The places from `east` on that stand in its cell.
fn look(
    message: &[u8],
    f: Settings,
    component: u8,
    north: i64,
    east: i64,
    step: u64,
    left: usize,
) -> Run
    requires { Ready message.now f north east step left × (0 < left) }
    ensures { Looked message.now component north east step 0 left result }
{
    let p = grid_place::locate(f, component, north, east);
    let refusal = p.refusal;
    if refusal != 0 {
        return Run { refusal, places: 1 };
    }
    let places = places_in(left, p.width, p.east, step);
    let mean = grid_fields::mean_at(message, component);
    let n = grid_fields::nodes_at(message, component, p.row, p.column);
    Run {
        refusal: run_refusal(mean, n, p.height, p.width, p.north, p.east, step, places),
        places,
    }
}

// The same from place i of a row on.
fn look_from(
    message: &[u8],
    f: Settings,
    component: u8,
    north: i64,
    east: i64,
    step: u64,
    i: usize,
    count: usize,
) -> Run
    requires { Ready message.now f north east step count × (i < count) }
    ensures { Looked message.now component north east step i (count - i) result }
{
    let t = east + (i as u64 * step) as i64;
    look(message, f, component, north, t, step, count - i)
}

// The refusal of the first place refused, or 0.
fn places_refusal(
    message: &[u8],
    f: Settings,
    component: u8,
    north: i64,
    east: i64,
    step: u64,
    count: usize,
) -> u8
    requires { Ready message.now f north east step count }
    ensures { result ≡ first_refused message.now component north east (pos step) 0 count }
{
    let mut i: usize = 0;
    // A while: the step is the length of the run.
    while i < count {
        let r = look_from(message, f, component, north, east, step, i, count);
        if r.refusal != 0 {
            return r.refusal;
        }
        i += r.places;
    }
    0
}

// POSITION where a place is past the limits, else 0: the first and the last place tell.
fn ends_refusal(component: u8, number: i64, north: i64, east: i64, step: i64, count: usize) -> u8
    requires { (component ≤ 2) × (0 < count) × (count ≤ 4096) × (pos 0 ≤ℤ step) }
    ensures { result ≡ cond (any_beyond number north east step count) 9 0 }
{
    if outcome_number(grid_refusals::position_refusal(component, number, north, east)) != 0 {
        return Refusal::Position as u8;
    }
    if count == 1 {
        return 0;
    }
    if 2000000000000 < step {
        return Refusal::Position as u8;
    }
    let last = east + (count - 1) as i64 * step;
    outcome_number(grid_refusals::position_refusal(component, number, north, last))
}

// COMPONENT, POSITION, or 0.
fn limits_refusal(component: u8, number: i64, north: i64, east: i64, step: i64, count: usize) -> u8
    ensures { result ≡ first ((8, ltb 2 component) ∷ (9, misplaced number north east step count) ∷ []) }
{
    if 2 < component {
        return Refusal::Component as u8;
    }
    if count == 0 {
        return Refusal::Position as u8;
    }
    if 4096 < count {
        return Refusal::Position as u8;
    }
    if step < 0 {
        return Refusal::Position as u8;
    }
    ends_refusal(component, number, north, east, step, count)
}

// The number of a row of shifts: of a message's bytes, a component, the position of the first place, the step east, the count of places, and the places of the buffer.
pub fn row_refusal(
    message: &[u8],
    component: u8,
    north: i64,
    east: i64,
    step: i64,
    count: usize,
    room: usize,
) -> u8
    ensures { result ≡ shift_row_refusal message.now component north east step count room }
{
    let kind = outcome_number(message_rows::check_kind(message, 1023, 1024));
    if kind != 0 {
        return kind;
    }
    let f = grid_fields::settings_at(message);
    let limits = limits_refusal(component, f.number, north, east, step, count);
    if limits != 0 {
        return limits;
    }
    let places = places_refusal(message, f, component, north, east, step as u64, count);
    if places != 0 {
        return places;
    }
    if room < count {
        return Refusal::Room as u8;
    }
    0
}
