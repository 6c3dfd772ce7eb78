// The place of a position in a grid: COMPONENT to OUTSIDE, or the cell and the steps in it.
#![tactic(auto)]

ghost use Rattle.std.specs.Prelude.{◌≡◌, true, not, cond, ◌&&◌, ◌*◌, ◌≤◌, leb, pos, nat_abs, ◌-ℤ◌, ◌*ℤ◌};
ghost use Rattle.std.specs.Int.Signed.{lt_z};
ghost use Rattle.arith.specs.First.{first};
ghost use Rattle.arith.specs.Whole.{natural};
ghost use Rattle.layout.specs.Layout.{value_in};
ghost use Rattle.grid_refusals.specs.Refusals.{ellipsoidal, field_tests};
ghost use Rattle.grid_place.specs.Position.{steps_of, by_turns, east_by};
ghost use Rattle.grid_place.specs.Inner.{no_place, place_of, located, spacing_held, settings_held, held_place, two_places_of, held_two_places};
ghost use Rattle.grid_place.specs.Private.{Fields};

use arith::refusals::{Refusal, outcome_number};
use record_grids::Settings;

// The number of the one refusal after which the height may have a place.
const OUTSIDE: u8 = Refusal::Outside as u8;

// A place in a grid: a refusal number, or 0 with its cell, the steps from the cell's southern and western edge, and the cell's height and width.
#[derive(Clone, Copy)]
pub struct Located {
    pub refusal: u8,
    pub row: u64,
    pub column: u64,
    pub north: u64,
    pub east: u64,
    pub height: u64,
    pub width: u64,
}

// What a position gives for the horizontal components, north-south and east-west, and for the height: their refusal numbers, and the place where one of these is 0.
#[derive(Clone, Copy)]
pub struct TwoPlaces {
    pub horizontal: u8,
    pub vertical: u8,
    pub place: Located,
}

// Steps in a unit of the origin and the spacing.
fn steps_of(number: i64) -> u64
    ensures { result ≡ steps_of number }
{
    if number == 1023 {
        return 5000;
    }
    10000
}

// A spacing in steps.
fn spacing_of(raw: i64, steps: u64) -> u64
    requires { (raw ≡ pos (natural raw)) × (natural raw ≤ 4095) × (steps ≤ 10000) }
    ensures { result ≡ natural raw * steps }
{
    raw as u64 * steps
}

// The difference position minus origin in steps.
fn difference(position: i64, origin: i64, steps: u64) -> i64
    requires { (nat_abs position ≤ 1000000000000) × (nat_abs origin ≤ 67108864) × (steps ≤ 10000) }
    ensures { result ≡ position -ℤ pos steps *ℤ origin }
{
    position - steps as i64 * origin
}

// A difference of longitudes brought to at least minus half a turn and less than half a turn: both longitudes are within half a turn, so one turn is enough.
fn by_turns(d: i64) -> i64
    requires { nat_abs d ≤ 12960000000 }
    ensures { result ≡ by_turns d }
{
    if d < -6480000000 {
        return d + 12960000000;
    }
    if d < 6480000000 {
        return d;
    }
    d - 12960000000
}

// The difference east-west, for a message of number `kind`: by longitudes for 1023.
fn east_difference(kind: i64, position: i64, origin: i64, steps: u64) -> i64
    requires { (nat_abs position ≤ 1000000000000) × (nat_abs origin ≤ 67108864) × (steps ≤ 10000) × (ellipsoidal kind ≡ true → nat_abs (position -ℤ pos steps *ℤ origin) ≤ 12960000000) }
    ensures { result ≡ east_by kind (position -ℤ pos steps *ℤ origin) }
{
    let d = difference(position, origin, steps);
    if kind == 1023 {
        return by_turns(d);
    }
    d
}

// A refusal, and no place.
fn no_place(refusal: u8) -> Located
    ensures { result ≡ no_place refusal }
{
    Located {
        refusal,
        row: 0,
        column: 0,
        north: 0,
        east: 0,
        height: 0,
        width: 0,
    }
}

// A place in both directions, in cells h high and w wide.
fn place_in(n: grid_direction::PlaceAlong, e: grid_direction::PlaceAlong, h: u64, w: u64) -> Located
    requires { (n.cell * h ≤ n.steps) × (e.cell * w ≤ e.steps) }
    ensures { result ≡ place_of n e h w }
{
    Located {
        refusal: 0,
        row: n.cell,
        column: e.cell,
        north: n.steps - n.cell * h,
        east: e.steps - e.cell * w,
        height: h,
        width: w,
    }
}

// COMPONENT to OUTSIDE, or the place of a position in the grid.
fn place_of(f: Settings, component: u8, north: i64, east: i64) -> Located
    requires { Fields f }
    ensures { result ≡ located f component north east }
{
    let early = outcome_number(grid_refusals::early_refusal(f, component, north, east));
    if early != 0 {
        return no_place(early);
    }
    let number = f.number;
    let steps = steps_of(number);
    let origin = f.origin;
    let latitude = origin.north;
    let spacing = f.spacing;
    let h = spacing_of(spacing.north, steps);
    let u = difference(north, layout::value_in(latitude), steps);
    let n = grid_direction::along(u, h);
    if n.refusal != 0 {
        return no_place(OUTSIDE);
    }
    let longitude = origin.east;
    let w = spacing_of(spacing.east, steps);
    let v = east_difference(number, east, layout::value_in(longitude), steps);
    let e = grid_direction::along(v, w);
    if e.refusal != 0 {
        return no_place(OUTSIDE);
    }
    place_in(n, e, h, w)
}

// The spacing is one that a field of 12 bits holds.
fn spacing_held(d: i64) -> bool
    ensures { result ≡ spacing_held d }
{
    (0..=4095).contains(&d)
}

// The origin is one that the fields of a message hold.
fn origin_held(number: i64, north: i64, east: i64) -> bool
    ensures { result ≡ (leb (nat_abs north) 67108864 && leb (nat_abs east) (cond (ellipsoidal number) 1296000 67108864)) }
{
    let most = if number == 1023 { 1296000 } else { 67108864 };
    north.unsigned_abs() <= 67108864 && east.unsigned_abs() <= most
}

// The settings is one that a grid message holds.
#[tactic(auto, unfolding(crate::specs::Inner::settings_held))]
fn settings_held(f: Settings) -> bool
    ensures { result ≡ settings_held f }
{
    origin_held(
        f.number,
        layout::value_in(f.origin.north),
        layout::value_in(f.origin.east),
    ) && spacing_held(f.spacing.north)
        && spacing_held(f.spacing.east)
}

// RANGE where no grid message holds the settings, COMPONENT to OUTSIDE, or the place of a position in the grid.
pub fn locate(f: Settings, component: u8, north: i64, east: i64) -> Located
    ensures { result ≡ held_place f component north east }
{
    if !settings_held(f) {
        return no_place(Refusal::Range as u8);
    }
    place_of(f, component, north, east)
}

// The place for the height where the horizontal components have one or are OUTSIDE: the same, or what its own indicators refuse.
fn vertical_at(f: Settings, p: Located, north: i64, east: i64) -> Located
    requires { (first (field_tests f 0 north east) ≡ 0) × (p ≡ located f 0 north east) }
    ensures { result ≡ located f 2 north east }
{
    let early = outcome_number(grid_refusals::early_refusal(f, 2, north, east));
    if early != 0 {
        return no_place(early);
    }
    p
}

// The place for the height, from that for the horizontal components.
fn vertical_of(f: Settings, p: Located, north: i64, east: i64) -> Located
    requires { Fields f × (p ≡ located f 0 north east) }
    ensures { result ≡ located f 2 north east }
{
    let refusal = p.refusal;
    if refusal == 0 {
        return vertical_at(f, p, north, east);
    }
    if refusal == OUTSIDE {
        return vertical_at(f, p, north, east);
    }
    place_of(f, 2, north, east)
}

// The two refusal numbers, and the place of the side that has one.
fn two_places_of(h: Located, v: Located) -> TwoPlaces
    ensures { result ≡ two_places_of h v }
{
    TwoPlaces {
        horizontal: h.refusal,
        vertical: v.refusal,
        place: if h.refusal == 0 { h } else { v },
    }
}

// The same as `locate` for the horizontal components and for the height, worked out once.
pub fn locate_both(f: Settings, north: i64, east: i64) -> TwoPlaces
    ensures { result ≡ held_two_places f north east }
{
    if !settings_held(f) {
        return two_places_of(
            no_place(Refusal::Range as u8),
            no_place(Refusal::Range as u8),
        );
    }
    let h = place_of(f, 0, north, east);
    let v = vertical_of(f, h, north, east);
    two_places_of(h, v)
}
