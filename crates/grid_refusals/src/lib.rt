// The refusals of the shift that a grid without its shifts, a component and a position give before the place in the grid is looked for: COMPONENT to SPACING.
#![tactic(auto)]

ghost use Rattle.std.specs.Prelude.{◌≡◌, not, ◌&&◌, ◌||◌, [], ◌∷◌, ltb, pos, nat_abs};
ghost use Rattle.arith.specs.First.{first};
ghost use Rattle.arith.specs.Refusals.{outcome_number};
ghost use Rattle.arith.specs.Whole.{same_z};
ghost use Rattle.grid_refusals.specs.Refusals.{side, beyond, field_tests};
ghost use Rattle.layout.specs.Layout.{available};

use arith::refusals::Refusal;
use record_grids::Settings;
use record_rows::Pair;

// The position is beyond what a grid of the message number can have.
fn beyond(number: i64, north: i64, east: i64) -> bool
    ensures { result ≡ beyond number north east }
{
    let n = north.unsigned_abs();
    let e = east.unsigned_abs();
    if number == 1023 {
        3240000000 < n || 6480000000 < e
    } else {
        1000000000000 < n || 1000000000000 < e
    }
}

// COMPONENT or POSITION, where one applies.
pub fn position_refusal(component: u8, number: i64, north: i64, east: i64) -> Result<(), Refusal>
    ensures { outcome_number result ≡ first ((8, ltb 2 component) ∷ (9, beyond number north east) ∷ []) }
{
    if 2 < component {
        return Err(Refusal::Component);
    }
    if beyond(number, north, east) {
        return Err(Refusal::Position);
    }
    Ok(())
}

// OFF, METHOD, ORIGIN or SPACING, where one applies.
fn field_refusal(
    indicator: i64,
    method: i64,
    north: Option<i64>,
    east: Option<i64>,
    rows: i64,
    columns: i64,
) -> Result<(), Refusal>
    ensures { outcome_number result ≡ first ((10, same_z indicator (pos 0)) ∷ (11, not (same_z method (pos 0))) ∷ (12, not (available north && available east)) ∷ (13, same_z rows (pos 0) || same_z columns (pos 0)) ∷ []) }
{
    if indicator == 0 {
        return Err(Refusal::Off);
    }
    if method != 0 {
        return Err(Refusal::Method);
    }
    let Some(_) = north else {
        return Err(Refusal::Origin);
    };
    let Some(_) = east else {
        return Err(Refusal::Origin);
    };
    if rows == 0 || columns == 0 {
        return Err(Refusal::Spacing);
    }
    Ok(())
}

// The indicator of the component: horizontal for 0 and 1, vertical for 2.
fn side_of(component: u8, p: Pair) -> i64
    ensures { result ≡ side component p }
{
    if component == 2 {
        return p.vertical;
    }
    p.horizontal
}

// COMPONENT, POSITION, OFF, METHOD, ORIGIN or SPACING, where one applies.
pub fn early_refusal(f: Settings, component: u8, north: i64, east: i64) -> Result<(), Refusal>
    ensures { outcome_number result ≡ first (field_tests f component north east) }
{
    let number = f.number;
    position_refusal(component, number, north, east)?;
    let indicator = side_of(component, f.indicators);
    let method = side_of(component, f.methods);
    let origin = f.origin;
    let latitude = origin.north;
    let longitude = origin.east;
    let spacing = f.spacing;
    field_refusal(
        indicator,
        method,
        latitude,
        longitude,
        spacing.north,
        spacing.east,
    )
}
