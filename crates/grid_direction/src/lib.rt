// The arithmetic of a grid along one direction.
#![tactic(auto)]

ghost use Rattle.std.specs.Prelude.{◌≡◌, ◌≤◌, ◌<◌, nat_abs};
ghost use Rattle.grid_bilinear.specs.Bilinear.{cell};
ghost use Rattle.grid_direction.specs.Inner.{along_of};

use arith::refusals::Refusal;

// Where a position stands along one direction: OUTSIDE, or 0 with the steps from the southern or western edge and the cell, 0 to 2 from there.
#[derive(Clone, Copy)]
pub struct PlaceAlong {
    pub refusal: u8,
    pub steps: u64,
    pub cell: u64,
}

// OUTSIDE.
fn outer() -> PlaceAlong
    ensures { (result.refusal ≡ 14) × (result.steps ≡ 0) × (result.cell ≡ 0) }
{
    PlaceAlong {
        refusal: Refusal::Outside as u8,
        steps: 0,
        cell: 0,
    }
}

// The cell of a place t steps from the edge, of any spacing d.
pub fn cell_of(d: u64, t: u64) -> u64
    ensures { result ≡ cell d t }
{
    if d == 0 {
        return 0;
    }
    if t < d {
        return 0;
    }
    if t - d < d {
        return 1;
    }
    2
}

// Where a position stands along one direction: u is its difference from the origin, d the spacing, in steps.
fn axis(u: i64, d: u64) -> PlaceAlong
    requires { (nat_abs u ≤ 10000000000000) × (0 < d) × (d ≤ 40950000) }
    ensures { result ≡ along_of d u }
{
    let t = u + (3 * (d / 2)) as i64;
    let Ok(steps) = u64::try_from(t) else {
        return outer();
    };
    if 3 * d < steps {
        return outer();
    }
    PlaceAlong {
        refusal: 0,
        steps,
        cell: cell_of(d, steps),
    }
}

// The same of any difference and any spacing.
pub fn along(difference: i64, spacing: u64) -> PlaceAlong
    ensures { result ≡ along_of spacing difference }
{
    if !(1..=40950000).contains(&spacing) {
        return outer();
    }
    if 10000000000000 < difference.unsigned_abs() {
        return outer();
    }
    axis(difference, spacing)
}
