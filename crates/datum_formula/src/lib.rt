// Formula 3.5-1: the linearised seven-parameter transformation of a position, in whole numbers.
#![tactic(auto)]

ghost use Rattle.arith.specs.First.{first};
ghost use Rattle.std.specs.Prelude.{◌≡◌, ◌+◌, ◌*◌, ◌^◌, ◌≤◌, nat_abs, ◌*ℤ◌};
ghost use Rattle.datum_formula.specs.Formula.{rotation, moved, About, Near, Answered, beyond_any, formula_tests, zeros};
ghost use Rattle.datum_formula.specs.Private.{Held, Inputs, rotated};

use arith::refusals::Refusal;

// The raw values of the seven parameters.
#[derive(Clone, Copy)]
pub struct Values {
    pub dx: i64, // DF156
    pub dy: i64, // DF157
    pub dz: i64, // DF158
    pub rx: i64, // DF159
    pub ry: i64, // DF160
    pub rz: i64, // DF161
    pub ds: i64, // DF162
}

// A refusal number, or 0 with a position in 0.1 mm. The C interface hands it out as it is.
#[repr(C)]
#[derive(Clone, Copy)]
pub struct Position {
    pub refusal: u8,
    pub x: i64,
    pub y: i64,
    pub z: i64,
}

// A refusal, with coordinates of 0.
pub fn refused(refusal: u8) -> Position
    ensures { result ≡ zeros refusal }
{
    Position {
        refusal,
        x: 0,
        y: 0,
        z: 0,
    }
}

// Whether a number is beyond a limit on either side of 0.
pub fn beyond(limit: u64, a: i64, b: i64, c: i64) -> bool
    ensures { result ≡ beyond_any limit a b c }
{
    limit < a.unsigned_abs() || limit < b.unsigned_abs() || limit < c.unsigned_abs()
}

// A raw rotation as radians, counted in 1 over 10^13.
fn radians(r: i64) -> i64
    requires { nat_abs r ≤ 2 ^ 31 }
    ensures { About (10 ^ 11) result (rotation r) (10 ^ 11 + 10 ^ 6) × (nat_abs result ≤ 21 * 10 ^ 11) }
{
    (r * 96962736 + r * 221907 / 1000000) / 100000
}

// A rotation times a coordinate, counted in 10^-7 units.
fn rotated_by(r: i64, v: i64) -> i64
    requires { (nat_abs r ≤ 2 ^ 31) × (nat_abs v ≤ 10 ^ 11) }
    ensures { About (10 ^ 17) result (rotation r *ℤ v) (10 ^ 22 + 2 * 10 ^ 17) × (nat_abs result ≤ 3 * 10 ^ 17) }
{
    let a = radians(r);
    let high = v / 1000000;
    let low = v - high * 1000000;
    a * high + a * low / 1000000
}

// The whole number nearest to a count of 10^-7 units.
fn nearest(count: i64) -> i64
    requires { nat_abs count ≤ 2 * 10 ^ 18 }
    ensures { About (10 ^ 7) result count (5 * 10 ^ 6) }
{
    if count < 0 {
        return (count - 5000000) / 10000000;
    }
    (count + 5000000) / 10000000
}

// One coordinate of the target: from its own and the two others with their rotations, the scale and the translation.
// The last rounding leaves at most 0.5 units, and the divisions before it 0.021.
fn coordinate(own: i64, a: i64, b: i64, ra: i64, rb: i64, ds: i64, d: i64) -> i64
    requires { Inputs own a b ra rb ds d }
    ensures { About (10 ^ 35) result (moved ds (rotated own a b ra rb) d) (521 * 10 ^ 32) }
{
    let rotation = own * 10000000 + rotated_by(ra, a) - rotated_by(rb, b);
    let scale = rotation / 10000000 * ds / 10000;
    nearest(rotation + scale + d * 100000000)
}

// The target of a position within its limits, by values within the widths of their fields.
fn target_of(v: Values, x: i64, y: i64, z: i64) -> Position
    requires { Held v × (nat_abs x ≤ 10 ^ 11) × (nat_abs y ≤ 10 ^ 11) × (nat_abs z ≤ 10 ^ 11) }
    ensures { (result.refusal ≡ 0) × Near (521 * 10 ^ 32) v x y z result }
{
    let Values {
        dx,
        dy,
        dz,
        rx,
        ry,
        rz,
        ds,
    } = v;
    Position {
        refusal: 0,
        x: coordinate(x, y, z, rz, ry, ds, dx),
        y: coordinate(y, z, x, rx, rz, ds, dy),
        z: coordinate(z, x, y, ry, rx, ds, dz),
    }
}

// POSITION, RANGE where a value is wider than its field, or the target.
// x, y and z are three numbers, as the C interface lends them to the datum step.
pub fn transformed(v: Values, x: i64, y: i64, z: i64) -> Position
    ensures { Answered (521 * 10 ^ 32) (first (formula_tests v x y z)) v x y z result }
{
    if beyond(100000000000, x, y, z) {
        return refused(Refusal::Position as u8);
    }
    if beyond(4194303, v.dx, v.dy, v.dz) {
        return refused(Refusal::Range as u8);
    }
    if beyond(2147483647, v.rx, v.ry, v.rz) {
        return refused(Refusal::Range as u8);
    }
    if 16777215 < v.ds.unsigned_abs() {
        return refused(Refusal::Range as u8);
    }
    target_of(v, x, y, z)
}
