// The datum step of message 1021: its seven parameters applied to a position. It rests on the promises of the reader of a 1021 alone.
#![tactic(auto)]

ghost use Rattle.std.specs.Prelude.{◌*◌, ◌^◌, cond};
ghost use Rattle.arith.specs.First.{first};
ghost use Rattle.datum_formula.specs.Formula.{formula_tests, Answered};
ghost use Rattle.datum.specs.Step.{absent, values_in, Stepped};
ghost use Rattle.datum.specs.Private.{step_by};

use arith::refusals::{Refusal, number_of};
use datum_formula::{Position, Values};
use record_transformations::{Helmert, Parameters};

// ABSENT where one of the seven parameters has no value, or what the formula answers for their values.
fn by_values(p: Parameters, x: i64, y: i64, z: i64) -> Position
    ensures { Answered (521 * 10 ^ 32) (cond (absent p) 15 (first (formula_tests (values_in p) x y z))) (values_in p) x y z result }
{
    let dx = p.dx;
    let Some(dx) = dx else {
        return datum_formula::refused(Refusal::Absent as u8);
    };
    let dy = p.dy;
    let Some(dy) = dy else {
        return datum_formula::refused(Refusal::Absent as u8);
    };
    let dz = p.dz;
    let Some(dz) = dz else {
        return datum_formula::refused(Refusal::Absent as u8);
    };
    let rx = p.rx;
    let Some(rx) = rx else {
        return datum_formula::refused(Refusal::Absent as u8);
    };
    let ry = p.ry;
    let Some(ry) = ry else {
        return datum_formula::refused(Refusal::Absent as u8);
    };
    let rz = p.rz;
    let Some(rz) = rz else {
        return datum_formula::refused(Refusal::Absent as u8);
    };
    let ds = p.ds;
    let Some(ds) = ds else {
        return datum_formula::refused(Refusal::Absent as u8);
    };
    let v = Values {
        dx,
        dy,
        dz,
        rx,
        ry,
        rz,
        ds,
    };
    datum_formula::transformed(v, x, y, z)
}

// POSITION, METHOD, or what the parameters give.
fn step_by(computation: i64, p: Parameters, x: i64, y: i64, z: i64) -> Position
    ensures { Answered (521 * 10 ^ 32) (step_by computation p x y z) (values_in p) x y z result }
{
    if datum_formula::beyond(100000000000, x, y, z) {
        return datum_formula::refused(Refusal::Position as u8);
    }
    if computation != 0 {
        return datum_formula::refused(Refusal::Method as u8);
    }
    by_values(p, x, y, z)
}

// The position in the target system of a position in 0.1 mm, from the bytes of a message 1021.
pub fn datum_step(message: &[u8], x: i64, y: i64, z: i64) -> Position
    ensures { Stepped message.now x y z result }
{
    match message_records::read_record::<Helmert>(message) {
        Ok(h) => step_by(h.system.computation, h.parameters, x, y, z),
        Err(refusal) => datum_formula::refused(number_of(refusal)),
    }
}
