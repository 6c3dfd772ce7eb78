// Files of sample answers made of a message and points, and why none is made. The functions with a requires are private.
#![tactic(auto)]

ghost use Rattle.std.specs.Prelude.{◌≡◌, length, map, ◌+◌, ◌*◌};
ghost use Rattle.grid_component.specs.Inner.{kept_of};
ghost use Rattle.sample_writer.specs.Refusals.{asked_of, first_refused, points_refusal};
ghost use Rattle.layout.specs.Layout.{answered, stored};
ghost use Rattle.sample_files.specs.File.{point_size, point_field, point_fields};
ghost use Rattle.sample_writer.specs.Write.{sample, samples_file, write_refusal};

use arith::refusals::Refusal;
use grid_component::Kept;
use layout::Written;
use sample_files::{MOST_POINTS, POINT_SIZE};

// The refusal of the first point that is refused, 0 where none is. The points stand in three slices of one count, as the C interface lends them.
fn first_refused(message: &[u8], kept: Kept, components: &[u8], north: &[i64], east: &[i64]) -> u8
    requires { (kept ≡ kept_of message.now) × ((length components.now ≡ length north.now) × (length components.now ≡ length east.now)) }
    ensures { result ≡ first_refused message.now (asked_of components.now north.now east.now) }
{
    for i in 0..components.len() {
        let refusal = grid_component::count_at(
            message,
            kept,
            components[i],
            north[i],
            east[i],
        ).refusal;
        if refusal != 0 {
            return refusal;
        }
    }
    0
}

// The refusal of a message and the points of three slices: 1 to 5 and KIND, LENGTH where their counts differ, that of the first refused point, LENGTH
// above 1,000 points.
pub fn points_refusal(message: &[u8], components: &[u8], north: &[i64], east: &[i64]) -> u8
    ensures { result ≡ points_refusal message.now components.now north.now east.now }
{
    let kept = grid_component::keep(message);
    if kept.refusal != 0 {
        return kept.refusal;
    }
    let n = components.len();
    if n != north.len() {
        return Refusal::Length as u8;
    }
    if n != east.len() {
        return Refusal::Length as u8;
    }
    let point = first_refused(message, kept, components, north, east);
    if point != 0 {
        return point;
    }
    if MOST_POINTS < n {
        return Refusal::Length as u8;
    }
    0
}

// Fills out with the field of a point.
fn put_point(out: &mut [u8], component: u8, north: i64, east: i64, claim: i64)
    requires { length out.old ≡ point_size }
    ensures { out.new ≡ point_field (record { component = component; north = north; east = east; claim = claim }) }
{
    sample_numbers::put_at(out, 0, 1, 2);
    sample_numbers::put_at(out, 1, 2, 25);
    sample_numbers::put_at(out, 3, 1, u64::from(component));
    sample_numbers::put_whole(out, 4, north);
    sample_numbers::put_whole(out, 12, east);
    sample_numbers::put_whole(out, 20, claim);
}

// Fills out with the field of a point whose claim is the message's answer there.
fn put_sample(out: &mut [u8], message: &[u8], kept: Kept, component: u8, north: i64, east: i64)
    requires { (kept ≡ kept_of message.now) × (length out.old ≡ point_size) }
    ensures { out.new ≡ point_field (sample message.now (record { component = component; north = north; east = east })) }
{
    let answer = grid_component::count_at(message, kept, component, north, east);
    put_point(out, component, north, east, answer.count);
}

// Fills out with the fields of all points.
fn put_samples(
    out: &mut [u8],
    message: &[u8],
    kept: Kept,
    components: &[u8],
    north: &[i64],
    east: &[i64],
)
    requires { (kept ≡ kept_of message.now) × ((length components.now ≡ length north.now) × ((length components.now ≡ length east.now) × (length out.old ≡ point_size * length components.now))) }
    ensures { out.new ≡ point_fields (map (sample message.now) (asked_of components.now north.now east.now)) }
{
    for i in 0..components.len() {
        let a = POINT_SIZE * i;
        let e = a + POINT_SIZE;
        put_sample(
            &mut out[a..e],
            message,
            kept,
            components[i],
            north[i],
            east[i],
        );
    }
}

// Fills out with the file of a message and the points.
fn put_file(
    out: &mut [u8],
    message: &[u8],
    kept: Kept,
    components: &[u8],
    north: &[i64],
    east: &[i64],
)
    requires { (kept ≡ kept_of message.now) × ((length components.now ≡ length north.now) × ((length components.now ≡ length east.now) × (length out.old ≡ 3 + length message.now + point_size * length components.now))) }
    ensures { out.new ≡ samples_file message.now (asked_of components.now north.now east.now) }
{
    let e = 3 + message.len();
    sample_numbers::put_at(out, 0, 1, 1);
    sample_numbers::put_at(out, 1, 2, message.len() as u64);
    sample_numbers::put_bytes(out, 3, message);
    put_samples(&mut out[e..], message, kept, components, north, east);
}

fn refused(refusal: u8) -> Written
    ensures { (result.refusal ≡ refusal) × (result.length ≡ 0) }
{
    Written { refusal, length: 0 }
}

// Writes the file of a message and the points of three slices of equal count, each with the message's answer as its claim.
pub fn write_samples(
    message: &[u8],
    components: &[u8],
    north: &[i64],
    east: &[i64],
    out: &mut [u8],
) -> Written
    ensures answer { result ≡ answered (write_refusal message.now components.now north.now east.now (length out.old)) (samples_file message.now (asked_of components.now north.now east.now)) }
    ensures output { out.new ≡ stored (write_refusal message.now components.now north.now east.now (length out.old)) (samples_file message.now (asked_of components.now north.now east.now)) out.old }
{
    let refusal = points_refusal(message, components, north, east);
    if refusal != 0 {
        return refused(refusal);
    }
    let length = 3 + message.len() + POINT_SIZE * components.len();
    if out.len() < length {
        return refused(Refusal::Room as u8);
    }
    put_file(
        &mut out[..length],
        message,
        grid_component::keep(message),
        components,
        north,
        east,
    );
    Written { refusal: 0, length }
}
