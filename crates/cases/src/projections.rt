// The fields of a 1025, of a 1026 and of a 1027.
use super::output::Out;
use record_projections::{Lambert, ObliqueMercator, Projection};

// The three fields with which each begins.
fn put_start(number: i64, sin: i64, projection: i64, out: &mut Out, at: usize) -> usize {
    let to = super::fields::put_numbers(2, number, 147, sin, out, at);
    super::fields::put_number(170, projection, out, to)
}

fn put_projection_fields(r: Projection, out: &mut Out, at: usize) -> usize {
    let latitude = r.latitude;
    let longitude = r.longitude;
    let northing = r.northing;
    let to = put_start(r.number, r.sin, r.projection, out, at);
    let to = super::fields::put_readings(171, latitude, 172, longitude, out, to);
    let to = super::fields::put_numbers(173, r.scale, 174, r.easting, out, to);
    super::fields::put_reading(175, northing, out, to)
}

fn put_lambert_fields(r: Lambert, out: &mut Out, at: usize) -> usize {
    let latitude = r.latitude;
    let longitude = r.longitude;
    let parallel1 = r.parallel1;
    let parallel2 = r.parallel2;
    let northing = r.northing;
    let to = put_start(r.number, r.sin, r.projection, out, at);
    let to = super::fields::put_readings(176, latitude, 177, longitude, out, to);
    let to = super::fields::put_readings(178, parallel1, 179, parallel2, out, to);
    let to = super::fields::put_number(180, r.easting, out, to);
    super::fields::put_reading(181, northing, out, to)
}

fn put_oblique_mercator_fields(r: ObliqueMercator, out: &mut Out, at: usize) -> usize {
    let latitude = r.latitude;
    let longitude = r.longitude;
    let difference = r.difference;
    let northing = r.northing;
    let to = put_start(r.number, r.sin, r.projection, out, at);
    let to = super::fields::put_number(182, r.rectified, out, to);
    let to = super::fields::put_readings(183, latitude, 184, longitude, out, to);
    let to = super::fields::put_number(185, r.azimuth, out, to);
    let to = super::fields::put_reading(186, difference, out, to);
    let to = super::fields::put_numbers(187, r.scale, 188, r.easting, out, to);
    super::fields::put_reading(189, northing, out, to)
}

// REFUSAL : FIELDS of the record that the reader of 1025 gives.
pub(crate) fn put_projection(s: &[u8], out: &mut Out, at: usize) -> usize {
    let (refusal, r) = message_records::read_or_zero::<Projection>(s);
    let to = super::fields::put_refusal(refusal, out, at);
    put_projection_fields(r, out, to)
}

// The same of 1026.
pub(crate) fn put_lambert(s: &[u8], out: &mut Out, at: usize) -> usize {
    let (refusal, r) = message_records::read_or_zero::<Lambert>(s);
    let to = super::fields::put_refusal(refusal, out, at);
    put_lambert_fields(r, out, to)
}

// The same of 1027.
pub(crate) fn put_oblique_mercator(s: &[u8], out: &mut Out, at: usize) -> usize {
    let (refusal, r) = message_records::read_or_zero::<ObliqueMercator>(s);
    let to = super::fields::put_refusal(refusal, out, at);
    put_oblique_mercator_fields(r, out, to)
}
