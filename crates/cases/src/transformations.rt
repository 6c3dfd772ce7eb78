// The fields of a 1021 and of a 1022, by their DF numbers.
use super::output::Out;
use record_transformations::{
    Area, Ellipsoids, Helmert, MolodenskiBadekas, Name, Parameters, RotationPoint, System,
};

// A name: its length and its characters in use.
fn put_name(length: u64, chars: u64, r: Name, out: &mut Out, at: usize) -> usize {
    let n = r.length;
    let c = r.chars;
    let to = super::fields::put_count(length, n, out, at);
    super::fields::put_bytes(chars, text_words::before(&c, n), out, to)
}

// The number of the message and both names.
fn put_names(number: i64, source: Name, target: Name, out: &mut Out, at: usize) -> usize {
    let to = super::fields::put_number(2, number, out, at);
    let to = put_name(143, 144, source, out, to);
    put_name(145, 146, target, out, to)
}

fn put_system(r: System, out: &mut Out, at: usize) -> usize {
    let to = super::fields::put_number(147, r.sin, out, at);
    let to = super::fields::put_numbers(148, r.messages, 149, r.plate, out, to);
    super::fields::put_numbers(150, r.computation, 151, r.height, out, to)
}

fn put_area(r: Area, out: &mut Out, at: usize) -> usize {
    let latitude = r.latitude;
    let longitude = r.longitude;
    let to = super::fields::put_readings(152, latitude, 153, longitude, out, at);
    super::fields::put_numbers(154, r.north, 155, r.east, out, to)
}

fn put_parameters(r: Parameters, out: &mut Out, at: usize) -> usize {
    let dx = r.dx;
    let dy = r.dy;
    let dz = r.dz;
    let rx = r.rx;
    let ry = r.ry;
    let rz = r.rz;
    let ds = r.ds;
    let to = super::fields::put_readings(156, dx, 157, dy, out, at);
    let to = super::fields::put_readings(158, dz, 159, rx, out, to);
    let to = super::fields::put_readings(160, ry, 161, rz, out, to);
    super::fields::put_reading(162, ds, out, to)
}

fn put_point(r: RotationPoint, out: &mut Out, at: usize) -> usize {
    let x = r.x;
    let y = r.y;
    let z = r.z;
    let to = super::fields::put_readings(163, x, 164, y, out, at);
    super::fields::put_reading(165, z, out, to)
}

fn put_ellipsoids(r: Ellipsoids, out: &mut Out, at: usize) -> usize {
    let to = super::fields::put_numbers(166, r.source_major, 167, r.source_minor, out, at);
    super::fields::put_numbers(168, r.target_major, 169, r.target_minor, out, to)
}

// The fields behind the names that both messages have.
fn put_shared(
    system: System,
    area: Area,
    parameters: Parameters,
    out: &mut Out,
    at: usize,
) -> usize {
    let to = put_system(system, out, at);
    let to = put_area(area, out, to);
    put_parameters(parameters, out, to)
}

fn put_helmert_fields(r: Helmert, out: &mut Out, at: usize) -> usize {
    let to = put_names(r.number, r.source, r.target, out, at);
    let to = put_shared(r.system, r.area, r.parameters, out, to);
    let to = put_ellipsoids(r.ellipsoids, out, to);
    super::fields::put_pair(214, 215, r.quality, out, to)
}

fn put_molodenski_badekas_fields(r: MolodenskiBadekas, out: &mut Out, at: usize) -> usize {
    let to = put_names(r.number, r.source, r.target, out, at);
    let to = put_shared(r.system, r.area, r.parameters, out, to);
    let to = put_point(r.point, out, to);
    let to = put_ellipsoids(r.ellipsoids, out, to);
    super::fields::put_pair(214, 215, r.quality, out, to)
}

// REFUSAL : FIELDS of the record that the reader of 1021 gives.
pub(crate) fn put_helmert(s: &[u8], out: &mut Out, at: usize) -> usize {
    let (refusal, r) = message_records::read_or_zero::<Helmert>(s);
    let to = super::fields::put_refusal(refusal, out, at);
    put_helmert_fields(r, out, to)
}

// The same of 1022.
pub(crate) fn put_molodenski_badekas(s: &[u8], out: &mut Out, at: usize) -> usize {
    let (refusal, r) = message_records::read_or_zero::<MolodenskiBadekas>(s);
    let to = super::fields::put_refusal(refusal, out, at);
    put_molodenski_badekas_fields(r, out, to)
}
