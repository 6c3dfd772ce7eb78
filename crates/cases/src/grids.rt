// The fields of a 1023 and of a 1024, which have DF numbers of their own between DF191 and DF212.
use super::output::Out;
use record_grids::{Grid, Origin, Shifts, Spacing};
use record_rows::Pair;

fn put_origin(north: u64, east: u64, r: Origin, out: &mut Out, at: usize) -> usize {
    let n = r.north;
    let e = r.east;
    super::fields::put_readings(north, n, east, e, out, at)
}

fn put_spacing(north: u64, east: u64, r: Spacing, out: &mut Out, at: usize) -> usize {
    super::fields::put_numbers(north, r.north, east, r.east, out, at)
}

fn put_shifts(north: u64, east: u64, height: u64, r: Shifts, out: &mut Out, at: usize) -> usize {
    let n = r.north;
    let e = r.east;
    let h = r.height;
    let to = super::fields::put_readings(north, n, east, e, out, at);
    super::fields::put_reading(height, h, out, to)
}

// The sixteen nodes.
fn put_nodes(
    north: u64,
    east: u64,
    height: u64,
    nodes: [Shifts; 16],
    out: &mut Out,
    at: usize,
) -> usize {
    let mut to = at;
    for node in nodes {
        to = put_shifts(north, east, height, node, out, to);
    }
    to
}

// DF192 to DF198, or DF202 to DF208 of a message of number 1024.
fn put_frame(
    number: i64,
    origin: Origin,
    spacing: Spacing,
    mean: Shifts,
    out: &mut Out,
    at: usize,
) -> usize {
    if number == 1024 {
        let to = put_origin(202, 203, origin, out, at);
        let to = put_spacing(204, 205, spacing, out, to);
        return put_shifts(206, 207, 208, mean, out, to);
    }
    let to = put_origin(192, 193, origin, out, at);
    let to = put_spacing(194, 195, spacing, out, to);
    put_shifts(196, 197, 198, mean, out, to)
}

// DF199 to DF201 of each node, or DF209 to DF211 of a message of number 1024.
fn put_each(number: i64, nodes: [Shifts; 16], out: &mut Out, at: usize) -> usize {
    if number == 1024 {
        return put_nodes(209, 210, 211, nodes, out, at);
    }
    put_nodes(199, 200, 201, nodes, out, at)
}

// The fields before the origin.
fn put_start(number: i64, sin: i64, indicators: Pair, out: &mut Out, at: usize) -> usize {
    let to = super::fields::put_numbers(2, number, 147, sin, out, at);
    super::fields::put_pair(190, 191, indicators, out, to)
}

// The fields behind the nodes.
fn put_end(methods: Pair, quality: Pair, day: i64, out: &mut Out, at: usize) -> usize {
    let to = super::fields::put_pair(212, 213, methods, out, at);
    let to = super::fields::put_pair(216, 217, quality, out, to);
    super::fields::put_number(51, day, out, to)
}

fn put_grid_fields(r: Grid, out: &mut Out, at: usize) -> usize {
    let nodes = r.nodes;
    let to = put_start(r.number, r.sin, r.indicators, out, at);
    let to = put_frame(r.number, r.origin, r.spacing, r.mean, out, to);
    let to = put_each(r.number, nodes, out, to);
    put_end(r.methods, r.quality, r.day, out, to)
}

// REFUSAL : FIELDS of the record that the reader of 1023 and 1024 gives.
pub(crate) fn put_grid(s: &[u8], out: &mut Out, at: usize) -> usize {
    let (refusal, r) = message_records::read_or_zero::<Grid>(s);
    let to = super::fields::put_refusal(refusal, out, at);
    put_grid_fields(r, out, to)
}
