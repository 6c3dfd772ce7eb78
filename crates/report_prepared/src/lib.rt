// The numbers of a grid message and a component that are the same at all positions: its nodes, its edges and the others.
#![tactic(auto)]

ghost use Rattle.std.specs.Prelude.{◌≡◌, ◌&&◌, eqb};
ghost use Rattle.layout.specs.Layout.{available};
ghost use Rattle.grid_fields.specs.Inner.{mean_says};
ghost use Rattle.report_prepared.specs.Inner.{node_value, nodes_available, node_values, middle_of, no_edges, around_of, edges_at, prepared_of};
ghost use Rattle.report_prepared.specs.Private.{Near, corners_held};

use arith::refusals::outcome_number;
use grid_component::Kept;
use grid_place::Located;
use std::array;

// The edges of a grid in steps, the height and the width of a cell, the mean in counts, and the counts in a raw number of a node.
#[derive(Clone, Copy)]
pub struct Prepared {
    pub south: i64,
    pub north: i64,
    pub west: i64,
    pub east: i64,
    pub height: u64,
    pub width: u64,
    pub mean: i64,
    pub factor: u64,
}

// The value of a node.
fn node_value(message: &[u8], component: u8, node: usize) -> i64
    ensures { result ≡ node_value message.now component node }
{
    layout::value_in(grid_fields::node_at(message, component, node as u64))
}

// The values of the sixteen nodes.
#[tactic(auto, unfolding(crate::specs::Inner::node_values))]
pub fn nodes_of(message: &[u8], component: u8) -> [i64; 16]
    ensures { result ≡ node_values message.now component }
{
    array::from_fn(|k| node_value(message, component, k))
}

// Whether all sixteen nodes have values.
#[tactic(auto, unfolding(crate::specs::Inner::nodes_available))]
fn nodes_available(message: &[u8], component: u8) -> bool
    ensures { result ≡ nodes_available message.now component }
{
    (0..16).all(|k| grid_fields::node_at(message, component, k).is_some())
}

// The origin in steps along one direction, or 0 where no message has such a one.
fn middle(number: i64, raw: i64) -> i64
    ensures { result ≡ middle_of number raw }
{
    if 67108864 < raw.unsigned_abs() {
        return 0;
    }
    if number == 1023 {
        return 5000 * raw;
    }
    10000 * raw
}

// Edges between which there is no position.
fn no_edges() -> Prepared
    ensures { result ≡ no_edges }
{
    Prepared {
        south: 1,
        north: 0,
        west: 0,
        east: 0,
        height: 0,
        width: 0,
        mean: 0,
        factor: 0,
    }
}

// The edges of the grid in which a position has a place.
fn around(q: Located, north: i64, east: i64, mean: i64, factor: u64) -> Prepared
    requires { Near q north east }
    ensures { result ≡ around_of q north east mean factor }
{
    let south = north - (q.row * q.height + q.north) as i64;
    let west = east - (q.column * q.width + q.east) as i64;
    Prepared {
        south,
        north: south + (3 * q.height) as i64,
        west,
        east: west + (3 * q.width) as i64,
        height: q.height,
        width: q.width,
        mean,
        factor,
    }
}

// Whether the south-western and the north-eastern corner are within the limits.
fn corners_held(p: Prepared, component: u8, number: i64) -> bool
    ensures { result ≡ corners_held number component p }
{
    outcome_number(grid_refusals::position_refusal(component, number, p.south, p.west)) == 0
        && outcome_number(grid_refusals::position_refusal(component, number, p.north, p.east)) == 0
}

// The prepared numbers, by a position in the grid.
fn prepare_at(message: &[u8], kept: Kept, component: u8, north: i64, east: i64) -> Prepared
    ensures { result ≡ edges_at message.now kept.settings component north east }
{
    let f = kept.settings;
    let q = grid_place::locate(f, component, north, east);
    if q.refusal != 0 {
        return no_edges();
    }
    let mean = 100 * layout::value_in(grid_fields::mean_at(message, component));
    let factor = grid_counts::factor_of(f.number, component);
    let p = around(q, north, east, mean, factor);
    if !corners_held(p, component, f.number) {
        return no_edges();
    }
    p
}

// Whether a grid message was kept that has values of the mean and of all nodes.
fn is_ready(message: &[u8], kept: Kept, component: u8) -> bool
    ensures { result ≡ (eqb kept.refusal 0 && available (mean_says message.now component) && nodes_available message.now component) }
{
    kept.refusal == 0
        && grid_fields::mean_at(message, component).is_some()
        && nodes_available(message, component)
}

// The prepared numbers; with edges between which there is no position where every count has to go by the message.
pub fn prepare(message: &[u8], kept: Kept, component: u8) -> Prepared
    ensures { result ≡ prepared_of message.now kept component }
{
    if !is_ready(message, kept, component) {
        return no_edges();
    }
    let f = kept.settings;
    let north = middle(f.number, layout::value_in(f.origin.north));
    let east = middle(f.number, layout::value_in(f.origin.east));
    prepare_at(message, kept, component, north, east)
}
