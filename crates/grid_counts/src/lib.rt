// The count in a cell from what its mean and its nodes say.
#![tactic(auto)]

ghost use Rattle.std.specs.Prelude.{◌≡◌};
ghost use Rattle.layout.specs.Layout.{available};
ghost use Rattle.grid_bilinear.specs.Bilinear.{lacks};
ghost use Rattle.grid_counts.specs.Counts.{node_factor, refused_with};
ghost use Rattle.grid_counts.specs.Inner.{values_in, lacking, count_at, cell_count};
ghost use Rattle.grid_counts.specs.Private.{asked};

use arith::refusals::Refusal;
use grid_cell::{Corners, Weights};
use grid_fields::Nodes;

// A refusal number, or 0 with the shift in counts.
#[derive(Clone, Copy)]
pub struct Counted {
    pub refusal: u8,
    pub count: i64,
}

// A refusal, with a count of 0.
pub fn refused(refusal: u8) -> Counted
    ensures { result ≡ refused_with refusal }
{
    Counted { refusal, count: 0 }
}

// Counts in a unit of a node.
#[tactic(auto, unfolding(arith::specs::Whole::same_z))]
pub fn factor_of(number: i64, component: u8) -> u64
    ensures { result ≡ node_factor number component }
{
    if number == 1023 && component < 2 {
        return 3;
    }
    10
}

// A node that has weight and no value.
#[tactic(auto, unfolding(grid_bilinear::specs::Bilinear::lacks))]
fn node_lacks(weight: u64, r: Option<i64>) -> bool
    ensures { result ≡ lacks weight (available r) }
{
    weight != 0 && r.is_none()
}

// The mean, or a node that has weight, has no value.
pub fn cell_lacks(mean: Option<i64>, n: Nodes, k: Weights) -> bool
    ensures { result ≡ lacking mean n k }
{
    mean.is_none()
        || node_lacks(k.sw, n.sw)
        || node_lacks(k.se, n.se)
        || node_lacks(k.nw, n.nw)
        || node_lacks(k.ne, n.ne)
}

// The values of a cell's nodes.
pub fn values_of(n: Nodes) -> Corners
    ensures { result ≡ values_in n }
{
    Corners {
        sw: layout::value_in(n.sw),
        se: layout::value_in(n.se),
        nw: layout::value_in(n.nw),
        ne: layout::value_in(n.ne),
    }
}

// What a node says that has this weight: without weight it is not asked for.
fn needed(weight: u64, r: Option<i64>) -> Option<i64>
    ensures { result ≡ asked weight r }
{
    if weight != 0 {
        return r;
    }
    Some(layout::value_in(r))
}

// The count in a cell from its mean, its nodes and their weights: 0 for a mean past what a field holds.
fn count_in(number: i64, component: u8, mean: i64, n: Corners, k: Weights) -> i64
    ensures { result ≡ count_at number component mean n k }
{
    if 16384 < mean.unsigned_abs() {
        return 0;
    }
    let factor = factor_of(number, component);
    grid_cell::count_by(100 * mean, factor, n, k)
}

// ABSENT, or the count in a cell: each field that is asked for is taken apart into its value.
pub fn cell_count(number: i64, component: u8, mean: Option<i64>, n: Nodes, k: Weights) -> Counted
    ensures { result ≡ cell_count number component mean n k }
{
    let Some(m) = mean else {
        return refused(Refusal::Absent as u8);
    };
    let Some(sw) = needed(k.sw, n.sw) else {
        return refused(Refusal::Absent as u8);
    };
    let Some(se) = needed(k.se, n.se) else {
        return refused(Refusal::Absent as u8);
    };
    let Some(nw) = needed(k.nw, n.nw) else {
        return refused(Refusal::Absent as u8);
    };
    let Some(ne) = needed(k.ne, n.ne) else {
        return refused(Refusal::Absent as u8);
    };
    let count = count_in(number, component, m, Corners { sw, se, nw, ne }, k);
    Counted { refusal: 0, count }
}
