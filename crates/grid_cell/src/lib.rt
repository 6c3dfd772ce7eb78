// The arithmetic of a grid in one cell.
#![tactic(auto)]

ghost use Rattle.std.specs.Prelude.{◌≡◌, cond, ◌+◌, ◌*◌, ◌/◌, ◌≤◌, ◌<◌, ◌^◌, pos, nat_abs, ◌+ℤ◌};
ghost use Rattle.grid_bilinear.specs.Bilinear.{nearest_whole};
ghost use Rattle.grid_cell.specs.Inner.{weights_of, weights_in, area_of, weighted_by, sum_by, sum_of, place_held, nodes_held, sum_held, sum_in, weights_held, in_bounds, count_by};
ghost use Rattle.grid_cell.specs.Private.{Within, Weighed, Most, with_sign};

// The raw nodes of a cell.
#[derive(Clone, Copy)]
pub struct Corners {
    pub sw: i64,
    pub se: i64,
    pub nw: i64,
    pub ne: i64,
}

// The weights of a cell's nodes, each times the cell's area.
#[derive(Clone, Copy)]
pub struct Weights {
    pub sw: u64,
    pub se: u64,
    pub nw: u64,
    pub ne: u64,
}

// The weights at a place y and x steps from the south and west of a cell.
fn weights_of(h: u64, w: u64, y: u64, x: u64) -> Weights
    requires { Within h w y x }
    ensures { result ≡ weights_of h w y x }
{
    let u = w - x;
    let v = h - y;
    Weights {
        sw: u * v,
        se: x * v,
        nw: u * y,
        ne: x * y,
    }
}

// The weighted sum of a cell's nodes: the exact mean times the area.
fn weighted_sum(k: Weights, n: Corners) -> i64
    requires light { area_of k ≤ 1676902500000000 }
    requires small { Most 2560 n }
    ensures { result ≡ weighted_by k n.sw n.se n.nw n.ne }
{
    k.sw as i64 * n.sw + k.se as i64 * n.se + k.nw as i64 * n.nw + k.ne as i64 * n.ne
}

// n, or its opposite where z is negative.
fn with_sign(z: i64, n: u64) -> i64
    requires { n ≤ 4611686018427387904 }
    ensures { result ≡ with_sign z n }
{
    if z < 0 {
        return 0 - n as i64;
    }
    n as i64
}

// The whole number nearest to size / area: half an area or more counts as a whole one.
fn rounded(size: u64, area: u64) -> u64
    requires { (size ≤ 2560 * 1676902500000000) × (0 < area) × (area ≤ 1676902500000000) }
    ensures { (result ≡ (2 * size + area) / (2 * area)) × (result ≤ 4611686018427387904) }
{
    let whole = size / area;
    let rest = size % area;
    if area <= 2 * rest {
        return whole + 1;
    }
    whole
}

// The whole number nearest to sum / area. The sign is set apart: so halves go away from zero. Request A4 asks for this form.
fn nearest_to(sum: i64, area: u64) -> i64
    requires size { nat_abs sum ≤ 2560 * 1676902500000000 }
    requires some { 0 < area }
    requires light { area ≤ 1676902500000000 }
    ensures { result ≡ nearest_whole sum area }
{
    let size = field::magnitude(sum);
    with_sign(sum, rounded(size, area))
}

// The weighted sum of a cell's raw nodes, in counts times the cell's area.
fn sum_by(factor: u64, n: Corners, k: Weights) -> i64
    requires { (area_of k ≤ 1676902500000000) × Most 256 n × (factor ≤ 10) }
    ensures { result ≡ sum_by factor k n }
{
    let f = factor as i64;
    weighted_sum(
        k,
        Corners {
            sw: f * n.sw,
            se: f * n.se,
            nw: f * n.nw,
            ne: f * n.ne,
        },
    )
}

// The same at a place of a cell.
fn sum_of(factor: u64, n: Corners, h: u64, w: u64, y: u64, x: u64) -> i64
    requires { Within h w y x × Most 256 n × (factor ≤ 10) }
    ensures { result ≡ sum_of factor h w y x n }
{
    sum_by(factor, n, weights_of(h, w, y, x))
}

// The area of a cell.
fn area_of(k: Weights) -> u64
    requires { area_of k < 2 ^ 64 }
    ensures { result ≡ area_of k }
{
    k.sw + k.se + k.nw + k.ne
}

// The count: the mean, and the whole number nearest to the exact weighted mean of the nodes.
fn count_of(mean: i64, factor: u64, n: Corners, k: Weights) -> i64
    requires { Weighed k × Most 256 n × (nat_abs mean ≤ 1638400) × (factor ≤ 10) }
    ensures { result ≡ mean +ℤ nearest_whole (sum_by factor k n) (area_of k) }
{
    let sum = sum_by(factor, n, k);
    mean + nearest_to(sum, area_of(k))
}

// The place is on or within the edges of a cell that a grid can have.
#[tactic(auto, unfolding(crate::specs::Inner::place_held))]
fn place_held(h: u64, w: u64, y: u64, x: u64) -> bool
    ensures { result ≡ place_held h w y x }
{
    (1..=40950000).contains(&h) && (1..=40950000).contains(&w) && y <= h && x <= w
}

// The nodes are within what a grid message can hold.
#[tactic(auto, unfolding(crate::specs::Inner::nodes_held))]
fn nodes_held(n: Corners) -> bool
    ensures { result ≡ nodes_held n }
{
    n.sw.unsigned_abs() <= 256
        && n.se.unsigned_abs() <= 256
        && n.nw.unsigned_abs() <= 256
        && n.ne.unsigned_abs() <= 256
}

// What is summed is within what a grid message can hold.
#[tactic(auto, unfolding(crate::specs::Inner::sum_held))]
fn sum_held(factor: u64, n: Corners, h: u64, w: u64, y: u64, x: u64) -> bool
    ensures { result ≡ sum_held factor n h w y x }
{
    place_held(h, w, y, x) && factor <= 10 && nodes_held(n)
}

// The weighted sum of a cell's raw nodes, in counts times the cell's area: of the counts in a raw number of a node, the raw nodes, the cell's height and width,
// and a place y and x steps from its south and west; 0 where they are not within what a grid message can hold.
#[tactic(auto, unfolding(crate::specs::Inner::sum_in))]
pub fn sum_in(factor: u64, n: Corners, h: u64, w: u64, y: u64, x: u64) -> i64
    ensures { result ≡ sum_in factor n h w y x }
{
    if !sum_held(factor, n, h, w, y, x) {
        return 0;
    }
    sum_of(factor, n, h, w, y, x)
}

// The weights of the nodes of a cell of height h and width w at a place y and x steps from its south and west, each times the cell's area; 0 where no grid has such a place.
#[tactic(auto, unfolding(crate::specs::Inner::weights_in))]
pub fn weights_in(h: u64, w: u64, y: u64, x: u64) -> Weights
    ensures { result ≡ weights_in h w y x }
{
    if !place_held(h, w, y, x) {
        return Weights {
            sw: 0,
            se: 0,
            nw: 0,
            ne: 0,
        };
    }
    weights_of(h, w, y, x)
}

// The weights add up to the area of a cell that a grid can have.
#[tactic(auto, unfolding(crate::specs::Inner::weights_held))]
fn weights_held(k: Weights) -> bool
    ensures { result ≡ weights_held k }
{
    k.sw <= 1676902500000000
        && k.se <= 1676902500000000
        && k.nw <= 1676902500000000
        && k.ne <= 1676902500000000
        && (1..=1676902500000000).contains(&area_of(k))
}

// What is counted is within what a grid message can hold.
#[tactic(auto, unfolding(crate::specs::Inner::in_bounds))]
fn count_held(mean: i64, factor: u64, n: Corners, k: Weights) -> bool
    ensures { result ≡ in_bounds mean factor n k }
{
    weights_held(k) && factor <= 10 && mean.unsigned_abs() <= 1638400 && nodes_held(n)
}

// The count in a cell, of its mean in counts, the counts in a raw number of a node, its raw nodes and their weights;
// 0 where they are not within what a grid message can hold.
pub fn count_by(mean: i64, factor: u64, n: Corners, k: Weights) -> i64
    ensures { result ≡ count_by mean factor n k }
{
    if !count_held(mean, factor, n, k) {
        return 0;
    }
    count_of(mean, factor, n, k)
}
