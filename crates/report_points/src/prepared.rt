// A count by the numbers of a message and a component that are the same at all points.
ghost use Rattle.std.specs.Prelude.{◌≡◌, true, ◌≤◌, ◌<◌};
ghost use Rattle.grid_component.specs.Inner.{counted_by};
ghost use Rattle.report_prepared.specs.Private.{count_in, Between, Serves};

use grid_cell::Corners;
use grid_component::Kept;
use grid_counts::Counted;
use report_prepared::Prepared;

// The count at a place y and x steps from the southern and the western edge of the grid.
fn count_in(p: Prepared, nodes: &[i64; 16], y: u64, x: u64) -> i64
    requires { (0 < p.height) × (p.height ≤ 40950000) × (0 < p.width) × (p.width ≤ 40950000) }
    ensures { result ≡ count_in p nodes.now y x }
{
    let row = grid_direction::cell_of(p.height, y);
    let column = grid_direction::cell_of(p.width, x);
    let south = 4 * (3 - row);
    let north = 4 * (2 - row);
    let n = Corners {
        sw: nodes[(south + column) as usize],
        se: nodes[(south + (column + 1)) as usize],
        nw: nodes[(north + column) as usize],
        ne: nodes[(north + (column + 1)) as usize],
    };
    let k = grid_cell::weights_in(p.height, p.width, y - row * p.height, x - column * p.width);
    grid_cell::count_by(p.mean, p.factor, n, k)
}

// Whether a position is on or between the edges.
fn is_between(p: Prepared, north: i64, east: i64) -> bool
    ensures { result ≡ true → Between p north east }
{
    p.south <= north && north <= p.north && p.west <= east && east <= p.east
}

// The shift at a position: by the prepared numbers between their edges, else by the message.
pub(crate) fn count_at(
    message: &[u8],
    kept: Kept,
    component: u8,
    p: Prepared,
    nodes: &[i64; 16],
    north: i64,
    east: i64,
) -> Counted
    requires { Serves message.now kept component p nodes.now }
    ensures { result ≡ counted_by message.now kept component north east }
{
    if !is_between(p, north, east) {
        return grid_component::count_at(message, kept, component, north, east);
    }
    let y = (north - p.south) as u64;
    let x = (east - p.west) as u64;
    Counted {
        refusal: 0,
        count: count_in(p, nodes, y, x),
    }
}
