// Rows of shifts: the counts of one component at equal steps east.
#![tactic(auto)]

ghost use Rattle.std.specs.Prelude.{◌≡◌, ◌++◌, ◌+◌, ◌*◌, ◌-◌, ◌≤◌, ◌<◌, pos, nat_abs, ◌+ℤ◌, ◌-ℤ◌, ◌*ℤ◌, length, drop};
ghost use Rattle.arith.specs.Lists.{up_to};
ghost use Rattle.grid_cell.specs.Inner.{sum_of};
ghost use Rattle.grid_cell.specs.Private.{Within, Most};
ghost use Rattle.layout.specs.Layout.{value_in};
ghost use Rattle.grid_fields.specs.Inner.{mean_says, cell_says};
ghost use Rattle.grid_counts.specs.Counts.{node_factor, mean_factor};
ghost use Rattle.grid_counts.specs.Inner.{values_in};
ghost use Rattle.grid_place.specs.Inner.{held_place};
ghost use Rattle.grid_row_refusals.specs.ShiftRow.{east_at, shift_row_refusal, shift_row_filled};
ghost use Rattle.grid_rows.specs.Private.{Split, Run, number_of, cell_counts, Standing, Answered, Filled, ToTheEdge, count_at};

use grid_cell::Corners;
use grid_place::Located;
use increments::Quotient;
use record_grids::Settings;

mod increments;

// A sum of at most 2,560 areas, raised by so many that it is not negative.
fn raised(sum: i64, area: u64) -> u64
    requires { (nat_abs sum ≤ 2560 * area) × (area ≤ 1676902500000000) }
    ensures { pos result ≡ sum +ℤ pos (2560 * area) }
{
    (sum + (2560 * area) as i64) as u64
}

// A sum of at most 2,560 areas as a whole number of areas and a rest.
fn part_of(sum: i64, area: u64) -> Quotient
    requires { (nat_abs sum ≤ 2560 * area) × (0 < area) × (area ≤ 1676902500000000) }
    ensures { Split area sum result × (nat_abs result.whole ≤ 2560) }
{
    let n = raised(sum, area);
    let whole = n / area;
    Quotient {
        whole: whole as i64 - 2560,
        rest: n - whole * area,
    }
}

// What a sum grows by, as parts: b minus a.
fn growth(a: Quotient, b: Quotient, area: u64) -> Quotient
    requires { (a.rest < area) × (b.rest < area) × (nat_abs a.whole ≤ 2560) × (nat_abs b.whole ≤ 2560) }
    ensures { Split area (number_of area b.whole b.rest -ℤ number_of area a.whole a.rest) result }
{
    let whole = b.whole - a.whole;
    if b.rest < a.rest {
        return Quotient {
            whole: whole - 1,
            rest: area - a.rest + b.rest,
        };
    }
    Quotient {
        whole,
        rest: b.rest - a.rest,
    }
}

// The weighted sum of a cell's nodes as parts.
fn part_at(factor: u64, n: Corners, h: u64, w: u64, y: u64, x: u64) -> Quotient
    requires { Within h w y x × Most 256 n × (factor ≤ 10) }
    ensures { Split (h * w) (sum_of factor h w y x n) result × (nat_abs result.whole ≤ 2560) }
{
    part_of(grid_cell::sum_in(factor, n, h, w, y, x), h * w)
}

// Fills a run of places in one cell, the first x steps from its western edge.
fn fill_cell(
    row: &mut [i64],
    mean: i64,
    factor: u64,
    n: Corners,
    h: u64,
    w: u64,
    y: u64,
    x: u64,
    step: u64,
)
    requires { Run mean factor h w y x step n (length row.old) }
    ensures { row.new ≡ up_to (cell_counts mean factor h w y x step n) (length row.old) }
{
    let area = h * w;
    let first = part_at(factor, n, h, w, y, x);
    if row.len() < 2 {
        increments::fill(row, mean, first, Quotient { whole: 0, rest: 0 }, area);
        return;
    }
    let second = part_at(factor, n, h, w, y, x + step);
    increments::fill(row, mean, first, growth(first, second, area), area);
}

// Fills a run of places in the cell of p, which is the first.
fn fill_run(row: &mut [i64], message: &[u8], number: i64, component: u8, p: Located, step: u64)
    requires { Standing (value_in (mean_says message.now component)) (values_in (cell_says message.now component p.row p.column)) p × (0 < length row.old) × (length row.old ≤ 4096) × (p.east + (length row.old - 1) * step ≤ p.width) }
    ensures { row.new ≡ up_to (cell_counts (pos mean_factor *ℤ value_in (mean_says message.now component)) (node_factor number component) p.height p.width p.north p.east step (values_in (cell_says message.now component p.row p.column))) (length row.old) }
{
    let mean = 100 * layout::value_in(grid_fields::mean_at(message, component));
    let n = grid_fields::nodes_at(message, component, p.row, p.column);
    let factor = grid_counts::factor_of(number, component);
    fill_cell(
        row,
        mean,
        factor,
        grid_counts::values_of(n),
        p.height,
        p.width,
        p.north,
        p.east,
        step,
    );
}

// Fills the places from place i on that stand in its cell, and answers the place behind them.
fn fill_from(
    row: &mut [i64],
    i: usize,
    count: usize,
    message: &[u8],
    f: Settings,
    component: u8,
    north: i64,
    east: i64,
    step: u64,
) -> usize
    requires { Answered message.now f component north east step count (length row.old) × (i < count) }
    ensures filled { Filled (count_at message.now component north east (pos step)) i count row.old row.new result }
    ensures reaches { ToTheEdge (held_place f component north (east_at east (pos step) i)) step i count result }
{
    let t = east + (i as u64 * step) as i64;
    let p = grid_place::locate(f, component, north, t);
    let end = i + grid_row_refusals::places_in(count - i, p.width, p.east, step);
    fill_run(&mut row[i..end], message, f.number, component, p, step);
    end
}

// Fills the first places of a row, cell by cell.
fn fill_row(
    row: &mut [i64],
    count: usize,
    message: &[u8],
    f: Settings,
    component: u8,
    north: i64,
    east: i64,
    step: u64,
)
    requires { Answered message.now f component north east step count (length row.old) }
    ensures { row.new ≡ up_to (count_at message.now component north east (pos step)) count ++ drop count row.old }
{
    let mut i: usize = 0;
    // A while: the step is the length of the run.
    while i < count {
        i = fill_from(row, i, count, message, f, component, north, east, step);
    }
}

// The counts of a component at equal steps east into the first places of a row, from a message's bytes; the number is answered.
pub fn shift_row(
    message: &[u8],
    component: u8,
    north: i64,
    east: i64,
    step: i64,
    count: usize,
    row: &mut [i64],
) -> u8
    ensures answer { result ≡ shift_row_refusal message.now component north east step count (length row.old) }
    ensures output { row.new ≡ shift_row_filled message.now component north east step count row.old }
{
    let refusal = grid_row_refusals::row_refusal(
        message,
        component,
        north,
        east,
        step,
        count,
        row.len(),
    );
    if refusal != 0 {
        return refusal;
    }
    let f = grid_fields::settings_at(message);
    fill_row(row, count, message, f, component, north, east, step as u64);
    0
}
