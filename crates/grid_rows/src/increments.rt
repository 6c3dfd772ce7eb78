// From one count of a cell to the next, by additions and comparisons alone.
ghost use Rattle.std.specs.Prelude.{◌≡◌, ◌≤◌, ◌<◌, nat_abs, ◌+ℤ◌, length};
ghost use Rattle.arith.specs.Lists.{up_to};
ghost use Rattle.grid_bilinear.specs.Bilinear.{nearest_whole};
ghost use Rattle.grid_rows.specs.Private.{Fillable, Next, number_of, half_up, counts_from};

// A whole number of areas and the rest of a sum.
#[derive(Clone, Copy)]
pub struct Quotient {
    pub whole: i64,
    pub rest: u64,
}

// A whole number of areas and a rest, rounded: half an area or more counts as a whole one.
fn rounded(whole: i64, rest: u64, area: u64) -> i64
    requires { (rest ≤ area) × (nat_abs whole ≤ 10000000001) }
    ensures { result ≡ half_up area whole rest }
{
    if area - rest <= rest {
        return whole + 1;
    }
    whole
}

// The whole number nearest to the sum over the area. The sign is set apart, a negative sum being rounded as its opposite: so halves go away from zero.
fn nearest(whole: i64, rest: u64, area: u64) -> i64
    requires { (rest < area) × (nat_abs whole ≤ 10000000000) }
    ensures { result ≡ nearest_whole (number_of area whole rest) area }
{
    if whole < 0 {
        return 0 - rounded(0 - (whole + 1), area - rest, area);
    }
    rounded(whole, rest, area)
}

// One place on: what the sum grows by is added.
fn next(p: Quotient, by: Quotient, area: u64) -> Quotient
    requires { (p.rest < area) × (by.rest < area) × (nat_abs p.whole ≤ 10000000000) × (nat_abs by.whole ≤ 10000) }
    ensures { Next area p by result }
{
    let whole = p.whole + by.whole;
    let lack = area - by.rest;
    if p.rest < lack {
        return Quotient {
            whole,
            rest: p.rest + by.rest,
        };
    }
    Quotient {
        whole: whole + 1,
        rest: p.rest - lack,
    }
}

// The count of a sum.
fn count_of(mean: i64, p: Quotient, area: u64) -> i64
    requires { (p.rest < area) × (nat_abs p.whole ≤ 10000000000) × (nat_abs mean ≤ 10000000000) }
    ensures { result ≡ mean +ℤ nearest_whole (number_of area p.whole p.rest) area }
{
    mean + nearest(p.whole, p.rest, area)
}

// Fills a row with the counts of a sum that grows by the same from place to place. It stands alone, since within its caller the loop is short of registers and slower by a quarter.
#[inline(never)]
pub(crate) fn fill(row: &mut [i64], mean: i64, first: Quotient, by: Quotient, area: u64)
    requires { Fillable mean first by area (length row.old) }
    ensures { row.new ≡ up_to (counts_from mean area (number_of area first.whole first.rest) (number_of area by.whole by.rest)) (length row.old) }
{
    let mut p = first;
    let mut i: usize = 0;
    // A while: request A6 has nothing called out of this file, and a `for` calls the library's iterator.
    while i < row.len() {
        row[i] = count_of(mean, p, area);
        p = next(p, by, area);
        i += 1;
    }
}
