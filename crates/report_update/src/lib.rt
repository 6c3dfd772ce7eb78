// A tally of points and one component, and one point more.
#![tactic(auto)]

ghost use Rattle.std.specs.Prelude.{◌≡◌, cond, ◌||◌, [], ◌-◌, ◌≤◌, ◌<◌, eqb, nat_abs, get_or};
ghost use Rattle.std.specs.Int.Signed.{lt_z};
ghost use Rattle.report_update.specs.Numbers.{report_with};
ghost use Rattle.report_update.specs.Update.{as_read, with_refused, with_answered};
ghost use Rattle.report_update.specs.Inner.{countable, refusable, grown_by};

// Points answered, points refused under 1 to 15, the smallest and the greatest count, their first places, and the sum of counts.
#[repr(C)]
#[derive(Clone, Copy)]
pub struct Tally {
    pub answered: u64,
    pub refused: [u64; 15],
    pub smallest: i64,
    pub greatest: i64,
    pub smallest_place: u64,
    pub greatest_place: u64,
    pub sum: i64,
}

// A refusal number, or 0, and a tally.
#[repr(C)]
#[derive(Clone, Copy)]
pub struct Report {
    pub refusal: u8,
    pub tally: Tally,
}

// A refusal, or 0, with a tally of zeros.
pub fn empty(refusal: u8) -> Report
    ensures { result ≡ report_with refusal [] }
{
    let tally = Tally {
        answered: 0,
        refused: [0; 15],
        smallest: 0,
        greatest: 0,
        smallest_place: 0,
        greatest_place: 0,
        sum: 0,
    };
    Report { refusal, tally }
}

// Whether a count is new: the first, or below the old one.
fn is_new(answered: u64, low: i64, high: i64) -> bool
    ensures { result ≡ (eqb answered 0 || lt_z low high) }
{
    answered == 0 || low < high
}

// The new value, or the old one.
fn chosen<T: Copy>(new: bool, value: T, old: T) -> T
    ensures { result ≡ cond new value old }
{
    if new { value } else { old }
}

// One point more, answered.
fn with_answered(t: Tally, count: i64, place: u64) -> Tally
    requires { (t.answered < 10000) × (nat_abs t.sum ≤ 100000000000) × (nat_abs count ≤ 10000000) }
    ensures { result ≡ with_answered t count place }
{
    let refused = t.refused;
    let low = is_new(t.answered, count, t.smallest);
    let high = is_new(t.answered, t.greatest, count);
    let smallest = chosen(low, count, t.smallest);
    let greatest = chosen(high, count, t.greatest);
    let smallest_place = chosen(low, place, t.smallest_place);
    let greatest_place = chosen(high, place, t.greatest_place);
    Tally {
        answered: t.answered + 1,
        refused,
        smallest,
        greatest,
        smallest_place,
        greatest_place,
        sum: t.sum + count,
    }
}

// One point more with the count is within the limits of a tally.
fn countable(t: Tally, count: i64) -> bool
    ensures { result ≡ countable t count }
{
    t.answered < 10000 && t.sum.unsigned_abs() <= 100000000000 && count.unsigned_abs() <= 10000000
}

// The same, or the tally as it was where a number would be past its limit.
fn with_count(t: Tally, count: i64, place: u64) -> Tally
    ensures { result ≡ cond (countable t count) (with_answered t count place) t }
{
    if !countable(t, count) {
        return t;
    }
    with_answered(t, count, place)
}

// The tally as it is read: where none is answered, smallest, greatest and their places are zero.
fn as_read(t: Tally) -> Tally
    ensures { result ≡ as_read t }
{
    let refused = t.refused;
    if t.answered == 0 {
        return Tally {
            answered: 0,
            refused,
            smallest: 0,
            greatest: 0,
            smallest_place: 0,
            greatest_place: 0,
            sum: t.sum,
        };
    }
    t
}

// One point more, refused under the number n.
fn with_refused(t: Tally, n: u8) -> Tally
    requires { (1 ≤ n) × (n ≤ 15) × (get_or t.refused (n - 1) 0 < 10000) }
    ensures { result ≡ with_refused t n }
{
    let mut u = t;
    u.refused[(n - 1) as usize] += 1;
    u
}

// The same, or the tally as it was where a number would be past its limit.
fn with_refusal(t: Tally, n: u8) -> Tally
    requires { 1 ≤ n }
    ensures { result ≡ cond (refusable t n) (with_refused (as_read t) n) t }
{
    if 15 < n {
        return t;
    }
    let refused = t.refused;
    if 10000 <= refused[(n - 1) as usize] {
        return t;
    }
    with_refused(as_read(t), n)
}

// One point more behind so many, with its refusal number or 0 and its count; the tally as it was where a number would be past its limit.
pub fn with_outcome(t: Tally, refusal: u8, count: i64, before: u64) -> Tally
    ensures { result ≡ grown_by t refusal count before }
{
    if 10000 <= before {
        return t;
    }
    if refusal == 0 {
        return with_count(t, count, before + 1);
    }
    with_refusal(t, refusal)
}
