// What the records of all messages share over a row, two buffers side by side: what a place says, numbers, a pair of indicators and counters.
#![tactic(auto)]

ghost use Rattle.std.specs.Prelude.{◌≡◌, false, ◌&&◌, [], ◌+◌, ◌≤◌, leb, eqb, length, take};
ghost use Rattle.arith.specs.Whole.{natural};
ghost use Rattle.layout.specs.Layout.{row_of};
ghost use Rattle.record_rows.specs.Numbers.{says, number_at, counter_at, pair_at};
ghost use Rattle.record_rows.specs.Inner.{buffers, numbers, appended, place_behind};
ghost use Rattle.record_rows.specs.Private.{Appended};

// An indicator for the horizontal and one for the vertical: DF190 and DF191, DF212 and DF213, DF214 and DF215, DF216 and DF217.
#[derive(Clone, Copy)]
pub struct Pair {
    pub horizontal: i64,
    pub vertical: i64,
}

// What place k of a row says, the value 0 behind its end.
pub fn says_at(values: &[i64], present: &[u8], k: usize) -> Option<i64>
    ensures { result ≡ says (row_of values.now present.now) k }
{
    if values.len() <= k {
        return Some(0);
    }
    if present.len() <= k {
        return Some(0);
    }
    layout::reading_in(values[k], present[k])
}

// The number at place k of a row: its value, 0 where it has none.
pub fn number_at(values: &[i64], present: &[u8], k: usize) -> i64
    ensures { result ≡ number_at (says (row_of values.now present.now)) k }
{
    layout::value_in(says_at(values, present, k))
}

// The same where it is not negative, else 0.
pub fn natural_at(values: &[i64], present: &[u8], k: usize) -> u64
    ensures { result ≡ natural (number_at (says (row_of values.now present.now)) k) }
{
    let z = number_at(values, present, k);
    z.max(0) as u64
}

// A name counter at place k of a row, 0 where no counter has that value.
pub fn counter_at(values: &[i64], present: &[u8], k: usize) -> usize
    ensures value { result ≡ counter_at (says (row_of values.now present.now)) k }
    ensures upper_bound { result ≤ 31 }
{
    let n = natural_at(values, present, k);
    if 31 < n {
        return 0;
    }
    n as usize
}

// A pair of indicators from place k of a row on.
pub fn pair_at(values: &[i64], present: &[u8], k: usize) -> Pair
    ensures { result ≡ pair_at (says (row_of values.now present.now)) k }
{
    if k >= values.len() {
        return Pair {
            horizontal: 0,
            vertical: 0,
        };
    }
    Pair {
        horizontal: number_at(values, present, k),
        vertical: number_at(values, present, k + 1),
    }
}

// The row of a record in two buffers side by side, and one list stored in another.

// The row of a record in both buffers: how many places, and behind them values 0 that are present.
#[derive(Clone, Copy)]
pub struct Row {
    pub count: usize,
    pub values: [i64; 96],
    pub present: [u8; 96],
}

impl Row {
    // The values of its places.
    pub fn values(&self) -> &[i64]
        ensures { result.now ≡ take self.now.count self.now.values }
    {
        &self.values[..self.count.min(96)]
    }

    // Their presence bytes.
    pub fn present(&self) -> &[u8]
        ensures { result.now ≡ take self.now.count self.now.present }
    {
        &self.present[..self.count.min(96)]
    }
}

// src into dst from place `at` on, where there is room: the place behind it.
fn store<T: Copy>(dst: &mut [T], at: usize, src: &[T]) -> usize
    requires { at + length src.now ≤ length dst.old }
    ensures { Appended dst.old at src.now result dst.new }
{
    let end = at + src.len();
    dst[at..end].copy_from_slice(src);
    end
}

// src into dst from place `at` on: the place behind it. Where dst has no room for it, nothing is stored.
#[tactic(auto, unfolding(crate::specs::Inner::appended, crate::specs::Inner::place_behind))]
pub fn append<T: Copy>(dst: &mut [T], at: usize, src: &[T]) -> usize
    ensures answer { result ≡ place_behind dst.old at src.now }
    ensures output { dst.new ≡ appended dst.old at src.now }
{
    if dst.len() < src.len() || dst.len() - src.len() < at {
        return at;
    }
    store(dst, at, src)
}

// The answer of a record with a bad name.
#[tactic(auto, unfolding(crate::specs::Inner::buffers))]
pub fn no_numbers() -> Option<Row>
    ensures { result ≡ numbers false [] }
{
    None
}

// The answer of a record that is one row: none for buffers of different counts, and for more places than any message has.
#[tactic(auto, unfolding(crate::specs::Inner::buffers))]
pub fn numbers_of(values: &[i64], present: &[u8]) -> Option<Row>
    ensures { result ≡ buffers (eqb (length values.now) (length present.now) && leb (length values.now) 96) values.now present.now }
{
    if values.len() != present.len() || 96 < values.len() {
        return None;
    }
    let mut v = [0i64; 96];
    let mut p = [1u8; 96];
    let count = store(&mut v, 0, values);
    store(&mut p, 0, present);
    Some(Row {
        count,
        values: v,
        present: p,
    })
}
