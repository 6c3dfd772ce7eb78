// Making a height grid: a 1023 message from sixteen wanted heights in millimetres and the rest of its row.
#![tactic(auto)]

ghost use Rattle.std.specs.Prelude.{◌≡◌, true, ◌≤◌, ◌<◌, length, nat_abs};
ghost use Rattle.arith.specs.First.{first};
ghost use Rattle.arith.specs.Refusals.{outcome_number};
ghost use Rattle.layout.specs.Layout.{as_written};
ghost use Rattle.heights_mean.specs.Means.{less, near, fits};
ghost use Rattle.heights.specs.Heights.{of_height, value_with, present_with, height_values, height_present, zero_beside, says_other, record_tests, write_heights};

use arith::refusals::Refusal;
use std::array;

// Whether place k of a row holds the value 0 beside the presence byte `mark`.
#[tactic(auto, unfolding(crate::specs::Heights::zero_beside, arith::specs::Whole::same_z))]
fn zero_beside(values: &[i64], present: &[u8], k: usize, mark: u8) -> bool
    requires { (k < length values.now) × (k < length present.now) }
    ensures { result ≡ zero_beside mark values.now present.now k }
{
    present[k] == mark && values[k] == 0
}

// Whether place k says a value other than 0.
#[tactic(auto, unfolding(crate::specs::Heights::says_other, arith::specs::Whole::same_z))]
fn says_other(values: &[i64], present: &[u8], k: usize) -> bool
    requires { (k < length values.now) × (k < length present.now) }
    ensures { result ≡ says_other values.now present.now k }
{
    present[k] == 1 && values[k] != 0
}

// OFF, METHOD, ORIGIN or SPACING, where one applies.
fn record_refusal(values: &[i64], present: &[u8]) -> Result<(), Refusal>
    requires { (length values.now ≡ 64) × (length present.now ≡ 64) }
    ensures { outcome_number result ≡ first (record_tests values.now present.now) }
{
    if zero_beside(values, present, 3, 1) {
        return Err(Refusal::Off);
    }
    if says_other(values, present, 60) {
        return Err(Refusal::Method);
    }
    if zero_beside(values, present, 4, 0) || zero_beside(values, present, 5, 0) {
        return Err(Refusal::Origin);
    }
    if zero_beside(values, present, 6, 1) || zero_beside(values, present, 7, 1) {
        return Err(Refusal::Spacing);
    }
    Ok(())
}

// A height less the mean.
fn height_less(height: i64, mean: i64) -> i64
    requires { (nat_abs mean ≤ 16383) × (near mean height ≡ true) }
    ensures { result ≡ less height mean }
{
    height - 10 * mean
}

// Whether place k of a row is that of DF198 or of a DF201.
fn of_height(k: usize) -> bool
    ensures { result ≡ of_height k }
{
    10 <= k && k <= 58 && k % 3 == 1
}

// The value at place k of the row with the mean and the wanted heights.
#[tactic(auto, unfolding(crate::specs::Heights::value_with))]
fn value_with(values: &[i64], wanted: &[i64], mean: i64, k: usize) -> i64
    requires { (k < length values.now) × ((nat_abs mean ≤ 16383) × (fits wanted.now mean ≡ true)) }
    ensures { result ≡ value_with values.now wanted.now mean k }
{
    if !of_height(k) {
        return values[k];
    }
    if k == 10 {
        return mean;
    }
    height_less(heights_mean::height_at(wanted, (k - 13) / 3), mean)
}

// The presence byte at place k of that row.
#[tactic(auto, unfolding(crate::specs::Heights::present_with))]
fn present_with(present: &[u8], k: usize) -> u8
    requires { k < length present.now }
    ensures { result ≡ present_with present.now k }
{
    if of_height(k) { 1 } else { present[k] }
}

// The values of that row.
fn values_with(values: &[i64], wanted: &[i64], mean: i64) -> [i64; 64]
    requires { (length values.now ≡ 64) × ((nat_abs mean ≤ 16383) × (fits wanted.now mean ≡ true)) }
    ensures { result ≡ height_values values.now wanted.now mean }
{
    array::from_fn(|k| value_with(values, wanted, mean, k))
}

// Its presence bytes.
fn bytes_with(present: &[u8]) -> [u8; 64]
    requires { length present.now ≡ 64 }
    ensures { result ≡ height_present present.now }
{
    array::from_fn(|k| present_with(present, k))
}

// The 1023 message of the wanted heights, with the other fields of the row, in the first bytes of out: RANGE for counts other than 64, 64 and 16,
// OFF, METHOD, ORIGIN, SPACING, NOMEAN, RANGE, ROOM.
#[tactic(auto, unfolding(crate::specs::Heights::heights_refusal, crate::specs::Heights::heights_message, layout::specs::Layout::answered, layout::specs::Layout::stored))]
pub fn write_heights(
    values: &[i64],
    present: &[u8],
    wanted: &[i64],
    out: &mut [u8],
) -> Result<usize, Refusal>
    ensures answer { as_written result ≡ (write_heights values.now present.now wanted.now out.old).answer }
    ensures output { out.new ≡ (write_heights values.now present.now wanted.now out.old).output }
{
    if values.len() != 64 || present.len() != 64 || wanted.len() != 16 {
        return Err(Refusal::Range);
    }
    record_refusal(values, present)?;
    let Some(mean) = heights_mean::smallest_mean(wanted) else {
        return Err(Refusal::Nomean);
    };
    let v = values_with(values, wanted, mean);
    let p = bytes_with(present);
    message_rows::write_kind(true, &v, &p, 1023, 1023, out)
}
