// The mean of a height grid, DF198 in steps of 0.01 m, for sixteen wanted heights in millimetres.
#![tactic(auto)]

ghost use Rattle.std.specs.Prelude.{◌≡◌, true, ◌≤◌, nat_abs};
ghost use Rattle.arith.specs.Lists.{at};
ghost use Rattle.heights_mean.specs.Means.{less, near, fits, smallest_mean};
ghost use Rattle.heights_mean.specs.Private.{greatest, Least};

// Wanted height i, numbered from 0: 0 behind the end.
pub fn height_at(wanted: &[i64], i: usize) -> i64
    ensures { result ≡ at wanted.now i }
{
    wanted.get(i).copied().unwrap_or(0)
}

// The greatest of sixteen wanted heights.
fn greatest_of(wanted: &[i64]) -> i64
    ensures { result ≡ greatest (at wanted.now) 16 }
{
    let mut r = height_at(wanted, 0);
    for i in 0..16 {
        r = r.max(height_at(wanted, i));
    }
    r
}

// The lowest and the highest mean.
const LOWEST: i64 = -16383;

const HIGHEST: i64 = 16383;
// The mean behind the lowest, the smallest height that is more than 255 mm above the lowest, and the greatest that is not above the highest.
const SECOND: i64 = LOWEST + 1;

const LOW: i64 = 10 * LOWEST + 256;

const HIGH: i64 = 10 * HIGHEST + 255;

// The smallest mean with which this height less the mean is at most 255 mm; the highest where there is none.
fn least_mean(height: i64) -> i64
    ensures { Least height result }
{
    if height < LOW {
        return LOWEST;
    }
    if HIGH < height {
        return HIGHEST;
    }
    (height - LOW) / 10 + SECOND
}

// Whether a height less the mean lies within 255 mm.
#[tactic(auto, unfolding(crate::specs::Means::near, crate::specs::Means::less))]
fn is_near(mean: i64, height: i64) -> bool
    requires { nat_abs mean ≤ 16383 }
    ensures { result ≡ near mean height }
{
    height.abs_diff(10 * mean) <= 255
}

// Whether all sixteen heights less the mean do.
fn all_near(wanted: &[i64], mean: i64) -> bool
    requires { nat_abs mean ≤ 16383 }
    ensures { result ≡ fits wanted.now mean }
{
    (0..16).all(|i| is_near(mean, height_at(wanted, i)))
}

// The smallest mean from -16,383 to 16,383 with which every height less the mean lies within 255 mm: no smaller one does so of the greatest height.
pub fn smallest_mean(wanted: &[i64]) -> Option<i64>
    ensures { result ≡ smallest_mean wanted.now }
{
    let m = least_mean(greatest_of(wanted));
    all_near(wanted, m).then_some(m)
}
