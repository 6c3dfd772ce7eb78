// A running tally of points and one component, updated point by point.
#![tactic(auto)]

ghost use Rattle.std.specs.Prelude.{◌≡◌, min};
ghost use Rattle.report_update.specs.Numbers.{points_in};
ghost use Rattle.report_tally.specs.Next.{next_of};

use arith::refusals::Refusal;
use report_update::{Report, Tally};

// The points of a tally, or 10,000 where there are more.
fn points_in(t: &Tally) -> u64
    ensures { result ≡ min (points_in t.now) 10000 }
{
    let mut n = t.answered;
    if 10000 <= n {
        return 10000;
    }
    for k in t.refused {
        if 10000 - n <= k {
            return 10000;
        }
        n += k;
    }
    n
}

// The tally after one point more; COMPONENT or LENGTH with the tally as it was.
#[tactic(auto, unfolding(crate::specs::Next::next_of, crate::specs::Next::next_refusal))]
pub fn tally_next(t: Tally, message: &[u8], component: u8, north: i64, east: i64) -> Report
    ensures { result ≡ next_of t message.now component north east }
{
    if 2 < component {
        return Report {
            refusal: Refusal::Component as u8,
            tally: t,
        };
    }
    let n = points_in(&t);
    if 10000 <= n || 100000000000 < t.sum.unsigned_abs() {
        return Report {
            refusal: Refusal::Length as u8,
            tally: t,
        };
    }
    let o = grid_component::part_at(message, component, north, east);
    Report {
        refusal: 0,
        tally: report_update::with_outcome(t, o.refusal, o.count, n),
    }
}

// The same of a tally that the caller lends; the number is answered.
pub fn tally_point(t: &mut Tally, message: &[u8], component: u8, north: i64, east: i64) -> u8
    ensures { (result ≡ (next_of t.old message.now component north east).refusal) × (t.new ≡ (next_of t.old message.now component north east).tally) }
{
    let r = tally_next(*t, message, component, north, east);
    *t = r.tally;
    r.refusal
}
