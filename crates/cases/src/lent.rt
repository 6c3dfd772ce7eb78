// The two functions that take points or a tally by reference, lent what a local holds.
ghost use Rattle.std.specs.Prelude.{◌≡◌, ◌≤◌, take};
ghost use Rattle.report_tally.specs.Next.{next_of};
ghost use Rattle.report_points.specs.Reports.{report_of};

use report_points::Point;
use report_update::{Report, Tally};

// What `tally_point` answers of a tally that it is lent, and the tally afterwards.
pub(crate) fn tally_after(t: Tally, message: &[u8], component: u8, north: i64, east: i64) -> Report
    ensures { result ≡ next_of t message.now component north east }
{
    let mut lent = t;
    let refusal = report_tally::tally_point(&mut lent, message, component, north, east);
    Report {
        refusal,
        tally: lent,
    }
}

// The report of the first `n` of some points, which are lent.
pub(crate) fn report_of(message: &[u8], component: u8, points: [Point; 10001], n: usize) -> Report
    requires { n ≤ 10001 }
    ensures { result ≡ report_of message.now component (take n points) }
{
    report_points::report_points(message, component, &points[..n])
}
