// The report of a list of points and one component.
#![tactic(auto)]

ghost use Rattle.std.specs.Prelude.{◌≡◌, length};
ghost use Rattle.report_points.specs.Reports.{report_of, points_of, lists_report};
ghost use Rattle.report_points.specs.Private.{start_of, step_of, report_from};
ghost use Rattle.report_prepared.specs.Private.{Serves};

use arith::refusals::Refusal;
use grid_component::Kept;
use report_prepared::Prepared;
use report_update::Report;

mod prepared;

// A position in whole steps.
#[derive(Clone, Copy)]
pub struct Point {
    pub north: i64,
    pub east: i64,
}

// The report before the first of so many points.
#[tactic(auto, unfolding(crate::specs::Private::start_of))]
fn start(component: u8, points: usize) -> Report
    ensures { result ≡ start_of component points }
{
    if 2 < component {
        return report_update::empty(Refusal::Component as u8);
    }
    if 10000 < points {
        return report_update::empty(Refusal::Length as u8);
    }
    report_update::empty(0)
}

// A report of so many points, and one point more, by what was kept of the message.
fn step(r: Report, message: &[u8], kept: Kept, component: u8, p: Point, before: usize) -> Report
    ensures { result ≡ step_of r message.now kept component p before }
{
    if r.refusal != 0 {
        return r;
    }
    let o = grid_component::count_at(message, kept, component, p.north, p.east);
    Report {
        refusal: 0,
        tally: report_update::with_outcome(r.tally, o.refusal, o.count, before as u64),
    }
}

// The same by prepared numbers.
fn prepared_step(
    r: Report,
    message: &[u8],
    kept: Kept,
    component: u8,
    ready: Prepared,
    nodes: &[i64; 16],
    p: Point,
    before: usize,
) -> Report
    requires { Serves message.now kept component ready nodes.now }
    ensures { result ≡ step_of r message.now kept component p before }
{
    if r.refusal != 0 {
        return r;
    }
    let o = prepared::count_at(message, kept, component, ready, nodes, p.north, p.east);
    Report {
        refusal: 0,
        tally: report_update::with_outcome(r.tally, o.refusal, o.count, before as u64),
    }
}

// A report of no points, and the points of two lists of one length.
fn steps(
    r: Report,
    message: &[u8],
    kept: Kept,
    component: u8,
    ready: Prepared,
    nodes: &[i64; 16],
    north: &[i64],
    east: &[i64],
) -> Report
    requires { (length north.now ≡ length east.now) × Serves message.now kept component ready nodes.now }
    ensures { result ≡ report_from message.now kept component 0 (points_of north.now east.now) r }
{
    let mut x = r;
    for i in 0..north.len() {
        let p = Point {
            north: north[i],
            east: east[i],
        };
        x = prepared_step(x, message, kept, component, ready, nodes, p, i);
    }
    x
}

// The report of the points whose coordinates stand in two lists; LENGTH where the lists differ in length.
pub fn report_lists(message: &[u8], component: u8, north: &[i64], east: &[i64]) -> Report
    ensures { result ≡ lists_report message.now component north.now east.now }
{
    let r = start(component, north.len());
    if r.refusal != 0 {
        return r;
    }
    if north.len() != east.len() {
        return report_update::empty(Refusal::Length as u8);
    }
    let kept = grid_component::keep(message);
    let nodes = report_prepared::nodes_of(message, component);
    let ready = report_prepared::prepare(message, kept, component);
    steps(r, message, kept, component, ready, &nodes, north, east)
}

// The report of a list of points.
pub fn report_points(message: &[u8], component: u8, points: &[Point]) -> Report
    ensures { result ≡ report_of message.now component points.now }
{
    let kept = grid_component::keep(message);
    let mut r = start(component, points.len());
    for (i, p) in points.iter().enumerate() {
        r = step(r, message, kept, component, *p, i);
    }
    r
}
