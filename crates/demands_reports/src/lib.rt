// Request A10 as theorems, each the promise of a function that does nothing, so that none can be taken away unnoticed.
#![tactic(auto)]

ghost use Rattle.demands_reports.specs.Points.{RunningIsReport, AfterEveryPoint, RefusedComponent, GivenIsAll, RefusedKeeps, ReadAsZero, SmallestIs, GreatestIs, NoneAnswered, ListsArePoints};

// The running tally, from all zeros and with one message and component, and the report of the list.
pub fn running()
    ensures report { RunningIsReport }
    ensures next { AfterEveryPoint }
    ensures component { RefusedComponent }
    ensures kept { RefusedKeeps }
    ensures read { ReadAsZero }
{}

// What the numbers of a report say of its points.
pub fn numbers()
    ensures given { GivenIsAll }
    ensures smallest { SmallestIs }
    ensures greatest { GreatestIs }
    ensures none { NoneAnswered }
    ensures lists { ListsArePoints }
{}
