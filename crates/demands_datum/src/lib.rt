// Request A12 as theorems, each the promise of a function, so that none can be taken away unnoticed: four functions make one call each, whose promise they restate, and worked_steps does nothing.
#![tactic(auto)]

ghost use Rattle.std.specs.Prelude.{◌≡◌, ◌*◌, ◌^◌};
ghost use Rattle.arith.specs.First.{first};
ghost use Rattle.datum_formula.specs.Formula.{beyond_any, zeros, formula_tests, Answered};
ghost use Rattle.datum.specs.Step.{Stepped};
ghost use Rattle.demands_datum.specs.Steps.{Bound, in_order, FormulaBound};
ghost use Rattle.demands_datum.specs.Worked.{WorkedSteps};

// The bound for every message and position, and the refusals as one list in order.
pub fn step(message: &[u8], x: i64, y: i64, z: i64) -> datum_formula::Position
    ensures promise { Stepped message.now x y z result }
    ensures order { result.refusal ≡ first (in_order message.now x y z) }
    ensures bound { Bound message.now x y z result }
{
    datum::datum_step(message, x, y, z)
}

// The bound that the arithmetic has: 0.521 units.
pub fn transformed(v: datum_formula::Values, x: i64, y: i64, z: i64) -> datum_formula::Position
    ensures promise { Answered (521 * 10 ^ 32) (first (formula_tests v x y z)) v x y z result }
    ensures bound { FormulaBound (521 * 10 ^ 32) v x y z result }
{
    datum_formula::transformed(v, x, y, z)
}

pub fn beyond(limit: u64, a: i64, b: i64, c: i64) -> bool
    ensures { result ≡ beyond_any limit a b c }
{
    datum_formula::beyond(limit, a, b, c)
}

pub fn refused(refusal: u8) -> datum_formula::Position
    ensures { result ≡ zeros refusal }
{
    datum_formula::refused(refusal)
}

// Steps worked out.
pub fn worked_steps()
    ensures { WorkedSteps }
{}
