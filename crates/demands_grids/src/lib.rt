// The demands as theorems, each the promise of a function, so that none can be taken away unnoticed: all but two_answers, which makes two calls, do nothing.
#![tactic(auto)]

ghost use Rattle.std.specs.Prelude.{ℕ, ◌≡◌, List};
ghost use Rattle.demands_grids.specs.Worked.{WorkedNumbers, WorkedMetres, GridsRead, GridKPresent};
ghost use Rattle.demands_grids.specs.Grids.{GridAnswer, SharedEdges, BothCalls, HeldIsWritten, OnlyWeighted, Lossless, SumBound, ThreeParts, ComponentNeverGiven, BoundBetween, Lipschitz, PlainSteps, EastTurned, BothLongitudes};
ghost use Rattle.grid_shifts.specs.Shift.{message_shifts};
ghost use Rattle.demands_grids.specs.Absent.{NoneIsThePattern, AcceptedNone, UnsignedHasValue, PatternRefused, RecordPatternRefused, RefusedIsZero, MeanFormed};
ghost use Rattle.demands_grids.specs.ShiftRows.{RowEqualsCalls, RowRefusedKeeps, RowNumbers, WholeTurn};

// Not available is not a number: what reading says of it, what writing refuses, and that no mean is formed of it.
pub fn absences()
    ensures none { NoneIsThePattern }
    ensures fields { AcceptedNone }
    ensures unsigned { UnsignedHasValue }
    ensures written { PatternRefused }
    ensures records { (out : List ℕ) → RecordPatternRefused out }
    ensures refused { (s : List ℕ) → RefusedIsZero s }
    ensures mean { MeanFormed }
{}

// Demand 2 of the shift at a position: the mean plus the nearest whole number, the same from every cell that holds the place and from both calls; and the three of one call.
pub fn shifts()
    ensures answer { GridAnswer }
    ensures edges { SharedEdges }
    ensures calls { BothCalls }
    ensures held { HeldIsWritten }
    ensures nodes { OnlyWeighted }
    ensures lossless { Lossless }
    ensures sum { SumBound }
    ensures three { ThreeParts }
    ensures component { ComponentNeverGiven }
{}

// Demand 3: one Lipschitz bound over the whole grid.
pub fn lipschitz()
    ensures bound { Lipschitz }
    ensures steps { PlainSteps }
{}

// Longitudes across the antimeridian: the difference from the origin that is used, and the same answer on both sides.
pub fn antimeridian()
    ensures turned { EastTurned }
    ensures sides { BothLongitudes }
{}

// The answers to two positions.
#[derive(Clone, Copy)]
pub struct TwoAnswers {
    pub first: grid_shifts::ThreeShifts,
    pub second: grid_shifts::ThreeShifts,
}

// Demand 3 of two calls on one message, for each of the three components.
pub fn two_answers(message: &[u8], north1: i64, east1: i64, north2: i64, east2: i64) -> TwoAnswers
    ensures first { result.first ≡ message_shifts message.now north1 east1 }
    ensures second { result.second ≡ message_shifts message.now north2 east2 }
    ensures north { BoundBetween message.now 0 result.first.parts.north result.second.parts.north north1 east1 north2 east2 }
    ensures east { BoundBetween message.now 1 result.first.parts.east result.second.parts.east north1 east1 north2 east2 }
    ensures height { BoundBetween message.now 2 result.first.parts.height result.second.parts.height north1 east1 north2 east2 }
{
    let first = grid_shifts::shifts_at(message, north1, east1);
    let second = grid_shifts::shifts_at(message, north2, east2);
    TwoAnswers { first, second }
}

// Document 01, "Numbers worked out": P1 to P12.
pub fn worked_numbers()
    ensures table { WorkedNumbers }
    ensures metres { WorkedMetres }
    ensures read { GridsRead }
    ensures present { GridKPresent }
{}

// Request A6: a row of shifts equals the calls, place by place, and its number is given exactly when the paper says.
pub fn rows()
    ensures equals { RowEqualsCalls }
    ensures refused { RowRefusedKeeps }
    ensures numbers { RowNumbers }
    ensures turn { WholeTurn }
{}
