// The demands on messages as theorems, each the promise of a function that does nothing, so that none can be taken away unnoticed.
#![tactic(auto)]

ghost use Rattle.std.specs.Prelude.{ℕ, suc, List, [], ◌∷◌, ◌≡◌, map, Result, Ok, Err};
ghost use Rattle.arith.specs.Lists.{up_to};
ghost use Rattle.arith.specs.Refusals.{number, outcome_number};
ghost use Rattle.arith.specs.declared.refusals.Refusal.{Refusal};
ghost use Rattle.arith.specs.declared.refusals.Refusal.TheVariants.{Short, Number, Length, Fill, Range, Room, Kind, Component, Position, Off, Method, Origin, Spacing, Outside, Absent, Full, None, Table, Need, Noframe, Owner, Index, Nomean, Layout, Claim};
ghost use Rattle.layout.specs.Layout.{as_written};
ghost use Rattle.layout.specs.declared.Written.{Written};
ghost use Rattle.demands_messages.specs.Messages.{FirstThatApplies, CounterCut, AcceptedLengths, SinFound, BothTrips};

// Demand 1 of reading: the first refusal that applies, and only then.
pub fn refusals()
    ensures order { (s : List ℕ) → FirstThatApplies s }
    ensures counters { CounterCut }
{}

// Demand 2: the lengths of messages, and where the system identification number stands.
pub fn lengths()
    ensures accepted { AcceptedLengths }
    ensures sin { SinFound }
{}

// Demand 2: both round trips, the reported length and the writers' refusals, of rows and of records.
pub fn round_trips()
    ensures trips { BothTrips }
{}

// The refusals in the order of their numbers, which begin with 1, and what an answer gives for its refusal.
pub fn refusal_numbers()
    ensures numbers { map number (Short ∷ Number ∷ Length ∷ Fill ∷ Range ∷ Room ∷ Kind ∷ Component ∷ Position ∷ Off ∷ Method ∷ Origin ∷ Spacing ∷ Outside ∷ Absent ∷ Full ∷ None ∷ Table ∷ Need ∷ Noframe ∷ Owner ∷ Index ∷ Nomean ∷ Layout ∷ Claim ∷ []) ≡ up_to suc 25 }
    ensures passed { (n : ℕ) → outcome_number {A = ℕ} (Ok n) ≡ 0 }
    ensures refused { (r : Refusal) → outcome_number {A = ℕ} (Err r) ≡ number r }
    ensures written { (n : ℕ) → as_written (Ok n) ≡ record { refusal = 0; length = n } }
    ensures unwritten { (r : Refusal) → as_written (Err r) ≡ record { refusal = number r; length = 0 } }
{}
