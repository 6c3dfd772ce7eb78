// Why a call is refused: document 01, "Refusal numbers", and document 02 from 19 on. What each means stands in include/tarnoklej.h.
ghost use Rattle.std.specs.Prelude.{◌≡◌};
ghost use Rattle.arith.specs.Refusals.{number, outcome_number};

// The numbers stand in the papers' order, from 1.
#[derive(Clone, Copy, PartialEq, Eq)]
pub enum Refusal {
    Short = 1,
    Number = 2,
    Length = 3,
    Fill = 4,
    Range = 5,
    Room = 6,
    Kind = 7,
    Component = 8,
    Position = 9,
    Off = 10,
    Method = 11,
    Origin = 12,
    Spacing = 13,
    Outside = 14,
    Absent = 15,
    Full = 16,
    None = 17,
    Table = 18,
    Need = 19,
    Noframe = 20,
    Owner = 21,
    Index = 22,
    Nomean = 23,
    Layout = 24,
    Claim = 25,
}

// The number of a refusal.
pub fn number_of(refusal: Refusal) -> u8
    ensures { result ≡ number refusal }
{
    refusal as u8
}

// The number of an answer: 0 where it is not refused.
pub fn outcome_number(outcome: Result<(), Refusal>) -> u8
    ensures { result ≡ outcome_number outcome }
{
    match outcome {
        Ok(()) => 0,
        Err(refusal) => number_of(refusal),
    }
}
