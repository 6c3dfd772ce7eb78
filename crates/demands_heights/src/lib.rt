// Theorems of height grids, each the promise of a function that does nothing, so that none can be taken away unnoticed.
#![tactic(auto)]

ghost use Rattle.demands_heights.specs.Heights.{ChoosesSmallest, NoMeanExactly, OnlyOthers, NotLookedAt, GivesWanted};

// Request A11: the mean chosen is the smallest that fits, NOMEAN is given exactly if none does, RANGE never for a height, whose fields in the row are not
// looked at, and a rover gets the wanted heights.
pub fn height_grids()
    ensures smallest { ChoosesSmallest }
    ensures none { NoMeanExactly }
    ensures others { OnlyOthers }
    ensures heights { NotLookedAt }
    ensures wanted { GivesWanted }
{}
