// Theorems of files of sample answers, each the promise of a function that does nothing, so that none can be taken away unnoticed.
#![tactic(auto)]

ghost use Rattle.demands_samples.specs.Samples.{NumberBack, BytesBack, WholeBack, WholeBytesBack, FileBack, ShapeExactly, AcceptedExactly, PlaceIsFirst, WrittenAccepted, ClaimChanged};

// Request A13: numbers and files are read back, the shape is that of the bytes of some message and points, a file is accepted exactly when all of it is
// right, the place is that of the first bad point, written files are accepted, and a changed claim is refused with its place.
pub fn samples()
    ensures number { NumberBack }
    ensures bytes { BytesBack }
    ensures whole { WholeBack }
    ensures eight { WholeBytesBack }
    ensures file { FileBack }
    ensures shape { ShapeExactly }
    ensures exactly { AcceptedExactly }
    ensures place { PlaceIsFirst }
    ensures written { WrittenAccepted }
    ensures changed { ClaimChanged }
{}
