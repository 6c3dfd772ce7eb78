// The theorems of request A1 on streams of frames, the promise of a function that does nothing.
#![tactic(auto)]

ghost use Rattle.std.specs.Prelude.{ℕ, List};
ghost use Rattle.frame.specs.Words.{Bytes};
ghost use Rattle.demands_frames.specs.Frames.{WrittenFound, ReadBack, FoundStays, NeedGoesOn, NeedNotEarlier, Exactly, StepRight, SlideRight, WriterRefusals, PublishedFrames};

// Request A1: frames written are read back, bytes that arrive behind lose none, and each answer is given exactly when the paper says.
pub fn streams()
    ensures found { WrittenFound }
    ensures back { ReadBack }
    ensures stays { FoundStays }
    ensures further { NeedGoesOn }
    ensures later { NeedNotEarlier }
    ensures exactly { (s : List ℕ) (from : ℕ) → Bytes s → Exactly s from }
    ensures refusals { WriterRefusals }
    ensures published { PublishedFrames }
{}

// Steps over a window that slides find the frames of the whole stream: no step loses one, and a window without its first bytes shows the same frames.
pub fn windows()
    ensures step { StepRight }
    ensures slide { SlideRight }
{}
