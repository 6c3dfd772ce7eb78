// The search for frames in a stream of which a window is held.
#![tactic(auto)]

ghost use Rattle.std.specs.Prelude.{◌≡◌};
ghost use Rattle.frame_search.specs.Steps.{step_of};

use frame::NOFRAME;

// What is found at a place: a frame, with the length of its message, an unfinished candidate that is passed, or nothing without more bytes.
#[derive(Clone, Copy)]
pub enum Outcome {
    Found { at: usize, length: usize },
    Passed,
    More,
}

// What is found, and the place from which the search goes on.
#[derive(Clone, Copy)]
pub struct Step {
    pub outcome: Outcome,
    pub next: usize,
}

// The next step from a place of the bytes that are there; `ended` where no more come.
#[tactic(auto, using(crate::proofs::Inside::found_inside, crate::proofs::Inside::place_inside), unfolding(crate::specs::Steps::step_of, crate::specs::Steps::step_by))]
pub fn next_step(bytes: &[u8], from: usize, ended: bool) -> Step
    ensures { result ≡ step_of bytes.now from ended }
{
    let f = frame::find_frame(bytes, from);
    match f.refusal {
        0 => Step {
            outcome: Outcome::Found {
                at: f.at,
                length: f.length,
            },
            next: f.at + f.length + 6,
        },
        NOFRAME => Step {
            outcome: Outcome::More,
            next: bytes.len(),
        },
        _ if ended => Step {
            outcome: Outcome::Passed,
            next: f.at + 1,
        },
        _ => Step {
            outcome: Outcome::More,
            next: f.at,
        },
    }
}
