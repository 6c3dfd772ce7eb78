// Checking a vendor's sample answers against the shifts of their message. The functions with a requires are private.
#![tactic(auto)]

ghost use Rattle.std.specs.Prelude.{◌≡◌};
ghost use Rattle.grid_component.specs.Inner.{kept_of};
ghost use Rattle.sample_files.specs.File.{points_of};
ghost use Rattle.sample_checks.specs.Check.{right, first_bad, checked};

use arith::refusals::Refusal;
use grid_component::Kept;
use sample_files::SamplePoint;

// A refusal number, or 0; and with CLAIM the place, from 1, of the first bad point. The C interface hands it out as it is.
#[repr(C)]
#[derive(Clone, Copy)]
pub struct Checked {
    pub refusal: u8,
    pub place: usize,
}

// Whether a point is answered 0 with the count that it claims.
fn right_point(message: &[u8], kept: Kept, p: SamplePoint) -> bool
    requires { kept ≡ kept_of message.now }
    ensures { result ≡ right message.now p }
{
    let answer = grid_component::count_at(message, kept, p.component, p.north, p.east);
    answer.refusal == 0 && answer.count == p.claim
}

// The place, from 1, of the first bad point of a file, 0 where there is none, as the C interface answers it.
fn first_bad(message: &[u8], kept: Kept, file: &[u8]) -> usize
    requires { kept ≡ kept_of message.now }
    ensures { result ≡ first_bad message.now (points_of file.now) }
{
    let n = sample_files::point_count(file);
    for i in 0..n {
        if !right_point(message, kept, sample_files::point_at(file, i)) {
            return i + 1;
        }
    }
    0
}

// Checks a file: LAYOUT, 1 to 5 and KIND for its message, then CLAIM.
pub fn check_samples(file: &[u8]) -> Checked
    ensures { result ≡ checked file.now }
{
    if !sample_files::right_shape(file) {
        return Checked {
            refusal: Refusal::Layout as u8,
            place: 0,
        };
    }
    let e = sample_files::message_end(file);
    let message = &file[3..e];
    let kept = grid_component::keep(message);
    if kept.refusal != 0 {
        return Checked {
            refusal: kept.refusal,
            place: 0,
        };
    }
    let place = first_bad(message, kept, file);
    if place != 0 {
        return Checked {
            refusal: Refusal::Claim as u8,
            place,
        };
    }
    Checked {
        refusal: 0,
        place: 0,
    }
}
