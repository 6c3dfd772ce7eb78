// Frames of RTCM 10403.1, section 4, found in a stream of bytes.
#![tactic(auto)]

ghost use Rattle.std.specs.Prelude.{◌≡◌, ◌+◌, ◌≤◌, length, get_or};
ghost use Rattle.frame.specs.Frames.{candidate, length_of, three_at, right_crc, found, need, no_frame, find_frame};
ghost use Rattle.frame.specs.Private.{frame_at};

use arith::refusals::Refusal;

// The numbers that C gets where there is no frame: kept as numbers, since a frame's place stands beside NEED in the exported struct.
pub const NEED: u8 = Refusal::Need as u8;

pub const NOFRAME: u8 = Refusal::Noframe as u8;

// Where a frame stands and the length of its message; with NEED the place alone. The C interface hands it out as it is.
#[repr(C)]
#[derive(Clone, Copy)]
pub struct Frame {
    pub refusal: u8,
    pub at: usize,
    pub length: usize,
}

fn found(at: usize, length: usize) -> Frame
    ensures { result ≡ found at length }
{
    Frame {
        refusal: 0,
        at,
        length,
    }
}

fn need(at: usize) -> Frame
    ensures { result ≡ need at }
{
    Frame {
        refusal: NEED,
        at,
        length: 0,
    }
}

fn no_frame() -> Frame
    ensures { result ≡ no_frame }
{
    Frame {
        refusal: NOFRAME,
        at: 0,
        length: 0,
    }
}

// Byte k of t, 0 where it has not arrived.
fn byte_at(t: &[u8], k: usize) -> u8
    ensures { result ≡ get_or t.now k 0 }
{
    t.get(k).copied().unwrap_or(0)
}

// Whether t starts with a D3 and six zero bits.
#[tactic(auto, unfolding(crate::specs::Frames::candidate))]
fn is_candidate(t: &[u8]) -> bool
    ensures { result ≡ candidate t.now }
{
    byte_at(t, 0) == 0xd3 && byte_at(t, 1) < 4
}

// The ten-bit length.
#[tactic(auto, unfolding(crate::specs::Frames::length_of))]
fn length_of(t: &[u8]) -> usize
    ensures { (result ≡ length_of t.now) × (result ≤ 1023) }
{
    let high = usize::from(byte_at(t, 1));
    let low = usize::from(byte_at(t, 2));
    high % 4 * 256 + low
}

// The number of 24 bits from byte k on.
#[tactic(auto, unfolding(crate::specs::Frames::three_at))]
fn three_at(t: &[u8], k: usize) -> u32
    requires { k + 3 ≤ length t.now }
    ensures { result ≡ three_at t.now k }
{
    u32::from_be_bytes([0, t[k], t[k + 1], t[k + 2]])
}

// Whether the CRC behind the n message bytes is that of the bytes before it.
#[tactic(auto, unfolding(crate::specs::Frames::right_crc))]
fn right_crc(t: &[u8], n: usize) -> bool
    requires { (n ≡ length_of t.now) × (n + 6 ≤ length t.now) }
    ensures { result ≡ right_crc t.now }
{
    let e = n + 3;
    frame_crc::crc_of(&t[..e]) == three_at(t, e)
}

// What stands at the start of t, whose place is at.
#[tactic(auto, unfolding(crate::specs::Private::frame_at, crate::specs::Frames::unfinished, crate::specs::Frames::whole))]
fn frame_at(t: &[u8], at: usize) -> Frame
    ensures { result ≡ frame_at t.now at }
{
    if !is_candidate(t) {
        return no_frame();
    }
    let n = length_of(t);
    if t.len() < n + 6 {
        return need(at);
    }
    if right_crc(t, n) {
        return found(at, n);
    }
    no_frame()
}

// The first frame at or after a place.
pub fn find_frame(bytes: &[u8], from: usize) -> Frame
    ensures { result ≡ find_frame bytes.now from }
{
    for i in from..bytes.len() {
        let f = frame_at(&bytes[i..], i);
        if f.refusal != NOFRAME {
            return f;
        }
    }
    no_frame()
}
