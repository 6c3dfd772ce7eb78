// Frames of RTCM 10403.1, section 4, written.
#![tactic(auto)]

ghost use Rattle.std.specs.Prelude.{◌≡◌, ◌+◌, ◌≤◌, ◌<◌, ◌^◌, ◌∷◌, ◌++◌, length, drop};
ghost use Rattle.layout.specs.Layout.{as_written, answered, stored};
ghost use Rattle.frame_crc.specs.Crc.{crc};
ghost use Rattle.frame.specs.Frames.{head, three, headed, frame};
ghost use Rattle.frame_writer.specs.Refusals.{frame_refusal};

use arith::refusals::Refusal;

// The head of a message of n bytes in the first three bytes of out.
#[tactic(auto, unfolding(frame::specs::Frames::head))]
fn put_head(out: &mut [u8], n: usize)
    requires { (n ≤ 1023) × (3 ≤ length out.old) }
    ensures { out.new ≡ head n ++ drop 3 out.old }
{
    out[..3].copy_from_slice(&[0xd3, (n / 256) as u8, (n % 256) as u8]);
}

// A number of 24 bits in the first three bytes of out.
#[tactic(auto, unfolding(frame::specs::Frames::three))]
fn put_crc(out: &mut [u8], c: u32)
    requires { (c < 2 ^ 24) × (3 ≤ length out.old) }
    ensures { out.new ≡ three c ++ drop 3 out.old }
{
    out[..3].copy_from_slice(&c.to_be_bytes()[1..]);
}

// The bytes of m in as many bytes of out. A loop over both, since `copy_from_slice` here asks the archive's caller for memmove.
fn copy(out: &mut [u8], m: &[u8])
    requires { length out.old ≡ length m.now }
    ensures { out.new ≡ m.now }
{
    for i in 0..m.len() {
        out[i] = m[i];
    }
}

// Head and message in the first bytes of out.
#[tactic(auto, using(crate::proofs::Put::headed_put))]
fn put_headed(m: &[u8], out: &mut [u8])
    requires { (length m.now ≤ 1023) × (length m.now + 3 ≤ length out.old) }
    ensures { out.new ≡ headed m.now ++ drop (length m.now + 3) out.old }
{
    put_head(out, m.len());
    let e = m.len() + 3;
    copy(&mut out[3..e], m);
}

// The CRC of head and message, of the message itself and not of the bytes just written, since a word of these would wait for them.
fn crc_of_headed(m: &[u8]) -> u32
    requires { length m.now ≤ 1023 }
    ensures { result ≡ crc (headed m.now) }
{
    // The head stands in the low three bytes; a zero byte before it leaves the CRC as it is.
    let head = 0xd30000 + m.len() as u32;
    frame_crc::crc_of_both(&head.to_be_bytes(), m)
}

// The frame of m in the first bytes of out.
fn put_frame(m: &[u8], out: &mut [u8])
    requires { (length m.now ≤ 1023) × (length m.now + 6 ≤ length out.old) }
    ensures { out.new ≡ frame m.now ++ drop (length m.now + 6) out.old }
{
    put_headed(m, out);
    let e = m.len() + 3;
    put_crc(&mut out[e..], crc_of_headed(m));
}

// The frame of a message in the first bytes of out, or LENGTH, ROOM.
#[tactic(auto, unfolding(crate::specs::Refusals::frame_refusal, layout::specs::Layout::answered, layout::specs::Layout::stored))]
pub fn write_frame(message: &[u8], out: &mut [u8]) -> Result<usize, Refusal>
    ensures answer { as_written result ≡ answered (frame_refusal message.now (length out.old)) (frame message.now) }
    ensures output { out.new ≡ stored (frame_refusal message.now (length out.old)) (frame message.now) out.old }
{
    let n = message.len();
    if 1023 < n {
        return Err(Refusal::Length);
    }
    if out.len() < n + 6 {
        return Err(Refusal::Room);
    }
    put_frame(message, out);
    Ok(n + 6)
}
