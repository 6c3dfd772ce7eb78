// Numbers in bytes, high byte first. The functions with a requires are private.
#![tactic(auto)]

ghost use Rattle.std.specs.Prelude.{◌≡◌, ◌+◌, ◌≤◌, leb, length};
ghost use Rattle.sample_numbers.specs.Number.{number, bytes_of, whole_bytes, put_bytes};
ghost use Rattle.sample_numbers.specs.Inner.{number_at, whole_at};

// The number in at most 8 bytes.
fn read_number(bytes: &[u8]) -> u64
    requires { length bytes.now ≤ 8 }
    ensures { result ≡ number (length bytes.now) bytes.now }
{
    let mut r: u64 = 0;
    for b in bytes {
        r = r * 256 + u64::from(*b);
    }
    r
}

// Whether k bytes from byte a on end within n bytes.
fn within(n: usize, a: usize, k: usize) -> bool
    ensures { result ≡ leb (a + k) n }
{
    k <= n && a <= n - k
}

// The number in the k bytes of s from byte a on; 0 where k is above 8 or the bytes reach past the end.
#[tactic(auto, unfolding(crate::specs::Inner::number_at))]
pub fn number_at(s: &[u8], a: usize, k: usize) -> u64
    ensures { result ≡ number_at s.now a k }
{
    if 8 < k || !within(s.len(), a, k) {
        return 0;
    }
    read_number(&s[a..a + k])
}

// The whole number in the 8 bytes of s from byte a on; 0 where they reach past the end.
#[tactic(auto, unfolding(crate::specs::Inner::whole_at, field::specs::Field::twos))]
pub fn whole_at(s: &[u8], a: usize) -> i64
    ensures { result ≡ whole_at s.now a }
{
    number_at(s, a, 8).cast_signed()
}

// Fills out with the bytes of v.
fn put_number(out: &mut [u8], v: u64)
    ensures { out.new ≡ bytes_of (length out.old) v }
{
    let mut left = v;
    for k in (0..out.len()).rev() {
        out[k] = (left % 256) as u8;
        left /= 256;
    }
}

// out with the k bytes of v from byte a on; out as it is where they reach past its end.
pub fn put_at(out: &mut [u8], a: usize, k: usize, v: u64)
    ensures { out.new ≡ put_bytes out.old a (bytes_of k v) }
{
    if within(out.len(), a, k) {
        put_number(&mut out[a..a + k], v);
    }
}

// out with the 8 bytes of z from byte a on; out as it is where they reach past its end.
#[tactic(auto, unfolding(crate::specs::Number::whole_bytes))]
pub fn put_whole(out: &mut [u8], a: usize, z: i64)
    ensures { out.new ≡ put_bytes out.old a (whole_bytes z) }
{
    put_at(out, a, 8, z.cast_unsigned());
}

// The bytes of s in as many bytes of out. A loop over both, since `copy_from_slice` here asks the archive's caller for memmove.
fn copy(out: &mut [u8], s: &[u8])
    requires { length out.old ≡ length s.now }
    ensures { out.new ≡ s.now }
{
    for i in 0..s.len() {
        out[i] = s[i];
    }
}

// out with the bytes of s from byte a on; out as it is where they reach past its end.
#[tactic(auto, unfolding(crate::specs::Number::put_bytes))]
pub fn put_bytes(out: &mut [u8], a: usize, s: &[u8])
    ensures { out.new ≡ put_bytes out.old a s.now }
{
    if within(out.len(), a, s.len()) {
        copy(&mut out[a..a + s.len()], s);
    }
}
