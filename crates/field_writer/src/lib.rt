// One field of bytes written, most significant bit first. The functions with a requires are private.
#![tactic(auto)]

ghost use Rattle.std.specs.Prelude.{◌≡◌, ◌+◌, ◌*◌, ◌^◌, ◌≤◌, ◌<◌, length, nat_abs, Some};
ghost use Rattle.field.specs.Field.{put_bits, set_field, pattern_of};
ghost use Rattle.field.specs.Inner.{put_field, put_signed};

// b with x in the m bits that have j bits below them.
fn put_bits(b: u8, j: usize, m: usize, x: u64) -> u8
    requires { (m + j ≤ 8) × (x < 2 ^ m) }
    ensures { result ≡ put_bits b j m x }
{
    let n = 1u64 << m;
    let d = 1u64 << j;
    let e = 1u64 << (m + j);
    let c = b as u64;
    ((c / e * n + x) * d + c % d) as u8
}

// s with the number v in the w bits from bit p on, a byte's share at a time.
// A while: the step is the share of the byte.
fn write_bits(s: &mut [u8], p: usize, w: usize, v: u64)
    requires { (w ≤ 63) × ((p + w ≤ 8 * length s.old) × ((p ≤ 65535) × (v < 2 ^ w))) }
    ensures { s.new ≡ set_field s.old p w v }
{
    let mut k: usize = 0;
    while k < w {
        let at = p + k;
        let free = 8 - at % 8;
        let m = free.min(w - k);
        let x = (v >> (w - k - m)) % (1 << m);
        let q = at / 8;
        s[q] = put_bits(s[q], free - m, m, x);
        k += m;
    }
}

// s with the number v in the w bits from bit p on; s as it is where it does not contain them or v has more bits.
#[tactic(auto, unfolding(field::specs::Inner::put_field))]
pub fn put_field(s: &mut [u8], p: usize, w: usize, v: u64)
    ensures { s.new ≡ put_field s.old p w v }
{
    if field::contains_field(s, p, w) && v < 1 << w {
        write_bits(s, p, w, v);
    }
}

// The pattern of z in w bits.
fn pattern_of(z: i64, w: usize) -> u64
    requires { (w ≤ 63) × (nat_abs z < 2 ^ w) }
    ensures { result ≡ pattern_of w (Some z) }
{
    let m = z.unsigned_abs();
    if z < 0 { (1 << w) - m } else { m }
}

// s with a signed field of w bits from bit p on that says r; s as it is where it does not contain them or r does not fit.
pub fn put_signed(s: &mut [u8], p: usize, w: usize, r: Option<i64>)
    ensures { s.new ≡ put_signed s.old p w r }
{
    if 63 < w {
        return;
    }
    let h = (1u64 << w) / 2;
    match r {
        Some(z) => {
            if z.unsigned_abs() < h {
                put_field(s, p, w, pattern_of(z, w));
            }
        }
        None => {
            put_field(s, p, w, h);
        }
    }
}
