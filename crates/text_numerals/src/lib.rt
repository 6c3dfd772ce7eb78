// Numbers in decimal digits and bytes in hexadecimal ones, read from a text and put into one.
#![tactic(auto)]

ghost use Rattle.std.specs.Prelude.{◌+◌, ◌*◌, ◌/◌, ◌≤◌, ◌<◌, true, ◌∷◌, ◌++◌, ◌≡◌, Some, length, take, drop};
ghost use Rattle.std.proofs.Math.Seq.{paste};
ghost use Rattle.text_words.specs.Inner.{put, place_behind};
ghost use Rattle.text_numerals.specs.Inner.{natural, byte_of, positive, negative, whole, decimal, whole_decimal, digit, glyph, pairs, bytes_of, hex_count, hex_filled, pairs_of, hexadecimal};

// The value of a lower case hexadecimal digit, 16 for another byte.
#[tactic(auto, unfolding(crate::specs::Inner::digit))]
fn digit(b: u8) -> usize
    ensures { result ≡ digit b }
{
    match b {
        b'0'..=b'9' => (b - b'0') as usize,
        b'a'..=b'f' => (b - 87) as usize,
        _ => 16,
    }
}

// A natural number below 2^64 in decimal digits.
pub fn natural(s: &[u8]) -> Option<usize>
    ensures { result ≡ natural s.now }
{
    if s.is_empty() {
        return None;
    }
    let mut n: usize = 0;
    for b in s {
        let d = digit(*b);
        if 9 < d {
            return None;
        }
        n = n.checked_mul(10)?.checked_add(d)?;
    }
    Some(n)
}

// A natural number below 256 in decimal digits.
#[tactic(auto, unfolding(crate::specs::Inner::byte_of))]
pub fn small(s: &[u8]) -> Option<u8>
    ensures { result ≡ byte_of (natural s.now) }
{
    u8::try_from(natural(s)?).ok()
}

// A whole number of 64 bits in decimal digits, with `-` before a negative one.
pub fn whole(s: &[u8]) -> Option<i64>
    ensures { result ≡ whole s.now }
{
    match s.strip_prefix(b"-") {
        Some(digits) => negative(natural(digits)?),
        None => positive(natural(s)?),
    }
}

#[tactic(auto, unfolding(crate::specs::Inner::positive))]
fn positive(n: usize) -> Option<i64>
    ensures { result ≡ positive (Some n) }
{
    i64::try_from(n).ok()
}

#[tactic(auto, unfolding(crate::specs::Inner::negative))]
fn negative(n: usize) -> Option<i64>
    ensures { result ≡ negative (Some n) }
{
    0i64.checked_sub_unsigned(n as u64)
}

// The bytes that pairs of digits spell, at the front of a buffer, and their number; `-` spells none. Where there is no room for all, nothing is stored.
pub fn hex(s: &[u8], bytes: &mut [u8]) -> Option<usize>
    ensures answer { result ≡ hex_count s.now bytes.old }
    ensures output { bytes.new ≡ hex_filled s.now bytes.old }
{
    if text_words::same(s, b"-") {
        return Some(0);
    }
    if s.is_empty() || bytes.len() < s.len() / 2 || !pairs(s) {
        return None;
    }
    fill(s, bytes);
    Some(s.len() / 2)
}

// Whether a text is pairs of hexadecimal digits.
fn pairs(s: &[u8]) -> bool
    ensures { result ≡ pairs s.now }
{
    s.len() % 2 == 0 && s.iter().all(|b| digit(*b) < 16)
}

fn fill(s: &[u8], bytes: &mut [u8])
    requires s_value { pairs s.now ≡ true }
    requires s_in_bounds { length s.now / 2 ≤ length bytes.old }
    ensures { bytes.new ≡ bytes_of s.now ++ drop (length s.now / 2) bytes.old }
{
    for k in 0..s.len() / 2 {
        bytes[k] = byte_of(digit(s[2 * k]), digit(s[2 * k + 1]));
    }
}

fn byte_of(high: usize, low: usize) -> u8
    requires high_bound { high < 16 }
    requires low_bound { low < 16 }
    ensures { result ≡ high * 16 + low }
{
    (high * 16 + low) as u8
}

// The first `n` numbers, all where there are fewer.
pub fn first(row: &[i64], n: usize) -> &[i64]
    ensures { result.now ≡ take n row.now }
{
    text_words::before(row, n)
}

// A number's decimal digits at the end of `text`, behind the place that is the answer.
fn digits(n: u64, text: &mut [u8]) -> usize
    requires { length text.old ≡ 21 }
    ensures before { result < 21 }
    ensures output { drop (result + 1) text.new ≡ decimal n }
{
    let mut rest = n;
    for done in 0..20 {
        let k = 20 - done;
        text[k] = 48 + (rest % 10) as u8;
        if rest < 10 {
            return k - 1;
        }
        rest /= 10;
    }
    0
}

// Puts a natural number's digits at a place, and answers the place behind them (`text_words::put`).
pub fn put_natural(out: &mut [u8], at: usize, n: u64) -> usize
    ensures output { out.new ≡ put out.old at (decimal n) }
    ensures answer { result ≡ place_behind out.old at (decimal n) }
{
    let mut text = [0u8; 21];
    let from = digits(n, &mut text) + 1;
    text_words::put(out, at, &text[from..])
}

// The same of a whole number, with `-` before a negative one.
pub fn put_whole(out: &mut [u8], at: usize, n: i64) -> usize
    ensures output { out.new ≡ put out.old at (whole_decimal n) }
    ensures answer { result ≡ place_behind out.old at (whole_decimal n) }
{
    if n < 0 {
        return put_negative(out, at, n.unsigned_abs());
    }
    put_natural(out, at, n.unsigned_abs())
}

// `-` and a number's digits.
fn put_negative(out: &mut [u8], at: usize, n: u64) -> usize
    ensures output { out.new ≡ put out.old at (45 ∷ decimal n) }
    ensures answer { result ≡ place_behind out.old at (45 ∷ decimal n) }
{
    let mut text = [0u8; 21];
    let k = digits(n, &mut text);
    text[k] = b'-';
    text_words::put(out, at, &text[k..])
}

// Puts two hexadecimal digits a byte at a place, `-` for no bytes, and answers the place behind them (`text_words::put`).
pub fn put_hex(out: &mut [u8], at: usize, s: &[u8]) -> usize
    ensures output { out.new ≡ put out.old at (hexadecimal s.now) }
    ensures answer { result ≡ place_behind out.old at (hexadecimal s.now) }
{
    if s.len() == 0 {
        return text_words::put(out, at, b"-");
    }
    if out.len() < at {
        return at;
    }
    if (out.len() - at) / 2 < s.len() {
        return at;
    }
    spell(out, at, s);
    at + 2 * s.len()
}

fn spell(out: &mut [u8], at: usize, s: &[u8])
    requires { at + 2 * length s.now ≤ length out.old }
    ensures { out.new ≡ paste out.old at (pairs_of s.now) (2 * length s.now) }
{
    for (k, b) in s.iter().enumerate() {
        out[at + 2 * k] = glyph(*b / 16);
        out[at + 2 * k + 1] = glyph(*b % 16);
    }
}

// The digit of a number below 16.
#[tactic(auto, unfolding(crate::specs::Inner::glyph))]
fn glyph(n: u8) -> u8
    requires { n < 16 }
    ensures { result ≡ glyph n }
{
    if n < 10 {
        return 48 + n;
    }
    87 + n
}
