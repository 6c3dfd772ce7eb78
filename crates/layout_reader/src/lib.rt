// Many fields of a message read into a row. The functions with a requires are private.
#![tactic(auto)]

ghost use Rattle.std.specs.Prelude.{◌≡◌, ◌&&◌, ◌++◌, map, ◌+◌, ◌*◌, ◌≤◌, ◌<◌, leb, length, set, drop, replicate};
ghost use Rattle.field.specs.Field.{field};
ghost use Rattle.layout.specs.Layout.{width, reading_of, total, decode_all, value_in, present_in};
ghost use Rattle.layout_reader.specs.Inner.{values_loaded, present_loaded};

// What the field of entry e at bit p of s says into place i of both buffers: the bit behind the field.
fn read_place(s: &[u8], p: usize, e: u64, i: usize, values: &mut [i64], present: &mut [u8]) -> usize
    requires { (p + width e ≤ 8 * length s.now) × ((p + width e ≤ 65535) × ((i < length values.old) × (i < length present.old))) }
    ensures place { result ≡ p + width e }
    ensures values { values.new ≡ set values.old i (value_in (reading_of e (field s.now p (width e)))) }
    ensures present { present.new ≡ set present.old i (present_in (reading_of e (field s.now p (width e)))) }
{
    let r = layout::read_entry(s, p, e);
    values[i] = layout::value_in(r);
    present[i] = layout::present_in(r);
    p + (e % 64) as usize
}

// What the fields of a layout say, from bit p of s on, into the first places of both buffers.
fn read_all(s: &[u8], p: usize, layout: &[u64], values: &mut [i64], present: &mut [u8])
    requires { (p + total layout.now ≤ 8 * length s.now) × ((p + total layout.now ≤ 65535) × ((length layout.now ≤ 96) × ((length layout.now ≤ length values.old) × (length layout.now ≤ length present.old)))) }
    ensures values { values.new ≡ map value_in (decode_all layout.now p s.now) ++ drop (length layout.now) values.old }
    ensures present { present.new ≡ map present_in (decode_all layout.now p s.now) ++ drop (length layout.now) present.old }
{
    let mut at = p;
    for i in 0..layout.len() {
        at = read_place(s, at, layout[i], i, values, present);
    }
}

// The same of as many fields of entry e as there are values: a loop of its own, so that a constant e is one for the compiler.
fn read_each(s: &[u8], p: usize, e: u64, values: &mut [i64], present: &mut [u8])
    requires { (p + length values.old * width e ≤ 8 * length s.now) × ((p + length values.old * width e ≤ 65535) × ((length values.old ≤ 96) × (length values.old ≤ length present.old))) }
    ensures values { values.new ≡ map value_in (decode_all (replicate (length values.old) e) p s.now) ++ drop (length values.old) values.old }
    ensures present { present.new ≡ map present_in (decode_all (replicate (length values.old) e) p s.now) ++ drop (length values.old) present.old }
{
    let mut at = p;
    for i in 0..values.len() {
        at = read_place(s, at, e, i, values, present);
    }
}

// Whether so many fields of so many bits, from bit p on, stand in s and have room in buffers of m values and n presence bytes.
fn fits(s: &[u8], p: usize, count: usize, bits: usize, m: usize, n: usize) -> bool
    requires { (count ≤ 96) × (bits ≤ 6048) }
    ensures { result ≡ (leb count 96 && leb (p + bits) 65535 && leb (p + bits) (8 * length s.now) && leb count m && leb count n) }
{
    p <= 65535 && p + bits <= 65535 && (p + bits + 7) / 8 <= s.len() && count <= m && count <= n
}

// What the fields of a layout say, from bit p of s on, into the first places of both buffers; nothing is stored where they do not all stand in s or a buffer is too short.
pub fn read(s: &[u8], p: usize, layout: &[u64], values: &mut [i64], present: &mut [u8])
    ensures values { values.new ≡ values_loaded layout.now p s.now values.old present.old }
    ensures present { present.new ≡ present_loaded layout.now p s.now values.old present.old }
{
    if 96 < layout.len() {
        return;
    }
    if !fits(
        s,
        p,
        layout.len(),
        layout::bits_of(layout),
        values.len(),
        present.len(),
    ) {
        return;
    }
    read_all(s, p, layout, values, present);
}

// The same of as many fields of entry e as there are values.
pub fn read_times(s: &[u8], p: usize, e: u64, values: &mut [i64], present: &mut [u8])
    ensures values { values.new ≡ values_loaded (replicate (length values.old) e) p s.now values.old present.old }
    ensures present { present.new ≡ present_loaded (replicate (length values.old) e) p s.now values.old present.old }
{
    if 96 < values.len() {
        return;
    }
    if !fits(
        s,
        p,
        values.len(),
        values.len() * ((e % 64) as usize),
        values.len(),
        present.len(),
    ) {
        return;
    }
    read_each(s, p, e, values, present);
}
