// Rows written by a layout. The functions with a requires are private.
#![tactic(auto)]

ghost use Rattle.std.specs.Prelude.{◌≡◌, ◌+◌, ◌*◌, ◌≤◌, ◌++◌, T, length, drop};
ghost use Rattle.field.specs.Field.{set_field, pattern_of};
ghost use Rattle.layout.specs.Layout.{width, total, size, encode_into, blank, encode_all, reading_in, row_of, place_takes, row_takes, stored, answered, as_written};
ghost use Rattle.layout.specs.Inner.{encode_refusal};

use arith::refusals::Refusal;

// Whether entry e takes what a value and its byte say.
#[tactic(auto, unfolding(layout::specs::Layout::place_takes, arith::specs::Whole::same_z))]
fn takes_place(e: u64, z: i64, b: u8) -> bool
    ensures { result ≡ place_takes e z b }
{
    match b {
        1 => layout::takes_value(e, z),
        0 => z == 0 && e / 64 % 2 == 1,
        _ => false,
    }
}

// Whether each field of a layout takes its place of a row.
pub fn row_taken(layout: &[u64], values: &[i64], present: &[u8]) -> bool
    ensures { result ≡ row_takes layout.now values.now present.now }
{
    if layout.len() != values.len() {
        return false;
    }
    if layout.len() != present.len() {
        return false;
    }
    for i in 0..layout.len() {
        if !takes_place(layout[i], values[i], present[i]) {
            return false;
        }
    }
    true
}

// s with what a value and its byte say in the field of entry e at bit p.
fn write_entry(s: &mut [u8], p: usize, e: u64, z: i64, b: u8)
    requires { (p + width e ≤ 8 * length s.old) × ((p ≤ 65535) × (T (place_takes e z b))) }
    ensures { s.new ≡ set_field s.old p (width e) (pattern_of (width e) (reading_in z b)) }
{
    let w = (e % 64) as usize;
    if e / 64 % 2 == 1 {
        field_writer::put_signed(s, p, w, layout::reading_in(z, b));
        return;
    }
    field_writer::put_field(s, p, w, z.unsigned_abs());
}

// What a row says into the fields of a layout.
fn write_all(s: &mut [u8], layout: &[u64], values: &[i64], present: &[u8])
    requires { (total layout.now ≤ 8 * length s.old) × ((length layout.now ≤ 96) × (T (row_takes layout.now values.now present.now))) }
    ensures { s.new ≡ encode_into layout.now (row_of values.now present.now) 0 s.old }
{
    let mut at: usize = 0;
    for i in 0..layout.len() {
        let e = layout[i];
        write_entry(s, at, e, values[i], present[i]);
        at += (e % 64) as usize;
    }
}

// The bytes of a message in the first bytes of out.
fn write_message(out: &mut [u8], layout: &[u64], values: &[i64], present: &[u8], n: usize)
    requires { (n ≡ size layout.now) × ((length layout.now ≤ 96) × ((n ≤ length out.old) × (T (row_takes layout.now values.now present.now)))) }
    ensures { out.new ≡ encode_all layout.now (row_of values.now present.now) ++ drop n out.old }
{
    out[..n].fill(0);
    write_all(out, layout, values, present);
}

// The message of a row in the first bytes of out, or RANGE, ROOM.
pub fn encode(
    layout: &[u64],
    values: &[i64],
    present: &[u8],
    out: &mut [u8],
) -> Result<usize, Refusal>
    ensures answer { as_written result ≡ answered (encode_refusal layout.now values.now present.now (length out.old)) (encode_all layout.now (row_of values.now present.now)) }
    ensures output { out.new ≡ stored (encode_refusal layout.now values.now present.now (length out.old)) (encode_all layout.now (row_of values.now present.now)) out.old }
{
    if 96 < layout.len() {
        return Err(Refusal::Range);
    }
    if !row_taken(layout, values, present) {
        return Err(Refusal::Range);
    }
    let n = (layout::bits_of(layout) + 7) / 8;
    if out.len() < n {
        return Err(Refusal::Room);
    }
    write_message(out, layout, values, present, n);
    Ok(n)
}
