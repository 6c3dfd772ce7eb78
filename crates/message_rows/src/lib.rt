// Messages 1021 to 1027 on the wire: the header, and rows read of any kind or of one. A row is two buffers side by side, values and presence bytes.
#![tactic(auto)]

ghost use Rattle.std.specs.Prelude.{◌≡◌, ◌≤◌, length};
ghost use Rattle.layout.specs.Layout.{as_written};
ghost use Rattle.arith.specs.Refusals.{outcome_number};
ghost use Rattle.field.specs.Inner.{field_at};
ghost use Rattle.arith.specs.First.{first};
ghost use Rattle.message_rows.specs.Message.{head_tests, refusal, header, row_refusal, values_read, present_read, kind_refusal, write_row, write_kind, row_held};
ghost use Rattle.message_rows.specs.Inner.{kind_room_refusal};
ghost use Rattle.message_rows.specs.Private.{source_read, target_read, sin_place, Counted, Coded};

use arith::refusals::{Refusal, number_of};

// The first name counter of a message of that number; 0 where it carries no names.
fn source_of(s: &[u8], number: u64) -> usize
    ensures { result ≡ source_read s.now number }
{
    if 1022 < number {
        return 0;
    }
    field::field_at(s, 12, 5) as usize
}

// The second one, behind a name of n characters.
fn target_of(s: &[u8], number: u64, n: usize) -> usize
    requires { n ≤ 31 }
    ensures { result ≡ target_read s.now number n }
{
    if 1022 < number {
        return 0;
    }
    field::field_at(s, 17 + 8 * n, 5) as usize
}

// SHORT, NUMBER, or LENGTH where a name counter can't be read.
fn head_refusal(s: &[u8], number: u64, n: usize) -> Result<(), Refusal>
    requires { (number ≡ field_at s.now 0 12) × (n ≡ source_read s.now number) }
    ensures { outcome_number result ≡ first (head_tests s.now) }
{
    let len = s.len();
    if len < 2 {
        return Err(Refusal::Short);
    }
    if number < 1021 {
        return Err(Refusal::Number);
    }
    if 1027 < number {
        return Err(Refusal::Number);
    }
    if 1022 < number {
        return Ok(());
    }
    if len < 3 {
        return Err(Refusal::Length);
    }
    if len < n + 3 {
        return Err(Refusal::Length);
    }
    Ok(())
}

// Refusals 1 to 5 of a message whose number and counters were read.
fn check_counted(s: &[u8], number: u64, n: usize, m: usize) -> Result<(), Refusal>
    requires { Counted s.now number n m }
    ensures { outcome_number result ≡ refusal s.now }
{
    head_refusal(s, number, n)?;
    layout_by_number::check_by(s, number, n, m)
}

// Refusals 1 to 5 of a message of that number.
fn check_numbered(s: &[u8], number: u64) -> Result<(), Refusal>
    requires { number ≡ field_at s.now 0 12 }
    ensures { outcome_number result ≡ refusal s.now }
{
    let n = source_of(s, number);
    let m = target_of(s, number, n);
    check_counted(s, number, n, m)
}

// Refusals 1 to 5 of a message. No value is stored.
pub fn check_message(s: &[u8]) -> Result<(), Refusal>
    ensures { outcome_number result ≡ refusal s.now }
{
    check_numbered(s, field::field_at(s, 0, 12))
}

// The same, then KIND where its number is not lo to hi.
pub fn check_kind(s: &[u8], lo: u64, hi: u64) -> Result<(), Refusal>
    ensures { outcome_number result ≡ kind_refusal lo hi s.now }
{
    let number = field::field_at(s, 0, 12);
    check_numbered(s, number)?;
    if number < lo {
        return Err(Refusal::Kind);
    }
    if hi < number {
        return Err(Refusal::Kind);
    }
    Ok(())
}

// What a message is; zeros with a refusal.
#[repr(C)]
#[derive(Clone, Copy)]
pub struct Header {
    pub refusal: u8,
    pub number: u16,
    pub sin: u8,
    pub length: usize,
}

// The bit at which DF147 begins.
fn sin_bit(number: u64, n: usize, m: usize) -> usize
    requires { (n ≤ 31) × (m ≤ 31) }
    ensures { result ≡ sin_place number n m }
{
    if 1022 < number {
        return 12;
    }
    22 + 8 * (n + m)
}

// Number and system identification number of a message as one number, 256 times; or its refusal. As one number they stay in registers.
fn header_code(s: &[u8]) -> u64
    ensures { Coded s.now result }
{
    let number = field::field_at(s, 0, 12);
    let n = source_of(s, number);
    let m = target_of(s, number, n);
    if let Err(refusal) = check_counted(s, number, n, m) {
        return u64::from(number_of(refusal));
    }
    (number * 256 + field::field_at(s, sin_bit(number, n, m), 8)) * 256
}

// The number, the length and the system identification number of a message: refusals 1 to 5.
pub fn read_header(s: &[u8]) -> Header
    ensures { result ≡ header s.now }
{
    let code = header_code(s);
    let refusal = (code % 256) as u8;
    if refusal != 0 {
        return Header {
            refusal,
            number: 0,
            sin: 0,
            length: 0,
        };
    }
    Header {
        refusal: 0,
        number: (code / 65536) as u16,
        sin: (code / 256 % 256) as u8,
        length: s.len(),
    }
}

// The row of a message into the first places of both buffers: refusals 1 to 5, then ROOM.
pub fn read_row(s: &[u8], values: &mut [i64], present: &mut [u8]) -> Result<(), Refusal>
    ensures answer { outcome_number result ≡ row_refusal s.now (length values.old) (length present.old) }
    ensures values { values.new ≡ values_read (row_refusal s.now (length values.old) (length present.old)) s.now values.old }
    ensures present { present.new ≡ present_read (row_refusal s.now (length values.old) (length present.old)) s.now present.old }
{
    let number = field::field_at(s, 0, 12);
    let n = source_of(s, number);
    head_refusal(s, number, n)?;
    let m = target_of(s, number, n);
    layout_by_number::decode_by(s, number, n, m, values, present)
}

// The row of a message of one kind, whose numbers are lo to hi: refusals 1 to 5, KIND, then ROOM.
pub fn read_kind(
    s: &[u8],
    lo: u64,
    hi: u64,
    values: &mut [i64],
    present: &mut [u8],
) -> Result<(), Refusal>
    ensures answer { outcome_number result ≡ kind_room_refusal lo hi s.now (length values.old) (length present.old) }
    ensures values { values.new ≡ values_read (kind_room_refusal lo hi s.now (length values.old) (length present.old)) s.now values.old }
    ensures present { present.new ≡ present_read (kind_room_refusal lo hi s.now (length values.old) (length present.old)) s.now present.old }
{
    let kind = field::field_at(s, 0, 12);
    if kind < lo {
        return check_kind(s, lo, hi);
    }
    if hi < kind {
        return check_kind(s, lo, hi);
    }
    read_row(s, values, present)
}

// Rows written as messages 1021 to 1027, of any kind or of one.

// The message of a row in the first bytes of out: RANGE, then ROOM.
pub fn write_row(values: &[i64], present: &[u8], out: &mut [u8]) -> Result<usize, Refusal>
    ensures answer { as_written result ≡ (write_row values.now present.now out.old).answer }
    ensures output { out.new ≡ (write_row values.now present.now out.old).output }
{
    let number = record_rows::natural_at(values, present, 0);
    if number < 1021 {
        return Err(Refusal::Range);
    }
    if 1027 < number {
        return Err(Refusal::Range);
    }
    let n = record_rows::counter_at(values, present, 1);
    let m = record_rows::counter_at(values, present, 2 + n);
    layout_by_number::encode_by(number, n, m, values, present, out)
}

// The message of a record's row in the first bytes of out: RANGE also for a bad name and a number not of the kind.
pub fn write_kind(
    good: bool,
    values: &[i64],
    present: &[u8],
    lo: u64,
    hi: u64,
    out: &mut [u8],
) -> Result<usize, Refusal>
    ensures answer { as_written result ≡ (write_kind lo hi good values.now present.now out.old).answer }
    ensures output { out.new ≡ (write_kind lo hi good values.now present.now out.old).output }
{
    if !good {
        return Err(Refusal::Range);
    }
    let number = record_rows::natural_at(values, present, 0);
    if number < lo {
        return Err(Refusal::Range);
    }
    if hi < number {
        return Err(Refusal::Range);
    }
    write_row(values, present, out)
}

// Whether a message holds the row of a record of a kind whose numbers are lo to hi.
pub fn row_held(values: &[i64], present: &[u8], lo: u64, hi: u64) -> bool
    ensures { result ≡ row_held lo hi values.now present.now }
{
    let number = record_rows::natural_at(values, present, 0);
    if number < lo {
        return false;
    }
    if hi < number {
        return false;
    }
    let n = record_rows::counter_at(values, present, 1);
    let m = record_rows::counter_at(values, present, 2 + n);
    layout_by_number::taken_by(number, n, m, values, present)
}
