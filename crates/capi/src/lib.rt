// The exported interface: include/tarnoklej.h.
#![tactic(auto)]

ghost use Rattle.std.specs.Prelude.{◌≡◌, length};
ghost use Rattle.message_rows.specs.Message.{header, row_refusal, values_read, present_read, write_row};
ghost use Rattle.capi.specs.Exported.{unit_of, exported_shifts};
ghost use Rattle.grid_row_refusals.specs.ShiftRow.{shift_row_refusal, shift_row_filled};
ghost use Rattle.layout.specs.Layout.{answered, stored};
ghost use Rattle.frame.specs.Frames.{frame, find_frame};
ghost use Rattle.frame_writer.specs.Refusals.{frame_refusal};
ghost use Rattle.table_indexed.specs.Indexed.{agrees_refusal, write_refusal, write_index, store_number, stored_table, stored_index, remove_number, removed_table, removed_index};
ghost use Rattle.table_indexed.specs.Find.{found_by};
ghost use Rattle.datum.specs.Step.{Stepped};
ghost use Rattle.heights.specs.Heights.{write_heights};
ghost use Rattle.report_points.specs.Reports.{lists_report};
ghost use Rattle.sample_checks.specs.Check.{checked};
ghost use Rattle.sample_writer.specs.Refusals.{asked_of};
ghost use Rattle.sample_writer.specs.Write as samples;

use arith::refusals::outcome_number;
use grid_shifts::Answer;

// The number, the length and the system identification number of a message.
#[unsafe(no_mangle)]
pub extern "C" fn tarnoklej_read(s: &[u8]) -> message_rows::Header
    ensures { result ≡ header s.now }
{
    message_rows::read_header(s)
}

// What the fields of a message say, in wire order, into the first places of both buffers: the values, and a presence byte for each.
#[unsafe(no_mangle)]
pub extern "C" fn tarnoklej_read_fields(s: &[u8], values: &mut [i64], present: &mut [u8]) -> u8
    ensures answer { result ≡ row_refusal s.now (length values.old) (length present.old) }
    ensures values { values.new ≡ values_read (row_refusal s.now (length values.old) (length present.old)) s.now values.old }
    ensures present { present.new ≡ present_read (row_refusal s.now (length values.old) (length present.old)) s.now present.old }
{
    outcome_number(message_rows::read_row(s, values, present))
}

// The message of a row, values and presence bytes, in the first bytes of out.
#[unsafe(no_mangle)]
pub extern "C" fn tarnoklej_write_fields(
    values: &[i64],
    present: &[u8],
    out: &mut [u8],
) -> layout::Written
    ensures answer { result ≡ (write_row values.now present.now out.old).answer }
    ensures output { out.new ≡ (write_row values.now present.now out.old).output }
{
    layout::Written::from(message_rows::write_row(values, present, out))
}

// The three shifts in arc seconds or metres, with their counts, refusal numbers and units.
#[repr(C)]
#[derive(Clone, Copy)]
pub struct Shifts {
    pub north: f64,
    pub east: f64,
    pub height: f64,
    pub north_count: i64,
    pub east_count: i64,
    pub height_count: i64,
    pub north_refusal: u8,
    pub east_refusal: u8,
    pub height_refusal: u8,
    pub north_unit: u8,
    pub east_unit: u8,
    pub height_unit: u8,
}

// The unit of a second answer: 0 refused, 1 arc seconds, 2 metres.
#[tactic(auto, unfolding(crate::specs::Exported::unit_of))]
fn unit_of(a: Answer) -> u8
    ensures { result ≡ unit_of a }
{
    match a {
        Answer::Seconds(_) => 1,
        Answer::Metres(_) => 2,
        Answer::Refused(_) => 0,
    }
}

// The three shifts at a position.
#[unsafe(no_mangle)]
#[tactic(auto, unfolding(crate::specs::Exported::exported_shifts))]
pub extern "C" fn tarnoklej_shifts_at(s: &[u8], north: i64, east: i64) -> Shifts
    ensures { result ≡ exported_shifts s.now north east }
{
    let r = grid_shifts::shifts_at(s, north, east);
    let p = r.parts;
    let n = p.north;
    let e = p.east;
    let h = p.height;
    let a = n.answer;
    let b = e.answer;
    let c = h.answer;
    Shifts {
        north: r.north,
        east: r.east,
        height: r.height,
        north_count: n.count,
        east_count: e.count,
        height_count: h.count,
        north_refusal: n.refusal,
        east_refusal: e.refusal,
        height_refusal: h.refusal,
        north_unit: unit_of(a),
        east_unit: unit_of(b),
        height_unit: unit_of(c),
    }
}

// The counts of a component at equal steps east in the first places of row.
#[unsafe(no_mangle)]
pub extern "C" fn tarnoklej_shift_row(
    s: &[u8],
    component: u8,
    north: i64,
    east: i64,
    step: i64,
    count: usize,
    row: &mut [i64],
) -> u8
    ensures answer { result ≡ shift_row_refusal s.now component north east step count (length row.old) }
    ensures output { row.new ≡ shift_row_filled s.now component north east step count row.old }
{
    grid_rows::shift_row(s, component, north, east, step, count, row)
}

// Whether table and index agree: 0, TABLE or INDEX.
#[unsafe(no_mangle)]
pub extern "C" fn tarnoklej_index_agrees(t: &[u8], x: &[u8]) -> u8
    ensures { result ≡ agrees_refusal t.now x.now }
{
    table_indexed::agrees(t, x)
}

// Writes the index anew.
#[unsafe(no_mangle)]
pub extern "C" fn tarnoklej_index_write(t: &[u8], x: &mut [u8]) -> u8
    ensures answer { result ≡ write_refusal t.now x.old }
    ensures output { x.new ≡ write_index t.now x.old }
{
    table_indexed::write_index(t, x)
}

// Stores a message under its key for an owner.
#[unsafe(no_mangle)]
pub extern "C" fn tarnoklej_store(t: &mut [u8], x: &mut [u8], owner: u8, s: &[u8]) -> u8
    ensures answer { result ≡ store_number t.old x.old owner s.now }
    ensures table { t.new ≡ stored_table t.old x.old owner s.now }
    ensures index { x.new ≡ stored_index t.old x.old owner s.now }
{
    table_indexed::store(t, x, owner, s)
}

// Where the message of an owner's key stands in the table.
#[unsafe(no_mangle)]
pub extern "C" fn tarnoklej_find(
    t: &[u8],
    x: &[u8],
    owner: u8,
    sin: u8,
    group: u8,
) -> table_indexed::Found
    ensures { result ≡ found_by t.now x.now owner sin group }
{
    table_indexed::find(t, x, owner, sin, group)
}

// Removes the message of an owner's key.
#[unsafe(no_mangle)]
pub extern "C" fn tarnoklej_remove(t: &mut [u8], x: &mut [u8], owner: u8, sin: u8, group: u8) -> u8
    ensures answer { result ≡ remove_number t.old x.old owner sin group }
    ensures table { t.new ≡ removed_table t.old x.old owner sin group }
    ensures index { x.new ≡ removed_index t.old x.old owner sin group }
{
    table_indexed::remove(t, x, owner, sin, group)
}

// The first frame at or after a place.
#[unsafe(no_mangle)]
pub extern "C" fn tarnoklej_find_frame(bytes: &[u8], from: usize) -> frame::Frame
    ensures { result ≡ find_frame bytes.now from }
{
    frame::find_frame(bytes, from)
}

// The frame of a message in the first bytes of out, or 3 LENGTH, 6 ROOM.
#[unsafe(no_mangle)]
pub extern "C" fn tarnoklej_write_frame(message: &[u8], out: &mut [u8]) -> layout::Written
    ensures answer { result ≡ answered (frame_refusal message.now (length out.old)) (frame message.now) }
    ensures output { out.new ≡ stored (frame_refusal message.now (length out.old)) (frame message.now) out.old }
{
    layout::Written::from(frame_writer::write_frame(message, out))
}

// The datum step of a message 1021 from a position in 0.1 mm.
#[unsafe(no_mangle)]
pub extern "C" fn tarnoklej_datum_step(
    message: &[u8],
    x: i64,
    y: i64,
    z: i64,
) -> datum_formula::Position
    ensures { Stepped message.now x y z result }
{
    datum::datum_step(message, x, y, z)
}

// The 1023 message of sixteen wanted heights in millimetres, with the other fields of a row, in the first bytes of out.
#[unsafe(no_mangle)]
pub extern "C" fn tarnoklej_write_heights(
    values: &[i64],
    present: &[u8],
    wanted: &[i64],
    out: &mut [u8],
) -> layout::Written
    ensures answer { result ≡ (write_heights values.now present.now wanted.now out.old).answer }
    ensures output { out.new ≡ (write_heights values.now present.now wanted.now out.old).output }
{
    layout::Written::from(heights::write_heights(values, present, wanted, out))
}

// The report of the points whose coordinates stand in two lists, for a message and a component.
#[unsafe(no_mangle)]
pub extern "C" fn tarnoklej_report_points(
    s: &[u8],
    component: u8,
    north: &[i64],
    east: &[i64],
) -> report_update::Report
    ensures { result ≡ lists_report s.now component north.now east.now }
{
    report_points::report_lists(s, component, north, east)
}

// The file of a message and the points of three slices of equal count, each with the message's answer as its claim, in the first bytes of out.
#[unsafe(no_mangle)]
pub extern "C" fn tarnoklej_write_samples(
    message: &[u8],
    components: &[u8],
    north: &[i64],
    east: &[i64],
    out: &mut [u8],
) -> layout::Written
    ensures answer { result ≡ answered (samples.write_refusal message.now components.now north.now east.now (length out.old)) (samples.samples_file message.now (asked_of components.now north.now east.now)) }
    ensures output { out.new ≡ stored (samples.write_refusal message.now components.now north.now east.now (length out.old)) (samples.samples_file message.now (asked_of components.now north.now east.now)) out.old }
{
    sample_writer::write_samples(message, components, north, east, out)
}

// Checks a file of sample answers: 0, LAYOUT, 1 to 5 or KIND, or CLAIM with the place of the first bad point from 1.
#[unsafe(no_mangle)]
pub extern "C" fn tarnoklej_check_samples(file: &[u8]) -> sample_checks::Checked
    ensures { result ≡ checked file.now }
{
    sample_checks::check_samples(file)
}
