// Records of messages 1021 to 1027, read and written, one kind each.
#![tactic(auto)]

ghost use Rattle.std.specs.Prelude.{◌≡◌, ℕ, ℤ, List, Bool, true, Option, IfOk};
ghost use Rattle.arith.specs.Refusals.{outcome_number};
ghost use Rattle.layout.specs.Layout.{row_of, as_written};
ghost use Rattle.record_rows.specs.Numbers.{says};
ghost use Rattle.record_rows.specs.Inner.{numbers};
ghost use Rattle.record_transformations.specs.Transformations.{helmert_of, helmert_row, molodenski_badekas_of, molodenski_badekas_row};
ghost use Rattle.record_grids.specs.Grids.{grid_of, grid_row};
ghost use Rattle.record_projections.specs.Projections.{projection_of, projection_row, lambert_of, lambert_row, oblique_mercator_of, oblique_mercator_row};
ghost use Rattle.record_transformations.specs.declared.Helmert.{Helmert};
ghost use Rattle.record_transformations.specs.declared.MolodenskiBadekas.{MolodenskiBadekas};
ghost use Rattle.record_grids.specs.declared.Grid.{Grid};
ghost use Rattle.record_projections.specs.declared.Projection.{Projection};
ghost use Rattle.record_projections.specs.declared.Lambert.{Lambert};
ghost use Rattle.record_projections.specs.declared.ObliqueMercator.{ObliqueMercator};
ghost use Rattle.message_records.specs.Kinds.{good_names, grid_held, read_record, write_record, read_helmert, read_molodenski_badekas, read_grid, read_projection, read_lambert, read_oblique_mercator, write_helmert, write_molodenski_badekas, write_grid, write_projection, write_lambert, write_oblique_mercator};

use arith::refusals::{Refusal, number_of};
use record_grids::Grid;
use record_projections::{Lambert, ObliqueMercator, Projection};
use record_rows::Row;
use record_transformations::{Helmert, MolodenskiBadekas};

// A record of the messages whose numbers are FIRST to LAST.
pub trait Record: Copy {
    ghost FIRST: { ℕ };

    ghost LAST: { ℕ };

    // The record of what each place of a row says.
    ghost made: { (ℕ → Option ℤ) → Self };

    // Whether its names are good.
    ghost good: { Self → Bool };

    // What each place of its row says.
    ghost places: { Self → List (Option ℤ) };

    const FIRST: u64;

    const LAST: u64;

    // The record of the row of a message.
    fn of_row(values: &[i64; 96], present: &[u8; 96]) -> Self
        ensures { result ≡ made (says (row_of values.now present.now)) };

    // Its row: none where a name is bad.
    fn row(self) -> Option<Row>
        ensures { result ≡ numbers (good self) (places self) };
}

impl Record for Helmert {
    ghost FIRST = { 1021 };

    ghost LAST = { 1021 };

    ghost made = { helmert_of };

    ghost good = { λ r. good_names r.source r.target };

    ghost places = { helmert_row };

    const FIRST: u64 = 1021;

    const LAST: u64 = 1021;

    fn of_row(values: &[i64; 96], present: &[u8; 96]) -> Helmert {
        record_transformations::helmert_of(values, present)
    }

    fn row(self) -> Option<Row> {
        record_transformation_rows::helmert_row(self)
    }
}

impl Record for MolodenskiBadekas {
    ghost FIRST = { 1022 };

    ghost LAST = { 1022 };

    ghost made = { molodenski_badekas_of };

    ghost good = { λ r. good_names r.source r.target };

    ghost places = { molodenski_badekas_row };

    const FIRST: u64 = 1022;

    const LAST: u64 = 1022;

    fn of_row(values: &[i64; 96], present: &[u8; 96]) -> MolodenskiBadekas {
        record_transformations::molodenski_badekas_of(values, present)
    }

    fn row(self) -> Option<Row> {
        record_transformation_rows::molodenski_badekas_row(self)
    }
}

impl Record for Grid {
    ghost FIRST = { 1023 };

    ghost LAST = { 1024 };

    ghost made = { grid_of };

    ghost good = { λ r. true };

    ghost places = { grid_row };

    const FIRST: u64 = 1023;

    const LAST: u64 = 1024;

    fn of_row(values: &[i64; 96], present: &[u8; 96]) -> Grid {
        record_grids::grid_of(values, present)
    }

    fn row(self) -> Option<Row> {
        record_grids::grid_row(self)
    }
}

impl Record for Projection {
    ghost FIRST = { 1025 };

    ghost LAST = { 1025 };

    ghost made = { projection_of };

    ghost good = { λ r. true };

    ghost places = { projection_row };

    const FIRST: u64 = 1025;

    const LAST: u64 = 1025;

    fn of_row(values: &[i64; 96], present: &[u8; 96]) -> Projection {
        record_projections::projection_of(values, present)
    }

    fn row(self) -> Option<Row> {
        record_projections::projection_row(self)
    }
}

impl Record for Lambert {
    ghost FIRST = { 1026 };

    ghost LAST = { 1026 };

    ghost made = { lambert_of };

    ghost good = { λ r. true };

    ghost places = { lambert_row };

    const FIRST: u64 = 1026;

    const LAST: u64 = 1026;

    fn of_row(values: &[i64; 96], present: &[u8; 96]) -> Lambert {
        record_projections::lambert_of(values, present)
    }

    fn row(self) -> Option<Row> {
        record_projections::lambert_row(self)
    }
}

impl Record for ObliqueMercator {
    ghost FIRST = { 1027 };

    ghost LAST = { 1027 };

    ghost made = { oblique_mercator_of };

    ghost good = { λ r. true };

    ghost places = { oblique_mercator_row };

    const FIRST: u64 = 1027;

    const LAST: u64 = 1027;

    fn of_row(values: &[i64; 96], present: &[u8; 96]) -> ObliqueMercator {
        record_projections::oblique_mercator_of(values, present)
    }

    fn row(self) -> Option<Row> {
        record_projections::oblique_mercator_row(self)
    }
}

// A message as a record; or 1 to 5, KIND.
pub fn read_record<R: Record>(s: &[u8]) -> Result<R, Refusal>
    ensures refused { outcome_number result ≡ (read_record R.FIRST R.LAST R.made s.now).refusal }
    ensures value { IfOk result (λ r. r ≡ (read_record R.FIRST R.LAST R.made s.now).value) }
{
    let mut values = [0i64; 96];
    let mut present = [1u8; 96];
    message_rows::read_kind(s, R::FIRST, R::LAST, &mut values, &mut present)?;
    Ok(R::of_row(&values, &present))
}

// The refusal number, 0 for none, and the record; of a refused message the record of zeros, whose signed fields are present.
pub fn read_or_zero<R: Record>(s: &[u8]) -> (u8, R)
    ensures refusal { result.0 ≡ (read_record R.FIRST R.LAST R.made s.now).refusal }
    ensures value { result.1 ≡ (read_record R.FIRST R.LAST R.made s.now).value }
{
    match read_record::<R>(s) {
        Ok(r) => (0, r),
        Err(refusal) => (number_of(refusal), R::of_row(&[0; 96], &[1; 96])),
    }
}

// The message of a record in the first bytes of out; or RANGE, ROOM.
pub fn write_record<R: Record>(r: R, out: &mut [u8]) -> Result<usize, Refusal>
    ensures answer { as_written result ≡ (write_record R.FIRST R.LAST (R.good r) (R.places r) out.old).answer }
    ensures output { out.new ≡ (write_record R.FIRST R.LAST (R.good r) (R.places r) out.old).output }
{
    match r.row() {
        Some(row) => message_rows::write_kind(
            true,
            row.values(),
            row.present(),
            R::FIRST,
            R::LAST,
            out,
        ),
        None => message_rows::write_kind(false, &[], &[], R::FIRST, R::LAST, out),
    }
}

// Whether a message 1023 or 1024 holds the record.
pub fn grid_held(r: Grid) -> bool
    ensures { result ≡ grid_held r }
{
    match record_grids::grid_row(r) {
        Some(row) => message_rows::row_held(row.values(), row.present(), Grid::FIRST, Grid::LAST),
        None => false,
    }
}

// The numbers, the record, the names and the places that each kind gives are those of its own two definitions.
pub fn kinds()
    ensures helmert_read { (s : List ℕ) → read_record ⟦<Helmert as Record>⟧.FIRST ⟦<Helmert as Record>⟧.LAST ⟦<Helmert as Record>⟧.made s ≡ read_helmert s }
    ensures molodenski_badekas_read { (s : List ℕ) → read_record ⟦<MolodenskiBadekas as Record>⟧.FIRST ⟦<MolodenskiBadekas as Record>⟧.LAST ⟦<MolodenskiBadekas as Record>⟧.made s ≡ read_molodenski_badekas s }
    ensures grid_read { (s : List ℕ) → read_record ⟦<Grid as Record>⟧.FIRST ⟦<Grid as Record>⟧.LAST ⟦<Grid as Record>⟧.made s ≡ read_grid s }
    ensures projection_read { (s : List ℕ) → read_record ⟦<Projection as Record>⟧.FIRST ⟦<Projection as Record>⟧.LAST ⟦<Projection as Record>⟧.made s ≡ read_projection s }
    ensures lambert_read { (s : List ℕ) → read_record ⟦<Lambert as Record>⟧.FIRST ⟦<Lambert as Record>⟧.LAST ⟦<Lambert as Record>⟧.made s ≡ read_lambert s }
    ensures oblique_mercator_read { (s : List ℕ) → read_record ⟦<ObliqueMercator as Record>⟧.FIRST ⟦<ObliqueMercator as Record>⟧.LAST ⟦<ObliqueMercator as Record>⟧.made s ≡ read_oblique_mercator s }
    ensures helmert_written { (r : Helmert) (out : List ℕ) → write_record ⟦<Helmert as Record>⟧.FIRST ⟦<Helmert as Record>⟧.LAST (⟦<Helmert as Record>⟧.good r) (⟦<Helmert as Record>⟧.places r) out ≡ write_helmert r out }
    ensures molodenski_badekas_written { (r : MolodenskiBadekas) (out : List ℕ) → write_record ⟦<MolodenskiBadekas as Record>⟧.FIRST ⟦<MolodenskiBadekas as Record>⟧.LAST (⟦<MolodenskiBadekas as Record>⟧.good r) (⟦<MolodenskiBadekas as Record>⟧.places r) out ≡ write_molodenski_badekas r out }
    ensures grid_written { (r : Grid) (out : List ℕ) → write_record ⟦<Grid as Record>⟧.FIRST ⟦<Grid as Record>⟧.LAST (⟦<Grid as Record>⟧.good r) (⟦<Grid as Record>⟧.places r) out ≡ write_grid r out }
    ensures projection_written { (r : Projection) (out : List ℕ) → write_record ⟦<Projection as Record>⟧.FIRST ⟦<Projection as Record>⟧.LAST (⟦<Projection as Record>⟧.good r) (⟦<Projection as Record>⟧.places r) out ≡ write_projection r out }
    ensures lambert_written { (r : Lambert) (out : List ℕ) → write_record ⟦<Lambert as Record>⟧.FIRST ⟦<Lambert as Record>⟧.LAST (⟦<Lambert as Record>⟧.good r) (⟦<Lambert as Record>⟧.places r) out ≡ write_lambert r out }
    ensures oblique_mercator_written { (r : ObliqueMercator) (out : List ℕ) → write_record ⟦<ObliqueMercator as Record>⟧.FIRST ⟦<ObliqueMercator as Record>⟧.LAST (⟦<ObliqueMercator as Record>⟧.good r) (⟦<ObliqueMercator as Record>⟧.places r) out ≡ write_oblique_mercator r out }
{}
