// The records of messages 1025, 1026 and 1027, from a row in wire order and back.
#![tactic(auto)]

ghost use Rattle.std.specs.Prelude.{◌≡◌, true};
ghost use Rattle.layout.specs.Layout.{row_of};
ghost use Rattle.record_rows.specs.Numbers.{says};
ghost use Rattle.record_rows.specs.Inner.{numbers};
ghost use Rattle.record_projections.specs.Projections.{projection_of, projection_row, lambert_of, lambert_row, oblique_mercator_of, oblique_mercator_row};

use record_rows::Row;

// 1025.
#[derive(Clone, Copy)]
pub struct Projection {
    pub number: i64, // DF002
    pub sin: i64, // DF147
    pub projection: i64, // DF170
    pub latitude: Option<i64>, // DF171
    pub longitude: Option<i64>, // DF172
    pub scale: i64, // DF173
    pub easting: i64, // DF174
    pub northing: Option<i64>, // DF175
}

// 1026.
#[derive(Clone, Copy)]
pub struct Lambert {
    pub number: i64, // DF002
    pub sin: i64, // DF147
    pub projection: i64, // DF170
    pub latitude: Option<i64>, // DF176
    pub longitude: Option<i64>, // DF177
    pub parallel1: Option<i64>, // DF178
    pub parallel2: Option<i64>, // DF179
    pub easting: i64, // DF180
    pub northing: Option<i64>, // DF181
}

// 1027.
#[derive(Clone, Copy)]
pub struct ObliqueMercator {
    pub number: i64, // DF002
    pub sin: i64, // DF147
    pub projection: i64, // DF170
    pub rectified: i64, // DF182
    pub latitude: Option<i64>, // DF183
    pub longitude: Option<i64>, // DF184
    pub azimuth: i64, // DF185
    pub difference: Option<i64>, // DF186
    pub scale: i64, // DF187
    pub easting: i64, // DF188
    pub northing: Option<i64>, // DF189
}

// 1025 from the row of a message.
pub fn projection_of(values: &[i64; 96], present: &[u8; 96]) -> Projection
    ensures { result ≡ projection_of (says (row_of values.now present.now)) }
{
    Projection {
        number: record_rows::number_at(values, present, 0),
        sin: record_rows::number_at(values, present, 1),
        projection: record_rows::number_at(values, present, 2),
        latitude: record_rows::says_at(values, present, 3),
        longitude: record_rows::says_at(values, present, 4),
        scale: record_rows::number_at(values, present, 5),
        easting: record_rows::number_at(values, present, 6),
        northing: record_rows::says_at(values, present, 7),
    }
}

// 1026 from the row of a message.
pub fn lambert_of(values: &[i64; 96], present: &[u8; 96]) -> Lambert
    ensures { result ≡ lambert_of (says (row_of values.now present.now)) }
{
    Lambert {
        number: record_rows::number_at(values, present, 0),
        sin: record_rows::number_at(values, present, 1),
        projection: record_rows::number_at(values, present, 2),
        latitude: record_rows::says_at(values, present, 3),
        longitude: record_rows::says_at(values, present, 4),
        parallel1: record_rows::says_at(values, present, 5),
        parallel2: record_rows::says_at(values, present, 6),
        easting: record_rows::number_at(values, present, 7),
        northing: record_rows::says_at(values, present, 8),
    }
}

// 1027 from the row of a message.
pub fn oblique_mercator_of(values: &[i64; 96], present: &[u8; 96]) -> ObliqueMercator
    ensures { result ≡ oblique_mercator_of (says (row_of values.now present.now)) }
{
    ObliqueMercator {
        number: record_rows::number_at(values, present, 0),
        sin: record_rows::number_at(values, present, 1),
        projection: record_rows::number_at(values, present, 2),
        rectified: record_rows::number_at(values, present, 3),
        latitude: record_rows::says_at(values, present, 4),
        longitude: record_rows::says_at(values, present, 5),
        azimuth: record_rows::number_at(values, present, 6),
        difference: record_rows::says_at(values, present, 7),
        scale: record_rows::number_at(values, present, 8),
        easting: record_rows::number_at(values, present, 9),
        northing: record_rows::says_at(values, present, 10),
    }
}

// The row of a 1025.
pub fn projection_row(r: Projection) -> Option<Row>
    ensures { result ≡ numbers true (projection_row r) }
{
    let places = [
        Some(r.number),
        Some(r.sin),
        Some(r.projection),
        r.latitude,
        r.longitude,
        Some(r.scale),
        Some(r.easting),
        r.northing,
    ];
    record_rows::numbers_of(
        &places.map(layout::value_in),
        &places.map(layout::present_in),
    )
}

// The row of a 1026.
pub fn lambert_row(r: Lambert) -> Option<Row>
    ensures { result ≡ numbers true (lambert_row r) }
{
    let places = [
        Some(r.number),
        Some(r.sin),
        Some(r.projection),
        r.latitude,
        r.longitude,
        r.parallel1,
        r.parallel2,
        Some(r.easting),
        r.northing,
    ];
    record_rows::numbers_of(
        &places.map(layout::value_in),
        &places.map(layout::present_in),
    )
}

// The row of a 1027.
pub fn oblique_mercator_row(r: ObliqueMercator) -> Option<Row>
    ensures { result ≡ numbers true (oblique_mercator_row r) }
{
    let places = [
        Some(r.number),
        Some(r.sin),
        Some(r.projection),
        Some(r.rectified),
        r.latitude,
        r.longitude,
        Some(r.azimuth),
        r.difference,
        Some(r.scale),
        Some(r.easting),
        r.northing,
    ];
    record_rows::numbers_of(
        &places.map(layout::value_in),
        &places.map(layout::present_in),
    )
}
