// Files of sample answers: a grid message, and points each with the count that it claims. The functions with a requires are private.
#![tactic(auto)]

ghost use Rattle.std.specs.Prelude.{◌≡◌, ◌+◌, ◌≤◌, length, drop};
ghost use Rattle.std.specs.List.{list_all};
ghost use Rattle.sample_files.specs.File.{point_size, point_of, points_of, shape};
ghost use Rattle.sample_files.specs.Inner.{end_in, point_at};
ghost use Rattle.sample_files.specs.Private.{message_first, point_head, only_points};

// The bytes of a point's field, and the most points of a file.
pub const POINT_SIZE: usize = 28;

pub const MOST_POINTS: usize = 1000;

// A component, a position and the count that is claimed there.
#[derive(Clone, Copy)]
pub struct SamplePoint {
    pub component: u8,
    pub north: i64,
    pub east: i64,
    pub claim: i64,
}

// Whether a file begins with a whole field of tag 1.
#[tactic(auto, unfolding(crate::specs::Private::message_first, sample_numbers::specs::Inner::number_at))]
fn message_first(file: &[u8]) -> bool
    ensures { result ≡ message_first file.now }
{
    3 <= file.len()
        && file[0] == 1
        && sample_numbers::number_at(file, 1, 2) as usize <= file.len() - 3
}

// Where the message of a file ends, or the file where that is earlier.
pub fn message_end(file: &[u8]) -> usize
    ensures { result ≡ end_in file.now }
{
    let n = sample_numbers::number_at(file, 1, 2) as usize;
    file.len().min(3 + n)
}

// Whether s begins with the tag and the length of a point.
#[tactic(auto, unfolding(crate::specs::Private::point_head, sample_numbers::specs::Inner::number_at))]
fn point_head(s: &[u8]) -> bool
    requires { point_size ≤ length s.now }
    ensures { result ≡ point_head s.now }
{
    s[0] == 2 && sample_numbers::number_at(s, 1, 2) == 25
}

// Whether each field has the tag and the length of a point.
fn point_heads(fields: &[[u8; POINT_SIZE]]) -> bool
    ensures { result ≡ list_all point_head fields.now }
{
    fields.iter().all(|field| point_head(field))
}

// Whether s is the fields of at most 1,000 points and nothing else.
#[tactic(auto, using(crate::proofs::Fields::heads_are), unfolding(crate::specs::Private::only_points))]
fn only_points(s: &[u8]) -> bool
    ensures { result ≡ only_points s.now }
{
    let (fields, rest) = s.as_chunks::<POINT_SIZE>();
    if !rest.is_empty() {
        return false;
    }
    fields.len() <= MOST_POINTS && point_heads(fields)
}

// Whether a file is a message and at most 1,000 points, as bytes.
pub fn right_shape(file: &[u8]) -> bool
    ensures { result ≡ shape file.now }
{
    message_first(file) && only_points(&file[message_end(file)..])
}

// The number of points of a file.
pub fn point_count(file: &[u8]) -> usize
    ensures { result ≡ length (points_of file.now) }
{
    let e = message_end(file);
    (file.len() - e) / POINT_SIZE
}

// The point of the field that begins at byte a.
fn point_in(s: &[u8], a: usize) -> SamplePoint
    requires { a + point_size ≤ length s.now }
    ensures { result ≡ point_of (drop a s.now) }
{
    SamplePoint {
        component: s[a + 3],
        north: sample_numbers::whole_at(s, a + 4),
        east: sample_numbers::whole_at(s, a + 12),
        claim: sample_numbers::whole_at(s, a + 20),
    }
}

// SamplePoint i of a file, from 0; all zero where there is none.
pub fn point_at(file: &[u8], i: usize) -> SamplePoint
    ensures { result ≡ point_at file.now i }
{
    if point_count(file) <= i {
        return SamplePoint {
            component: 0,
            north: 0,
            east: 0,
            claim: 0,
        };
    }
    let a = message_end(file) + POINT_SIZE * i;
    point_in(file, a)
}
