// Numbers that a line's words spell, and rows of a message.

// The two buffers of a row; the first also holds other numbers.
pub(crate) type Values = [i64; 96];

pub(crate) type Present = [u8; 96];

// A position in whole steps.
#[derive(Clone, Copy)]
pub(crate) struct Place {
    pub north: i64,
    pub east: i64,
}

// The whole numbers that a line's words spell, at most 96: how many.
pub(crate) fn row(s: &[u8], numbers: &mut Values) -> Option<usize> {
    let mut rest = s;
    for (n, number) in numbers.iter_mut().enumerate() {
        if rest.is_empty() {
            return Some(n);
        }
        *number = text_numerals::whole(text_words::word(rest))?;
        rest = text_words::rest(rest);
    }
    if rest.is_empty() { Some(96) } else { None }
}

// A row that a line's words spell, its presence bytes and then its values, into the first places of both buffers: how many.
pub(crate) fn places(s: &[u8], values: &mut Values, present: &mut Present) -> Option<usize> {
    let n = text_numerals::hex(text_words::word(s), present)?;
    let m = row(text_words::rest(s), values)?;
    if n == m { Some(n) } else { None }
}

// A position in words.
pub(crate) fn place_of(north: &[u8], east: &[u8]) -> Option<Place> {
    let north = text_numerals::whole(north)?;
    let east = text_numerals::whole(east)?;
    Some(Place { north, east })
}
