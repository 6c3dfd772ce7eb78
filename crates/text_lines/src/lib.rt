// Lines in the part of a text that is at hand, and a window that moves over a stream.
#![tactic(auto)]

ghost use Rattle.std.specs.Prelude.{◌+◌, ◌≤◌, ◌≡◌, ◌++◌, length, take, drop};
ghost use Rattle.text_lines.specs.Inner.{line_at, kept, slid};

// A line without its newline, and the place behind that; none where no newline ends it.
#[derive(Clone, Copy)]
pub struct Line {
    pub from: usize,
    pub length: usize,
    pub next: Option<usize>,
}

// The line that begins at a place. Without a newline it goes to the end of the text.
pub fn line_at(s: &[u8], from: usize) -> Line
    ensures { result ≡ line_at s.now from }
{
    let length = text_words::find(text_words::behind(s, from), b'\n');
    if s.len() <= from || s.len() - from <= length {
        return Line {
            from,
            length,
            next: None,
        };
    }
    Line {
        from,
        length,
        next: Some(from + length + 1),
    }
}

// Moves the bytes from a place on that stand before `end` to the front, and answers their number.
pub fn slide(window: &mut [u8], from: usize, end: usize) -> usize
    ensures answer { result ≡ kept (length window.old) from end }
    ensures output { window.new ≡ slid window.old from end }
{
    if window.len() < end || end < from {
        return 0;
    }
    window.copy_within(from..end, 0);
    end - from
}
