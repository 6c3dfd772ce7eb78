// Reads a message, a component and points from standard input and prints the numbers of their report, one to a line: the points answered, those refused
// under 1 to 15, the smallest and the greatest count, their first places, and the sum of counts; or `refused` and the refusal number.
// The first line has the message in hexadecimal digits, `-` for none, the second the component, each further line a point: north and east in whole steps.
// Empty lines at the end are ignored; any other bad line is answered by `bad input: line` and its number alone.
#![tactic(auto)]

use line_reads::Lines;
use report_update::Tally;
use std::io;
use std::io::{Cursor, Read, Write};

type Message = [u8; 400];

// The longest line.
const LONGEST: usize = 900;

// 21 numbers of at most 20 bytes, with a newline each.
const LONGEST_ANSWER: usize = 441;

// More lines than any list of points has.
const LINES: usize = 1099511627776;

// The tally of the points so far, its refusal number or 0, and the number of the first empty line behind them.
#[derive(Clone, Copy)]
struct State {
    tally: Tally,
    refusal: u8,
    empty: Option<usize>,
}

// What the lines of points come to: the tally and its refusal number or 0, or the number of a bad line.
#[derive(Clone, Copy)]
enum Outcome {
    Counted(Tally, u8),
    BadLine(usize),
}

fn main(rt: HostRuntime) -> io::Result<()> {
    let mut lines = Lines::new();
    let mut message = [0u8; 400];
    answer(&mut rt.stdin(), &mut rt.stdout(), &mut lines, &mut message)
}

// The answer to the whole input.
fn answer(
    reader: &mut impl Read,
    writer: &mut impl Write,
    lines: &mut Lines,
    message: &mut Message,
) -> io::Result<()> {
    let Some(n) = message_of(reader, lines, message)? else {
        return put_outcome(writer, Outcome::BadLine(1));
    };
    let Some(component) = component_of(reader, lines)? else {
        return put_outcome(writer, Outcome::BadLine(2));
    };
    let outcome = add_points(reader, lines, text_words::before(message, n), component)?;
    put_outcome(writer, outcome)
}

// The bytes that the first line spells.
fn message_of(
    reader: &mut impl Read,
    lines: &mut Lines,
    message: &mut Message,
) -> io::Result<Option<usize>> {
    let Some(line) = lines.next_line(reader)? else {
        return Ok(None);
    };
    if LONGEST < line.length {
        return Ok(None);
    }
    Ok(text_numerals::hex(lines.text(line), message))
}

// The number that the second line spells.
fn component_of(reader: &mut impl Read, lines: &mut Lines) -> io::Result<Option<u8>> {
    let Some(line) = lines.next_line(reader)? else {
        return Ok(None);
    };
    if LONGEST < line.length {
        return Ok(None);
    }
    Ok(text_numerals::small(lines.text(line)))
}

// The points of all further lines, up to a bad one.
fn add_points(
    reader: &mut impl Read,
    lines: &mut Lines,
    message: &[u8],
    component: u8,
) -> io::Result<Outcome> {
    let mut state = start(component);
    for number in 3..LINES + 3 {
        let Some(line) = lines.next_line(reader)? else {
            break;
        };
        match add_line(state, number, lines.text(line), message, component) {
            Ok(next) => state = next,
            Err(bad) => return Ok(Outcome::BadLine(bad)),
        }
    }
    Ok(Outcome::Counted(state.tally, state.refusal))
}

// No point is read: COMPONENT is refused without one.
fn start(component: u8) -> State {
    State {
        tally: report_update::empty(0).tally,
        refusal: component_refusal(component),
        empty: None,
    }
}

fn component_refusal(component: u8) -> u8 {
    if 2 < component {
        return 8;
    }
    0
}

// One line more, or the number of a bad one.
fn add_line(
    state: State,
    number: usize,
    s: &[u8],
    message: &[u8],
    component: u8,
) -> Result<State, usize> {
    if s.is_empty() {
        return Ok(State {
            empty: Some(state.empty.unwrap_or(number)),
            ..state
        });
    }
    if let Some(empty) = state.empty {
        return Err(empty);
    }
    if LONGEST < s.len() {
        return Err(number);
    }
    add_point(state, s, message, component).ok_or(number)
}

// A line with two whole numbers and one space between them.
fn add_point(state: State, s: &[u8], message: &[u8], component: u8) -> Option<State> {
    let north = text_numerals::whole(text_words::word(s))?;
    let east = text_numerals::whole(text_words::rest(s))?;
    Some(with_point(state, message, component, north, east))
}

// One point more; behind a refusal it is read and not counted.
fn with_point(state: State, message: &[u8], component: u8, north: i64, east: i64) -> State {
    if state.refusal != 0 {
        return state;
    }
    let r = report_tally::tally_next(state.tally, message, component, north, east);
    State {
        tally: r.tally,
        refusal: r.refusal,
        empty: None,
    }
}

// The whole answer in one write, so that a reader gets all of it or nothing.
fn put_outcome(writer: &mut impl Write, outcome: Outcome) -> io::Result<()> {
    let mut out = Cursor::new([0u8; LONGEST_ANSWER]);
    put_lines(&mut out, outcome)?;
    let length = out.position() as usize;
    writer.write_all(text_words::before(out.get_ref(), length))
}

// The bad line, the refusal, or the numbers.
fn put_lines(out: &mut impl Write, outcome: Outcome) -> io::Result<()> {
    match outcome {
        Outcome::BadLine(number) => writeln!(out, "bad input: line {number}"),
        Outcome::Counted(tally, 0) => put_numbers(out, tally),
        Outcome::Counted(_, refusal) => writeln!(out, "refused {refusal}"),
    }
}

// Each number on a line.
fn put_numbers(out: &mut impl Write, t: Tally) -> io::Result<()> {
    writeln!(out, "{}", t.answered)?;
    for n in t.refused {
        writeln!(out, "{n}")?;
    }
    writeln!(out, "{}\n{}", t.smallest, t.greatest)?;
    writeln!(out, "{}\n{}", t.smallest_place, t.greatest_place)?;
    writeln!(out, "{}", t.sum)
}
