// Reads a message and points from standard input and writes the file of sample answers to standard output. The first line is the message in hexadecimal,
// at most 400 bytes, `-` for none, each further line a point: COMPONENT NORTH EAST. On a refusal standard output stays empty, and standard error has `refused` and the
// refusal number, or, where a line is no such line, `bad input: line` and its number from 1.
#![tactic(auto)]

mod points;

use line_reads::Lines;
use points::Points;
use std::io;
use std::io::{Read, Write};
use text_lines::Line;

type Message = [u8; 400];

// 3 bytes, 127 of an accepted message and 28,000 of points.
type Out = [u8; 28130];

// More lines than any text has.
const LINES: usize = 1099511627776;

// Refusal number.
const LENGTH: u8 = 3;

fn main(rt: HostRuntime) -> io::Result<()> {
    let mut lines = Lines::new();
    let mut bytes = [0u8; 400];
    let mut points = points::none();
    let mut out = [0u8; 28130];
    answer(
        &mut rt.stdin(),
        &mut rt.stdout(),
        &mut rt.stderr(),
        &mut lines,
        &mut bytes,
        &mut points,
        &mut out,
    )
}

// The whole text.
fn answer(
    reader: &mut impl Read,
    writer: &mut impl Write,
    errors: &mut impl Write,
    lines: &mut Lines,
    bytes: &mut Message,
    points: &mut Points,
    out: &mut Out,
) -> io::Result<()> {
    let Some(n) = read_message(reader, lines, bytes)? else {
        return bad_input(errors, 1);
    };
    let message = text_words::before(bytes, n);
    if let Some(bad) = read_points(reader, lines, message, points)? {
        return bad_input(errors, bad);
    }
    write(writer, errors, message, points, out)
}

// How many bytes the first line spells, which are stored; none where it spells no message.
fn read_message(
    reader: &mut impl Read,
    lines: &mut Lines,
    bytes: &mut Message,
) -> io::Result<Option<usize>> {
    let Some(line) = lines.next_line(reader)? else {
        return Ok(None);
    };
    Ok(text_numerals::hex(text_of(lines, line), bytes))
}

// The points, up to the end of the text or a bad line: the number of the bad line.
fn read_points(
    reader: &mut impl Read,
    lines: &mut Lines,
    message: &[u8],
    points: &mut Points,
) -> io::Result<Option<usize>> {
    for number in 2..LINES + 1 {
        let Some(line) = lines.next_line(reader)? else {
            return Ok(None);
        };
        if points::take_point(text_of(lines, line), message, points).is_none() {
            return bad_line(reader, lines, line.length, number);
        }
    }
    Ok(None)
}

// The number of a line that is no point; none where it is empty and so are all behind it.
fn bad_line(
    reader: &mut impl Read,
    lines: &mut Lines,
    length: usize,
    number: usize,
) -> io::Result<Option<usize>> {
    if length == 0 && only_empty(reader, lines)? {
        return Ok(None);
    }
    Ok(Some(number))
}

// Whether all further lines are empty.
fn only_empty(reader: &mut impl Read, lines: &mut Lines) -> io::Result<bool> {
    for _ in 0..LINES {
        let Some(line) = lines.next_line(reader)? else {
            return Ok(true);
        };
        if line.length != 0 {
            return Ok(false);
        }
    }
    Ok(false)
}

// The bytes of a line, none of one that is too long.
fn text_of(lines: &Lines, line: Line) -> &[u8] {
    if 900 < line.length {
        return &[];
    }
    lines.text(line)
}

// The file, or the refusal.
fn write(
    writer: &mut impl Write,
    errors: &mut impl Write,
    message: &[u8],
    points: &Points,
    out: &mut Out,
) -> io::Result<()> {
    let n = points.count;
    let w = sample_writer::write_samples(
        message,
        text_words::before(&points.components, n),
        text_numerals::first(&points.north, n),
        text_numerals::first(&points.east, n),
        out,
    );
    if w.refusal == 0 {
        return writer.write_all(text_words::before(out, w.length));
    }
    refused(errors, refusal_of(w.refusal, points.later))
}

// LENGTH above 1,000 points comes behind the refusal of a point.
fn refusal_of(refusal: u8, later: u8) -> u8 {
    if refusal == LENGTH && later != 0 {
        return later;
    }
    refusal
}

fn refused(errors: &mut impl Write, refusal: u8) -> io::Result<()> {
    writeln!(errors, "refused {refusal}")
}

fn bad_input(errors: &mut impl Write, line: usize) -> io::Result<()> {
    writeln!(errors, "bad input: line {line}")
}
