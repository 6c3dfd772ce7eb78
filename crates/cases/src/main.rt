// Reads cases from standard input, one to a line, and prints the answer to each, one to a line: second/VECTORS.md has the forms.
// It runs what the exported calls do not reach. At most 40,000 lines are read. A line that is no case is answered by its name and `?`.
#![tactic(auto)]

mod fields;
mod grids;
mod kinds;
mod lent;
mod numbers;
mod output;
mod points;
mod projections;
mod records;
mod remade;
mod renamed;
mod shifts;
mod tallies;
mod transformations;

use line_reads::Lines;
use output::Out;
use std::io;
use std::io::{Read, Write};

const LINES: usize = 40000;

fn main(rt: HostRuntime) -> io::Result<()> {
    let mut lines = Lines::new();
    let mut out = [0u8; 16384];
    answer_all(&mut rt.stdin(), &mut rt.stdout(), &mut lines, &mut out)
}

// Every line of the input, and what is left of the output at the end.
fn answer_all(
    reader: &mut impl Read,
    writer: &mut impl Write,
    lines: &mut Lines,
    out: &mut Out,
) -> io::Result<()> {
    let mut at: usize = 0;
    for _ in 0..LINES {
        let Some(line) = lines.next_line(reader)? else {
            break;
        };
        at = answer(writer, lines.text(line), out, at)?;
    }
    output::write(writer, out, at)
}

// The answer to a line, with its newline.
fn answer(writer: &mut impl Write, line: &[u8], out: &mut Out, at: usize) -> io::Result<usize> {
    let to = answer_line(line, out, at);
    let to = output::put(out, to, b"\n");
    output::written(writer, out, to)
}

// The case's name, and what its command answers.
fn answer_line(line: &[u8], out: &mut Out, at: usize) -> usize {
    let name = text_words::word(line);
    if name.len() == 0 {
        return output::bad(out, at);
    }
    let to = output::put(out, at, name);
    let to = output::put(out, to, b" ");
    let rest = text_words::rest(line);
    answer_command(text_words::word(rest), text_words::rest(rest), out, to)
}

// What a command on records answers, or on their shifts.
fn answer_command(command: &[u8], given: &[u8], out: &mut Out, at: usize) -> usize {
    match text_words::place(command, b"kinds record remake rename") {
        0 => kinds::answer(given, out, at),
        1 => records::answer(given, out, at),
        2 => remade::answer(given, out, at),
        3 => renamed::answer(given, out, at),
        _ => answer_shifts(command, given, out, at),
    }
}

// What a command on shifts answers, or on their reports.
fn answer_shifts(command: &[u8], given: &[u8], out: &mut Out, at: usize) -> usize {
    match text_words::place(command, b"answer shiftof points tally") {
        0 => shifts::answer(given, out, at),
        1 => shifts::answer_of(given, out, at),
        2 => points::answer(given, out, at),
        3 => tallies::answer(given, out, at),
        _ => output::bad(out, at),
    }
}
