// Reads a recorded stream from standard input and prints a line for each frame in it: its place in the stream from 0, its message's length, and the
// message's number, `-` where it has under two bytes; behind these, for 1021 to 1027, `sin` and the system identification number, or `refused` and the
// refusal number. The last line says how many frames there were, and how many bytes outside them. Places and counts are modulo 2^64.
#![tactic(auto)]

use frame_search::Outcome;
use std::io;
use std::io::{Read, Write};

type Out = [u8; 16384];

// The place in the output up to which there is room for a line, of which none has 128 bytes.
const LAST: usize = 16256;

// More rounds than any recording asks for: each finds a frame, passes a byte or reads on.
const ROUNDS: usize = 1099511627776;

// The window's place in the stream, where the search goes on in it, how many bytes it holds, whether no more come; then the frames found, the bytes
// in them, and the bytes in the output's buffer.
#[derive(Clone, Copy)]
struct State {
    base: u64,
    from: usize,
    held: usize,
    ended: bool,
    frames: u64,
    inside: u64,
    out: usize,
}

fn main(rt: HostRuntime) -> io::Result<()> {
    let mut window = [0u8; 65536];
    let mut out = [0u8; 16384];
    list_frames(&mut rt.stdin(), &mut rt.stdout(), &mut window, &mut out)
}

// Every frame of the input, and the last line.
fn list_frames(
    reader: &mut impl Read,
    writer: &mut impl Write,
    window: &mut [u8],
    out: &mut Out,
) -> io::Result<()> {
    let mut state = start();
    for _ in 0..ROUNDS {
        let Some(next) = round(reader, writer, window, out, state)? else {
            break;
        };
        state = next;
    }
    put_end(writer, out, state)
}

// No byte is read yet.
fn start() -> State {
    State {
        base: 0,
        from: 0,
        held: 0,
        ended: false,
        frames: 0,
        inside: 0,
        out: 0,
    }
}

// One step of the search, and what it asks for; none at the stream's end.
fn round(
    reader: &mut impl Read,
    writer: &mut impl Write,
    window: &mut [u8],
    out: &mut Out,
    state: State,
) -> io::Result<Option<State>> {
    let s = frame_search::next_step(
        text_words::before(window, state.held),
        state.from,
        state.ended,
    );
    match s.outcome {
        Outcome::Found { at, length } => {
            let state = report(writer, window, out, state, at, length)?;
            Ok(Some(pass(state, s.next)))
        }
        Outcome::More => go_on(reader, window, state, s.next),
        Outcome::Passed => Ok(Some(pass(state, s.next))),
    }
}

// The line of a frame that was found.
fn report(
    writer: &mut impl Write,
    window: &[u8],
    out: &mut Out,
    state: State,
    at: usize,
    length: usize,
) -> io::Result<State> {
    let message = text_words::before(text_words::behind(window, at.wrapping_add(3)), length);
    let to = put_frame(writer, out, state.out, later(state.base, at), message)?;
    Ok(State {
        frames: later(state.frames, 1),
        inside: later(later(state.inside, length), 6),
        out: to,
        ..state
    })
}

// The search goes on at a place.
fn pass(state: State, next: usize) -> State {
    State {
        from: next,
        ..state
    }
}

// Bytes that are used up leave the window and more are read; at the stream's end nothing is left.
fn go_on(
    reader: &mut impl Read,
    window: &mut [u8],
    state: State,
    next: usize,
) -> io::Result<Option<State>> {
    if state.ended {
        return Ok(None);
    }
    let held = text_lines::slide(window, next, state.held);
    let got = read_more(reader, window, held)?;
    Ok(Some(State {
        base: later(state.base, next),
        from: 0,
        held: held.wrapping_add(got),
        ended: got == 0,
        ..state
    }))
}

// Fills the window behind the bytes held.
fn read_more(reader: &mut impl Read, window: &mut [u8], held: usize) -> io::Result<usize> {
    let room = window.len();
    if room < held {
        return Ok(0);
    }
    stream_reads::read_full(reader, &mut window[held..room])
}

fn later(place: u64, by: usize) -> u64 {
    place.wrapping_add(by as u64)
}

fn put_frame(
    writer: &mut impl Write,
    out: &mut Out,
    at: usize,
    place: u64,
    message: &[u8],
) -> io::Result<usize> {
    let a = room(writer, out, at)?;
    let b = put_field(out, a, place);
    let c = put_field(out, b, message.len() as u64);
    let d = put_number(out, c, message);
    Ok(text_words::put(out, d, b"\n"))
}

// A place with room for a line: where there is none, the output is written and begins anew.
fn room(writer: &mut impl Write, out: &Out, at: usize) -> io::Result<usize> {
    if at <= LAST {
        return Ok(at);
    }
    print(writer, out, at)?;
    Ok(0)
}

// Writes the first bytes of the output.
fn print(writer: &mut impl Write, out: &Out, length: usize) -> io::Result<()> {
    writer.write_all(text_words::before(out, length))
}

// A number and a space.
fn put_field(out: &mut Out, at: usize, n: u64) -> usize {
    let to = text_numerals::put_natural(out, at, n);
    text_words::put(out, to, b" ")
}

// The first 12 of 16 bits.
fn number(high: u8, low: u8) -> u64 {
    high as u64 * 16 + low as u64 / 16
}

// The message's number, and what belongs behind it.
fn put_number(out: &mut Out, at: usize, message: &[u8]) -> usize {
    if message.len() < 2 {
        return text_words::put(out, at, b"-");
    }
    let n = number(message[0], message[1]);
    let to = text_numerals::put_natural(out, at, n);
    match n {
        1021..=1027 => put_header(out, to, message),
        _ => to,
    }
}

// What one of 1021 to 1027 answers to the look at its header.
fn put_header(out: &mut Out, at: usize, message: &[u8]) -> usize {
    let h = message_rows::read_header(message);
    if h.refusal != 0 {
        let to = text_words::put(out, at, b" refused ");
        return text_numerals::put_natural(out, to, h.refusal as u64);
    }
    let to = text_words::put(out, at, b" sin ");
    text_numerals::put_natural(out, to, h.sin as u64)
}

// The last line, and what is left of the output.
fn put_end(writer: &mut impl Write, out: &mut Out, state: State) -> io::Result<()> {
    let all = later(state.base, state.held);
    let a = room(writer, out, state.out)?;
    let b = text_numerals::put_natural(out, a, state.frames);
    let c = text_words::put(out, b, b" frames, ");
    let d = text_numerals::put_natural(out, c, all.wrapping_sub(state.inside));
    let e = text_words::put(out, d, b" bytes outside frames\n");
    print(writer, out, e)
}
