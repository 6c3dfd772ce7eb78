// Reads one message from standard input and prints its number, its length and its SIN, or `refused` and the refusal number.
// At most 128 bytes are looked at: what stands behind them is ignored.
#![tactic(auto)]

use std::io;
use std::io::Write;

fn main(rt: HostRuntime) -> io::Result<()> {
    let mut bytes = [0u8; 128];
    let n = stream_reads::read_full(&mut rt.stdin(), &mut bytes)?;
    show(&mut rt.stdout(), &bytes[..n])
}

// The line for a message.
fn show(writer: &mut impl Write, s: &[u8]) -> io::Result<()> {
    let h = message_rows::read_header(s);
    if h.refusal != 0 {
        return writeln!(writer, "refused {}", h.refusal);
    }
    writeln!(writer, "{} {} {}", h.number, h.length, h.sin)
}
