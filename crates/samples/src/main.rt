// Reads a file of sample answers from standard input and checks it. Prints `accepted` and its number of points, or `refused` and the refusal number,
// behind CLAIM also the place, from 1, of the first bad point.
#![tactic(auto)]

use std::io;
use std::io::Write;

fn main(rt: HostRuntime) -> io::Result<()> {
    // One byte more than a file of the right shape has: 3, 65,535 of a message, 28,000 of points.
    let mut file = [0u8; 93539];
    let n = stream_reads::read_full(&mut rt.stdin(), &mut file)?;
    show(&mut rt.stdout(), &file[..n])
}

// The line for a file.
fn show(writer: &mut impl Write, file: &[u8]) -> io::Result<()> {
    let c = sample_checks::check_samples(file);
    if c.refusal == 0 {
        return writeln!(writer, "accepted {}", sample_files::point_count(file));
    }
    if c.place == 0 {
        return writeln!(writer, "refused {}", c.refusal);
    }
    writeln!(writer, "refused {} {}", c.refusal, c.place)
}
