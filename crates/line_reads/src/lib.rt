// The lines of a stream, read through a window.
#![tactic(auto)]

ghost use Rattle.std.specs.Prelude.{◌≡◌, ◌≤◌, ◌<◌, [], ◌++◌, length, take, drop, IfOk, MatchOption};
ghost use Rattle.std.specs.Io.KnownBytes.{IsAtEnd, Consumes};
ghost use Rattle.text_lines.specs.Inner.{line_at};
ghost use Rattle.line_reads.specs.Inner.{held, left, text_of, ended_by, Takes};

mod window;

use std::io;
use std::io::Read;
use text_lines::Line;
pub use window::Lines;

impl Lines {
    // No byte is read yet.
    pub fn new() -> Lines
        ensures { held result ≡ [] }
    {
        Lines {
            window: [0; 4096],
            from: 0,
            held: 0,
        }
    }

    // The next line, which stands in the window until the one after it is asked for; none where the stream has ended.
    // A line that fills the window is cut there.
    pub fn next_line<R: Read>(&mut self, reader: &mut R) -> io::Result<Option<Line>>
        ensures { IfOk result (λ line. MatchOption line (IsAtEnd (left self.old (R.remaining reader.old))) (λ l. Takes (left self.old (R.remaining reader.old)) (left self.new (R.remaining reader.new)) (text_of self.new l) l.next)) }
    {
        let line = self.line();
        if line.next.is_some() {
            self.pass(line);
            return Ok(Some(line));
        }
        self.read_on(reader)?;
        if self.held == 0 {
            return Ok(None);
        }
        let line = self.line();
        self.pass(line);
        Ok(Some(line))
    }

    // The bytes of a line.
    pub fn text(&self, line: Line) -> &[u8]
        ensures { result.now ≡ text_of self.now line }
    {
        text_words::before(text_words::behind(self.read(), line.from), line.length)
    }

    // The line with which the bytes that are held begin.
    fn line(&self) -> Line
        ensures { result ≡ line_at (take self.now.held self.now.window) self.now.from }
    {
        text_lines::line_at(self.read(), self.from)
    }

    // The bytes that are read and still stand in the window.
    fn read(&self) -> &[u8]
        ensures { result.now ≡ take self.now.held self.now.window }
    {
        text_words::before(&self.window, self.held)
    }

    // Passes the line with which the bytes that are held begin.
    fn pass(&mut self, line: Line)
        requires { line ≡ line_at (take self.old.held self.old.window) self.old.from }
        ensures window { self.new.window ≡ self.old.window }
        ensures held { self.new.held ≡ self.old.held }
        ensures passed { held self.old ≡ ended_by (text_of self.old line) line.next ++ held self.new }
    {
        self.from = line.next.unwrap_or(self.held);
    }

    // Moves the bytes that are held to the front of the window.
    fn to_front(&mut self)
        ensures bytes { held self.new ≡ held self.old }
        ensures front { self.new.from ≡ 0 }
    {
        self.held = text_lines::slide(&mut self.window, self.from, self.held);
        self.from = 0;
    }

    // Reads on behind the bytes that are held, which are moved to the front.
    fn read_on<R: Read>(&mut self, reader: &mut R) -> io::Result<()>
        ensures kept { IfOk result (λ _. Consumes (left self.old (R.remaining reader.old)) (left self.new (R.remaining reader.new)) []) }
        ensures front { IfOk result (λ _. self.new.from ≡ 0) }
        ensures full { IfOk result (λ _. self.new.held < 4096 → IsAtEnd (R.remaining reader.new)) }
    {
        self.to_front();
        self.held += stream_reads::read_full(reader, &mut self.window[self.held..])?;
        Ok(())
    }
}
