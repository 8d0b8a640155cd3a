//! An input of which more is read than is taken.
ghost use Rattle.std.specs.Prelude.{◌≡◌, ◌≤◌, false, IfErr, IfOk, OnOk, length, take, vec_len};
ghost use Rattle.std.specs.Io.KnownBytes.{Consumes, Keeps};
ghost use Rattle.json_lines.specs.TakenLine.{TakesNext};
ghost use Rattle.redraw_command.specs.Halt.{IsHalt};

use crate::stop::Stop;
use json_lines::line::next_line;
use memchr::memchr;
use std::alloc::Global;
use std::io::BufRead;

/// An input of which more may be read than is taken. What is read and not taken is no more than a document that may
/// begin there, and what is taken is let go.
#[derive(Drop)]
pub struct Ahead<B: Drop> {
    reader: B,
    /// Whether the reader has no more. It isn't asked again then.
    is_ended: bool,
    /// The line that was read last.
    line: Vec<u8>,
    /// What was read, as far as it is kept.
    bytes: Vec<u8>,
    /// How many of these bytes were taken.
    start: usize,
    ghost within: { start ≤ vec_len bytes },
}

impl<B: BufRead + Drop> Ahead<B> {
    ghost use Rattle.redraw_command.specs.LookAhead.{IsLineAhead, ReadsOn, ahead_of, left_of};

    /// Nothing of it is read.
    pub fn new(alloc: Global, reader: B) -> Ahead<B>
        ensures left { left_of B.remaining result ≡ B.remaining reader }
    {
        Ahead {
            reader,
            is_ended: false,
            line: Vec::new(alloc),
            bytes: Vec::new(alloc),
            start: 0,
        }
    }

    /// The bytes that were read and not taken.
    pub fn bytes(&self) -> &[u8]
        ensures value { result.now ≡ ahead_of self.now }
    {
        &self.bytes[self.start..]
    }

    /// The first so many of them.
    pub fn front(&self, count: usize) -> &[u8]
        requires { count ≤ length (ahead_of self.now) }
        ensures value { result.now ≡ take count (ahead_of self.now) }
    {
        &self.bytes()[..count]
    }

    /// Whether what was taken ends within a line, of which more was read.
    pub fn is_within_line(&self) -> bool {
        match self.bytes[..self.start].last() {
            Some(byte) => *byte != b'\n' && self.start < self.bytes.len(),
            None => false,
        }
    }

    /// Reads on to the end of the next line, and answers how many bytes it has, with its line feed; none at the end.
    pub fn line(&mut self) -> Result<usize, Stop>
        ensures line { IfOk result (λ count. IsLineAhead count (left_of B.remaining self.old) (ahead_of self.new)) }
        ensures kept { OnOk result (Keeps (left_of B.remaining self.old) (left_of B.remaining self.new)) }
        ensures stops { IfErr result IsHalt }
    {
        match memchr(b'\n', self.bytes()) {
            Some(at) => Ok(at + 1),
            None => {
                self.more()?;
                Ok(self.bytes().len())
            }
        }
    }

    /// Reads one more line, and says whether there is one.
    pub fn more(&mut self) -> Result<bool, Stop>
        ensures reads { IfOk result (λ is. ReadsOn is (left_of B.remaining self.old) (ahead_of self.old)
            (ahead_of self.new)) }
        ensures kept { OnOk result (Keeps (left_of B.remaining self.old) (left_of B.remaining self.new)) }
        ensures stops { IfErr result IsHalt }
    {
        if self.is_ended {
            return Ok(false);
        }
        self.let_go()?;
        self.read()
    }

    /// Lets go what was taken, where it is no less than the rest: so no byte is moved more than once for each that is
    /// taken.
    fn let_go(&mut self) -> Result<(), Stop>
        ensures ahead { ahead_of self.new ≡ ahead_of self.old }
        ensures reader { self.new.reader ≡ self.old.reader }
        ensures ended { self.new.is_ended ≡ self.old.is_ended }
        ensures stops { IfErr result IsHalt }
    {
        let left = self.bytes.len() - self.start;
        if left == 0 {
            self.bytes.clear();
            self.start = 0;
        } else if left <= self.start {
            self.bytes = self.bytes.split_off(self.start)?;
            self.start = 0;
        }
        Ok(())
    }

    /// Reads one more line where the reader may have one, and says whether it has.
    fn read(&mut self) -> Result<bool, Stop>
        requires { self.old.is_ended ≡ false }
        ensures reads { IfOk result (λ is. ReadsOn is (left_of B.remaining self.old) (ahead_of self.old)
            (ahead_of self.new)) }
        ensures kept { OnOk result (Keeps (left_of B.remaining self.old) (left_of B.remaining self.new)) }
        ensures stops { IfErr result IsHalt }
    {
        if read_line(&mut self.reader, &mut self.line)? {
            self.bytes.extend_from_slice(&self.line)?;
            Ok(true)
        } else {
            self.is_ended = true;
            Ok(false)
        }
    }

    /// Takes so many of the bytes that were read.
    pub fn take(&mut self, count: usize)
        requires { count ≤ length (ahead_of self.old) }
        ensures left { Consumes (left_of B.remaining self.old) (left_of B.remaining self.new)
            (take count (ahead_of self.old)) }
    {
        self.start += count;
    }
}

/// Reads the next line with its end, and says whether there is one.
fn read_line<B: BufRead + Drop>(reader: &mut B, line: &mut Vec<u8>) -> Result<bool, Stop>
    ensures next { IfOk result (λ is. TakesNext is (B.remaining reader.old) (B.remaining reader.new) line.new.items) }
    ensures stops { IfErr result IsHalt }
{
    match next_line(reader, line) {
        Ok(is_more) => Ok(is_more),
        Err(error) => Err(Stop::Unreadable(error)),
    }
}
