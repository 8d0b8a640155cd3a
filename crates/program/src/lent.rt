//! Lines that are written to a writer which is lent for a run.

ghost use Rattle.std.specs.Prelude.{◌≡◌, OnErr, OnOk, false};
ghost use Rattle.std.specs.Bool.{OnFalse, OnTrue};
ghost use Rattle.output_stream.specs.Standing.{Adds, BreaksOffBefore, known};
ghost use Rattle.program.specs.Stream.{Receives, Whole, CutShort, Told};
ghost use Rattle.program.specs.Lent.{stream_of};

use crate::line::LINE_END;
use output_stream::write_whole;
use std::io::{self, ErrorKind, Write};

/// A stream over a writer that is lent for one run. Once a write to it has failed nothing more is written to it.
///
/// No other call reaches the writer meanwhile. So a contract that names `has_failed` says what was written, and only
/// where a write failed not all of it.
#[derive(Drop)]
pub struct LentStream<'a, W> {
    target: &'a mut W,
    /// Whether a write has failed. It is set where one did, by `LentStream::write`, and nowhere else.
    has_failed: bool,
}

impl<'a, W: Write> LentStream<'a, W> {
    /// The stream over this writer, to which no write has failed yet.
    pub fn new(target: &'a mut W) -> LentStream<'a, W>
        ensures same_reference { result.target.ghost_name ≡ target.entry.ghost_name }
        ensures writer { result.target.now ≡ target.old }
        ensures sound { result.has_failed ≡ false }
    {
        LentStream {
            target,
            has_failed: false,
        }
    }

    /// Writes a line, and says whether all of it was written. Where a write failed a first part of it was, which may
    /// be nothing.
    ///
    /// The writer isn't flushed.
    pub fn write_line(&mut self, text: &str) -> bool
        ensures same_reference { self.new.target.ghost_name ≡ self.old.target.ghost_name }
        ensures whole { OnTrue result (Receives W.contents (stream_of self.old) (stream_of self.new) (Whole text.now)) }
        ensures cut { OnFalse result
            (Receives W.contents (stream_of self.old) (stream_of self.new) (CutShort text.now)) }
        ensures told { Receives W.contents (stream_of self.old) (stream_of self.new) (Told text.now) }
    {
        match self.write(text.as_bytes()) {
            Ok(()) => match self.write(LINE_END) {
                Ok(()) => true,
                Err(_) => false,
            },
            Err(_) => false,
        }
    }

    /// Writes these bytes. Where a write failed a first part of them was written, and where one had failed before,
    /// nothing.
    fn write(&mut self, bytes: &[u8]) -> io::Result<()>
        ensures same_reference { self.new.target.ghost_name ≡ self.old.target.ghost_name }
        ensures whole { OnOk result
            (Adds (known W.contents (stream_of self.old)) (known W.contents (stream_of self.new)) bytes.now) }
        ensures cut { OnErr result (BreaksOffBefore (known W.contents (stream_of self.old))
            (known W.contents (stream_of self.new)) bytes.now) }
    {
        if bytes.is_empty() {
            return Ok(());
        }
        if self.has_failed {
            return Err(io::Error::from(ErrorKind::Other));
        }
        match write_whole(bytes, self.target) {
            Ok(()) => Ok(()),
            Err(error) => {
                self.has_failed = true;
                Err(error)
            }
        }
    }
}
