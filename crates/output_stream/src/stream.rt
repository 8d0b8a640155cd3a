//! What a program writes to: a writer, and whether a write to it has failed.

ghost use Rattle.std.specs.Prelude.{◌≡◌, false};

use crate::write_whole;
use std::io::{self, ErrorKind, Write};

/// A stream that a program writes to, as standard output. Once a write to it has failed nothing more is written to it.
#[derive(Drop)]
pub struct Stream<W> {
    writer: W,
    /// Whether a write has failed. It is set where one did, by `Stream::write` and `Stream::flush`, and nowhere else.
    has_failed: bool,
}

impl<W: Write> Stream<W> {
    ghost use Rattle.std.specs.Prelude.{OnErr, OnOk, []};
    ghost use Rattle.output_stream.specs.Standing.{Adds, BreaksOff, BreaksOffBefore, Gets, known};

    /// A stream to which nothing was written.
    pub fn new(writer: W) -> Stream<W>
        ensures writer { result.writer ≡ writer }
        ensures sound { result.has_failed ≡ false }
    {
        Stream {
            writer,
            has_failed: false,
        }
    }

    /// Writes these bytes. Where a write failed a first part of them was written, and where one had failed before,
    /// nothing.
    ///
    /// The writer isn't flushed.
    pub fn write(&mut self, bytes: &[u8]) -> io::Result<()>
        ensures whole { OnOk result (Adds (known W.contents self.old) (known W.contents self.new) bytes.now) }
        ensures cut { OnErr result
            (BreaksOffBefore (known W.contents self.old) (known W.contents self.new) bytes.now) }
    {
        if bytes.is_empty() {
            return Ok(());
        }
        if self.has_failed {
            return Err(io::Error::from(ErrorKind::Other));
        }
        match write_whole(bytes, &mut self.writer) {
            Ok(()) => Ok(()),
            Err(error) => {
                self.has_failed = true;
                Err(error)
            }
        }
    }

    /// Hands on what was written, unless a write had failed before.
    pub fn flush(&mut self) -> io::Result<()>
        ensures whole { OnOk result (Adds (known W.contents self.old) (known W.contents self.new) []) }
        ensures cut { OnErr result (BreaksOff (known W.contents self.old) (known W.contents self.new) []) }
        ensures either { Gets (known W.contents self.old) (known W.contents self.new) [] }
    {
        if self.has_failed {
            return Err(io::Error::from(ErrorKind::Other));
        }
        match self.writer.flush() {
            Ok(()) => Ok(()),
            Err(error) => {
                self.has_failed = true;
                Err(error)
            }
        }
    }
}
