//! Lines that are written whole, or up to where a write failed.

ghost use Rattle.std.specs.Bool.{OnFalse, OnTrue};
ghost use Rattle.program.specs.Stream.{Receives, Whole, CutShort, Told};

use output_stream::Stream;
use std::io::Write;

/// The bytes that end a line.
pub(crate) const LINE_END: &[u8] = b"\n";

/// Writes a line, and says whether all of it was written. Where a write failed a first part of it was, which may be
/// nothing.
///
/// `out` isn't flushed.
pub fn write_line<W: Write>(text: &str, out: &mut Stream<W>) -> bool
    ensures whole { OnTrue result (Receives W.contents out.old out.new (Whole text.now)) }
    ensures cut { OnFalse result (Receives W.contents out.old out.new (CutShort text.now)) }
    ensures told { Receives W.contents out.old out.new (Told text.now) }
{
    match out.write(text.as_bytes()) {
        Ok(()) => match out.write(LINE_END) {
            Ok(()) => true,
            Err(_) => false,
        },
        Err(_) => false,
    }
}
