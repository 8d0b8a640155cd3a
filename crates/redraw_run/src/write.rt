//! What goes to standard output.
ghost use Rattle.std.specs.Prelude.{◌++◌, [], ◌∷◌, OnOk};
ghost use Rattle.redraw_run.specs.Deeds.{Writes};
ghost use Rattle.output_stream.specs.Standing.{Adds, known};

use output_stream::Stream;
use redraw_command::stop::Stop;
use std::io::Write;

/// The bytes that end a line.
const LINE_END: &[u8] = b"\n";

/// Prints a text with its ending, and a line feed.
pub fn print<W: Write>(text: &str, ending: &str, out: &mut Stream<W>) -> Result<(), Stop>
    ensures printed { OnOk result
        (Adds (known W.contents out.old) (known W.contents out.new) (text.now ++ (ending.now ++ 10 ∷ []))) }
    ensures writes { Writes result (known W.contents out.old) (known W.contents out.new)
        (text.now ++ (ending.now ++ 10 ∷ [])) }
{
    match write(text.as_bytes(), out) {
        Ok(()) => end_line(ending, out),
        Err(stop) => Err(stop),
    }
}

/// Prints what stands after a text, and a line feed.
fn end_line<W: Write>(ending: &str, out: &mut Stream<W>) -> Result<(), Stop>
    ensures writes { Writes result (known W.contents out.old) (known W.contents out.new) (ending.now ++ 10 ∷ []) }
{
    match write(ending.as_bytes(), out) {
        Ok(()) => pass(LINE_END, out),
        Err(stop) => Err(stop),
    }
}

/// Hands on a part of the input as it is.
pub fn pass<W: Write>(bytes: &[u8], out: &mut Stream<W>) -> Result<(), Stop>
    ensures passed { OnOk result (Adds (known W.contents out.old) (known W.contents out.new) bytes.now) }
    ensures writes { Writes result (known W.contents out.old) (known W.contents out.new) bytes.now }
{
    match write(bytes, out) {
        Ok(()) => flush(out),
        Err(stop) => Err(stop),
    }
}

/// Hands on what was written.
fn flush<W: Write>(out: &mut Stream<W>) -> Result<(), Stop>
    ensures writes { Writes result (known W.contents out.old) (known W.contents out.new) [] }
{
    match out.flush() {
        Ok(()) => Ok(()),
        Err(error) => Err(Stop::Unwritable(error)),
    }
}

/// Writes these bytes.
fn write<W: Write>(bytes: &[u8], out: &mut Stream<W>) -> Result<(), Stop>
    ensures writes { Writes result (known W.contents out.old) (known W.contents out.new) bytes.now }
{
    match out.write(bytes) {
        Ok(()) => Ok(()),
        Err(error) => Err(Stop::Unwritable(error)),
    }
}
