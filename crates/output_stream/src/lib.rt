//! Bytes that are written whole, or up to where a write failed, to a writer or to a stream that keeps whether one did.
#![tactic(auto)]

ghost use Rattle.std.specs.Prelude.{◌≤◌, IfOk, OnErr, OnOk, length, take};
ghost use Rattle.std.specs.Io.KnownBytes.{Appends, Keeps};
ghost use Rattle.output_stream.specs.Part.{AppendsPart};

mod stream;

use std::io::{self, ErrorKind, Write};
pub use stream::Stream;

/// Writes these bytes. Where a write failed a first part of them was written, and the error is its own.
///
/// `out` isn't flushed.
pub fn write_whole<W: Write>(bytes: &[u8], out: &mut W) -> io::Result<()>
    ensures whole { OnOk result (Appends (W.contents out.old) (W.contents out.new) bytes.now) }
    ensures cut { OnErr result (AppendsPart (W.contents out.old) (W.contents out.new) bytes.now) }
{
    let mut rest = bytes;
    for _ in 0..u64::MAX {
        if rest.is_empty() {
            return Ok(());
        }
        let count = write_some(rest, out)?;
        rest = &rest[count..];
    }
    if rest.is_empty() {
        Ok(())
    } else {
        Err(io::Error::from(ErrorKind::WriteZero))
    }
}

/// Writes some of these bytes, and answers how many: none where the write was interrupted.
fn write_some<W: Write>(bytes: &[u8], out: &mut W) -> io::Result<usize>
    ensures count { IfOk result (λ count. count ≤ length bytes.now) }
    ensures taken { IfOk result (λ count.
        Appends (W.contents out.old) (W.contents out.new) (take count bytes.now)) }
    ensures failed { OnErr result (Keeps (W.contents out.old) (W.contents out.new)) }
{
    match out.write(bytes) {
        Ok(0) => Err(io::Error::from(ErrorKind::WriteZero)),
        Ok(count) => Ok(count),
        Err(error) if error.kind() == ErrorKind::Interrupted => Ok(0),
        Err(error) => Err(error),
    }
}
