//! Where the lines of a text start, and where they end.
ghost use Rattle.std.specs.Prelude.{◌≡◌, ◌<◌, ◌≤◌, ◌++◌, IfOk, OnOk, length};
ghost use Rattle.snippet_style.specs.Bounds.{max_usize};
ghost use Rattle.snippet_lines.specs.TextLines as spec;

use std::alloc::{AllocError, Global};

/// The bytes of a text at which its lines start: 0, and each byte after a line feed.
pub fn line_starts(alloc: Global, text: &str) -> Result<Vec<usize>, AllocError>
    ensures value { IfOk result (λ starts. starts.items ≡ spec.start_bytes text.now) }
{
    let mut starts = Vec::new(alloc);
    starts.push(0)?;
    for (at, byte) in text.as_bytes().iter().enumerate() {
        add_start(&mut starts, at, *byte)?;
    }
    Ok(starts)
}

/// Adds the byte after this one, if a line starts there.
fn add_start(starts: &mut Vec<usize>, at: usize, byte: u8) -> Result<(), AllocError>
    requires fits { at < max_usize }
    ensures added { OnOk result (starts.new.items ≡ starts.old.items ++ spec.line_start_after at byte) }
{
    if byte == b'\n' {
        starts.push(at + 1)?;
    }
    Ok(())
}

/// The first line of some bytes, without its end, which is a line feed or a carriage return and a line feed.
pub fn first_line(bytes: &[u8]) -> &[u8]
    ensures value { result.now ≡ spec.before_line_end bytes.now }
{
    &bytes[..line_length(bytes)]
}

/// How many bytes the first line of some bytes has, its end not counted.
pub fn line_length(bytes: &[u8]) -> usize
    ensures value { result ≡ spec.line_length bytes.now }
    ensures within { result ≤ length bytes.now }
{
    for at in 0..bytes.len() {
        if ends_line(&bytes[at..]) {
            return at;
        }
    }
    bytes.len()
}

/// Whether a line ends before these bytes.
fn ends_line(bytes: &[u8]) -> bool
    ensures value { result ≡ spec.ends_line bytes.now }
{
    match bytes {
        [] => true,
        [b'\n', ..] => true,
        [b'\r', rest @ ..] => begins_with_feed(rest),
        _ => false,
    }
}

/// Whether some bytes begin with a line feed.
fn begins_with_feed(bytes: &[u8]) -> bool
    ensures value { result ≡ spec.begins_with_feed bytes.now }
{
    matches!(bytes, [b'\n', ..])
}
