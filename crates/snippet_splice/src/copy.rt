//! How source is copied beside patches: by the text of its lines, with a line feed for each line end.
ghost use Rattle.std.specs.Prelude.{◌≡◌, ◌==◌, ◌&&◌, ◌-◌, ◌<◌, ◌≤◌, ◌++◌, IfOk, count_by, length, nat_lt};
ghost use Rattle.std.specs.Prelude.{slice_index, true, if◌then◌else◌};
ghost use Rattle.std.specs.String.{string_bytes};
ghost use Rattle.std.specs.Str.{IsCharBoundary};
ghost use Rattle.snippet_lines.specs.Lines.{is_lf, last_byte};
ghost use Rattle.snippet_lines.specs.IsSpan.{IsSpanBorder};
ghost use Rattle.snippet_splice.specs.Copied.{in_text, with_line_feeds, copied};

use memchr::memchr;
use snippet_lines::line_feed_count;
use std::alloc::AllocError;

/// Adds what stands from one byte of a source to another, with a line feed for each line end, and counts the line
/// feeds.
///
/// A byte inside a line end counts as one before it, and one after a final line end too.
pub(crate) fn push_copied(
    out: &mut String,
    source: &str,
    from: usize,
    to: usize,
) -> Result<usize, AllocError>
    requires from { IsSpanBorder source.now from }
    requires to { IsSpanBorder source.now to }
    requires ordered { from ≤ to }
    ensures written { IfOk result (λ _. string_bytes out.new ≡ string_bytes out.old ++ copied source.now from to) }
    ensures feeds { IfOk result (λ n. n ≡ count_by is_lf (copied source.now from to)) }
{
    let between = &source[text_place(source, from)..text_place(source, to)];
    push_with_line_feeds(out, between)?;
    Ok(line_feed_count(between))
}

/// A byte of a source, moved out of the line end that it stands in, or that it stands after at the source's end.
pub(crate) fn text_place(source: &str, byte: usize) -> usize
    ensures value { result ≡ in_text source.now byte }
    ensures border { IsSpanBorder source.now byte → IsCharBoundary source.now result }
{
    let bytes = source.as_bytes();
    let at = byte.min(text_end(bytes));
    if is_inside_line_end(bytes, at) {
        at - 1
    } else {
        at
    }
}

/// The end of a source, before a line feed that ends it.
fn text_end(bytes: &[u8]) -> usize
    ensures value { result ≡ (if last_byte bytes.now == 10 then length bytes.now - 1 else length bytes.now) }
{
    match bytes {
        [.., b'\n'] => bytes.len() - 1,
        _ => bytes.len(),
    }
}

/// Whether a byte stands between the carriage return and the line feed of a line end.
fn is_inside_line_end(bytes: &[u8], at: usize) -> bool
    ensures value { let source = bytes.now in result ≡ (nat_lt 0 at && nat_lt at (length source)
        && slice_index source at == 10 && slice_index source (at - 1) == 13) }
    ensures after { result ≡ true → 0 < at }
{
    0 < at && at < bytes.len() && bytes[at] == b'\n' && bytes[at - 1] == b'\r'
}

/// Adds a text with a line feed in place of each carriage return and line feed. Most texts have none, and are copied
/// whole.
fn push_with_line_feeds(out: &mut String, text: &str) -> Result<(), AllocError>
    ensures written { IfOk result (λ _. string_bytes out.new ≡ string_bytes out.old ++ with_line_feeds text.now) }
{
    match memchr(b'\r', text.as_bytes()) {
        Some(_) => push_converted(out, text),
        None => {
            out.push_str(text)?;
            Ok(())
        }
    }
}

/// Adds a text that may have carriage returns and line feeds, with a line feed in place of each such pair.
fn push_converted(out: &mut String, text: &str) -> Result<(), AllocError>
    ensures written { IfOk result (λ _. string_bytes out.new ≡ string_bytes out.old ++ with_line_feeds text.now) }
{
    let mut rest = text;
    while let Some((front, after)) = rest.split_once('\r') {
        out.push_str(front)?;
        if !after.starts_with('\n') {
            out.push('\r')?;
        }
        rest = after;
    }
    out.push_str(rest)?;
    Ok(())
}
