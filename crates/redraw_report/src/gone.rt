//! The lines that an edit takes out, where the lines that it puts in don't tell: several come, in place of some that
//! aren't among them. A suggestion shows only what comes then, as if nothing went.
//!
//! ```text
//! 1 - import sys
//! 2 - import abc
//!   |
//! 1 + import abc
//! 2 + import sys
//! ```
ghost use Rattle.std.specs.Prelude.{◌≡◌, ◌≤◌, ◌||◌, eqb, length, option_map, true};
ghost use Rattle.std.specs.List.{ends_with, list_any, starts_with};
ghost use Rattle.redraw_report.specs.Gone as spec;

use crate::finding::Replacement;
use snippet_lines::counts::ends_with_line_feed;
use snippet_lines::line_bounds::line_bounds;
use snippet_lines::text_lines::line_length;
use std::ops::Range;

/// Where those lines are in the text that an edit changes: from the start of the first to the end of the last, its line
/// end not counted. None, if the lines that come tell.
pub(crate) fn gone_lines(text: &str, change: &Replacement<'_>) -> Option<Range<usize>>
    ensures value { option_map (λ lines. (lines.start, lines.end)) result ≡ spec.gone_lines text.now change.now }
{
    if !hides_gone(text, change) {
        return None;
    }
    let start = line_bounds(text, change.start).start;
    let last = line_bounds(text, last_gone(text, change)).start;
    Some(start..last + line_length(&text.as_bytes()[last..]))
}

/// Whether the lines that come don't tell which go.
fn hides_gone(text: &str, change: &Replacement<'_>) -> bool
    ensures value { result ≡ spec.hides_gone text.now change.now }
{
    let bytes = text.as_bytes();
    change.start < change.end
        && change.end <= bytes.len()
        && is_replaced(&bytes[change.start..change.end], change.text.as_bytes())
}

/// Whether several lines come in place of a text that is at neither end of them, and that can be seen.
fn is_replaced(gone: &[u8], comes: &[u8]) -> bool
    ensures value { result ≡ spec.is_replaced gone.now comes.now }
{
    is_seen(gone) && has_feed(before_end(gone, comes)) && !is_at_end(gone, comes)
}

/// Whether some bytes hold one that is no blank and no line end.
fn is_seen(bytes: &[u8]) -> bool
    ensures value { result ≡ list_any spec.is_seen bytes.now }
{
    bytes.iter().any(|byte| is_seen_byte(*byte))
}

/// Whether a byte is no blank and no line end.
fn is_seen_byte(byte: u8) -> bool
    ensures value { result ≡ spec.is_seen byte }
{
    !matches!(byte, b'\t' | b'\n' | 0x0c | b'\r' | b' ')
}

/// Whether some bytes begin or end with others.
fn is_at_end(part: &[u8], bytes: &[u8]) -> bool
    ensures value { result ≡ (starts_with eqb bytes.now part.now || ends_with eqb bytes.now part.now) }
{
    bytes.starts_with(part) || bytes.ends_with(part)
}

/// What comes, without the line feed at its end that what goes has too.
fn before_end<'a>(gone: &[u8], comes: &'a [u8]) -> &'a [u8]
    ensures value { result.now ≡ spec.before_end gone.now comes.now }
{
    if ends_with_line_feed(gone) && ends_with_line_feed(comes) {
        &comes[..comes.len() - 1]
    } else {
        comes
    }
}

/// Whether there is a line feed in some bytes.
fn has_feed(bytes: &[u8]) -> bool
    ensures value { result ≡ spec.has_feed bytes.now }
{
    bytes.iter().any(|byte| *byte == b'\n')
}

/// A byte of the last line that goes: the last byte of what goes, or the one after it, if that is on a line which is
/// joined to the last one that comes.
fn last_gone(text: &str, change: &Replacement<'_>) -> usize
    requires hides { spec.hides_gone text.now change.now ≡ true }
    ensures value { result ≡ spec.last_gone text.now change.now }
    ensures within { result ≤ length text.now }
{
    let gone = &text.as_bytes()[change.start..change.end];
    if ends_with_line_feed(gone) && !ends_with_line_feed(change.text.as_bytes()) {
        change.end
    } else {
        change.end - 1
    }
}
