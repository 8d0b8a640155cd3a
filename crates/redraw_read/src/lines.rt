//! Whether a source has given lines.

ghost use Rattle.std.specs.Prelude.{◌≡◌, ◌==◌, drop};
ghost use Rattle.std.specs.List.{slice_split};
ghost use Rattle.std.specs.Str.{bytes_eq};
ghost use Rattle.redraw_read.specs.Extract as spec;
ghost use Rattle.redraw_read.specs.Extract.{after_line, are_lines};
ghost use Rattle.redraw_report.specs.Region as region;
ghost use Rattle.redraw_report.specs.Report.{lent};

use crate::source::Source;
use redraw_report::text_lines::first_line;

/// Whether a source has these lines, from the one of this number on.
pub fn has_lines(source: &Source, first_line: usize, lines: &str) -> bool
    ensures value { result ≡ spec.has_lines source.now.lines first_line lines.now }
{
    if first_line == 0 {
        return false;
    }
    let starts = source.starts.as_slice();
    let before = (first_line - 1).min(starts.len());
    starts_lines(source.text(), &starts[before..], lines)
}

/// Whether these are the lines of a text that start at these bytes of it.
fn starts_lines(text: &str, starts: &[usize], lines: &str) -> bool
    ensures value { result ≡ are_lines text.now starts.now (slice_split (λ b. b == 10) lines.now) }
{
    let mut starts = starts;
    for line in lines.split('\n') {
        match rest_after(text, starts, line) {
            Some(rest) => starts = rest,
            None => return false,
        }
    }
    true
}

/// Where the lines start that come after the first of these, if that is this line.
fn rest_after<'s>(text: &str, starts: &'s [usize], line: &str) -> Option<&'s [usize]>
    ensures value { lent result ≡ after_line text.now starts.now line.now }
{
    match starts {
        [start, rest @ ..] if is_line(text, *start, line) => Some(rest),
        _ => None,
    }
}

/// Whether this is the line of a text that starts at this byte.
fn is_line(text: &str, start: usize, line: &str) -> bool
    ensures value { result ≡ bytes_eq (region.before_line_end (drop start text.now)) line.now }
{
    let bytes = text.as_bytes();
    first_line(&bytes[start.min(bytes.len())..]) == line.as_bytes()
}
