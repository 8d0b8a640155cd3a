//! Lines that are marked as a whole, by bars beside them.
ghost use Rattle.std.specs.Prelude.{◌≡◌, chars, length, take};
ghost use Rattle.std.specs.Char.{is_whitespace};
ghost use Rattle.std.specs.List.{list_all};
ghost use Rattle.snippet_strokes.specs.Bars as spec;
ghost use Rattle.snippet_strokes.specs.DrawnBars as drawn;
ghost use Rattle.snippet_text.specs.Normalized.{norm, shown};

use snippet_parts::{LineAnnotation, LineAnnotationType};

/// Whether a line is marked as a whole: it has entries, and each is a bar, or a start with nothing but whitespace
/// before it.
///
/// ```text
///     1 | /   fn f() {        a start, marked as a whole
///     2 | |     x             a bar beside a line
/// ```
pub(crate) fn is_whole_line(line: &str, entries: &[LineAnnotation]) -> bool
    ensures value { result ≡ drawn.is_whole_line (norm (chars line.now)) entries.now }
{
    let mut last_start = 0;
    for entry in entries {
        match entry.annotation_type {
            LineAnnotationType::MultilineLine(_) => {}
            LineAnnotationType::MultilineStart(_) => {
                last_start = last_start.max(entry.start.display);
            }
            LineAnnotationType::Singleline | LineAnnotationType::MultilineEnd(_) => return false,
        }
    }
    !entries.is_empty() && begins_blank(line, last_start)
}

/// Whether the first characters of a line as it is shown, as many as `count`, are whitespace. The line is read no
/// further than to one that isn't.
fn begins_blank(line: &str, count: usize) -> bool
    ensures value { result ≡ list_all is_whitespace (take count (norm (chars line.now))) }
{
    let mut left = count;
    for c in line.chars() {
        if left == 0 {
            return true;
        }
        if !is_shown_blank(c) {
            return false;
        }
        left = left.saturating_sub(shown_count(c));
    }
    true
}

/// Whether nothing but whitespace is shown for a character.
fn is_shown_blank(c: char) -> bool
    ensures value { result ≡ list_all is_whitespace (shown c) }
{
    match c {
        '\u{200d}' => true,
        // Whitespace for which a control picture is shown.
        '\u{b}'..='\u{d}' => false,
        _ => c.is_whitespace(),
    }
}

/// How many characters are shown for a character.
fn shown_count(c: char) -> usize
    ensures value { result ≡ length (shown c) }
{
    match c {
        '\t' => 4,
        '\u{200d}' => 0,
        _ => 1,
    }
}
