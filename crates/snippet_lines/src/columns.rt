//! Spans of a source whose ends are named by line and column.
ghost use Rattle.std.specs.Prelude.{◌≡◌, ◌+◌, ◌^◌, ◌<◌, ◌≤◌, IfSome, chars, length, slice_get};
ghost use Rattle.std.specs.Str.{IsCharBoundary};
ghost use Rattle.snippet_lines.specs.Places as spec;
ghost use Rattle.snippet_lines.specs.Places.{IsSpanBetween};
ghost use Rattle.snippet_lines.specs.TextLines.{before_line_end, start_bytes};

use crate::clamp::{Place, SpanAt, between};
use crate::text_lines::line_length;
use snippet_text::char_width;

/// What columns are counted in.
#[derive(Clone, Copy, Debug, PartialEq, Eq)]
pub enum ColumnUnit {
    /// Characters: Unicode scalar values.
    Chars,
    /// Units of UTF-16: a character outside of the basic plane is two, each other one.
    Utf16,
    /// Columns of a terminal, in which a character is as wide as a report shows it.
    Columns,
}

/// A place by line and column, each counted from 1.
///
/// Each line feed begins a line, so after one that ends a text there is a line that is empty. Right after its text a
/// line has a column more.
#[derive(Clone, Copy, Debug, PartialEq, Eq)]
pub struct Position {
    /// Its line.
    pub line: usize,
    /// Its column, in some unit.
    pub column: usize,
}

/// The span of a source from one place to another, in bytes, as annotations and patches take it.
///
/// A place is the byte before which the line's text has one unit less than its column says; characters that count none
/// belong to what stands before them. Of a place that the source doesn't hold it is told, by `clamped`, and what comes
/// closest is taken: the source's start or end where there is no such line, the end of the line's text where there is
/// no such column, the start of a character that the column lies inside of. A span that would end before its start is
/// empty. The other way round is `SourceMap::span_to_locations`.
///
/// ```
/// let from = Position { line: 2, column: 5 };
/// let to = Position { line: 2, column: 6 };
/// // `é` is one character of two bytes: the span is 6..8, and not clamped.
/// let at = span_at("a\nlet é = 1;\n", from, to, ColumnUnit::Chars);
/// ```
pub fn span_at(source: &str, from: Position, to: Position, unit: ColumnUnit) -> SpanAt
    ensures located { IsSpanBetween source.now
        (spec.place_of unit source.now from) (spec.place_of unit source.now to) result }

    // Whatever is asked for, it starts at the last border of characters at or before the place of `from`, and ends at
    // the last at or before that of `to`, or at its start where that is later.
    ensures value { result ≡ spec.clamped_between source.now
        (spec.place_of unit source.now from) (spec.place_of unit source.now to) }
{
    between(
        source,
        place_of(source, from, unit),
        place_of(source, to, unit),
    )
}

/// The place of a position.
fn place_of(source: &str, position: Position, unit: ColumnUnit) -> Place
    ensures value { result ≡ spec.place_of unit source.now position }
{
    if position.line == 0 {
        return Place {
            byte: 0,
            exact: false,
        };
    }
    match line_start(source, position.line - 1) {
        Some(start) => place_on_line(source, start, position.column, unit),
        None => Place {
            byte: source.len(),
            exact: false,
        },
    }
}

/// The byte at which the line of an index, from 0, starts; `None` where the source has no such line.
pub fn line_start(source: &str, index: usize) -> Option<usize>
    ensures value { result ≡ slice_get (start_bytes source.now) index }
    ensures border { IfSome result (λ start. IsCharBoundary source.now start) }
{
    let mut start = 0;
    let mut left = index;
    for (at, byte) in source.as_bytes().iter().enumerate() {
        if left == 0 {
            return Some(start);
        }
        if *byte == b'\n' {
            start = at + 1;
            left -= 1;
        }
    }
    if left == 0 { Some(start) } else { None }
}

/// The place of a column, counted from 1, on the line that starts at this byte.
fn place_on_line(source: &str, start: usize, column: usize, unit: ColumnUnit) -> Place
    requires border { IsCharBoundary source.now start }
    ensures value { result ≡ spec.place_on_its_line unit source.now column start }
{
    if column == 0 {
        return Place {
            byte: start,
            exact: false,
        };
    }
    let within = place_after(line_text(&source[start..]), column - 1, unit);
    Place {
        byte: start + within.byte,
        exact: within.exact,
    }
}

/// The first line of a text, without its end.
fn line_text(text: &str) -> &str
    ensures value { result.now ≡ before_line_end text.now }
    ensures within { length result.now ≤ length text.now }
{
    &text[..line_length(text.as_bytes())]
}

/// The place before which a text has this many units. It isn't exact where it lies inside of a character, of which it
/// then is the start, or where the text has fewer units, and then it is the text's end.
pub fn place_after(text: &str, units: usize, unit: ColumnUnit) -> Place
    ensures value { result ≡ spec.place_from unit 0 (chars text.now) units }
    ensures within { result.byte ≤ length text.now }
{
    let mut at = 0;
    let mut left = units;
    for c in text.chars() {
        let count = units_of(c, unit);
        if left < count {
            return Place {
                byte: at,
                exact: left == 0,
            };
        }
        left -= count;
        at += c.len_utf8();
    }
    Place {
        byte: at,
        exact: left == 0,
    }
}

/// How many units a character counts.
fn units_of(c: char, unit: ColumnUnit) -> usize
    ensures value { result ≡ spec.units_of unit c }
{
    match unit {
        ColumnUnit::Chars => 1,
        ColumnUnit::Utf16 => c.len_utf16(),
        ColumnUnit::Columns => char_width(c),
    }
}
