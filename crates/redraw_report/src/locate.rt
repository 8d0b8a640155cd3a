//! Where in a text a region lies, as a tool counted it.
ghost use Rattle.std.specs.Prelude.{◌≡◌, ◌+◌, ◌<◌, ◌≤◌, ◌^◌, length, true};
ghost use Rattle.redraw_report.specs.Region.{IsSpanBetween, blanks_before, column_in, on_line_from, place_in_bytes};
ghost use Rattle.redraw_report.specs.Region.{place_on};
ghost use Rattle.redraw_report.specs.Region as spec;

use crate::diagnostic::{LineRegion, Region, Unit};
use snippet_lines::text_lines::{first_line, line_length};
use snippet_lines::{Place, SpanAt, between};
use snippet_text::char_width;

/// How many columns a tab stop is from the next.
const TAB: usize = 8;

/// Where on a line a place is.
#[derive(Clone, Copy)]
enum OnLine {
    /// At this column, counted from 1.
    Column(usize),
    /// At the first character that isn't a blank.
    Text,
    /// At the end of the line's text.
    End,
}

/// A text that regions are looked for in.
#[derive(Clone, Copy)]
pub struct Lookup<'a> {
    pub text: &'a str,
    /// Where its lines start.
    pub starts: &'a [usize],
    /// The number of its first line.
    pub first_line: usize,
}

/// Where in a text a region lies.
pub fn locate(lookup: Lookup<'_>, region: Region) -> SpanAt
    ensures located { IsSpanBetween lookup.entry.text.now
        (spec.start_place lookup.entry.text.now lookup.entry.starts.now lookup.entry.first_line region)
        (spec.end_place lookup.entry.text.now lookup.entry.starts.now lookup.entry.first_line region) result }
{
    between(
        lookup.text,
        start_place(lookup, region),
        end_place(lookup, region),
    )
}

/// Whether it is settled where in a text a region lies: it is said what its columns count, or that makes no difference.
pub fn is_settled(lookup: Lookup<'_>, region: Region) -> bool
    ensures value { result ≡ spec.is_settled lookup.entry.text.now lookup.entry.starts.now lookup.entry.first_line
        region }
{
    match region {
        Region::Lines(lines) if lines.unit == Unit::Unsaid => {
            lies_alike(lookup, lines, Unit::CodePoints)
                && lies_alike(lookup, lines, Unit::Bytes)
                && lies_alike(lookup, lines, Unit::Display)
        }
        _ => true,
    }
}

/// Whether a region lies where it does if its columns count in this unit.
fn lies_alike(lookup: Lookup<'_>, lines: LineRegion, unit: Unit) -> bool
    ensures value { result ≡ spec.lies_alike lookup.entry.text.now lookup.entry.starts.now lookup.entry.first_line
        lines unit }
{
    let region = Region::Lines(lines);
    let other = Region::Lines(LineRegion { unit, ..lines });
    start_place(lookup, region).byte == start_place(lookup, other).byte
        && end_place(lookup, region).byte == end_place(lookup, other).byte
}

/// Where a region starts.
fn start_place(lookup: Lookup<'_>, region: Region) -> Place
    ensures value { result ≡ spec.start_place lookup.entry.text.now lookup.entry.starts.now lookup.entry.first_line
        region }
{
    match region {
        Region::Bytes { start, .. } => byte_place(start),
        Region::Chars { start, unit, .. } => place_after(lookup.text.as_bytes(), start, unit),
        Region::Lines(lines) => {
            let at = start_on_line(lines.start_column, lines.end_column);
            place_on_line(lookup, lines.start_line, at, lines.unit)
        }
    }
}

/// Where a region ends.
fn end_place(lookup: Lookup<'_>, region: Region) -> Place
    ensures value { result ≡ spec.end_place lookup.entry.text.now lookup.entry.starts.now lookup.entry.first_line
        region }
{
    match region {
        Region::Bytes { end, .. } => byte_place(end),
        Region::Chars { end, unit, .. } => place_after(lookup.text.as_bytes(), end, unit),
        Region::Lines(lines) => {
            let at = end_on_line(lines.end_column);
            place_on_line(lookup, lines.end_line, at, lines.unit)
        }
    }
}

/// Where on its line a region with these columns starts.
fn start_on_line(start_column: Option<usize>, end_column: Option<usize>) -> OnLine
    ensures value { result ≡ spec.start_on_line start_column end_column }
{
    match (start_column, end_column) {
        (Some(column), _) => OnLine::Column(column),
        (None, Some(_)) => OnLine::Column(1),
        (None, None) => OnLine::Text,
    }
}

/// Where on its line a region with this end column ends.
fn end_on_line(end_column: Option<usize>) -> OnLine
    ensures value { result ≡ spec.end_on_line end_column }
{
    match end_column {
        Some(column) => OnLine::Column(column),
        None => OnLine::End,
    }
}

/// The place of a byte that was counted as one.
fn byte_place(byte: usize) -> Place
    ensures value { result ≡ record { byte = byte; exact = true } }
{
    Place { byte, exact: true }
}

/// Where a place on the line of this number is.
fn place_on_line(lookup: Lookup<'_>, line: usize, at: OnLine, unit: Unit) -> Place
    ensures value { result ≡ place_on unit lookup.entry.text.now lookup.entry.starts.now lookup.entry.first_line
        line at }
{
    if line < lookup.first_line {
        return Place {
            byte: 0,
            exact: false,
        };
    }
    match lookup.starts.get(line - lookup.first_line) {
        Some(start) => place_from_start(lookup.text, *start, at, unit),
        None => Place {
            byte: lookup.text.len(),
            exact: false,
        },
    }
}

/// Where a place is in the line that starts at this byte.
fn place_from_start(text: &str, start: usize, at: OnLine, unit: Unit) -> Place
    ensures value { result ≡ on_line_from unit text.now at start }
{
    let bytes = text.as_bytes();
    let line = &bytes[start.min(bytes.len())..];
    match at {
        OnLine::Column(column) => {
            let within = place_in_line(counted_line(line), column, unit);
            Place {
                byte: start + within.byte,
                exact: within.exact,
            }
        }
        OnLine::Text => byte_place(start + blanks_at_start(line)),
        OnLine::End => byte_place(start + line_length(line)),
    }
}

/// The bytes in which columns of the first line of some bytes count: of the last line of a text they count its line
/// feed too.
fn counted_line(bytes: &[u8]) -> &[u8]
    ensures value { result.now ≡ spec.counted_line bytes.now }
    ensures within { length result.now ≤ length bytes.now }
{
    if matches!(&bytes[line_length(bytes)..], [b'\n'] | [b'\r', b'\n']) {
        bytes
    } else {
        first_line(bytes)
    }
}

/// How many blanks some bytes begin with: spaces and tabs.
fn blanks_at_start(bytes: &[u8]) -> usize
    ensures value { result ≡ blanks_before bytes.now }
    ensures within { result ≤ length bytes.now }
{
    for (at, byte) in bytes.iter().enumerate() {
        if !matches!(*byte, b' ' | b'\t') {
            return at;
        }
    }
    bytes.len()
}

/// Where a column, counted from 1, is in a line.
fn place_in_line(line: &[u8], column: usize, unit: Unit) -> Place
    ensures value { result ≡ column_in unit line.now column }
    ensures within { result.byte ≤ length line.now }
{
    if column == 0 {
        return Place {
            byte: 0,
            exact: false,
        };
    }
    place_after(line, column - 1, unit)
}

/// The place before which a text has this many units.
fn place_after(bytes: &[u8], units: usize, unit: Unit) -> Place
    ensures value { result ≡ place_in_bytes unit 0 0 bytes.now units }
    ensures within { result.byte ≤ length bytes.now }
{
    place_from(bytes, 0, units, unit)
}

/// The place before which a text that stands after so many units has this many more.
pub fn place_from(bytes: &[u8], before: usize, units: usize, unit: Unit) -> Place
    requires fits { before + units < 2 ^ 64 }
    ensures value { result ≡ place_in_bytes unit 0 before bytes.now units }
    ensures within { result.byte ≤ length bytes.now }
{
    let mut left = units;
    for (at, byte) in bytes.iter().enumerate() {
        let taken = before + (units - left);
        let width = units_at(*byte, &bytes[at + 1..], taken, unit);
        if left < width {
            return Place {
                byte: at,
                exact: left == 0,
            };
        }
        left -= width;
    }
    Place {
        byte: bytes.len(),
        exact: left == 0,
    }
}

/// How many units a character counts that begins with this byte and goes on with these, after so many units; 0 at its
/// other bytes, unless each byte counts.
fn units_at(byte: u8, after: &[u8], before: usize, unit: Unit) -> usize
    ensures value { result ≡ spec.units_at unit before byte after.now }
{
    let is_first = byte < 128 || byte >= 192;
    match unit {
        Unit::Bytes => 1,
        Unit::CodePoints => is_first as usize,
        Unit::Utf16 | Unit::Unsaid if byte >= 240 => 2,
        Unit::Utf16 | Unit::Unsaid => is_first as usize,
        Unit::Display if is_first => columns_at(byte, after, before),
        Unit::Display => 0,
    }
}

/// How many columns a character takes in column `before`, from 0.
fn columns_at(byte: u8, after: &[u8], before: usize) -> usize
    ensures value { result ≡ spec.columns_at before byte after.now }
{
    if byte == b'\t' {
        return TAB - before % TAB;
    }
    match char::from_u32(code_at(byte, after)) {
        Some(c) => char_width(c),
        None => 1,
    }
}

/// The number of the character that begins with this byte and goes on with these.
fn code_at(byte: u8, after: &[u8]) -> u32
    ensures value { result ≡ spec.code_at byte after.now }
{
    let lead = byte as u32;
    match byte {
        0..=127 => lead,
        128..=223 => lead % 32 * 64 + low_bits(after, 0),
        224..=239 => lead % 16 * 4096 + low_bits(after, 0) * 64 + low_bits(after, 1),
        _ => {
            let high = lead % 8 * 262_144 + low_bits(after, 0) * 4096;
            high + low_bits(after, 1) * 64 + low_bits(after, 2)
        }
    }
}

/// What the byte with this index says of a character that began before it: its lowest six bits.
fn low_bits(bytes: &[u8], index: usize) -> u32
    ensures value { result ≡ spec.low_bits bytes.now index }
    ensures within { result < 64 }
{
    match bytes.get(index) {
        Some(byte) => (*byte % 64) as u32,
        None => 0,
    }
}
