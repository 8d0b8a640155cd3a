//! How long the places are that a tool names by a point: to the end of the word at it, or as many columns of a terminal
//! as the tool put marks below it.
ghost use Rattle.std.specs.Prelude.{◌≡◌, ℕ, ◌+◌, ◌-◌, ◌^◌, ◌≤◌, Some, drop, false, length, min};
ghost use Rattle.std.specs.List.{AllZip};
ghost use Rattle.redraw_report.specs.Region.{start_bytes};
ghost use Rattle.redraw_report.specs.declared.diagnostic.Unit.TheVariants.{Bytes};
ghost use Rattle.redraw_run.specs.Marked.{IsChildMarked, IsMarked, IsPlaceMarked};
ghost use Rattle.redraw_run.specs.Word as spec;
ghost use Rattle.redraw_run.specs.Word.{IsUpToWord, is_wide, word_length};

use redraw_read::source::Source;
use redraw_read::sources::{SourceFiles, Sources};
use redraw_report::diagnostic::{Child, Diagnostic, FileSpan, LineRegion, Region, Unit};
use redraw_report::locate::{Lookup, locate};
use snippet_text::char_width;
use std::str;

/// Has each point of a finding in a file that was read go on to the end of the word at it, or as far as marks stood
/// below it, and each line without columns end where its text does.
pub fn mark_words<S: SourceFiles + Drop>(finding: &mut Diagnostic, sources: &Sources<S>)
    ensures marked { IsMarked finding.old finding.new }
{
    mark_places(&mut finding.spans, sources);
    for child in finding.children.iter_mut() {
        mark_child(child, sources);
    }
}

/// Marks the places of a child.
fn mark_child<S: SourceFiles + Drop>(child: &mut Child, sources: &Sources<S>)
    ensures marked { IsChildMarked child.old child.new }
{
    mark_places(&mut child.spans, sources);
}

/// Has each of some places that is a point in a file that was read go on to the end of the word at it, or as far as
/// marks stood below it.
fn mark_places<S: SourceFiles + Drop>(spans: &mut [FileSpan], sources: &Sources<S>)
    ensures marked { AllZip IsPlaceMarked spans.old spans.new }
{
    for span in spans.iter_mut() {
        span.region = marked_part(span, sources);
    }
}

/// The part of its file that a place is, marked where the file was read.
fn marked_part<S: SourceFiles + Drop>(span: &FileSpan, sources: &Sources<S>) -> Region {
    match source_of(sources, span.file.as_str()) {
        Some(source) => with_word(source, span.region),
        None => span.region,
    }
}

/// What the file of this name holds, where it was read.
pub fn source_of<'s, S: SourceFiles + Drop>(
    sources: &'s Sources<S>,
    name: &str,
) -> Option<&'s Source> {
    let place = sources.index().place(name, "")?;
    sources.files().get(place)?.source()
}

/// A point with the word at it or what was marked, a line without columns with its text alone, and any other region as
/// it is.
fn with_word(source: &Source, region: Region) -> Region {
    match region {
        Region::Lines(lines) if lines.start_line == lines.end_line => Region::Lines(marked(
            source, lines,
        )),
        region => region,
    }
}

/// A point to the end of the word at it or of what was marked, or a line to the end of its text.
fn marked(source: &Source, lines: LineRegion) -> LineRegion
    ensures word { (column : ℕ) → lines.start_column ≡ Some column → lines.unit ≡ Bytes
        → is_wide lines.start_column lines.end_column ≡ false
        → IsUpToWord source.now.lines (start_bytes source.now.lines) lines column result }
{
    let lookup = Lookup {
        text: source.text(),
        starts: &source.starts,
        first_line: 1,
    };
    let point = LineRegion {
        end_column: lines.start_column,
        ..lines
    };
    let found = locate(lookup, Region::Lines(point));
    match lines.start_column {
        Some(column) => up_to_end(source.text().as_bytes(), found.span.start, column, lines),
        None => without_blanks(source, lines, found.span.start, found.span.end),
    }
}

/// A point in this column, which is at this byte, to the end of the word there or of what was marked.
fn up_to_end(bytes: &[u8], start: usize, column: usize, lines: LineRegion) -> LineRegion
    ensures word { start ≤ length bytes.now → lines.unit ≡ Bytes
        → is_wide lines.start_column lines.end_column ≡ false → result ≡ record lines {
          end_column = Some (min (column + word_length (drop start bytes.now)) (2 ^ 64 - 1));
        } }
{
    let count = units_in(marked_text(bytes, start, lines), 0, lines.unit);
    LineRegion {
        end_column: Some(column.saturating_add(count)),
        ..lines
    }
}

/// What is marked of some bytes from here on: as many columns as the tool put marks below, or the word.
fn marked_text(bytes: &[u8], start: usize, lines: LineRegion) -> &[u8]
    ensures word { start ≤ length bytes.now → is_wide lines.start_column lines.end_column ≡ false
        → length result.now ≡ word_length (drop start bytes.now) }
{
    match (lines.start_column, lines.end_column) {
        (Some(first), Some(end)) if first < end => in_columns(bytes, start, end - first),
        _ => word_at(bytes, start),
    }
}

/// What stands from here on in so many columns of a terminal, of one line.
fn in_columns(bytes: &[u8], start: usize, columns: usize) -> &[u8] {
    let rest = part_of(bytes, start, bytes.len());
    let Ok(text) = str::from_utf8(rest) else {
        return part_of(rest, 0, columns);
    };
    let mut width: usize = 0;
    for (at, c) in text.char_indices() {
        if c == '\n' || width >= columns {
            return part_of(rest, 0, at);
        }
        width = width.saturating_add(char_width(c));
    }
    rest
}

/// A line without columns, whose text is this part of its source, without the blanks at its end, where it has such.
fn without_blanks(source: &Source, lines: LineRegion, start: usize, end: usize) -> LineRegion {
    let bytes = source.text().as_bytes();
    let text = without_blanks_after(part_of(bytes, start, end));
    if text.len() == end.saturating_sub(start) {
        return lines;
    }
    let before = match source.starts.get(lines.start_line.saturating_sub(1)) {
        Some(first) => units_in(part_of(bytes, *first, start), 0, lines.unit),
        None => 0,
    };
    let column = before.saturating_add(1);
    LineRegion {
        start_column: Some(column),
        end_column: Some(column.saturating_add(units_in(text, before, lines.unit))),
        ..lines
    }
}

/// Some bytes from one to before another.
fn part_of(bytes: &[u8], start: usize, end: usize) -> &[u8] {
    let end = end.min(bytes.len());
    &bytes[start.min(end)..end]
}

/// Some bytes without the blanks at their end.
fn without_blanks_after(bytes: &[u8]) -> &[u8] {
    let mut length = bytes.len();
    for at in 0..bytes.len() {
        if !matches!(bytes[at], b' ' | b'\t') {
            length = at + 1;
        }
    }
    part_of(bytes, 0, length)
}

/// How many units some bytes have that are text and stand after so many.
fn units_in(bytes: &[u8], before: usize, unit: Unit) -> usize
    ensures bytes { unit ≡ Bytes → result ≡ length bytes.now }
{
    match unit {
        Unit::Bytes => bytes.len(),
        Unit::CodePoints => text_of(bytes).chars().count(),
        Unit::Utf16 | Unit::Unsaid => text_of(bytes).encode_utf16().count(),
        Unit::Display => columns_of(text_of(bytes), before),
    }
}

/// The text that some bytes are; none where they aren't UTF-8.
fn text_of(bytes: &[u8]) -> &str {
    str::from_utf8(bytes).unwrap_or("")
}

/// How many columns of a terminal a text takes that stands after so many, with tab stops eight apart.
fn columns_of(text: &str, before: usize) -> usize {
    let mut at = before;
    for c in text.chars() {
        let width = if c == '\t' { 8 - at % 8 } else { char_width(c) };
        at = at.saturating_add(width);
    }
    at.saturating_sub(before)
}

/// The word that begins at this byte: letters, digits, underscores and what isn't ASCII.
fn word_at(bytes: &[u8], start: usize) -> &[u8]
    ensures word { start ≤ length bytes.now → length result.now ≡ word_length (drop start bytes.now) }
{
    let rest = &bytes[start.min(bytes.len())..];
    &rest[..word_length(rest)]
}

/// How many bytes the word has that some bytes begin with.
fn word_length(bytes: &[u8]) -> usize
    ensures value { result ≡ spec.word_length bytes.now }
    ensures within { result ≤ length bytes.now }
{
    for (at, byte) in bytes.iter().enumerate() {
        if !is_in_word(*byte) {
            return at;
        }
    }
    bytes.len()
}

/// Whether a byte is one of a word.
fn is_in_word(byte: u8) -> bool
    ensures value { result ≡ spec.is_in_word byte }
{
    byte == b'_' || (byte >= 128 || byte.is_ascii_alphanumeric())
}
