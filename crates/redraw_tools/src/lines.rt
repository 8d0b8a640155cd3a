//! What some lines of a compiler report: the first tells of the finding, and those after it of its notes and of the
//! source that they are about.
ghost use Rattle.std.specs.Prelude.{◌≡◌, ◌++◌, ◌∷◌, [], IfOk, IsUtf8, OnOk, is_some, map, option_map, string_bytes};
ghost use Rattle.std.specs.Str.Lines.{lines};
ghost use Rattle.json_lines.specs.Field.{lent_texts};
ghost use Rattle.redraw_tools.specs.Found.{found_view, place_view, remark_view};
ghost use Rattle.redraw_tools.specs.Heading.{line_view};
ghost use Rattle.redraw_tools.specs.Said.{said_view};
ghost use Rattle.redraw_tools.specs.Told as spec;

use crate::cut::{before, parted};
use crate::excerpt::marked_width;
use crate::heading::{Heading, heading_of};
use crate::parts::{START, add_place, code_of, remark_of};
use crate::said::{Said, said_of};
use redraw_report::diagnostic::{Child, Diagnostic, FileSpan, LineRegion, Region, Severity, Unit};
use std::alloc::{AllocError, Global};
use std::str;

/// Whether some bytes begin with a line that tells of a finding.
pub fn begins_finding(bytes: &[u8]) -> bool
    ensures value { IsUtf8 bytes.now → result ≡ is_some (spec.first_heading bytes.now) }
{
    first_heading(bytes).is_some()
}

/// Whether a line is a note that belongs to what comes before it: one that names no rule.
pub fn is_note(line: &[u8]) -> bool
    ensures value { IsUtf8 line.now → result ≡ spec.is_note_in (spec.first_heading line.now) }
{
    match first_heading(line) {
        Some(heading) => tells_note(&heading),
        None => false,
    }
}

/// The place that the first line of some bytes begins with.
fn first_heading(bytes: &[u8]) -> Option<Heading<'_>>
    ensures value { IsUtf8 bytes.now → option_map line_view result ≡ spec.first_heading bytes.now }
{
    match str::from_utf8(bytes) {
        Ok(text) => heading_of(first_line(text)),
        Err(_) => None,
    }
}

/// The first line of a text, without its end.
fn first_line(text: &str) -> &str
    ensures value { result.now ≡ spec.first_line text.now }
{
    match parted(text, "\n") {
        Some((line, _)) => before(line, "\r").unwrap_or(line),
        None => text,
    }
}

/// Whether a note is told of a place, and no rule.
fn tells_note(heading: &Heading<'_>) -> bool
    ensures value { result ≡ spec.tells_note (line_view heading.now) }
{
    let said = said_of(heading.text);
    said.severity == Severity::Note && said.id.is_none()
}

/// What some lines report; `None` where the first tells of no finding. Their columns are counted in this unit.
pub fn reported(alloc: Global, bytes: &[u8], unit: Unit) -> Result<Option<Diagnostic>, AllocError>
    ensures value { IsUtf8 bytes.now → IfOk result (λ found. option_map found_view found
        ≡ spec.reported unit bytes.now) }
{
    match str::from_utf8(bytes) {
        Ok(text) => reported_in(alloc, text, unit),
        Err(_) => Ok(None),
    }
}

/// What the lines of a text report.
fn reported_in(alloc: Global, text: &str, unit: Unit) -> Result<Option<Diagnostic>, AllocError>
    ensures value { IfOk result (λ found. option_map found_view found ≡ spec.reported unit text.now) }
{
    let all = lines_of(alloc, text)?;
    reported_by(alloc, &all, unit)
}

/// The lines of a text.
fn lines_of(alloc: Global, text: &str) -> Result<Vec<&str>, AllocError>
    ensures value { IfOk result (λ found. lent_texts found.items ≡ lines text.now) }
{
    text.lines().collect(alloc)
}

/// What these lines report.
fn reported_by(alloc: Global, all: &[&str], unit: Unit) -> Result<Option<Diagnostic>, AllocError>
    ensures value { IfOk result (λ found. option_map found_view found ≡ spec.reported_by unit (lent_texts all.now)) }
{
    match all {
        [first, more @ ..] => match heading_of(first) {
            Some(heading) => {
                let mut finding = finding_of(alloc, &heading, unit)?;
                add_lines(alloc, &mut finding, more, unit)?;
                Ok(Some(finding))
            }
            None => Ok(None),
        },
        [] => Ok(None),
    }
}

/// Adds to a finding what more lines say of it.
fn add_lines(
    alloc: Global,
    finding: &mut Diagnostic,
    more: &[&str],
    unit: Unit,
) -> Result<(), AllocError>
    ensures added { OnOk result (found_view finding.new
        ≡ spec.with_lines unit (found_view finding.old) (lent_texts more.now)) }
{
    for line in more {
        add_line(alloc, finding, line, unit)?;
    }
    Ok(())
}

/// Adds to a finding what one more line says of it: a note, or how wide the last place is.
fn add_line(
    alloc: Global,
    finding: &mut Diagnostic,
    line: &str,
    unit: Unit,
) -> Result<(), AllocError>
    ensures added { OnOk result (found_view finding.new ≡ spec.add_line unit (found_view finding.old) line.now) }
{
    match heading_of(line) {
        Some(heading) if tells_note(&heading) => add_note(alloc, finding, &heading, unit),
        _ => {
            widen(finding, marked_width(line.as_bytes()));
            Ok(())
        }
    }
}

/// Adds the note that a line is.
fn add_note(
    alloc: Global,
    finding: &mut Diagnostic,
    heading: &Heading<'_>,
    unit: Unit,
) -> Result<(), AllocError>
    ensures added { OnOk result (found_view finding.new
        ≡ spec.with_note unit (found_view finding.old) (line_view heading.now)) }
{
    let note = note_of(alloc, heading, unit)?;
    finding.children.push(note)?;
    Ok(())
}

/// The finding that a line tells of.
fn finding_of(alloc: Global, heading: &Heading<'_>, unit: Unit) -> Result<Diagnostic, AllocError>
    ensures value { IfOk result (λ finding. found_view finding ≡ spec.finding_of unit (line_view heading.now)) }
{
    let said = said_of(heading.text);
    Ok(Diagnostic {
        severity: said.severity,
        message: String::from_str(alloc, said.message)?,
        code: code_of(alloc, said.id, None)?,
        spans: spans_of(alloc, heading, &said, unit)?,
        children: Vec::new(alloc),
        homes: Vec::new(alloc),
        shows_gone: false,
    })
}

/// The note that a line is.
fn note_of(alloc: Global, heading: &Heading<'_>, unit: Unit) -> Result<Child, AllocError>
    ensures value { IfOk result (λ note. remark_view note ≡ spec.remark_of unit (line_view heading.now)) }
{
    let said = said_of(heading.text);
    Ok(Child {
        spans: spans_of(alloc, heading, &said, unit)?,
        ..remark_of(alloc, said.severity, String::from_str(alloc, said.message)?)
    })
}

/// The place that a line begins with.
fn spans_of(
    alloc: Global,
    heading: &Heading<'_>,
    said: &Said<'_>,
    unit: Unit,
) -> Result<Vec<FileSpan>, AllocError>
    ensures are { IfOk result (λ spans. map place_view spans.items
        ≡ spec.places_of (line_view heading.now) (said_view said.now) unit) }
{
    let mut spans = Vec::new(alloc);
    let region = region_of(heading, said.is_from_zero, unit);
    add_place(&mut spans, file_of(alloc, heading)?, region, None, true)?;
    Ok(spans)
}

/// The file, with the drive that it is on.
fn file_of(alloc: Global, heading: &Heading<'_>) -> Result<String, AllocError>
    ensures value { IfOk result (λ file. string_bytes file
        ≡ spec.file_by (line_view heading.now).drive (line_view heading.now).file) }
{
    let file = heading.file;
    match heading.drive {
        Some(drive) => format!(in alloc; "{drive}:{file}"),
        None => String::from_str(alloc, file),
    }
}

/// The point that a line names: its line's text where it names no column, and the start of the file where it is of no
/// line.
fn region_of(heading: &Heading<'_>, is_from_zero: bool, unit: Unit) -> Region
    ensures value { result ≡ spec.region_at (line_view heading.now) is_from_zero unit }
{
    if heading.line == 0 {
        return START;
    }
    let column = column_of(heading.column, is_from_zero);
    Region::Lines(LineRegion {
        start_line: heading.line,
        start_column: column,
        end_line: heading.line,
        end_column: column,
        unit,
    })
}

/// The column as it is counted from 1.
fn column_of(column: Option<usize>, is_from_zero: bool) -> Option<usize>
    ensures value { result ≡ spec.column_of column is_from_zero }
{
    match column {
        Some(column) if is_from_zero => Some(column.saturating_add(1)),
        Some(0) => None,
        Some(column) => Some(column),
        None => None,
    }
}

/// Has the last place of a finding be this wide, if it is a point.
fn widen(finding: &mut Diagnostic, width: Option<usize>)
    ensures value { found_view finding.new ≡ spec.widen (found_view finding.old) width }
{
    let Some(width) = width else {
        return;
    };
    match finding.children.last_mut() {
        Some(note) => widen_last(&mut note.spans, width),
        None => widen_last(&mut finding.spans, width),
    }
}

/// Has the last of some places be so wide, if it is a point.
fn widen_last(spans: &mut Vec<FileSpan>, width: usize)
    ensures value { map place_view spans.new.items ≡ spec.widen_last (map place_view spans.old.items) width }
{
    if let Some(span) = spans.last_mut() {
        span.region = widened(span.region, width);
    }
}

/// A point with this width; any other region as it is. A point is one column as it stands, be it after its line's end.
fn widened(region: Region, width: usize) -> Region
    ensures value { result ≡ spec.widened region width }
{
    match region {
        Region::Lines(lines) if width > 1 && lines.start_column == lines.end_column => {
            let end_column = match lines.start_column {
                Some(column) => Some(column.saturating_add(width)),
                None => None,
            };
            Region::Lines(LineRegion {
                end_column,
                ..lines
            })
        }
        region => region,
    }
}
