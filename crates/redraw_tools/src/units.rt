//! What the columns of a run count, and those of a region where its run doesn't say it.
ghost use Rattle.std.specs.Prelude.{◌≡◌, ◌<◌, ◌≤◌, map, option_and_then};
ghost use Rattle.serde_json.specs.View.{view};
ghost use Rattle.json_lines.specs.Field.{as_whole, lent_text};
ghost use Rattle.json_lines.specs.Lenient.{but_zero, from_one};
ghost use Rattle.redraw_tools.specs.Units as spec;

use crate::expectation::SarifExpectation;
use json_lines::lenient::{LenientNode, Problems, field_at, items_of, text_at};
use redraw_report::diagnostic::{LineRegion, Unit};
use redraw_report::locate::place_from;
use redraw_report::text_lines::first_line;
use serde_json::Value;

/// What the columns of a run count: what is asked for, else what its tool is known to count, else what it says.
pub fn run_unit(asked: Option<Unit>, run: &LenientNode<'_, '_>, problems: &mut Problems) -> Unit
    ensures value { result ≡ spec.run_unit asked (view run.now.value.now) }
{
    let said = said_unit(run, problems);
    let known = known_unit(driver_name(run.value));
    asked.or(known).or(said).unwrap_or(Unit::Unsaid)
}

/// The name of the tool that wrote a run.
fn driver_name(run: &Value) -> Option<&str>
    ensures value { lent_text result ≡ spec.driver_name (view run.now) }
{
    text_at(field_at(run.get("tool"), "driver"), "name")
}

/// What the tool of this name counts, if that is known.
fn known_unit(name: Option<&str>) -> Option<Unit>
    ensures value { result ≡ spec.known_unit (lent_text name.entry) }
{
    match name {
        Some(name) => unit_of_tool(name),
        None => None,
    }
}

/// What the tool of this name counts, whatever the case of its letters, if that is known.
fn unit_of_tool(name: &str) -> Option<Unit>
    ensures value { result ≡ spec.unit_of_tool name.now }
{
    if begins_as_gnu(name) {
        Some(Unit::Display)
    } else if is_named(name, "ruff") || is_named(name, "Flawfinder") {
        Some(Unit::CodePoints)
    } else if counts_bytes(name) {
        Some(Unit::Bytes)
    } else {
        None
    }
}

/// Whether the tool of this name counts bytes.
fn counts_bytes(name: &str) -> bool
    ensures value { result ≡ spec.counts_bytes name.now }
{
    is_named(name, "Cppcheck") || is_named(name, "Staticcheck") || is_named(name, "Bandit")
}

/// Whether a name begins as those of GCC's parts do.
fn begins_as_gnu(name: &str) -> bool
    ensures value { result ≡ spec.begins_as_gnu name.now }
{
    match name.as_bytes() {
        [g, n, u, b' ', ..] => is_letter(*g, b'g') && is_letter(*n, b'n') && is_letter(*u, b'u'),
        _ => false,
    }
}

/// Whether a byte is this letter, small or capital.
fn is_letter(byte: u8, letter: u8) -> bool
    ensures value { result ≡ spec.is_letter byte letter }
{
    byte.to_ascii_lowercase() == letter
}

/// Whether a name is this one, whatever the case of letters.
fn is_named(name: &str, known: &str) -> bool
    ensures value { result ≡ spec.is_named name.now known.now }
{
    name.eq_ignore_ascii_case(known)
}

/// What the columns of a run count as it says itself.
fn said_unit(run: &LenientNode<'_, '_>, problems: &mut Problems) -> Option<Unit>
    ensures value { result ≡ spec.said_unit (view run.now.value.now) }
{
    let kind = run.text("columnKind", problems)?;
    let unit = unit_by_kind(kind);
    if unit.is_none() {
        run.tell_field("columnKind", problems, SarifExpectation::ColumnKind);
    }
    unit
}

/// What columns of this kind count.
fn unit_by_kind(kind: &str) -> Option<Unit>
    ensures value { result ≡ spec.unit_by_kind kind.now }
{
    match kind {
        "unicodeCodePoints" => Some(Unit::CodePoints),
        "utf16CodeUnits" => Some(Unit::Utf16),
        _ => None,
    }
}

/// What offsets of characters count in a run: units of UTF-16 where its columns count these, or nothing is said; else
/// characters.
pub fn offset_unit(unit: Unit) -> Unit
    ensures value { result ≡ spec.offset_unit unit }
{
    match unit {
        Unit::Utf16 | Unit::Unsaid => Unit::Utf16,
        _ => Unit::CodePoints,
    }
}

/// What the columns of a result count: what those of its run do, else what they count by the snippet of the first of
/// its own places that says it.
pub fn result_unit(unit: Unit, reported: &Value) -> Unit
    ensures value { result ≡ spec.result_unit unit (view reported.now) }
{
    match unit {
        Unit::Unsaid => unit_by_places(items_of(reported.get("locations"))),
        unit => unit,
    }
}

/// What columns count by the snippet of the first of some places that says it.
fn unit_by_places(locations: &[Value]) -> Unit
    ensures value { result ≡ spec.unit_by_places (map view locations.now) }
{
    for location in locations {
        match unit_by_place(location) {
            Unit::Unsaid => {}
            unit => return unit,
        }
    }
    Unit::Unsaid
}

/// What columns count by the snippet of a place.
fn unit_by_place(location: &Value) -> Unit
    ensures value { result ≡ spec.unit_by_place (view location.now) }
{
    match field_at(location.get("physicalLocation"), "region") {
        Some(region) => unit_by_region(region),
        None => Unit::Unsaid,
    }
}

/// What columns count by the snippet of a region.
fn unit_by_region(region: &Value) -> Unit
    ensures value { result ≡ spec.unit_by_region (view region.now) }
{
    match place_number(region, "startLine") {
        Some(line) => region_unit(&lines_from(region, line, Unit::Unsaid), snippet_at(region)),
        None => Unit::Unsaid,
    }
}

/// The lines and columns of a region that begins on this line. Where it names no line to end with, it ends on this one.
pub fn lines_from(region: &Value, start_line: usize, unit: Unit) -> LineRegion
    ensures value { result ≡ spec.lines_from (view region.now) start_line unit }
{
    LineRegion {
        start_line,
        start_column: place_number(region, "startColumn"),
        end_line: place_number(region, "endLine").unwrap_or(start_line),
        end_column: place_number(region, "endColumn"),
        unit,
    }
}

/// The line or the column in the field of this name, counted from 1.
pub fn place_number(region: &Value, name: &str) -> Option<usize>
    ensures value { result ≡ from_one name.now (view region.now) }
{
    match region.get(name) {
        Some(value) => number_from_one(value),
        None => None,
    }
}

/// A whole number that isn't 0.
fn number_from_one(value: &Value) -> Option<usize>
    ensures value { result ≡ option_and_then but_zero (as_whole (view value.now)) }
{
    match value.as_u64() {
        Some(number) if number > 0 => Some(number as usize),
        _ => None,
    }
}

/// The text of a region's snippet, if there is one.
pub fn snippet_at(region: &Value) -> Option<&str>
    ensures value { lent_text result ≡ spec.snippet_at (view region.now) }
{
    text_at(region.get("snippet"), "text")
}

/// What the columns of a region count: what those of its run do, else the one unit by which they fit its snippet, if
/// there is just one.
pub fn region_unit(lines: &LineRegion, snippet: Option<&str>) -> Unit
    ensures value { result ≡ spec.region_unit lines.now (lent_text snippet.entry) }
{
    match (lines.unit, snippet) {
        (Unit::Unsaid, Some(snippet)) => unit_by_snippet(lines, snippet),
        (unit, _) => unit,
    }
}

/// The one unit by which a region's columns fit its snippet, if there is just one.
fn unit_by_snippet(lines: &LineRegion, snippet: &str) -> Unit
    ensures value { result ≡ spec.unit_by_snippet lines.now snippet.now }
{
    let text = first_line(snippet.as_bytes());
    let is_one_line = lines.start_line == lines.end_line;
    match (lines.start_column, lines.end_column) {
        (Some(start), Some(end)) if is_one_line && start <= end && start > 0 => only_unit(
            fits(text, start, end, Unit::Utf16),
            fits(text, start, end, Unit::CodePoints),
            fits(text, start, end, Unit::Bytes),
            fits(text, start, end, Unit::Display),
        ),
        _ => Unit::Unsaid,
    }
}

/// The one of the units that fits, if there is just one.
fn only_unit(utf16: bool, chars: bool, bytes: bool, display: bool) -> Unit
    ensures value { result ≡ spec.only_unit utf16 chars bytes display }
{
    match (utf16, chars, bytes, display) {
        (true, false, false, false) => Unit::Utf16,
        (false, true, false, false) => Unit::CodePoints,
        (false, false, true, false) => Unit::Bytes,
        (false, false, false, true) => Unit::Display,
        _ => Unit::Unsaid,
    }
}

/// Whether a text is as long as a part of a line from one column to before another: what stands before the text on its
/// line isn't there.
fn fits(text: &[u8], start: usize, end: usize, unit: Unit) -> bool
    requires ordered { start ≤ end }
    requires from_one { 0 < start }
    ensures value { result ≡ spec.fits text.now start end unit }
{
    let place = place_from(text, start - 1, end - start, unit);
    place.exact && place.byte == text.len()
}
