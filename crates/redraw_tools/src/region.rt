//! The regions of files, and what a log itself holds of them.
ghost use Rattle.std.specs.Prelude.{◌≡◌, ◌+◌, ◌<◌, ◌≤◌, ◌^◌};
ghost use Rattle.serde_json.specs.View.{view};
ghost use Rattle.json_lines.specs.Field.{lent_text};
ghost use Rattle.redraw_tools.specs.Region as spec;
ghost use Rattle.redraw_tools.specs.Units.{snippet_at};

use crate::expectation::SarifExpectation;
use crate::units::{lines_from, offset_unit, place_number, region_unit, snippet_at};
use json_lines::lenient::{LenientNode, Problems};
use redraw_report::diagnostic::{Carried, LineRegion, Region, Unit};
use redraw_report::locate::place_from;
use serde_json::Value;
use std::alloc::{AllocError, Global};

/// The part of a file that a region names. Where it says no place to begin at, that is reported, unless what it says in
/// its stead has been.
pub fn region_of(
    region: &LenientNode<'_, '_>,
    unit: Unit,
    problems: &mut Problems,
) -> Option<Region>
    ensures value { result ≡ spec.region_in (view region.now.value.now) unit }
{
    let told = problems.lines.len();
    let found = region_in(region, unit, problems);
    if found.is_none() && problems.lines.len() == told {
        region.tell(problems, SarifExpectation::RegionStart);
    }
    found
}

/// The part of a file that a region names: by lines and columns, else by characters, else by bytes.
fn region_in(region: &LenientNode<'_, '_>, unit: Unit, problems: &mut Problems) -> Option<Region>
    ensures value { result ≡ spec.region_in (view region.now.value.now) unit }
{
    if let Some(start_line) = region.from_one("startLine", problems) {
        return Some(Region::Lines(line_region(region, start_line, unit, problems)));
    }
    if let Some(start) = region.number("charOffset", problems) {
        let length = region.number("charLength", problems).unwrap_or(0);
        let end = start.saturating_add(length);
        let unit = offset_unit(unit);
        return Some(Region::Chars { start, end, unit });
    }
    if let Some(start) = region.number("byteOffset", problems) {
        let length = region.number("byteLength", problems).unwrap_or(0);
        let end = start.saturating_add(length);
        return Some(Region::Bytes { start, end });
    }
    None
}

/// The region that begins on this line. Where it names no line to end with, it ends on this one.
fn line_region(
    region: &LenientNode<'_, '_>,
    start_line: usize,
    unit: Unit,
    problems: &mut Problems,
) -> LineRegion
    ensures value { result ≡ spec.line_region (view region.now.value.now) start_line unit }
{
    let lines = LineRegion {
        start_line,
        start_column: region.from_one("startColumn", problems),
        end_line: region.from_one("endLine", problems).unwrap_or(start_line),
        end_column: region.from_one("endColumn", problems),
        unit,
    };
    LineRegion {
        unit: region_unit(&lines, snippet_at(region.value)),
        ..lines
    }
}

/// The lines that a location itself holds: those around its region, else those of the region.
pub fn carried_of(
    alloc: Global,
    around: &Option<LenientNode<'_, '_>>,
    region: &Option<LenientNode<'_, '_>>,
    unit: Unit,
    problems: &mut Problems,
) -> Result<Option<Carried>, AllocError> {
    if let Some(around) = around {
        if let Some(carried) = carried_in(alloc, around, unit, problems)? {
            return Ok(Some(carried));
        }
    }
    match region {
        Some(region) => carried_in(alloc, region, unit, problems),
        None => Ok(None),
    }
}

/// The lines that a region's snippet holds; none of a region that isn't given by its lines. Before a snippet that
/// begins within its first line, blanks stand for what comes before it.
pub fn carried_in(
    alloc: Global,
    region: &LenientNode<'_, '_>,
    unit: Unit,
    problems: &mut Problems,
) -> Result<Option<Carried>, AllocError> {
    let (Some(snippet), Some(first_line)) = (
        snippet_in(region, problems),
        place_number(region.value, "startLine"),
    ) else {
        return Ok(None);
    };
    let lines = lines_from(region.value, first_line, unit);
    let lines = LineRegion {
        unit: region_unit(&lines, Some(snippet)),
        ..lines
    };
    let before = lines.start_column.unwrap_or(1).saturating_sub(1);
    let is_whole = has_whole_lines(&lines, before, snippet);
    let blanks = if is_whole { 0 } else { before };
    Ok(Some(Carried {
        first_line,
        text: lines_of(alloc, blanks, snippet)?,
        is_whole,
    }))
}

/// The text of a region's snippet.
fn snippet_in<'v>(region: &LenientNode<'v, '_>, problems: &mut Problems) -> Option<&'v str> {
    match region.object("snippet", problems) {
        Some(snippet) => snippet.text("text", problems),
        None => None,
    }
}

/// Whether a snippet has all of the lines that its region touches: the region has no columns, or the last line is
/// longer than the region says. The snippet is to have the region's text alone, but some tools write the lines.
fn has_whole_lines(lines: &LineRegion, before: usize, snippet: &str) -> bool {
    let Some(end) = lines.end_column else {
        return before == 0;
    };
    let skipped = if lines.end_line == lines.start_line {
        before
    } else {
        0
    };
    let last = snippet.lines().last().unwrap_or("");
    let end = end.saturating_sub(1).max(skipped);
    let place = place_from(last.as_bytes(), skipped, end - skipped, lines.unit);
    place.byte < last.len()
}

/// The most blanks that are put before a snippet.
const MOST_BLANKS: usize = 1000;

/// The lines of a text, with line feeds between them, and blanks before the first.
fn lines_of(alloc: Global, blanks: usize, text: &str) -> Result<String, AllocError> {
    let mut out = blanks_of(alloc, blanks.min(MOST_BLANKS))?;
    add_lines(&mut out, text)?;
    Ok(out)
}

/// Adds the lines of a text, with line feeds between them.
fn add_lines(out: &mut String, text: &str) -> Result<(), AllocError> {
    for (index, line) in text.lines().enumerate() {
        if index > 0 {
            out.push('\n')?;
        }
        out.push_str(line)?;
    }
    Ok(())
}

/// This many blanks.
fn blanks_of(alloc: Global, count: usize) -> Result<String, AllocError> {
    let mut out = String::new(alloc);
    for _ in 0..count {
        out.push(' ')?;
    }
    Ok(out)
}
