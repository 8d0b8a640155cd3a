//! The edits that a child of a diagnostic of rustc suggests.

ghost use Rattle.std.specs.Prelude.{◌≡◌, ◌≢◌, ◌+◌, ◌++◌, [], ◌∷◌, Option, IfOk, IsTrue, OnOk, false};
ghost use Rattle.std.specs.Prelude.{length, map, true};
ghost use Rattle.std.specs.Str.{chars};
ghost use Rattle.std.specs.List.{All, filter_map, flat_map};
ghost use Rattle.json_lines.specs.Field.{lent_text};
ghost use Rattle.redraw_read.specs.Edits as spec;
ghost use Rattle.redraw_read.specs.Edits.{AreBlanksBefore, AreEditsIn, AreEditsOf, IsEditOf, MayEdit, line_with};
ghost use Rattle.redraw_report.specs.declared.diagnostic.SuggestedEdit.{SuggestedEdit};
ghost use Rattle.serde_json.specs.View.{view};

use crate::json::{given_text, listed, owned};
use crate::offers::is_attribute;
use crate::spans::{carried_of, is_first, region_of};
use crate::taken::{LinePlace, TakenParts};
use json_lines::expectation::Expectation;
use json_lines::fault::Fault;
use json_lines::node::Node;
use redraw_report::diagnostic::{LineRegion, Region, SuggestedEdit};
use serde_json::Value;
use std::alloc::{AllocError, Global};

/// The edits of a child: those of its places that have a text to stand there.
pub fn edits_of(node: &Node<'_, '_>) -> Result<Vec<SuggestedEdit>, Fault>
    ensures are { IfOk result (λ edits. AreEditsOf (view node.now.value.now) edits.items) }
{
    let list = node.needed("spans", Expectation::List)?;
    let values = listed(node, "spans")?;
    let edits = edits_in(&list, values)?;
    Ok(edits)
}

/// The edits of the places in a list of these values.
fn edits_in<'v>(list: &Node<'v, '_>, values: &'v [Value]) -> Result<Vec<SuggestedEdit>, Fault>
    ensures are { IfOk result (λ edits. AreEditsIn (map view values.now) edits.items) }
{
    let mut edits = Vec::new(list.alloc);
    for (index, value) in values.iter().enumerate() {
        add_edit(&list.item(index, value), &mut edits)?;
    }
    Ok(edits)
}

/// Adds the edit of a place, if a text is to stand there.
fn add_edit(place: &Node<'_, '_>, edits: &mut Vec<SuggestedEdit>) -> Result<(), Fault>
    ensures added { OnOk result ((found : Option SuggestedEdit) × MayEdit (view place.now.value.now) found
        × (edits.new.items ≡ edits.old.items ++ filter_map (λ e. e) (found ∷ []))) }
{
    let said = given_text(place, "suggested_replacement")?;
    match said {
        Some(replacement) => {
            edits.push(edit_of(place, replacement)?)?;
            Ok(())
        }
        None => Ok(()),
    }
}

/// An edit: a place, and what is to stand there. An attribute above a line is to stand as far right as the line: so it
/// is put in at the line's start, after what is blank there.
fn edit_of(node: &Node<'_, '_>, replacement: &str) -> Result<SuggestedEdit, Fault>
    ensures is { IfOk result (IsEditOf (view node.now.value.now) replacement.now) }
{
    let whole = region_of(node)?;
    let file = node.text("file_name")?;
    let carried = carried_of(node, whole)?;
    let region = part_for(node.value, whole, replacement);
    let blank = blank_before(node.value, region, replacement);
    let replacement = format!(in node.alloc; "{blank}{replacement}")?;
    Ok(SuggestedEdit {
        file: owned(node.alloc, file)?,
        region: Region::Lines(moved_back(region, blank)),
        replacement,
        carried,
    })
}

/// The part of a file that an edit of this region changes, which has this text stand there.
fn part_for(span: &Value, whole: LineRegion, replacement: &str) -> LineRegion
    ensures value { result ≡ spec.part_for (view span.now) whole replacement.now }
{
    if replacement.is_empty() {
        taken_away(span, whole)
    } else {
        whole
    }
}

/// The region of lines that go whole, to before the end of the last: rustc's text has that end stay. Another region is
/// given back, and one whose lines aren't there.
fn taken_away(span: &Value, region: LineRegion) -> LineRegion
    ensures value { result ≡ spec.taken_away (view span.now) region }
{
    if !is_first(region.start_column) || !is_first(region.end_column) {
        return region;
    }
    let last = region.end_line.saturating_sub(1);
    to_line_end(
        region,
        line_of(span, last.saturating_sub(region.start_line)),
    )
}

/// Lines that go whole, to before the end of the last, if that is there.
fn to_line_end(region: LineRegion, line: Option<&str>) -> LineRegion
    ensures value { result ≡ spec.to_line_end region (lent_text line.entry) }
{
    let end_line = region.end_line.saturating_sub(1);
    match line {
        Some(line) if region.start_line <= end_line => LineRegion {
            end_line,
            end_column: Some(end_column(line)),
            ..region
        },
        _ => region,
    }
}

/// The column at which a line ends.
fn end_column(line: &str) -> usize
    ensures value { result ≡ length (chars line.now) + 1 }
{
    line.chars().count() + 1
}

/// The line with this index, from 0, of those that a place has with it.
fn line_of(span: &Value, index: usize) -> Option<&str>
    ensures value { lent_text result ≡ line_with index (view span.now) }
{
    let line = span.get("text")?.get(index)?;
    line.get("text")?.as_str()
}

/// What stands before the place of an attribute that is put in there, if that is blank.
fn blank_before<'v>(span: &'v Value, region: LineRegion, replacement: &str) -> &'v str
    ensures stand { AreBlanksBefore region replacement.now result.now }
{
    if !is_point(region) || !is_attribute(replacement) {
        return "";
    }
    match text_before(span, region) {
        Some(blank) if blank.trim().is_empty() => blank,
        _ => "",
    }
}

/// Whether a region has no length.
fn is_point(region: LineRegion) -> bool
    ensures is { IsTrue result
        → (region.start_line ≡ region.end_line) × (region.start_column ≡ region.end_column) }
{
    match (region.start_column, region.end_column) {
        (Some(start), Some(end)) => region.start_line == region.end_line && start == end,
        _ => false,
    }
}

/// A place after these blanks, at its line's start; the place itself where there are none.
fn moved_back(region: LineRegion, blank: &str) -> LineRegion
    ensures value { result ≡ spec.moved_back region blank.now }
{
    if blank.is_empty() {
        return region;
    }
    LineRegion {
        start_column: Some(1),
        end_column: Some(1),
        ..region
    }
}

/// What stands before a place in the first of the lines that it has with it.
fn text_before(span: &Value, region: LineRegion) -> Option<&str> {
    let before = region.start_column?.checked_sub(1)?;
    line_of(span, 0)?.get(..before)
}

/// Edits as the alternatives that they are. rustc writes these one after another, and none of them has edits that
/// overlap: so one begins with an edit that overlaps with one of the edits before. Two that are put in at one place
/// are two alternatives, unless what meets is joined: then one begins with an edit that doesn't come after the last.
pub fn alternatives_of(
    alloc: Global,
    edits: Vec<SuggestedEdit>,
    joins: bool,
) -> Result<Vec<Vec<SuggestedEdit>>, AllocError>
    ensures all { IfOk result (λ alternatives. flat_map (λ each. each.items) alternatives.items ≡ edits.items) }
    ensures some { IfOk result (λ alternatives. All (λ each. each.items ≢ []) alternatives.items) }
{
    let mut alternatives = Vec::new(alloc);
    let mut current: Vec<SuggestedEdit> = Vec::new(alloc);
    let mut taken = TakenParts::new(alloc);
    for edit in edits {
        let begins = begins_another(&edit, &current, &taken, joins);
        take_part(alloc, &mut taken, begins, edit.region)?;
        if begins {
            alternatives.push(current)?;
            current = Vec::new(alloc);
        }
        current.push(edit)?;
    }
    if !current.is_empty() {
        alternatives.push(current)?;
    }
    Ok(alternatives)
}

/// Whether an alternative begins with an edit after these, which change these parts of one file: where it overlaps with
/// one of them, or where all that meet are joined, if it doesn't come after the last.
fn begins_another(
    edit: &SuggestedEdit,
    others: &[SuggestedEdit],
    taken: &TakenParts,
    joins: bool,
) -> bool
    ensures none { others.now ≡ [] → result ≡ false }
{
    if joins {
        !comes_after(edit, others)
    } else {
        overlaps_one(edit, others, taken)
    }
}

/// Whether an edit starts in their file where the last of others ends, or after it; or there are no others.
fn comes_after(edit: &SuggestedEdit, others: &[SuggestedEdit]) -> bool
    ensures none { others.now ≡ [] → result ≡ true }
{
    match others.last() {
        Some(last) => follows(edit, last),
        None => true,
    }
}

/// Whether an edit starts in the same file where another one ends, or after it.
fn follows(edit: &SuggestedEdit, last: &SuggestedEdit) -> bool {
    let (Region::Lines(lines), Region::Lines(before)) = (edit.region, last.region) else {
        return false;
    };
    edit.file == last.file && end_of(before) <= start_of(lines)
}

/// Whether an edit overlaps with one of these, which change these parts of one file.
fn overlaps_one(edit: &SuggestedEdit, others: &[SuggestedEdit], taken: &TakenParts) -> bool
    ensures none { others.now ≡ [] → result ≡ false }
{
    match others.first() {
        Some(first) => !is_apart(edit, first, taken),
        None => false,
    }
}

/// Whether an edit can be made together with others, of which this is the first: they are of one file, and each ends
/// where the other starts, or before it.
fn is_apart(edit: &SuggestedEdit, first: &SuggestedEdit, taken: &TakenParts) -> bool {
    let (Region::Lines(_), Region::Lines(lines)) = (first.region, edit.region) else {
        return false;
    };
    first.file == edit.file && !taken.meets(start_of(lines), end_of(lines))
}

/// Adds the part that a region is, to none if an alternative begins with it.
fn take_part(
    alloc: Global,
    taken: &mut TakenParts,
    begins: bool,
    region: Region,
) -> Result<(), AllocError> {
    if begins {
        *taken = TakenParts::new(alloc);
    }
    if let Region::Lines(lines) = region {
        taken.add(start_of(lines), end_of(lines))?;
    }
    Ok(())
}

/// The line and column where a region starts.
fn start_of(region: LineRegion) -> LinePlace {
    (region.start_line, region.start_column)
}

/// The line and column where a region ends.
fn end_of(region: LineRegion) -> LinePlace {
    (region.end_line, region.end_column)
}
