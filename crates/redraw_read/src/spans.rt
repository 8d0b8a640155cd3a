//! The places of a diagnostic of rustc, or of one of its children.

ghost use Rattle.std.specs.Prelude.{◌≡◌, ◌++◌, ℕ, List, [], ◌∷◌, Some, IfOk, OnOk, All, map};
ghost use Rattle.std.specs.Prelude.{◌⊎◌, ◌<◌, option_map, string_bytes};
ghost use Rattle.std.specs.List.{AllZip, filter};
ghost use Rattle.json_lines.specs.Field.{lent_text, number_field};
ghost use Rattle.redraw_read.specs.Places.{AreOrdered, ArePlacesIn, ArePlacesOf, Carries, HasLines};
ghost use Rattle.redraw_read.specs.Places.{IsCallBeside, IsPlaceOf, SaysLine, is_place, joined};
ghost use Rattle.redraw_read.specs.Places as spec;
ghost use Rattle.redraw_read.specs.Spans.{SaysPlace, IsRegionOf, IsSpanIn};
ghost use Rattle.serde_json.specs.View.{view};
ghost use Rattle.redraw_read.specs.Told.{said_label};
ghost use Rattle.redraw_report.specs.declared.diagnostic.FileSpan.{FileSpan};

use crate::calls::{ToldCalls, add_call};
use crate::expansion::shown_place;
use crate::json::{given, given_text, listed, owned, values_of};
use crate::named_files::NamedFiles;
use crate::order::settle_order;
use crate::roles::settle_roles;
use crate::unsaid::drop_unsaid;
use json_lines::expectation::Expectation;
use json_lines::fault::Fault;
use json_lines::node::Node;
use redraw_report::diagnostic::{Carried, FileSpan, LineRegion, Region, Unit};
use serde_json::Value;
use std::alloc::{AllocError, Global};

/// The places of a diagnostic, and the calls of macros that are shown beside them; by the files that its text names,
/// where these are given; and with those at the start of a file that have a label, where these count.
pub fn spans_of(
    node: &Node<'_, '_>,
    named: &Option<NamedFiles>,
    keeps_starts: bool,
) -> Result<Vec<FileSpan>, Fault>
    ensures are { IfOk result (λ spans.
        ArePlacesOf named.now keeps_starts (view node.now.value.now) spans.items) }
{
    let list = node.needed("spans", Expectation::List)?;
    let values = listed(node, "spans")?;
    let mut own = each_span(&list, values, named, keeps_starts)?;
    add_calls(&list, values, named, &mut own)?;
    let settled = settle_roles(node.alloc, own)?;
    let ordered = in_order(node.alloc, settled)?;
    Ok(drop_unsaid(node.alloc, ordered)?)
}

/// These places in the order in which they are shown.
fn in_order(alloc: Global, mut spans: Vec<FileSpan>) -> Result<Vec<FileSpan>, AllocError>
    ensures is { IfOk result (λ ordered. AreOrdered spans.items ordered.items) }
{
    settle_order(alloc, &mut spans)?;
    Ok(spans)
}

/// Adds the calls of macros that are shown beside the places in a list of these values.
fn add_calls<'v>(
    list: &Node<'v, '_>,
    values: &'v [Value],
    named: &Option<NamedFiles>,
    spans: &mut Vec<FileSpan>,
) -> Result<(), Fault>
    ensures added { OnOk result ((calls : List FileSpan) × All (IsCallBeside (map view values.now)) calls
        × (spans.new.items ≡ spans.old.items ++ calls)) }
{
    let mut told = ToldCalls::new(list.alloc, spans)?;
    for (index, value) in values.iter().enumerate() {
        add_call(&list.item(index, value), named, &mut told, spans)?;
    }
    Ok(())
}

/// The places in a list of these values.
fn each_span<'v>(
    list: &Node<'v, '_>,
    values: &'v [Value],
    named: &Option<NamedFiles>,
    keeps_starts: bool,
) -> Result<Vec<FileSpan>, Fault>
    ensures are { IfOk result (λ spans. ArePlacesIn named.now keeps_starts (map view values.now) spans.items) }
{
    let mut spans = Vec::new(list.alloc);
    for (index, value) in values.iter().enumerate() {
        add_span(
            span_of(&list.item(index, value), named)?,
            keeps_starts,
            &mut spans,
        )?;
    }
    Ok(spans)
}

/// Adds a place, if it is one: what is of no file is said to be at the start of one, where no text is. With a label it
/// may be one all the same.
fn add_span(span: FileSpan, keeps_starts: bool, spans: &mut Vec<FileSpan>) -> Result<(), AllocError>
    ensures added { OnOk result
        (spans.new.items ≡ spans.old.items ++ filter (is_place keeps_starts) (span ∷ [])) }
{
    let is_kept = keeps_starts && span.label.is_some();
    if is_kept || span.carried.is_some() || !is_start(span.region) {
        spans.push(span)?;
    }
    Ok(())
}

/// Whether a region is the start of a file and has no length.
fn is_start(region: Region) -> bool
    ensures value { result ≡ spec.is_start region }
{
    match region {
        Region::Lines(lines) => {
            let are_first = is_first(lines.start_column) && is_first(lines.end_column);
            lines.start_line == lines.end_line && lines.start_line <= 1 && are_first
        }
        _ => false,
    }
}

/// Whether a column is the first.
pub fn is_first(column: Option<usize>) -> bool
    ensures value { result ≡ spec.is_first column }
{
    match column {
        Some(column) => column == 1,
        None => false,
    }
}

/// A place. One in the source of a macro that isn't at hand, or that the text doesn't name, is shown where the macro is
/// called.
fn span_of(node: &Node<'_, '_>, named: &Option<NamedFiles>) -> Result<FileSpan, Fault>
    ensures is { IfOk result (IsPlaceOf named.now (view node.now.value.now)) }
{
    let label = given_text(node, "label")?;
    let is_primary = node.flag("is_primary")?;
    let place = at_value(node, shown_place(node.value, named));
    let span = labelled(&place, label, is_primary)?;
    Ok(span)
}

/// A place of which this is said.
fn labelled(place: &Node<'_, '_>, label: Option<&str>, is_primary: bool) -> Result<FileSpan, Fault>
    ensures place { IfOk result (SaysPlace (view place.now.value.now)) }
    ensures lines { IfOk result (λ span. HasLines span.region (view place.now.value.now) span.carried) }
    ensures label { IfOk result (λ span. option_map string_bytes span.label ≡ said_label (lent_text label.entry)) }
    ensures primary { IfOk result (λ span. span.is_primary ≡ is_primary) }
{
    let file = place.text("file_name")?;
    let region = region_of(place)?;
    file_span(place, file, region, label, is_primary)
}

/// A place in this file and region, with the lines that it has with it.
pub fn file_span(
    place: &Node<'_, '_>,
    file: &str,
    region: LineRegion,
    label: Option<&str>,
    is_primary: bool,
) -> Result<FileSpan, Fault>
    ensures is { IfOk result (IsSpanIn file.now region (lent_text label.entry) is_primary) }
    ensures lines { IfOk result (λ span. Carries region (view place.now.value.now) span.carried) }
{
    let carried = carried_of(place, region)?;
    let label = owned_label(place.alloc, label)?;
    Ok(FileSpan {
        file: owned(place.alloc, file)?,
        region: Region::Lines(region),
        label,
        is_primary,
        carried,
    })
}

/// A copy of a label, where there is one that says something.
fn owned_label(alloc: Global, label: Option<&str>) -> Result<Option<String>, AllocError>
    ensures value { IfOk result (λ copy. option_map string_bytes copy ≡ said_label (lent_text label.entry)) }
{
    match label {
        Some(label) if !label.is_empty() => Ok(Some(owned(alloc, label)?)),
        _ => Ok(None),
    }
}

/// The lines and columns of a place.
pub fn region_of(node: &Node<'_, '_>) -> Result<LineRegion, Fault>
    ensures value { IfOk result (IsRegionOf (view node.now.value.now)) }
{
    let (start_line, start_column) = numbers_of(node, "line_start", "column_start")?;
    let (end_line, end_column) = numbers_of(node, "line_end", "column_end")?;
    Ok(LineRegion {
        start_line,
        start_column: Some(start_column),
        end_line,
        end_column: Some(end_column),
        unit: Unit::CodePoints,
    })
}

/// The line and the column in the fields of these names.
fn numbers_of(node: &Node<'_, '_>, line: &str, column: &str) -> Result<(usize, usize), Fault>
    ensures line { IfOk result (λ numbers. number_field line.now (view node.now.value.now) ≡ Some numbers.0) }
    ensures column { IfOk result (λ numbers. number_field column.now (view node.now.value.now) ≡ Some numbers.1) }
{
    let line = node.number(line)?;
    let column = node.number(column)?;
    Ok((line, column))
}

/// The lines that a place in this region has with it, where it has some.
pub fn carried_of(node: &Node<'_, '_>, region: LineRegion) -> Result<Option<Carried>, Fault>
    ensures are { IfOk result (Carries region (view node.now.value.now)) }
{
    match given(node, "text") {
        Some(field) => carried_in(&field, region),
        None => Ok(None),
    }
}

/// The lines that a list has of a place in this region, if it holds some.
fn carried_in(list: &Node<'_, '_>, region: LineRegion) -> Result<Option<Carried>, Fault>
    ensures are { IfOk result (spec.CarriesIn region (Some (view list.now.value.now))) }
{
    let lines = values_of(list)?;
    let carried = carried_lines(list, lines, region)?;
    Ok(carried)
}

/// The lines that these values of a list say of a place in this region, if there are some.
fn carried_lines<'v>(
    list: &Node<'v, '_>,
    lines: &'v [Value],
    region: LineRegion,
) -> Result<Option<Carried>, Fault>
    ensures are { IfOk result (spec.CarriesItems region (map view lines.now)) }
{
    if lines.is_empty() {
        return Ok(None);
    }
    let text = ended(text_of_lines(list, lines)?, region)?;
    Ok(Some(Carried {
        first_line: region.start_line,
        text,
        is_whole: true,
    }))
}

/// The text of lines, with a line feed where the region shows that one ends the last of them.
fn ended(mut text: String, region: LineRegion) -> Result<String, AllocError>
    ensures is { IfOk result (λ ended. (string_bytes ended ≡ string_bytes text)
        ⊎ (string_bytes ended ≡ string_bytes text ++ 10 ∷ [])) }
{
    if ends_file(text.as_str(), region) {
        text.push('\n')?;
        return Ok(text);
    }
    Ok(text)
}

/// Whether a region ends one column after the line feed of the last of these lines: then that is the last of its file.
fn ends_file(text: &str, region: LineRegion) -> bool {
    let last = match text.rsplit_once('\n') {
        Some((_, last)) => last,
        None => text,
    };
    region.end_column == last.chars().count().checked_add(2)
}

/// The lines of this list, with line feeds between them.
fn text_of_lines<'v>(list: &Node<'v, '_>, lines: &'v [Value]) -> Result<String, Fault>
    ensures are { IfOk result (λ text. (said : List (List ℕ)) × AllZip SaysLine (map view lines.now) said
        × (string_bytes text ≡ joined said)) }
{
    let mut text = String::new(list.alloc);
    for (index, value) in lines.iter().enumerate() {
        let line = list.item(index, value).text("text")?;
        add_line(&mut text, index, line)?;
    }
    Ok(text)
}

/// Adds the line with this index to those before it: after a line feed, but for the first.
fn add_line(text: &mut String, index: usize, line: &str) -> Result<(), AllocError>
    ensures first { index ≡ 0 → OnOk result (string_bytes text.new ≡ string_bytes text.old ++ line.now) }
    ensures further { 0 < index → OnOk result (string_bytes text.new ≡ string_bytes text.old ++ 10 ∷ line.now) }
{
    if index > 0 {
        text.push('\n')?;
    }
    text.push_str(line)
}

/// This value, where a node stands.
pub fn at_value<'v, 'p>(node: &Node<'_, 'p>, value: &'v Value) -> Node<'v, 'p>
    ensures value { result.value.now ≡ value.now }
{
    Node {
        alloc: node.alloc,
        value,
        place: node.place,
    }
}
