//! The places that a result names.
ghost use Rattle.std.specs.Prelude.{◌≡◌, ◌++◌, ◌∷◌, [], IfOk, OnOk, codes, false, map, option_map};
ghost use Rattle.std.specs.Prelude.{string_bytes};
ghost use Rattle.std.specs.List.{filter_map, flat_map};
ghost use Rattle.serde_json.specs.View.{view};
ghost use Rattle.json_lines.specs.Lenient.{object_at};
ghost use Rattle.redraw_tools.specs.Message.{MaySay};
ghost use Rattle.redraw_tools.specs.Places as spec;
ghost use Rattle.redraw_tools.specs.Places.{Adds, IsMarkedIf, annotation_in, annotations_of, part_of, place_in, placed};
ghost use Rattle.redraw_tools.specs.Places.{span_view};
ghost use Rattle.redraw_tools.specs.Rule.{part_data, rule_data};

use crate::message::part_text_in;
use crate::parts::START;
use crate::region::{carried_of, region_of};
use crate::rule::SarifRule;
use crate::uri::path_in;
use json_lines::lenient::{LenientNode, List, Problems};
use redraw_report::diagnostic::{FileSpan, Region, Unit};
use serde_json::Value;
use std::alloc::{AllocError, Global};
use std::cell::Cell;

/// What the parts of a result refer to.
#[derive(Clone, Copy)]
pub struct Context<'v, 'r> {
    pub alloc: Global,
    pub run: &'v Value,
    pub rule: SarifRule<'v>,
    /// What columns count.
    pub unit: Unit,
    /// How many more bytes the messages of a result's parts may have that aren't texts of their own.
    pub room: &'r Cell<usize>,
}

/// Adds the places of a list of locations. One without a file is left out.
pub fn add_spans(
    spans: &mut Vec<FileSpan>,
    locations: &List<'_, '_>,
    context: &Context<'_, '_>,
    is_primary: bool,
    problems: &mut Problems,
) -> Result<(), AllocError>
    ensures added { OnOk result (Adds (part_data context.now.rule) (rule_data context.now.rule)
        (filter_map (place_in (view context.now.run.now) context.now.unit is_primary)
        (map view locations.now.items.now)) spans.old.items spans.new.items) }
{
    for (index, value) in locations.items.iter().enumerate() {
        let span = span_of(&locations.node(index, value), context, is_primary, problems)?;
        add_span(spans, span)?;
    }
    Ok(())
}

/// Adds a place, if there is one.
fn add_span(spans: &mut Vec<FileSpan>, span: Option<FileSpan>) -> Result<(), AllocError>
    ensures added { OnOk result (spans.new.items ≡ spans.old.items ++ filter_map (λ o. o) (span ∷ [])) }
{
    if let Some(span) = span {
        spans.push(span)?;
    }
    Ok(())
}

/// The place of a location, with its message as label.
fn span_of(
    location: &LenientNode<'_, '_>,
    context: &Context<'_, '_>,
    is_primary: bool,
    problems: &mut Problems,
) -> Result<Option<FileSpan>, AllocError>
    ensures is { IfOk result (IsMarkedIf (part_data context.now.rule) (rule_data context.now.rule)
        (place_in (view context.now.run.now) context.now.unit is_primary (view location.now.value.now))) }
{
    if !location.is_object(problems) {
        return Ok(None);
    }
    let Some(place) = place_at(location, context, problems)? else {
        return Ok(None);
    };
    let label = message_at(location, context, problems)?;
    Ok(Some(FileSpan {
        label,
        is_primary,
        ..place
    }))
}

/// Adds what some locations have beside their regions: parts of the same files that help to see these, with messages.
pub fn add_annotations(
    spans: &mut Vec<FileSpan>,
    locations: &List<'_, '_>,
    context: &Context<'_, '_>,
    problems: &mut Problems,
) -> Result<(), AllocError>
    ensures added { OnOk result (Adds (part_data context.now.rule) (rule_data context.now.rule)
        (flat_map (annotations_of (view context.now.run.now) context.now.unit)
        (map view locations.now.items.now)) spans.old.items spans.new.items) }
{
    for (index, value) in locations.items.iter().enumerate() {
        add_annotations_at(spans, &locations.node(index, value), context, problems)?;
    }
    Ok(())
}

/// Adds what a location has beside its region.
fn add_annotations_at(
    spans: &mut Vec<FileSpan>,
    location: &LenientNode<'_, '_>,
    context: &Context<'_, '_>,
    problems: &mut Problems,
) -> Result<(), AllocError>
    ensures added { OnOk result (Adds (part_data context.now.rule) (rule_data context.now.rule)
        (annotations_of (view context.now.run.now) context.now.unit (view location.now.value.now))
        spans.old.items spans.new.items) }
{
    let annotations = location.list("annotations", problems);
    for (index, value) in annotations.items.iter().enumerate() {
        let region = annotations.node(index, value);
        let span = annotation_of(location, &region, context, problems)?;
        add_span(spans, span)?;
    }
    Ok(())
}

/// The place of an annotation of a location, with its message as label; `None` where the location has no file, or the
/// annotation names no part of it.
fn annotation_of(
    location: &LenientNode<'_, '_>,
    region: &LenientNode<'_, '_>,
    context: &Context<'_, '_>,
    problems: &mut Problems,
) -> Result<Option<FileSpan>, AllocError>
    ensures is { IfOk result (IsMarkedIf (part_data context.now.rule) (rule_data context.now.rule)
        (annotation_in (view context.now.run.now) context.now.unit (view location.now.value.now)
        (view region.now.value.now))) }
{
    let Some(place) = place_at(location, context, problems)? else {
        return Ok(None);
    };
    let Some(part) = region_of(region, context.unit, problems) else {
        return Ok(None);
    };
    let label = message_at(region, context, problems)?;
    Ok(Some(FileSpan {
        region: part,
        label,
        ..place
    }))
}

/// The message of a location.
pub fn message_at(
    location: &LenientNode<'_, '_>,
    context: &Context<'_, '_>,
    problems: &mut Problems,
) -> Result<Option<String>, AllocError>
    ensures says { IfOk result (λ found. MaySay (part_data context.now.rule) (rule_data context.now.rule)
        (object_at (codes "message") (view location.now.value.now)) (option_map string_bytes found)) }
{
    part_text_in(location, "message", context, problems)
}

/// The place of a location, as one of context of which nothing is said; `None` where it has no file.
pub fn place_at(
    location: &LenientNode<'_, '_>,
    context: &Context<'_, '_>,
    problems: &mut Problems,
) -> Result<Option<FileSpan>, AllocError>
    ensures value { IfOk result (λ span. option_map span_view span
        ≡ placed (view context.now.run.now) context.now.unit (view location.now.value.now)) }
{
    let Some(physical) = location.object("physicalLocation", problems) else {
        return Ok(None);
    };
    match path_in(context.alloc, &physical, context.run, problems)? {
        Some(file) => Ok(Some(place_in(file, &physical, context, problems)?)),
        None => Ok(None),
    }
}

/// The place of a location in this file, as one of context of which nothing is said.
fn place_in(
    file: String,
    physical: &LenientNode<'_, '_>,
    context: &Context<'_, '_>,
    problems: &mut Problems,
) -> Result<FileSpan, AllocError>
    ensures value { IfOk result (λ span. span_view span
        ≡ spec.marked (string_bytes file) (part_of context.now.unit (view physical.now.value.now))) }
{
    let region = physical.object("region", problems);
    let around = physical.object("contextRegion", problems);
    Ok(FileSpan {
        file,
        region: region_or_start(&region, context.unit, problems),
        label: None,
        is_primary: false,
        carried: carried_of(context.alloc, &around, &region, context.unit, problems)?,
    })
}

/// The region of a location; the start of its file where it has none, or a wrong one.
fn region_or_start(
    region: &Option<LenientNode<'_, '_>>,
    unit: Unit,
    problems: &mut Problems,
) -> Region
    ensures value { result ≡ spec.part_in unit (option_map (λ d. view d.value.now) region.now) }
{
    match region {
        Some(region) => region_of(region, unit, problems).unwrap_or(START),
        None => START,
    }
}
