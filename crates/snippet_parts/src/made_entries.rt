//! All entries of annotations, and the greatest depth of those that stand on several lines.
ghost use Rattle.std.specs.Prelude.{◌≡◌, ◌+◌, ◌<◌, ◌&&◌, ◌||◌, ◌++◌, [], All, map, IfOk, OnOk};
ghost use Rattle.std.specs.List.{list_any};
ghost use Rattle.std.specs.List.Sorted.{IsNonDecreasingBy};
ghost use Rattle.snippet_model.specs.AnnotationKind as kinds;
ghost use Rattle.snippet_parts.specs.Annotated as spec;
ghost use Rattle.snippet_parts.specs.Depths.{depth_among, same_place};
ghost use Rattle.snippet_parts.specs.LongSpans.{seen_long, HasFit};
ghost use Rattle.snippet_parts.specs.Located.{IsLocated, annotations_of};

use crate::depths::depths;
use crate::entries::LineAnnotation;
use crate::located::LocatedSpan;
use crate::long_spans::{LongSpan, long_spans, places, starting_on};
use crate::source_map::SourceMap;
use crate::span_entries::{push_span_entries, single_entries};
use snippet_model::snippet::AnnotationKind;
use std::alloc::{AllocError, Global};

/// How many entries a span of several lines has at most: its start, four bars and its end.
const MOST_ENTRIES: usize = 6;

/// The greatest depth of spans of several lines, and the entries of all spans: those of spans on one line as given,
/// then those of each span of several lines.
///
/// The one error is that memory ran out.
pub(crate) fn made_entries<'a>(
    alloc: Global,
    source: &SourceMap<'a>,
    located: &[LocatedSpan<'a>],
) -> Result<(usize, Vec<LineAnnotation<'a>>), AllocError>
    requires located { All (IsLocated source.now) located.now }
    ensures deepest { IfOk result (λ made. made.0 ≡ spec.deepest source.now (annotations_of located.now)) }
    ensures value { IfOk result (λ made. made.1.items
        ≡ spec.made_parts source.now (annotations_of located.now)) }
{
    let mut entries = single_entries(alloc, located)?;
    let spans = long_spans(alloc, located)?;
    let places = places(alloc, &spans)?;
    let (greatest, depths) = depths(alloc, &places)?;
    entries.reserve(spans.len().saturating_mul(MOST_ENTRIES))?;
    push_long_entries(&mut entries, source, &spans, &depths)?;
    Ok((greatest, entries))
}

/// Adds the entries of spans of several lines, which have these depths.
fn push_long_entries<'a>(
    entries: &mut Vec<LineAnnotation<'a>>,
    source: &SourceMap<'a>,
    spans: &[LongSpan<'a>],
    depths: &[usize],
) -> Result<(), AllocError>
    requires fit { All (HasFit source.now) spans.now }
    requires ordered { IsNonDecreasingBy (λ l. l.start.line) spans.now }
    requires depths { depths.now ≡ map (λ span. depth_among (map spec.long_place (map seen_long spans.now))
        (spec.long_place (seen_long span))) spans.now }
    ensures value { OnOk result (entries.new.items ≡ entries.old.items
        ++ spec.long_parts source.now (map spec.long_place (map seen_long spans.now)) [] (map seen_long spans.now)) }
{
    for i in 0..spans.len() {
        let again = stands_among(spans[i], &spans[i + 1..]);
        let span = promoted(&spans[..i], spans[i]);
        push_span_entries(entries, source, span, depths[i], again)?;
    }
    Ok(())
}

/// Whether a span has the place of one of some others, which are ordered by their first lines.
fn stands_among(span: LongSpan<'_>, others: &[LongSpan<'_>]) -> bool
    requires ordered { IsNonDecreasingBy (λ l. l.start.line) others.now }
    ensures value { result ≡ list_any (λ other. same_place (spec.long_place (seen_long span.entry))
        (spec.long_place (seen_long other))) others.now }
{
    // The others start on another line.
    is_place_of_any(span, starting_on(others, span.start.line))
}

/// Whether a span has the place of one of some others.
fn is_place_of_any(span: LongSpan<'_>, others: &[LongSpan<'_>]) -> bool
    ensures value { result ≡ list_any (λ other. same_place (spec.long_place (seen_long span.entry))
        (spec.long_place (seen_long other))) others.now }
{
    for other in others {
        if span.place() == other.place() {
            return true;
        }
    }
    false
}

/// A span as it is drawn: primary where it is, or one before it that has its place.
fn promoted<'a>(before: &[LongSpan<'a>], span: LongSpan<'a>) -> LongSpan<'a>
    requires ordered { IsNonDecreasingBy (λ l. l.start.line) before.now }
    ensures value { seen_long result ≡ spec.promoted (map seen_long before.now) (seen_long span.entry) }
    ensures start { result.start ≡ span.entry.start }
    ensures end { result.end ≡ span.entry.end }
    ensures bars { result.bars ≡ span.entry.bars }
{
    let mut promoted = span;
    if is_primary(before, span) {
        promoted.kind = AnnotationKind::Primary;
    }
    promoted
}

/// Whether a span is primary, or one of those before it that has its place, which are ordered by their first lines.
fn is_primary(before: &[LongSpan<'_>], span: LongSpan<'_>) -> bool
    requires ordered { IsNonDecreasingBy (λ l. l.start.line) before.now }
    ensures value { result ≡ (kinds.is_primary span.entry.kind
        || list_any (λ other. kinds.is_primary other.kind
        && same_place (spec.long_place (seen_long span.entry)) (spec.long_place (seen_long other))) before.now) }
{
    span.kind == AnnotationKind::Primary
        || is_place_of_primary(span, starting_on(before, span.start.line))
}

/// Whether a span has the place of a primary one of some others.
fn is_place_of_primary(span: LongSpan<'_>, others: &[LongSpan<'_>]) -> bool
    ensures value { result ≡ list_any (λ other. kinds.is_primary other.kind
        && same_place (spec.long_place (seen_long span.entry)) (spec.long_place (seen_long other))) others.now }
{
    for other in others {
        if other.kind == AnnotationKind::Primary && span.place() == other.place() {
            return true;
        }
    }
    false
}
