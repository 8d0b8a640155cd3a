//! Spans of several lines, in the order in which they are drawn.

ghost use Rattle.std.specs.Prelude.{◌≡◌, ◌==◌, ◌-◌, ◌≤◌, ◌&&◌, ◌||◌, nat_lt, All, map, filter};
ghost use Rattle.std.specs.Prelude.{take, drop, length, IfOk};
ghost use Rattle.std.specs.List.Sorted.{IsNonDecreasingBy};
ghost use Rattle.snippet_parts.specs.Annotated as spec;
ghost use Rattle.snippet_parts.specs.LongSpans.{seen_long, HasFit};
ghost use Rattle.snippet_parts.specs.Located.{IsLocated, is_long_span, span_entry};
ghost use Rattle.snippet_lines.specs.Lines.{Source};
ghost use Rattle.snippet_lines.specs.OrderedBy.{ordered_by};

use crate::bars::Bars;
use crate::depths::LongExtent;
use crate::located::LocatedSpan;
use crate::location::is_marking;
use snippet_lines::place::Loc;
use snippet_model::snippet::AnnotationKind;
use std::alloc::{AllocError, Global};

/// A span of several lines.
#[derive(Clone, Copy, Debug)]
pub(crate) struct LongSpan<'a> {
    pub(crate) start: Loc,
    pub(crate) end: Loc,
    pub(crate) kind: AnnotationKind,
    pub(crate) label: Option<&'a str>,
    pub(crate) highlight_source: bool,
    /// Its bars.
    pub(crate) bars: Bars,
}

impl LongSpan<'_> {
    /// Its place.
    pub(crate) fn place(&self) -> LongExtent
        ensures value { result ≡ spec.long_place (seen_long self.now) }
    {
        LongExtent {
            from: self.start.byte,
            to: self.end.byte,
            first: self.start.line,
            last: self.end.line,
        }
    }
}

/// The spans of several lines that are marked: by first line, then the one with the later last line first, else as
/// given.
///
/// The one error is that memory ran out.
pub(crate) fn long_spans<'a>(
    alloc: Global,
    located: &[LocatedSpan<'a>],
) -> Result<Vec<LongSpan<'a>>, AllocError>
    ensures value { IfOk result (λ spans. map seen_long spans.items
        ≡ ordered_by (λ d e. nat_lt d.start.line e.start.line
        || d.start.line == e.start.line && nat_lt e.end.line d.end.line)
        (map span_entry (filter is_long_span located.now))) }
    ensures ordered { IfOk result (λ spans. IsNonDecreasingBy (λ l. l.start.line) spans.items) }
    ensures fit { IfOk result (λ spans. (s : Source) → All (IsLocated s) located.now → All (HasFit s) spans.items) }
{
    let mut spans = given_long_spans(alloc, located)?;
    spans.sort_by(|a, b| {
        a.start
            .line
            .cmp(&b.start.line)
            .then(b.end.line.cmp(&a.end.line))
    })?;
    Ok(spans)
}

/// The spans of several lines that are marked, as given.
fn given_long_spans<'a>(
    alloc: Global,
    located: &[LocatedSpan<'a>],
) -> Result<Vec<LongSpan<'a>>, AllocError>
    ensures value { IfOk result (λ spans. map seen_long spans.items
        ≡ map span_entry (filter is_long_span located.now)) }
    ensures fit { IfOk result (λ spans. (s : Source) → All (IsLocated s) located.now → All (HasFit s) spans.items) }
{
    let mut spans = Vec::new(alloc);
    for span in located {
        if is_long(span) {
            spans.push(long_span(span))?;
        }
    }
    Ok(spans)
}

/// Whether a span stands on several lines, and is of a kind that is marked.
fn is_long(span: &LocatedSpan<'_>) -> bool
    ensures value { result ≡ is_long_span span.now }
{
    is_marking(span.annotation.kind) && span.last != span.first
}

/// A span, from its start to its end.
fn long_span<'a>(span: &LocatedSpan<'a>) -> LongSpan<'a>
    ensures value { seen_long result ≡ span_entry span.now }
    ensures bars { result.bars ≡ span.now.bars }
{
    LongSpan {
        start: span.start,
        end: span.end,
        kind: span.annotation.kind,
        label: span.annotation.label.as_ref().map(|label| label.as_str()),
        highlight_source: span.annotation.highlight_source,
        bars: span.bars,
    }
}

/// The places of some spans.
pub(crate) fn places(alloc: Global, spans: &[LongSpan<'_>]) -> Result<Vec<LongExtent>, AllocError>
    ensures value { IfOk result (λ places. places.items ≡ map (λ span. spec.long_place (seen_long span)) spans.now) }
{
    let mut places = Vec::with_capacity(alloc, spans.len())?;
    for span in spans {
        places.push(span.place())?;
    }
    Ok(places)
}

/// Those of some spans, which are ordered by their first lines, that start on the line of a number.
pub(crate) fn starting_on<'s, 'a>(spans: &'s [LongSpan<'a>], line: usize) -> &'s [LongSpan<'a>]
    requires ordered { IsNonDecreasingBy (λ l. l.start.line) spans.now }
    ensures value { result.now ≡ filter (λ l. l.start.line == line) spans.now }
{
    let (from, to) = range_on(spans, line);
    &spans[from..to]
}

/// From which to before which place those stand.
fn range_on(spans: &[LongSpan<'_>], line: usize) -> (usize, usize)
    requires ordered { IsNonDecreasingBy (λ l. l.start.line) spans.now }
    ensures ordered { result.0 ≤ result.1 }
    ensures within { result.1 ≤ length spans.now }
    ensures value { take (result.1 - result.0) (drop result.0 spans.now)
        ≡ filter (λ l. l.start.line == line) spans.now }
{
    let from = spans.partition_point(|span| span.start.line < line);
    let to = spans.partition_point(|span| span.start.line <= line);
    (from, to)
}
