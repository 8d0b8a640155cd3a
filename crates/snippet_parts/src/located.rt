//! Spans, each with its place in a source, which is looked for once.
ghost use Rattle.std.specs.Prelude.{◌≡◌, ◌<◌, ◌≤◌, All, IfOk, IfSome, length, true};
ghost use Rattle.snippet_lines.specs.Lines.{source_lines};
ghost use Rattle.snippet_lines.specs.IsSpan.{IsSpan};
ghost use Rattle.snippet_parts.specs.LinePlaces.{IsLinePlace};
ghost use Rattle.snippet_parts.specs.Located.{AreBars, IsLocated, annotations_of};
ghost use Rattle.snippet_parts.specs.Mark as mark;

use crate::bars::{Bars, bars_between};
use crate::line_place::{LinePlace, locations_near};
use crate::location::is_marking;
use crate::source_map::SourceMap;
use snippet_lines::place::Loc;
use snippet_model::snippet::{Annotation, AnnotationKind};
use std::alloc::{AllocError, Global};

/// A span, and where it stands.
#[derive(Clone, Copy, Debug)]
pub(crate) struct LocatedSpan<'a> {
    pub(crate) annotation: &'a Annotation<'a>,
    /// The line on which it starts, from 0.
    pub(crate) first: usize,
    /// The line on which it ends, from 0.
    pub(crate) last: usize,
    pub(crate) start: Loc,
    pub(crate) end: Loc,
    /// Its bars, if it stands on several lines and is of a kind that is marked.
    pub(crate) bars: Bars,
}

/// The spans of annotations, as given, each with its place.
///
/// The one error is that memory ran out.
pub(crate) fn located_spans<'a>(
    alloc: Global,
    source: &SourceMap<'a>,
    annotations: &'a [Annotation<'a>],
) -> Result<Vec<LocatedSpan<'a>>, AllocError>
    requires spans { All (λ a. IsSpan source.now.text a.span.start a.span.end) annotations.now }
    ensures annotations { IfOk result (λ located. annotations_of located.items ≡ annotations.now) }
    ensures located { IfOk result (λ located. All (IsLocated source.now) located.items) }
{
    let mut located = Vec::with_capacity(alloc, annotations.len())?;
    let mut known = None;
    for annotation in annotations {
        located.push(located_span(source, &mut known, annotation))?;
    }
    Ok(located)
}

/// The span of an annotation, with its place. A place before it may be known; that of its start is known then.
pub(crate) fn located_span<'a>(
    source: &SourceMap<'a>,
    known: &mut Option<LinePlace<'a>>,
    annotation: &'a Annotation<'a>,
) -> LocatedSpan<'a>
    requires known { IfSome known.old (IsLinePlace source.now) }
    requires span { IsSpan source.now.text annotation.now.span.start annotation.now.span.end }
    ensures known { IfSome known.new (IsLinePlace source.now) }
    ensures annotation { result.annotation.now ≡ annotation.now }
    ensures located { IsLocated source.now result }
{
    let (start, end) = locations_near(source, known, annotation.span.start..annotation.span.end);
    let first = start.line - source.line_start();
    let last = end.line - source.line_start();
    LocatedSpan {
        annotation,
        first,
        last,
        start,
        end,
        bars: span_bars(source, annotation.kind, first, last),
    }
}

/// The bars of a span of a kind, from one line to another. For one that isn't marked, or stands on one line, no line is
/// read.
fn span_bars(source: &SourceMap<'_>, kind: AnnotationKind, first: usize, last: usize) -> Bars
    requires within { last < length (source_lines source.now.text) }
    ensures value { mark.is_marking kind ≡ true → first < last → AreBars source.now.text first last result }
{
    if first < last && is_marking(kind) {
        return bars_between(source, first, last);
    }
    Bars {
        end: first,
        closing: false,
    }
}
