//! Spans that are all marked on one line, as those of most snippets are: it is the only line that is kept.
ghost use Rattle.std.specs.Prelude.{◌≡◌, ◌+◌, ◌<◌, ◌∷◌, [], All, IfOk, IfSome, false, length, map, not, true};
ghost use Rattle.std.specs.List.{list_any};
ghost use Rattle.snippet_lines.specs.Lines.{source_lines, text_at};
ghost use Rattle.snippet_parts.specs.Annotated as spec;
ghost use Rattle.snippet_parts.specs.OnLine.{seen_kept};
ghost use Rattle.snippet_parts.specs.Located.{IsLocated, annotations_of, is_alone_on};

use crate::entries::{AnnotatedLineInfo, LineAnnotation};
use crate::located::LocatedSpan;
use crate::source_map::SourceMap;
use crate::span_entries::{is_short, single_entries};
use std::alloc::{AllocError, Global};

/// The line, from 0, on which each of some spans is marked, if lines are folded and there is such a line.
pub(crate) fn only_line(located: &[LocatedSpan<'_>], fold: bool) -> Option<usize>
    ensures folded { IfSome result (λ line. fold ≡ true) }
    ensures some { IfSome result (λ line. 0 < length located.now) }
    ensures alone { IfSome result (λ line. list_any (λ l. not (is_alone_on line l)) located.now ≡ false) }
{
    if !fold || located.is_empty() {
        return None;
    }
    let line = located[0].first;
    if is_any_elsewhere(located, line) {
        return None;
    }
    Some(line)
}

/// Whether one of some spans isn't marked on a line, from 0, and on it alone.
fn is_any_elsewhere(located: &[LocatedSpan<'_>], line: usize) -> bool
    ensures value { result ≡ list_any (λ l. not (is_alone_on line l)) located.now }
{
    for span in located {
        if !is_alone(span, line) {
            return true;
        }
    }
    false
}

/// Whether a span is marked on a line, from 0, and stands on it alone.
fn is_alone(span: &LocatedSpan<'_>, line: usize) -> bool
    ensures value { result ≡ is_alone_on line span.now }
{
    is_short(span) && span.first == line
}

/// The greatest depth, and the lines that are kept, each with its entries, of spans that are marked on one line alone.
///
/// The one error is that memory ran out.
pub(crate) fn one_line<'a>(
    alloc: Global,
    source: &SourceMap<'a>,
    line: usize,
    located: &[LocatedSpan<'a>],
) -> Result<(usize, Vec<AnnotatedLineInfo<'a>>), AllocError>
    requires located { All (IsLocated source.now) located.now }
    requires some { 0 < length located.now }
    requires alone { list_any (λ l. not (is_alone_on line l)) located.now ≡ false }
    ensures deepest { IfOk result (λ drawn. drawn.0 ≡ spec.deepest source.now (annotations_of located.now)) }
    ensures lines { IfOk result (λ drawn. map seen_kept drawn.1.items
        ≡ spec.annotated_lines true source.now (annotations_of located.now)) }
{
    let annotations = single_entries(alloc, located)?;
    let lines = only(alloc, line_with(source, line, annotations))?;
    Ok((0, lines))
}

/// A line, from 0, that no span keeps unmarked, with these entries.
fn line_with<'a>(
    source: &SourceMap<'a>,
    line: usize,
    annotations: Vec<LineAnnotation<'a>>,
) -> AnnotatedLineInfo<'a>
    requires within { line < length (source_lines source.now.text) }
    ensures value { seen_kept result ≡ record {
      number = source.now.first + line;
      text = text_at (source_lines source.now.text) line;
      parts = annotations.entry.items;
      keep = false;
    } }
{
    AnnotatedLineInfo {
        line: source.text_of_line(line),
        line_index: source.line_number_of(line),
        annotations,
        keep: false,
    }
}

/// A line, and no other.
fn only<'a>(
    alloc: Global,
    line: AnnotatedLineInfo<'a>,
) -> Result<Vec<AnnotatedLineInfo<'a>>, AllocError>
    ensures items { IfOk result (λ lines. lines.items ≡ line.entry ∷ []) }
{
    let mut lines = Vec::with_capacity(alloc, 1)?;
    lines.push(line)?;
    Ok(lines)
}
