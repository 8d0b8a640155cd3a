//! The entries of annotations, in the order in which they are made.
ghost use Rattle.std.specs.Prelude.{◌≡◌, ◌+◌, ◌-◌, ◌++◌, All, map, filter, IfOk, OnOk};
ghost use Rattle.snippet_parts.specs.Annotated as spec;
ghost use Rattle.snippet_parts.specs.LongSpans.{bar_lines, seen_long, HasFit};
ghost use Rattle.snippet_parts.specs.Located.{is_short_span, short_part};
ghost use Rattle.snippet_style.specs.Bounds.{IsColumn, IsSourceColumn};

use crate::entries::{LineAnnotation, LineAnnotationType};
use crate::label::Label;
use crate::located::LocatedSpan;
use crate::location::is_marking;
use crate::long_spans::LongSpan;
use crate::source_map::SourceMap;
use snippet_lines::place::Loc;
use std::alloc::{AllocError, Global};

/// The entries of the spans that are marked on one line, as given.
pub(crate) fn single_entries<'a>(
    alloc: Global,
    located: &[LocatedSpan<'a>],
) -> Result<Vec<LineAnnotation<'a>>, AllocError>
    requires display { All (λ l. IsSourceColumn l.start.display) located.now }
    ensures value { IfOk result (λ entries. entries.items
        ≡ map short_part (filter is_short_span located.now)) }
{
    let mut entries = Vec::with_capacity(alloc, located.len())?;
    for span in located {
        if is_short(span) {
            entries.push(entry(span))?;
        }
    }
    Ok(entries)
}

/// The entry of a span that stands on one line: at least one column wide.
fn entry<'a>(span: &LocatedSpan<'a>) -> LineAnnotation<'a>
    requires display { IsSourceColumn span.now.start.display }
    ensures value { result ≡ short_part span.now }
{
    let mut end = span.end;
    end.display = end.display.max(span.start.display + 1);
    LineAnnotation {
        start: span.start,
        end,
        kind: span.annotation.kind,
        label: Label::new(span.annotation.label.as_ref().map(|label| label.as_str())),
        annotation_type: LineAnnotationType::Singleline,
        highlight_source: span.annotation.highlight_source,
    }
}

/// Whether a span stands on one line, and is of a kind that is marked.
pub(crate) fn is_short(span: &LocatedSpan<'_>) -> bool
    ensures value { result ≡ is_short_span span.now }
{
    is_marking(span.annotation.kind) && span.last == span.first
}

/// Adds the entries of a span of several lines: where it stands again, the one at its end alone.
pub(crate) fn push_span_entries<'a>(
    entries: &mut Vec<LineAnnotation<'a>>,
    source: &SourceMap<'a>,
    span: LongSpan<'a>,
    depth: usize,
    again: bool,
) -> Result<(), AllocError>
    requires fit { HasFit source.now span }
    ensures value { OnOk result (entries.new.items
        ≡ entries.old.items ++ spec.span_parts source.now depth again (seen_long span.entry)) }
{
    if again {
        entries.push(end_entry(span, LineAnnotationType::Singleline))?;
    } else {
        entries.push(start_entry(span, depth))?;
        push_bars(entries, source, span, depth)?;
        entries.push(end_entry(span, LineAnnotationType::MultilineEnd(depth)))?;
    }
    Ok(())
}

/// Adds the bars of a span of several lines.
fn push_bars<'a>(
    entries: &mut Vec<LineAnnotation<'a>>,
    source: &SourceMap<'a>,
    span: LongSpan<'a>,
    depth: usize,
) -> Result<(), AllocError>
    requires fit { HasFit source.now span }
    ensures value { OnOk result (entries.new.items ≡ entries.old.items
        ++ map (λ k. spec.bar_part (seen_long span.entry) depth (source.now.first + k))
        (bar_lines source.now.text (span.entry.start.line - source.now.first)
        (span.entry.end.line - source.now.first))) }
{
    let first = span.start.line - source.line_start();
    for line in first + 1..span.bars.end + 1 {
        entries.push(bar_entry(span, source.line_start() + line, depth))?;
    }
    if span.bars.closing {
        entries.push(bar_entry(span, span.end.line - 1, depth))?;
    }
    Ok(())
}

/// The entry on the first line of a span.
fn start_entry(span: LongSpan<'_>, depth: usize) -> LineAnnotation<'_>
    requires display { IsSourceColumn span.start.display }
    requires char { IsColumn span.start.char }
    ensures value { result ≡ spec.start_part (seen_long span.entry) depth }
{
    let end = Loc {
        line: span.start.line,
        char: span.start.char + 1,
        display: span.start.display + 1,
        byte: span.start.byte,
    };
    LineAnnotation {
        start: span.start,
        end,
        kind: span.kind,
        label: Label::new(None),
        annotation_type: LineAnnotationType::MultilineStart(depth),
        highlight_source: span.highlight_source,
    }
}

/// The entry of a bar beside the line of a number.
fn bar_entry(span: LongSpan<'_>, number: usize, depth: usize) -> LineAnnotation<'_>
    ensures value { result ≡ spec.bar_part (seen_long span.entry) depth number }
{
    let at = Loc {
        line: number,
        char: 0,
        display: 0,
        byte: 0,
    };
    LineAnnotation {
        start: at,
        end: at,
        kind: span.kind,
        label: Label::new(None),
        annotation_type: LineAnnotationType::MultilineLine(depth),
        highlight_source: span.highlight_source,
    }
}

/// The entry on the last line of a span: the one column before its end, if there is one.
fn end_entry(span: LongSpan<'_>, annotation_type: LineAnnotationType) -> LineAnnotation<'_>
    ensures value { result ≡ spec.end_part (seen_long span.entry) annotation_type }
{
    let start = Loc {
        line: span.end.line,
        char: span.end.char.saturating_sub(1),
        display: span.end.display.saturating_sub(1),
        byte: span.end.byte,
    };
    LineAnnotation {
        start,
        end: span.end,
        kind: span.kind,
        label: Label::new(span.label),
        annotation_type,
        highlight_source: span.highlight_source,
    }
}
