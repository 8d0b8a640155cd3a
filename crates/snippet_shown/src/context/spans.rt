//! The spans around the lines that a snippet keeps. Lines count from 0.
ghost use Rattle.std.specs.Prelude.{◌≡◌, ◌<◌, length, map, All, IfOk, true};
ghost use Rattle.std.specs.Cow.{cow_str_bytes};
ghost use Rattle.snippet_shown.specs.Context as spec;
ghost use Rattle.snippet_shown.specs.WithContext.{HoldsSpan};
ghost use Rattle.snippet_shown.specs.Asked.{IsSnippetSound};
ghost use Rattle.snippet_lines.specs.Starts.{line_starts as spec_starts};
ghost use Rattle.snippet_parts.specs.Annotated.{annotated_lines};
ghost use Rattle.snippet_parts.specs.OnLine.{seen_kept};
ghost use Rattle.snippet_parts.specs.Kept.{kept_lines};
ghost use Rattle.snippet_parts.specs.Numbered.{numbered_source};

use snippet_lines::source_lines::line_starts;
use snippet_model::snippet::{Annotation, Snippet};
use snippet_parts::{AnnotatedLineInfo, map_of};
use std::alloc::{AllocError, Global};
use std::ops::Range;

/// The spans around the lines that a snippet keeps whose lines are folded, one for each of them, in order.
///
/// The one error is that memory ran out.
pub fn spans_around(
    alloc: Global,
    before: usize,
    after: usize,
    snippet: &Snippet<'_, Annotation<'_>>,
) -> Result<Vec<Range<usize>>, AllocError>
    requires sound { IsSnippetSound snippet.now }
    requires folded { snippet.now.fold ≡ true }
    ensures value { IfOk result (λ spans. spans.items ≡ spec.context_spans before after snippet.now) }
    ensures parts { IfOk result (λ spans. All (HoldsSpan (cow_str_bytes snippet.now.source.text)) spans.items) }
{
    let map = map_of(alloc, snippet)?;
    let (_, kept) = map.annotated_lines(&snippet.markers, true)?;
    match snippet.source.line_starts() {
        Some(starts) => spans_of(alloc, before, after, snippet, starts, &kept),
        None => {
            let starts = line_starts(alloc, snippet.source.as_str())?;
            spans_of(alloc, before, after, snippet, &starts, &kept)
        }
    }
}

/// The spans around the lines that a snippet keeps, which are given, where the lines of its source start at these
/// bytes. None reaches further than the lines next to its own among them, so all together are hardly longer than the
/// source.
///
/// The one error is that memory ran out.
fn spans_of(
    alloc: Global,
    before: usize,
    after: usize,
    snippet: &Snippet<'_, Annotation<'_>>,
    starts: &[usize],
    kept: &[AnnotatedLineInfo<'_>],
) -> Result<Vec<Range<usize>>, AllocError>
    requires starts { starts.now ≡ spec_starts (cow_str_bytes snippet.now.source.text) }
    requires kept { map seen_kept kept.now ≡ annotated_lines true (numbered_source snippet.now)
        snippet.now.markers.items }
    ensures value { IfOk result (λ spans. spans.items ≡ spec.spans_around before after
        (cow_str_bytes snippet.now.source.text) 0 (kept_lines true (cow_str_bytes snippet.now.source.text)
        snippet.now.markers.items)) }
{
    let source = snippet.source.as_str();
    let mut spans = Vec::with_capacity(alloc, kept.len())?;
    let mut last = 0;
    for (i, info) in kept.iter().enumerate() {
        let line = info.line_index - snippet.line_start;
        let back = before.min(line.saturating_sub(last));
        let on = reach_after(after, info, &kept[i + 1..]);
        spans.push(span_around(back, on, source, starts, line))?;
        last = line;
    }
    Ok(spans)
}

/// How many lines the span around a line reaches after it, among the lines that are kept: no further than the next.
fn reach_after(after: usize, info: &AnnotatedLineInfo<'_>, later: &[AnnotatedLineInfo<'_>]) -> usize
    ensures value { result ≡ spec.reach_after after info.now.line_index (map (λ i. i.line_index) later.now) }
{
    match later {
        [next, ..] => after.min(next.line_index.saturating_sub(info.line_index)),
        [] => after,
    }
}

/// The span from `before` lines before a line to `after` lines after it, or as far as the source goes, whose lines
/// start at these bytes.
fn span_around(
    before: usize,
    after: usize,
    source: &str,
    starts: &[usize],
    line: usize,
) -> Range<usize>
    requires starts { starts.now ≡ spec_starts source.now }
    requires within { line < length starts.now }
    ensures value { result ≡ spec.span_around before after source.now line }
{
    let last = line.saturating_add(after).min(starts.len() - 1);
    starts[line.saturating_sub(before)]..close_of(source, starts, last)
}

/// The byte at which a line closes: the line feed that ends it, and of the last line the source's end.
fn close_of(source: &str, starts: &[usize], line: usize) -> usize
    requires starts { starts.now ≡ spec_starts source.now }
    requires within { line < length starts.now }
    ensures value { result ≡ spec.close_of source.now line }
{
    let last = starts.len() - 1;
    if line < last {
        starts[line + 1] - 1
    } else {
        source.len()
    }
}
