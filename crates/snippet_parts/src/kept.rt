//! Which lines of a snippet are kept. Lines count from 0.
ghost use Rattle.std.specs.Prelude.{◌≡◌, ℕ, ◌++◌, ◌-◌, ◌<◌, ◌≤◌, ◌==◌, ◌||◌, true, false, All, List, filter, length};
ghost use Rattle.std.specs.Prelude.{IfOk, OnOk};
ghost use Rattle.std.specs.List.{list_any, range_with_len};
ghost use Rattle.std.specs.List.Sorted.{IsNonDecreasingBy};
ghost use Rattle.snippet_parts.specs.Kept as kept;
ghost use Rattle.snippet_parts.specs.Kept.{keeps};
ghost use Rattle.snippet_lines.specs.Lines.{Source, source_lines};
ghost use Rattle.snippet_parts.specs.Located.{IsLocated, annotations_of};
ghost use Rattle.snippet_parts.specs.LineStretches.{holds_line, is_held, is_seen};

use crate::located::LocatedSpan;
use crate::location::is_marking;
use crate::source_map::SourceMap;
use snippet_model::snippet::Annotation;
use std::alloc::{AllocError, Global};

/// Lines from the first to the last, both counted.
#[derive(Clone, Copy)]
struct Stretch {
    first: usize,
    last: usize,
}

/// The lines of a source that are kept, in order: those that a span keeps, and all where lines aren't folded.
///
/// The one error is that memory ran out.
pub(crate) fn kept_lines(
    alloc: Global,
    source: &SourceMap<'_>,
    located: &[LocatedSpan<'_>],
    fold: bool,
) -> Result<Vec<usize>, AllocError>
    requires located { All (IsLocated source.now) located.now }
    ensures value { IfOk result (λ lines. lines.items ≡ kept.kept_lines fold source.now.text
        (annotations_of located.now)) }
    ensures within { IfOk result (λ lines. All (λ k. k < length (source_lines source.now.text)) lines.items) }
{
    if fold {
        folded_lines(alloc, source, located)
    } else {
        all_lines(alloc, source)
    }
}

/// All lines of a source, which are kept where lines aren't folded.
///
/// The one error is that memory ran out.
fn all_lines(alloc: Global, source: &SourceMap<'_>) -> Result<Vec<usize>, AllocError>
    ensures value { IfOk result (λ lines. (marks : List Annotation)
        → lines.items ≡ kept.kept_lines false source.now.text marks) }
    ensures within { IfOk result (λ lines. All (λ k. k < length (source_lines source.now.text)) lines.items) }
{
    let count = source.line_count();
    let mut lines = Vec::with_capacity(alloc, count)?;
    push_lines(&mut lines, 0, count)?;
    Ok(lines)
}

/// The lines that a span keeps, in order.
///
/// The one error is that memory ran out.
fn folded_lines(
    alloc: Global,
    source: &SourceMap<'_>,
    located: &[LocatedSpan<'_>],
) -> Result<Vec<usize>, AllocError>
    requires located { All (IsLocated source.now) located.now }
    ensures value { IfOk result (λ lines. lines.items ≡ kept.kept_lines true source.now.text
        (annotations_of located.now)) }
    ensures within { IfOk result (λ lines. All (λ k. k < length (source_lines source.now.text)) lines.items) }
{
    let mut stretches = Vec::with_capacity(alloc, located.len().saturating_mul(2))?;
    for span in located {
        let (head, tail) = kept_stretches(span);
        push_stretch(&mut stretches, head)?;
        push_stretch(&mut stretches, tail)?;
    }
    held_lines(alloc, stretches, most_lines(source))
}

/// Adds a stretch, unless it is the last one again: of many spans on a line one says which line is kept.
fn push_stretch(stretches: &mut Vec<Stretch>, stretch: Stretch) -> Result<(), AllocError>
    ensures held { OnOk result ((k : ℕ) → is_held stretches.new.items k
        ≡ (is_held stretches.old.items k || holds_line stretch k)) }
{
    let len = stretches.len();
    if len > 0 && is_same(stretches[len - 1], stretch) {
        return Ok(());
    }
    stretches.push(stretch)?;
    Ok(())
}

/// Whether two stretches are one.
fn is_same(a: Stretch, b: Stretch) -> bool
    ensures same { result ≡ true → (k : ℕ) → holds_line a k ≡ holds_line b k }
{
    a.first == b.first && a.last == b.last
}

/// The lines that spans touch which aren't marked, in order.
///
/// The one error is that memory ran out.
pub(crate) fn seen_lines(
    alloc: Global,
    source: &SourceMap<'_>,
    located: &[LocatedSpan<'_>],
) -> Result<Vec<usize>, AllocError>
    requires located { All (IsLocated source.now) located.now }
    ensures value { IfOk result (λ lines. lines.items ≡ filter
        (λ k. list_any (λ l. is_seen source.now.text k l.annotation.now) located.now)
        (range_with_len 0 (length (source_lines source.now.text)))) }
{
    let mut stretches = Vec::new(alloc);
    for span in located {
        if !is_marking(span.annotation.kind) {
            stretches.push(touched(span))?;
        }
    }
    held_lines(alloc, stretches, most_lines(source))
}

/// How many lines a source has at most: one more than bytes. It is for those who needn't count them.
fn most_lines(source: &SourceMap<'_>) -> usize
    ensures enough { length (source_lines source.now.text) ≤ result }
{
    source.source().len() + 1
}

/// Whether a line is one of some lines in order.
pub(crate) fn is_among(lines: &[usize], line: usize) -> bool
    requires ascending { IsNonDecreasingBy (λ k. k) lines.now }
    ensures value { result ≡ list_any (λ k. k == line) lines.now }
{
    lines.binary_search(&line).is_ok()
}

/// The lines that a span keeps: those of its beginning, and those of its end.
fn kept_stretches(span: &LocatedSpan<'_>) -> (Stretch, Stretch)
    ensures value { (s : Source) (k : ℕ) → IsLocated s span.now → (holds_line result.0 k || holds_line result.1 k)
        ≡ keeps s.text k span.now.annotation.now }
{
    let all = touched(span);
    if all.first >= all.last || !is_marking(span.annotation.kind) {
        return (all, all);
    }
    let head = Stretch {
        first: all.first,
        last: span.bars.end,
    };
    let closing = usize::from(span.bars.closing);
    let tail = Stretch {
        first: all.last - closing,
        last: all.last,
    };
    (head, tail)
}

/// The lines that a span touches.
fn touched(span: &LocatedSpan<'_>) -> Stretch
    ensures first { result.first ≡ span.now.first }
    ensures last { result.last ≡ span.now.last }
{
    Stretch {
        first: span.first,
        last: span.last,
    }
}

/// The lines of a source of `count` lines that one of some stretches holds, in order.
///
/// The one error is that memory ran out.
fn held_lines(
    alloc: Global,
    mut stretches: Vec<Stretch>,
    count: usize,
) -> Result<Vec<usize>, AllocError>
    ensures value { IfOk result (λ lines. lines.items
        ≡ filter (is_held stretches.items) (range_with_len 0 count)) }
{
    stretches.sort_by_key(|stretch| stretch.first)?;
    merged_lines(alloc, &stretches, count)
}

/// The lines of a source that one of some stretches holds, which are sorted by their first lines.
fn merged_lines(
    alloc: Global,
    stretches: &[Stretch],
    count: usize,
) -> Result<Vec<usize>, AllocError>
    requires sorted { IsNonDecreasingBy (λ s. s.first) stretches.now }
    ensures value { IfOk result (λ lines. lines.items
        ≡ filter (is_held stretches.now) (range_with_len 0 count)) }
{
    let mut lines = Vec::with_capacity(alloc, stretches.len())?;
    let mut next = 0;
    for stretch in stretches {
        let from = stretch.first.max(next).min(count);
        next = stretch.last.saturating_add(1).min(count).max(from);
        push_lines(&mut lines, from, next)?;
    }
    Ok(lines)
}

/// Adds the lines from one to before another.
fn push_lines(lines: &mut Vec<usize>, from: usize, to: usize) -> Result<(), AllocError>
    requires ordered { from ≤ to }
    ensures value { OnOk result (lines.new.items ≡ lines.old.items ++ range_with_len from (to - from)) }
{
    for line in from..to {
        lines.push(line)?;
    }
    Ok(())
}
