//! The lines of a snippet that are kept, each with its entries.
ghost use Rattle.std.specs.Prelude.{◌≡◌, ◌≢◌, ℕ, ◌+◌, ◌<◌, ◌++◌, ◌∷◌, [], List, All, length, map, IfOk, IfSome, OnOk};
ghost use Rattle.std.specs.List.{AllPairs, slice_index_or};
ghost use Rattle.std.specs.List.Sorted.{IsNonDecreasingBy};
ghost use Rattle.std.specs.Option.{IfNone};
ghost use Rattle.snippet_parts.specs.Annotated as spec;
ghost use Rattle.snippet_parts.specs.OnLine.{seen_kept};
ghost use Rattle.snippet_parts.specs.declared.entries.LineAnnotation.{LineAnnotation};
ghost use Rattle.snippet_parts.specs.KeptEntries.{line_with};
ghost use Rattle.snippet_lines.specs.Lines.{source_lines, text_at};
ghost use Rattle.snippet_lines.specs.IsSpan.{IsSpan};
ghost use Rattle.snippet_parts.specs.Located.{IsLocated, annotations_of};

use crate::entries::{AnnotatedLineInfo, LineAnnotation};
use crate::kept::{is_among, kept_lines, seen_lines};
use crate::located::{LocatedSpan, located_span, located_spans};
use crate::made_entries::made_entries;
use crate::only_line::{one_line, only_line};
use crate::source_map::SourceMap;
use snippet_model::snippet::Annotation;
use std::alloc::{AllocError, Global};

/// The greatest depth of spans of several lines, and the lines that are kept, each with its entries.
///
/// The one error is that memory ran out.
pub(crate) fn annotated_lines<'a>(
    alloc: Global,
    source: &SourceMap<'a>,
    annotations: &'a [Annotation<'a>],
    fold: bool,
) -> Result<(usize, Vec<AnnotatedLineInfo<'a>>), AllocError>
    requires spans { All (λ a. IsSpan source.now.text a.span.start a.span.end) annotations.now }
    ensures deepest { IfOk result (λ drawn. drawn.0 ≡ spec.deepest source.now annotations.now) }
    ensures lines { IfOk result (λ drawn. map seen_kept drawn.1.items
        ≡ spec.annotated_lines fold source.now annotations.now) }
{
    // Most snippets have one span or two, whose places need no list.
    let mut known = None;
    match annotations {
        [one] => {
            let located = [located_span(source, &mut known, one)];
            located_lines(alloc, source, &located, fold)
        }
        [one, other] => {
            let located = [
                located_span(source, &mut known, one),
                located_span(source, &mut known, other),
            ];
            located_lines(alloc, source, &located, fold)
        }
        _ => {
            let located = located_spans(alloc, source, annotations)?;
            located_lines(alloc, source, &located, fold)
        }
    }
}

/// The greatest depth, and the lines that are kept with their entries, of spans whose places are known.
fn located_lines<'a>(
    alloc: Global,
    source: &SourceMap<'a>,
    located: &[LocatedSpan<'a>],
    fold: bool,
) -> Result<(usize, Vec<AnnotatedLineInfo<'a>>), AllocError>
    requires located { All (IsLocated source.now) located.now }
    ensures deepest { IfOk result (λ drawn. drawn.0 ≡ spec.deepest source.now (annotations_of located.now)) }
    ensures lines { IfOk result (λ drawn. map seen_kept drawn.1.items
        ≡ spec.annotated_lines fold source.now (annotations_of located.now)) }
{
    match only_line(located, fold) {
        Some(line) => one_line(alloc, source, line, located),
        None => several_lines(alloc, source, located, fold),
    }
}

/// The greatest depth, and the lines that are kept with their entries, where the spans may be on several lines.
fn several_lines<'a>(
    alloc: Global,
    source: &SourceMap<'a>,
    located: &[LocatedSpan<'a>],
    fold: bool,
) -> Result<(usize, Vec<AnnotatedLineInfo<'a>>), AllocError>
    requires located { All (IsLocated source.now) located.now }
    ensures deepest { IfOk result (λ drawn. drawn.0 ≡ spec.deepest source.now (annotations_of located.now)) }
    ensures lines { IfOk result (λ drawn. map seen_kept drawn.1.items
        ≡ spec.annotated_lines fold source.now (annotations_of located.now)) }
{
    let (greatest, entries) = made_entries(alloc, source, located)?;
    let kept = kept_lines(alloc, source, located, fold)?;
    let seen = seen_lines(alloc, source, located)?;
    let mut lines = bare_lines(alloc, source, &kept, &seen)?;
    add_entries(&mut lines, source, &kept, &entries)?;
    Ok((greatest, lines))
}

/// These lines, from 0, without entries, where the lines that spans touch which aren't marked are those.
fn bare_lines<'a>(
    alloc: Global,
    source: &SourceMap<'a>,
    kept: &[usize],
    seen: &[usize],
) -> Result<Vec<AnnotatedLineInfo<'a>>, AllocError>
    requires within { All (λ k. k < length (source_lines source.now.text)) kept.now }
    requires ascending { IsNonDecreasingBy (λ k. k) seen.now }
    ensures value { IfOk result (λ lines. map seen_kept lines.items ≡ map (line_with source.now seen.now []) kept.now) }
{
    let mut lines = Vec::with_capacity(alloc, kept.len())?;
    for line in kept {
        let index = *line;
        lines.push(bare_line(alloc, source, index, is_among(seen, index)))?;
    }
    Ok(lines)
}

/// Line `index`, from 0, without entries.
fn bare_line<'a>(
    alloc: Global,
    source: &SourceMap<'a>,
    index: usize,
    keep: bool,
) -> AnnotatedLineInfo<'a>
    requires within { index < length (source_lines source.now.text) }
    ensures value { seen_kept result ≡ record {
      number = source.now.first + index;
      text = text_at (source_lines source.now.text) index;
      parts = [];
      keep = keep;
    } }
{
    AnnotatedLineInfo {
        line: source.text_of_line(index),
        line_index: source.line_number_of(index),
        annotations: Vec::new(alloc),
        keep,
    }
}

/// Gives each of these lines, from 0, its entries, in their order. Those of other lines are left out.
fn add_entries<'a>(
    lines: &mut [AnnotatedLineInfo<'a>],
    source: &SourceMap<'a>,
    kept: &[usize],
    entries: &[LineAnnotation<'a>],
) -> Result<(), AllocError>
    requires ascending { AllPairs (λ a b. a < b) kept.now }
    requires count { length lines.old ≡ length kept.now }
    ensures count { length lines.new ≡ length lines.old }
    ensures added { OnOk result ((seen : List ℕ) → map seen_kept lines.old ≡ map (line_with source.now seen []) kept.now
        → map seen_kept lines.new ≡ map (line_with source.now seen entries.now) kept.now) }
{
    for entry in entries {
        add_entry(lines, source, kept, entry)?;
    }
    Ok(())
}

/// Gives the one of these lines on which an entry stands this entry too.
fn add_entry<'a>(
    lines: &mut [AnnotatedLineInfo<'a>],
    source: &SourceMap<'a>,
    kept: &[usize],
    entry: &LineAnnotation<'a>,
) -> Result<(), AllocError>
    requires ascending { AllPairs (λ a b. a < b) kept.now }
    requires count { length lines.old ≡ length kept.now }
    ensures count { length lines.new ≡ length lines.old }
    ensures added { OnOk result ((seen : List ℕ) (parts : List LineAnnotation)
        → map seen_kept lines.old ≡ map (line_with source.now seen parts) kept.now
        → map seen_kept lines.new ≡ map (line_with source.now seen (parts ++ entry.now ∷ [])) kept.now) }
{
    if let Some(at) = place_of(kept, source.line_start(), entry.start.line) {
        push_entry(&mut lines[at], entry)?;
    }
    Ok(())
}

/// At which place the line of a number is among these lines, where they count from 0 and the first has this number.
fn place_of(kept: &[usize], first: usize, number: usize) -> Option<usize>
    requires ascending { AllPairs (λ a b. a < b) kept.now }
    ensures found { IfSome result (λ at. at < length kept.now) }
    ensures number { IfSome result (λ at. first + slice_index_or kept.now at 0 ≡ number) }
    ensures none { IfNone result ((k : ℕ) → k < length kept.now → first + slice_index_or kept.now k 0 ≢ number) }
{
    let index = number.checked_sub(first)?;
    if let Some(at) = place_from_first(kept, index) {
        return Some(at);
    }
    match kept.binary_search(&index) {
        Ok(at) => Some(at),
        Err(_) => None,
    }
}

/// At which place a line is among these lines, if as many lines are between the first of them and it as places. Mostly
/// all lines are kept from the first one on.
fn place_from_first(kept: &[usize], line: usize) -> Option<usize>
    ensures found { IfSome result (λ at. at < length kept.now) }
    ensures line { IfSome result (λ at. slice_index_or kept.now at 0 ≡ line) }
{
    if kept.is_empty() || line < kept[0] {
        return None;
    }
    let at = line - kept[0];
    if at < kept.len() && kept[at] == line {
        Some(at)
    } else {
        None
    }
}

/// Gives a line one entry more.
fn push_entry<'a>(
    line: &mut AnnotatedLineInfo<'a>,
    entry: &LineAnnotation<'a>,
) -> Result<(), AllocError>
    ensures added { OnOk result (seen_kept line.new ≡ record (seen_kept line.old) {
      parts = (seen_kept line.old).parts ++ entry.now ∷ [];
    }) }
{
    line.annotations.push(entry.copied())?;
    Ok(())
}
