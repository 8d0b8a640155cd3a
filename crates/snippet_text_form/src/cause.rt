//! Annotated snippets.
ghost use Rattle.std.specs.Prelude.{◌≡◌, ◌==◌, ◌&&◌, ◌++◌, [], ◌∷◌, All, None, Some, chars, drop, filter, length};
ghost use Rattle.std.specs.Prelude.{map, nat_lt, not, IfOk, OnOk};
ghost use Rattle.std.specs.Char.{is_whitespace};
ghost use Rattle.std.specs.List.{flat_map, list_all};
ghost use Rattle.std.specs.Cow.{cow_str_bytes};
ghost use Rattle.std.specs.Option.{option_copied, option_map};
ghost use Rattle.std.specs.Ordering.{nat_cmp, ordering_then};
ghost use Rattle.snippet_lines.specs.Place.{locations_of};
ghost use Rattle.snippet_lines.specs.IsSpan.{IsSpan};
ghost use Rattle.snippet_text_form.specs.Cause.{cause_form, end_in_file, end_on_line, is_labelled, kind_rank};
ghost use Rattle.snippet_text_form.specs.Cause.{span_form, span_place, spans_form};
ghost use Rattle.snippet_parts.specs.Numbered.{numbered_source};
ghost use Rattle.snippet_text_form.specs.Cause as spec;
ghost use Rattle.snippet_text_form.specs.Form.{bare};
ghost use Rattle.snippet_text.specs.TextBounds.{IsOffset};

use crate::form::TextForm;
use crate::position::{
    LineStart, NamedSource, SpanEnds, add_line, add_place, add_place_in_file, add_place_on_line,
    add_to_line,
};
use snippet_lines::Loc;
use snippet_model::snippet::{Annotation, AnnotationKind, Snippet};
use snippet_parts::{SourceMap, SpanFinder, is_marking};
use snippet_style::char_count;
use snippet_text::{CowStr, normalized};
use std::alloc::{AllocError, Global};
use std::cmp::Ordering;

/// Adds an annotated snippet, a line for its first span and for each other that has a label.
///
/// ```text
///  at src/main.rs:3:5: here
///   on line 4, column 9: value
/// ```
///
/// # Errors
///
/// There is no memory for the text, or to order the spans.
pub fn add_cause<'a>(
    alloc: Global,
    form: &mut TextForm<'a>,
    anonymized: bool,
    snippet: &'a Snippet<'a, Annotation<'a>>,
    map: &SourceMap<'a>,
) -> Result<(), AllocError>
    requires map { map.now ≡ numbered_source snippet.now }
    requires spans { All (λ a. IsSpan map.now.text a.span.start a.span.end) snippet.now.markers.items }
    ensures added { OnOk result (form.new ≡ form.old ++ cause_form anonymized snippet.now) }
{
    let path = path_of(snippet);
    let spans = named_spans(alloc, &snippet.markers)?;
    add_spans(alloc, form, anonymized, map, path, &spans)
}

/// An annotation that is named.
#[derive(Clone, Copy)]
struct NamedSpan<'a> {
    annotation: &'a Annotation<'a>,
}

/// An annotation, where it starts and ends, and its label, which may be empty.
#[derive(Drop)]
struct PlacedSpan<'a> {
    annotation: &'a Annotation<'a>,
    ends: SpanEnds,
    label: CowStr<'a>,
}

/// Adds the spans of a snippet, in order; where there are none, the place where its source begins.
fn add_spans<'a>(
    alloc: Global,
    form: &mut TextForm<'a>,
    anonymized: bool,
    source: &SourceMap<'a>,
    path: Option<&'a str>,
    spans: &[NamedSpan<'a>],
) -> Result<(), AllocError>
    requires spans { All (λ s. IsSpan source.now.text s.annotation.now.span.start s.annotation.now.span.end) spans.now }
    ensures added { OnOk result (form.new ≡ form.old
        ++ spans_form anonymized source.now (option_copied path.entry) (map (λ s. s.annotation.now) spans.now)) }
{
    let Some((first, others)) = spans.split_first() else {
        form.add_break()?;
        form.add_text(" ")?;
        return add_place(alloc, form, anonymized, path, source.line_start(), None);
    };
    let named = NamedSource {
        map: source,
        anonymized,
    };
    let mut finder = SpanFinder::new(source);
    let start = LineStart { indent: " ", path };
    let label = label_of(alloc, first.annotation)?;
    let placed = PlacedSpan {
        annotation: first.annotation,
        ends: ends_of(&mut finder, first.annotation),
        label,
    };
    add_span(alloc, form, &named, start, placed)?;
    let indent = further_indent(path);
    for span in others {
        add_further_span(alloc, form, &named, &mut finder, indent, span.annotation)?;
    }
    Ok(())
}

/// Where an annotation starts and ends.
fn ends_of(finder: &mut SpanFinder<'_, '_>, annotation: &Annotation<'_>) -> SpanEnds
    requires span { IsSpan finder.old.text annotation.now.span.start annotation.now.span.end }
    ensures source { finder.new ≡ finder.old }
    ensures at { (result.start, result.end)
        ≡ locations_of finder.old annotation.now.span.start annotation.now.span.end }
{
    let (start, end) = finder.find(annotation.span.start..annotation.span.end);
    SpanEnds { start, end }
}

/// What stands before a span after the first: it stands below the first one's path, where there is one.
fn further_indent<'a>(path: Option<&'a str>) -> &'a str
    ensures value { chars result.now ≡ spec.further_indent (option_copied path.entry) }
{
    match path {
        Some(_) => "  ",
        None => " ",
    }
}

/// A snippet's path, if it has one.
fn path_of<'a>(snippet: &'a Snippet<'a, Annotation<'a>>) -> Option<&'a str>
    ensures value { option_copied result ≡ option_map cow_str_bytes snippet.now.path }
{
    match &snippet.path {
        Some(path) => Some(path.as_str()),
        None => None,
    }
}

/// The annotations that are named, in order.
fn named_spans<'a>(
    alloc: Global,
    annotations: &'a [Annotation<'a>],
) -> Result<Vec<NamedSpan<'a>>, AllocError>
    ensures value { IfOk result (λ spans. map (λ s. s.annotation.now) spans.items ≡ spec.named_spans annotations.now) }
{
    let mut spans = Vec::new(alloc);
    for annotation in annotations {
        if is_marking(annotation.kind) {
            spans.push(NamedSpan { annotation })?;
        }
    }
    spans.sort_by(|a, b| compare(a.annotation, b.annotation))?;
    Ok(spans)
}

/// Which of two annotations comes first: a primary one, then the one that starts first.
fn compare(a: &Annotation<'_>, b: &Annotation<'_>) -> Ordering
    ensures value { result ≡ ordering_then (nat_cmp (kind_rank a.now.kind) (kind_rank b.now.kind))
        (nat_cmp a.now.span.start b.now.span.start) }
{
    rank_of(a.kind)
        .cmp(&rank_of(b.kind))
        .then(a.span.start.cmp(&b.span.start))
}

/// Which kind of span is named first: 0 for a primary one.
fn rank_of(kind: AnnotationKind) -> usize
    ensures value { result ≡ kind_rank kind }
{
    match kind {
        AnnotationKind::Primary => 0,
        AnnotationKind::Context | AnnotationKind::Visible => 1,
    }
}

/// An annotation's label as it is shown, empty where it has none.
fn label_of<'a>(alloc: Global, annotation: &'a Annotation<'a>) -> Result<CowStr<'a>, AllocError>
    ensures value { IfOk result (λ label. chars (cow_str_bytes label) ≡ spec.label_characters annotation.now) }
{
    match &annotation.label {
        Some(label) => normalized(alloc, label.as_str()),
        None => Ok(CowStr::Borrowed("")),
    }
}

/// Adds an annotation after the first, if it has a label.
fn add_further_span<'a>(
    alloc: Global,
    form: &mut TextForm<'a>,
    source: &NamedSource<'_, 'a>,
    finder: &mut SpanFinder<'_, 'a>,
    indent: &'a str,
    span: &'a Annotation<'a>,
) -> Result<(), AllocError>
    requires finder { finder.old ≡ source.now.map.now }
    requires span { IsSpan source.now.map.now.text span.now.span.start span.now.span.end }
    ensures finder { finder.new ≡ finder.old }
    ensures added { OnOk result (form.new ≡ form.old
        ++ flat_map (span_form source.now.anonymized source.now.map.now (chars indent.now) None)
        (filter is_labelled (span.now ∷ []))) }
{
    let label = label_of(alloc, span)?;
    if is_shown(&label) {
        let start = LineStart { indent, path: None };
        let placed = PlacedSpan {
            annotation: span,
            ends: ends_of(finder, span),
            label,
        };
        add_span(alloc, form, source, start, placed)?;
    }
    Ok(())
}

/// Whether a label shows anything.
fn is_shown(label: &CowStr<'_>) -> bool
    ensures value { result ≡ nat_lt 0 (length (chars (cow_str_bytes label.now))) }
{
    !label.as_str().is_empty()
}

/// Adds an annotation, on a line of its own, with its label, which may be empty.
fn add_span<'a>(
    alloc: Global,
    form: &mut TextForm<'a>,
    source: &NamedSource<'_, 'a>,
    start: LineStart<'a>,
    placed: PlacedSpan<'a>,
) -> Result<(), AllocError>
    requires at { (placed.ends.start, placed.ends.end) ≡ locations_of source.now.map.now
        placed.annotation.now.span.start placed.annotation.now.span.end }
    requires label { chars (cow_str_bytes placed.label) ≡ spec.label_characters placed.annotation.now }
    ensures added { OnOk result (form.new ≡ form.old ++ span_form source.now.anonymized source.now.map.now
        (chars start.entry.indent.now) (option_copied start.entry.path) placed.entry.annotation.now) }
{
    form.add_break()?;
    form.add_text(start.indent)?;
    add_span_place(alloc, form, source, start.path, placed.ends)?;
    let label = placed.label;
    if is_shown(&label) {
        form.add_text(": ")?;
        form.add_shown(label)?;
    }
    Ok(())
}

/// Adds where a span starts and ends: in a file, or without a path.
fn add_span_place<'a>(
    alloc: Global,
    form: &mut TextForm<'a>,
    source: &NamedSource<'_, 'a>,
    path: Option<&'a str>,
    ends: SpanEnds,
) -> Result<(), AllocError>
    ensures added { OnOk result (form.new ≡ form.old ++ bare (span_place source.now.anonymized source.now.map.now
        (option_copied path.entry) ends.start ends.end)) }
{
    let anonymized = source.anonymized;
    let start = ends.start;
    let end = ends.end;
    let Some(path) = path else {
        return add_place_on_lines(form, anonymized, source.map, start, end);
    };
    let column = start.char + 1;
    add_place_in_file(
        alloc,
        form,
        anonymized,
        path,
        Some(start.line),
        Some(column),
    )?;
    add_end_in_file(form, anonymized, start, end)
}

/// Adds where a span ends after the place in a file at which it starts, if it ends on another line: ` to 4:7`.
fn add_end_in_file(
    form: &mut TextForm<'_>,
    anonymized: bool,
    start: Loc,
    end: Loc,
) -> Result<(), AllocError>
    requires end { IsOffset end.char }
    ensures added { OnOk result (form.new ≡ form.old ++ bare (end_in_file anonymized start end)) }
{
    if start.line == end.line {
        return Ok(());
    }
    form.add_text(" to ")?;
    add_line(form, anonymized, end.line)?;
    form.add_text(":")?;
    form.add_number(end.char + 1)
}

/// Adds where a span starts and ends without a path: `on line 3, column 5 to line 4, column 7`. A column is left out
/// where nothing but whitespace stands before the span, or after it.
fn add_place_on_lines(
    form: &mut TextForm<'_>,
    anonymized: bool,
    map: &SourceMap<'_>,
    start: Loc,
    end: Loc,
) -> Result<(), AllocError>
    requires start { IsOffset start.char }
    requires end { IsOffset end.char }
    ensures added { OnOk result (form.new ≡ form.old ++ bare (span_place anonymized map.now None start end)) }
{
    let begins = is_blank_before(map.get_line(start.line), start.char);
    add_place_on_line(form, anonymized, start.line, column_unless(begins, start))?;
    add_end_on_line(form, anonymized, map, start, end)
}

/// Adds where a span ends after the place at which it starts, if it ends on another line: ` to line 4, column 7`.
fn add_end_on_line(
    form: &mut TextForm<'_>,
    anonymized: bool,
    map: &SourceMap<'_>,
    start: Loc,
    end: Loc,
) -> Result<(), AllocError>
    requires end { IsOffset end.char }
    ensures added { OnOk result (form.new ≡ form.old ++ bare (end_on_line anonymized map.now start end)) }
{
    if start.line == end.line {
        return Ok(());
    }
    let ends = is_blank_after(map.get_line(end.line), end.char);
    add_to_line(form, anonymized, end.line, column_unless(ends, end))
}

/// The column of a place, from 1; but not where it says nothing.
pub(crate) fn column_unless(plain: bool, loc: Loc) -> Option<usize>
    requires small { IsOffset loc.char }
    ensures value { result ≡ spec.column_unless plain loc }
{
    if plain { None } else { Some(loc.char + 1) }
}

/// Whether this many characters at the start of a line are whitespace.
fn is_blank_before(line: Option<&str>, count: usize) -> bool
    ensures value { result ≡ spec.is_blank_before (option_copied line.entry) count }
{
    match line {
        Some(line) => is_blank_to(line, count),
        None => false,
    }
}

/// Whether this many characters at the start of a line that is there are whitespace.
fn is_blank_to(line: &str, count: usize) -> bool
    ensures value { result ≡ spec.is_blank_before (Some line.now) count }
{
    line.chars().take(count).all(|c| c.is_whitespace())
}

/// Whether a line has at least this many characters, and nothing but whitespace after them.
fn is_blank_after(line: Option<&str>, count: usize) -> bool
    ensures value { result ≡ spec.is_blank_after (option_copied line.entry) count }
{
    match line {
        Some(line) => ends_blank(line, count) && count <= char_count(line),
        None => false,
    }
}

/// Whether nothing but whitespace stands after this many characters of a line.
fn ends_blank(line: &str, count: usize) -> bool
    ensures value { result ≡ list_all is_whitespace (drop count (chars line.now)) }
{
    line.chars().skip(count).all(|c| c.is_whitespace())
}
