//! What is known of a suggestion before any row is drawn.
ghost use Rattle.std.specs.Prelude.{◌≡◌, ◌↔◌, ◌+◌, ◌<◌, [], All, IfOk, IfSome, IsNone, length, map, if◌then◌else◌};
ghost use Rattle.std.specs.String.{string_bytes};
ghost use Rattle.snippet_lines.specs.Lines.{newline_count, source_lines};
ghost use Rattle.snippet_lines.specs.Place.{line_of};
ghost use Rattle.snippet_lines.specs.IsSpan.{IsSpan};
ghost use Rattle.snippet_splice.specs.TrimmedEdits.{trimmed_edit_of};
ghost use Rattle.snippet_suggest.specs.Given.{first_end};
ghost use Rattle.snippet_suggest.specs.declared.kind.DisplaySuggestion.TheVariants.{Diff, Underline};
ghost use Rattle.snippet_suggest.specs.PreparedSuggestion.{IsPrepared, IsSuggestible, first_original};
ghost use Rattle.snippet_style.specs.Bounds.{IsUsize};

use crate::kind::DisplaySuggestion;
use snippet_lines::newline_count;
use snippet_model::{Patch, Snippet};
use snippet_parts::{SourceMap, map_of};
use snippet_splice::{SplicedLines, TrimmedPatch};
use std::alloc::{AllocError, Global};

/// A suggestion, with what is known of it before any row is drawn.
#[derive(Drop)]
pub struct PreparedSuggestion<'a> {
    /// The snippet of patches that it shows.
    pub snippet: &'a Snippet<'a, Patch<'a>>,
    /// The lines of its source.
    pub map: SourceMap<'a>,
    /// The part of its source that is shown, with the patches applied.
    pub splice: SplicedLines<'a>,
    /// How it is shown.
    pub kind: DisplaySuggestion,
    /// The line number that it counts for the gutter's width.
    pub counted: usize,
}

/// Prepares a snippet of patches; `None` exactly where it has no patches, since then there is nothing to show.
///
/// # Errors
///
/// There is no memory for the lines of the source or the text.
pub fn prepare_suggestion<'a>(
    alloc: Global,
    snippet: &'a Snippet<'a, Patch<'a>>,
) -> Result<Option<PreparedSuggestion<'a>>, AllocError>
    requires suggestible { IsSuggestible snippet.now }
    ensures none { IfOk result (λ t. IsNone t ↔ (snippet.now.markers.items ≡ [])) }
    ensures snippet { IfOk result (λ t. IfSome t (λ p. p.snippet.now ≡ snippet.now)) }
    ensures prepared { IfOk result (λ t. IfSome t IsPrepared) }
{
    let map = map_of(alloc, snippet)?;
    let Some(splice) = map.splice_lines(&snippet.markers, snippet.fold)? else {
        return Ok(None);
    };
    let kind = DisplaySuggestion::new(map.source(), &splice);
    let counted = counted_line(&map, &splice, kind, snippet.fold);
    Ok(Some(PreparedSuggestion {
        snippet,
        map,
        splice,
        kind,
        counted,
    }))
}

/// The line number that a suggestion counts for the gutter's width: that of its last line, or folded, where it has one
/// line, that line's, or in a diff that of the last line that the first patch changes.
fn counted_line(
    source: &SourceMap<'_>,
    splice: &SplicedLines<'_>,
    kind: DisplaySuggestion,
    fold: bool,
) -> usize
    requires some { 0 < length splice.now.patches.items }
    requires spans { All (λ p. IsSpan source.now.text p.span.start p.span.end) splice.now.patches.items }
    requires originals { All (λ p. IsSpan source.now.text p.original_span.start p.original_span.end)
        splice.now.patches.items }
    ensures value { let ls = source_lines source.now.text in
        let first = source.now.first + (if fold then line_of ls (first_original splice.now.patches.items) else 0) in
        let removed = source.now.first + line_of ls (first_end (map trimmed_edit_of splice.now.patches.items)) in
        let last = first + newline_count (string_bytes splice.now.complete) in
        IsUsize last → result
        ≡ (if fold then elim kind [ Underline ↦ first | Diff ↦ removed | other ↦ last ] else last) }
{
    let first = first_number(source, &splice.patches, fold);
    match kind {
        DisplaySuggestion::Underline if fold => first,
        DisplaySuggestion::Diff if fold => first_end_number(source, &splice.patches),
        _ => first.saturating_add(newline_count(splice.complete.as_str())),
    }
}

/// The number of the first line that is shown: folded that of the line on which the first patch starts.
pub(crate) fn first_number(map: &SourceMap<'_>, patches: &[TrimmedPatch<'_>], fold: bool) -> usize
    requires some { 0 < length patches.now }
    requires originals { All (λ p. IsSpan map.now.text p.original_span.start p.original_span.end) patches.now }
    ensures value { result ≡ map.now.first
        + (if fold then line_of (source_lines map.now.text) (first_original patches.now) else 0) }
{
    match patches.first() {
        Some(patch) if fold => {
            let (start, _) = map.span_to_locations(
                patch.original_span.start..patch.original_span.end,
            );
            start.line
        }
        _ => map.line_start(),
    }
}

/// The number of the line on which the first patch ends.
fn first_end_number(source: &SourceMap<'_>, patches: &[TrimmedPatch<'_>]) -> usize
    requires some { 0 < length patches.now }
    requires spans { All (λ p. IsSpan source.now.text p.span.start p.span.end) patches.now }
    ensures value { result ≡ source.now.first
        + line_of (source_lines source.now.text) (first_end (map trimmed_edit_of patches.now)) }
{
    match patches.first() {
        Some(patch) => {
            let (_, end) = source.span_to_locations(patch.span.start..patch.span.end);
            end.line
        }
        None => source.line_start(),
    }
}
