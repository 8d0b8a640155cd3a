//! The rows of a suggestion.
ghost use Rattle.snippet_grid.specs.Grid.{row_at};
ghost use Rattle.snippet_suggest.specs.Cells.{begin_cells};
ghost use Rattle.snippet_suggest.specs.Suggested.{body_cells};
ghost use Rattle.std.specs.Prelude.{◌≡◌, ◌<◌, ◌+◌, ◌-◌, ◌++◌, ◌∷◌, [], List, IfOk, OnOk, All, length, map};
ghost use Rattle.std.specs.Prelude.{replicate, if◌then◌else◌};
ghost use Rattle.snippet_style.specs.Cell.{Cell};
ghost use Rattle.snippet_lines.specs.IsSpan.{IsSpan};
ghost use Rattle.snippet_splice.specs.Copied.{end_from};
ghost use Rattle.snippet_splice.specs.ShownText.{first_start};
ghost use Rattle.snippet_splice.specs.TrimmedEdits.{AreApart, trimmed_edit_of};
ghost use Rattle.snippet_suggest.specs.PreparedSuggestion.{IsPrepared, first_original, first_original_end};
ghost use Rattle.snippet_suggest.specs.Given.{first_given, given_lines};
ghost use Rattle.snippet_suggest.specs.ShownRows.{suggestion_cells, rows_shared};
ghost use Rattle.snippet_suggest.specs.declared.kind.DisplaySuggestion.TheVariants.{Diff};
ghost use Rattle.snippet_suggest.specs.declared.layout.SuggestionStart.{SuggestionStart};
ghost use Rattle.snippet_style.specs.Bounds.{IsRowNumber};

use crate::diff::{LineDiff, draw_diff};
use crate::ends::{draw_end, draw_head};
use crate::kind::DisplaySuggestion;
use crate::layout::{SuggestionLayout, SuggestionStart};
use crate::lines::{SuggestedText, draw_lines, text_lines};
use crate::marks::draw_marks;
use crate::prepared::{PreparedSuggestion, first_number};
use crate::removed::draw_removed_lines;
use crate::roles::stretches_of;
use crate::shown_lines::is_touched;
use snippet_grid::StyledBuffer;
use snippet_parts::SourceMap;
use snippet_splice::TrimmedPatch;
use std::alloc::AllocError;
use std::ops::Range;

/// Draws a suggestion below all that stands in the grid: the lines as they will be.
///
/// ```text
///      ╭╴
///    1 │ let mut x = 1;
///      ╰╴    ++++
/// ```
///
/// It begins in a row of its own, in the last row of the suggestion before it, or below its path, which is drawn
/// before. The last row leads on, if an element `follows`.
///
/// # Errors
///
/// There is no memory for the rows or their texts.
pub fn draw_suggestion(
    buffer: &mut StyledBuffer,
    layout: &SuggestionLayout,
    suggestion: &PreparedSuggestion<'_>,
    start: SuggestionStart,
    follows: bool,
) -> Result<(), AllocError>
    requires prepared { IsPrepared suggestion.now }
    // The rows that it has, cell by cell, below those that stand there, the first of them over the row that it shares.
    ensures cells { (above tail : List (List Cell)) → buffer.old ≡ above ++ tail → length tail ≡ rows_shared start
        → OnOk result (buffer.new ≡ above ++ suggestion_cells layout.now start follows suggestion.now.snippet.now
        (row_at tail 0)) }
{
    let alloc = buffer.allocator();
    let splice = &suggestion.splice;
    let lines = text_lines(alloc, splice.complete.as_str(), splice.highlights.len())?;
    let skipped = draw_body(buffer, layout, suggestion, &lines, start)?;
    let row = draw_end(buffer, layout, skipped, follows)?;
    if suggestion.kind == DisplaySuggestion::Underline {
        let patches = &suggestion.splice.patches;
        draw_marks(buffer, layout, row, &suggestion.map, patches)?;
    }
    Ok(())
}

/// Draws all rows of a suggestion but the last, and gives the number of rows that stay empty before that one.
fn draw_body(
    buffer: &mut StyledBuffer,
    layout: &SuggestionLayout,
    suggestion: &PreparedSuggestion<'_>,
    lines: &[&str],
    start: SuggestionStart,
) -> Result<usize, AllocError>
    requires prepared { IsPrepared suggestion.now }
    requires lines { map (λ l. l.now) lines.now ≡ given_lines suggestion.now.snippet.now }
    ensures few { IfOk result (λ skipped. skipped < 2) }
    ensures cells { let s = suggestion.now.snippet.now in
        (above tail : List (List Cell)) → buffer.old ≡ above ++ tail → length tail ≡ rows_shared start
        → IfOk result (λ skipped. buffer.new ++ replicate skipped [] ≡ above
        ++ body_cells layout.now start s (row_at tail 0)) }
{
    let Some(line) = lines.first() else {
        draw_emptied(buffer, layout, suggestion, start)?;
        return Ok(0);
    };
    draw_head(buffer, layout, start)?;
    let splice = &suggestion.splice;
    let fold = suggestion.snippet.fold;
    let first = first_number(&suggestion.map, &splice.patches, fold);
    if suggestion.kind == DisplaySuggestion::Diff {
        return draw_changed(buffer, layout, suggestion, first, *line);
    }
    let text = SuggestedText {
        kind: suggestion.kind,
        first,
        lines,
        stretches: &splice.highlights,
    };
    draw_lines(buffer, layout, &text, &splice.ranges, fold)?;
    Ok(0)
}

/// Draws the rows of a suggestion that is shown as removed lines and one line. Where no patch touches this, one row
/// stays empty.
fn draw_changed(
    buffer: &mut StyledBuffer,
    layout: &SuggestionLayout,
    suggestion: &PreparedSuggestion<'_>,
    first: usize,
    line: &str,
) -> Result<usize, AllocError>
    requires prepared { IsPrepared suggestion.now }
    requires line { given_lines suggestion.now.snippet.now ≡ line.now ∷ [] }
    requires diff { suggestion.now.kind ≡ Diff }
    requires first { first ≡ suggestion.now.snippet.now.line_start + first_given suggestion.now.snippet.now }
    ensures few { IfOk result (λ skipped. skipped < 2) }
    ensures cells { let s = suggestion.now.snippet.now in
        (above : List (List Cell)) (under : List Cell) (start : SuggestionStart)
        → buffer.old ≡ above ++ begin_cells layout.now start under ∷ []
        → IfOk result (λ skipped. buffer.new ++ replicate skipped [] ≡ above ++ body_cells layout.now start s under) }
{
    let splice = &suggestion.splice;
    let map = &suggestion.map;
    if !is_touched(suggestion.snippet.fold, &splice.ranges, 0) {
        return Ok(1);
    }
    let removed = map.span_to_lines(trimmed_span(map, &splice.patches))?;
    let added = stretches_of(&splice.highlights, 0);
    let replaced = &splice.replaced_highlights;
    let diff = LineDiff {
        first,
        removed: &removed,
        replaced,
        line,
        added,
    };
    draw_diff(buffer, layout, &diff)?;
    Ok(0)
}

/// Draws the lines that are removed where nothing stands in their place. But in a diff they begin in the row that the
/// suggestion begins with.
fn draw_emptied(
    buffer: &mut StyledBuffer,
    layout: &SuggestionLayout,
    suggestion: &PreparedSuggestion<'_>,
    start: SuggestionStart,
) -> Result<(), AllocError>
    requires prepared { IsPrepared suggestion.now }
    requires none { given_lines suggestion.now.snippet.now ≡ [] }
    ensures cells { let s = suggestion.now.snippet.now in
        (above tail : List (List Cell)) → buffer.old ≡ above ++ tail → length tail ≡ rows_shared start
        → OnOk result (buffer.new ≡ above ++ body_cells layout.now start s (row_at tail 0)) }
{
    let map = &suggestion.map;
    let patches = &suggestion.splice.patches;
    let removed = map.span_to_lines(given_span(map, patches, suggestion.snippet.fold))?;
    if suggestion.kind == DisplaySuggestion::Diff {
        draw_head(buffer, layout, start)?;
        let row = buffer.num_lines();
        return draw_removed_lines(buffer, layout, row, &removed);
    }
    let row = first_row(buffer, start);
    draw_removed_lines(buffer, layout, row, &removed)
}

/// The row that a suggestion begins with: the row below all others, or the last one, if that is there for it.
fn first_row(buffer: &StyledBuffer, start: SuggestionStart) -> usize
    ensures value { result ≡ length buffer.now - rows_shared start }
    ensures small { IsRowNumber result }
{
    match start {
        SuggestionStart::Opening => buffer.num_lines(),
        SuggestionStart::Next | SuggestionStart::Path => buffer.num_lines().saturating_sub(1),
    }
}

/// The bytes whose lines are removed where nothing stands in their place: those of the first patch as it was given, or
/// of the whole source, if lines aren't folded.
fn given_span(map: &SourceMap<'_>, patches: &[TrimmedPatch<'_>], fold: bool) -> Range<usize>
    requires originals { All (λ p. IsSpan map.now.text p.original_span.start p.original_span.end) patches.now }
    ensures span { IsSpan map.now.text result.start result.end }
    ensures start { result.start ≡ (if fold then first_original patches.now else 0) }
    ensures end { 0 < length patches.now → result.end ≡
        (if fold then first_original_end patches.now else length map.now.text) }
{
    match patches.first() {
        Some(patch) if fold => patch.original_span.start..patch.original_span.end,
        _ => 0..map.source().len(),
    }
}

/// The bytes from the start of the first patch to the end of the last.
fn trimmed_span(source: &SourceMap<'_>, patches: &[TrimmedPatch<'_>]) -> Range<usize>
    requires spans { All (λ p. IsSpan source.now.text p.span.start p.span.end) patches.now }
    ensures span { IsSpan source.now.text result.start result.end }
    // Of patches that stand apart the last one's end is the greatest, and the first one's start the least.
    ensures end { let ts = map trimmed_edit_of patches.now in 0 < length patches.now → AreApart 0 ts → result.end
        ≡ end_from 0 ts }
    ensures start { let ts = map trimmed_edit_of patches.now in 0 < length patches.now → AreApart 0 ts → result.start
        ≡ first_start ts }
{
    match patches {
        [] => 0..source.source().len(),
        [only] => only.span.start..only.span.end,
        // The patches stand apart, so the first starts before the end of the last.
        [first, .., last] => first.span.start.min(last.span.end)..last.span.end,
    }
}
