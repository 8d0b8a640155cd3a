//! The rows of the lines of a spliced text.
ghost use Rattle.std.specs.Prelude.{◌≡◌, ◌<◌, ◌+◌, ◌++◌, ◌∷◌, [], IfOk, OnOk, length};
ghost use Rattle.std.specs.Prelude.{map};
ghost use Rattle.std.specs.List.{slice_index_or};
ghost use Rattle.snippet_lines.specs.Lines.{lines_of};
ghost use Rattle.snippet_splice.specs.Patched.{texts_of};
ghost use Rattle.snippet_suggest.specs.Cells.{sign_alone, sign_among, sign_of};
ghost use Rattle.snippet_suggest.specs.OfferedRows.{row_shown};
ghost use Rattle.snippet_suggest.specs.declared.shown_lines.SuggestionLine.TheVariants.{Line};
ghost use Rattle.snippet_suggest.specs.SuggestedLines.{is_touched, shown_from};
ghost use Rattle.snippet_window.specs.Margin.{capped_sum};

use crate::kind::DisplaySuggestion;
use crate::layout::SuggestionLayout;
use crate::roles::{are_in_order, paint_stretches, put_stretches, stretches_of};
use crate::row::{begin_line, draw_gap, draw_line};
use crate::shown_lines::{SuggestionLine, shown_lines};
use snippet_grid::StyledBuffer;
use snippet_lines::CursorLines;
use snippet_splice::{LineRange, SubstitutionHighlight};
use snippet_style::{ElementStyle, SuggestionGlyph};
use std::alloc::{AllocError, Global};

/// The lines of a text, without their ends. There is room for so many from the beginning on.
pub(crate) fn text_lines<'a>(
    alloc: Global,
    text: &'a str,
    room: usize,
) -> Result<Vec<&'a str>, AllocError>
    ensures lines { IfOk result (λ lines. map (λ l. l.now) lines.items ≡ texts_of (lines_of text.now)) }
{
    let mut lines = Vec::with_capacity(alloc, room)?;
    for (line, _) in CursorLines::new(text) {
        lines.push(line)?;
    }
    Ok(lines)
}

/// The text of a suggestion as its rows show it.
#[derive(Clone, Copy)]
pub(crate) struct SuggestedText<'a> {
    /// How it is shown.
    pub(crate) kind: DisplaySuggestion,
    /// The number of its first line.
    pub(crate) first: usize,
    /// Its lines, without their ends.
    pub(crate) lines: &'a [&'a str],
    /// Of each line, the characters that come from patches.
    pub(crate) stretches: &'a [Vec<SubstitutionHighlight>],
}

/// Draws the lines of a spliced text that are shown, below all that stands in the grid.
///
/// ```text
///     1 ~ let x = 2;
///     2 | let y = 1;
///   ...
///     9 | let z = 1;
///    10 + x + y + z
/// ```
///
/// # Errors
///
/// There is no memory for the rows or their texts.
pub(crate) fn draw_lines(
    buffer: &mut StyledBuffer,
    layout: &SuggestionLayout,
    text: &SuggestedText<'_>,
    ranges: &[LineRange],
    fold: bool,
) -> Result<(), AllocError>
    ensures cells { OnOk result (buffer.new ≡ buffer.old ++ map (row_shown layout.now text.now)
        (shown_from (is_touched fold ranges.now) 0 0 (length text.now.lines.now))) }
{
    let alloc = buffer.allocator();
    let shown = shown_lines(alloc, text.lines.len(), ranges, fold)?;
    draw_shown(buffer, layout, text, &shown)?;
    Ok(())
}

/// Draws these lines of a text, below all that stands in the grid.
fn draw_shown(
    buffer: &mut StyledBuffer,
    layout: &SuggestionLayout,
    text: &SuggestedText<'_>,
    shown: &[SuggestionLine],
) -> Result<(), AllocError>
    ensures cells { OnOk result (buffer.new ≡ buffer.old ++ map (row_shown layout.now text.now) shown.now) }
{
    for line in shown {
        draw_shown_line(buffer, layout, text, *line)?;
    }
    Ok(())
}

/// Draws a line of a text, or the placeholder for lines that are left out, below all that stands in the grid.
fn draw_shown_line(
    buffer: &mut StyledBuffer,
    layout: &SuggestionLayout,
    text: &SuggestedText<'_>,
    line: SuggestionLine,
) -> Result<(), AllocError>
    ensures cells { OnOk result (buffer.new ≡ buffer.old ++ row_shown layout.now text.now line ∷ []) }
{
    match line {
        SuggestionLine::Line(k) => draw_text_line(buffer, layout, text, k),
        SuggestionLine::Gap => draw_gap(buffer, layout),
    }
}

/// Draws line `k` of some lines, from 0, below all that stands in the grid.
fn draw_text_line(
    buffer: &mut StyledBuffer,
    layout: &SuggestionLayout,
    text: &SuggestedText<'_>,
    k: usize,
) -> Result<(), AllocError>
    ensures cells { OnOk result (buffer.new ≡ buffer.old ++ row_shown layout.now text.now (Line k) ∷ []) }
{
    let line = line_at(text.lines, k);
    let stretches = stretches_of(text.stretches, k);
    let glyph = glyph_of(text.kind, text.lines.len(), line, stretches);
    let number = number_after(text.first, k);
    if are_in_order(line, stretches) {
        let row = begin_line(buffer, layout, glyph, number)?;
        return put_stretches(buffer, layout, row, line, stretches, ElementStyle::Addition);
    }
    let row = draw_line(buffer, layout, glyph, number, line)?;
    paint_stretches(buffer, layout, row, line, stretches, ElementStyle::Addition)?;
    Ok(())
}

/// The text of line `k`, from 0; none of a line that isn't there.
fn line_at<'a>(lines: &[&'a str], k: usize) -> &'a str
    ensures value { result.now ≡ slice_index_or (map (λ l. l.now) lines.now) k [] }
{
    match lines.get(k) {
        Some(line) => *line,
        None => "",
    }
}

/// The number of the line this many lines after another.
pub(crate) fn number_after(first: usize, lines: usize) -> usize
    ensures value { result ≡ capped_sum first lines }
{
    first.saturating_add(lines)
}

/// The glyph beside a line of a text of `count` lines, which has these stretches.
#[tactic(auto, unfolding(crate::specs::Cells::sign_of))]
fn glyph_of(
    kind: DisplaySuggestion,
    count: usize,
    line: &str,
    stretches: &[SubstitutionHighlight],
) -> SuggestionGlyph
    ensures value { result ≡ sign_of kind count line.now stretches.now }
{
    if count <= 1 {
        return alone_glyph(kind);
    }
    match stretches {
        [] => SuggestionGlyph::Kept,
        [only] => only_glyph(line, *only),
        _ => SuggestionGlyph::Changed,
    }
}

/// The glyph beside the one line of a suggestion.
fn alone_glyph(kind: DisplaySuggestion) -> SuggestionGlyph
    ensures value { result ≡ sign_alone kind }
{
    match kind {
        DisplaySuggestion::Add | DisplaySuggestion::Diff => SuggestionGlyph::Added,
        DisplaySuggestion::Plain | DisplaySuggestion::Underline => SuggestionGlyph::Alone,
    }
}

/// The glyph beside a line that has this stretch alone.
fn only_glyph(line: &str, stretch: SubstitutionHighlight) -> SuggestionGlyph
    ensures value { result ≡ sign_among line.now (stretch ∷ []) }
{
    if stretch.start == 0 && stretch.end == line.len() {
        SuggestionGlyph::Added
    } else if stretch.start == 0 && stretch.end == 0 {
        SuggestionGlyph::Kept
    } else {
        SuggestionGlyph::Changed
    }
}
