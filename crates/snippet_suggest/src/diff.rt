//! A suggestion that is shown as the lines that are removed, and the one line that stands in their place.
ghost use Rattle.std.specs.Prelude.{◌≡◌, ◌<◌, ◌-◌, ◌++◌, ◌∷◌, [], List, true, false, OnOk, chars, length};
ghost use Rattle.snippet_style.specs.declared.role.ElementStyle.TheVariants.{Addition};
ghost use Rattle.snippet_splice.specs.StretchLines.{line_stretches};
ghost use Rattle.snippet_suggest.specs.Cells.{offered_cells, with_stretches};
ghost use Rattle.std.specs.Str.{bytes_eq};
ghost use Rattle.snippet_style.specs.Cell.{Cell};
ghost use Rattle.snippet_suggest.specs.declared.kind.DisplaySuggestion.TheVariants.{Diff};
ghost use Rattle.snippet_suggest.specs.Given.{is_left_out};
ghost use Rattle.snippet_suggest.specs.RemovedRows.{diff_cells, taken_cells, last_removed};

use crate::kind::is_blank;
use crate::layout::SuggestionLayout;
use crate::roles::{paint_stretches, stretches_of};
use crate::row::{NumberedLine, draw_line, draw_removed_line};
use snippet_grid::StyledBuffer;
use snippet_parts::LineInfo;
use snippet_splice::SubstitutionHighlight;
use snippet_style::{ElementStyle, SuggestionGlyph};
use std::alloc::AllocError;

/// Lines of a source that are removed, and the one line that stands in their place.
#[derive(Clone, Copy)]
pub(crate) struct LineDiff<'a> {
    /// The number of the first line that is shown, which the line in their place has, too.
    pub(crate) first: usize,
    /// The lines that are removed.
    pub(crate) removed: &'a [LineInfo<'a>],
    /// The stretches that are replaced on each line of the source, from the one of number `first` on.
    pub(crate) replaced: &'a [Vec<SubstitutionHighlight>],
    /// The line in their place.
    pub(crate) line: &'a str,
    /// The stretches that are new in it.
    pub(crate) added: &'a [SubstitutionHighlight],
}

/// Draws lines that are removed below all that stands in the grid, and the line in their place below them. Where this
/// is the same as the last of them, neither is drawn; a blank one isn't drawn.
///
/// ```text
///     1 - let x = 1;
///     2 - x + 1
///     1 + 2
/// ```
///
/// # Errors
///
/// There is no memory for the rows or their texts.
pub(crate) fn draw_diff(
    buffer: &mut StyledBuffer,
    layout: &SuggestionLayout,
    diff: &LineDiff<'_>,
) -> Result<(), AllocError>
    requires some { 0 < length diff.now.removed.now }
    ensures cells { (above : List (List Cell)) (last : List Cell) → buffer.old ≡ above ++ last ∷ []
        → OnOk result (buffer.new ≡ above ++ diff_cells layout.now diff.now.first diff.now.removed.now
        (line_stretches diff.now.replaced.now) diff.now.line.now diff.now.added.now last) }
{
    let (first, removed, replaced) = (diff.first, diff.removed, diff.replaced);
    let stays = is_last(removed, diff.line);
    let count = removed.len().saturating_sub(usize::from(stays));
    draw_diff_removed(buffer, layout, first, &removed[..count], replaced)?;
    if stays {
        let stretches = diff_stretches(replaced, first, removed[count]);
        paint_last(buffer, layout, diff.line, stretches, ElementStyle::Removal)?;
    }
    let left_out = is_left_out(removed, diff.line);
    draw_diff_line(buffer, layout, diff, left_out)
}

/// Draws the line that stands in place of those that are removed below all that stands in the grid, unless it is left
/// out, and gives the stretches that are new in it their role.
fn draw_diff_line(
    buffer: &mut StyledBuffer,
    layout: &SuggestionLayout,
    diff: &LineDiff<'_>,
    left_out: bool,
) -> Result<(), AllocError>
    ensures left_cells { (above : List (List Cell)) (last : List Cell) → left_out ≡ true → buffer.old ≡ above
        ++ last ∷ []
        → OnOk result (buffer.new ≡ above ++ with_stretches Addition layout.now.base.gutter
        (chars diff.now.line.now) diff.now.added.now last ∷ []) }
    ensures cells { left_out ≡ false → OnOk result (buffer.new ≡ buffer.old
        ++ offered_cells layout.now Diff 1 diff.now.first diff.now.line.now diff.now.added.now ∷ []) }
{
    let line = diff.line;
    if !left_out {
        draw_line(buffer, layout, SuggestionGlyph::Added, diff.first, line)?;
    }
    paint_last(buffer, layout, line, diff.added, ElementStyle::Addition)
}

/// Gives the cells of stretches of a line, which stands in the last row, a role.
fn paint_last(
    buffer: &mut StyledBuffer,
    layout: &SuggestionLayout,
    line: &str,
    stretches: &[SubstitutionHighlight],
    role: ElementStyle,
) -> Result<(), AllocError>
    ensures cells { (above : List (List Cell)) (last : List Cell) → buffer.old ≡ above ++ last ∷ []
        → OnOk result (buffer.new ≡ above ++ with_stretches role layout.now.base.gutter
        (chars line.now) stretches.now last ∷ []) }
{
    let row = buffer.num_lines().saturating_sub(1);
    paint_stretches(buffer, layout, row, line, stretches, role)
}

/// Whether a line in place of those that are removed isn't drawn: it is blank, or the same as the last of them.
fn is_left_out(removed: &[LineInfo<'_>], line: &str) -> bool
    ensures value { 0 < length removed.now → result ≡ is_left_out Diff (line.now ∷ []) (last_removed removed.now) }
{
    is_blank(line) || is_last(removed, line)
}

/// Whether a line is the same as the last of those that are removed.
fn is_last(removed: &[LineInfo<'_>], line: &str) -> bool
    ensures some { result ≡ true → 0 < length removed.now }
    ensures value { 0 < length removed.now → result ≡ bytes_eq line.now (last_removed removed.now) }
{
    match removed {
        [.., last] => line == last.line,
        [] => false,
    }
}

/// The stretches that are replaced on a line of the source, where those of the line of number `first` come first.
fn diff_stretches<'a>(
    replaced: &'a [Vec<SubstitutionHighlight>],
    first: usize,
    info: LineInfo<'_>,
) -> &'a [SubstitutionHighlight]
    ensures value { result.now ≡ line_stretches replaced.now (info.entry.line_index - first) }
{
    stretches_of(replaced, info.line_index.saturating_sub(first))
}

/// Draws lines that are removed below all that stands in the grid.
fn draw_diff_removed(
    buffer: &mut StyledBuffer,
    layout: &SuggestionLayout,
    first: usize,
    removed: &[LineInfo<'_>],
    replaced: &[Vec<SubstitutionHighlight>],
) -> Result<(), AllocError>
    ensures cells { OnOk result (buffer.new ≡ buffer.old
        ++ taken_cells layout.now first (line_stretches replaced.now) 0 removed.now) }
{
    for i in 0..removed.len() {
        let info = removed[i];
        let row = buffer.num_lines();
        let number = first.saturating_add(i);
        let line = NumberedLine {
            number,
            text: info.line,
        };
        draw_removed_line(buffer, layout, row, line, ElementStyle::NoStyle)?;
        let stretches = diff_stretches(replaced, first, info);
        paint_stretches(
            buffer,
            layout,
            row,
            info.line,
            stretches,
            ElementStyle::Removal,
        )?;
    }
    Ok(())
}
