//! The rows that a suggestion begins and ends with.
ghost use Rattle.std.specs.Prelude.{◌≡◌, ℕ, ◌<◌, ◌≤◌, ◌+◌, ◌++◌, ◌∷◌, [], List, IfOk, OnOk};
ghost use Rattle.std.specs.Prelude.{length, replicate};
ghost use Rattle.snippet_style.specs.Glyphs.{suggestion_glyph_of};
ghost use Rattle.snippet_suggest.specs.SuggestionRows.{end_glyph};
ghost use Rattle.snippet_suggest.specs.ShownRows.{rows_shared};
ghost use Rattle.snippet_suggest.specs.Cells.{begin_cells, end_cells, put};
ghost use Rattle.snippet_style.specs.declared.role.ElementStyle.TheVariants.{LineNumber};
ghost use Rattle.snippet_grid.specs.Grid.{row_at};
ghost use Rattle.snippet_style.specs.declared.glyphs.DecorStyle.{DecorStyle};
ghost use Rattle.snippet_style.specs.Cell.{Cell};
ghost use Rattle.snippet_grid.specs.Layout.{separator_cell};
ghost use Rattle.snippet_style.specs.Bounds.{HasNext};

use crate::layout::{SuggestionLayout, SuggestionStart};
use snippet_grid::StyledBuffer;
use snippet_style::{ElementStyle, SuggestionGlyph};
use std::alloc::AllocError;

/// Draws what a suggestion begins with: a row below all that stands in the grid, or a glyph in the last row, or nothing
/// where a path stands above it.
///
/// ```text
///      ╭╴      a row of its own
///      ├╴      in the last row of a suggestion
///      │       below a path
/// ```
///
/// # Errors
///
/// There is no memory for the row.
pub(crate) fn draw_head(
    buffer: &mut StyledBuffer,
    layout: &SuggestionLayout,
    start: SuggestionStart,
) -> Result<(), AllocError>
    ensures cells { (above tail : List (List Cell)) → buffer.old ≡ above ++ tail → length tail ≡ rows_shared start
        → OnOk result (buffer.new ≡ above ++ begin_cells layout.now start (row_at tail 0) ∷ []) }
{
    let rows = buffer.num_lines();
    match start {
        SuggestionStart::Opening => draw_glyph(buffer, layout, rows, SuggestionGlyph::Opening),
        SuggestionStart::Next => {
            let row = rows.saturating_sub(1);
            draw_glyph(buffer, layout, row, SuggestionGlyph::Next)
        }
        SuggestionStart::Path => Ok(()),
    }
}

/// Draws a glyph that is no line's after the gutter of a row, which stands alone unless the row is one that is there.
fn draw_glyph(
    buffer: &mut StyledBuffer,
    layout: &SuggestionLayout,
    row: usize,
    glyph: SuggestionGlyph,
) -> Result<(), AllocError>
    requires row { HasNext row }
    ensures over { (above tail : List (List Cell)) → row ≡ length above → buffer.old ≡ above ++ tail → length tail ≤ 1
        → OnOk result (buffer.new ≡ above ++ put LineNumber (suggestion_glyph_of layout.now.base.decor glyph)
        (separator_cell layout.now.base) (row_at tail 0) ∷ []) }
    ensures below { (skipped : ℕ) → row ≡ length buffer.old + skipped → OnOk result (buffer.new
        ≡ (buffer.old ++ replicate skipped []) ++ put LineNumber (suggestion_glyph_of layout.now.base.decor glyph)
        (separator_cell layout.now.base) [] ∷ []) }
{
    let base = layout.base;
    buffer.puts(
        row,
        base.separator_cell(),
        glyph.text(base.decor),
        ElementStyle::LineNumber,
    )?;
    Ok(())
}

/// Draws the row that a suggestion ends with, this many rows below all that stands in the grid, and gives its number.
///
/// ```text
///      ╰╴      at the end of a group
///      │       before a further element
/// ```
///
/// # Errors
///
/// There is no memory for the row.
pub(crate) fn draw_end(
    buffer: &mut StyledBuffer,
    layout: &SuggestionLayout,
    skipped: usize,
    follows: bool,
) -> Result<usize, AllocError>
    requires few { skipped < 2 }
    ensures cells { OnOk result (buffer.new ≡ (buffer.old ++ replicate skipped [])
        ++ end_cells layout.now follows ∷ []) }
    ensures row { IfOk result (λ row. (row ≡ length buffer.old + skipped) × HasNext row) }
{
    let row = buffer.num_lines() + skipped;
    draw_glyph(buffer, layout, row, end_glyph(follows))?;
    Ok(row)
}

/// The glyph of the row that a suggestion ends with, before a further element or not.
fn end_glyph(follows: bool) -> SuggestionGlyph
    ensures value { (decor : DecorStyle) → suggestion_glyph_of decor result ≡ end_glyph decor follows }
{
    if follows {
        SuggestionGlyph::Leading
    } else {
        SuggestionGlyph::Closing
    }
}
