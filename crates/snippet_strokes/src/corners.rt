//! The bars of spans of several lines, beside the lines on which they begin and end.
ghost use Rattle.std.specs.Prelude.{◌≡◌, ◌+◌, ◌-◌, ◌<◌, ◌≤◌, ◌++◌, ◌∷◌, [], All, OnOk, length};
ghost use Rattle.snippet_strokes.specs.Places.{HasRows};
ghost use Rattle.snippet_strokes.specs.Strokes.{column_of, corner_of};
ghost use Rattle.snippet_strokes.specs.PaintedStrokes.{corners_of, top_of, tops_of};
ghost use Rattle.snippet_strokes.specs.Drawable.{HasBarCell};
ghost use Rattle.snippet_strokes.specs.Writes.{glyph_at, painted};
ghost use Rattle.snippet_grid.specs.Layout.{bar_cell};
ghost use Rattle.snippet_model.specs.AnnotationKind.{is_primary};
ghost use Rattle.snippet_style.specs.Bounds.{AreRows, HasNext, IsCodeCell, IsRowNumber};
ghost use Rattle.snippet_style.specs.Glyphs.{strokes_of};

use crate::canvas::Canvas;
use crate::roles::is_primary;
use snippet_grid::{Layout, StyledBuffer};
use snippet_labels::PlacedEntry;
use snippet_parts::LineAnnotationType;
use snippet_style::Strokes;
use std::alloc::AllocError;

/// Draws the bars of the spans that begin or end on a line whose source row has this number, with the corners where
/// their lines to the marks begin. The bar of a start leads from there down to the last row of the grid, that of an end
/// from the source row down to there.
///
/// ```text
///     1 |    X0 Y0              2 │ ┃  b)
///       |  __^  -                │ ┗━━━┛
///       | | ____|
/// ```
///
/// # Errors
///
/// There is no memory for the cells.
pub(crate) fn draw_corners<C: Canvas>(
    buffer: &mut C,
    layout: Layout,
    row: usize,
    placed: &[PlacedEntry],
) -> Result<(), AllocError>
    requires bar_cells { All (λ e. HasBarCell layout e.entry) placed.now }
    requires small { AreRows (length (C.rows buffer.old)) }
    requires rows { All (HasRows (row + 1) (length (C.rows buffer.old))) placed.now }
    ensures painted { OnOk result (C.rows buffer.new ≡ painted (corners_of layout row
        (length (C.rows buffer.old)) placed.now) (C.rows buffer.old)) }
{
    for entry in placed {
        draw_corner(buffer, layout, row, entry)?;
    }
    Ok(())
}

/// Draws the bars of the ends in the source row of a line, which is the last one.
///
/// ```text
///     2 │ ┃  b)
/// ```
///
/// # Errors
///
/// There is no memory for the cells.
pub(crate) fn draw_tops(
    buffer: &mut StyledBuffer,
    layout: Layout,
    placed: &[PlacedEntry],
) -> Result<(), AllocError>
    requires source { 0 < length buffer.old }
    requires bar_cells { All (λ e. HasBarCell layout e.entry) placed.now }
    ensures painted { OnOk result (buffer.new
        ≡ painted (tops_of layout (length buffer.old - 1) placed.now) buffer.old) }
{
    let row = buffer.num_lines() - 1;
    for entry in placed {
        draw_top_of_end(buffer, layout, row, entry)?;
    }
    Ok(())
}

/// Draws the bar of an entry in the source row, if it is the end of a span of several lines.
fn draw_top_of_end(
    buffer: &mut StyledBuffer,
    layout: Layout,
    row: usize,
    placed: &PlacedEntry,
) -> Result<(), AllocError>
    requires row { HasNext row }
    requires bar_cell { HasBarCell layout placed.now.entry }
    ensures painted { OnOk result (buffer.new ≡ painted (top_of layout row placed.now) buffer.old) }
{
    let LineAnnotationType::MultilineEnd(depth) = placed.entry.annotation_type else {
        return Ok(());
    };
    let strokes = layout.decor.underline(is_primary(placed.entry.kind));
    buffer.putc(row, layout.bar_cell(depth), strokes.bar, strokes.style)
}

/// Draws the bar of an entry, with its corner, if it is the start or the end of a span of several lines.
pub(crate) fn draw_corner<C: Canvas>(
    buffer: &mut C,
    layout: Layout,
    row: usize,
    placed: &PlacedEntry,
) -> Result<(), AllocError>
    requires bar_cell { HasBarCell layout placed.now.entry }
    requires small { AreRows (length (C.rows buffer.old)) }
    requires rows { HasRows (row + 1) (length (C.rows buffer.old)) placed.now }
    ensures painted { OnOk result (C.rows buffer.new ≡ painted (corner_of layout row
        (length (C.rows buffer.old)) placed.now) (C.rows buffer.old)) }
{
    match placed.entry.annotation_type {
        LineAnnotationType::MultilineStart(depth) => {
            let top = bar_at(layout, row, depth, placed);
            draw_top(buffer, top)
        }
        LineAnnotationType::MultilineEnd(depth) => {
            let bottom = bar_at(layout, row, depth, placed);
            draw_bottom(buffer, bottom, row)
        }
        LineAnnotationType::Singleline | LineAnnotationType::MultilineLine(_) => Ok(()),
    }
}

/// A bar beside the line on which its span begins or ends.
#[derive(Clone, Copy)]
struct BarAt {
    /// The cell in which it stands.
    cell: usize,
    /// The row of its corner, where its line to the marks begins.
    corner: usize,
    /// Its glyphs, and their role.
    strokes: Strokes,
    ghost left: { IsCodeCell cell },
}

/// The bar of an entry at this depth, with its corner in the row of the entry's position.
fn bar_at(layout: Layout, row: usize, depth: usize, placed: &PlacedEntry) -> BarAt
    requires depth { bar_cell layout depth < layout.code }
    requires row { IsRowNumber (row + 1 + placed.now.position) }
    ensures cell { result.cell ≡ bar_cell layout depth }
    ensures corner { result.corner ≡ row + 1 + placed.now.position }
    ensures strokes { result.strokes ≡ strokes_of layout.decor (is_primary placed.now.entry.kind) }
{
    BarAt {
        cell: layout.bar_cell(depth),
        corner: row + 1 + placed.position,
        strokes: layout.decor.underline(is_primary(placed.entry.kind)),
    }
}

/// Draws the top of a start's bar: the corner, and the bar in all rows below it.
fn draw_top<C: Canvas>(buffer: &mut C, bar: BarAt) -> Result<(), AllocError>
    requires rows { bar.corner < length (C.rows buffer.old) }
    requires small { AreRows (length (C.rows buffer.old)) }
    ensures painted { OnOk result (C.rows buffer.new ≡ painted
        (glyph_at bar.corner bar.cell bar.strokes.bar_top bar.strokes.style
        ∷ column_of (bar.corner + 1) (length (C.rows buffer.old)) bar.cell bar.strokes.bar bar.strokes.style)
        (C.rows buffer.old)) }
{
    let strokes = bar.strokes;
    buffer.putc(bar.corner, bar.cell, strokes.bar_top, strokes.style)?;
    let end = buffer.num_lines();
    draw_bar(buffer, bar, bar.corner + 1, end)
}

/// Draws the bottom of an end's bar: the bar in all rows from the source row down to the corner, and this.
fn draw_bottom<C: Canvas>(buffer: &mut C, bar: BarAt, row: usize) -> Result<(), AllocError>
    requires rows { bar.corner < length (C.rows buffer.old) }
    requires ordered { row ≤ bar.corner }
    requires small { AreRows (length (C.rows buffer.old)) }
    ensures painted { OnOk result (C.rows buffer.new ≡ painted
        (column_of row bar.corner bar.cell bar.strokes.bar bar.strokes.style
        ++ glyph_at bar.corner bar.cell bar.strokes.bar_bottom bar.strokes.style ∷ []) (C.rows buffer.old)) }
{
    draw_bar(buffer, bar, row, bar.corner)?;
    let strokes = bar.strokes;
    buffer.putc(bar.corner, bar.cell, strokes.bar_bottom, strokes.style)
}

/// Draws a bar in the rows from `start` to before `end`.
fn draw_bar<C: Canvas>(
    buffer: &mut C,
    bar: BarAt,
    start: usize,
    end: usize,
) -> Result<(), AllocError>
    requires rows { end ≤ length (C.rows buffer.old) }
    requires ordered { start ≤ end }
    requires small { AreRows (length (C.rows buffer.old)) }
    ensures painted { OnOk result (C.rows buffer.new ≡ painted
        (column_of start end bar.cell bar.strokes.bar bar.strokes.style) (C.rows buffer.old)) }
{
    let strokes = bar.strokes;
    for row in start..end {
        buffer.putc(row, bar.cell, strokes.bar, strokes.style)?;
    }
    Ok(())
}
