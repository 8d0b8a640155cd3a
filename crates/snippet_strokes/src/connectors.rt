//! The lines that lead from the ends of spans of several lines to their bars.
ghost use Rattle.std.specs.Prelude.{◌≡◌, ◌+◌, ◌<◌, All, OnOk, length};
ghost use Rattle.snippet_strokes.specs.Places.{HasPlaceAmong};
ghost use Rattle.snippet_strokes.specs.Strokes.{connector_of};
ghost use Rattle.snippet_strokes.specs.PaintedStrokes.{connectors_of};
ghost use Rattle.snippet_strokes.specs.Drawable.{HasBarCell};
ghost use Rattle.snippet_strokes.specs.Painting.{stroke_role};
ghost use Rattle.snippet_strokes.specs.Writes.{painted, stretch_of};
ghost use Rattle.snippet_grid.specs.Layout.{code_cell, inner_cell};
ghost use Rattle.snippet_model.specs.AnnotationKind.{is_primary};
ghost use Rattle.snippet_style.specs.Glyphs.{strokes_of};

use crate::canvas::Canvas;
use crate::roles::is_primary;
use snippet_grid::Layout;
use snippet_labels::PlacedEntry;
use snippet_parts::LineAnnotationType;
use std::alloc::AllocError;

/// Draws the lines that lead from starts and ends of spans of several lines to their bars, each in the row of its
/// position, the first of which is the row of the marks.
///
/// ```text
///     1 |    X0 Y0
///       |  __                      position 0: in the row of the marks, up to before the start's cell
///       |   ____                   position 1: one row farther down
/// ```
///
/// # Errors
///
/// There is no memory for the cells.
pub(crate) fn draw_connectors<C: Canvas>(
    buffer: &mut C,
    layout: Layout,
    row: usize,
    placed: &[PlacedEntry],
) -> Result<(), AllocError>
    requires places { All (HasPlaceAmong row (length (C.rows buffer.old))) placed.now }
    requires bar_cells { All (λ e. HasBarCell layout e.entry) placed.now }
    ensures painted { OnOk result (C.rows buffer.new
        ≡ painted (connectors_of layout row placed.now) (C.rows buffer.old)) }
{
    for entry in placed {
        draw_connector(buffer, layout, row, entry)?;
    }
    Ok(())
}

/// Draws the line from the bar of an entry to its start, if it is the start or the end of a span of several lines.
pub(crate) fn draw_connector<C: Canvas>(
    buffer: &mut C,
    layout: Layout,
    row: usize,
    placed: &PlacedEntry,
) -> Result<(), AllocError>
    requires place { HasPlaceAmong row (length (C.rows buffer.old)) placed.now }
    requires bar_cell { HasBarCell layout placed.now.entry }
    ensures painted { OnOk result (C.rows buffer.new
        ≡ painted (connector_of layout row placed.now) (C.rows buffer.old)) }
{
    match placed.entry.annotation_type {
        LineAnnotationType::MultilineStart(depth) | LineAnnotationType::MultilineEnd(depth) => {
            draw_line_to(buffer, layout, row, depth, placed)
        }
        LineAnnotationType::Singleline | LineAnnotationType::MultilineLine(_) => Ok(()),
    }
}

/// Draws the line from the bar of this depth to before the start of an entry.
fn draw_line_to<C: Canvas>(
    buffer: &mut C,
    layout: Layout,
    row: usize,
    depth: usize,
    placed: &PlacedEntry,
) -> Result<(), AllocError>
    requires place { HasPlaceAmong row (length (C.rows buffer.old)) placed.now }
    requires depth { inner_cell layout + depth < layout.code }
    ensures painted { OnOk result (C.rows buffer.new ≡ painted (stretch_of (row + placed.now.position)
        (inner_cell layout + depth) (code_cell layout placed.now.entry.start.display)
        (strokes_of layout.decor (is_primary placed.now.entry.kind)).connector (stroke_role placed.now))
        (C.rows buffer.old)) }
{
    let strokes = layout.decor.underline(is_primary(placed.entry.kind));
    let start = layout.code_cell(placed.entry.start.display);
    let cells = layout.bar_cell(depth) + 1..start;
    buffer.put_stretch(
        row + placed.position,
        cells,
        strokes.connector,
        strokes.style,
    )
}
