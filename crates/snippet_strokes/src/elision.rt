//! The rows that stand for lines that aren't shown.
ghost use Rattle.std.specs.Prelude.{◌≡◌, ◌++◌, ◌∷◌, [], All, OnOk};
ghost use Rattle.snippet_strokes.specs.StrokeRows.{bare_elision_row};
ghost use Rattle.snippet_strokes.specs.Snippet.{gap_row};
ghost use Rattle.snippet_strokes.specs.InfoRows.{gap_rows};
ghost use Rattle.snippet_strokes.specs.DrawnBars.{HasBarRoom};
ghost use Rattle.snippet_parts.specs.ShownLines.{infos_of};

use crate::bars::{BarStroke, OpenBar, draw_bars};
use snippet_grid::{Layout, StyledBuffer};
use snippet_parts::ShownLine;
use snippet_style::{DecorStyle, ElementStyle};
use std::alloc::AllocError;

/// Draws the row that stands for the lines between one of this number and the first of the lines after it, if there are
/// any.
///
/// # Errors
///
/// There is no memory for the row.
pub(crate) fn draw_gap(
    buffer: &mut StyledBuffer,
    layout: Layout,
    number: usize,
    rest: &[ShownLine],
    open_bars: &[OpenBar],
) -> Result<(), AllocError>
    requires room { All (HasBarRoom layout) open_bars.now }
    ensures added { OnOk result (buffer.new ≡ buffer.old ++ gap_rows layout open_bars.now number (infos_of rest.now)) }
{
    if rest.is_empty() || rest[0].info.line_index.saturating_sub(1) <= number {
        return Ok(());
    }
    draw_elision(buffer, layout, open_bars)
}

/// Draws the row that stands for lines that aren't shown, with the bars that run beside them, below all that stands in
/// the grid.
///
/// ```text
///   ...  |  |            ┆ ┇  ┆
/// ```
fn draw_elision(
    buffer: &mut StyledBuffer,
    layout: Layout,
    open_bars: &[OpenBar],
) -> Result<(), AllocError>
    requires room { All (HasBarRoom layout) open_bars.now }
    ensures added { OnOk result (buffer.new ≡ buffer.old ++ gap_row layout open_bars.now ∷ []) }
{
    let row = buffer.num_lines();
    begin_elision_row(buffer, layout)?;
    draw_bars(buffer, layout, row, open_bars, BarStroke::Dotted)
}

/// Begins that row, with its sign alone: from the first cell on, or in Unicode in the place of the separator.
fn begin_elision_row(buffer: &mut StyledBuffer, layout: Layout) -> Result<(), AllocError>
    ensures added { OnOk result (buffer.new ≡ buffer.old ++ bare_elision_row layout.decor layout.gutter ∷ []) }
{
    let row = buffer.num_lines();
    let cell = match layout.decor {
        DecorStyle::Ascii => 0,
        DecorStyle::Unicode => layout.separator_cell(),
    };
    buffer.puts(row, cell, layout.decor.elision(), ElementStyle::LineNumber)
}
