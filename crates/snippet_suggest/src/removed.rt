//! The rows of lines that are removed.
ghost use Rattle.std.specs.Prelude.{◌≡◌, ◌<◌, ◌≤◌, ◌++◌, List, OnOk, length};
ghost use Rattle.snippet_grid.specs.Grid.{row_at};
ghost use Rattle.snippet_style.specs.Cell.{Cell};
ghost use Rattle.snippet_suggest.specs.RemovedRows.{emptied_cells, numbered_at};
ghost use Rattle.snippet_style.specs.Bounds.{IsRowNumber};

use crate::layout::SuggestionLayout;
use crate::row::{NumberedLine, draw_removed_line};
use snippet_grid::StyledBuffer;
use snippet_parts::LineInfo;
use snippet_style::ElementStyle;
use std::alloc::AllocError;

/// Draws lines of a source that are removed with nothing in their place, in rows from this one on.
///
/// ```text
///     1 - let x = 1;
///     2 -
/// ```
///
/// # Errors
///
/// There is no memory for the rows or their texts.
pub(crate) fn draw_removed_lines(
    buffer: &mut StyledBuffer,
    layout: &SuggestionLayout,
    row: usize,
    lines: &[LineInfo<'_>],
) -> Result<(), AllocError>
    requires row { IsRowNumber row }
    requires some { 0 < length lines.now }
    ensures cells { (above tail : List (List Cell)) → row ≡ length above → buffer.old ≡ above ++ tail → length tail ≤ 1
        → OnOk result (buffer.new ≡ above ++ emptied_cells layout.now (numbered_at lines.now) (row_at tail 0)) }
{
    let mut row = row;
    for info in lines {
        let line = NumberedLine {
            number: info.line_index,
            text: info.line,
        };
        draw_removed_line(buffer, layout, row, line, ElementStyle::Removal)?;
        row = buffer.num_lines();
    }
    Ok(())
}
