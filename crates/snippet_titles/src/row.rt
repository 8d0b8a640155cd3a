//! The rows that a heading is drawn into: what is added after their cells.
ghost use Rattle.std.specs.Prelude.{◌≡◌, ◌+◌, ◌++◌, List, [], chars, length, replicate, OnOk};
ghost use Rattle.snippet_grid.specs.GridRow.{appended};
ghost use Rattle.snippet_titles.specs.HeadingRows.{indent_cells, sign_cells};
ghost use Rattle.snippet_grid.specs.Grid.{row_at};
ghost use Rattle.snippet_style.specs.Cell.{Cell, SPACE, text_cells};
ghost use Rattle.snippet_style.specs.Bounds.{HasNext, IsAddable, IsUsize};

use crate::style::TitleStyle;
use snippet_grid::{RowSink, StyledBuffer};
use snippet_style::ElementStyle;
use std::alloc::AllocError;

/// Adds a text after the cells of a row. An empty one makes no row.
pub(crate) fn extend_row(
    buffer: &mut StyledBuffer,
    row: usize,
    text: &str,
    role: ElementStyle,
) -> Result<(), AllocError>
    requires row { HasNext row }
    ensures extended { OnOk result (buffer.new ≡ appended buffer.old row (text_cells role (chars text.now))) }
{
    buffer.append(row, text, role)?;
    Ok(())
}

/// Adds this many spaces after the cells of a row, of which there are `end`.
pub(crate) fn add_spaces(
    buffer: &mut StyledBuffer,
    row: usize,
    end: usize,
    count: usize,
) -> Result<(), AllocError>
    requires row { HasNext row }
    requires fits { IsUsize (end + count) }
    requires end { length (row_at buffer.old row) ≡ end }
    ensures extended { OnOk result (buffer.new ≡ appended buffer.old row (replicate count SPACE)) }
{
    if count > 0 {
        buffer.putc(row, end + count - 1, ' ', ElementStyle::NoStyle)?;
    }
    Ok(())
}

/// Begins a row with the sign of a message. A title has none.
#[inline(always)]
pub(crate) fn write_sign<'a, S: RowSink<'a>>(
    row: &mut S,
    style: &TitleStyle,
) -> Result<(), AllocError>
    ensures added { OnOk result ((start : S) (cells : List Cell) → S.adds start row.old cells
        → S.adds start row.new (cells ++ sign_cells style.now)) }
{
    if let TitleStyle::Message(place) = style {
        let layout = place.layout;
        row.add_spaces(layout.separator_cell())?;
        row.add_word(place.sign(), ElementStyle::LineNumber)?;
    }
    Ok(())
}

/// Begins a further row, below a label of this width.
pub(crate) fn draw_indent(
    buffer: &mut StyledBuffer,
    row: usize,
    style: &TitleStyle,
    width: usize,
) -> Result<(), AllocError>
    requires row { HasNext row }
    requires empty { row_at buffer.old row ≡ [] }
    requires width { IsAddable width }
    ensures extended { OnOk result (buffer.new ≡ appended buffer.old row (indent_cells style.now width)) }
{
    match style {
        TitleStyle::Title | TitleStyle::Short => add_spaces(buffer, row, 0, width)?,
        TitleStyle::Message(place) => {
            let layout = place.layout;
            let (glyph, role) = place.bar();
            let cell = layout.separator_cell();
            buffer.putc(row, cell, glyph, role)?;
            add_spaces(buffer, row, cell + 1, width + 1)?;
        }
    }
    Ok(())
}
