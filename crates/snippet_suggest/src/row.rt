//! The row of one line.
ghost use Rattle.std.specs.Prelude.{◌≡◌, ◌≤◌, ◌++◌, ◌∷◌, [], List, IfOk, OnOk};
ghost use Rattle.std.specs.Prelude.{length};
ghost use Rattle.snippet_style.specs.Cell.{Cell};
ghost use Rattle.snippet_grid.specs.Grid.{row_at};
ghost use Rattle.snippet_suggest.specs.Cells.{gap_cells, line_cells, removed_cells};
ghost use Rattle.snippet_suggest.specs.OfferedRows.{opened_cells};
ghost use Rattle.snippet_grid.specs.Layout.{separator_cell};
ghost use Rattle.snippet_style.specs.Bounds.{HasNext};

use crate::layout::SuggestionLayout;
use snippet_grid::StyledBuffer;
use snippet_lines::number_text;
use snippet_style::{ElementStyle, SuggestionGlyph};
use snippet_text::{normalized, str_width};
use std::alloc::AllocError;

/// Draws a line as it will be, below all that stands in the grid, and gives the row's number.
///
/// ```text
///     1 ~ let x = 1;
/// ```
///
/// # Errors
///
/// There is no memory for the row or its texts.
pub(crate) fn draw_line(
    buffer: &mut StyledBuffer,
    layout: &SuggestionLayout,
    glyph: SuggestionGlyph,
    number: usize,
    line: &str,
) -> Result<usize, AllocError>
    ensures cells { OnOk result (buffer.new ≡ buffer.old ++ line_cells layout.now glyph number line.now ∷ []) }
    ensures row { IfOk result (λ row. row ≡ length buffer.old) }
{
    let alloc = buffer.allocator();
    let row = begin_line(buffer, layout, glyph, number)?;
    let text = normalized(alloc, line)?;
    let cell = layout.base.inner_cell();
    buffer.puts(row, cell, text.as_str(), ElementStyle::NoStyle)?;
    Ok(row)
}

/// Draws what stands left of a line as it will be, below all that stands in the grid, and gives the row's number.
///
/// # Errors
///
/// There is no memory for the row or the number.
pub(crate) fn begin_line(
    buffer: &mut StyledBuffer,
    layout: &SuggestionLayout,
    glyph: SuggestionGlyph,
    number: usize,
) -> Result<usize, AllocError>
    ensures cells { OnOk result (buffer.new ≡ buffer.old ++ opened_cells layout.now glyph number ∷ []) }
    ensures row { IfOk result (λ row. (row ≡ length buffer.old) × HasNext row) }
{
    let alloc = buffer.allocator();
    let row = buffer.num_lines();
    let base = layout.base;
    let sign = glyph.text(base.decor);
    let number = number_text(alloc, layout.numbers, base.gutter, number)?;
    // A row is written from left to right where it can be. A number that is too long stands over the sign.
    if number.len() <= base.separator_cell() {
        buffer.puts(row, 0, number.as_str(), ElementStyle::LineNumber)?;
        buffer.puts(row, base.separator_cell(), sign, glyph.role())?;
        return Ok(row);
    }
    buffer.puts(row, base.separator_cell(), sign, glyph.role())?;
    buffer.puts(row, 0, number.as_str(), ElementStyle::LineNumber)?;
    Ok(row)
}

/// A line, and the number that stands beside it.
#[derive(Clone, Copy, Debug)]
pub(crate) struct NumberedLine<'a> {
    /// Its number.
    pub(crate) number: usize,
    /// Its text, without its end.
    pub(crate) text: &'a str,
}

/// Draws a line that is removed, in this row.
///
/// ```text
///     1 - let x = 1;
/// ```
///
/// # Errors
///
/// There is no memory for the row or its texts.
pub(crate) fn draw_removed_line(
    buffer: &mut StyledBuffer,
    layout: &SuggestionLayout,
    row: usize,
    line: NumberedLine<'_>,
    role: ElementStyle,
) -> Result<(), AllocError>
    requires row { HasNext row }
    ensures cells { (above tail : List (List Cell)) → row ≡ length above → buffer.old ≡ above ++ tail → length tail ≤ 1
        → OnOk result (buffer.new ≡ above
        ++ removed_cells layout.now role line.entry.number line.entry.text.now (row_at tail 0) ∷ []) }
{
    let alloc = buffer.allocator();
    let base = layout.base;
    let number = number_text(alloc, layout.numbers, base.gutter, line.number)?;
    buffer.puts(row, 0, number.as_str(), ElementStyle::LineNumber)?;
    buffer.puts(
        row,
        base.separator_cell(),
        base.decor.removed_sign(),
        ElementStyle::Removal,
    )?;
    let text = normalized(alloc, line.text)?;
    buffer.puts(row, base.inner_cell(), text.as_str(), role)?;
    Ok(())
}

/// Draws the placeholder for lines that are left out, below all that stands in the grid, right-aligned in the gutter.
///
/// ```text
///   ...
/// ```
///
/// # Errors
///
/// There is no memory for the row.
pub(crate) fn draw_gap(
    buffer: &mut StyledBuffer,
    layout: &SuggestionLayout,
) -> Result<(), AllocError>
    ensures cells { OnOk result (buffer.new ≡ buffer.old ++ gap_cells layout.now ∷ []) }
{
    let row = buffer.num_lines();
    let base = layout.base;
    let placeholder = base.decor.placeholder();
    let cell = base.gutter.saturating_sub(str_width(placeholder));
    buffer.puts(row, cell, placeholder, ElementStyle::LineNumber)?;
    Ok(())
}
