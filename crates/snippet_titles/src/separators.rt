//! The rows that set others off: of a separator alone, or of the closing glyph alone.
ghost use Rattle.std.specs.Prelude.{◌≡◌, ◌+◌, ◌^◌, ◌<◌, ◌∷◌, ◌++◌, [], OnOk, if◌then◌else◌};
ghost use Rattle.snippet_style.specs.Separators.{closing_row, separator_row};

use snippet_grid::{Layout, StyledBuffer};
use snippet_style::ElementStyle;
use std::alloc::AllocError;

/// Draws the row of a padding below all that stands in the grid: the separator alone, or the closing glyph alone where
/// it is the group's last element.
///
/// # Errors
///
/// There is no memory for the row.
pub fn draw_padding(buffer: &mut StyledBuffer, layout: Layout, last: bool) -> Result<(), AllocError>
    ensures row { OnOk result (buffer.new ≡ buffer.old ++ (if last then closing_row layout.decor layout.gutter
        else separator_row layout.decor layout.gutter) ∷ []) }
{
    if last {
        draw_closing(buffer, layout)
    } else {
        draw_separator(buffer, layout)
    }
}

/// Draws a row with the separator alone below all that stands in the grid.
///
/// ```text
///    |
/// ```
///
/// # Errors
///
/// There is no memory for the row.
pub fn draw_separator(buffer: &mut StyledBuffer, layout: Layout) -> Result<(), AllocError>
    ensures row { OnOk result (buffer.new ≡ buffer.old ++ separator_row layout.decor layout.gutter ∷ []) }
{
    let row = buffer.num_lines();
    buffer.putc(
        row,
        layout.separator_cell(),
        layout.decor.separator(),
        ElementStyle::LineNumber,
    )
}

/// Draws a row with the closing glyph alone below all that stands in the grid.
///
/// ```text
///    ╰╴
/// ```
///
/// # Errors
///
/// There is no memory for the row.
pub fn draw_closing(buffer: &mut StyledBuffer, layout: Layout) -> Result<(), AllocError>
    ensures row { OnOk result (buffer.new ≡ buffer.old ++ closing_row layout.decor layout.gutter ∷ []) }
{
    let row = buffer.num_lines();
    buffer.puts(
        row,
        layout.separator_cell(),
        layout.decor.closing(),
        ElementStyle::LineNumber,
    )
}
