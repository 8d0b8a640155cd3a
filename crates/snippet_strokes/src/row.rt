//! Rows that are begun below all others.
ghost use Rattle.std.specs.Prelude.{◌≡◌, ◌-◌, ◌<◌, ◌++◌, ◌∷◌, [], OnOk, length, replicate};
ghost use Rattle.snippet_strokes.specs.SourceRows.{bare_row};
ghost use Rattle.snippet_style.specs.Separators.{closing_row, separator_row};
ghost use Rattle.snippet_style.specs.Bounds.{AreRows, IsRowNumber};

use crate::canvas::Canvas;
use snippet_grid::Layout;
use snippet_style::ElementStyle;
use std::alloc::AllocError;

/// Begins a row below all others, with the separator alone.
///
/// ```text
///       |
/// ```
///
/// # Errors
///
/// There is no memory for the row.
fn begin_row<C: Canvas>(buffer: &mut C, layout: Layout) -> Result<(), AllocError>
    ensures added { OnOk result (C.rows buffer.new
        ≡ C.rows buffer.old ++ separator_row layout.decor layout.gutter ∷ []) }
    ensures small { IsRowNumber (length (C.rows buffer.old)) }
{
    let row = buffer.num_lines();
    buffer.putc(
        row,
        layout.separator_cell(),
        layout.decor.separator(),
        ElementStyle::LineNumber,
    )
}

/// Begins a row below all others, with the closing glyph alone.
///
/// ```text
///       ╰╴
/// ```
///
/// # Errors
///
/// There is no memory for the row.
pub(crate) fn begin_closing_row<C: Canvas>(buffer: &mut C, layout: Layout) -> Result<(), AllocError>
    ensures added { OnOk result (C.rows buffer.new
        ≡ C.rows buffer.old ++ closing_row layout.decor layout.gutter ∷ []) }
    ensures small { IsRowNumber (length (C.rows buffer.old)) }
{
    let row = buffer.num_lines();
    buffer.puts(
        row,
        layout.separator_cell(),
        layout.decor.closing(),
        ElementStyle::LineNumber,
    )
}

/// Begins some rows below all others, each with the separator alone. Where the window closes, the closing glyph stands
/// in the last of them in place of the separator.
///
/// ```text
///       |
///       |
/// ```
///
/// # Errors
///
/// There is no memory for the rows.
pub(crate) fn begin_rows<C: Canvas>(
    buffer: &mut C,
    layout: Layout,
    closes: bool,
    count: usize,
) -> Result<(), AllocError>
    requires some { 0 < count }
    ensures added { OnOk result (C.rows buffer.new ≡ C.rows buffer.old
        ++ replicate (count - 1) (separator_row layout.decor layout.gutter)
        ++ bare_row layout.decor layout.gutter closes ∷ []) }
    ensures small { OnOk result (AreRows (length (C.rows buffer.new))) }
{
    for _ in 1..count {
        begin_row(buffer, layout)?;
    }
    begin_last_row(buffer, layout, closes)
}

/// Begins the last row of a line's strokes below all others.
fn begin_last_row<C: Canvas>(buffer: &mut C, layout: Layout, closes: bool) -> Result<(), AllocError>
    ensures added { OnOk result (C.rows buffer.new
        ≡ C.rows buffer.old ++ bare_row layout.decor layout.gutter closes ∷ []) }
    ensures small { IsRowNumber (length (C.rows buffer.old)) }
{
    if closes {
        begin_closing_row(buffer, layout)
    } else {
        begin_row(buffer, layout)
    }
}
