//! The labels of marks.
ghost use Rattle.std.specs.Prelude.{◌≡◌, ◌+◌, ◌==◌, All, OnOk, chars, length};
ghost use Rattle.std.specs.List.{slice_split};
ghost use Rattle.snippet_strokes.specs.Places.{HasPlaceAmong};
ghost use Rattle.snippet_labels.specs.Positions as spec;
ghost use Rattle.snippet_strokes.specs.Strokes.{label_of, piece_at, pieces_at};
ghost use Rattle.snippet_strokes.specs.PaintedStrokes.{labels_of};
ghost use Rattle.snippet_labels.specs.Placing.{HasPlace};
ghost use Rattle.snippet_strokes.specs.Writes.{painted};
ghost use Rattle.snippet_style.specs.Bounds.{AreRows, FitsRow, HasNext, IsUsize};

use crate::canvas::Canvas;
use crate::roles::label_role;
use snippet_grid::Layout;
use snippet_labels::{PlacedEntry, beside_column};
use snippet_style::ElementStyle;
use std::alloc::AllocError;

/// Draws the labels of some entries, the first row of which is that of the marks.
///
/// ```text
///       |        c       position 0: in the row of the marks, one cell after its own
///       |
///       | a              position 1: two rows farther down, below its mark's first column
///       | b              a further piece: one row farther down
/// ```
///
/// # Errors
///
/// There is no memory for the cells.
pub(crate) fn draw_labels<C: Canvas>(
    buffer: &mut C,
    layout: Layout,
    row: usize,
    placed: &[PlacedEntry],
) -> Result<(), AllocError>
    requires places { All (HasPlaceAmong row (length (C.rows buffer.old))) placed.now }
    requires short { All (λ e. All FitsRow (spec.pieces_of e)) placed.now }
    ensures painted { OnOk result (C.rows buffer.new ≡ painted (labels_of layout row placed.now) (C.rows buffer.old)) }
{
    for entry in placed {
        draw_label(buffer, layout, row, entry)?;
    }
    Ok(())
}

/// Draws the label of an entry.
pub(crate) fn draw_label<C: Canvas>(
    buffer: &mut C,
    layout: Layout,
    row: usize,
    placed: &PlacedEntry,
) -> Result<(), AllocError>
    requires place { HasPlaceAmong row (length (C.rows buffer.old)) placed.now }
    requires short { All FitsRow (spec.pieces_of placed.now) }
    ensures painted { OnOk result (C.rows buffer.new
        ≡ painted (label_of layout row placed.now) (C.rows buffer.old)) }
{
    if !placed.has_label() {
        return Ok(());
    }
    let (below, column) = label_place(placed);
    let cell = layout.code_cell(column);
    let role = label_role(placed.entry.kind);
    let (text, is_cut) = placed.label.text(placed.position);
    if is_cut {
        draw_pieces(buffer, row + below, cell, text, role)
    } else {
        draw_piece(buffer, row + below, cell, text, role)
    }
}

/// Draws the pieces of a text that is cut at its line feeds, each in a row of its own from this one on, and from this
/// cell of it on.
#[inline(never)]
fn draw_pieces<C: Canvas>(
    buffer: &mut C,
    row: usize,
    cell: usize,
    text: &str,
    role: ElementStyle,
) -> Result<(), AllocError>
    requires rows { AreRows (row + length (slice_split (λ c. c == 10) (chars text.now))) }
    requires ends { All (λ piece. IsUsize (cell + length piece)) (slice_split (λ c. c == 10) (chars text.now)) }
    ensures painted { OnOk result (C.rows buffer.new
        ≡ painted (pieces_at row cell role (slice_split (λ c. c == 10) (chars text.now))) (C.rows buffer.old)) }
{
    let mut below = row;
    for piece in text.split('\n') {
        draw_piece(buffer, below, cell, piece, role)?;
        below += 1;
    }
    Ok(())
}

/// Draws a piece of a label in this row, from this cell on.
fn draw_piece<C: Canvas>(
    buffer: &mut C,
    row: usize,
    cell: usize,
    piece: &str,
    role: ElementStyle,
) -> Result<(), AllocError>
    requires row { HasNext row }
    requires end { IsUsize (cell + length (chars piece.now)) }
    ensures painted { OnOk result (C.rows buffer.new
        ≡ painted (piece_at row cell role (chars piece.now)) (C.rows buffer.old)) }
{
    buffer.puts(row, cell, piece, role)
}

/// Where the label of an entry begins: how many rows below the row of the marks, and at which column.
fn label_place(placed: &PlacedEntry) -> (usize, usize)
    requires columns { HasPlace placed.now.entry }
    requires low { HasNext placed.now.position }
    ensures value { result ≡ spec.label_place placed.now }
{
    if placed.position == 0 {
        (0, beside_column(&placed.entry))
    } else {
        (placed.position + 1, placed.entry.start.display)
    }
}
