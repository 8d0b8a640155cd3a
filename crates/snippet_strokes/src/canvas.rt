//! What strokes are painted on.
ghost use Rattle.std.specs.Prelude.{◌≡◌, ◌+◌, ◌<◌, List, [], ◌∷◌, OnOk, length, chars};
ghost use Rattle.snippet_grid.specs.Grid.{cells_written};
ghost use Rattle.snippet_strokes.specs.Writes.{painted, stretch_of};
ghost use Rattle.snippet_style.specs.Bounds.{HasNext, IsRowNumber, IsUsize};
ghost use Rattle.snippet_style.specs.Cell.{Cell, text_cells};

use crate::lines::draw_stretch;
use snippet_grid::StyledBuffer;
use snippet_style::ElementStyle;
use std::alloc::AllocError;
use std::ops::Range;

/// Rows of cells on which strokes are painted, one over another: those of a grid, or some that are added to a grid once
/// all is painted.
pub(crate) trait Canvas {
    // The rows.
    ghost rows: { Self → List (List Cell) };

    /// How many rows there are.
    fn num_lines(&self) -> usize
        ensures count { result ≡ length (rows self.now) }
        ensures small { IsRowNumber result };

    /// Writes a character at this cell of this row.
    fn putc(
        &mut self,
        row: usize,
        cell: usize,
        ch: char,
        role: ElementStyle,
    ) -> Result<(), AllocError>
        requires row { HasNext row }
        requires end { HasNext cell }
        ensures ok { OnOk result
            (rows self.new ≡ cells_written (rows self.old) row cell (text_cells role (ch ∷ []))) };

    /// Writes a text in this row, from this cell on, one cell for each character.
    fn puts(
        &mut self,
        row: usize,
        cell: usize,
        text: &str,
        role: ElementStyle,
    ) -> Result<(), AllocError>
        requires row { 0 < length text.now → HasNext row }
        requires end { IsUsize (cell + length (chars text.now)) }
        ensures ok { OnOk result (0 < length text.now
            → rows self.new ≡ cells_written (rows self.old) row cell (text_cells role (chars text.now))) }
        ensures empty { text.now ≡ [] → rows self.new ≡ rows self.old };

    /// Writes a character in each of these cells of a row.
    fn put_stretch(
        &mut self,
        row: usize,
        cells: Range<usize>,
        ch: char,
        role: ElementStyle,
    ) -> Result<(), AllocError>
        requires row { HasNext row }
        ensures painted { OnOk result
            (rows self.new ≡ painted (stretch_of row cells.start cells.end ch role) (rows self.old)) };
}

impl<'a> Canvas for StyledBuffer<'a> {
    ghost rows = { λ rows. rows };

    fn num_lines(&self) -> usize {
        StyledBuffer::num_lines(self)
    }

    fn putc(
        &mut self,
        row: usize,
        cell: usize,
        ch: char,
        role: ElementStyle,
    ) -> Result<(), AllocError> {
        StyledBuffer::putc(self, row, cell, ch, role)
    }

    fn puts(
        &mut self,
        row: usize,
        cell: usize,
        text: &str,
        role: ElementStyle,
    ) -> Result<(), AllocError> {
        StyledBuffer::puts(self, row, cell, text, role)
    }

    fn put_stretch(
        &mut self,
        row: usize,
        cells: Range<usize>,
        ch: char,
        role: ElementStyle,
    ) -> Result<(), AllocError> {
        draw_stretch(self, row, cells, ch, role)
    }
}
