//! A row of a grid that is written from left to right.
ghost use Rattle.std.specs.Prelude.{◌≡◌, ◌<◌, ◌++◌, ◌∷◌, [], List, IfOk, OnOk, chars, length, map, replicate};
ghost use Rattle.snippet_grid.specs.Grid.{linked};
ghost use Rattle.snippet_style.specs.Bounds.{HasNext};
ghost use Rattle.snippet_style.specs.Cell.{Cell, SPACE, text_cells};

use crate::grid::StyledBuffer;
use crate::row_sink::RowSink;
use snippet_style::ElementStyle;
use std::alloc::AllocError;

/// A row of a grid, which isn't there as long as it has no cells.
#[derive(Drop)]
pub struct GridRow<'a> {
    /// The grid.
    grid: StyledBuffer<'a>,
    /// The row's number in it.
    number: usize,
    ghost numbered: { HasNext number },
}

impl<'a> GridRow<'a> {
    /// The row of this number, from 0, in a grid.
    pub fn of(grid: StyledBuffer<'a>, number: usize) -> GridRow<'a>
        requires number { HasNext number }
        ensures grid { result.grid ≡ grid.entry }
        ensures number { result.number ≡ number }
    {
        GridRow { grid, number }
    }
}

impl<'a> RowSink<'a> for GridRow<'a> {
    ghost use Rattle.snippet_grid.specs.GridRow.{AddsToRow, GainsRows};

    type Ended = StyledBuffer<'a>;

    ghost adds = { AddsToRow };

    ghost gains = { GainsRows };

    fn add_spaces(&mut self, count: usize) -> Result<(), AllocError> {
        if count == 0 {
            return Ok(());
        }
        let end = self.grid.width(self.number);
        if count > usize::MAX - end {
            return Err(AllocError);
        }
        self.grid
            .putc(self.number, end + count - 1, ' ', ElementStyle::NoStyle)
    }

    fn add_word(&mut self, word: &str, role: ElementStyle) -> Result<(), AllocError> {
        self.grid.append(self.number, word, role)
    }

    fn add_link(&mut self, word: &str, role: ElementStyle, url: &'a str) -> Result<(), AllocError> {
        let start = self.grid.width(self.number);
        self.grid.append(self.number, word, role)?;
        let end = self.grid.width(self.number);
        self.grid.link(self.number, start..end, url)
    }

    fn end(self) -> Result<StyledBuffer<'a>, AllocError>
        ensures gained { IfOk result (λ ended. (start : GridRow) (cells : List Cell) → AddsToRow start self.entry cells
            → 0 < length cells → GainsRows start ended (cells ∷ [])) }
        ensures grid { IfOk result (λ ended. ended ≡ self.entry.grid) }
    {
        Ok(self.grid)
    }
}
