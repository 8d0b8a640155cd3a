//! Rows that are kept cell by cell, for the strokes of many entries: what is painted into one row moves nothing in
//! another, and costs the same wherever it stands. Once all is painted, the rows are added to a grid.
//!
//! ```text
//!       | --^^--
//!       | | |                    stems, labels and marks are painted one over another,
//!       | | x                    in whichever rows and columns they stand
//!       | f
//! ```
ghost use Rattle.std.specs.Prelude.{◌≡◌, ◌↔◌, IsTrue, ℕ, ◌+◌, ◌-◌, ◌<◌, ◌≤◌};
ghost use Rattle.std.specs.Prelude.{◌++◌, ◌∷◌, [], All, List, IfOk, OnOk, length, map};
ghost use Rattle.std.specs.Prelude.{chars, drop, replicate, string_bytes, take, true};
ghost use Rattle.std.specs.List.{slice_index_or};
ghost use Rattle.snippet_grid.specs.Grid.{cells_written};
ghost use Rattle.snippet_grid.specs.StyledChars.{cell_of};
ghost use Rattle.snippet_strokes.specs.CellRows.{cells_of};
ghost use Rattle.snippet_strokes.specs.Writes.{painted, stretch_of};
ghost use Rattle.snippet_grid.specs.declared.styled_char.StyledChar.{StyledChar};
ghost use Rattle.snippet_style.specs.Bounds.{AreRows, HasNext, IsRowNumber, IsUsize};
ghost use Rattle.snippet_style.specs.Cell.{SPACE, text_cells, written};

use crate::canvas::Canvas;
use snippet_grid::{StyledBuffer, StyledChar};
use snippet_style::ElementStyle;
use std::alloc::{AllocError, Global};
use std::marker::Model;
use std::ops::Range;

/// The most rows that there may be.
const MAX_ROWS: usize = (1 << 60) - 1;

/// How many cells a row has room for at first. A longer one grows from there.
const ROW_ROOM: usize = 128;

/// How many rows ask for rooms that differ. Few blocks of one size are at hand where memory is taken.
const ROOM_SIZES: usize = 32;

/// What a row is filled up with.
const BLANK: StyledChar = StyledChar {
    ch: ' ',
    role: ElementStyle::NoStyle,
};

/// Blanks to take a part of: a row is filled up by many at once, which `resize` would store one by one.
static BLANKS: [StyledChar; 64] = [BLANK; 64];

/// Rows that are kept cell by cell.
#[derive(Drop)]
pub(crate) struct CellRows {
    alloc: Global,
    rows: Vec<Vec<StyledChar>>,
}

impl Model for CellRows {
    ghost use Rattle.std.specs.Prelude.{List, length, map};
    ghost use Rattle.snippet_strokes.specs.CellRows.{cells_of};
    ghost use Rattle.snippet_style.specs.Bounds.{IsRowNumber};
    ghost use Rattle.snippet_style.specs.Cell.{Cell};

    ghost Value = { List (List Cell) };

    ghost view = { λ c. map cells_of c.rows.items };

    ghost invariant = { λ c. IsRowNumber (length c.rows.items) };
}

impl CellRows {
    /// One row with no cells, which stands for a source row. The others, which are to be so many, come below it.
    ///
    /// # Errors
    ///
    /// There is no memory for the rows.
    pub(crate) fn below_source(alloc: Global, count: usize) -> Result<CellRows, AllocError>
        ensures source { IfOk result (λ rows. rows ≡ [] ∷ []) }
    {
        let mut rows = Vec::with_capacity(alloc, count.saturating_add(1))?;
        rows.push(Vec::new(alloc))?;
        Ok(CellRows { alloc, rows })
    }

    /// Makes the row of this number, and all above it, where it isn't there.
    #[inline(always)]
    fn make_row(&mut self, row: usize) -> Result<(), AllocError>
        requires row { HasNext row }
        ensures made { OnOk result (self.new ≡ self.old ++ replicate (row + 1 - length self.old) []) }
    {
        if row < self.rows.len() {
            return Ok(());
        }
        self.add_rows(row)
    }

    /// Makes the row of this number, and all above it that aren't there.
    #[inline(never)]
    fn add_rows(&mut self, row: usize) -> Result<(), AllocError>
        requires row { HasNext row }
        ensures made { OnOk result (self.new ≡ self.old ++ replicate (row + 1 - length self.old) []) }
    {
        if row >= MAX_ROWS {
            return Err(AllocError);
        }
        for _ in self.rows.len()..row + 1 {
            let room = room_of(self.rows.len());
            let fresh = Vec::with_capacity(self.alloc, room)?;
            self.rows.push(fresh)?;
        }
        Ok(())
    }

    /// Adds all rows but the first, which stands for the source row, to a grid: below all that stands in it.
    ///
    /// # Errors
    ///
    /// There is no memory for the rows.
    pub(crate) fn append_below_source(&self, buffer: &mut StyledBuffer) -> Result<(), AllocError>
        requires rows { 1 < length self.now }
        ensures added { OnOk result (buffer.new ≡ buffer.old ++ drop 1 self.now) }
        ensures small { OnOk result (AreRows (length buffer.new)) }
    {
        append_rows(buffer, &self.rows[1..])
    }
}

impl Canvas for CellRows {
    ghost rows = { λ rows. rows };

    fn num_lines(&self) -> usize {
        self.rows.len()
    }

    #[inline(always)]
    fn putc(
        &mut self,
        row: usize,
        cell: usize,
        ch: char,
        role: ElementStyle,
    ) -> Result<(), AllocError> {
        self.make_row(row)?;
        write_char(&mut self.rows[row], cell, StyledChar { ch, role })
    }

    fn puts(
        &mut self,
        row: usize,
        cell: usize,
        text: &str,
        role: ElementStyle,
    ) -> Result<(), AllocError> {
        if text.is_empty() {
            return Ok(());
        }
        self.make_row(row)?;
        write_text(&mut self.rows[row], cell, text, role)
    }

    fn put_stretch(
        &mut self,
        row: usize,
        cells: Range<usize>,
        ch: char,
        role: ElementStyle,
    ) -> Result<(), AllocError> {
        if cells.end <= cells.start {
            return Ok(());
        }
        self.make_row(row)?;
        write_stretch(&mut self.rows[row], cells, StyledChar { ch, role })
    }
}

/// For how many cells the row of this number has room at first.
#[inline(always)]
fn room_of(row: usize) -> usize {
    ROW_ROOM - 2 * (row % ROOM_SIZES)
}

/// Fills a row up with blanks to this cell, unless it is longer.
#[inline(always)]
fn fill_up(cells: &mut Vec<StyledChar>, at: usize) -> Result<(), AllocError>
    ensures filled { OnOk result (map cell_of cells.new.items ≡ written SPACE (map cell_of cells.old.items) at []) }
    ensures long { OnOk result (at ≤ length cells.new.items) }
{
    if cells.len() < at {
        add_blanks(cells, at)?;
    }
    Ok(())
}

/// Adds blanks to a row up to this cell.
#[inline(never)]
fn add_blanks(cells: &mut Vec<StyledChar>, at: usize) -> Result<(), AllocError>
    requires shorter { length cells.old.items < at }
    ensures filled { OnOk result (map cell_of cells.new.items ≡ written SPACE (map cell_of cells.old.items) at []) }
    ensures long { OnOk result (at ≤ length cells.new.items) }
{
    let mut left = at - cells.len();
    while left > 64 {
        push_part(cells, &BLANKS, 64)?;
        left -= 64;
    }
    push_part(cells, &BLANKS, left)
}

/// Adds the first of some blanks to a row.
#[inline(always)]
fn push_part(
    cells: &mut Vec<StyledChar>,
    blanks: &[StyledChar],
    count: usize,
) -> Result<(), AllocError>
    requires blanks { All (λ blank. cell_of blank ≡ SPACE) blanks.now }
    requires within { count ≤ length blanks.now }
    ensures added { OnOk result
        (map cell_of cells.new.items ≡ map cell_of cells.old.items ++ replicate count SPACE) }
{
    cells.extend_from_slice(&blanks[..count])
}

/// Writes a character in a role into a row at this cell.
#[inline(always)]
fn write_char(cells: &mut Vec<StyledChar>, at: usize, new: StyledChar) -> Result<(), AllocError>
    ensures written { OnOk result
        (map cell_of cells.new.items ≡ written SPACE (map cell_of cells.old.items) at (cell_of new ∷ [])) }
{
    if at < cells.len() {
        cells[at] = new;
        return Ok(());
    }
    add_char(cells, at, new)
}

/// Adds a character in a role to a row that ends before this cell, or at it.
#[inline(always)]
fn add_char(cells: &mut Vec<StyledChar>, at: usize, new: StyledChar) -> Result<(), AllocError>
    requires past { length cells.old.items ≤ at }
    ensures written { OnOk result
        (map cell_of cells.new.items ≡ written SPACE (map cell_of cells.old.items) at (cell_of new ∷ [])) }
{
    fill_up(cells, at)?;
    cells.push(new)?;
    Ok(())
}

/// Writes a text in a role into a row from this cell on.
fn write_text(
    cells: &mut Vec<StyledChar>,
    at: usize,
    text: &str,
    role: ElementStyle,
) -> Result<(), AllocError>
    requires end { IsUsize (at + length (chars text.now)) }
    ensures written { OnOk result (map cell_of cells.new.items
        ≡ written SPACE (map cell_of cells.old.items) at (text_cells role (chars text.now))) }
{
    fill_up(cells, at)?;
    let mut next = at;
    for ch in text.chars() {
        write_char(cells, next, StyledChar { ch, role })?;
        next += 1;
    }
    Ok(())
}

/// Writes a character in a role into these cells of a row.
fn write_stretch(
    cells: &mut Vec<StyledChar>,
    range: Range<usize>,
    new: StyledChar,
) -> Result<(), AllocError>
    requires some { range.start < range.end }
    ensures written { OnOk result (map cell_of cells.new.items ≡ written SPACE (map cell_of cells.old.items)
        range.start (replicate (range.end - range.start) (cell_of new))) }
{
    let (start, end) = (range.start, range.end);
    fill_up(cells, start)?;
    let there = end.min(cells.len());
    paint_over(cells, start, there, new);
    if there < end {
        cells.resize(end, new)?;
    }
    Ok(())
}

/// Paints a character in a role over cells of a row.
#[inline(always)]
fn paint_over(cells: &mut Vec<StyledChar>, start: usize, end: usize, new: StyledChar)
    requires ordered { start ≤ end }
    requires within { end ≤ length cells.old.items }
    ensures painted { cells.new.items
        ≡ take start cells.old.items ++ replicate (end - start) new ++ drop end cells.old.items }
{
    cells[start..end].fill(new);
}

/// Adds rows to a grid, below all that stands in it.
fn append_rows(buffer: &mut StyledBuffer, rows: &[Vec<StyledChar>]) -> Result<(), AllocError>
    ensures added { OnOk result (buffer.new ≡ buffer.old ++ map cells_of rows.now) }
    ensures small { OnOk result (0 < length rows.now → AreRows (length buffer.new)) }
{
    for row in rows {
        buffer.add_row(row)?;
    }
    Ok(())
}
