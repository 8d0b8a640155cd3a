//! The grid of styled cells that a report is drawn into.
//!
//! A grid has rows, and a row has cells, both counted from 0. What is written beyond a row's end,
//! or below the last row, makes the row longer and adds rows, as far as needed and no farther.

ghost use Rattle.std.specs.Prelude.{◌≡◌, ◌+◌, ◌<◌, ◌≤◌, ◌++◌, List, [], ◌∷◌, length, map, ℕ, true, IfOk, OnOk, OnErr};
ghost use Rattle.std.specs.Prelude.{IsOk, string_bytes, encode_utf8_all};
ghost use Rattle.snippet_grid.specs.Grid.{row_at, cells_written};
ghost use Rattle.snippet_grid.specs.RunBounds.{fewest_runs, most_runs};
ghost use Rattle.snippet_grid.specs.StyledChars.{cell_of};
ghost use Rattle.snippet_style.specs.Cell.{text_cells};
ghost use Rattle.snippet_style.specs.declared.role.ElementStyle.TheVariants.{LineNumber};
ghost use Rattle.std.specs.Str.{chars};
ghost use Rattle.snippet_grid.specs.Print as spec;
ghost use Rattle.snippet_style.specs.Stylesheet.{is_plain_sheet};
ghost use Rattle.snippet_grid.specs.Html.{AddsHtml, rows_html};
ghost use Rattle.snippet_grid.specs.Woven.{Prints, IsWoven, links_of};
ghost use Rattle.snippet_grid.specs.Weaving.{WeavesRows};
ghost use Rattle.snippet_grid.specs.Calls.{num_cells, WritesCells, cells_restyled, RestylesCells, cells_linked};
ghost use Rattle.snippet_grid.specs.Calls.{LinksCells, cells_replaced, ReplacesCells};
ghost use Rattle.snippet_style.specs.Bounds.{HasNext, IsRowNumber, IsUsize};

use crate::added_row::add_row;
use crate::cells::{Cells, RowCells};
use crate::change::{Change, change_cells};
use crate::codes::SheetCodes;
use crate::html_row::push_html_rows;
use crate::printed_row::print_rows;
use crate::put::Spare;
use crate::replace::replace_cells;
use crate::runs::Run;
use crate::styled_char::StyledChar;
use crate::words::{fits, write_char, write_word};
use snippet_style::{ElementStyle, LevelInner, Stylesheet};
use std::alloc::{AllocError, Global};
use std::marker::Model;
use std::mem;
use std::ops::Range;

/// The bytes that a printed text has room for at first, for each run, beside those of its characters: for the codes
/// before and after it, the spaces before it and a line feed.
const RUN_BYTES: usize = 16;

/// A grid of styled cells. It has no row at first.
///
/// Rows and cells are numbered from 0, and each character takes one cell. What writes asks that the number after a
/// row's and after a cell's fits in a `usize`. A write changes the cells that it names and no other; rows and cells
/// grow by unstyled spaces, as far as it reaches. A call that fails for running out of memory leaves the grid as it
/// was.
///
/// ```
/// let mut grid = StyledBuffer::new(alloc);
/// grid.puts(0, 0, "1 | ab", ElementStyle::Quotation)?;
/// grid.putc(1, 4, '^', ElementStyle::UnderlinePrimary)?;
/// // "1 | ab", a line feed, "    ^"
/// let text = grid.render(LevelInner::Error, &Stylesheet::plain())?;
/// ```
#[derive(Drop)]
pub struct StyledBuffer<'a> {
    cells: Cells<'a>,
    /// Room for what is put, and for the runs of a row that is changed.
    spare: Spare<'a>,
    fresh: Vec<Run<'a>>,
    alloc: Global,
}

impl<'a> Model for StyledBuffer<'a> {
    ghost use Rattle.std.specs.Prelude.{List};
    ghost use Rattle.snippet_style.specs.Cell.{Cell};

    ghost Value = { List (List Cell) };

    ghost view = { λ b. b.cells.rows };
}

impl<'a> StyledBuffer<'a> {
    /// A grid with no rows.
    pub fn new(alloc: Global) -> Self
        ensures empty { result ≡ [] }
    {
        StyledBuffer {
            cells: Cells::new(alloc),
            spare: Spare {
                text: String::new(alloc),
                runs: Vec::new(alloc),
            },
            fresh: Vec::new(alloc),
            alloc,
        }
    }

    /// Where the grid takes its memory, and who draws into it takes what is needed beside it.
    pub fn allocator(&self) -> Global {
        self.alloc
    }

    /// Gives its rows away, and has none then.
    pub fn take(&mut self) -> StyledBuffer<'a>
        ensures taken { result ≡ self.old }
        ensures empty { self.new ≡ [] }
    {
        let empty = StyledBuffer::new(self.alloc);
        mem::replace(self, empty)
    }

    /// Takes the rows of another grid, in the place of its own.
    pub fn set(&mut self, rows: StyledBuffer<'a>)
        ensures rows { self.new ≡ rows.entry }
    {
        drop(mem::replace(self, rows));
    }

    /// Takes all rows away. What they had room in is used again.
    pub fn clear(&mut self)
        ensures empty { self.new ≡ [] }
    {
        self.cells.clear();
    }

    /// How many rows there are.
    pub fn num_lines(&self) -> usize
        ensures count { result ≡ length self.now }
        ensures small { IsRowNumber result }
    {
        self.cells.num_rows()
    }

    /// How many cells a row has, none where there is no such row.
    pub(crate) fn width(&self, row: usize) -> usize
        ensures value { result ≡ length (row_at self.now row) }
    {
        self.cells.width(row)
    }

    /// How many runs of neighbouring cells with one role and one link are kept: as many as are
    /// needed to show the rows, at least, and at most as many as can show them. That is one for
    /// each stretch of cells with one role and one link; only unstyled, unlinked spaces may be
    /// in a run or in none. A new grid has no run. `putc`, `puts`, `append`, `replace` and
    /// `set_style` each add at most two; the functions that they call promise it of the list of
    /// runs.
    pub fn num_runs(&self) -> usize
        ensures few { result ≤ num_cells self.now }
        ensures enough { fewest_runs self.now ≤ result }
        ensures apart { result ≤ most_runs self.now }
    {
        self.cells.num_runs()
    }

    /// Writes a character at this cell of this row.
    ///
    /// # Errors
    ///
    /// There is no memory for the row or its cells.
    pub fn putc(
        &mut self,
        row: usize,
        cell: usize,
        ch: char,
        role: ElementStyle,
    ) -> Result<(), AllocError>
        requires row { HasNext row }
        requires end { HasNext cell }
        ensures ok { OnOk result
            (self.new ≡ cells_written self.old row cell (text_cells role (ch ∷ []))) }
        ensures reads { OnOk result
            (WritesCells self.old self.new row cell (text_cells role (ch ∷ []))) }
        ensures err { OnErr result (self.new ≡ self.old) }
    {
        write_char(&mut self.cells, &mut self.spare, row, cell, ch, role)
    }

    /// Writes a text in this row, from this cell on, one cell for each character. An empty text
    /// does nothing: it makes no row.
    ///
    /// # Errors
    ///
    /// There is no memory for the row or its cells.
    pub fn puts(
        &mut self,
        row: usize,
        cell: usize,
        text: &str,
        role: ElementStyle,
    ) -> Result<(), AllocError>
        requires row { 0 < length text.now → HasNext row }
        requires end { IsUsize (cell + length (chars text.now)) }
        ensures ok { OnOk result (0 < length text.now
            → self.new ≡ cells_written self.old row cell (text_cells role (chars text.now))) }
        ensures reads { OnOk result (0 < length text.now
            → WritesCells self.old self.new row cell (text_cells role (chars text.now))) }
        ensures empty { text.now ≡ [] → self.new ≡ self.old }
        ensures empty_succeeds { text.now ≡ [] → IsOk result }
        ensures err { OnErr result (self.new ≡ self.old) }
    {
        if text.is_empty() {
            return Ok(());
        }
        write_word(&mut self.cells, &mut self.spare, row, cell, text, role)
    }

    /// Adds a row of these cells, below all others.
    ///
    /// # Errors
    ///
    /// There is no memory for the row.
    pub fn add_row(&mut self, cells: &[StyledChar]) -> Result<(), AllocError>
        ensures ok { OnOk result (self.new ≡ self.old ++ map cell_of cells.now ∷ []) }
        ensures small { OnOk result (IsRowNumber (length self.old)) }
        ensures err { OnErr result (self.new ≡ self.old) }
    {
        add_row(&mut self.cells, cells)
    }

    /// Writes a text in this row, after its last cell, one cell for each character. An empty text
    /// does nothing: it makes no row.
    ///
    /// # Errors
    ///
    /// There is no memory for the row or its cells, or the row would have 2^64 cells or more.
    pub fn append(&mut self, row: usize, text: &str, role: ElementStyle) -> Result<(), AllocError>
        requires row { 0 < length text.now → HasNext row }
        ensures ok { OnOk result (0 < length text.now
            → (let end = length (row_at self.old row) in
            self.new ≡ cells_written self.old row end (text_cells role (chars text.now)))) }
        ensures reads { OnOk result (0 < length text.now
            → (let end = length (row_at self.old row) in
            WritesCells self.old self.new row end (text_cells role (chars text.now)))) }
        ensures empty { text.now ≡ [] → self.new ≡ self.old }
        ensures empty_succeeds { text.now ≡ [] → IsOk result }
        ensures err { OnErr result (self.new ≡ self.old) }
    {
        let end = self.width(row);
        if !fits(text, usize::MAX - end) {
            return Err(AllocError);
        }
        self.puts(row, end, text, role)
    }

    /// Puts a text of role `LineNumber` in place of the cells of this row from `start` to before `end`; the cells after
    /// them move. Nothing happens where `start` is not below `end`, or where the row has no such cells. The new cells
    /// belong to no link.
    ///
    /// # Errors
    ///
    /// There is no memory for the row.
    pub fn replace(
        &mut self,
        row: usize,
        start: usize,
        end: usize,
        text: &str,
    ) -> Result<(), AllocError>
        ensures ok { OnOk result
            (self.new ≡ cells_replaced self.old row start end (text_cells LineNumber (chars text.now))) }
        ensures reads { OnOk result
            (ReplacesCells self.old self.new row start end (text_cells LineNumber (chars text.now))) }
        ensures empty_succeeds { end ≤ start → IsOk result }
        ensures past_succeeds { length (row_at self.old row) < end → IsOk result }
        ensures err { OnErr result (self.new ≡ self.old) }
    {
        replace_cells(
            &mut self.cells,
            &mut self.spare,
            RowCells { row, start, end },
            text,
            ElementStyle::LineNumber,
        )
    }

    /// Gives the cell of this row and number another role, if there is such a cell, and if
    /// overwriting is allowed or its role is `NoStyle` or `Quotation`. Nothing else changes.
    ///
    /// # Errors
    ///
    /// There is no memory for the row's runs.
    pub fn set_style(
        &mut self,
        row: usize,
        cell: usize,
        style: ElementStyle,
        overwrite: bool,
    ) -> Result<(), AllocError>
        ensures ok { OnOk result
            (self.new ≡ cells_restyled self.old row cell (cell + 1) style overwrite) }
        ensures reads { OnOk result
            (RestylesCells self.old self.new row cell (cell + 1) style overwrite) }
        ensures err { OnErr result (self.new ≡ self.old) }
    {
        if cell >= self.width(row) {
            return Ok(());
        }
        self.set_style_range(row, cell, cell + 1, style, overwrite)
    }

    /// Does what `set_style` does with each cell of this row from `start` to before `end`. Cells
    /// that are not there are left out, and nothing happens where `start` is not below `end`.
    ///
    /// # Errors
    ///
    /// There is no memory for the row's runs.
    pub fn set_style_range(
        &mut self,
        row: usize,
        start: usize,
        end: usize,
        style: ElementStyle,
        overwrite: bool,
    ) -> Result<(), AllocError>
        ensures ok { OnOk result
            (self.new ≡ cells_restyled self.old row start end style overwrite) }
        ensures reads { OnOk result
            (RestylesCells self.old self.new row start end style overwrite) }
        ensures err { OnErr result (self.new ≡ self.old) }
    {
        change_cells(
            &mut self.cells,
            &mut self.spare,
            &mut self.fresh,
            RowCells { row, start, end },
            Change::Restyle(style, overwrite),
        )
    }

    /// Marks the cells of this row in this range as a link to a URL. Cells that are not there are
    /// left out, and nothing happens where the range is empty. A linked cell that is written
    /// anew is linked no more.
    ///
    /// # Errors
    ///
    /// There is no memory for the row's runs.
    pub fn link(&mut self, row: usize, cells: Range<usize>, url: &'a str) -> Result<(), AllocError>
        ensures ok { OnOk result
            (self.new ≡ cells_linked self.old row cells.start cells.end url.now) }
        ensures reads { OnOk result
            (LinksCells self.old self.new row cells.start cells.end url.now) }
        ensures err { OnErr result (self.new ≡ self.old) }
    {
        change_cells(
            &mut self.cells,
            &mut self.spare,
            &mut self.fresh,
            RowCells {
                row,
                start: cells.start,
                end: cells.end,
            },
            Change::Link(url),
        )
    }

    /// The rows, joined by line feeds, as they look under a sheet of styles in a group of this
    /// level, with the codes of their links. The characters are the same under each sheet.
    ///
    /// # Errors
    ///
    /// There is no memory for the text.
    pub fn render(&self, level: LevelInner, sheet: &Stylesheet) -> Result<String, AllocError>
        ensures prints { IfOk result (λ t. Prints sheet.now level self.now (string_bytes t)) }
        ensures only { IfOk result (λ t. (other : List ℕ)
            → Prints sheet.now level self.now other → other ≡ string_bytes t) }
        ensures woven { IfOk result (λ t.
            IsWoven sheet.now (string_bytes t) (spec.plain_text self.now) (links_of self.now)) }
        ensures plain { IfOk result (λ t. is_plain_sheet sheet.now ≡ true → links_of self.now ≡ []
            → string_bytes t ≡ encode_utf8_all (spec.plain_text self.now)) }
    {
        let codes = SheetCodes::new(sheet);
        self.render_after(String::new(self.alloc), level, &codes)
    }

    /// The text that `render` gives under the sheet of these codes, after one that is there.
    ///
    /// # Errors
    ///
    /// There is no memory for the text.
    pub fn render_after(
        &self,
        before: String,
        level: LevelInner,
        codes: &SheetCodes,
    ) -> Result<String, AllocError>
        ensures added { IfOk result (λ text. WeavesRows codes.now level self.now (string_bytes before)
            (string_bytes text)) }
    {
        let mut text = before;
        let cells = &self.cells;
        let codes_room = cells.runs.len().saturating_mul(RUN_BYTES);
        text.reserve(cells.text.len().saturating_add(codes_room))?;
        print_rows(
            text,
            cells.text.as_str(),
            &cells.runs,
            &cells.widths,
            level,
            codes,
        )
    }

    /// The rows, joined by line feeds, as HTML in a group of this level, after a text that is there: characters that
    /// HTML gives a meaning stand as escapes, each run of cells whose role has a style stands in a `<span>` of the
    /// class of that style, and in an `<a>` where it links to an address of the web or of mail. No tag stands between
    /// neighbours of one class and one address, and a row begins and ends with nothing open.
    ///
    /// # Errors
    ///
    /// There is no memory for the text.
    pub fn html_after(&self, before: String, level: LevelInner) -> Result<String, AllocError>
        ensures added { IfOk result (λ html. AddsHtml (rows_html level self.now) (string_bytes before)
            (string_bytes html)) }
    {
        let cells = &self.cells;
        push_html_rows(
            before,
            cells.text.as_str(),
            &cells.runs,
            &cells.widths,
            level,
        )
    }
}
