//! A row that is printed while it is written, for one that nothing changes any more: it needs no grid.
ghost use Rattle.std.specs.Prelude.{◌≡◌, ℕ, List, [], IfOk, OnOk, chars, string_bytes};
ghost use Rattle.std.specs.Option.{option_copied};
ghost use Rattle.snippet_grid.specs.OpenRow.{AddsCells, IsBegun, IsPrinted, cells_alike};
ghost use Rattle.snippet_grid.specs.Runs.{IsGrid, grid_shown};
ghost use Rattle.snippet_grid.specs.Weaving.{WeavesRow, WeavesRows};
ghost use Rattle.snippet_style.specs.Cell.{Cell, text_cells};

use crate::codes::{SPACE, SheetCodes, WovenLook, place_of};
use crate::row_runs::{feed, write_row};
use crate::row_sink::RowSink;
use crate::runs::Run;
use crate::weave::{end_row, weave_gap, weave_stretch};
use snippet_style::{ElementStyle, LevelInner};
use std::alloc::AllocError;

/// A row of which the first cells are printed.
#[derive(Drop)]
pub struct PrintedRow<'c, 'a> {
    /// What stood there before, and what is printed of the row.
    text: String,
    /// The codes of the sheet that it is printed under.
    codes: &'c SheetCodes,
    /// The level of its group.
    level: LevelInner,
    /// How the last cell looks: its style is open, and its link, if it has one.
    last: WovenLook<'a>,
}

impl<'c, 'a> PrintedRow<'c, 'a> {
    /// A row after a text, of which no cell is printed.
    #[inline(always)]
    pub fn after(text: String, codes: &'c SheetCodes, level: LevelInner) -> PrintedRow<'c, 'a>
        ensures sheet { result.codes.now ≡ codes.now }
        ensures level { result.level ≡ level }
        ensures none { IsPrinted [] (string_bytes text) result }
    {
        PrintedRow {
            text,
            codes,
            level,
            last: SPACE,
        }
    }

    /// Adds a text in a role to the row, whose last cell links to nothing. Most texts are such: what ends and begins
    /// links is left out, so that callers stay small enough for all of it to be inlined.
    #[inline(always)]
    fn add_unlinked(&mut self, word: &str, role: ElementStyle) -> Result<(), AllocError>
        requires unlinked { self.old.last.link ≡ None }
        ensures added { OnOk result (AddsCells self.old self.new (text_cells role (chars word.now))) }
    {
        if word.is_empty() {
            return Ok(());
        }
        let last = WovenLook {
            place: self.last.place,
            link: None,
        };
        let next = WovenLook {
            place: place_of(self.level, role),
            link: None,
        };
        weave_stretch(&mut self.text, word, self.codes, last, next)?;
        self.last = next;
        Ok(())
    }

    /// Adds a text in a role to the row, which links to an address, if there is one.
    #[inline(never)]
    fn add_stretch(
        &mut self,
        word: &str,
        role: ElementStyle,
        link: Option<&'a str>,
    ) -> Result<(), AllocError>
        ensures added { OnOk result (AddsCells self.old self.new
            (cells_alike role (option_copied link.entry) (chars word.now))) }
    {
        if word.is_empty() {
            return Ok(());
        }
        let next = WovenLook {
            place: place_of(self.level, role),
            link,
        };
        weave_stretch(&mut self.text, word, self.codes, self.last, next)?;
        self.last = next;
        Ok(())
    }

    /// Ends the row, and begins another one, whose line feed is to come.
    #[inline(always)]
    fn close(&mut self) -> Result<(), AllocError>
        ensures begun { OnOk result (IsBegun self.old.codes.now self.old.level self.new) }
        ensures closed { OnOk result ((cells : List Cell) (old : List ℕ) → IsPrinted cells old self.old
            → WeavesRow self.old.codes.now self.old.level cells old (string_bytes self.new.text)) }
    {
        end_row(&mut self.text, self.codes, self.last)?;
        self.last = SPACE;
        Ok(())
    }
}

/// Adds the rows to a text, one below another.
pub(crate) fn print_rows(
    before: String,
    text: &str,
    runs: &[Run<'_>],
    widths: &[usize],
    level: LevelInner,
    codes: &SheetCodes,
) -> Result<String, AllocError>
    requires grid { IsGrid text.now runs.now widths.now }
    ensures text { IfOk result (λ out. WeavesRows codes.now level (grid_shown text.now runs.now widths.now)
        (string_bytes before) (string_bytes out)) }
{
    let mut line = PrintedRow {
        text: before,
        codes,
        level,
        last: SPACE,
    };
    let mut from = 0;
    for row in 0..widths.len() {
        feed(&mut line.text, row)?;
        from = write_row(&mut line, text, runs, widths, from, row)?;
        line.close()?;
    }
    Ok(line.text)
}

impl<'c, 'a> RowSink<'a> for PrintedRow<'c, 'a> {
    ghost use Rattle.std.specs.Prelude.{ℕ, List, [], string_bytes};
    ghost use Rattle.snippet_grid.specs.OpenRow.{AddsCells, IsPrinted};
    ghost use Rattle.snippet_grid.specs.Weaving.{WeavesRows};

    type Ended = String;

    ghost adds = { AddsCells };

    ghost gains = { λ row text rows. (old : List ℕ) → IsPrinted [] old row
        → WeavesRows row.codes.now row.level rows old (string_bytes text) };

    #[inline(always)]
    fn add_spaces(&mut self, count: usize) -> Result<(), AllocError> {
        if count == 0 {
            return Ok(());
        }
        weave_gap(&mut self.text, count, self.codes, self.last)?;
        self.last = SPACE;
        Ok(())
    }

    #[inline(always)]
    fn add_word(&mut self, word: &str, role: ElementStyle) -> Result<(), AllocError> {
        if self.last.link.is_some() {
            return self.add_stretch(word, role, None);
        }
        self.add_unlinked(word, role)
    }

    #[inline(always)]
    fn add_link(&mut self, word: &str, role: ElementStyle, url: &'a str) -> Result<(), AllocError> {
        self.add_stretch(word, role, Some(url))
    }

    #[inline(always)]
    fn end(self) -> Result<String, AllocError> {
        let mut row = self;
        row.close()?;
        Ok(row.text)
    }
}
