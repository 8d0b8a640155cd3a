//! A row of HTML that is written from left to right, and the rows of a grid as HTML.
ghost use Rattle.std.specs.Prelude.{ℕ, List, IfOk, OnOk, chars, string_bytes};
ghost use Rattle.std.specs.Option.{option_copied};
ghost use Rattle.snippet_grid.specs.Html.{AddsHtml, row_html, rows_html};
ghost use Rattle.snippet_grid.specs.OpenHtml.{AddsHtmlCells, IsHtml, IsHtmlBegun};
ghost use Rattle.snippet_grid.specs.OpenRow.{cells_alike};
ghost use Rattle.snippet_grid.specs.Runs.{IsGrid, grid_shown};
ghost use Rattle.snippet_style.specs.Cell.{Cell};

use crate::html::{PLAIN, TagLook, change_look, end_look, look_of, push_escaped};
use crate::row_runs::{feed, write_row};
use crate::row_sink::RowSink;
use crate::runs::Run;
use crate::spaces::push_spaces;
use snippet_style::{ElementStyle, LevelInner};
use std::alloc::AllocError;

/// A row of HTML of which the first cells are printed.
#[derive(Drop)]
struct HtmlRow<'a> {
    /// What stood there before, and what is printed of the row.
    text: String,
    /// The level of its group.
    level: LevelInner,
    /// What the last cell stands in: the tags that are open.
    last: TagLook<'a>,
}

impl<'a> HtmlRow<'a> {
    /// Adds a text in a role to the row, which links to an address, if there is one.
    fn add_stretch(
        &mut self,
        word: &str,
        role: ElementStyle,
        link: Option<&'a str>,
    ) -> Result<(), AllocError>
        ensures added { OnOk result (AddsHtmlCells self.old self.new
            (cells_alike role (option_copied link.entry) (chars word.now))) }
    {
        if word.is_empty() {
            return Ok(());
        }
        let next = look_of(self.level, role, link);
        change_look(&mut self.text, self.last, next)?;
        push_escaped(&mut self.text, word)?;
        self.last = next;
        Ok(())
    }

    /// Ends the row, and begins another one, whose line feed is to come.
    fn close(&mut self) -> Result<(), AllocError>
        ensures begun { OnOk result (IsHtmlBegun self.old.level self.new) }
        ensures closed { OnOk result ((cells : List Cell) (old : List ℕ) → IsHtml cells old self.old
            → AddsHtml (row_html self.old.level cells) old (string_bytes self.new.text)) }
    {
        end_look(&mut self.text, self.last)?;
        self.last = PLAIN;
        Ok(())
    }
}

impl<'a> RowSink<'a> for HtmlRow<'a> {
    ghost use Rattle.std.specs.Prelude.{ℕ, List, [], string_bytes};
    ghost use Rattle.snippet_grid.specs.Html.{AddsHtml, rows_html};
    ghost use Rattle.snippet_grid.specs.OpenHtml.{AddsHtmlCells, IsHtml};

    type Ended = String;

    ghost adds = { AddsHtmlCells };

    ghost gains = { λ row text rows. (old : List ℕ) → IsHtml [] old row
        → AddsHtml (rows_html row.level rows) old (string_bytes text) };

    fn add_spaces(&mut self, count: usize) -> Result<(), AllocError> {
        if count == 0 {
            return Ok(());
        }
        change_look(&mut self.text, self.last, PLAIN)?;
        push_spaces(&mut self.text, count)?;
        self.last = PLAIN;
        Ok(())
    }

    fn add_word(&mut self, word: &str, role: ElementStyle) -> Result<(), AllocError> {
        self.add_stretch(word, role, None)
    }

    fn add_link(&mut self, word: &str, role: ElementStyle, url: &'a str) -> Result<(), AllocError> {
        self.add_stretch(word, role, Some(url))
    }

    fn end(self) -> Result<String, AllocError> {
        let mut row = self;
        row.close()?;
        Ok(row.text)
    }
}

/// Adds the rows to a text as HTML, one below another.
pub(crate) fn push_html_rows(
    before: String,
    text: &str,
    runs: &[Run<'_>],
    widths: &[usize],
    level: LevelInner,
) -> Result<String, AllocError>
    requires grid { IsGrid text.now runs.now widths.now }
    ensures added { IfOk result (λ html. AddsHtml (rows_html level (grid_shown text.now runs.now widths.now))
        (string_bytes before) (string_bytes html)) }
{
    let mut line = HtmlRow {
        text: before,
        level,
        last: PLAIN,
    };
    let mut from = 0;
    for row in 0..widths.len() {
        feed(&mut line.text, row)?;
        from = write_row(&mut line, text, runs, widths, from, row)?;
        line.close()?;
    }
    Ok(line.text)
}
