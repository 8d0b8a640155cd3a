//! A title in the short form.
//!
//! ```text
//! src/main.rs:1:5: error: unused: here
//! ```
ghost use Rattle.std.specs.Prelude.{◌≡◌, ◌<◌, ◌≤◌, ◌+◌, ◌++◌, All, chars, length, IfOk, OnOk, string_bytes};
ghost use Rattle.std.specs.Cow.{cow_str_bytes};
ghost use Rattle.snippet_grid.specs.Woven.{Prints};
ghost use Rattle.snippet_model.specs.Heading.{HeadingFits, heading_of_title};
ghost use Rattle.snippet_text.specs.Plain.{IsPlain};
ghost use Rattle.snippet_titles.specs.ShortParts.{rows_of};
ghost use Rattle.snippet_titles.specs.ShortRows.{short_rows};

use crate::heading::{draw_text, write_label};
use crate::row::extend_row;
use crate::style::{TitleStyle, roles_of};
use snippet_grid::{GridRow, PrintedRow, RowSink, SheetCodes, StyledBuffer};
use snippet_model::MessageOrTitle;
use snippet_model::snippet::Title;
use snippet_style::{ElementStyle, LevelInner, Stylesheet};
use snippet_text::is_plain;
use std::alloc::{AllocError, Global};
use std::marker::Model;

/// A title in the short form, before any sheet is known: it stands after a text, and its first row goes on with
/// another.
#[derive(Drop)]
pub struct ShortTitle<'a> {
    parts: ShortParts<'a>,
}

/// What a title in the short form is made of.
#[derive(Drop)]
struct ShortParts<'a> {
    /// Whether its id links to its URL.
    hyperlink: bool,
    /// What stands before it, and after its first row.
    before: String,
    after: String,
    title: &'a Title<'a>,
}

impl<'a> Model for ShortTitle<'a> {
    ghost use Rattle.std.specs.Prelude.{List};
    ghost use Rattle.snippet_model.specs.Heading.{HeadingFits, heading_of_title};
    ghost use Rattle.snippet_style.specs.Cell.{Cell};
    ghost use Rattle.snippet_titles.specs.ShortParts.{rows_of};

    ghost Value = { List (List Cell) };

    ghost view = { λ s. rows_of s.parts };

    ghost invariant = { λ s. HeadingFits (heading_of_title s.parts.title.now) };
}

impl<'a> ShortTitle<'a> {
    /// A title between these texts.
    pub fn new(hyperlink: bool, before: String, after: String, title: &'a Title<'a>) -> Self
        requires fits { HeadingFits (heading_of_title title.now) }
        ensures rows { result ≡ short_rows hyperlink (chars (string_bytes before))
            (chars (string_bytes after)) (heading_of_title title.now) }
    {
        ShortTitle {
            parts: ShortParts {
                hyperlink,
                before,
                after,
                title,
            },
        }
    }

    /// Its text under a sheet, in a group of this level. A title of one row is printed as it is put together; any other
    /// is drawn in a grid.
    ///
    /// # Errors
    ///
    /// There is no memory for the text.
    pub fn render(
        &self,
        alloc: Global,
        level: LevelInner,
        sheet: &Stylesheet,
    ) -> Result<String, AllocError>
        ensures prints { IfOk result (λ text. Prints sheet.now level self.now (string_bytes text)) }
    {
        let parts = &self.parts;
        let text = parts.title.text.as_str();
        if !text.is_empty() && is_plain(text) {
            return row_text(alloc, parts, level, sheet);
        }
        let mut buffer = StyledBuffer::new(alloc);
        draw_short(
            &mut buffer,
            parts.hyperlink,
            parts.before.as_str(),
            parts.after.as_str(),
            parts.title,
        )?;
        buffer.render(level, sheet)
    }
}

/// The text of a title whose own is printable ASCII: it is shown as it is, in one row.
fn row_text(
    alloc: Global,
    parts: &ShortParts<'_>,
    level: LevelInner,
    sheet: &Stylesheet,
) -> Result<String, AllocError>
    requires plain { All IsPlain (cow_str_bytes parts.now.title.now.text) }
    requires some { 0 < length (cow_str_bytes parts.now.title.now.text) }
    ensures prints { IfOk result (λ text. Prints sheet.now level (rows_of parts.now) (string_bytes text)) }
{
    let title = parts.title;
    let roles = roles_of(&TitleStyle::Short, title.level.kind, title.allows_styling);
    let codes = SheetCodes::new(sheet);
    let room = String::with_capacity(alloc, room_for(parts))?;
    let mut row = PrintedRow::after(room, &codes, level);
    row.add_word(parts.before.as_str(), ElementStyle::LineAndColumn)?;
    write_label(
        alloc,
        &mut row,
        parts.hyperlink,
        roles,
        &title.level,
        title.id(),
    )?;
    row.add_word(title.text.as_str(), roles.text)?;
    row.add_word(parts.after.as_str(), ElementStyle::NoStyle)?;
    row.end()
}

/// The bytes that a row has room for at first, beside its texts: for a level's name, an id and codes.
const ROW_BYTES: usize = 64;

/// The bytes that the row of a title has room for at first.
fn room_for(parts: &ShortParts<'_>) -> usize
    ensures most { result ≤ length (string_bytes parts.now.before) + length (string_bytes parts.now.after)
        + length (cow_str_bytes parts.now.title.now.text) + 64 }
{
    let texts = parts.before.len().saturating_add(parts.after.len());
    texts
        .saturating_add(parts.title.text.len())
        .saturating_add(ROW_BYTES)
}

/// Draws a title in the short form below all that stands in the grid: after a text, and its first row goes on with
/// another.
fn draw_short<'a>(
    buffer: &mut StyledBuffer<'a>,
    hyperlink: bool,
    before: &str,
    after: &str,
    heading: &'a dyn MessageOrTitle,
) -> Result<(), AllocError>
    requires fits { HeadingFits (heading_of heading.now) }
    ensures rows { OnOk result (buffer.new ≡ buffer.old
        ++ short_rows hyperlink (chars before.now) (chars after.now) (heading_of heading.now)) }
{
    let alloc = buffer.allocator();
    let row = buffer.num_lines();
    let roles = roles_of(
        &TitleStyle::Short,
        heading.level().kind,
        heading.allows_styling(),
    );
    let mut first = GridRow::of(buffer.take(), row);
    first.add_word(before, ElementStyle::LineAndColumn)?;
    write_label(
        alloc,
        &mut first,
        hyperlink,
        roles,
        heading.level(),
        heading.id(),
    )?;
    let drawn = first.end()?;
    buffer.set(drawn);
    draw_text(buffer, row, &TitleStyle::Short, roles.text, heading)?;
    extend_row(buffer, row, after, ElementStyle::NoStyle)
}
