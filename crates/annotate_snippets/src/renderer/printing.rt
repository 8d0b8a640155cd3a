//! The text of a group under one sheet. Rows that nothing changes any more are printed, and only those below them stand
//! in a grid; so a title or message of plain text needs none.
//!
//! ```text
//! error: unused                printed while it is written
//!   |                          drawn in a grid, and printed before the message
//! 1 | let x = 1;
//!   |     ^
//!   |
//!   = note: `x` isn't read     printed while it is written
//! ```
ghost use Rattle.std.specs.Prelude.{◌≡◌, ◌++◌, [], All, Bool, IfOk, List, OnOk, false, map, string_bytes};
ghost use Rattle.std.specs.Prelude.{true, ℕ};
ghost use Rattle.std.specs.List.{flat_map};
ghost use Rattle.std.specs.Option.{option_copied};
ghost use Rattle.snippet_grid.specs.OpenRow.{IsPrinted};
ghost use Rattle.snippet_grid.specs.Weaving.{WeavesRows};
ghost use Rattle.snippet_model.specs.Fits.{MessageFits};
ghost use Rattle.snippet_model.specs.Heading.{heading_of_message, heading_of_title};
ghost use Rattle.snippet_style.specs.Cell.{Cell};
ghost use Rattle.snippet_titles.specs.HeadingRows.{heading_rows};
ghost use Rattle.snippet_titles.specs.PrintedHeading.{IsPlainHeading, title_rows};
ghost use Rattle.annotate_snippets.specs.ElementContext as spec;
ghost use Rattle.annotate_snippets.specs.ElementContext.{drawn_elements};
ghost use Rattle.annotate_snippets.specs.ElementRoom.{HasRoomFor};
ghost use Rattle.annotate_snippets.specs.GraphicForm.{group_page};
ghost use Rattle.annotate_snippets.specs.Page.{cells_of, group_rows};
ghost use Rattle.annotate_snippets.specs.PreparedReport.{IsElementPrepared, IsGroupPrepared, element_of};
ghost use Rattle.annotate_snippets.specs.Printing.{IsPrinting, rows_of_elements};
ghost use Rattle.annotate_snippets.specs.RowsWithoutSource.{title_part};

use crate::renderer::Renderer;
use crate::renderer::element_context::{ContextWalk, GroupContext, next_of};
use crate::renderer::elements::{draw_element, draw_message, message_style};
use crate::renderer::page::fed;
use crate::renderer::preprocess::{PreparedElement, PreparedGroup};
use crate::renderer::title::{draw_below_title, draw_title};
use snippet_grid::{PrintedRow, SheetCodes, StyledBuffer};
use snippet_model::snippet::{Message, Title};
use snippet_style::LevelInner;
use snippet_titles::{TitleStyle, is_plain_heading, print_heading};
use std::alloc::{AllocError, Global};
use std::collections::VecDeque;
use std::mem;

/// A group that is being printed.
#[derive(Drop)]
pub struct Printing<'a> {
    /// The level that it is printed in.
    pub level: LevelInner,
    /// What stood there before it, and those of its rows that are printed.
    pub text: String,
    /// Whether one is printed.
    pub begun: bool,
    /// The rows below these.
    pub buffer: StyledBuffer<'a>,
}

/// Prints a group after what stands there before it, of which nothing is printed yet.
///
/// # Errors
///
/// There is no memory for the rows or for the text.
pub fn print_group<'a>(
    alloc: Global,
    page: &mut Printing<'a>,
    codes: &SheetCodes,
    renderer: &Renderer,
    around: &GroupContext<'_>,
    group: PreparedGroup<'a>,
) -> Result<(), AllocError>
    requires unbegun { page.old.begun ≡ false }
    requires empty { page.old.buffer ≡ [] }
    requires prepared { IsGroupPrepared group }
    requires room { All (λ e. HasRoomFor renderer.now around.now.layout (element_of e)) group.elements.items }
    ensures empty { OnOk result (page.new.buffer ≡ []) }
    ensures printed { OnOk result (WeavesRows codes.now page.old.level (group_rows (group_page renderer.now
        around.now.layout around.now.place (option_copied around.now.file) group.entry.group.now))
        (string_bytes page.old.text) (string_bytes page.new.text)) }
{
    add_title(alloc, page, codes, renderer, around, &group)?;
    add_elements(alloc, page, codes, renderer, around, group.elements)
}

/// Adds a group's title, if it has one, and what stands below that. A title of plain text is printed.
fn add_title<'a>(
    alloc: Global,
    page: &mut Printing<'a>,
    codes: &SheetCodes,
    renderer: &Renderer,
    around: &GroupContext<'_>,
    group: &PreparedGroup<'a>,
) -> Result<(), AllocError>
    requires unbegun { page.old.begun ≡ false }
    requires empty { page.old.buffer ≡ [] }
    requires prepared { IsGroupPrepared group.now }
    ensures level { OnOk result (page.new.level ≡ page.old.level) }
    ensures printed { OnOk result (IsPrinting codes.now page.old.level (string_bytes page.old.text) page.new
        (title_part renderer.now around.now.layout around.now.place (spec.next_of (drawn_elements group.now.group.now))
        group.now.group.now.title)) }
{
    let Some(title) = &group.group.title else {
        return Ok(());
    };
    let next = next_of(&group.elements);
    if is_plain_title(title) {
        add_plain_title(alloc, page, codes, renderer.hyperlink, title)?;
        draw_below_title(&mut page.buffer, around, next, title)
    } else {
        draw_title(&mut page.buffer, renderer, around, next, title)
    }
}

/// Whether a title stands in one row.
fn is_plain_title(title: &Title<'_>) -> bool
    ensures yes { result ≡ true → IsPlainHeading (heading_of_title title.now) }
{
    is_plain_heading(title)
}

/// Prints the one row of a title below all rows of its group.
fn add_plain_title<'a>(
    alloc: Global,
    page: &mut Printing<'_>,
    codes: &SheetCodes,
    hyperlink: bool,
    title: &'a Title<'a>,
) -> Result<(), AllocError>
    ensures level { OnOk result (page.new.level ≡ page.old.level) }
    ensures printed { OnOk result ((old : List ℕ) (rows : List (List Cell))
        → IsPlainHeading (heading_of_title title.now)
        → IsPrinting codes.now page.old.level old page.old rows
        → IsPrinting codes.now page.old.level old page.new (rows ++ title_rows hyperlink title.now)) }
{
    flush(alloc, page, codes)?;
    let text = mem::replace(&mut page.text, String::new(alloc));
    let lead = fed(text, !page.begun)?;
    let row = PrintedRow::after(lead, codes, page.level);
    page.text = print_title(alloc, row, hyperlink, title)?;
    page.begun = true;
    Ok(())
}

/// The text that ends with the one row of a title, which begins there.
fn print_title<'a>(
    alloc: Global,
    row: PrintedRow<'_, 'a>,
    hyperlink: bool,
    title: &'a Title<'a>,
) -> Result<String, AllocError>
    ensures rows { IfOk result (λ text. (old : List ℕ) → IsPlainHeading (heading_of_title title.now)
        → IsPrinted [] old row.entry → WeavesRows row.entry.codes.now row.entry.level (title_rows hyperlink title.now)
        old (string_bytes text)) }
{
    print_heading(alloc, row, hyperlink, TitleStyle::Title, title)
}

/// Adds a group's elements below all its rows, and prints what isn't printed then.
fn add_elements<'a>(
    alloc: Global,
    page: &mut Printing<'a>,
    codes: &SheetCodes,
    renderer: &Renderer,
    group: &GroupContext<'_>,
    elements: Vec<PreparedElement<'a>>,
) -> Result<(), AllocError>
    requires prepared { All IsElementPrepared elements.items }
    requires room { All (λ e. HasRoomFor renderer.now group.now.layout (element_of e)) elements.items }
    ensures empty { OnOk result (page.new.buffer ≡ []) }
    ensures printed { OnOk result ((old : List ℕ) (above : List (List Cell))
        → IsPrinting codes.now page.old.level old page.old above
        → WeavesRows codes.now page.old.level (above ++ flat_map cells_of (rows_of_elements renderer.now
        group.now.layout group.now.place (option_copied group.now.file) (map element_of elements.entry.items))) old
        (string_bytes page.new.text)) }
{
    let mut walk = ContextWalk::new();
    let mut left = VecDeque::from(elements);
    while let Some(element) = left.pop_front() {
        let place = walk.pass(group, &element, left.front());
        if let PreparedElement::Message(message) = element {
            let style = message_style(group.layout, place);
            add_message(alloc, page, codes, renderer.hyperlink, style, message)?;
        } else {
            draw_element(&mut page.buffer, renderer, group.layout, place, element)?;
        }
    }
    flush(alloc, page, codes)?;
    Ok(())
}

/// Adds a message below all rows of its group. One of plain text is printed.
fn add_message<'a>(
    alloc: Global,
    page: &mut Printing<'a>,
    codes: &SheetCodes,
    hyperlink: bool,
    style: TitleStyle,
    message: &'a Message<'a>,
) -> Result<(), AllocError>
    requires fits { MessageFits message.now }
    ensures level { OnOk result (page.new.level ≡ page.old.level) }
    ensures printed { OnOk result ((old : List ℕ) (rows : List (List Cell))
        → IsPrinting codes.now page.old.level old page.old rows
        → IsPrinting codes.now page.old.level old page.new
        (rows ++ heading_rows hyperlink style (heading_of_message message.now))) }
{
    if is_plain_message(message) {
        add_plain_message(alloc, page, codes, hyperlink, style, message)
    } else {
        draw_message(&mut page.buffer, hyperlink, style, message)
    }
}

/// Whether a message stands in one row.
fn is_plain_message(message: &Message<'_>) -> bool
    ensures yes { result ≡ true → IsPlainHeading (heading_of_message message.now) }
{
    is_plain_heading(message)
}

/// Prints the one row of a message below all rows of its group.
fn add_plain_message<'a>(
    alloc: Global,
    page: &mut Printing<'_>,
    codes: &SheetCodes,
    hyperlink: bool,
    style: TitleStyle,
    message: &'a Message<'a>,
) -> Result<(), AllocError>
    ensures level { OnOk result (page.new.level ≡ page.old.level) }
    ensures printed { OnOk result ((old : List ℕ) (rows : List (List Cell))
        → IsPlainHeading (heading_of_message message.now)
        → IsPrinting codes.now page.old.level old page.old rows
        → IsPrinting codes.now page.old.level old page.new
        (rows ++ heading_rows hyperlink style (heading_of_message message.now))) }
{
    flush(alloc, page, codes)?;
    let text = mem::replace(&mut page.text, String::new(alloc));
    let lead = fed(text, !page.begun)?;
    let row = PrintedRow::after(lead, codes, page.level);
    page.text = print_message(alloc, row, hyperlink, style, message)?;
    page.begun = true;
    Ok(())
}

/// The text that ends with the one row of a message, which begins there.
fn print_message<'a>(
    alloc: Global,
    row: PrintedRow<'_, 'a>,
    hyperlink: bool,
    style: TitleStyle,
    message: &'a Message<'a>,
) -> Result<String, AllocError>
    ensures rows { IfOk result (λ text. (old : List ℕ) → IsPlainHeading (heading_of_message message.now)
        → IsPrinted [] old row.entry → WeavesRows row.entry.codes.now row.entry.level
        (heading_rows hyperlink style (heading_of_message message.now)) old (string_bytes text)) }
{
    print_heading(alloc, row, hyperlink, style, message)
}

/// Prints the rows of a group that stand in its grid, if there are any.
#[inline(always)]
fn flush(alloc: Global, page: &mut Printing<'_>, codes: &SheetCodes) -> Result<(), AllocError>
    ensures level { OnOk result (page.new.level ≡ page.old.level) }
    ensures empty { OnOk result (page.new.buffer ≡ []) }
    ensures printed { OnOk result ((old : List ℕ) (rows : List (List Cell))
        → IsPrinting codes.now page.old.level old page.old rows
        → IsPrinting codes.now page.old.level old page.new rows) }
{
    if page.buffer.num_lines() == 0 {
        return Ok(());
    }
    let text = mem::replace(&mut page.text, String::new(alloc));
    let lead = fed(text, !page.begun)?;
    page.text = page.buffer.render_after(lead, page.level, codes)?;
    page.buffer.clear();
    page.begun = true;
    Ok(())
}
