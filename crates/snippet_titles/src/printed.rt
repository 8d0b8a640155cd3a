//! A title or message that is printed while it is written: it stands in one row, which nothing changes any more.
ghost use Rattle.std.specs.Prelude.{◌≡◌, true, ℕ, List, [], IfOk, string_bytes};
ghost use Rattle.snippet_grid.specs.OpenRow.{IsPrinted};
ghost use Rattle.snippet_grid.specs.Weaving.{WeavesRows};
ghost use Rattle.snippet_titles.specs.HeadingRows.{heading_rows};
ghost use Rattle.snippet_titles.specs.PrintedHeading.{IsPlainHeading};

use crate::heading::write_label;
use crate::row::write_sign;
use crate::style::{TitleStyle, roles_of};
use snippet_grid::{PrintedRow, RowSink};
use snippet_model::MessageOrTitle;
use snippet_text::is_plain;
use std::alloc::{AllocError, Global};

/// Whether a heading's text is of printable ASCII, so that it stands in one row.
pub fn is_plain_heading(heading: &dyn MessageOrTitle) -> bool
    ensures yes { result ≡ true → IsPlainHeading (heading_of heading.now) }
{
    let text = heading.text();
    !text.is_empty() && is_plain(text)
}

/// Prints a title or message in a row that begins there: its one row, where its text is of printable ASCII. Where links
/// are on, the text of its id links to its URL.
///
/// # Errors
///
/// There is no memory for the text.
#[inline(always)]
pub fn print_heading<'c, 'a>(
    alloc: Global,
    begun: PrintedRow<'c, 'a>,
    hyperlink: bool,
    style: TitleStyle,
    heading: &'a dyn MessageOrTitle,
) -> Result<String, AllocError>
    ensures rows { IfOk result (λ text. (old : List ℕ) → IsPlainHeading (heading_of heading.now)
        → IsPrinted [] old begun.entry → WeavesRows begun.entry.codes.now begun.entry.level
        (heading_rows hyperlink style (heading_of heading.now)) old (string_bytes text)) }
{
    let roles = roles_of(&style, heading.level().kind, heading.allows_styling());
    let mut row = begun;
    write_sign(&mut row, &style)?;
    write_label(
        alloc,
        &mut row,
        hyperlink,
        roles,
        heading.level(),
        heading.id(),
    )?;
    row.add_word(heading.text(), roles.text)?;
    row.end()
}
