//! The rows of a title or message.
ghost use Rattle.std.specs.Prelude.{◌≡◌, ℕ, ◌≤◌, ◌++◌, ◌==◌, List, [], length, map, take, drop, chars, All};
ghost use Rattle.std.specs.Prelude.{OnOk, IfOk, IfSome};
ghost use Rattle.std.specs.List.{slice_index_or, slice_split};
ghost use Rattle.std.specs.Cow.{cow_str_bytes};
ghost use Rattle.std.specs.Option.{option_copied};
ghost use Rattle.snippet_model.specs.Fits.{IdFits};
ghost use Rattle.snippet_model.specs.Heading.{Heading, HeadingFits};
ghost use Rattle.snippet_model.specs.Heading as model;
ghost use Rattle.snippet_titles.specs.LastRow.{IsAtEnd};
ghost use Rattle.snippet_grid.specs.GridRow.{appended};
ghost use Rattle.snippet_titles.specs.HeadingRows.{shown_text, heading_rows, indent_cells, label_cells};
ghost use Rattle.snippet_titles.specs.HeadingRows.{without_empty_end};
ghost use Rattle.snippet_titles.specs.HeadingRows as spec;
ghost use Rattle.snippet_titles.specs.ShownHeading.{IsFreeButText, heading_texts};
ghost use Rattle.snippet_titles.specs.LinkedId.{LinksId};
ghost use Rattle.snippet_grid.specs.Grid.{row_at};
ghost use Rattle.snippet_style.specs.Cell.{Cell, text_cells};
ghost use Rattle.snippet_grid.specs.Print.{row_text};
ghost use Rattle.snippet_text.specs.Normalized.{norm};
ghost use Rattle.snippet_text.specs.Width.{width_of};
ghost use Rattle.snippet_model.specs.Level.{name_of};
ghost use Rattle.snippet_style.specs.Bounds.{HasNext, IsAddable, IsColumn, IsRowNumber, IsTextWidth};

use crate::id::{is_set, write_id};
use crate::row::{draw_indent, extend_row, write_sign};
use crate::style::{HeadingRoles, TitleStyle, roles_of};
use snippet_grid::{GridRow, RowSink, StyledBuffer};
use snippet_model::MessageOrTitle;
use snippet_model::level::{Level, LevelName};
use snippet_model::snippet::Id;
use snippet_style::ElementStyle;
use snippet_text::{CowStr, is_plain, normalized, str_width};
use std::alloc::{AllocError, Global};

/// Draws a title or message below all that stands in the grid. Further lines of its text stand below the first. Where
/// links are on, the text of its id links to its URL.
///
///     error[E0308]: mismatched types
///                   in the arms of a match
///
pub fn draw_heading<'a>(
    buffer: &mut StyledBuffer<'a>,
    hyperlink: bool,
    style: TitleStyle,
    heading: &'a dyn MessageOrTitle,
) -> Result<(), AllocError>
    requires fits { HeadingFits (heading_of heading.now) }
    ensures rows { OnOk result (buffer.new ≡ buffer.old ++ heading_rows hyperlink style (heading_of heading.now)) }
    // What the rows that are added show.
    ensures texts { OnOk result ((k : ℕ) → row_text (row_at (drop (length buffer.old) buffer.new) k)
        ≡ slice_index_or (heading_texts style (heading_of heading.now)) k []) }
    ensures free { OnOk result (All (IsFreeButText (heading_of heading.now)) (drop (length buffer.old) buffer.new)) }
    ensures links { OnOk result (LinksId hyperlink style (heading_of heading.now)
        (drop (length buffer.old) buffer.new)) }
{
    let alloc = buffer.allocator();
    let row = buffer.num_lines();
    let roles = roles_of(&style, heading.level().kind, heading.allows_styling());
    let mut first = GridRow::of(buffer.take(), row);
    write_sign(&mut first, &style)?;
    write_label(
        alloc,
        &mut first,
        hyperlink,
        roles,
        heading.level(),
        heading.id(),
    )?;
    let drawn = first.end()?;
    buffer.set(drawn);
    draw_text(buffer, row, &style, roles.text, heading)
}

/// Adds to a row what stands in it before a heading's text.
///
///     error[E0308]:
///
#[inline(always)]
pub(crate) fn write_label<'a, S: RowSink<'a>>(
    alloc: Global,
    row: &mut S,
    hyperlink: bool,
    roles: HeadingRoles,
    level: &Level<'_>,
    id: Option<&'a Id<'a>>,
) -> Result<(), AllocError>
    ensures added { OnOk result ((start : S) (cells : List Cell) (heading : Heading) → level.now ≡ heading.level
        → option_copied id.entry ≡ heading.id → S.adds start row.old cells
        → S.adds start row.new (cells ++ label_cells hyperlink roles heading)) }
{
    let hidden = is_hidden(level);
    let name = shown_name(alloc, level)?;
    row.add_word(name.as_str(), roles.label)?;
    write_id(alloc, row, hyperlink, hidden, roles.label, id)?;
    row.add_word(colon(hidden, id), roles.colon)
}

/// A level's name as it is drawn, which is empty where it isn't shown.
pub fn shown_name<'r>(alloc: Global, level: &'r Level<'_>) -> Result<CowStr<'r>, AllocError>
    ensures value { IfOk result (λ name. chars (cow_str_bytes name) ≡ norm (chars (name_of level.now))) }
{
    match &level.name {
        LevelName::Own(name) => normalized(alloc, name.as_str()),
        // Nothing in the name of a kind is listed.
        LevelName::Standard => Ok(CowStr::Borrowed(level.as_str())),
        LevelName::Hidden => Ok(CowStr::Borrowed("")),
    }
}

/// Whether a level's name isn't shown.
pub fn is_hidden(level: &Level) -> bool
    ensures value { result ≡ model.is_hidden level.now.name }
{
    matches!(level.name, LevelName::Hidden)
}

/// What stands between the label and the text: nothing where the name is hidden and no id is set.
pub fn colon(hidden: bool, id: Option<&Id>) -> &'static str
    ensures value { chars result.now ≡ spec.colon_of hidden (option_copied id.entry) }
    ensures short { length result.now ≤ 2 }
{
    if hidden && !is_set(id) { "" } else { ": " }
}

/// The columns of what stands before a heading's text: its level's name, its id, a colon and a space.
pub fn label_width(heading: &dyn MessageOrTitle) -> usize
    requires fits { HeadingFits (heading_of heading.now) }
    ensures value { result ≡ spec.label_width (heading_of heading.now) }
    ensures small { IsColumn result }
{
    let hidden = is_hidden(heading.level());
    let colon = colon(hidden, heading.id());
    str_width(heading.level().as_str()) + id_width(hidden, heading.id()) + str_width(colon)
}

/// The columns of an id, none where it has no text.
fn id_width(hidden: bool, id: Option<&Id>) -> usize
    requires fits { IfSome (option_copied id) IdFits }
    ensures value { result ≡ width_of (spec.id_text hidden (option_copied id.entry)) }
    ensures small { IsTextWidth result }
{
    let Some(id) = id else {
        return 0;
    };
    match &id.id {
        Some(text) if hidden => str_width(text.as_str()),
        Some(text) => str_width(text.as_str()) + 2,
        None => 0,
    }
}

/// A heading's text as it is drawn: a trusted one as it is, any other normalised.
fn text_of(alloc: Global, heading: &dyn MessageOrTitle) -> Result<CowStr<'_>, AllocError>
    ensures value { IfOk result (λ text. chars (cow_str_bytes text) ≡ shown_text (heading_of heading.now)) }
{
    if heading.allows_styling() {
        Ok(CowStr::Borrowed(heading.text()))
    } else {
        normalized(alloc, heading.text())
    }
}

/// Draws a heading's text after the cells of the grid's last row; each further line of it stands in a row of its own,
/// below a label of its width.
#[inline(always)]
pub(crate) fn draw_text(
    buffer: &mut StyledBuffer,
    row: usize,
    style: &TitleStyle,
    role: ElementStyle,
    heading: &dyn MessageOrTitle,
) -> Result<(), AllocError>
    requires row { IsRowNumber row }
    requires last { IsAtEnd row buffer.old }
    requires fits { HeadingFits (heading_of heading.now) }
    ensures rows { OnOk result (buffer.new ≡ take row buffer.old
        ++ without_empty_end (spec.lines_below (row_at buffer.old row)
        (indent_cells style.now (spec.label_width (heading_of heading.now))) role
        (spec.heading_lines (heading_of heading.now)))) }
{
    let alloc = buffer.allocator();
    let text = heading.text();
    // Most texts are printable ASCII: trusted or not they are drawn as they are, and hold no line feed.
    if is_plain(text) {
        return extend_row(buffer, row, text, role);
    }
    let shown = text_of(alloc, heading)?;
    draw_lines(buffer, row, style, role, heading, shown.as_str())
}

/// Draws a text after the cells of the grid's last row; each further line of it stands in a row of its own, below the
/// heading's label. That is only measured where there is such a line.
fn draw_lines(
    buffer: &mut StyledBuffer,
    row: usize,
    style: &TitleStyle,
    role: ElementStyle,
    heading: &dyn MessageOrTitle,
    text: &str,
) -> Result<(), AllocError>
    requires row { IsRowNumber row }
    requires last { IsAtEnd row buffer.old }
    requires fits { HeadingFits (heading_of heading.now) }
    ensures rows { OnOk result (buffer.new ≡ take row buffer.old
        ++ without_empty_end (spec.lines_below (row_at buffer.old row)
        (indent_cells style.now (spec.label_width (heading_of heading.now))) role
        (map chars (slice_split (λ b. b == 10) text.now)))) }
{
    let Some((first, rest)) = text.split_once('\n') else {
        extend_row(buffer, row, text, role)?;
        return Ok(());
    };
    extend_row(buffer, row, first, role)?;
    let width = label_width(heading);
    for (index, line) in rest.split('\n').enumerate() {
        draw_further_line(buffer, row + 1 + index, style, width, role, line)?;
    }
    Ok(())
}

/// Draws the row of a further line.
fn draw_further_line(
    buffer: &mut StyledBuffer,
    row: usize,
    style: &TitleStyle,
    width: usize,
    role: ElementStyle,
    line: &str,
) -> Result<(), AllocError>
    requires row { HasNext row }
    requires empty { row_at buffer.old row ≡ [] }
    requires width { IsAddable width }
    ensures drawn { OnOk result (buffer.new ≡ appended buffer.old row
        (indent_cells style.now width ++ text_cells role (chars line.now))) }
{
    draw_indent(buffer, row, style, width)?;
    extend_row(buffer, row, line, role)?;
    Ok(())
}
