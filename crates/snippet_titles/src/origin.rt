//! The row of a path, and of the place after it.
ghost use Rattle.std.specs.Prelude.{◌≡◌, ◌+◌, ◌≤◌, ◌∷◌, ◌++◌, [], length, chars, string_bytes, OnOk, IfOk};
ghost use Rattle.std.specs.Fmt.{decimal};
ghost use Rattle.snippet_text.specs.Normalized.{norm};
ghost use Rattle.snippet_titles.specs.Origin as spec;
ghost use Rattle.snippet_titles.specs.Origin.{file_glyph, file_row, line_text, origin_row};
ghost use Rattle.snippet_grid.specs.GridRow.{appended};
ghost use Rattle.snippet_style.specs.Bounds.{HasNext, IsRowNumber};
ghost use Rattle.snippet_style.specs.Cell.{text_cells};
ghost use Rattle.snippet_style.specs.declared.role.ElementStyle.TheVariants.{LineAndColumn};

use crate::row::extend_row;
use arrayvec::ArrayString;
use itoa::Buffer;
use snippet_grid::{Layout, StyledBuffer};
use snippet_style::{DecorStyle, ElementStyle};
use snippet_text::normalized;
use std::alloc::{AllocError, Global};

/// What leads from the gutter to a path.
#[derive(Clone, Copy, Debug, PartialEq, Eq)]
pub enum FileStart {
    /// To the group's primary file, where its path is all that the group shows.
    Alone,
    /// To the group's primary file, from the group's first element.
    First,
    /// To the group's primary file, from a later element.
    Later,
    /// To any other file.
    Secondary,
}

/// A place in a file, as it stands after the file's path.
#[derive(Clone, Copy, Debug, PartialEq, Eq)]
pub struct OriginLocation {
    /// The number of the line.
    pub line: Option<usize>,
    /// The column, counted in characters from 1. It is shown only where there is a line.
    pub column: Option<usize>,
}

/// Where the rows of a path stand, and how they are drawn.
///
/// ```text
///   --> src/main.rs:3:5     what leads to the path stands from cell `base.gutter` on
/// ```
#[derive(Clone, Copy, Debug)]
pub struct OriginLayout {
    /// Where the parts of the group's rows stand.
    pub base: Layout,
    /// Whether each line after a path is named `LL`.
    pub anonymized: bool,
}

impl FileStart {
    /// The glyph in the row of the path.
    fn glyph(self, decor: DecorStyle) -> &'static str
        ensures value { chars result.now ≡ file_glyph self decor }
    {
        match self {
            FileStart::Alone => decor.alone_start(),
            FileStart::First => decor.file_start(true),
            FileStart::Later => decor.file_start(false),
            FileStart::Secondary => decor.other_start(),
        }
    }
}

/// A path, normalised, with the place after it: `src/main.rs:3:5`. Where lines are anonymized, the line is named `LL`.
///
/// # Errors
///
/// There is no memory for the text.
pub fn origin_text(
    alloc: Global,
    path: &str,
    place: OriginLocation,
    anonymized: bool,
) -> Result<String, AllocError>
    ensures value { IfOk result (λ t. chars (string_bytes t) ≡ spec.origin_text anonymized path.now place) }
{
    let mut text = shown_path(alloc, path)?;
    push_place(&mut text, place, anonymized)?;
    Ok(text)
}

/// Room after a path for what usually follows: a place of lines and columns of a few digits, and what stands behind
/// it in the short form.
const PLACE_BYTES: usize = 16;

/// A path as it is drawn, with room for a place after it.
fn shown_path(alloc: Global, path: &str) -> Result<String, AllocError>
    ensures value { IfOk result (λ text. chars (string_bytes text) ≡ norm (chars path.now)) }
{
    let shown = normalized(alloc, path)?;
    let shown = shown.as_str();
    let mut text = String::with_capacity(alloc, shown.len().saturating_add(PLACE_BYTES))?;
    text.push_str(shown)?;
    Ok(text)
}

/// Adds the place that stands after a path.
fn push_place(text: &mut String, place: OriginLocation, anonymized: bool) -> Result<(), AllocError>
    ensures added { OnOk result (string_bytes text.new ≡
        string_bytes text.old ++ line_text anonymized place.line place.column) }
{
    let Some(line) = place.line else {
        return Ok(());
    };
    push_line(text, line, anonymized)?;
    match place.column {
        Some(column) => push_number(text, column),
        None => Ok(()),
    }
}

/// Adds a colon and the name of a line.
fn push_line(text: &mut String, line: usize, anonymized: bool) -> Result<(), AllocError>
    ensures added { OnOk result (string_bytes text.new ≡ string_bytes text.old ++ 58 ∷ spec.line_name anonymized line) }
{
    if anonymized {
        text.push_str(":LL")
    } else {
        push_number(text, line)
    }
}

/// Adds a colon and a number.
fn push_number(text: &mut String, number: usize) -> Result<(), AllocError>
    ensures added { OnOk result (string_bytes text.new ≡ string_bytes text.old ++ 58 ∷ decimal number) }
{
    text.push_str(":")?;
    let mut digits = Buffer::new();
    text.push_str(digits.format(number))
}

/// Draws the row of a path below all that stands in the grid.
///
/// ```text
///   --> src/main.rs:3:5      to the group's primary file
///   ::: src/lib.rs:1:1       to another one
/// ```
///
/// # Errors
///
/// There is no memory for the row. The grid may then hold a part of it.
pub fn draw_origin(
    buffer: &mut StyledBuffer,
    layout: OriginLayout,
    start: FileStart,
    path: &str,
    place: OriginLocation,
) -> Result<(), AllocError>
    ensures row { OnOk result (buffer.new ≡ buffer.old ++ origin_row layout start path.now place ∷ []) }
{
    let anonymized = layout.anonymized;
    let row = begin_file_row(buffer, layout, start)?;
    append_path(buffer, row, path)?;
    append_place(buffer, row, place, anonymized)
}

/// Adds a path, normalised, to a row.
///
/// # Errors
///
/// There is no memory for the row.
fn append_path(buffer: &mut StyledBuffer, row: usize, path: &str) -> Result<(), AllocError>
    requires row { HasNext row }
    ensures added { OnOk result (buffer.new
        ≡ appended buffer.old row (text_cells LineAndColumn (norm (chars path.now)))) }
{
    let shown = normalized(buffer.allocator(), path)?;
    extend_row(buffer, row, shown.as_str(), ElementStyle::LineAndColumn)
}

/// Adds the place that stands after a path to its row.
///
/// # Errors
///
/// There is no memory for the row.
fn append_place(
    buffer: &mut StyledBuffer,
    row: usize,
    place: OriginLocation,
    anonymized: bool,
) -> Result<(), AllocError>
    requires row { HasNext row }
    ensures added { OnOk result (buffer.new
        ≡ appended buffer.old row (text_cells LineAndColumn (line_text anonymized place.line place.column))) }
{
    let text = place_text(place, anonymized);
    extend_row(buffer, row, text.as_str(), ElementStyle::LineAndColumn)
}

/// The bytes that the place after a path takes at most: two colons, and after each a number of 20 digits.
const MOST_PLACE_BYTES: usize = 42;

/// The place that stands after a path, which takes no memory.
fn place_text(place: OriginLocation, anonymized: bool) -> ArrayString<MOST_PLACE_BYTES>
    ensures value { result.bytes ≡ line_text anonymized place.line place.column }
{
    let mut text = ArrayString::new();
    let Some(line) = place.line else {
        return text;
    };
    if anonymized {
        text.push_str(":LL");
    } else {
        push_short(&mut text, line);
    }
    if let Some(column) = place.column {
        push_short(&mut text, column);
    }
    text
}

/// Adds a colon and a number to a text that has room for them.
fn push_short(text: &mut ArrayString<MOST_PLACE_BYTES>, number: usize)
    requires room { length text.old.bytes + 21 ≤ 42 }
    ensures added { text.new.bytes ≡ text.old.bytes ++ 58 ∷ decimal number }
    ensures short { length text.new.bytes ≤ length text.old.bytes + 21 }
{
    text.push_str(":");
    let mut digits = Buffer::new();
    text.push_str(digits.format(number));
}

/// Begins a row below all that stands in the grid with what leads to a file, and gives the row's number.
///
/// # Errors
///
/// There is no memory for the row.
pub(crate) fn begin_file_row(
    buffer: &mut StyledBuffer,
    layout: OriginLayout,
    start: FileStart,
) -> Result<usize, AllocError>
    ensures added { OnOk result (buffer.new ≡ buffer.old ++ file_row layout start ∷ []) }
    ensures row { IfOk result (λ row. row ≡ length buffer.old) }
    ensures small { IsRowNumber (length buffer.old) }
{
    let row = buffer.num_lines();
    let base = layout.base;
    let glyph = start.glyph(base.decor);
    buffer.puts(row, base.gutter, glyph, ElementStyle::LineNumber)?;
    Ok(row)
}
