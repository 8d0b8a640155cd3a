//! The rows that a snippet begins with.
ghost use Rattle.std.specs.Prelude.{◌≡◌, ◌+◌, ◌^◌, ◌<◌, [], ◌∷◌, ◌++◌, false, true, OnOk, Some};
ghost use Rattle.snippet_style.specs.Separators.{separator_row};
ghost use Rattle.snippet_style.specs.declared.glyphs.DecorStyle.TheVariants.{Ascii, Unicode};
ghost use Rattle.snippet_titles.specs.declared.origin.FileStart.TheVariants.{Secondary};
ghost use Rattle.snippet_titles.specs.Origin.{file_row, snippet_head};
ghost use Rattle.snippet_titles.specs.Origin as spec;

use crate::origin::{FileStart, OriginLayout, OriginLocation, begin_file_row, draw_origin};
use crate::separators::draw_separator;
use snippet_grid::StyledBuffer;
use snippet_style::DecorStyle;
use std::alloc::AllocError;

/// Draws what the group's primary snippet begins with, where it has no path, below all that stands in the grid. The
/// snippet may be the group's `first` element.
///
/// ```text
///    |      in ASCII
///   ╭▸      in Unicode, where the snippet is the first element
///   ├▸      in Unicode, where it is a later one
/// ```
///
/// # Errors
///
/// There is no memory for the row.
pub fn draw_opening_head(
    buffer: &mut StyledBuffer,
    layout: OriginLayout,
    first: bool,
) -> Result<(), AllocError>
    ensures rows { let base = layout.base in OnOk result (buffer.new ≡ buffer.old ++ elim base.decor [
      | Ascii ↦ separator_row base.decor base.gutter ∷ []
      | Unicode ↦ file_row layout (spec.primary_start first) ∷ []
    ]) }
{
    let base = layout.base;
    match base.decor {
        DecorStyle::Ascii => draw_separator(buffer, layout.base),
        DecorStyle::Unicode => {
            begin_file_row(buffer, layout, primary_start(first))?;
            Ok(())
        }
    }
}

/// Draws what the group's primary snippet begins with, where it has a path, below all that stands in the grid. The
/// snippet may be the group's `first` element.
///
/// ```text
///   --> src/main.rs:3:5
///    |
/// ```
///
/// # Errors
///
/// There is no memory for the rows. The grid may then hold some of them.
pub fn draw_primary_head(
    buffer: &mut StyledBuffer,
    layout: OriginLayout,
    first: bool,
    path: &str,
    place: OriginLocation,
) -> Result<(), AllocError>
    ensures rows { OnOk result (buffer.new ≡ buffer.old ++ snippet_head layout true first (Some path.now) place) }
{
    let base = layout.base;
    draw_origin(buffer, layout, primary_start(first), path, place)?;
    draw_separator(buffer, base)
}

/// Draws what any other snippet with a path begins with, below all that stands in the grid.
///
/// ```text
///    |
///   ::: src/lib.rs:1:1
///    |
/// ```
///
/// # Errors
///
/// There is no memory for the rows. The grid may then hold some of them.
pub fn draw_secondary_head(
    buffer: &mut StyledBuffer,
    layout: OriginLayout,
    path: &str,
    place: OriginLocation,
) -> Result<(), AllocError>
    ensures rows { OnOk result (buffer.new ≡ buffer.old ++ snippet_head layout false false (Some path.now) place) }
{
    let base = layout.base;
    draw_separator(buffer, base)?;
    draw_origin(buffer, layout, FileStart::Secondary, path, place)?;
    draw_separator(buffer, base)
}

/// Draws what a snippet without a path begins with where it isn't the group's primary one, below all that stands in the
/// grid.
///
/// ```text
///    |
///   :::
/// ```
///
/// # Errors
///
/// There is no memory for the rows. The grid may then hold some of them.
pub fn draw_nameless_head(buffer: &mut StyledBuffer, layout: OriginLayout) -> Result<(), AllocError>
    ensures rows { OnOk result (buffer.new ≡
        buffer.old ++ separator_row layout.base.decor layout.base.gutter ∷ file_row layout Secondary ∷ []) }
{
    draw_separator(buffer, layout.base)?;
    begin_file_row(buffer, layout, FileStart::Secondary)?;
    Ok(())
}

/// What leads to the group's primary file, from its first element or from a later one.
fn primary_start(first: bool) -> FileStart
    ensures value { result ≡ spec.primary_start first }
{
    if first {
        FileStart::First
    } else {
        FileStart::Later
    }
}
