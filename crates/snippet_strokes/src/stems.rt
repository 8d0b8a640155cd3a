//! The stems that lead from marks down to their labels, or to the lines to their bars.
ghost use Rattle.std.specs.Prelude.{◌≡◌, ◌==◌, [], if◌then◌else◌, All, OnOk, length};
ghost use Rattle.std.specs.List.{flat_map};
ghost use Rattle.snippet_strokes.specs.Places.{HasPlaceAmong};
ghost use Rattle.snippet_strokes.specs.PaintedStrokes.{foot_glyph};
ghost use Rattle.snippet_strokes.specs.Writes.{painted};
ghost use Rattle.snippet_strokes.specs.Strokes.{stem_of};
ghost use Rattle.snippet_strokes.specs.DrawnStems.{is_stem_covered};

use crate::canvas::Canvas;
use crate::roles::is_primary;
use snippet_grid::Layout;
use snippet_labels::PlacedEntry;
use snippet_parts::LineAnnotationType;
use snippet_style::DecorStyle;
use std::alloc::AllocError;

/// Draws the stems of the entries that have one, from the row of the marks on.
///
/// ```text
///       | | |         |     |            the row of the marks, which are drawn over the stems later
///       | | |         | |___|            the line from an end of a span of several lines to its bar
///       | | x         |     y
///       | f
/// ```
///
/// # Errors
///
/// There is no memory for the cells.
pub(crate) fn draw_stems<C: Canvas>(
    buffer: &mut C,
    layout: Layout,
    row: usize,
    placed: &[PlacedEntry],
) -> Result<(), AllocError>
    requires places { All (HasPlaceAmong row (length (C.rows buffer.old))) placed.now }
    ensures painted { OnOk result (C.rows buffer.new
        ≡ painted (flat_map (stem_of layout row) placed.now) (C.rows buffer.old)) }
{
    for i in 0..placed.len() {
        let entry = &placed[i];
        if !is_stem_covered(entry, &placed[i + 1..]) {
            draw_stem(buffer, layout, row, entry)?;
        }
    }
    Ok(())
}

/// Whether the stem of the next of some later entries covers that of an entry: it stands in the same column, and
/// reaches as far down. So of many labels below one column the lowest alone has a stem.
pub(crate) fn is_stem_covered(placed: &PlacedEntry, later: &[PlacedEntry]) -> bool
    ensures value { result ≡ is_stem_covered placed.now later.now }
{
    match later {
        [next, ..] => {
            next.has_stem()
                && next.entry.start.display == placed.entry.start.display
                && placed.position <= next.position
        }
        [] => false,
    }
}

/// Draws the stem of an entry, if it has one: below its first column, as far as the row of its line to the bar, or the
/// row above its label.
fn draw_stem<C: Canvas>(
    buffer: &mut C,
    layout: Layout,
    row: usize,
    placed: &PlacedEntry,
) -> Result<(), AllocError>
    requires place { HasPlaceAmong row (length (C.rows buffer.old)) placed.now }
    ensures painted { OnOk result (C.rows buffer.new ≡ painted (stem_of layout row placed.now) (C.rows buffer.old)) }
{
    if !placed.has_stem() {
        return Ok(());
    }
    let strokes = layout.decor.underline(is_primary(placed.entry.kind));
    let foot = foot_glyph(layout.decor, placed);
    let cell = layout.code_cell(placed.entry.start.display);
    for below in 0..placed.position + 1 {
        let glyph = stem_glyph(placed, foot, strokes.stem, below);
        buffer.putc(row + below, cell, glyph, strokes.style)?;
    }
    Ok(())
}

/// The glyph of an entry's stem, this many rows below the row of the marks; at its foot it is another one.
pub(crate) fn stem_glyph(placed: &PlacedEntry, foot: char, stem: char, below: usize) -> char
    ensures value { result ≡ (if below == placed.now.position then foot else stem) }
{
    if below == placed.position { foot } else { stem }
}

/// The glyph at the foot of a stem: where a line leads to a bar, the corner at which it begins, or where a label
/// follows below it the branch.
pub(crate) fn foot_glyph(decor: DecorStyle, placed: &PlacedEntry) -> char
    ensures value { result ≡ foot_glyph decor placed.now }
{
    let strokes = decor.underline(is_primary(placed.entry.kind));
    match placed.entry.annotation_type {
        LineAnnotationType::MultilineStart(_) => strokes.corner,
        LineAnnotationType::MultilineEnd(_) if placed.has_label() => strokes.corner_with_label,
        _ => strokes.stem,
    }
}
