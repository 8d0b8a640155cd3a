//! The marks below a line of the source.
ghost use Rattle.std.specs.Prelude.{◌≡◌, ◌==◌, ◌&&◌, All, OnOk, reverse, true};
ghost use Rattle.std.specs.List.{flat_map};
ghost use Rattle.snippet_labels.specs.PlacedEntries as spec;
ghost use Rattle.snippet_strokes.specs.Painting.{mark_of, painting_order};
ghost use Rattle.snippet_strokes.specs.PaintedStrokes.{first_glyph, mark_end};
ghost use Rattle.snippet_strokes.specs.Writes.{painted};
ghost use Rattle.snippet_style.specs.Bounds.{HasNext, IsColumn};

use crate::canvas::Canvas;
use crate::roles::is_primary;
use snippet_grid::Layout;
use snippet_labels::positions::PlacedEntry;
use snippet_parts::LineAnnotation;
use snippet_style::DecorStyle;
use std::alloc::AllocError;
use std::cmp::Reverse;

/// Draws the marks of some entries into a row, over what stands there. The entries are put in another order.
///
/// ```text
///       |     ----^^^--
/// ```
///
/// # Errors
///
/// There is no memory for the cells, or to sort the entries.
pub fn draw_marks<C: Canvas>(
    buffer: &mut C,
    layout: Layout,
    row: usize,
    placed: &mut Vec<PlacedEntry>,
) -> Result<(), AllocError>
    requires row { HasNext row }
    requires columns { All (λ e. IsColumn e.entry.end.display) placed.old.items }
    ensures painted { OnOk result (C.rows buffer.new
        ≡ painted (flat_map (mark_of layout row) placed.new.items) (C.rows buffer.old)) }
    ensures order { OnOk result (placed.new.items ≡ painting_order placed.old.items) }
{
    // Most lines have one entry, which is in order.
    if placed.len() > 1 {
        sort_for_painting(placed)?;
    }
    paint_entries(buffer, layout, row, placed)
}

/// Puts the entries in order from the widest to the narrowest, those of one width with the primary ones last, and else
/// as given: painted one over another, each column shows the narrowest entry that covers it.
///
/// # Errors
///
/// There is no memory to sort them.
pub(crate) fn sort_for_painting(placed: &mut Vec<PlacedEntry>) -> Result<(), AllocError>
    ensures order { OnOk result (placed.new.items ≡ painting_order placed.old.items) }
{
    if is_order_reversed(placed) {
        placed.reverse();
        return Ok(());
    }
    placed.sort_by_key(|p| (Reverse(entry_width(&p.entry)), is_primary(p.entry.kind)))
}

/// Whether each of many entries is wider than the one before it, as those of nested spans are: then this order turned
/// round is that of painting. Two are as soon sorted.
fn is_order_reversed(placed: &[PlacedEntry]) -> bool
    ensures yes { result ≡ true → reverse placed.now ≡ painting_order placed.now }
{
    if placed.len() <= 2 {
        return false;
    }
    let mut widest = 0;
    for entry in placed {
        let width = entry_width(&entry.entry);
        if width <= widest {
            return false;
        }
        widest = width;
    }
    true
}

/// How many columns an entry covers.
fn entry_width(entry: &LineAnnotation) -> usize
    ensures value { result ≡ spec.entry_width entry.now }
{
    entry.end.display.saturating_sub(entry.start.display)
}

/// Paints the marks of entries into a row, each over those before it.
fn paint_entries<C: Canvas>(
    buffer: &mut C,
    layout: Layout,
    row: usize,
    placed: &[PlacedEntry],
) -> Result<(), AllocError>
    requires row { HasNext row }
    requires columns { All (λ e. IsColumn e.entry.end.display) placed.now }
    ensures painted { OnOk result (C.rows buffer.new
        ≡ painted (flat_map (mark_of layout row) placed.now) (C.rows buffer.old)) }
{
    for entry in placed {
        paint_entry(buffer, layout, row, entry)?;
    }
    Ok(())
}

/// Paints the marks of an entry into a row, over what stands there. The first may be another glyph.
///
/// ```text
///       |       ^^^^^         ┯━━━━
/// ```
pub(crate) fn paint_entry<C: Canvas>(
    buffer: &mut C,
    layout: Layout,
    row: usize,
    placed: &PlacedEntry,
) -> Result<(), AllocError>
    requires row { HasNext row }
    requires columns { IsColumn placed.now.entry.end.display }
    ensures painted { OnOk result (C.rows buffer.new
        ≡ painted (mark_of layout row placed.now) (C.rows buffer.old)) }
{
    let strokes = layout.decor.underline(is_primary(placed.entry.kind));
    let (start, end) = (placed.entry.start.display, mark_end(placed));
    if end <= start {
        return Ok(());
    }
    let first = first_glyph(layout.decor, placed);
    let cell = layout.code_cell(start);
    if first == strokes.underline {
        let whole = cell..layout.code_cell(end);
        return buffer.put_stretch(row, whole, first, strokes.style);
    }
    buffer.putc(row, cell, first, strokes.style)?;
    let rest = cell + 1..layout.code_cell(end);
    buffer.put_stretch(row, rest, strokes.underline, strokes.style)
}

/// The column after the last one at which an entry's mark is painted. Where an entry covers no column, but a glyph of
/// its own stands at its start, that glyph is its mark.
fn mark_end(placed: &PlacedEntry) -> usize
    requires columns { IsColumn placed.now.entry.end.display }
    ensures value { result ≡ mark_end placed.now }
{
    let end = placed.entry.end.display;
    if placed.entry.start.display == end && (placed.takes_space() || placed.has_stem()) {
        end + 1
    } else {
        end
    }
}

/// The glyph at the first column of an entry's mark.
fn first_glyph(decor: DecorStyle, placed: &PlacedEntry) -> char
    ensures value { result ≡ first_glyph decor placed.now }
{
    let strokes = decor.underline(is_primary(placed.entry.kind));
    match (placed.takes_space(), placed.has_stem()) {
        (true, true) => strokes.end_down,
        (true, false) => strokes.end_flat,
        (false, true) => strokes.label_start,
        (false, false) => strokes.underline,
    }
}
