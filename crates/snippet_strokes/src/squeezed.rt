//! Lines of which the middles of wide spans are cut out before anything is placed, where labels are broken.
ghost use Rattle.std.specs.Prelude.{◌≡◌, ◌+◌, ◌-◌, ◌==◌, ◌<◌, ◌++◌, ◌∷◌, ◌||◌, [], true, All, List, IfOk, OnOk};
ghost use Rattle.std.specs.Prelude.{if◌then◌else◌, length, map, nat_lt};
ghost use Rattle.std.specs.List.{list_all};
ghost use Rattle.snippet_style.specs.Cell.{Cell};
ghost use Rattle.snippet_style.specs.Glyphs.{placeholder_of};
ghost use Rattle.snippet_parts.specs.Entries.{is_wide_entry};
ghost use Rattle.snippet_style.specs.Bounds.{IsColumn};
ghost use Rattle.snippet_labels.specs.Pieces.{breaks_labels};
ghost use Rattle.snippet_labels.specs.Placing.{HasPlace};
ghost use Rattle.snippet_labels.specs.PlacedEntries.{shifted};
ghost use Rattle.snippet_strokes.specs.Drawable.{AreDrawable};
ghost use Rattle.snippet_strokes.specs.Squeezed as spec;

use crate::cuts::{end_columns, is_wide};
use snippet_grid::{Layout, StyledBuffer};
use snippet_labels::shifted;
use snippet_parts::LineAnnotation;
use snippet_style::{DecorStyle, char_count};
use std::alloc::{AllocError, Global};

/// The entries of a line, as far left as these many of its columns are dropped, where the middles of those that give
/// way are cut out of the line. The placeholder is put in their place in its source row, which is the last row.
///
/// ```text
///     1 | let aaaaa...aaaaa = 1;
///       |     ^^^^^...^^^^^
/// ```
///
/// # Errors
///
/// There is no memory for the row or the list.
#[inline(never)]
pub(crate) fn squeezed_line<'a>(
    buffer: &mut StyledBuffer,
    layout: Layout,
    row: usize,
    room: usize,
    dropped: usize,
    entries: &[LineAnnotation<'a>],
) -> Result<Vec<LineAnnotation<'a>>, AllocError>
    requires broken { breaks_labels layout ≡ true }
    requires last { length buffer.old ≡ row + 1 }
    requires entries { AreDrawable layout entries.now }
    ensures drawable { IfOk result (λ line. AreDrawable layout line.items) }
    ensures count { IfOk result (λ line. length line.items ≡ length entries.now) }
    ensures last { OnOk result (length buffer.new ≡ row + 1) }
    ensures value { IfOk result (λ line. line.items
        ≡ (spec.squeezed layout room (map (shifted dropped) entries.now)).0) }
    ensures row { OnOk result ((above : List (List Cell)) (source : List Cell) → buffer.old ≡ above ++ source ∷ []
        → buffer.new ≡ above ++ spec.middles_replaced layout room
        (spec.squeezed layout room (map (shifted dropped) entries.now)).1 source ∷ []) }
{
    let alloc = buffer.allocator();
    let mut line = shifted_entries(alloc, dropped, entries)?;
    for k in 0..entries.len() {
        line = without_middle(buffer, layout, row, room, line, k)?;
    }
    Ok(line)
}

/// These entries, as far left as so many columns are dropped.
///
/// # Errors
///
/// There is no memory for the list.
fn shifted_entries<'a>(
    alloc: Global,
    dropped: usize,
    entries: &[LineAnnotation<'a>],
) -> Result<Vec<LineAnnotation<'a>>, AllocError>
    ensures value { IfOk result (λ line. line.items ≡ map (shifted dropped) entries.now) }
{
    let mut line = Vec::new(alloc);
    for i in 0..entries.len() {
        line.push(shifted(&entries[i], dropped))?;
    }
    Ok(line)
}

/// The entries of a line, where the middle of the one at place `k` is cut out of the line if it gives way.
///
/// # Errors
///
/// There is no memory for the row or the list.
fn without_middle<'a>(
    buffer: &mut StyledBuffer,
    layout: Layout,
    row: usize,
    room: usize,
    entries: Vec<LineAnnotation<'a>>,
    k: usize,
) -> Result<Vec<LineAnnotation<'a>>, AllocError>
    requires there { k < length entries.items }
    requires entries { AreDrawable layout entries.items }
    requires last { length buffer.old ≡ row + 1 }
    ensures drawable { IfOk result (λ line. AreDrawable layout line.items) }
    ensures count { IfOk result (λ line. length line.items ≡ length entries.entry.items) }
    ensures last { OnOk result (length buffer.new ≡ row + 1) }
    ensures value { IfOk result (λ line. (cut : List LineAnnotation)
        → line.items ≡ (spec.without_middle layout room (entries.entry.items, cut) k).0) }
    ensures row { OnOk result ((cut : List LineAnnotation) (above : List (List Cell)) (source : List Cell)
        → buffer.old ≡ above ++ spec.middles_replaced layout room cut source ∷ []
        → buffer.new ≡ above ++ spec.middles_replaced layout room
        (spec.without_middle layout room (entries.entry.items, cut) k).1 source ∷ []) }
{
    let entry = &entries[k];
    if !gives_way(layout.decor, room, entry, &entries) {
        return Ok(entries);
    }
    let kept = end_columns(room);
    let start = layout.code_cell(entry.start.display) + kept;
    let end = layout.code_cell(entry.end.display) - kept;
    buffer.replace(row, start, end, layout.decor.placeholder())?;
    past_middle(buffer.allocator(), layout.decor, room, entry, &entries)
}

/// Whether the middle of an entry is cut out of a line of these: the entry is wide, each of its characters takes a
/// column, and none begins or ends there.
fn gives_way(
    decor: DecorStyle,
    room: usize,
    entry: &LineAnnotation,
    entries: &[LineAnnotation],
) -> bool
    requires own { HasPlace entry.now }
    ensures value { result ≡ spec.gives_way decor room entries.now entry.now }
{
    is_wide(room, decor, entry) && is_even(entry) && are_clear_of(room, entry, entries)
}

/// Whether an entry has as many columns as characters.
fn is_even(entry: &LineAnnotation) -> bool
    requires own { HasPlace entry.now }
    ensures value { result ≡ (entry.now.end.display - entry.now.start.display
        == entry.now.end.char - entry.now.start.char) }
{
    let columns = entry.end.display - entry.start.display;
    columns == entry.end.char.saturating_sub(entry.start.char)
}

/// Whether none of these entries begins or ends in the middle of a wide one.
fn are_clear_of(room: usize, wide: &LineAnnotation, entries: &[LineAnnotation]) -> bool
    requires own { HasPlace wide.now }
    ensures value { result ≡ list_all (spec.is_clear_of room wide.now) entries.now }
{
    entries.iter().all(|entry| is_clear_of(room, wide, entry))
}

/// Whether neither the first nor the last column of an entry lies in the middle of a wide one.
fn is_clear_of(room: usize, wide: &LineAnnotation, entry: &LineAnnotation) -> bool
    requires own { HasPlace wide.now }
    ensures value { result ≡ spec.is_clear_of room wide.now entry.now }
{
    let kept = end_columns(room);
    let start = wide.start.display.saturating_add(kept);
    let end = wide.end.display.saturating_sub(kept);
    (entry.start.display < start || entry.start.display >= end)
        && (entry.end.display <= start || entry.end.display > end)
}

/// The entries of a line where the placeholder stands in place of the middle of this one, which gives way.
///
/// # Errors
///
/// There is no memory for the list.
fn past_middle<'a>(
    alloc: Global,
    decor: DecorStyle,
    room: usize,
    entry: &LineAnnotation,
    entries: &[LineAnnotation<'a>],
) -> Result<Vec<LineAnnotation<'a>>, AllocError>
    requires own { HasPlace entry.now }
    requires wide { is_wide_entry room (length (placeholder_of decor)) entry.now ≡ true }
    requires places { All HasPlace entries.now }
    ensures value { IfOk result (λ line. line.items ≡ map (spec.past_middle decor room entry.now) entries.now) }
{
    let mut line = Vec::new(alloc);
    for i in 0..entries.len() {
        line.push(moved(decor, room, entry, &entries[i]))?;
    }
    Ok(line)
}

/// One of them.
fn moved<'a>(
    decor: DecorStyle,
    room: usize,
    entry: &LineAnnotation,
    other: &LineAnnotation<'a>,
) -> LineAnnotation<'a>
    requires own { HasPlace entry.now }
    requires wide { is_wide_entry room (length (placeholder_of decor)) entry.now ≡ true }
    requires place { HasPlace other.now }
    ensures value { result ≡ spec.past_middle decor room entry.now other.now }
{
    let kept = end_columns(room);
    let from = entry.start.display + kept + char_count(decor.placeholder());
    let to = entry.end.display.saturating_sub(kept);
    let mut moved = other.copied();
    moved.start.display = moved_column(from, to, other.start.display);
    moved.end.display = moved_column(from, to, other.end.display);
    moved
}

/// A column of a line, where what stood from column `to` on stands from column `from` on.
fn moved_column(from: usize, to: usize, column: usize) -> usize
    requires near { IsColumn column }
    requires few { IsColumn from }
    ensures value { result ≡ (if nat_lt column to then column else column - to + from) }
{
    if column < to {
        column
    } else {
        column - to + from
    }
}
