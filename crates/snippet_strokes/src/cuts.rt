//! Wide spans, of which the middle gives its place to the placeholder, in the source row and in the row of the marks.
ghost use Rattle.std.specs.Prelude.{◌≡◌, ◌+◌, ◌/◌, ◌<◌, ◌≤◌, ◌==◌, ◌&&◌, ◌||◌, max, [], false, true, All};
ghost use Rattle.std.specs.Prelude.{IfOk, OnOk, fold};
ghost use Rattle.std.specs.Prelude.{length, nat_le, nat_lt};
ghost use Rattle.std.specs.List.{list_any, zip};
ghost use Rattle.snippet_parts.specs.Entries.{is_wide_entry};
ghost use Rattle.snippet_style.specs.Glyphs.{placeholder_of};
ghost use Rattle.snippet_grid.specs.Grid.{changed_within};
ghost use Rattle.snippet_style.specs.Cell.{text_cells};
ghost use Rattle.snippet_style.specs.declared.role.ElementStyle.TheVariants.{LineNumber};
ghost use Rattle.snippet_strokes.specs.Cuts as rule;
ghost use Rattle.snippet_strokes.specs.LookedCuts as spec;
ghost use Rattle.snippet_strokes.specs.LookedCuts.{is_wide_at};
ghost use Rattle.snippet_labels.specs.PlacedEntries.{entry_width};
ghost use Rattle.snippet_labels.specs.Pieces.{breaks_labels};
ghost use Rattle.snippet_labels.specs.Placing.{HasPlace};
ghost use Rattle.snippet_grid.specs.Calls.{cells_replaced};
ghost use Rattle.snippet_labels.specs.Positions.{do_overlap, pieces_of};
ghost use Rattle.snippet_style.specs.Bounds.{AreRows, HasNext, IsCount};

use snippet_grid::{Layout, StyledBuffer};
use snippet_labels::{PlacedEntry, breaks_labels, overlap};
use snippet_parts::{LineAnnotation, LineAnnotationType};
use snippet_style::{DecorStyle, char_count};
use std::alloc::{AllocError, Global};

/// The fewest columns that stay at each end of a span that is cut.
const LEAST_END: usize = 5;

/// For each entry of a line, from right to left, whether its columns overlap those of an entry that was looked at while
/// the place of a label was sought. The two entries farthest right count for no one, and any other counts for itself
/// too. Only wide entries ask for it: where none is, nothing is looked at, and the list is empty.
///
/// ```text
///       |          ^^^^^    the first and the second entry aren't overlapped, though they overlap
///       |        -----
///       |  ^^^              the third is overlapped, by itself
/// ```
///
/// # Errors
///
/// There is no memory for the list.
#[tactic(auto, using(crate::proofs::LookedCuts::overlapped_looked))]
pub(crate) fn overlapping(
    alloc: Global,
    decor: DecorStyle,
    room: usize,
    placed: &[PlacedEntry],
) -> Result<Vec<bool>, AllocError>
    requires columns { All (λ e. HasPlace e.entry) placed.now }
    requires looked { All (λ e. IsCount e.looked) placed.now }
    ensures count { IfOk result (λ flags. length flags.items ≤ length placed.now) }
    ensures value { IfOk result (λ flags. list_any (is_wide_at room decor) placed.now ≡ true → flags.items
        ≡ rule.overlapped placed.now) }
    ensures none { IfOk result (λ flags. list_any (is_wide_at room decor) placed.now ≡ false → flags.items ≡ []) }
{
    if !has_wide(room, decor, placed) {
        return Ok(Vec::new(alloc));
    }
    let ends = look_ends(alloc, placed)?;
    overlapped(alloc, placed, &ends)
}

/// Whether one of these entries is wide, in a room of this many columns.
fn has_wide(room: usize, decor: DecorStyle, placed: &[PlacedEntry]) -> bool
    requires columns { All (λ e. HasPlace e.entry) placed.now }
    ensures value { result ≡ list_any (is_wide_at room decor) placed.now }
{
    // Seldom is one wider than the room. The width of the placeholder is looked at only then.
    has_wider(room, placed) && placed.iter().any(|p| is_wide(room, decor, &p.entry))
}

/// Whether one of these entries covers more columns than the room has.
fn has_wider(room: usize, placed: &[PlacedEntry]) -> bool
    requires columns { All (λ e. HasPlace e.entry) placed.now }
    ensures value { result ≡ list_any (λ e. nat_lt room (entry_width e.entry)) placed.now }
{
    placed.iter().any(|p| covers_more(room, &p.entry))
}

/// Whether an entry covers more columns than the room has.
fn covers_more(room: usize, entry: &LineAnnotation) -> bool
    requires columns { HasPlace entry.now }
    ensures value { result ≡ nat_lt room (entry_width entry.now) }
{
    entry.end.display - entry.start.display > room
}

/// For each entry before which place those stand that were looked at while the place of its label was sought, from the
/// first on.
///
/// # Errors
///
/// There is no memory for the list.
fn look_ends(alloc: Global, placed: &[PlacedEntry]) -> Result<Vec<usize>, AllocError>
    requires looked { All (λ e. IsCount e.looked) placed.now }
    ensures value { IfOk result (λ ends. ends.items ≡ spec.look_ends 0 placed.now) }
    ensures count { IfOk result (λ ends. length ends.items ≡ length placed.now) }
{
    let mut ends = Vec::new(alloc);
    for i in 0..placed.len() {
        ends.push(i + 1 + placed[i].looked)?;
    }
    Ok(ends)
}

/// For each entry whether it is overlapped, where those before these places are looked at.
///
/// # Errors
///
/// There is no memory for the list.
fn overlapped(
    alloc: Global,
    placed: &[PlacedEntry],
    ends: &[usize],
) -> Result<Vec<bool>, AllocError>
    requires columns { All (λ e. HasPlace e.entry) placed.now }
    requires count { length ends.now ≡ length placed.now }
    ensures value { IfOk result (λ flags. flags.items ≡ spec.overlapped_by placed.now ends.now 0 placed.now) }
    ensures count { IfOk result (λ flags. length flags.items ≡ length placed.now) }
{
    let mut flags = Vec::new(alloc);
    for k in 0..placed.len() {
        flags.push(is_overlapped(k, &placed[k], placed, ends))?;
    }
    Ok(flags)
}

/// Whether the entry at place k is overlapped, where those before these places are looked at.
fn is_overlapped(k: usize, entry: &PlacedEntry, placed: &[PlacedEntry], ends: &[usize]) -> bool
    requires columns { All (λ e. HasPlace e.entry) placed.now }
    requires own { HasPlace entry.now.entry }
    requires there { k < length ends.now }
    ensures value { result ≡ spec.is_overlapped placed.now ends.now k entry.now }
{
    let looked = &placed[..ends[k].min(placed.len())];
    meets(entry, looked) || (2 <= k && is_met(k, entry, placed, ends))
}

/// Whether an entry overlaps one of those that are looked at for it, the two farthest right left out.
fn meets(entry: &PlacedEntry, looked: &[PlacedEntry]) -> bool
    requires columns { All (λ e. HasPlace e.entry) looked.now }
    ensures value { result ≡ spec.meets entry.now looked.now }
{
    match looked.get(2..) {
        Some(others) => overlaps_any(entry, others),
        None => false,
    }
}

/// Whether an entry overlaps one of these.
fn overlaps_any(entry: &PlacedEntry, others: &[PlacedEntry]) -> bool
    requires columns { All (λ e. HasPlace e.entry) others.now }
    ensures value { result ≡ list_any (λ other. do_overlap other 0 entry.now) others.now }
{
    others.iter().any(|other| overlap(other, 0, entry))
}

/// Whether the entry at place k is looked at for one of these, and overlaps it.
fn is_met(k: usize, entry: &PlacedEntry, placed: &[PlacedEntry], ends: &[usize]) -> bool
    requires columns { HasPlace entry.now.entry }
    ensures value { result ≡ spec.is_met k entry.now placed.now ends.now }
{
    placed
        .iter()
        .zip(ends)
        .any(|(other, end)| k < *end && overlap(entry, 0, other))
}

/// What is known of these entries, which stand in the order of painting, where one counts as overlapped too if a block
/// stands beside it. Where labels are broken each does: the middle of one that is to be cut is so before.
///
/// ```text
///     1 | let aaaaaaaaaaaaa = 1;
///       |     ^^^^^^^^^^^^^ a       were the mark cut, `a` would move, and `b` would not
///       |                   b
/// ```
pub(crate) fn with_blocks(
    mut overlapped: Vec<bool>,
    layout: Layout,
    placed: &[PlacedEntry],
) -> Vec<bool>
    requires count { length overlapped.items ≤ length placed.now }
    ensures value { result.items ≡ rule.with_blocks layout placed.now overlapped.items }
    ensures count { length result.items ≤ length placed.now }
{
    for k in 0..overlapped.len() {
        if stays_whole(layout, &placed[k], placed) {
            overlapped[k] = true;
        }
    }
    overlapped
}

/// Whether an entry isn't cut any more: labels are broken, or a block stands beside it.
fn stays_whole(layout: Layout, entry: &PlacedEntry, placed: &[PlacedEntry]) -> bool
    ensures value { result ≡ (breaks_labels layout || list_any (λ f. f.position == 0
        && (nat_le entry.now.entry.start.display f.entry.start.display && nat_lt 1 (length (pieces_of f))))
        placed.now) }
{
    breaks_labels(layout) || has_block_beside(entry, placed)
}

/// Whether a label of several pieces stands after the mark of an entry, or after one that starts right of where it
/// does.
fn has_block_beside(entry: &PlacedEntry, placed: &[PlacedEntry]) -> bool
    ensures value { result ≡ list_any (λ f. f.position == 0 && (nat_le entry.now.entry.start.display
        f.entry.start.display && nat_lt 1 (length (pieces_of f)))) placed.now }
{
    placed.iter().any(|other| {
        other.position == 0
            && entry.entry.start.display <= other.entry.start.display
            && other.label.height(0) > 1
    })
}

/// Puts the placeholder in place of the middle of each wide entry that stands at a place which isn't overlapped: in the
/// source row, and in the row of the marks below it. Entries of which nothing is told stay.
///
/// ```text
///     1 | let aaaaa...aaaaa = 1;
///       |     ^^^^^...^^^^^
/// ```
///
/// # Errors
///
/// There is no memory for a row.
pub(crate) fn cut_wide(
    buffer: &mut StyledBuffer,
    layout: Layout,
    row: usize,
    room: usize,
    placed: &[PlacedEntry],
    overlapped: &[bool],
) -> Result<(), AllocError>
    requires columns { All (λ e. HasPlace e.entry) placed.now }
    requires count { length overlapped.now ≤ length placed.now }
    requires rows { row + 1 < length buffer.old }
    requires small { AreRows (length buffer.old) }
    ensures value { OnOk result (buffer.new ≡ changed_within
        (λ cells. fold (rule.cut_middle layout room) cells (zip placed.now overlapped.now))
        row (row + 2) buffer.old) }
{
    for k in 0..overlapped.len() {
        cut_entry(buffer, layout, row, room, &placed[k], overlapped[k])?;
    }
    Ok(())
}

/// Puts the placeholder in place of the middle of an entry, if the entry is wide and its place isn't overlapped.
///
/// # Errors
///
/// There is no memory for a row.
fn cut_entry(
    buffer: &mut StyledBuffer,
    layout: Layout,
    row: usize,
    room: usize,
    placed: &PlacedEntry,
    overlapped: bool,
) -> Result<(), AllocError>
    requires columns { HasPlace placed.now.entry }
    requires small { HasNext row }
    ensures value { OnOk result (buffer.new ≡ changed_within
        (λ cells. rule.cut_middle layout room cells (placed.now, overlapped)) row (row + 2) buffer.old) }
{
    let entry = &placed.entry;
    if overlapped || !is_wide(room, layout.decor, entry) {
        return Ok(());
    }
    let kept = end_columns(room);
    let start = layout.code_cell(entry.start.display) + kept;
    let end = layout.code_cell(entry.end.display) - kept;
    cut_stretch(buffer, layout.decor, row, start, end)
}

/// Whether an entry is wide, in a room of this many columns.
pub(crate) fn is_wide(room: usize, decor: DecorStyle, entry: &LineAnnotation) -> bool
    requires columns { HasPlace entry.now }
    ensures value { result ≡ is_wide_entry room (length (placeholder_of decor)) entry.now }
{
    let width = entry.end.display - entry.start.display;
    // Most are narrow, so the one test comes first that costs least.
    width > room
        && matches!(entry.annotation_type, LineAnnotationType::Singleline)
        && width - room > room
        && width > 10 + char_count(decor.placeholder())
}

/// How many columns stay at each end of an entry that is cut, in a room of this many columns.
pub(crate) fn end_columns(room: usize) -> usize
    ensures value { result ≡ rule.end_columns room }
{
    let third = room / 3;
    if third > LEAST_END { third } else { LEAST_END }
}

/// Puts the placeholder in place of the cells from `start` to before `end` of a row and of the row below it.
///
/// # Errors
///
/// There is no memory for a row.
fn cut_stretch(
    buffer: &mut StyledBuffer,
    decor: DecorStyle,
    row: usize,
    start: usize,
    end: usize,
) -> Result<(), AllocError>
    requires small { HasNext row }
    ensures ok { OnOk result (let placeholder = text_cells LineNumber (placeholder_of decor) in
        buffer.new ≡ cells_replaced (cells_replaced buffer.old row start end placeholder)
        (row + 1) start end placeholder) }
{
    buffer.replace(row, start, end, decor.placeholder())?;
    buffer.replace(row + 1, start, end, decor.placeholder())
}
