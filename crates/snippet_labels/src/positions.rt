//! Where the labels of a line stand: how far below the row of its marks each hangs.
ghost use Rattle.std.specs.Prelude.{◌≡◌, ◌+◌, ◌-◌, ◌^◌, ◌<◌, ◌≤◌, ◌&&◌, ◌||◌, false, true, All, IfOk, IfSome, drop};
ghost use Rattle.std.specs.Prelude.{length, slice_index_or};
ghost use Rattle.std.specs.Prelude.{map, max, not, reverse, IsPermutation, OnOk};
ghost use Rattle.snippet_lines.specs.OrderedBy.{ordered_by};
ghost use Rattle.std.specs.List.{list_all, list_any, position};
ghost use Rattle.snippet_labels.specs.Pieces.{label_width};
ghost use Rattle.snippet_labels.specs.Positions as spec;
ghost use Rattle.snippet_labels.specs.declared.positions.PlacedEntry.{PlacedEntry};
ghost use Rattle.snippet_labels.specs.Placing as placing;
ghost use Rattle.snippet_labels.specs.Placing.{ArePlaced, AsksBefore, BeginLeftOf, FitsLeftOf, HasPlace};
ghost use Rattle.snippet_labels.specs.Placing.{IsFromRight, SharesRow, StandInRow};
ghost use Rattle.snippet_labels.specs.PlacedEntries.{shifted};
ghost use Rattle.snippet_parts.specs.Least.{greatest};
ghost use Rattle.snippet_style.specs.Bounds.{IsColumn, IsRowNumber};

use crate::drawn_label::DrawnLabel;
use crate::labelled::labelled_entries;
use crate::pairs::{crosses, crowds, stands_in_row};
use snippet_grid::Layout;
use snippet_parts::{LineAnnotation, LineAnnotationType};
use std::alloc::{AllocError, Global};
use std::cmp::Reverse;

/// How many columns stand free after a label, before the next one in its row.
pub(crate) const GAP: usize = 2;

/// There is memory for fewer rows, as a grid keeps a number for each.
const MAX_ROWS: usize = 1 << 60;

/// An entry of a line, with its label as it is drawn and the place where the label stands.
#[derive(Debug, Drop)]
pub struct PlacedEntry<'a> {
    /// The entry.
    pub entry: LineAnnotation<'a>,
    /// Its label, which is empty where it has none to show.
    pub label: DrawnLabel<'a>,
    /// At 0 the label stands after its mark; at n it hangs from it, from the row n + 1 below the row of the marks on.
    /// The line from the mark of a start or an end to its bar stands in the row n below that of the marks.
    pub position: usize,
    /// How many of the entries after it, which stand farther left, were looked at while its position was sought: all,
    /// or, where its label could still stand after its mark, those up to the first one that is in the way.
    pub looked: usize,
}

/// The position of an entry's label, and how many of the entries after it were looked at for it.
#[derive(Clone, Copy, Debug)]
struct FoundPosition {
    position: usize,
    looked: usize,
}

impl<'a> PlacedEntry<'a> {
    /// Whether it has a label to show.
    pub fn has_label(&self) -> bool
        ensures value { result ≡ spec.has_label self.now }
    {
        !self.label.is_empty()
    }

    /// Whether it is the start or the end of a span of several lines, so that a line leads from its mark to the span's
    /// bar.
    pub fn takes_space(&self) -> bool
        ensures value { result ≡ spec.takes_space self.now }
    {
        matches!(
            self.entry.annotation_type,
            LineAnnotationType::MultilineStart(_) | LineAnnotationType::MultilineEnd(_)
        )
    }

    /// Whether a stem leads from its mark down to its label, or to the line to its bar.
    pub fn has_stem(&self) -> bool
        ensures value { result ≡ spec.has_stem self.now }
    {
        self.position > 0 && (self.has_label() || self.takes_space())
    }
}

/// The entries of a line from right to left, each with the place of its label, where this many columns of the line are
/// dropped on the left.
///
/// ```text
///       | --^^--         the label of the entry farthest right may stand after its mark, at position 0
///       | | |
///       | | x            position 1
///       | f              position 2
///
///       | ---^^^ a       a label of two pieces at position 0
///       | |      b
///       | |
///       | f              position 2
/// ```
///
/// # Errors
///
/// There is no memory for the list or a label, nor could there be for so many rows.
#[inline(always)]
pub fn placed_entries<'a>(
    alloc: Global,
    dropped: usize,
    layout: Layout,
    entries: &[LineAnnotation<'a>],
) -> Result<Vec<PlacedEntry<'a>>, AllocError>
    requires places { All HasPlace entries.now }
    ensures placed { IfOk result (λ placed. ArePlaced layout (map (shifted dropped) entries.now) placed.items) }
    ensures low { IfOk result (λ placed. All (λ e. IsRowNumber e.position) placed.items) }
{
    let mut placed = labelled_entries(alloc, dropped, layout, entries)?;
    if stand_in_row(layout.label_lines, &placed) {
        return Ok(placed);
    }
    sort_from_right(&mut placed)?;
    set_positions(&mut placed)?;
    Ok(placed)
}

/// Puts entries, which are listed from the last that was given to the first, in order from right to left. Those that
/// begin at one character stand as they were given.
///
/// # Errors
///
/// There is no memory to sort them.
fn sort_from_right(entries: &mut Vec<PlacedEntry>) -> Result<(), AllocError>
    ensures same { OnOk result (IsPermutation (reverse entries.old.items) entries.new.items) }
    ensures order { OnOk result (map (λ e. e.entry) entries.new.items
        ≡ ordered_by spec.is_placed_before (map (λ e. e.entry) (reverse entries.old.items))) }
    ensures from_right { OnOk result (IsFromRight (map (λ e. e.entry) entries.new.items)) }
{
    if begin_apart(entries) {
        return Ok(());
    }
    entries.reverse();
    entries.sort_by_key(|p| Reverse((p.entry.start.display, p.entry.start.char)))?;
    Ok(())
}

/// Whether each of some entries begins left of the one before it.
fn begin_apart(entries: &[PlacedEntry]) -> bool
    ensures yes { result ≡ true → BeginLeftOf (2 ^ 64 - 1) entries.now }
{
    let mut column = usize::MAX;
    for entry in entries {
        if entry.entry.start.display >= column {
            return false;
        }
        column = entry.entry.start.display;
    }
    true
}

/// Whether entries, which are given from right to left, need one row for their marks and labels: each ends, with its
/// label after its mark, before the one right of it begins, and others may stand in its row. Where labels aren't cut
/// they may.
///
/// ```text
///       | ^^^^ a  -- b   ^ c
/// ```
fn stand_in_row(cuts: bool, entries: &[PlacedEntry]) -> bool
    requires columns { All (λ e. IsColumn e.entry.end.display) entries.now }
    requires whole { cuts ≡ false → All SharesRow entries.now }
    ensures yes { result ≡ true → StandInRow (2 ^ 64 - 1) entries.now }
{
    (!cuts || share_rows(entries)) && fit_in_row(entries)
}

/// Whether others may stand in the rows of all of these entries.
fn share_rows(entries: &[PlacedEntry]) -> bool
    ensures value { result ≡ list_all (λ e. not (e.label.last || e.label.past)) entries.now }
{
    entries.iter().all(|entry| entry.label.shares_row())
}

/// Whether each of some entries, from right to left, ends before the one right of it begins. If others may stand in
/// their rows, they need one.
fn fit_in_row(entries: &[PlacedEntry]) -> bool
    requires columns { All (λ e. IsColumn e.entry.end.display) entries.now }
    ensures yes { result ≡ true → All SharesRow entries.now → StandInRow (2 ^ 64 - 1) entries.now }
{
    let mut free = usize::MAX;
    for entry in entries {
        if !fits_left_of(free, entry) {
            return false;
        }
        free = entry.entry.start.display;
    }
    true
}

/// Whether an entry begins before this column, and ends before it with its label after its mark. Starts and ends of
/// spans of several lines do not.
fn fits_left_of(column: usize, placed: &PlacedEntry) -> bool
    requires columns { IsColumn placed.now.entry.end.display }
    ensures yes { result ≡ true → SharesRow placed.now → FitsLeftOf column placed.now }
{
    !placed.takes_space() && placed.entry.start.display < column && label_reach(placed) <= column
}

/// The column before which an entry ends: its mark, or its label after this and the columns that stand free after it.
fn label_reach(placed: &PlacedEntry) -> usize
    requires columns { IsColumn placed.now.entry.end.display }
    ensures value { result ≡ placing.label_reach placed.now }
{
    let end = placed.entry.end.display;
    if placed.has_label() {
        end + (placed.label.width() + GAP)
    } else {
        end
    }
}

/// Gives entries, from right to left, their positions. Where all are starts they are flipped, so that the line to the
/// bar of the one farthest left stands highest.
///
/// # Errors
///
/// There could be no memory for so many rows.
fn set_positions(entries: &mut [PlacedEntry]) -> Result<(), AllocError>
    requires columns { All (λ e. IsColumn e.entry.end.display) entries.old }
    ensures placed { OnOk result (map (λ e. e.position) entries.new ≡ spec.line_positions entries.old) }
    ensures looked { OnOk result (map (λ e. e.looked) entries.new ≡ spec.look_counts 0 entries.old) }
    ensures kept { OnOk result (map placing.unplaced entries.new ≡ map placing.unplaced entries.old) }
    ensures low { OnOk result (All IsRowNumber (spec.line_positions entries.old)) }
{
    let flips = are_starts(entries);
    set_label_positions(entries)?;
    if flips {
        flip(entries);
    }
    Ok(())
}

/// Whether each of these entries is the start of a span of several lines, and has no label to show.
pub fn are_starts(entries: &[PlacedEntry]) -> bool
    ensures value { result ≡ spec.are_starts entries.now }
{
    entries.iter().all(|entry| is_start(entry))
}

/// Whether an entry is the start of a span of several lines, and has no label to show.
fn is_start(placed: &PlacedEntry) -> bool
    ensures value { result ≡ (spec.is_start_part placed.now.entry.annotation_type && not (spec.has_label placed.now)) }
{
    matches!(
        placed.entry.annotation_type,
        LineAnnotationType::MultilineStart(_)
    ) && !placed.has_label()
}

/// Flips positions: the greatest becomes 0, and 0 the greatest.
fn flip(entries: &mut [PlacedEntry])
    ensures flipped { map (λ e. e.position) entries.new ≡ map (λ p. greatest (map (λ e. e.position) entries.old) - p)
        (map (λ e. e.position) entries.old) }
    ensures looked { map (λ e. e.looked) entries.new ≡ map (λ e. e.looked) entries.old }
    ensures kept { map placing.unplaced entries.new ≡ map placing.unplaced entries.old }
{
    let greatest = greatest_position(entries);
    for i in 0..entries.len() {
        let placed = &mut entries[i];
        placed.position = greatest.saturating_sub(placed.position);
    }
}

/// The greatest position of some entries, 0 where there is none.
pub fn greatest_position(entries: &[PlacedEntry]) -> usize
    ensures value { result ≡ greatest (map (λ e. e.position) entries.now) }
{
    let mut greatest = 0;
    for one in entries {
        if greatest < one.position {
            greatest = one.position;
        }
    }
    greatest
}

/// Gives entries, from right to left, the positions of their labels. A label goes below the last one where its rows
/// would not hold both, and one row farther down where a mark stands in its way.
///
/// # Errors
///
/// There could be no memory for so many rows.
fn set_label_positions(entries: &mut [PlacedEntry]) -> Result<(), AllocError>
    requires columns { All (λ e. IsColumn e.entry.end.display) entries.old }
    ensures placed { OnOk result (map (λ e. e.position) entries.new ≡ spec.positions 0 entries.old) }
    ensures looked { OnOk result (map (λ e. e.looked) entries.new ≡ spec.look_counts 0 entries.old) }
    ensures kept { OnOk result (map placing.unplaced entries.new ≡ map placing.unplaced entries.old) }
    ensures low { OnOk result (All IsRowNumber (spec.positions 0 entries.old)) }
{
    let end = askers_end(entries);
    let mut reached = 0;
    for i in 0..entries.len() {
        let (here, after) = found_at(reached, entries, i, end)?;
        let placed = &mut entries[i];
        placed.position = here.position;
        placed.looked = here.looked;
        reached = after;
    }
    Ok(())
}

/// What is found for the entry at place `i` of some, where this position is reached, and the position that is reached
/// after it. Only entries before place `end` may ask for a row of their own.
///
/// # Errors
///
/// There could be no memory for so many rows.
fn found_at(
    reached: usize,
    entries: &[PlacedEntry],
    i: usize,
    end: usize,
) -> Result<(FoundPosition, usize), AllocError>
    requires within { i < length entries.now }
    requires columns { All (λ e. IsColumn e.entry.end.display) entries.now }
    requires low { IsRowNumber reached }
    requires none { AsksBefore end entries.now }
    ensures position { IfOk result (λ found. (d : PlacedEntry) → found.0.position
        ≡ spec.position_at reached (slice_index_or entries.now i d) (drop (i + 1) entries.now)) }
    ensures looked { IfOk result (λ found. (d : PlacedEntry) → found.0.looked
        ≡ spec.looked_after reached (slice_index_or entries.now i d) (drop (i + 1) entries.now)) }
    ensures after { IfOk result (λ found. (d : PlacedEntry) → let e = slice_index_or entries.now i d in
        let others = drop (i + 1) entries.now in
        found.1 ≡ spec.position_after (spec.position_at reached e others) e others) }
    ensures low { IfOk result (λ found. IsRowNumber found.0.position × IsRowNumber found.1) }
{
    found_before(
        reached,
        &entries[i],
        &entries[i + 1..],
        end.saturating_sub(i + 1),
    )
}

/// The same of an entry before others, of which only the first so many may ask for a row of their own.
fn found_before(
    reached: usize,
    entry: &PlacedEntry,
    others: &[PlacedEntry],
    asking: usize,
) -> Result<(FoundPosition, usize), AllocError>
    requires columns { All (λ e. IsColumn e.entry.end.display) others.now }
    requires low { IsRowNumber reached }
    requires none { AsksBefore asking others.now }
    ensures position { IfOk result (λ found. found.0.position ≡ spec.position_at reached entry.now others.now) }
    ensures looked { IfOk result (λ found. found.0.looked ≡ spec.looked_after reached entry.now others.now) }
    ensures after { IfOk result (λ found. found.1
        ≡ spec.position_after (spec.position_at reached entry.now others.now) entry.now others.now) }
    ensures low { IfOk result (λ found. IsRowNumber found.0.position × IsRowNumber found.1) }
{
    let here = position_at(reached, entry, others);
    let asking = asking.min(others.len());
    let after = position_after(here.position, entry, &others[..asking])?;
    Ok((here, after))
}

/// Where the last of these entries ends that may ask for a row of its own: none after it does.
fn askers_end(entries: &[PlacedEntry]) -> usize
    ensures within { result ≤ length entries.now }
    ensures none { AsksBefore result entries.now }
{
    let mut end = 0;
    for i in 0..entries.len() {
        if asks(&entries[i]) {
            end = i + 1;
        }
    }
    end
}

/// Whether an entry may ask for a row of its own: it has a label, or a line to a bar.
fn asks(placed: &PlacedEntry) -> bool
    ensures value { result ≡ placing.asks placed.now }
{
    placed.has_label() || placed.takes_space()
}

/// The position of an entry before others, where this one is reached, and how many of those are looked at for it.
fn position_at(reached: usize, entry: &PlacedEntry, others: &[PlacedEntry]) -> FoundPosition
    requires columns { All (λ e. IsColumn e.entry.end.display) others.now }
    ensures value { result.position ≡ spec.position_at reached entry.now others.now }
    ensures looked { result.looked ≡ spec.looked_after reached entry.now others.now }
    ensures low { result.position ≤ max reached 1 }
{
    if reached > 0 || !entry.has_label() {
        return FoundPosition {
            position: reached,
            looked: others.len(),
        };
    }
    match first_in_the_way(entry, others) {
        Some(k) => FoundPosition {
            position: 1,
            looked: k + 1,
        },
        None => FoundPosition {
            position: 0,
            looked: others.len(),
        },
    }
}

/// The place of the first of these entries whose mark is in the way of a label after the mark of another, if there is
/// one.
fn first_in_the_way(entry: &PlacedEntry, others: &[PlacedEntry]) -> Option<usize>
    requires columns { All (λ e. IsColumn e.entry.end.display) others.now }
    ensures value { result ≡ position (spec.crosses entry.now) others.now }
    ensures within { IfSome result (λ k. k < length others.now) }
{
    others.iter().position(|other| crosses(entry, other))
}

/// The position that is reached after an entry that has this one.
///
/// # Errors
///
/// There could be no memory for so many rows.
fn position_after(
    position: usize,
    entry: &PlacedEntry,
    others: &[PlacedEntry],
) -> Result<usize, AllocError>
    requires columns { All (λ e. IsColumn e.entry.end.display) others.now }
    requires low { IsRowNumber position }
    ensures value { IfOk result (λ after. after ≡ spec.position_after position entry.now others.now) }
    ensures low { IfOk result IsRowNumber }
{
    if is_crowded(position, entry, others) {
        position_below(position, entry.label.height(position))
    } else {
        Ok(position)
    }
}

/// The position that is so many rows below this one.
///
/// # Errors
///
/// There could be no memory for so many rows.
fn position_below(position: usize, height: usize) -> Result<usize, AllocError>
    ensures value { IfOk result (λ below. below ≡ position + height) }
    ensures low { IfOk result IsRowNumber }
{
    match position.checked_add(height) {
        Some(below) if below < MAX_ROWS => Ok(below),
        _ => Err(AllocError),
    }
}

/// Whether an entry farther left needs its label in a row of its own, below that of this entry.
fn is_crowded(position: usize, entry: &PlacedEntry, others: &[PlacedEntry]) -> bool
    requires columns { All (λ e. IsColumn e.entry.end.display) others.now }
    ensures value { result ≡ list_any (λ other. spec.blocks entry.now other || spec.reaches position entry.now other)
        others.now }
{
    if position == 0 && entry.label.has_mark_past() {
        is_crowded_past(entry, others)
    } else {
        is_crowded_near(position, entry, others)
    }
}

/// The same of an entry in the first row whose mark goes past where labels are to end.
fn is_crowded_past(entry: &PlacedEntry, others: &[PlacedEntry]) -> bool
    ensures value { result ≡ list_any (λ other. spec.blocks entry.now other || spec.has_label other) others.now }
{
    others.iter().any(|other| stands_in_row(entry, other))
}

/// The same of one whose mark does not, or that stands in a lower row.
fn is_crowded_near(position: usize, entry: &PlacedEntry, others: &[PlacedEntry]) -> bool
    requires columns { All (λ e. IsColumn e.entry.end.display) others.now }
    ensures value { result ≡ list_any (λ other. spec.blocks entry.now other
        || (spec.has_label other && spec.is_near position entry.now other)) others.now }
{
    others.iter().any(|other| crowds(position, entry, other))
}
