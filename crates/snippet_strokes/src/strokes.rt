//! All that stands below the source row of a line, and the bars beside it of spans that begin or end there.
ghost use Rattle.std.specs.Prelude.{◌≡◌, ◌+◌, ◌<◌, ◌++◌, ◌∷◌, [], ℕ, if◌then◌else◌, All, IfOk, IfSome, List, OnOk};
ghost use Rattle.std.specs.Prelude.{◌-◌, false, length, map, replicate, true};
ghost use Rattle.std.specs.List.{list_any};
ghost use Rattle.std.specs.Option.{option_map_or};
ghost use Rattle.std.specs.Global.{Vec};
ghost use Rattle.snippet_labels.specs.PlacedEntries.{shifted};
ghost use Rattle.snippet_labels.specs.Placing.{ArePlaced, HasPlace};
ghost use Rattle.snippet_parts.specs.Entries.{is_wide_entry};
ghost use Rattle.snippet_style.specs.Glyphs.{placeholder_of};
ghost use Rattle.snippet_labels.specs.Pieces.{breaks_labels};
ghost use Rattle.snippet_strokes.specs.Squeezed.{middles_replaced, squeezed};
ghost use Rattle.snippet_strokes.specs.Drawable.{AreDrawable, IsReady};
ghost use Rattle.snippet_strokes.specs.LineRows.{own_rows};
ghost use Rattle.snippet_style.specs.Cell.{Cell};
ghost use Rattle.snippet_labels.specs.Positions.{pieces_of};
ghost use Rattle.snippet_strokes.specs.Drawing as spec;
ghost use Rattle.snippet_strokes.specs.Places.{AreEnough, HasRows};
ghost use Rattle.snippet_strokes.specs.SourceRows.{bare_row};
ghost use Rattle.snippet_strokes.specs.Strokes.{line_strokes};
ghost use Rattle.snippet_strokes.specs.PaintedStrokes.{strokes_under_marks};
ghost use Rattle.snippet_strokes.specs.DrawnBars.{is_whole_line};
ghost use Rattle.snippet_strokes.specs.Painting.{painting_order};
ghost use Rattle.snippet_strokes.specs.Writes.{painted};
ghost use Rattle.snippet_style.specs.Separators.{closing_row, separator_row};
ghost use Rattle.snippet_style.specs.Bounds.{AreRows, IsCount, IsRowNumber};

use crate::canvas::Canvas;
use crate::cell_rows::CellRows;
use crate::connectors::draw_connectors;
use crate::corners::{draw_corners, draw_tops};
use crate::cuts::{cut_wide, is_wide, overlapping, with_blocks};
use crate::labels::draw_labels;
use crate::marks::draw_marks;
use crate::row::{begin_closing_row, begin_rows};
use crate::squeezed::squeezed_line;
use crate::stems::draw_stems;
use snippet_grid::{Layout, StyledBuffer};
use snippet_labels::{PlacedEntry, are_starts, breaks_labels, greatest_position, placed_entries};
use snippet_parts::LineAnnotation;
use snippet_style::DecorStyle;
use std::alloc::AllocError;

/// Where the strokes of a line stand.
#[derive(Clone, Copy, Debug)]
pub(crate) struct StrokePlace {
    /// The number of the line's source row, below which they stand.
    pub(crate) row: usize,
    /// How many columns of the line are dropped on the left.
    pub(crate) dropped: usize,
    /// The room: to how many columns wide spans are cut.
    pub(crate) room: usize,
    /// Whether the window closes with the line.
    pub(crate) closes: bool,
}

/// Draws the strokes of a line below its source row, which is the last one: none if the line has no entries, and else
/// the row of its marks and the rows of the labels that hang from them and of the lines that lead to bars. Where the
/// window closes with the line, its last row begins with the closing glyph; a line with no entries then has a row for
/// it.
///
/// ```text
///       | --^^--             │ ┬─┯━──             1 | |   b)             1 │ ┃   b)
///       | | |                │ │ │                  | |____^ here          │ ┗━━━━┛ here
///       | | x                │ │ x
///       | f                  ╰╴f
/// ```
///
/// What is drawn later stands over what was there: stems over separators and over the lines that lead to bars, labels
/// over stems, marks over all. The bars of spans that begin or end on the line are drawn as far as the line's rows go;
/// those that run past it are left to the caller.
///
/// # Errors
///
/// There is no memory for the rows, the labels or the list of entries.
pub(crate) fn draw_strokes(
    buffer: &mut StyledBuffer,
    layout: Layout,
    place: StrokePlace,
    entries: &[LineAnnotation],
) -> Result<(), AllocError>
    requires last { length buffer.old ≡ place.row + 1 }
    requires entries { AreDrawable layout entries.now }
    ensures value { OnOk result ((text : List ℕ) (above : List (List Cell)) (source : List Cell)
        → is_whole_line text entries.now ≡ false → buffer.old ≡ above ++ source ∷ []
        → buffer.new ≡ above ++ own_rows layout place.room place.closes text place.dropped entries.now source) }
{
    if entries.is_empty() {
        return close_below(buffer, layout, place.closes);
    }
    let alloc = buffer.allocator();
    let mut placed = placed_line(buffer, layout, place, entries)?;
    let overlapped = overlapping(alloc, layout.decor, place.room, &placed)?;
    let count = row_count(layout, &placed);
    draw_rows(buffer, layout, place, count, &mut placed)?;
    let kept = with_blocks(overlapped, layout, &placed);
    cut_wide(buffer, layout, place.row, place.room, &placed, &kept)
}

/// The entries of a line in their places. Where labels are broken the middles of wide spans are cut out of its source
/// row first, which is the last one.
///
/// # Errors
///
/// There is no memory for the row, the labels or the lists of entries.
#[inline(always)]
fn placed_line<'a>(
    buffer: &mut StyledBuffer,
    layout: Layout,
    place: StrokePlace,
    entries: &[LineAnnotation<'a>],
) -> Result<Vec<PlacedEntry<'a>>, AllocError>
    requires last { length buffer.old ≡ place.row + 1 }
    requires entries { AreDrawable layout entries.now }
    ensures placed { IfOk result (λ placed. ArePlaced layout
        (squeezed layout place.room (map (shifted place.dropped) entries.now)).0 placed.items) }
    ensures low { IfOk result (λ placed. All (λ e. IsRowNumber e.position) placed.items) }
    ensures last { OnOk result (length buffer.new ≡ place.row + 1) }
    ensures row { OnOk result ((above : List (List Cell)) (source : List Cell) → buffer.old ≡ above ++ source ∷ []
        → buffer.new ≡ above ++ middles_replaced layout place.room
        (squeezed layout place.room (map (shifted place.dropped) entries.now)).1 source ∷ []) }
{
    let alloc = buffer.allocator();
    let squeezed = squeezed_if_wide(buffer, layout, place, entries)?;
    let dropped = if squeezed.is_some() { 0 } else { place.dropped };
    let line = squeezed.as_deref().unwrap_or(entries);
    placed_entries(alloc, dropped, layout, line)
}

/// The entries of a line as far left as its columns are dropped, without the middles of wide ones, which are cut out of
/// its source row; none, if nothing is cut out of the line.
///
/// # Errors
///
/// There is no memory for the row or the list.
#[inline(always)]
fn squeezed_if_wide<'a>(
    buffer: &mut StyledBuffer,
    layout: Layout,
    place: StrokePlace,
    entries: &[LineAnnotation<'a>],
) -> Result<Option<Vec<LineAnnotation<'a>>>, AllocError>
    requires last { length buffer.old ≡ place.row + 1 }
    requires entries { AreDrawable layout entries.now }
    ensures value { IfOk result (λ line. let es = map (shifted place.dropped) entries.now in
        option_map_or (λ (l : Vec LineAnnotation). l.items) line es ≡ (squeezed layout place.room es).0) }
    ensures drawable { IfOk result (λ line. IfSome line (λ l. AreDrawable layout l.items)) }
    ensures last { OnOk result (length buffer.new ≡ place.row + 1) }
    ensures row { OnOk result ((above : List (List Cell)) (source : List Cell) → buffer.old ≡ above ++ source ∷ []
        → buffer.new ≡ above ++ middles_replaced layout place.room
        (squeezed layout place.room (map (shifted place.dropped) entries.now)).1 source ∷ []) }
{
    if !(breaks_labels(layout) && has_wide_entry(place.room, layout.decor, entries)) {
        return Ok(None);
    }
    let line = squeezed_line(
        buffer,
        layout,
        place.row,
        place.room,
        place.dropped,
        entries,
    )?;
    Ok(Some(line))
}

/// Whether one of these entries is wide, in a room of this many columns.
fn has_wide_entry(room: usize, decor: DecorStyle, entries: &[LineAnnotation]) -> bool
    requires columns { All HasPlace entries.now }
    ensures value { result ≡ list_any (is_wide_entry room (length (placeholder_of decor))) entries.now }
{
    entries.iter().any(|entry| is_wide(room, decor, entry))
}

/// Begins so many rows for the strokes of a line below its source row, which is the last one, and draws the strokes.
/// The entries are put in the order of painting.
///
/// # Errors
///
/// There is no memory for the rows, or to sort the entries.
fn draw_rows(
    buffer: &mut StyledBuffer,
    layout: Layout,
    place: StrokePlace,
    count: usize,
    placed: &mut Vec<PlacedEntry>,
) -> Result<(), AllocError>
    requires some { 0 < count }
    requires last { length buffer.old ≡ place.row + 1 }
    requires rows { All (HasRows (place.row + 1) (length buffer.old + count)) placed.old.items }
    requires ready { All (IsReady layout) placed.old.items }
    ensures order { OnOk result (placed.new.items ≡ painting_order placed.old.items) }
    ensures painted { OnOk result (buffer.new ≡ painted (line_strokes layout place.row
        (length buffer.old + count) placed.old.items (painting_order placed.old.items))
        (buffer.old ++ replicate (count - 1) (separator_row layout.decor layout.gutter)
        ++ bare_row layout.decor layout.gutter place.closes ∷ [])) }
    ensures small { OnOk result (AreRows (length buffer.old + count)) }
    ensures count { OnOk result (length buffer.new ≡ length buffer.old + count) }
{
    if placed.len() <= FEW {
        draw_few(buffer, layout, place, count, placed)
    } else {
        draw_many(buffer, layout, place, count, placed)
    }
}

/// How many entries are few: painted in the grid, strokes of more would move each other.
const FEW: usize = 2;

/// Does the same of few entries: their strokes are painted one over another in the grid.
///
/// # Errors
///
/// There is no memory for the rows, or to sort the entries.
fn draw_few(
    buffer: &mut StyledBuffer,
    layout: Layout,
    place: StrokePlace,
    count: usize,
    placed: &mut Vec<PlacedEntry>,
) -> Result<(), AllocError>
    requires some { 0 < count }
    requires last { length buffer.old ≡ place.row + 1 }
    requires rows { All (HasRows (place.row + 1) (length buffer.old + count)) placed.old.items }
    requires ready { All (IsReady layout) placed.old.items }
    ensures order { OnOk result (placed.new.items ≡ painting_order placed.old.items) }
    ensures painted { OnOk result (buffer.new ≡ painted (line_strokes layout place.row
        (length buffer.old + count) placed.old.items (painting_order placed.old.items))
        (buffer.old ++ replicate (count - 1) (separator_row layout.decor layout.gutter)
        ++ bare_row layout.decor layout.gutter place.closes ∷ [])) }
    ensures small { OnOk result (AreRows (length buffer.old + count)) }
    ensures count { OnOk result (length buffer.new ≡ length buffer.old + count) }
{
    begin_rows(buffer, layout, place.closes, count)?;
    draw_under_marks(buffer, layout, place.row, placed)?;
    draw_marks(buffer, layout, place.row + 1, placed)
}

/// Does the same of many entries. Their strokes are painted one over another in rows that are kept cell by cell, the
/// first of which stands for the source row, and these are added below it: what is drawn into an upper row of a grid
/// moves all that stands in the rows below.
///
/// # Errors
///
/// There is no memory for the rows, or to sort the entries.
fn draw_many(
    buffer: &mut StyledBuffer,
    layout: Layout,
    place: StrokePlace,
    count: usize,
    placed: &mut Vec<PlacedEntry>,
) -> Result<(), AllocError>
    requires some { 0 < count }
    requires last { length buffer.old ≡ place.row + 1 }
    requires rows { All (HasRows (place.row + 1) (length buffer.old + count)) placed.old.items }
    requires ready { All (IsReady layout) placed.old.items }
    ensures order { OnOk result (placed.new.items ≡ painting_order placed.old.items) }
    ensures painted { OnOk result (buffer.new ≡ painted (line_strokes layout place.row
        (length buffer.old + count) placed.old.items (painting_order placed.old.items))
        (buffer.old ++ replicate (count - 1) (separator_row layout.decor layout.gutter)
        ++ bare_row layout.decor layout.gutter place.closes ∷ [])) }
    ensures small { OnOk result (AreRows (length buffer.old + count)) }
    ensures count { OnOk result (length buffer.new ≡ length buffer.old + count) }
{
    draw_tops(buffer, layout, placed)?;
    let mut rows = CellRows::below_source(buffer.allocator(), count)?;
    begin_rows(&mut rows, layout, place.closes, count)?;
    draw_under_marks(&mut rows, layout, 0, placed)?;
    draw_marks(&mut rows, layout, 1, placed)?;
    rows.append_below_source(buffer)
}

/// Paints the strokes of a line but its marks into the rows that are begun for them below its source row, which has
/// this number.
fn draw_under_marks<C: Canvas>(
    buffer: &mut C,
    layout: Layout,
    row: usize,
    placed: &[PlacedEntry],
) -> Result<(), AllocError>
    requires enough { AreEnough layout row (length (C.rows buffer.old)) placed.now }
    ensures painted { OnOk result (C.rows buffer.new
        ≡ painted (strokes_under_marks layout row (length (C.rows buffer.old)) placed.now) (C.rows buffer.old)) }
    ensures count { OnOk result (length (C.rows buffer.new) ≡ length (C.rows buffer.old)) }
{
    draw_connectors(buffer, layout, row + 1, placed)?;
    draw_corners(buffer, layout, row, placed)?;
    draw_stems(buffer, layout, row + 1, placed)?;
    draw_labels(buffer, layout, row + 1, placed)
}

/// Adds a closing row where the window closes with a line that has no entries.
fn close_below(buffer: &mut StyledBuffer, layout: Layout, closes: bool) -> Result<(), AllocError>
    ensures added { OnOk result (buffer.new ≡ buffer.old
        ++ (if closes then closing_row layout.decor layout.gutter ∷ [] else [])) }
{
    if closes {
        begin_closing_row(buffer, layout)?;
    }
    Ok(())
}

/// How many rows the strokes of some entries take: that of the marks, and as many below it as any of them needs.
fn row_count(layout: Layout, placed: &[PlacedEntry]) -> usize
    requires low { All (λ e. IsRowNumber e.position) placed.now }
    requires few { All (λ e. AreRows (length (pieces_of e))) placed.now }
    requires whole { layout.label_lines ≡ false → All (λ e. length (pieces_of e) ≡ 1) placed.now }
    ensures value { result ≡ spec.row_count placed.now }
{
    if layout.label_lines {
        lowest_piece(placed) + 1
    } else {
        lowest_label(placed) + 1
    }
}

/// How many rows below that of the marks any of some entries needs.
fn lowest_piece(placed: &[PlacedEntry]) -> usize
    requires low { All (λ e. IsRowNumber e.position) placed.now }
    requires few { All (λ e. AreRows (length (pieces_of e))) placed.now }
    ensures value { result + 1 ≡ spec.row_count placed.now }
    ensures small { IsCount result }
{
    let starts = are_starts(placed);
    let mut below: usize = 0;
    for entry in placed {
        below = below.max(rows_below(starts, entry));
    }
    below
}

/// The same where each label has one piece: one that hangs stands a row below its position.
fn lowest_label(placed: &[PlacedEntry]) -> usize
    requires low { All (λ e. IsRowNumber e.position) placed.now }
    requires whole { All (λ e. length (pieces_of e) ≡ 1) placed.now }
    ensures value { result + 1 ≡ spec.row_count placed.now }
    ensures small { IsCount result }
{
    let lowest = greatest_position(placed);
    if lowest == 0 || are_starts(placed) {
        lowest
    } else {
        lowest + 1
    }
}

/// How many rows an entry needs below that of the marks: down to the last piece of its label. Starts, which have no
/// label, need those down to their lines to bars.
fn rows_below(starts: bool, placed: &PlacedEntry) -> usize
    requires low { IsRowNumber placed.now.position }
    requires few { AreRows (length (pieces_of placed.now)) }
    ensures value { result ≡ spec.rows_below starts placed.now }
    ensures small { IsCount result }
{
    if starts {
        placed.position
    } else if placed.position == 0 {
        placed.label.height(0).saturating_sub(1)
    } else {
        placed.position + placed.label.height(placed.position)
    }
}
