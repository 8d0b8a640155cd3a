//! The marks below what a suggestion puts in.
ghost use Rattle.std.specs.Prelude.{◌≡◌, ◌+◌, ◌-◌, ◌++◌, ◌∷◌, [], List, All, OnOk, length};
ghost use Rattle.snippet_splice.specs.TrimmedEdits.{trimmed_edit_of};
ghost use Rattle.snippet_splice.specs.EditStretches.{capped};
ghost use Rattle.snippet_suggest.specs.Marks.{edit_columns, left_of, patch_mark_end, mark_glyph_of, mark_start};
ghost use Rattle.snippet_suggest.specs.Marks.{text_width, with_mark, with_marks};
ghost use Rattle.snippet_suggest.specs.Moves.{AreMoves, shift_of, edits_at};
ghost use Rattle.snippet_suggest.specs.declared.marks.PatchColumns.{PatchColumns};
ghost use Rattle.snippet_style.specs.Cell.{Cell};
ghost use Rattle.snippet_lines.specs.IsSpan.{IsSpan};
ghost use Rattle.snippet_style.specs.Bounds.{HasNext};

use crate::kind::{is_addition, is_blank};
use crate::layout::SuggestionLayout;
use snippet_grid::StyledBuffer;
use snippet_parts::SourceMap;
use snippet_splice::TrimmedPatch;
use snippet_style::ElementStyle;
use snippet_text::char_width;
use std::alloc::{AllocError, Global};

/// The columns after the last one that is marked; no row has so many cells.
const MAX_COLUMN: usize = 1 << 60;

/// The columns of a patch.
#[derive(Clone, Copy, Drop)]
pub(crate) struct PatchColumns {
    /// The column at which its span starts.
    start: usize,
    /// The column at which its span ends.
    end: usize,
    /// The width of its replacement.
    width: usize,
}

/// How far columns move: first to the right, and then to the left.
#[derive(Clone, Copy, Drop)]
struct Shift {
    right: usize,
    left: usize,
}

impl Shift {
    /// Columns stay.
    fn none() -> Shift
        ensures value { result ≡ record { right = 0; left = 0 } }
    {
        Shift { right: 0, left: 0 }
    }

    /// The shift with what one more patch makes the line longer or shorter.
    fn with(self, columns: PatchColumns) -> Shift
        ensures value { (earlier : List PatchColumns) → self ≡ shift_of earlier → result
            ≡ shift_of (earlier ++ columns ∷ []) }
    {
        Shift {
            right: self
                .right
                .saturating_add(columns.width)
                .saturating_add(columns.start),
            left: self.left.saturating_add(columns.end),
        }
    }

    /// Where a column stands then.
    fn moved(self, column: usize) -> usize
        ensures value { result ≡ capped (column + self.right) - self.left }
    {
        column.saturating_add(self.right).saturating_sub(self.left)
    }
}

/// The patches before one, which move it.
#[derive(Drop)]
struct Moves {
    /// Their columns.
    patches: Vec<PatchColumns>,
    /// What they move together.
    all: Shift,
    /// The greatest column at which one of them ends.
    end: usize,
}

impl Moves {
    /// No patches.
    fn none(alloc: Global) -> Moves
        ensures of { AreMoves [] result }
    {
        Moves {
            patches: Vec::new(alloc),
            all: Shift::none(),
            end: 0,
        }
    }

    /// Adds a patch.
    fn push(&mut self, columns: PatchColumns) -> Result<(), AllocError>
        ensures of { OnOk result ((earlier : List PatchColumns) → AreMoves earlier self.old
            → AreMoves (earlier ++ columns ∷ []) self.new) }
    {
        self.patches.push(columns)?;
        self.all = self.all.with(columns);
        self.end = self.end.max(columns.end);
        Ok(())
    }

    /// How those that end at a column or left of it move what starts there. Patches of one line all do, and are not
    /// looked at one by one.
    fn before(&self, start: usize) -> Shift
        ensures value { (earlier : List PatchColumns) → AreMoves earlier self.now → result
            ≡ shift_of (left_of start earlier) }
    {
        if self.end <= start {
            return self.all;
        }
        let mut shift = Shift::none();
        for columns in &self.patches {
            if columns.end <= start {
                shift = shift.with(*columns);
            }
        }
        shift
    }
}

/// Draws the marks below the one line of a suggestion, into a row that is there: `+` below what is added, else the
/// glyph of what is changed. Each patch moves those after it by what it makes the line longer or shorter.
///
/// ```text
///     1 | let mut x = 1;
///       |     ++++
/// ```
///
/// # Errors
///
/// There is no memory for the cells.
pub(crate) fn draw_marks(
    buffer: &mut StyledBuffer,
    layout: &SuggestionLayout,
    row: usize,
    map: &SourceMap<'_>,
    patches: &[TrimmedPatch<'_>],
) -> Result<(), AllocError>
    requires row { HasNext row }
    requires spans { All (λ p. IsSpan map.now.text p.span.start p.span.end) patches.now }
    ensures cells { (above : List (List Cell)) (last : List Cell) → row ≡ length above → buffer.old ≡ above ++ last ∷ []
        → OnOk result (buffer.new ≡ above ++ with_marks layout.now map.now [] (edits_at patches.now) last ∷ []) }
{
    let alloc = buffer.allocator();
    let mut moves = Moves::none(alloc);
    for patch in patches {
        let columns = patch_columns(map, patch);
        let (start, end) = marked_columns(moves.before(columns.start), columns, patch.replacement);
        let mark = patch_mark(layout, map, patch);
        draw_mark(buffer, layout, row, start, end, mark)?;
        moves.push(columns)?;
    }
    Ok(())
}

/// The mark below what a patch puts in.
fn patch_mark(layout: &SuggestionLayout, map: &SourceMap<'_>, patch: &TrimmedPatch<'_>) -> char
    ensures value { IsSpan map.now.text patch.now.span.start patch.now.span.end
        → result ≡ mark_glyph_of layout.now.base.decor map.now.text (trimmed_edit_of patch.now) }
{
    let base = layout.base;
    if is_addition(map.source(), patch) {
        base.decor.added_mark()
    } else {
        base.decor.changed_mark()
    }
}

/// Draws a mark into the columns from `start` to before `end` of a row, which shows no line.
fn draw_mark(
    buffer: &mut StyledBuffer,
    layout: &SuggestionLayout,
    row: usize,
    start: usize,
    end: usize,
    mark: char,
) -> Result<(), AllocError>
    requires row { HasNext row }
    ensures cells { (above : List (List Cell)) (last : List Cell) → row ≡ length above → buffer.old ≡ above ++ last ∷ []
        → OnOk result (buffer.new ≡ above ++ with_mark layout.now mark start end last ∷ []) }
{
    let base = layout.base;
    for column in start..end.min(MAX_COLUMN) {
        let cell = base.inner_cell() + column;
        buffer.putc(row, cell, mark, ElementStyle::Addition)?;
    }
    Ok(())
}

/// The columns of a patch of a source.
fn patch_columns(map: &SourceMap<'_>, patch: &TrimmedPatch<'_>) -> PatchColumns
    requires span { IsSpan map.now.text patch.now.span.start patch.now.span.end }
    ensures value { result ≡ edit_columns map.now (trimmed_edit_of patch.now) }
{
    let (start, end) = map.span_to_locations(patch.span.start..patch.span.end);
    PatchColumns {
        start: start.display,
        end: end.display,
        width: text_width(patch.replacement),
    }
}

/// The columns below a replacement, so far moved, without its outer whitespace, or below all of it if it is blank.
fn marked_columns(shift: Shift, columns: PatchColumns, replacement: &str) -> (usize, usize)
    ensures value { (earlier : List PatchColumns) → shift ≡ shift_of (left_of columns.start earlier)
        → result ≡ (mark_start earlier columns replacement.now, patch_mark_end earlier columns replacement.now) }
{
    let (lead, width) = if is_blank(replacement) {
        (0, columns.width)
    } else {
        let lead = replacement
            .len()
            .saturating_sub(replacement.trim_start().len());
        (lead, text_width(replacement.trim()))
    };
    let from = columns.start.saturating_add(lead);
    (shift.moved(from), shift.moved(from.saturating_add(width)))
}

/// The columns of a text.
fn text_width(text: &str) -> usize
    ensures value { result ≡ text_width text.now }
{
    let mut width = 0usize;
    for c in text.chars() {
        width = width.saturating_add(char_width(c));
    }
    width
}
