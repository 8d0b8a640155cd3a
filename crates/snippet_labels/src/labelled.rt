//! The entries of a line, each with its label as it is drawn.
ghost use Rattle.std.specs.Prelude.{◌≡◌, ◌∷◌, [], false, true, All, IfOk, length, map, reverse};
ghost use Rattle.std.specs.List.{range_with_len};
ghost use Rattle.snippet_labels.specs.Pieces as spec;
ghost use Rattle.snippet_labels.specs.Placing.{HasItsLabel, HasPlace};
ghost use Rattle.snippet_labels.specs.PlacedEntries.{shifted};
ghost use Rattle.snippet_style.specs.Bounds.{IsAddable, IsColumn};
ghost use Rattle.snippet_text.specs.Normalized.{normalized_chars};

use crate::drawn_label::DrawnLabel;
use crate::positions::PlacedEntry;
use snippet_grid::Layout;
use snippet_parts::LineAnnotation;
use snippet_text::normalized;
use std::alloc::{AllocError, Global};
use std::borrow::CowStr;

/// The entries from the last that is given to the first, each with its label. They are placed as those are that need
/// one row: each at position 0, with all that were given before it looked at.
///
/// # Errors
///
/// There is no memory for the list or a label.
pub(crate) fn labelled_entries<'a>(
    alloc: Global,
    dropped: usize,
    layout: Layout,
    entries: &[LineAnnotation<'a>],
) -> Result<Vec<PlacedEntry<'a>>, AllocError>
    requires places { All HasPlace entries.now }
    ensures entries { IfOk result (λ labelled. map (λ e. e.entry) labelled.items
        ≡ reverse (map (shifted dropped) entries.now)) }
    ensures labels { IfOk result (λ labelled. All (HasItsLabel layout) labelled.items) }
    ensures positions { IfOk result (λ labelled. All (λ e. e.position ≡ 0) labelled.items) }
    ensures looked { IfOk result (λ labelled. map (λ e. e.looked) labelled.items
        ≡ reverse (range_with_len 0 (length entries.now))) }
{
    let cuts = layout.label_lines;
    let mut labelled = Vec::with_capacity(alloc, entries.len())?;
    for i in (0..entries.len()).rev() {
        let given = &entries[i];
        let label = if cuts {
            cut_label(alloc, layout, &shifted(given, dropped))?
        } else {
            whole_label(alloc, given)?
        };
        labelled.push(PlacedEntry {
            entry: shifted(given, dropped),
            label,
            position: 0,
            looked: i,
        })?;
    }
    Ok(labelled)
}

/// An entry, where this many columns of its line are dropped on the left.
pub fn shifted<'a>(entry: &LineAnnotation<'a>, dropped: usize) -> LineAnnotation<'a>
    ensures value { result ≡ shifted dropped entry.now }
{
    let mut shifted = entry.copied();
    shifted.start.display = entry.start.display.saturating_sub(dropped);
    shifted.end.display = entry.end.display.saturating_sub(dropped);
    shifted
}

/// The label of an entry where labels have one piece.
///
/// # Errors
///
/// There is no memory for the text.
fn whole_label<'a>(alloc: Global, entry: &LineAnnotation<'a>) -> Result<DrawnLabel<'a>, AllocError>
    ensures beside { IfOk result (λ label. label.beside ≡ normalized_chars entry.now.label ∷ []) }
    ensures below { IfOk result (λ label. label.below ≡ normalized_chars entry.now.label ∷ []) }
    ensures last { IfOk result (λ label. label.last ≡ false) }
    ensures past { IfOk result (λ label. label.past ≡ false) }
{
    match entry.label.text() {
        Some(text) => Ok(DrawnLabel::whole(normalized(alloc, text)?)),
        None => Ok(DrawnLabel::whole(CowStr::Borrowed(""))),
    }
}

/// The label of an entry where labels are cut.
///
/// # Errors
///
/// There is no memory for the text.
#[inline(never)]
fn cut_label<'a>(
    alloc: Global,
    layout: Layout,
    entry: &LineAnnotation<'a>,
) -> Result<DrawnLabel<'a>, AllocError>
    requires cut { layout.label_lines ≡ true }
    requires start { IsColumn entry.now.start.display }
    requires end { IsColumn entry.now.end.display }
    ensures value { IfOk result (λ label. label ≡ spec.label_of_entry layout entry.now) }
{
    let past = goes_past(layout, entry);
    let Some(text) = entry.label.text() else {
        return Ok(DrawnLabel::none(past));
    };
    let beside = layout.code_cell(beside_column(entry));
    let below = layout.code_cell(entry.start.display);
    DrawnLabel::cut(alloc, layout, beside, below, past, text)
}

/// Whether the mark of an entry, which takes a column at least, goes past where labels are to end, where they are
/// broken.
fn goes_past(layout: Layout, entry: &LineAnnotation) -> bool
    requires start { IsColumn entry.now.start.display }
    requires end { IsColumn entry.now.end.display }
    ensures value { result ≡ spec.goes_past layout entry.now }
{
    let end = entry.end.display.max(entry.start.display + 1);
    breaks_labels(layout) && layout.code_cell(end) > layout.label_end
}

/// Whether labels are broken.
pub fn breaks_labels(layout: Layout) -> bool
    ensures value { result ≡ spec.breaks_labels layout }
{
    layout.label_lines && layout.label_end > 0
}

/// The column at which an entry's label begins that stands after its mark: one after it. A mark that ends at column 0
/// still takes that column.
pub fn beside_column(entry: &LineAnnotation) -> usize
    requires end { IsColumn entry.now.end.display }
    ensures value { result ≡ spec.beside_column entry.now }
    ensures near { IsAddable result }
{
    if entry.end.display == 0 {
        2
    } else {
        entry.end.display + 1
    }
}
