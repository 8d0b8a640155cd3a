//! The parts of the source that are coloured as their marks are.
ghost use Rattle.std.specs.Prelude.{◌+◌, ◌-◌, ◌≡◌, OnOk, filter, length, max, not};
ghost use Rattle.snippet_labels.specs.PlacedEntries as spec;
ghost use Rattle.snippet_grid.specs.Grid.{changed_within, row_at};
ghost use Rattle.snippet_grid.specs.Calls.{cells_restyled};
ghost use Rattle.snippet_strokes.specs.StrokeRows.{highlighted_row};
ghost use Rattle.snippet_model.specs.AnnotationKind as kinds;
ghost use Rattle.snippet_style.specs.Bounds.{IsRowEnd, IsWindowColumn};
ghost use Rattle.snippet_style.specs.Glyphs.{underline_role};

use crate::roles::is_primary;
use snippet_grid::{Layout, StyledBuffer};
use snippet_parts::{LineAnnotation, LineAnnotationType};
use std::alloc::AllocError;

/// Gives the characters of a source row, of which this many columns are dropped on the left, that entries ask to
/// highlight the role of these entries' marks, primary ones over those for context. Starts and ends of spans of several
/// lines ask for nothing.
///
/// # Errors
///
/// There is no memory for the row's runs.
pub(crate) fn highlight_source(
    buffer: &mut StyledBuffer,
    layout: Layout,
    dropped: usize,
    row: usize,
    entries: &[LineAnnotation],
) -> Result<(), AllocError>
    requires short { IsRowEnd (length (row_at buffer.old row)) }
    requires near { IsWindowColumn dropped }
    ensures value { OnOk result (buffer.new ≡ changed_within (highlighted_row layout.code dropped
        (filter (λ e. not (spec.is_end_part e.annotation_type)) entries.now)) row (row + 1) buffer.old) }
{
    for entry in entries {
        if entry.highlight_source && !is_end_part(entry.annotation_type) {
            highlight_entry(buffer, layout, dropped, row, entry)?;
        }
    }
    Ok(())
}

/// Whether an entry stands for the start or the end of a span of several lines.
fn is_end_part(part: LineAnnotationType) -> bool
    ensures value { result ≡ spec.is_end_part part }
{
    matches!(
        part,
        LineAnnotationType::MultilineStart(_) | LineAnnotationType::MultilineEnd(_)
    )
}

/// Gives the characters of an entry the role of its mark. Characters and columns differ after wide ones, so that some
/// of them may count as left of the code: there nothing is coloured.
fn highlight_entry(
    buffer: &mut StyledBuffer,
    layout: Layout,
    dropped: usize,
    row: usize,
    entry: &LineAnnotation,
) -> Result<(), AllocError>
    requires short { IsRowEnd (length (row_at buffer.old row)) }
    requires near { IsWindowColumn dropped }
    ensures value { OnOk result (buffer.new ≡ cells_restyled buffer.old row
        (max layout.code (layout.code + entry.now.start.char - dropped))
        (layout.code + entry.now.end.char - dropped)
        (underline_role (kinds.is_primary entry.now.kind)) (kinds.is_primary entry.now.kind)) }
{
    let primary = is_primary(entry.kind);
    buffer.set_style_range(
        row,
        layout
            .code
            .saturating_add(entry.start.char)
            .saturating_sub(dropped)
            .max(layout.code),
        layout
            .code
            .saturating_add(entry.end.char)
            .saturating_sub(dropped),
        layout.decor.underline(primary).style,
        primary,
    )?;
    Ok(())
}
