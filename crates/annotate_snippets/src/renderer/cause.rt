//! The rows of an annotated snippet.
//!
//! ```text
//!   --> src/main.rs:3:5     its head
//!    |
//!  3 |     x             its lines, each with its marks and labels
//!    |     ^ here
//!    |                      what sets off a message, or closes the group
//! ```
ghost use Rattle.std.specs.Prelude.{◌≡◌, ◌+◌, ◌≤◌, ◌<◌, ◌^◌, ◌++◌, [], OnOk};
ghost use Rattle.std.specs.Cow.{cow_str_bytes};
ghost use Rattle.snippet_model.specs.declared.snippet.Element.TheVariants.{Cause};
ghost use Rattle.snippet_parts.specs.Kept.{shown_lines};
ghost use Rattle.annotate_snippets.specs.ElementRoom.{HasRoomFor};
ghost use Rattle.annotate_snippets.specs.GraphicForm.{element_rows, rows_of_lines};
ghost use Rattle.annotate_snippets.specs.Page.{cells_of};
ghost use Rattle.annotate_snippets.specs.PreparedReport.{IsCausePrepared};
ghost use Rattle.annotate_snippets.specs.RowsWithoutSource.{cause_head, rows_after_cause};

use crate::renderer::Renderer;
use crate::renderer::element_context::ElementContext;
use crate::renderer::elements::origin_layout;
use crate::renderer::gutter::line_numbers;
use crate::renderer::place::place_in_head;
use crate::renderer::preprocess::PreparedCause;
use snippet_grid::{Layout, StyledBuffer};
use snippet_parts::with_lines_between;
use snippet_strokes::{LineView, draw_snippet};
use snippet_titles::{
    draw_closing, draw_nameless_head, draw_opening_head, draw_primary_head, draw_secondary_head,
    draw_separator,
};
use snippet_window::margin_for;
use std::alloc::AllocError;

/// Draws an annotated snippet below all that stands in the grid.
///
/// # Errors
///
/// There is no memory for the rows.
pub fn draw_cause(
    buffer: &mut StyledBuffer,
    renderer: &Renderer,
    layout: Layout,
    around: ElementContext,
    cause: PreparedCause<'_>,
) -> Result<(), AllocError>
    requires prepared { IsCausePrepared cause }
    requires room { HasRoomFor renderer.now layout (Cause cause.snippet.now) }
    ensures rows { OnOk result (buffer.new ≡ buffer.old
        ++ cells_of (element_rows renderer.now layout around [] (Cause cause.entry.snippet.now))) }
{
    draw_cause_head(buffer, renderer, layout, around, &cause)?;
    draw_cause_lines(buffer, renderer, layout, around.closes(), cause)?;
    draw_after(buffer, renderer, layout, around)
}

/// Draws what an annotated snippet begins with below all that stands in the grid.
fn draw_cause_head(
    buffer: &mut StyledBuffer,
    renderer: &Renderer,
    layout: Layout,
    around: ElementContext,
    cause: &PreparedCause<'_>,
) -> Result<(), AllocError>
    requires prepared { IsCausePrepared cause.now }
    ensures rows { OnOk result (buffer.new ≡ buffer.old
        ++ cause_head renderer.now layout around cause.now.snippet.now) }
{
    let origins = origin_layout(renderer, layout);
    let Some(path) = &cause.snippet.path else {
        return if around.primary {
            draw_opening_head(buffer, origins, around.first)
        } else {
            draw_nameless_head(buffer, origins)
        };
    };
    let path = path.as_str();
    let place = place_in_head(around.primary, cause);
    if around.primary {
        draw_primary_head(buffer, origins, around.first, path, place)
    } else {
        draw_secondary_head(buffer, origins, path, place)
    }
}

/// Draws the lines of an annotated snippet below all that stands in the grid. The group's window may close with them.
fn draw_cause_lines(
    buffer: &mut StyledBuffer,
    renderer: &Renderer,
    layout: Layout,
    closes: bool,
    cause: PreparedCause<'_>,
) -> Result<(), AllocError>
    requires prepared { IsCausePrepared cause }
    requires room { HasRoomFor renderer.now layout (Cause cause.snippet.now) }
    ensures rows { OnOk result (let s = cause.entry.snippet.now in buffer.new ≡ buffer.old
        ++ cells_of (rows_of_lines renderer.now layout closes s []
        (shown_lines s.fold (cow_str_bytes s.source.text) s.markers.items))) }
{
    let alloc = buffer.allocator();
    let numbers = line_numbers(renderer, cause.snippet.line_numbering);
    let room = renderer.term_width.saturating_sub(layout.code);
    let kept = cause.kept;
    let lines = with_lines_between(alloc, &cause.map, kept)?;
    let margin = margin_for(&lines, room);
    let view = LineView {
        margin,
        numbers,
        closes,
    };
    draw_snippet(buffer, layout, view, &lines)
}

/// Draws what stands below an annotated snippet's lines, below all that stands in the grid: what sets off a message, or
/// closes the group.
fn draw_after(
    buffer: &mut StyledBuffer,
    renderer: &Renderer,
    layout: Layout,
    around: ElementContext,
) -> Result<(), AllocError>
    ensures rows { OnOk result (buffer.new ≡ buffer.old ++ rows_after_cause renderer.now layout around) }
{
    if around.place.is_first() && around.next.is_message() {
        draw_separator(buffer, layout)
    } else if around.closes_after() {
        draw_closing(buffer, layout)
    } else {
        Ok(())
    }
}
