//! The rows of a group's title.
ghost use Rattle.std.specs.Prelude.{◌≡◌, ◌≤◌, ◌++◌, OnOk, Some};
ghost use Rattle.snippet_model.specs.Fits.{TitleFits};
ghost use Rattle.annotate_snippets.specs.RowsWithoutSource.{rows_after_title, title_part};
ghost use Rattle.annotate_snippets.specs.declared.renderer.Renderer.{Renderer};

use crate::renderer::Renderer;
use crate::renderer::element_context::{GroupContext, Next};
use snippet_grid::StyledBuffer;
use snippet_model::snippet::Title;
use snippet_titles::{draw_closing, draw_separator};
use std::alloc::AllocError;

/// Draws a group's title below all that stands in the grid, with what sets off a message that follows, or closes the
/// group.
///
/// ```text
/// error[E0308]: mismatched types
///  |
/// ```
///
/// # Errors
///
/// There is no memory for the rows.
pub fn draw_title<'a>(
    buffer: &mut StyledBuffer<'a>,
    renderer: &Renderer,
    group: &GroupContext<'_>,
    next: Next,
    title: &'a Title<'a>,
) -> Result<(), AllocError>
    requires fits { TitleFits title.now }
    ensures rows { OnOk result (buffer.new ≡ buffer.old
        ++ title_part renderer.now group.now.layout group.now.place next (Some title.now)) }
{
    snippet_titles::draw_title(buffer, renderer.hyperlink, title)?;
    draw_below_title(buffer, group, next, title)
}

/// Draws what sets off a message that follows a group's title, or closes the group, below all that stands in the grid.
///
/// # Errors
///
/// There is no memory for the row.
pub fn draw_below_title(
    buffer: &mut StyledBuffer<'_>,
    group: &GroupContext<'_>,
    next: Next,
    title: &Title<'_>,
) -> Result<(), AllocError>
    ensures rows { OnOk result ((r : Renderer) → buffer.new ≡ buffer.old
        ++ rows_after_title r group.now.layout group.now.place next title.now.allows_styling) }
{
    if next.is_message() {
        draw_separator(buffer, group.layout)
    } else if next.is_nothing() && group.place.is_first_of_several() && !title.allows_styling {
        draw_closing(buffer, group.layout)
    } else {
        Ok(())
    }
}
