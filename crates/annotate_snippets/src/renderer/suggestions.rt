//! The rows of a snippet of patches.
//!
//! ```text
//!   --> src/lib.rs:1:5      its path, where that is another than the group's file
//!    |
//!  1 | foo(x)             the lines as they will be
//!    |     +
//! ```
ghost use Rattle.std.specs.Prelude.{◌≡◌, ◌+◌, ◌++◌, List, OnOk, Some};
ghost use Rattle.snippet_model.specs.declared.snippet.Element.TheVariants.{Suggestion};
ghost use Rattle.snippet_style.specs.Cell.{Cell};
ghost use Rattle.snippet_lines.specs.Place.{start_location};
ghost use Rattle.snippet_splice.specs.ShownText.{first_start};
ghost use Rattle.snippet_suggest.specs.Given.{trimmed_of};
ghost use Rattle.snippet_suggest.specs.PreparedSuggestion.{IsPrepared};
ghost use Rattle.annotate_snippets.specs.Gutter.{numbered_source};
ghost use Rattle.annotate_snippets.specs.ElementRoom.{shared_row, drawn_rows, HasPathFor, begins_in_row_above};
ghost use Rattle.annotate_snippets.specs.RowsWithoutSource as spec;
ghost use Rattle.annotate_snippets.specs.ElementRoom as room;

use crate::renderer::Renderer;
use crate::renderer::element_context::ElementContext;
use crate::renderer::elements::origin_layout;
use crate::renderer::gutter::line_numbers;
use snippet_grid::{Layout, StyledBuffer};
use snippet_suggest::{PreparedSuggestion, SuggestionLayout, SuggestionStart, draw_suggestion};
use snippet_titles::{OriginLocation, draw_primary_head};
use std::alloc::AllocError;

/// Draws a snippet of patches below all that stands in the grid, or from its last row on.
///
/// # Errors
///
/// There is no memory for the rows.
pub fn draw_patches(
    buffer: &mut StyledBuffer,
    renderer: &Renderer,
    layout: Layout,
    around: ElementContext,
    suggestion: &PreparedSuggestion<'_>,
) -> Result<(), AllocError>
    requires prepared { IsPrepared suggestion.now }
    requires path { HasPathFor around.start suggestion.now.snippet.now }
    ensures rows { (above : List (List Cell)) (found : List Cell) → buffer.old ≡ above
        ++ shared_row (begins_in_row_above around) found
        → OnOk result (buffer.new ≡ above
        ++ drawn_rows renderer.now layout around found (Suggestion suggestion.now.snippet.now)) }
{
    if around.start == SuggestionStart::Path {
        draw_path(buffer, renderer, layout, around.first, suggestion)?;
    }
    let suggested = SuggestionLayout {
        base: layout,
        numbers: line_numbers(renderer, suggestion.snippet.line_numbering),
    };
    let follows = !around.next.is_nothing();
    draw_suggestion(buffer, &suggested, suggestion, around.start, follows)
}

/// Draws the path of a snippet of patches below all that stands in the grid, and the row that sets it off. A snippet
/// without a path has neither.
fn draw_path(
    buffer: &mut StyledBuffer,
    renderer: &Renderer,
    layout: Layout,
    first: bool,
    suggestion: &PreparedSuggestion<'_>,
) -> Result<(), AllocError>
    requires prepared { IsPrepared suggestion.now }
    ensures rows { OnOk result (buffer.new ≡ buffer.old
        ++ room.path_head renderer.now layout first suggestion.now.snippet.now) }
{
    let Some(path) = &suggestion.snippet.path else {
        return Ok(());
    };
    let origins = origin_layout(renderer, layout);
    let place = first_place(suggestion);
    draw_primary_head(buffer, origins, first, path.as_str(), place)
}

/// The place at which the first patch starts.
fn first_place(suggestion: &PreparedSuggestion<'_>) -> OriginLocation
    requires prepared { IsPrepared suggestion.now }
    ensures value { let s = suggestion.now.snippet.now in
        let at = start_location (numbered_source s) (first_start (trimmed_of s)) in
        result ≡ record { line = Some at.line; column = Some (at.char + 1) } }
{
    let Some(patch) = suggestion.splice.patches.first() else {
        return OriginLocation {
            line: None,
            column: None,
        };
    };
    let span = patch.span.start..patch.span.end;
    let (start, _) = suggestion.map.span_to_locations(span);
    OriginLocation {
        line: Some(start.line),
        column: Some(start.char + 1),
    }
}
