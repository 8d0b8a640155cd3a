//! The rows of a group's elements, one below the other.
ghost use Rattle.std.specs.Prelude.{◌≡◌, ◌+◌, ◌<◌, ◌++◌, ◌&&◌, All, List, OnOk, if◌then◌else◌, map, not};
ghost use Rattle.std.specs.List.{flat_map};
ghost use Rattle.std.specs.Option.{option_copied};
ghost use Rattle.snippet_style.specs.Cell.{Cell};
ghost use Rattle.annotate_snippets.specs.ElementContext.{is_end};
ghost use Rattle.annotate_snippets.specs.ElementRoom.{CanStandIn, begins_in_row_above, HasRoomFor, shared_row};
ghost use Rattle.annotate_snippets.specs.ElementRoom.{drawn_rows};
ghost use Rattle.annotate_snippets.specs.Page.{cells_of};
ghost use Rattle.annotate_snippets.specs.PreparedReport.{IsElementPrepared, element_of};
ghost use Rattle.annotate_snippets.specs.Printing.{rows_of_elements};
ghost use Rattle.annotate_snippets.specs.RowsWithoutSource as spec;
ghost use Rattle.annotate_snippets.specs.RowsWithoutSource.{origin_rows};
ghost use Rattle.snippet_model.specs.Fits.{MessageFits};
ghost use Rattle.snippet_model.specs.Heading.{heading_of_message};
ghost use Rattle.snippet_titles.specs.HeadingRows.{heading_rows};
ghost use Rattle.snippet_titles.specs.Origin.{primary_start};
ghost use Rattle.snippet_titles.specs.declared.origin.FileStart.TheVariants.{Alone, Secondary};
ghost use Rattle.snippet_titles.specs.declared.style.TitleStyle.TheVariants as style;

use crate::renderer::Renderer;
use crate::renderer::cause::draw_cause;
use crate::renderer::element_context::{ContextWalk, ElementContext, GroupContext};
use crate::renderer::preprocess::PreparedElement;
use crate::renderer::suggestions::draw_patches;
use snippet_grid::{Layout, StyledBuffer};
use snippet_model::snippet::{Message, Origin};
use snippet_titles::{
    FileStart, MessageContext, OriginLayout, OriginLocation, TitleStyle, draw_closing,
    draw_heading, draw_origin, draw_padding,
};
use std::alloc::AllocError;
use std::collections::VecDeque;

/// Draws a group's elements below all that stands in the grid.
///
/// # Errors
///
/// There is no memory for the rows.
pub fn draw_elements<'a>(
    buffer: &mut StyledBuffer<'a>,
    renderer: &Renderer,
    group: &GroupContext<'_>,
    elements: Vec<PreparedElement<'a>>,
) -> Result<(), AllocError>
    requires prepared { All IsElementPrepared elements.items }
    requires room { All (λ e. HasRoomFor renderer.now group.now.layout (element_of e)) elements.items }
    ensures rows { OnOk result (buffer.new ≡ buffer.old ++ flat_map cells_of (rows_of_elements renderer.now
        group.now.layout group.now.place (option_copied group.now.file) (map element_of elements.entry.items))) }
{
    let mut walk = ContextWalk::new();
    let mut left = VecDeque::from(elements);
    while let Some(element) = left.pop_front() {
        let around = walk.pass(group, &element, left.front());
        draw_element(buffer, renderer, group.layout, around, element)?;
    }
    Ok(())
}

/// Draws an element below all that stands in the grid; but a suggestion may begin in the last row there.
pub fn draw_element<'a>(
    buffer: &mut StyledBuffer<'a>,
    renderer: &Renderer,
    layout: Layout,
    around: ElementContext,
    element: PreparedElement<'a>,
) -> Result<(), AllocError>
    requires prepared { IsElementPrepared element }
    requires room { HasRoomFor renderer.now layout (element_of element) }
    requires around { CanStandIn around (element_of element) }
    ensures rows { (above : List (List Cell)) (found : List Cell) → buffer.old ≡ above
        ++ shared_row (begins_in_row_above around) found
        → OnOk result (buffer.new ≡ above
        ++ drawn_rows renderer.now layout around found (element_of element.entry)) }
{
    match element {
        PreparedElement::Message(message) => {
            let style = message_style(layout, around);
            draw_message(buffer, renderer.hyperlink, style, message)
        }
        PreparedElement::Cause(cause) => draw_cause(buffer, renderer, layout, around, cause),
        PreparedElement::Suggestion(suggestion) => {
            draw_patches(buffer, renderer, layout, around, &suggestion)
        }
        PreparedElement::Origin(origin) => draw_place(buffer, renderer, layout, around, origin),
        PreparedElement::Padding(_) => {
            let last = around.next.is_nothing();
            draw_padding(buffer, layout, last)
        }
    }
}

/// Draws a message below all that stands in the grid.
///
/// ```text
///    = note: first line
///            second line
/// ```
pub fn draw_message<'a>(
    buffer: &mut StyledBuffer<'a>,
    hyperlink: bool,
    style: TitleStyle,
    message: &'a Message<'a>,
) -> Result<(), AllocError>
    requires fits { MessageFits message.now }
    ensures rows { OnOk result (buffer.new ≡ buffer.old
        ++ heading_rows hyperlink style (heading_of_message message.now)) }
{
    draw_heading(buffer, hyperlink, style, message)
}

/// Where a message stands.
pub fn message_style(layout: Layout, around: ElementContext) -> TitleStyle
    ensures value { result ≡ style.Message (record { layout = layout; followed = not (is_end around.next) }) }
{
    let followed = !around.next.is_nothing();
    TitleStyle::Message(MessageContext { layout, followed })
}

/// Draws a place without source below all that stands in the grid.
///
/// ```text
///   --> src/main.rs:3:5
/// ```
fn draw_place(
    buffer: &mut StyledBuffer,
    renderer: &Renderer,
    layout: Layout,
    around: ElementContext,
    origin: &Origin<'_>,
) -> Result<(), AllocError>
    ensures rows { OnOk result (buffer.new ≡ buffer.old ++ origin_rows renderer.now layout around origin.now) }
{
    let origins = origin_layout(renderer, layout);
    let location = OriginLocation {
        line: origin.line,
        column: origin.char_column,
    };
    let start = origin_start(around);
    draw_origin(buffer, origins, start, origin.path.as_str(), location)?;
    if around.closes_after() {
        draw_closing(buffer, layout)?;
    }
    Ok(())
}

/// What leads to the path of a place without source.
fn origin_start(around: ElementContext) -> FileStart
    ensures value { result ≡ (if around.primary
        then (if around.first && is_end around.next then Alone else primary_start around.first) else Secondary) }
{
    if !around.primary {
        FileStart::Secondary
    } else if !around.first {
        FileStart::Later
    } else if around.next.is_nothing() {
        FileStart::Alone
    } else {
        FileStart::First
    }
}

/// Where the rows of paths stand.
pub fn origin_layout(renderer: &Renderer, layout: Layout) -> OriginLayout
    ensures value { result ≡ spec.origin_layout renderer.now layout }
{
    OriginLayout {
        base: layout,
        anonymized: renderer.anonymized_origin_line_numbers,
    }
}
