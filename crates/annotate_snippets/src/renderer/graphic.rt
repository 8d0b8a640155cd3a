//! The graphic form: a grid for each group of a report, drawn from top to bottom.
//!
//! ```text
//! error: unused
//!   |
//! 1 | let x = 1;
//!   |     ^
//! ```
ghost use Rattle.std.specs.Prelude.{◌≡◌, ◌≤◌, ◌∷◌, [], All, IfErr, IfOk, OnOk, alloc_error, length, slice_get, true};
ghost use Rattle.std.specs.List.{filter_map};
ghost use Rattle.std.specs.Option.{option_copied};
ghost use Rattle.annotate_snippets.specs.ElementContext as spec;
ghost use Rattle.annotate_snippets.specs.ElementContext.{file_of_group, position_of_group};
ghost use Rattle.annotate_snippets.specs.ElementRoom.{HasRoomFor};
ghost use Rattle.annotate_snippets.specs.GraphicForm.{graphic_form, group_page};
ghost use Rattle.annotate_snippets.specs.Gutter.{gutter_of_report, layout_of_group};
ghost use Rattle.annotate_snippets.specs.Laws.Page.{PageLaws};
ghost use Rattle.annotate_snippets.specs.Page.{group_rows};
ghost use Rattle.annotate_snippets.specs.PageSink.{Stops, Takes};
ghost use Rattle.annotate_snippets.specs.PreparedReport.{IsGroupDrawable, IsGroupPrepared, element_of};

use crate::renderer::Renderer;
use crate::renderer::element_context::{GroupContext, GroupPosition, next_of};
use crate::renderer::elements::draw_elements;
use crate::renderer::gutter::gutter_of;
use crate::renderer::layout::layout_for;
use crate::renderer::page_sink::PageSink;
use crate::renderer::paths::{primary_path, report_file};
use crate::renderer::preprocess::{PreparedGroup, prepare_group, prepare_groups};
use crate::renderer::title::draw_title;
use crate::snippet::Report;
use snippet_grid::StyledBuffer;
use snippet_model::snippet::Group;
use std::alloc::{AllocError, Global};
use std::slice;

/// What the grid of a report's group depends on beside the group.
#[derive(Clone, Copy)]
struct ReportContext<'r> {
    /// The report's groups.
    groups: &'r [Group<'r>],
    /// The width of its gutter.
    gutter: usize,
    /// Its primary file.
    file: Option<&'r str>,
}

/// Draws the groups of a report in order, each in the room of the one before, and gives each to a sink. So memory holds
/// the rows of one group at a time.
///
/// # Errors
///
/// There is no memory for what is prepared, or the sink stopped.
pub fn draw_page<S: PageSink>(
    alloc: Global,
    renderer: &Renderer,
    groups: Report<'_>,
    sink: &mut S,
) -> Result<(), S::Error>
    requires drawable { All IsGroupDrawable groups.now }
    ensures laws { OnOk result (PageLaws renderer.now groups.now (graphic_form renderer.now groups.now)) }
    ensures took { OnOk result (Takes S.took true (graphic_form renderer.now groups.now) sink.old sink.new) }
    ensures stopped { IfErr result (λ error. Stops S.took S.stopped (S.Error.from_gives alloc_error)
        (graphic_form renderer.now groups.now) error sink.old sink.new) }
{
    if let [group] = groups {
        let only = prepare_group(alloc, group)?;
        return draw_only_group(alloc, renderer, groups, only, sink);
    }
    let prepared = prepare_groups(alloc, groups)?;
    let gutter = gutter_of(renderer, &prepared);
    let file = report_file(groups);
    let report = ReportContext {
        groups,
        gutter,
        file,
    };
    let mut buffer = StyledBuffer::new(alloc);
    for (i, group) in prepared.into_iter().enumerate() {
        let around = group_context(renderer, &report, i, &group);
        buffer = sink.add(alloc, renderer, &around, group, buffer)?;
    }
    Ok(())
}

/// Draws the only group of a report, and gives it to a sink. So a report of one group needs no list of those prepared.
///
/// # Errors
///
/// The sink stopped.
fn draw_only_group<S: PageSink>(
    alloc: Global,
    renderer: &Renderer,
    groups: Report<'_>,
    prepared: PreparedGroup<'_>,
    sink: &mut S,
) -> Result<(), S::Error>
    requires drawable { All IsGroupDrawable groups.now }
    requires prepared { IsGroupPrepared prepared }
    requires only { groups.now ≡ prepared.group.now ∷ [] }
    ensures laws { OnOk result (PageLaws renderer.now groups.now (graphic_form renderer.now groups.now)) }
    ensures took { OnOk result (Takes S.took true (graphic_form renderer.now groups.now) sink.old sink.new) }
    ensures stopped { IfErr result (λ error. Stops S.took S.stopped (S.Error.from_gives alloc_error)
        (graphic_form renderer.now groups.now) error sink.old sink.new) }
{
    let report = ReportContext {
        groups,
        gutter: gutter_of(renderer, slice::from_ref(&prepared)),
        file: report_file(groups),
    };
    let around = group_context(renderer, &report, 0, &prepared);
    sink.add(alloc, renderer, &around, prepared, StyledBuffer::new(alloc))?;
    Ok(())
}

/// What the rows of the report's group of this number, from 0, depend on beside the group.
fn group_context<'r>(
    renderer: &Renderer,
    report: &ReportContext<'r>,
    number: usize,
    group: &PreparedGroup<'r>,
) -> GroupContext<'r>
    requires prepared { IsGroupPrepared group.now }
    requires gutter { report.now.gutter ≡ gutter_of_report renderer.now report.now.groups.now }
    requires small { report.now.gutter ≤ 20 }
    requires file { option_copied report.now.file
        ≡ slice_get (filter_map spec.primary_path report.now.groups.now) 0 }
    ensures layout { result.layout ≡ layout_of_group renderer.now report.now.groups.now group.now.group.now }
    ensures place { result.place ≡ position_of_group (length report.now.groups.now) number }
    ensures file { option_copied result.file ≡ file_of_group report.now.groups.now group.now.group.now }
{
    let layout = layout_for(renderer, report.gutter, group.depth());
    let place = GroupPosition::at(report.groups.len(), number);
    let file = primary_path(group.group).or(report.file);
    GroupContext {
        layout,
        place,
        file,
    }
}

/// The rows of a group, drawn in an empty grid.
///
/// # Errors
///
/// There is no memory for the rows.
pub fn draw_group<'a>(
    renderer: &Renderer,
    around: &GroupContext<'_>,
    group: PreparedGroup<'a>,
    empty: StyledBuffer<'a>,
) -> Result<StyledBuffer<'a>, AllocError>
    requires empty { empty ≡ [] }
    requires prepared { IsGroupPrepared group }
    requires room { All (λ e. HasRoomFor renderer.now around.now.layout (element_of e)) group.elements.items }
    ensures rows { IfOk result (λ buffer. buffer ≡ group_rows (group_page renderer.now around.now.layout
        around.now.place (option_copied around.now.file) group.entry.group.now)) }
{
    let mut buffer = empty;
    if let Some(title) = &group.group.title {
        let next = next_of(&group.elements);
        draw_title(&mut buffer, renderer, around, next, title)?;
    }
    draw_elements(&mut buffer, renderer, around, group.elements)?;
    Ok(buffer)
}
