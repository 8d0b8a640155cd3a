//! The text that is drawn of a diagnostic.
ghost use Rattle.std.specs.Prelude.{◌≡◌, IfErr, IfOk, string_bytes};
ghost use Rattle.redraw_read.specs.Counted.{capped, clamped_in, undrawn_in};
ghost use Rattle.redraw_read.specs.Placed.{hand_for};
ghost use Rattle.redraw_run.specs.DrawnFinding as drawn;
ghost use Rattle.redraw_run.specs.DrawnFinding.{HasLawsAs, IsRefusalOf, IsUndrawn, ShowsAs, ShowsFinding};

use crate::look::ReportRenderer;
use annotate_snippets::Group;
use annotate_snippets::renderer::RenderError;
use annotate_snippets::snippet::report_fits;
use redraw_command::terminal::Markup;
use redraw_read::place::Placing;
use redraw_read::sources::{SourceFiles, Sources};
use redraw_report::diagnostic::Diagnostic;
use redraw_report::report::report;
use std::alloc::{AllocError, Global};

/// What was drawn of a finding.
#[derive(Drop)]
pub struct FindingText {
    /// Its text, or why there is none.
    pub text: Result<String, RenderError>,
    /// How many places aren't in their source.
    pub clamped: u64,
    /// How many alternatives aren't drawn.
    pub undrawn: u64,
}

/// What is drawn of a diagnostic, whose files were read.
pub fn drawn_of<S: SourceFiles + Drop>(
    alloc: Global,
    renderer: &ReportRenderer,
    sources: &Sources<S>,
    diagnostic: &Diagnostic,
) -> Result<FindingText, AllocError>
    ensures shows { IfOk result (λ drawn. IfOk drawn.text (λ text.
        ShowsFinding renderer.now sources.now.files.items diagnostic.now (string_bytes text))) }
    ensures refused { IfOk result (λ drawn. IfErr drawn.text
        (IsUndrawn renderer.now sources.now.files.items diagnostic.now)) }
    ensures clamped { IfOk result (λ drawn. drawn.clamped ≡ capped
        (clamped_in (hand_for sources.now.files.items renderer.now.settings.short_message diagnostic.now)
        diagnostic.now)) }
    ensures undrawn { IfOk result (λ drawn. drawn.undrawn ≡ capped
        (undrawn_in (hand_for sources.now.files.items renderer.now.settings.short_message diagnostic.now)
        diagnostic.now)) }
{
    let mut placing = Placing::new(alloc);
    let finding = placing.finding(sources, diagnostic, renderer.settings.short_message)?;
    let groups = report(alloc, &finding, has_room(renderer))?;
    Ok(FindingText {
        text: render_fitting(alloc, renderer, &groups),
        clamped: placing.clamped,
        undrawn: placing.undrawn,
    })
}

/// Whether the form has room for the lines that edits take out: the text form would read them as an edit of their own.
fn has_room(renderer: &ReportRenderer) -> bool
    ensures value { result ≡ drawn.has_room renderer.now }
{
    renderer.markup.is_html() || !renderer.settings.no_graphics
}

/// The text of a report, in HTML what stands in its article; refused as if for memory where one of its texts is longer
/// than memory is.
fn render_fitting(
    alloc: Global,
    renderer: &ReportRenderer,
    groups: &Vec<Group<'_>>,
) -> Result<String, RenderError>
    ensures shows { IfOk result (λ text.
        ShowsAs renderer.now.markup renderer.now.settings groups.now.items (string_bytes text)) }
    ensures laws { IfOk result (λ text.
        HasLawsAs renderer.now.markup renderer.now.settings groups.now.items (string_bytes text)) }
    ensures refused { IfErr result (IsRefusalOf renderer.now groups.now.items) }
{
    if !report_fits(groups) {
        return Err(RenderError::Memory(AllocError));
    }
    match renderer.markup {
        Markup::Bare => renderer.settings.render(alloc, groups),
        Markup::Html => renderer.settings.render_html_page(alloc, groups),
        Markup::Markdown => renderer.settings.render_markdown(alloc, groups),
    }
}
