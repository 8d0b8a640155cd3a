//! What becomes of the bytes of a report.

ghost use Rattle.std.specs.Prelude.{◌≡◌};
ghost use Rattle.annotate_snippets.specs.Fits.{ReportFits};
ghost use Rattle.yazgult_c.specs.AnswerBytes.{IsAnswerTo, IsDrawn, answer_of_result, answer_of_refusal, renderer_of};

use annotate_snippets::Renderer;
use annotate_snippets::renderer::{RenderError, Stylesheet};
use report_bytes::{DrawRequest, KeptSource, ReadError, Settings, Wrong, read};
use std::alloc::Global;

/// What becomes of the bytes of a report.
#[derive(Drop)]
pub enum Answer {
    /// A text under each sheet, in order.
    Texts(Vec<String>),
    /// The report is refused.
    Refused(RenderError),
    /// The bytes are no report: what is wrong with them, and how many bytes stand before that.
    NoReport(Wrong, usize),
    /// A growth of memory was refused.
    Memory,
}

/// What becomes of these bytes over these sources that are kept.
#[tactic(auto, using(crate::proofs::Drawing::of_drawn))]
pub fn answer_to<'v, 's>(alloc: Global, kept: &'v [KeptSource<'s>], input: &'v [u8]) -> Answer
    ensures answers { IsAnswerTo kept.now input.now result }
{
    match read(alloc, kept, input) {
        Ok(request) => drawn(alloc, &request),
        Err(ReadError::Memory) => Answer::Memory,
        Err(ReadError::Fault(fault)) => {
            Answer::NoReport(fault.wrong, input.len().saturating_sub(fault.left))
        }
    }
}

/// What becomes of what is asked for.
fn drawn(alloc: Global, request: &DrawRequest<'_>) -> Answer
    requires fits { ReportFits request.now.groups.items }
    ensures drawn { IsDrawn request.now result }
{
    let renderer = renderer(&request.settings);
    answered(renderer.render_sheets(alloc, &request.groups, &request.sheets))
}

/// What `render_sheets` gave, as an answer.
fn answered(given: Result<Vec<String>, RenderError>) -> Answer
    ensures answer { result ≡ answer_of_result given }
{
    match given {
        Ok(texts) => Answer::Texts(texts),
        Err(refusal) => refused(refusal),
    }
}

/// A refusal as an answer; that there was no memory is no refusal.
fn refused(refusal: RenderError) -> Answer
    ensures answer { result ≡ answer_of_refusal refusal }
{
    match refusal {
        RenderError::Memory(_) => Answer::Memory,
        other => Answer::Refused(other),
    }
}

/// The renderer of these settings; its own sheet isn't looked at.
fn renderer(settings: &Settings) -> Renderer
    ensures renderer { result ≡ renderer_of settings.now }
{
    Renderer {
        anonymized_origin_line_numbers: settings.anonymized_origin_line_numbers,
        anonymized_snippet_line_numbers: settings.anonymized_snippet_line_numbers,
        term_width: settings.term_width,
        decor_style: settings.decor_style,
        stylesheet: Stylesheet::plain(),
        hyperlink: settings.hyperlink,
        short_message: settings.short_message,
        no_graphics: settings.no_graphics,
        show_line_feeds: settings.show_line_feeds,
        context_before: settings.context_before,
        context_after: settings.context_after,
        wrap: settings.wrap,
        mask_controls: settings.mask_controls,
        label_lines: settings.label_lines,
    }
}
