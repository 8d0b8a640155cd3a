//! What becomes of a case: texts or a refusal.

ghost use Rattle.std.specs.Prelude.{◌≡◌, [], ◌∷◌, None, Err, IfOk, IfSome, IsOkUnless, alloc_error, map, string_bytes};
ghost use Rattle.annotate_snippets.specs.Fault.{first_refusal, refusal_in};
ghost use Rattle.annotate_snippets.specs.declared.renderer.form.Form.TheVariants as form;
ghost use Rattle.annotate_snippets.specs.Fits.{ReportFits};
ghost use Rattle.replay_answer.specs.Outcome.{AreTextsOf, IsHtmlOf, IsMarkdownOf, IsOutcomeOf, IsPageOf};
ghost use Rattle.replay_answer.specs.Outcome.{refusal_name, refusal_of_case};

use crate::case::Case;
use crate::spans::span_of;
use annotate_snippets::renderer::RenderError;
use std::alloc::{AllocError, Global};

/// What becomes of a case.
#[derive(Drop)]
pub enum Outcome {
    /// A text under each sheet, in order; or the report as HTML, as an article of a page, or in Markdown, alone.
    Texts(Vec<String>),
    /// The refusal, what it prints, and what is told of the span that it is about.
    Refused(RenderError, String, String),
}

/// What becomes of a case.
pub fn outcome_of(alloc: Global, case: &Case<'_>) -> Result<Outcome, AllocError>
    requires fits { ReportFits case.now.groups.items }
    ensures outcome { IfOk result (IsOutcomeOf case.now) }
{
    match texts_of(alloc, case) {
        Ok(texts) => Ok(Outcome::Texts(texts)),
        Err(RenderError::Memory(refused)) => Err(refused),
        Err(refusal) => {
            let text = format!(in alloc; "{}", refusal.words())?;
            let span = span_of(alloc, &refusal, &case.groups)?;
            Ok(Outcome::Refused(refusal, text, span))
        }
    }
}

/// The texts of a case: its report as HTML, or else as an article of a page, or else in Markdown, alone where that is
/// asked for, and else a text under each of its sheets.
///
/// # Errors
///
/// Why the report is refused, as HTML as in the graphic form; and `Memory` where there is no memory for the texts.
pub fn texts_of(alloc: Global, case: &Case<'_>) -> Result<Vec<String>, RenderError>
    requires fits { ReportFits case.now.groups.items }
    ensures refused { IfSome (refusal_of_case case.now) (λ refusal. result ≡ Err refusal) }
    ensures renders { refusal_of_case case.now ≡ None → IsOkUnless result (RenderError.Memory alloc_error) }
    ensures texts { IfOk result (λ texts. AreTextsOf case.now (map string_bytes texts.items)) }
{
    if case.html {
        return html_of(alloc, case);
    }
    if case.html_page {
        return page_of(alloc, case);
    }
    if case.markdown {
        return markdown_of(alloc, case);
    }
    case.renderer
        .render_sheets(alloc, &case.groups, &case.sheets)
}

/// The report of a case as HTML, its one text.
fn html_of(alloc: Global, case: &Case<'_>) -> Result<Vec<String>, RenderError>
    requires fits { ReportFits case.now.groups.items }
    ensures refused { IfSome (refusal_in form.Graphic case.now.groups.items) (λ refusal. result ≡ Err refusal) }
    ensures renders { refusal_in form.Graphic case.now.groups.items ≡ None
        → IsOkUnless result (RenderError.Memory alloc_error) }
    ensures text { IfOk result (λ texts. IsHtmlOf case.now (map string_bytes texts.items)) }
{
    let text = case.renderer.render_html(alloc, &case.groups)?;
    let texts = alone(alloc, text)?;
    Ok(texts)
}

/// The report of a case as what stands in an article of a page, its one text.
fn page_of(alloc: Global, case: &Case<'_>) -> Result<Vec<String>, RenderError>
    requires fits { ReportFits case.now.groups.items }
    ensures refused { IfSome (refusal_in form.Graphic case.now.groups.items) (λ refusal. result ≡ Err refusal) }
    ensures renders { refusal_in form.Graphic case.now.groups.items ≡ None
        → IsOkUnless result (RenderError.Memory alloc_error) }
    ensures text { IfOk result (λ texts. IsPageOf case.now (map string_bytes texts.items)) }
{
    let text = case.renderer.render_html_page(alloc, &case.groups)?;
    let texts = alone(alloc, text)?;
    Ok(texts)
}

/// The report of a case in Markdown, its one text.
fn markdown_of(alloc: Global, case: &Case<'_>) -> Result<Vec<String>, RenderError>
    requires fits { ReportFits case.now.groups.items }
    ensures refused { IfSome (first_refusal case.now.renderer case.now.groups.items)
        (λ refusal. result ≡ Err refusal) }
    ensures renders { first_refusal case.now.renderer case.now.groups.items ≡ None
        → IsOkUnless result (RenderError.Memory alloc_error) }
    ensures text { IfOk result (λ texts. IsMarkdownOf case.now (map string_bytes texts.items)) }
{
    let text = case.renderer.render_markdown(alloc, &case.groups)?;
    let texts = alone(alloc, text)?;
    Ok(texts)
}

/// A list of this text alone.
fn alone(alloc: Global, text: String) -> Result<Vec<String>, AllocError>
    ensures alone { IfOk result (λ texts. texts.items ≡ text ∷ []) }
{
    let mut texts = Vec::new(alloc);
    texts.push(text)?;
    Ok(texts)
}

/// The name of a refusal.
pub fn name_of(refusal: &RenderError) -> &'static str
    ensures name { result.now ≡ refusal_name refusal.now }
{
    match refusal {
        RenderError::NoGroup => "NoGroup",
        RenderError::NoTitle => "NoTitle",
        RenderError::SpanReversed { .. } => "SpanReversed",
        RenderError::SpanPastEnd { .. } => "SpanPastEnd",
        RenderError::SpanOffBoundary { .. } => "SpanOffBoundary",
        RenderError::PatchesOverlap { .. } => "PatchesOverlap",
        RenderError::LineNumberTooLarge { .. } => "LineNumberTooLarge",
        RenderError::Memory(_) => "Memory",
    }
}
