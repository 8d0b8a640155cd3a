//! Diagnostics of the Language Server Protocol, as `textDocument/publishDiagnostics` has them.
ghost use Rattle.std.specs.Prelude.{◌≡◌, ◌++◌, ◌∷◌, [], IfOk, OnOk, map, option_map};
ghost use Rattle.std.specs.List.{filter_map};
ghost use Rattle.serde_json.specs.View.{view};
ghost use Rattle.redraw_tools.specs.Found.{found_view, place_view};
ghost use Rattle.redraw_tools.specs.Lsp as spec;
ghost use Rattle.redraw_tools.specs.Lsp.{own_place, related_place};
ghost use Rattle.redraw_tools.specs.Rule.{code_view};

use crate::parts::{NO_MESSAGE, START, add_place, code_of, owned};
use crate::uri::path_of_uri;
use json_lines::lenient::{LenientNode, Problems, text_at, text_field};
use redraw_report::diagnostic::{Code, Diagnostic, FileSpan, LineRegion, Region, Severity, Unit};
use serde_json::Value;
use std::alloc::{AllocError, Global};

/// What a diagnostic reports of the file of a document; `None` for a value that is no object, which is reported.
pub fn lsp_finding(
    alloc: Global,
    document: &LenientNode<'_, '_>,
    reported: &LenientNode<'_, '_>,
    problems: &mut Problems,
) -> Result<Option<Diagnostic>, AllocError>
    ensures value { IfOk result (λ found. option_map found_view found
        ≡ spec.finding_in (view document.now.value.now) (view reported.now.value.now)) }
{
    if !reported.is_object(problems) {
        return Ok(None);
    }
    let message = reported.text("message", problems).unwrap_or(NO_MESSAGE);
    Ok(Some(Diagnostic {
        severity: severity_of(reported.number("severity", problems)),
        message: String::from_str(alloc, message)?,
        code: name_of(alloc, reported.value)?,
        spans: spans_of(alloc, document, reported, problems)?,
        children: Vec::new(alloc),
        homes: Vec::new(alloc),
        shows_gone: false,
    }))
}

/// The level that a number stands for; a diagnostic without one is a warning.
fn severity_of(number: Option<usize>) -> Severity
    ensures value { result ≡ spec.severity_by number }
{
    match number {
        Some(1) => Severity::Error,
        Some(3) => Severity::Info,
        Some(4) => Severity::Help,
        _ => Severity::Warning,
    }
}

/// The code of a diagnostic, which is a number or a text, with the address of a page on it; without a code, who
/// reports it.
fn name_of(alloc: Global, reported: &Value) -> Result<Option<Code>, AllocError>
    ensures value { IfOk result (λ code. code_view code ≡ spec.name_in (view reported.now)) }
{
    let url = text_at(reported.get("codeDescription"), "href");
    match reported.get("code").and_then(Value::as_i64) {
        Some(number) => {
            let id = format!(in alloc; "{number}")?;
            code_of(alloc, Some(id.as_str()), url)
        }
        None => {
            let id = text_field(reported, "code").or(text_field(reported, "source"));
            code_of(alloc, id, url)
        }
    }
}

/// The place of a diagnostic, and those that it relates to.
fn spans_of(
    alloc: Global,
    document: &LenientNode<'_, '_>,
    reported: &LenientNode<'_, '_>,
    problems: &mut Problems,
) -> Result<Vec<FileSpan>, AllocError>
    ensures are { IfOk result (λ spans. map place_view spans.items
        ≡ spec.places_in (view document.now.value.now) (view reported.now.value.now)) }
{
    let mut spans = Vec::new(alloc);
    add_own(&mut spans, alloc, document, reported, problems)?;
    let related = reported.list("relatedInformation", problems);
    for (index, value) in related.items.iter().enumerate() {
        add_related(&mut spans, alloc, &related.node(index, value), problems)?;
    }
    Ok(spans)
}

/// Adds the place of a diagnostic, if its document has a file.
fn add_own(
    spans: &mut Vec<FileSpan>,
    alloc: Global,
    document: &LenientNode<'_, '_>,
    reported: &LenientNode<'_, '_>,
    problems: &mut Problems,
) -> Result<(), AllocError>
    ensures added { OnOk result (map place_view spans.new.items ≡ map place_view spans.old.items
        ++ filter_map (own_place (view reported.now.value.now)) (view document.now.value.now ∷ [])) }
{
    if let Some(uri) = document.needed_text("uri", problems) {
        let file = path_of_uri(alloc, uri)?;
        add_place(spans, file, region_of(reported, problems), None, true)?;
    }
    Ok(())
}

/// Adds a place that a diagnostic relates to. One without a file is left out, and reported.
fn add_related(
    spans: &mut Vec<FileSpan>,
    alloc: Global,
    related: &LenientNode<'_, '_>,
    problems: &mut Problems,
) -> Result<(), AllocError>
    ensures added { OnOk result (map place_view spans.new.items ≡ map place_view spans.old.items
        ++ filter_map related_place (view related.now.value.now ∷ [])) }
{
    let Some(location) = related.needed("location", problems) else {
        return Ok(());
    };
    if let Some(uri) = location.needed_text("uri", problems) {
        let file = path_of_uri(alloc, uri)?;
        let label = owned(alloc, related.text("message", problems))?;
        add_place(spans, file, region_of(&location, problems), label, false)?;
    }
    Ok(())
}

/// The range of an object, counted from 0; the start of its file where it has none, which is reported.
fn region_of(object: &LenientNode<'_, '_>, problems: &mut Problems) -> Region
    ensures value { result ≡ spec.region_in (view object.now.value.now) }
{
    let Some(range) = object.needed("range", problems) else {
        return START;
    };
    let start = position_of(&range.needed("start", problems), problems);
    let end = position_of(&range.needed("end", problems), problems);
    match (start, end) {
        (Some((start_line, start_column)), Some((end_line, end_column))) => Region::Lines(
            LineRegion {
                start_line,
                start_column: Some(start_column),
                end_line,
                end_column: Some(end_column),
                unit: Unit::Utf16,
            },
        ),
        _ => START,
    }
}

/// A line and a column, counted from 1.
fn position_of(
    position: &Option<LenientNode<'_, '_>>,
    problems: &mut Problems,
) -> Option<(usize, usize)>
    ensures value { result ≡ spec.position_in (option_map (λ d. view d.value.now) position.now) }
{
    let Some(position) = position else {
        return None;
    };
    let line = position.number("line", problems)?;
    let column = position.number("character", problems)?;
    Some((line.saturating_add(1), column.saturating_add(1)))
}
