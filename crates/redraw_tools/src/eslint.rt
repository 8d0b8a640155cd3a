//! ESLint's log: a list of files, each with the messages about it.
ghost use Rattle.std.specs.Prelude.{◌≡◌, ◌++◌, ◌∷◌, [], IfOk, OnOk, map, option_map};
ghost use Rattle.std.specs.List.{filter_map};
ghost use Rattle.serde_json.specs.View.{view};
ghost use Rattle.json_lines.specs.Field.{lent_text};
ghost use Rattle.redraw_tools.specs.Eslint as spec;
ghost use Rattle.redraw_tools.specs.Eslint.{fix_in, suggestion_in};
ghost use Rattle.redraw_tools.specs.Found.{found_view, place_view, remark_view};

use crate::parts::{NO_MESSAGE, START, UNDESCRIBED, add_place, code_of, edit_of, help_of};
use json_lines::lenient::{LenientNode, Problems};
use redraw_report::diagnostic::{Child, Diagnostic, FileSpan, LineRegion, Region, Severity, Unit};
use serde_json::Value;
use std::alloc::{AllocError, Global};

/// What a message reports of its file; `None` for a value that is no object, which is reported.
pub fn eslint_finding(
    alloc: Global,
    file: &LenientNode<'_, '_>,
    reported: &LenientNode<'_, '_>,
    problems: &mut Problems,
) -> Result<Option<Diagnostic>, AllocError>
    ensures value { IfOk result (λ found. option_map found_view found
        ≡ spec.finding_in (view file.now.value.now) (view reported.now.value.now)) }
{
    if !reported.is_object(problems) {
        return Ok(None);
    }
    let path = file.needed_text("filePath", problems);
    let message = reported.text("message", problems).unwrap_or(NO_MESSAGE);
    Ok(Some(Diagnostic {
        severity: severity_of(reported.number("severity", problems)),
        message: String::from_str(alloc, message)?,
        code: code_of(alloc, reported.text("ruleId", problems), None)?,
        spans: spans_of(alloc, path, reported, problems)?,
        children: fixes_of(alloc, path, reported, problems)?,
        homes: Vec::new(alloc),
        shows_gone: true,
    }))
}

/// The level that a number stands for.
fn severity_of(number: Option<usize>) -> Severity
    ensures value { result ≡ spec.severity_by number }
{
    match number {
        Some(2) => Severity::Error,
        _ => Severity::Warning,
    }
}

/// The place of a message in the file of this path.
fn spans_of(
    alloc: Global,
    path: Option<&str>,
    reported: &LenientNode<'_, '_>,
    problems: &mut Problems,
) -> Result<Vec<FileSpan>, AllocError>
    ensures are { IfOk result (λ spans. map place_view spans.items
        ≡ spec.places_in (lent_text path.entry) (view reported.now.value.now)) }
{
    let mut spans = Vec::new(alloc);
    if let Some(path) = path {
        let file = String::from_str(alloc, path)?;
        add_place(&mut spans, file, region_of(reported, problems), None, true)?;
    }
    Ok(spans)
}

/// The region of a message. Without an end it is a point, and without a line the start of its file.
fn region_of(reported: &LenientNode<'_, '_>, problems: &mut Problems) -> Region
    ensures value { result ≡ spec.region_in (view reported.now.value.now) }
{
    let Some(start_line) = reported.from_one("line", problems) else {
        return START;
    };
    let start_column = reported.from_one("column", problems);
    let end_column = reported.from_one("endColumn", problems);
    Region::Lines(LineRegion {
        start_line,
        start_column,
        end_line: reported.from_one("endLine", problems).unwrap_or(start_line),
        end_column: end_column.or(start_column),
        unit: Unit::Utf16,
    })
}

/// What a message suggests: its fix, and each of its suggestions.
fn fixes_of(
    alloc: Global,
    path: Option<&str>,
    reported: &LenientNode<'_, '_>,
    problems: &mut Problems,
) -> Result<Vec<Child>, AllocError>
    ensures are { IfOk result (λ fixes. map remark_view fixes.items
        ≡ spec.remarks_in (lent_text path.entry) (view reported.now.value.now)) }
{
    let mut children = Vec::new(alloc);
    if let Some(path) = path {
        add_fix(&mut children, alloc, path, UNDESCRIBED, reported, problems)?;
        add_suggestions(&mut children, alloc, path, reported, problems)?;
    }
    Ok(children)
}

/// Adds the fix of each suggestion of a message.
fn add_suggestions(
    children: &mut Vec<Child>,
    alloc: Global,
    path: &str,
    reported: &LenientNode<'_, '_>,
    problems: &mut Problems,
) -> Result<(), AllocError>
    ensures added { OnOk result (map remark_view children.new.items ≡ map remark_view children.old.items
        ++ spec.suggestions_in path.now (view reported.now.value.now)) }
{
    let suggestions = reported.list("suggestions", problems);
    for (index, value) in suggestions.items.iter().enumerate() {
        let suggestion = suggestions.node(index, value);
        add_suggestion(children, alloc, path, &suggestion, problems)?;
    }
    Ok(())
}

/// Adds the fix of a suggestion.
fn add_suggestion(
    children: &mut Vec<Child>,
    alloc: Global,
    path: &str,
    suggestion: &LenientNode<'_, '_>,
    problems: &mut Problems,
) -> Result<(), AllocError>
    ensures added { OnOk result (map remark_view children.new.items ≡ map remark_view children.old.items
        ++ filter_map (suggestion_in path.now) (view suggestion.now.value.now ∷ [])) }
{
    let message = suggestion.text("desc", problems).unwrap_or(UNDESCRIBED);
    add_fix(children, alloc, path, message, suggestion, problems)
}

/// Adds the fix of an object, if it has one. One with something wrong in it is left out.
fn add_fix(
    children: &mut Vec<Child>,
    alloc: Global,
    path: &str,
    message: &str,
    object: &LenientNode<'_, '_>,
    problems: &mut Problems,
) -> Result<(), AllocError>
    ensures added { OnOk result (map remark_view children.new.items ≡ map remark_view children.old.items
        ++ filter_map (fix_in path.now message.now) (view object.now.value.now ∷ [])) }
{
    if let Some(fix) = object.object("fix", problems) {
        if let Some(help) = fix_of(alloc, path, message, &fix, problems)? {
            children.push(help)?;
        }
    }
    Ok(())
}

/// The help that suggests a fix.
fn fix_of(
    alloc: Global,
    path: &str,
    message: &str,
    fix: &LenientNode<'_, '_>,
    problems: &mut Problems,
) -> Result<Option<Child>, AllocError>
    ensures value { IfOk result (λ help. option_map remark_view help
        ≡ spec.fix_of path.now message.now (view fix.now.value.now)) }
{
    let range = range_of(fix.needed_list("range", problems).items);
    match (range, fix.needed_text("text", problems)) {
        (Some(region), Some(text)) => {
            let mut edits = Vec::new(alloc);
            edits.push(edit_of(alloc, path, region, text, None)?)?;
            Ok(Some(help_of(alloc, String::from_str(alloc, message)?, edits)?))
        }
        _ => Ok(None),
    }
}

/// A range of two whole numbers.
fn range_of(items: &[Value]) -> Option<Region>
    ensures value { result ≡ spec.range_of (map view items.now) }
{
    match items {
        [start, end] => Some(Region::Chars {
            start: start.as_u64()? as usize,
            end: end.as_u64()? as usize,
            unit: Unit::Utf16,
        }),
        _ => None,
    }
}
