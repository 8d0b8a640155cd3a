//! The answer to a line, as JSON: to a case, or to a line that is none.

ghost use Rattle.std.specs.Prelude.{◌≡◌, IfOk, map, string_bytes};
ghost use Rattle.serde_json.specs.View.{view, items_view};
ghost use Rattle.serde_json.specs.Written.{compact_text};
ghost use Rattle.replay_answer.specs.Answer as spec;
ghost use Rattle.replay_answer.specs.Answer.{not_json_text, told_of};

use crate::outcome::{Outcome, name_of};
use annotate_snippets::renderer::RenderError;
use serde_json::{Value, json};
use std::alloc::{AllocError, Global};

/// The answer to the case of this name, as JSON without a line feed.
pub fn answer_json(alloc: Global, id: &str, outcome: Outcome) -> Result<String, AllocError>
    ensures line { IfOk result (λ line. string_bytes line ≡ compact_text (spec.answer_of id.now outcome)) }
{
    let answer = answer_of(alloc, id, outcome)?;
    let line = answer.to_string(alloc)?;
    Ok(line)
}

/// The answer to a case, as JSON.
fn answer_of(alloc: Global, id: &str, outcome: Outcome) -> Result<Value, AllocError>
    ensures answer { IfOk result (λ value. view value ≡ spec.answer_of id.now outcome) }
{
    match outcome {
        Outcome::Texts(texts) => {
            let texts = values_of(alloc, texts)?;
            json!(in alloc; {"id": id, "ok": texts})
        }
        Outcome::Refused(refusal, text, _) => refusal_answer(alloc, id, &refusal, text),
    }
}

/// What the answer to a case that is refused tells but for numbers.
#[derive(Drop)]
struct Refusal<'a> {
    /// The case's name.
    id: &'a str,
    /// The refusal's.
    name: &'static str,
    /// What it prints.
    text: String,
}

/// The answer to a case that is refused, as JSON.
fn refusal_answer(
    alloc: Global,
    id: &str,
    refusal: &RenderError,
    text: String,
) -> Result<Value, AllocError>
    ensures answer { IfOk result (λ value. view value ≡ spec.refusal_answer id.now refusal.now (string_bytes text)) }
{
    let name = name_of(refusal);
    let told = Refusal { id, name, text };
    match *refusal {
        RenderError::SpanReversed {
            group,
            element,
            marker,
        }
        | RenderError::SpanPastEnd {
            group,
            element,
            marker,
        }
        | RenderError::SpanOffBoundary {
            group,
            element,
            marker,
        } => marker_answer(alloc, told, group, element, marker),
        RenderError::PatchesOverlap {
            group,
            element,
            first,
            second,
        } => overlap_answer(alloc, told, group, element, first, second),
        RenderError::LineNumberTooLarge { group, element } => {
            element_answer(alloc, told, group, element)
        }
        RenderError::NoGroup | RenderError::NoTitle | RenderError::Memory(_) => {
            bare_answer(alloc, told)
        }
    }
}

/// The answer that names no numbers.
fn bare_answer(alloc: Global, told: Refusal<'_>) -> Result<Value, AllocError>
    ensures answer { IfOk result (λ value. view value ≡ spec.bare_answer told.entry.id.now told.entry.name.now
        (string_bytes told.entry.text)) }
{
    let Refusal { id, name, text } = told;
    json!(in alloc; {"id": id, "refused": name, "text": text})
}

/// The answer that names an element.
fn element_answer(
    alloc: Global,
    told: Refusal<'_>,
    group: usize,
    element: usize,
) -> Result<Value, AllocError>
    ensures answer { IfOk result (λ value. view value ≡ spec.element_answer told.entry.id.now told.entry.name.now
        (string_bytes told.entry.text) group element) }
{
    let Refusal { id, name, text } = told;
    json!(in alloc; {"element": element, "group": group, "id": id, "refused": name, "text": text})
}

/// The answer that names a marker.
fn marker_answer(
    alloc: Global,
    told: Refusal<'_>,
    group: usize,
    element: usize,
    marker: usize,
) -> Result<Value, AllocError>
    ensures answer { IfOk result (λ value. view value ≡ spec.marker_answer told.entry.id.now told.entry.name.now
        (string_bytes told.entry.text) group element marker) }
{
    let Refusal { id, name, text } = told;
    json!(in alloc; {
        "element": element, "group": group, "id": id, "marker": marker, "refused": name, "text": text
    })
}

/// The answer that names two patches.
fn overlap_answer(
    alloc: Global,
    told: Refusal<'_>,
    group: usize,
    element: usize,
    first: usize,
    second: usize,
) -> Result<Value, AllocError>
    ensures answer { IfOk result (λ value. view value ≡ spec.overlap_answer told.entry.id.now told.entry.name.now
        (string_bytes told.entry.text) group element first second) }
{
    let Refusal { id, name, text } = told;
    json!(in alloc; {
        "element": element, "first": first, "group": group, "id": id, "refused": name, "second": second, "text": text
    })
}

/// The texts as values of JSON, in order.
fn values_of(alloc: Global, texts: Vec<String>) -> Result<Vec<Value>, AllocError>
    ensures items { IfOk result (λ values. items_view values.items ≡ spec.text_items (map string_bytes texts.items)) }
{
    let mut values = Vec::new(alloc);
    for text in texts {
        values.push(Value::String(text))?;
    }
    Ok(values)
}

/// What tells that the line of this number is no case, in these words, as JSON without a line feed.
pub fn told_json(alloc: Global, words: &str, number: u64) -> Result<String, AllocError>
    ensures line { IfOk result (λ line. string_bytes line ≡ compact_text (told_of number words.now)) }
{
    let told = told_value(alloc, words, number)?;
    let line = told.to_string(alloc)?;
    Ok(line)
}

/// What tells that the line of this number is no case, in these words, as a value.
fn told_value(alloc: Global, words: &str, number: u64) -> Result<Value, AllocError>
    ensures value { IfOk result (λ value. view value ≡ told_of number words.now) }
{
    json!(in alloc; {"error": words, "line": number})
}

/// What is told of a line that isn't JSON from a column on, or that ends before it is.
pub fn column_words(alloc: Global, column: usize, ends_early: bool) -> Result<String, AllocError>
    ensures words { IfOk result (λ text. string_bytes text ≡ not_json_text column ends_early) }
{
    if ends_early {
        format!(in alloc; "column {column}: not valid JSON: it ends too early")
    } else {
        format!(in alloc; "column {column}: not valid JSON")
    }
}
