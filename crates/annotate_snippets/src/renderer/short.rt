//! The short form: the title of a report's first group, after the place of its first annotated snippet and before the
//! labels of that.
//!
//! ```text
//! src/main.rs:1:5: error: unused: here
//! ```
ghost use Rattle.std.specs.Prelude.{◌≡◌, ℕ, List, ◌++◌, ◌∷◌, [], chars, length, Some, IfOk};
ghost use Rattle.std.specs.Prelude.{IfSome, OnOk, string_bytes};
ghost use Rattle.std.specs.Option.{option_copied};
ghost use Rattle.snippet_model.specs.Fits.{AnnotationFits, SnippetFits};
ghost use Rattle.annotate_snippets.specs.PreparedReport.{IsDrawable, IsGroupDrawable};
ghost use Rattle.annotate_snippets.specs.ShortForm as spec;
ghost use Rattle.annotate_snippets.specs.ShortForm.{joined_labels, place_of_cause, primary_labels};
ghost use Rattle.snippet_style.specs.Bounds.{IsTextWidth};

use crate::renderer::Renderer;
use crate::renderer::place::named_place;
use snippet_model::snippet::{Annotation, AnnotationKind, Element, Group, Snippet, Title};
use snippet_parts::map_of;
use snippet_style::LevelInner;
use snippet_suggest::is_blank;
use snippet_text::normalized;
use snippet_titles::{ShortTitle, origin_text};
use std::alloc::{AllocError, Global};

/// The short form of a report, before any sheet is known.
#[derive(Drop)]
pub struct ShortForm<'a> {
    /// The kind of level whose style primary marks and labels take.
    pub level: LevelInner,
    /// Its rows.
    pub rows: ShortTitle<'a>,
}

/// The short form of a group that has this title.
///
/// # Errors
///
/// There is no memory for the texts around the title.
pub fn short_form<'a>(
    alloc: Global,
    renderer: &Renderer,
    group: &'a Group<'a>,
    title: &'a Title<'a>,
) -> Result<ShortForm<'a>, AllocError>
    requires drawable { IsGroupDrawable group.now }
    requires title { group.now.title ≡ Some title.now }
    ensures level { IfOk result (λ form. form.level ≡ group.now.level) }
    ensures rows { IfOk result (λ form. form.rows ≡ spec.short_form renderer.now group.now title.now) }
{
    let cause = first_cause(group);
    let before = place_before(alloc, renderer, cause)?;
    let after = labels_after(alloc, cause)?;
    Ok(ShortForm {
        level: group.level,
        rows: ShortTitle::new(renderer.hyperlink, before, after, title),
    })
}

/// A group's first annotated snippet.
fn first_cause<'a>(group: &'a Group<'a>) -> Option<&'a Snippet<'a, Annotation<'a>>>
    ensures value { option_copied result ≡ spec.first_cause group.now.elements.items }
{
    for element in &group.elements {
        if let Element::Cause(snippet) = element {
            return Some(snippet);
        }
    }
    None
}

/// What stands before the title: the place of an annotated snippet, if it has a path.
fn place_before<'a>(
    alloc: Global,
    renderer: &Renderer,
    cause: Option<&'a Snippet<'a, Annotation<'a>>>,
) -> Result<String, AllocError>
    requires drawable { IfSome (option_copied cause) IsDrawable }
    requires fits { IfSome (option_copied cause) (SnippetFits AnnotationFits) }
    ensures value { IfOk result (λ text. chars (string_bytes text)
        ≡ place_of_cause renderer.now (option_copied cause.entry)) }
    ensures short { IfOk result (λ text. IsTextWidth (length (chars (string_bytes text)))) }
{
    match cause {
        Some(snippet) => place_of(alloc, renderer, snippet),
        None => Ok(String::new(alloc)),
    }
}

/// The place of an annotated snippet, if it has a path, and what stands between that and the title.
fn place_of<'a>(
    alloc: Global,
    renderer: &Renderer,
    snippet: &'a Snippet<'a, Annotation<'a>>,
) -> Result<String, AllocError>
    requires drawable { IsDrawable snippet.now }
    requires fits { SnippetFits AnnotationFits snippet.now }
    ensures value { IfOk result (λ text. chars (string_bytes text) ≡ place_of_cause renderer.now (Some snippet.now)) }
    ensures short { IfOk result (λ text. IsTextWidth (length (chars (string_bytes text)))) }
{
    let Some(path) = &snippet.path else {
        return Ok(String::new(alloc));
    };
    let map = map_of(alloc, snippet)?;
    let place = named_place(&map, &snippet.markers);
    let anonymized = renderer.anonymized_origin_line_numbers;
    let mut text = origin_text(alloc, path.as_str(), place, anonymized)?;
    text.push_str(": ")?;
    Ok(text)
}

/// What stands after the title's first row: the labels of an annotated snippet's primary spans that aren't blank.
fn labels_after(
    alloc: Global,
    cause: Option<&Snippet<'_, Annotation<'_>>>,
) -> Result<String, AllocError>
    ensures value { IfOk result (λ text. chars (string_bytes text) ≡ spec.labels_of_cause (option_copied cause.entry)) }
{
    match cause {
        Some(snippet) => labels_of(alloc, &snippet.markers),
        None => Ok(String::new(alloc)),
    }
}

/// The labels of primary spans that aren't blank, in a row after a colon.
fn labels_of(alloc: Global, annotations: &[Annotation<'_>]) -> Result<String, AllocError>
    ensures value { IfOk result (λ text. chars (string_bytes text) ≡ joined_labels (primary_labels annotations.now)) }
{
    let mut text = String::new(alloc);
    for annotation in annotations {
        push_label(alloc, &mut text, annotation)?;
    }
    Ok(text)
}

/// What a colon or a comma with its space takes.
const LEAD_BYTES: usize = 2;

/// Adds an annotation's label after the others, if it is primary and its label isn't blank.
fn push_label(
    alloc: Global,
    text: &mut String,
    annotation: &Annotation<'_>,
) -> Result<(), AllocError>
    ensures added { (labels : List (List ℕ)) → chars (string_bytes text.old) ≡ joined_labels labels
        → OnOk result (chars (string_bytes text.new) ≡ joined_labels (labels ++ primary_labels (annotation.now ∷ []))) }
{
    let (AnnotationKind::Primary, Some(label)) = (annotation.kind, &annotation.label) else {
        return Ok(());
    };
    let label = normalized(alloc, label.as_str())?;
    if is_blank(&label) {
        return Ok(());
    }
    text.reserve(label.len().saturating_add(LEAD_BYTES))?;
    text.push_str(if text.is_empty() { ": " } else { ", " })?;
    text.push_str(label.as_str())
}
