//! The text form: titles, messages, and the places and labels of spans, as lines of text without graphics.
//!
//! ```text
//! error: unused
//!  at src/main.rs:1:5: here
//! ```
ghost use Rattle.std.specs.Prelude.{◌≡◌, ◌≢◌, ◌++◌, ◌∷◌, [], All, List, None, IfOk, IfSome, OnOk, filter};
ghost use Rattle.std.specs.Prelude.{true};
ghost use Rattle.std.specs.Option.{option_copied};
ghost use Rattle.annotate_snippets.specs.ElementContext as around;
ghost use Rattle.annotate_snippets.specs.Walk as walk;
ghost use Rattle.annotate_snippets.specs.PreparedReport.{IsDrawable, IsElementDrawable, IsGroupDrawable};
ghost use Rattle.annotate_snippets.specs.TextForm as spec;
ghost use Rattle.annotate_snippets.specs.TextForm.{element_form, elements_form, group_form};
ghost use Rattle.annotate_snippets.specs.Walk.{before_seen};
ghost use Rattle.snippet_model.specs.declared.snippet.Element.TheVariants.{Suggestion};
ghost use Rattle.snippet_model.specs.declared.snippet.Group.{Group};
ghost use Rattle.annotate_snippets.specs.ElementContext.{file_of_group};
ghost use Rattle.snippet_model.specs.Fits.{MessageFits, TitleFits};
ghost use Rattle.snippet_suggest.specs.PreparedSuggestion.{IsSuggestible};
ghost use Rattle.snippet_model.specs.Heading.{heading_of_message, heading_of_title};
ghost use Rattle.snippet_text_form.specs.Cause.{cause_form};
ghost use Rattle.snippet_text_form.specs.HeadingForm.{heading_form};
ghost use Rattle.snippet_text_form.specs.Suggestion.{suggestion_form};
ghost use Rattle.snippet_text_form.specs.declared.heading.HeadingKind.TheVariants as kind;
ghost use Rattle.snippet_style.specs.Bounds.{HasNext};

use crate::renderer::Renderer;
use crate::renderer::paths::{is_for_same_file, is_same_file, path_of, primary_path, report_file};
use snippet_model::snippet::{Annotation, Element, Group, Message, Patch, Snippet, Title};
use snippet_parts::map_of;
use snippet_suggest::prepare_suggestion;
use snippet_text_form::{
    HeadingKind, SuggestionContext, SuggestionSettings, TextForm, add_cause, add_heading,
    add_origin, add_suggestion,
};
use std::alloc::{AllocError, Global};

/// The suggestion right before an element.
#[derive(Clone, Copy)]
pub struct PreviousSuggestion<'r> {
    /// The path of its file.
    pub path: Option<&'r str>,
    /// Its number in a row of suggestions for that file, from 1.
    pub number: usize,
}

/// What stands around an element, as far as its text depends on it.
#[derive(Clone, Copy)]
struct TextContext<'r> {
    /// The group's primary file.
    file: Option<&'r str>,
    /// The suggestion right before it.
    before: Option<PreviousSuggestion<'r>>,
    /// Whether it and the element after it are suggestions for one file.
    followed: bool,
}

/// The text form of a report.
///
/// # Errors
///
/// There is no memory for its texts.
pub fn text_form<'a>(
    alloc: Global,
    renderer: &Renderer,
    groups: &'a [Group<'a>],
) -> Result<TextForm<'a>, AllocError>
    requires drawable { All IsGroupDrawable groups.now }
    ensures form { IfOk result (λ form. form ≡ spec.text_form renderer.now groups.now) }
{
    let file = report_file(groups);
    let mut form = TextForm::new(alloc)?;
    for group in groups {
        let file = primary_path(group).or(file);
        add_group(alloc, &mut form, renderer, file, group)?;
    }
    Ok(form)
}

/// Adds a group: its title, and its elements that are drawn. This is the file that its suggestions are for where they
/// name no other.
fn add_group<'a>(
    alloc: Global,
    form: &mut TextForm<'a>,
    renderer: &Renderer,
    file: Option<&str>,
    group: &'a Group<'a>,
) -> Result<(), AllocError>
    requires drawable { IsGroupDrawable group.now }
    ensures added { (groups : List Group) → option_copied file.entry ≡ file_of_group groups group.now
        → OnOk result (form.new ≡ form.old ++ group_form renderer.now groups group.now) }
{
    if let Some(title) = &group.title {
        add_title(alloc, form, renderer, title)?;
    }
    add_elements(alloc, form, renderer, file, &group.elements)
}

/// Whether an element is drawn: a snippet of patches without patches is left out.
fn is_drawn(element: &Element<'_>) -> bool
    ensures value { result ≡ walk.is_drawn element.now }
{
    match element {
        Element::Suggestion(snippet) => !snippet.markers.is_empty(),
        _ => true,
    }
}

/// Adds a group's title.
fn add_title<'a>(
    alloc: Global,
    form: &mut TextForm<'a>,
    renderer: &Renderer,
    title: &'a Title<'a>,
) -> Result<(), AllocError>
    requires fits { TitleFits title.now }
    ensures added { OnOk result (form.new ≡ form.old ++ heading_form renderer.now.hyperlink kind.Title
        (heading_of_title title.now)) }
{
    add_heading(alloc, form, renderer.hyperlink, HeadingKind::Title, title)
}

/// Adds those of a group's elements that are drawn, in order.
fn add_elements<'a>(
    alloc: Global,
    form: &mut TextForm<'a>,
    renderer: &Renderer,
    file: Option<&str>,
    elements: &'a [Element<'a>],
) -> Result<(), AllocError>
    requires drawable { All IsElementDrawable elements.now }
    ensures added { OnOk result (form.new
        ≡ form.old ++ elements_form renderer.now (option_copied file.entry) None
        (filter walk.is_drawn elements.now)) }
{
    let mut before = None;
    for (i, element) in elements.iter().enumerate() {
        if is_drawn(element) {
            let followed = is_followed(element, &elements[i + 1..]);
            let context = TextContext {
                file,
                before,
                followed,
            };
            add_element(alloc, form, renderer, context, element)?;
            before = before_next(before, element);
        }
    }
    Ok(())
}

/// Whether the next of the later elements that is drawn is a suggestion for the file of this one.
fn is_followed(element: &Element<'_>, later: &[Element<'_>]) -> bool
    ensures value { result ≡ around.first_two_share (element.now ∷ filter walk.is_drawn later.now) }
{
    let Element::Suggestion(first) = element else {
        return false;
    };
    for other in later {
        if is_drawn(other) {
            return is_for_file_of(first, other);
        }
    }
    false
}

/// Whether an element is a suggestion for the file of this one.
fn is_for_file_of(first: &Snippet<'_, Patch<'_>>, other: &Element<'_>) -> bool
    ensures value { result ≡ around.share_file (Suggestion first.now) other.now }
{
    match other {
        Element::Suggestion(second) => is_for_same_file(first, second),
        _ => false,
    }
}

/// Adds an element.
fn add_element<'a>(
    alloc: Global,
    form: &mut TextForm<'a>,
    renderer: &Renderer,
    context: TextContext<'_>,
    element: &'a Element<'a>,
) -> Result<(), AllocError>
    requires drawable { IsElementDrawable element.now }
    requires drawn { walk.is_drawn element.now ≡ true }
    requires small { IfSome context.before (λ b. HasNext b.number) }
    ensures added { OnOk result (form.new ≡ form.old ++ element_form renderer.now (option_copied context.entry.file)
        (before_seen context.entry.before) context.entry.followed element.now) }
{
    let anonymized = renderer.anonymized_origin_line_numbers;
    match element {
        Element::Message(message) => add_message(alloc, form, renderer.hyperlink, message),
        Element::Cause(snippet) => add_snippet(alloc, form, anonymized, snippet),
        Element::Suggestion(snippet) => {
            let place = suggestion_place(context.file, context.before, context.followed, snippet);
            add_patches(alloc, form, suggestion_settings(renderer), place, snippet)
        }
        Element::Origin(origin) => add_origin(alloc, form, anonymized, origin),
        Element::Padding(_) => Ok(()),
    }
}

/// Adds a message.
fn add_message<'a>(
    alloc: Global,
    form: &mut TextForm<'a>,
    hyperlink: bool,
    message: &'a Message<'a>,
) -> Result<(), AllocError>
    requires fits { MessageFits message.now }
    ensures added { OnOk result (form.new ≡ form.old ++ heading_form hyperlink kind.Message
        (heading_of_message message.now)) }
{
    add_heading(alloc, form, hyperlink, HeadingKind::Message, message)
}

/// Adds an annotated snippet.
fn add_snippet<'a>(
    alloc: Global,
    form: &mut TextForm<'a>,
    anonymized: bool,
    snippet: &'a Snippet<'a, Annotation<'a>>,
) -> Result<(), AllocError>
    requires drawable { IsDrawable snippet.now }
    ensures added { OnOk result (form.new ≡ form.old ++ cause_form anonymized snippet.now) }
{
    let map = map_of(alloc, snippet)?;
    add_cause(alloc, form, anonymized, snippet, &map)
}

/// Adds a suggestion that has patches, which stands at this place among others.
fn add_patches<'a>(
    alloc: Global,
    form: &mut TextForm<'a>,
    settings: SuggestionSettings,
    place: SuggestionContext,
    snippet: &'a Snippet<'a, Patch<'a>>,
) -> Result<(), AllocError>
    requires suggestible { IsSuggestible snippet.now }
    requires some { snippet.now.markers.items ≢ [] }
    ensures added { OnOk result (form.new ≡ form.old ++ suggestion_form settings place snippet.now) }
{
    match prepare_suggestion(alloc, snippet)? {
        Some(suggestion) => add_suggestion(alloc, form, settings, place, &suggestion),
        None => Ok(()),
    }
}

/// How suggestions are told.
fn suggestion_settings(renderer: &Renderer) -> SuggestionSettings
    ensures value { result ≡ spec.suggestion_settings renderer.now }
{
    SuggestionSettings {
        anonymized: renderer.anonymized_origin_line_numbers,
        show_line_feeds: renderer.show_line_feeds,
    }
}

/// Where a suggestion stands among others, given the one right before it, and whether another for its file follows.
fn suggestion_place(
    file: Option<&str>,
    before: Option<PreviousSuggestion<'_>>,
    followed: bool,
    snippet: &Snippet<'_, Patch<'_>>,
) -> SuggestionContext
    requires small { IfSome before (λ b. HasNext b.number) }
    ensures value { result ≡ spec.suggestion_place (option_copied file.entry)
        (before_seen before.entry) followed snippet.now }
{
    let path = path_of(&snippet.path);
    let number = option_number(before, path);
    let several = continues(before, path) || followed;
    SuggestionContext {
        option: several.then_some(number),
        names_path: path.is_some() && !is_same_file(known_file(file, before), path),
    }
}

/// The file that a suggestion needn't name: that of the one right before it, or else the group's.
fn known_file<'r>(file: Option<&'r str>, before: Option<PreviousSuggestion<'r>>) -> Option<&'r str>
    ensures value { option_copied result ≡ spec.known_file (option_copied file.entry) (before_seen before.entry) }
{
    match before {
        Some(before) => before.path,
        None => file,
    }
}

/// Whether a suggestion for this path goes on a row of suggestions for one file.
fn continues(before: Option<PreviousSuggestion<'_>>, path: Option<&str>) -> bool
    ensures value { result ≡ spec.continues (before_seen before.entry) (option_copied path.entry) }
{
    match before {
        Some(before) => is_same_file(before.path, path),
        None => false,
    }
}

/// Its number in that row, from 1.
fn option_number(before: Option<PreviousSuggestion<'_>>, path: Option<&str>) -> usize
    requires small { IfSome before (λ b. HasNext b.number) }
    ensures value { result ≡ spec.option_number (before_seen before.entry) (option_copied path.entry) }
{
    match before {
        Some(before) if is_same_file(before.path, path) => before.number + 1,
        _ => 1,
    }
}

/// What stands right before the element after this one.
fn before_next<'r>(
    before: Option<PreviousSuggestion<'r>>,
    element: &'r Element<'_>,
) -> Option<PreviousSuggestion<'r>>
    requires small { IfSome before (λ b. HasNext b.number) }
    ensures value { before_seen result ≡ spec.before_next (before_seen before.entry) element.now }
{
    let Element::Suggestion(snippet) = element else {
        return None;
    };
    let path = path_of(&snippet.path);
    let number = option_number(before, path);
    Some(PreviousSuggestion { path, number })
}
