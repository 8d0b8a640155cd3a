//! Whether each text of a report is within the library's limit: the one thing that drawing asks.

ghost use Rattle.std.specs.Prelude.{◌↔◌, IsTrue, IfSome};
ghost use Rattle.std.specs.Cow.{cow_str_bytes};
ghost use Rattle.snippet_model.specs.Fits.{AnnotationFits, ElementFits, GroupFits, IdFits, LevelFits, PatchFits};
ghost use Rattle.snippet_model.specs.Fits.{ReportFits, SnippetFits, TextFits, TitleFits};

use super::{Annotation, Element, Group, Id, Message, Patch, Snippet, Title};
use crate::level::Level;
use snippet_text::{CowStr, text_fits};

/// Whether each text of a report is within the library's one limit: fewer than 2^56 bytes. It is all that `render` and
/// `render_sheets` ask of a report. It takes no memory, and walks over no text.
///
/// ```
/// if report_fits(&groups) {
///     Renderer::plain().render(alloc, &groups)
/// } else {
///     // A text of the report has 2^56 bytes or more.
/// }
/// ```
pub fn report_fits(groups: &[Group<'_>]) -> bool
    ensures value { IsTrue result ↔ ReportFits groups.now }
{
    groups.iter().all(|group| group.fits())
}

impl<'a> Group<'a> {
    /// Whether each text of the group has fewer than 2^56 bytes, as drawing asks.
    pub fn fits(&self) -> bool
        ensures value { IsTrue result ↔ GroupFits self.now }
    {
        let titled = match &self.title {
            Some(title) => title_fits(title),
            None => true,
        };
        titled && self.elements.iter().all(|element| element.fits())
    }
}

impl<'a> Element<'a> {
    /// Whether each text of the element has fewer than 2^56 bytes, as drawing asks.
    pub fn fits(&self) -> bool
        ensures value { IsTrue result ↔ ElementFits self.now }
    {
        match self {
            Element::Message(message) => message_fits(message),
            Element::Cause(snippet) => cause_fits(snippet),
            Element::Suggestion(snippet) => suggestion_fits(snippet),
            Element::Origin(origin) => cow_fits(&origin.path),
            Element::Padding(_) => true,
        }
    }
}

/// Whether each text of a title fits.
fn title_fits(title: &Title<'_>) -> bool
    ensures value { IsTrue result ↔ TitleFits title.now }
{
    let identified = match &title.id {
        Some(id) => id_fits(id),
        None => true,
    };
    level_fits(&title.level) && cow_fits(&title.text) && identified
}

/// Whether the name of a level fits.
fn level_fits(level: &Level<'_>) -> bool
    ensures value { IsTrue result ↔ LevelFits level.now }
{
    text_fits(level.as_str())
}

/// Whether an identifier and its address fit.
fn id_fits(id: &Id<'_>) -> bool
    ensures value { IsTrue result ↔ IdFits id.now }
{
    optional_fits(&id.id) && optional_fits(&id.url)
}

/// Whether a text fits, if there is one.
fn optional_fits(text: &Option<CowStr<'_>>) -> bool
    ensures value { IsTrue result ↔ IfSome text.now (λ t. TextFits (cow_str_bytes t)) }
{
    match text {
        Some(text) => cow_fits(text),
        None => true,
    }
}

/// Whether a text fits.
fn cow_fits(text: &CowStr<'_>) -> bool
    ensures value { IsTrue result ↔ TextFits (cow_str_bytes text.now) }
{
    text_fits(text.as_str())
}

/// Whether the texts of a message fit.
fn message_fits(message: &Message<'_>) -> bool
    ensures value { IsTrue result ↔ (LevelFits message.now.level × TextFits (cow_str_bytes message.now.text)) }
{
    level_fits(&message.level) && cow_fits(&message.text)
}

/// Whether each text of a source with annotations fits.
fn cause_fits(snippet: &Snippet<'_, Annotation<'_>>) -> bool
    ensures value { IsTrue result ↔ SnippetFits AnnotationFits snippet.now }
{
    text_fits(snippet.source.as_str())
        && optional_fits(&snippet.path)
        && snippet
            .markers
            .iter()
            .all(|mark| optional_fits(&mark.label))
}

/// Whether each text of a source with patches fits.
fn suggestion_fits(snippet: &Snippet<'_, Patch<'_>>) -> bool
    ensures value { IsTrue result ↔ SnippetFits PatchFits snippet.now }
{
    text_fits(snippet.source.as_str())
        && optional_fits(&snippet.path)
        && snippet
            .markers
            .iter()
            .all(|patch| cow_fits(&patch.replacement))
}
