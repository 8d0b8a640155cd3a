//! Titles and elements whose texts are masked.
ghost use Rattle.std.specs.Prelude.{IfOk};
ghost use Rattle.snippet_model.specs.Same.{SameOption};
ghost use Rattle.snippet_shown.specs.AsMasked.{IsAnnotationMasked, IsIdMasked, IsLevelMasked, IsNameMasked};
ghost use Rattle.snippet_shown.specs.AsMasked.{IsOriginMasked, IsPatchMasked, IsSnippetMasked};

use crate::mask::markers::{annotations_masked, patches_masked};
use crate::mask::text::{option_masked, source_masked, text_masked, text_masked_in};
use crate::remake::Remake;
use snippet_model::level::{Level, LevelName};
use snippet_model::snippet::{Annotation, Element, Id, Message, Origin, Patch, Snippet, Title};
use std::alloc::{AllocError, Global};

/// The controls of all texts of a report are masked: those that could change how a terminal shows the text around them,
/// and in trusted texts the listed characters. Addresses stay.
#[derive(Clone, Copy, Debug)]
pub struct Masking;

impl Remake for Masking {
    ghost use Rattle.snippet_shown.specs.AsMasked.{IsElementMasked, IsTitleMasked};
    ghost use Rattle.snippet_shown.specs.Asked.{IsAnyTitle};

    ghost takes_title = { λ masking title. IsAnyTitle title };

    ghost takes_element = { λ masking element. Unit {0} };

    ghost makes_title = { λ masking. IsTitleMasked };

    ghost makes_element = { λ masking. IsElementMasked };

    fn title<'a>(&self, alloc: Global, title: Title<'a>) -> Result<Title<'a>, AllocError> {
        Ok(Title {
            level: level_masked(alloc, title.level)?,
            id: optional_id_masked(alloc, title.id)?,
            text: text_masked_in(alloc, title.allows_styling, title.text)?,
            allows_styling: title.allows_styling,
        })
    }

    fn element<'a>(&self, alloc: Global, element: Element<'a>) -> Result<Element<'a>, AllocError> {
        match element {
            Element::Message(message) => Ok(Element::Message(Message {
                level: level_masked(alloc, message.level)?,
                text: text_masked_in(alloc, true, message.text)?,
            })),
            Element::Cause(snippet) => Ok(Element::Cause(cause_masked(alloc, snippet)?)),
            Element::Suggestion(snippet) => {
                Ok(Element::Suggestion(suggestion_masked(alloc, snippet)?))
            }
            Element::Origin(origin) => Ok(Element::Origin(origin_masked(alloc, origin)?)),
            Element::Padding(padding) => Ok(Element::Padding(padding)),
        }
    }
}

/// A level, its name masked.
fn level_masked<'a>(alloc: Global, level: Level<'a>) -> Result<Level<'a>, AllocError>
    ensures masked { IfOk result (IsLevelMasked level.entry) }
{
    Ok(Level {
        name: name_masked(alloc, level.name)?,
        kind: level.kind,
    })
}

/// The name of a level, masked.
fn name_masked<'a>(alloc: Global, name: LevelName<'a>) -> Result<LevelName<'a>, AllocError>
    ensures masked { IfOk result (IsNameMasked name.entry) }
{
    match name {
        LevelName::Own(own) => Ok(LevelName::Own(text_masked(alloc, own)?)),
        LevelName::Standard => Ok(LevelName::Standard),
        LevelName::Hidden => Ok(LevelName::Hidden),
    }
}

/// An identifier that may be missing, its text masked.
fn optional_id_masked<'a>(alloc: Global, id: Option<Id<'a>>) -> Result<Option<Id<'a>>, AllocError>
    ensures masked { IfOk result (SameOption IsIdMasked id.entry) }
{
    match id {
        Some(id) => Ok(Some(Id {
            id: option_masked(alloc, id.id)?,
            url: id.url,
        })),
        None => Ok(None),
    }
}

/// An origin, its path masked.
fn origin_masked<'a>(alloc: Global, origin: Origin<'a>) -> Result<Origin<'a>, AllocError>
    ensures masked { IfOk result (IsOriginMasked origin.entry) }
{
    Ok(Origin {
        path: text_masked(alloc, origin.path)?,
        line: origin.line,
        char_column: origin.char_column,
    })
}

/// An annotated snippet, masked.
fn cause_masked<'a>(
    alloc: Global,
    snippet: Snippet<'a, Annotation<'a>>,
) -> Result<Snippet<'a, Annotation<'a>>, AllocError>
    ensures masked { IfOk result (IsSnippetMasked IsAnnotationMasked snippet.entry) }
{
    Ok(Snippet {
        path: option_masked(alloc, snippet.path)?,
        line_start: snippet.line_start,
        source: source_masked(alloc, snippet.source)?,
        markers: annotations_masked(alloc, snippet.markers)?,
        line_numbering: snippet.line_numbering,
        fold: snippet.fold,
    })
}

/// A suggestion, masked.
fn suggestion_masked<'a>(
    alloc: Global,
    snippet: Snippet<'a, Patch<'a>>,
) -> Result<Snippet<'a, Patch<'a>>, AllocError>
    ensures masked { IfOk result (IsSnippetMasked IsPatchMasked snippet.entry) }
{
    Ok(Snippet {
        path: option_masked(alloc, snippet.path)?,
        line_start: snippet.line_start,
        source: source_masked(alloc, snippet.source)?,
        markers: patches_masked(alloc, snippet.markers)?,
        line_numbering: snippet.line_numbering,
        fold: snippet.fold,
    })
}
