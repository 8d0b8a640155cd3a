//! Snippets and elements as they are set.
ghost use Rattle.std.specs.Prelude.{IfOk};
ghost use Rattle.snippet_model.specs.Same.{SamePatch};
ghost use Rattle.snippet_shown.specs.AsSet.{IsAnnotationAsSet, IsElementAsSet, IsSnippetAsSet};

use crate::as_set::markers::{annotations_as_set, patches_lent};
use crate::as_set::texts::{option_as_set, source_lent};
use crate::as_set::titles::{message_as_set, origin_as_set};
use snippet_model::snippet::{Annotation, Element, Padding, Patch, Snippet};
use std::alloc::{AllocError, Global};

/// An annotated snippet as it is set.
fn cause_as_set<'a>(
    alloc: Global,
    feeds: bool,
    snippet: &'a Snippet<'a, Annotation<'a>>,
) -> Result<Snippet<'a, Annotation<'a>>, AllocError>
    ensures set { IfOk result (IsSnippetAsSet feeds (IsAnnotationAsSet feeds) snippet.now) }
{
    Ok(Snippet {
        path: option_as_set(alloc, feeds, &snippet.path)?,
        line_start: snippet.line_start,
        source: source_lent(&snippet.source)?,
        markers: annotations_as_set(alloc, feeds, &snippet.markers)?,
        line_numbering: snippet.line_numbering,
        fold: snippet.fold,
    })
}

/// A suggestion as it is set.
fn suggestion_as_set<'a>(
    alloc: Global,
    feeds: bool,
    snippet: &'a Snippet<'a, Patch<'a>>,
) -> Result<Snippet<'a, Patch<'a>>, AllocError>
    ensures set { IfOk result (IsSnippetAsSet feeds SamePatch snippet.now) }
{
    Ok(Snippet {
        path: option_as_set(alloc, feeds, &snippet.path)?,
        line_start: snippet.line_start,
        source: source_lent(&snippet.source)?,
        markers: patches_lent(alloc, &snippet.markers)?,
        line_numbering: snippet.line_numbering,
        fold: snippet.fold,
    })
}

/// An element as it is set.
pub fn element_as_set<'a>(
    alloc: Global,
    feeds: bool,
    element: &'a Element<'a>,
) -> Result<Element<'a>, AllocError>
    ensures set { IfOk result (IsElementAsSet feeds element.now) }
{
    match element {
        Element::Message(message) => Ok(Element::Message(message_as_set(alloc, feeds, message)?)),
        Element::Cause(snippet) => Ok(Element::Cause(cause_as_set(alloc, feeds, snippet)?)),
        Element::Suggestion(snippet) => {
            Ok(Element::Suggestion(suggestion_as_set(alloc, feeds, snippet)?))
        }
        Element::Origin(origin) => Ok(Element::Origin(origin_as_set(alloc, feeds, origin)?)),
        Element::Padding(_) => Ok(Element::Padding(Padding)),
    }
}
