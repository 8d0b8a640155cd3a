//! Annotated snippets with the lines around those that they keep.
ghost use Rattle.std.specs.Prelude.{◌≡◌, ◌++◌, map, IfOk, OnOk};
ghost use Rattle.snippet_shown.specs.Context.{visible_mark};
ghost use Rattle.snippet_shown.specs.WithContext.{IsSnippetWithContext};
ghost use Rattle.snippet_shown.specs.Asked.{IsSnippetSound};

use crate::context::spans::spans_around;
use crate::remake::Remake;
use snippet_model::snippet::{Annotation, AnnotationKind, Element, Snippet, Title};
use std::alloc::{AllocError, Global};
use std::ops::Range;

/// So many lines before and after each line that an annotated snippet of a report keeps: after the annotations of each
/// one whose lines are folded stand those that keep these lines, which mark nothing.
#[derive(Clone, Copy, Debug)]
pub struct LinesAround {
    /// How many lines before.
    pub before: usize,
    /// How many lines after.
    pub after: usize,
}

impl Remake for LinesAround {
    ghost use Rattle.snippet_shown.specs.Remade.{Stays};
    ghost use Rattle.snippet_shown.specs.WithContext.{IsElementWithContext};
    ghost use Rattle.snippet_shown.specs.Asked.{IsAnyTitle, IsElementSound};

    ghost takes_title = { λ around title. IsAnyTitle title };

    ghost takes_element = { λ around element. IsElementSound element };

    ghost makes_title = { λ around a b. Stays a b };

    ghost makes_element = { λ around. IsElementWithContext around.before around.after };

    fn title<'a>(&self, _alloc: Global, title: Title<'a>) -> Result<Title<'a>, AllocError> {
        Ok(title)
    }

    fn element<'a>(&self, alloc: Global, element: Element<'a>) -> Result<Element<'a>, AllocError> {
        match element {
            Element::Cause(snippet) => {
                Ok(Element::Cause(cause_with_context(alloc, self.before, self.after, snippet)?))
            }
            other => Ok(other),
        }
    }
}

/// An annotated snippet with the lines around those that it keeps. Where lines aren't folded it stays as it is, since
/// all lines are kept.
///
/// The one error is that memory ran out.
fn cause_with_context<'a>(
    alloc: Global,
    before: usize,
    after: usize,
    mut snippet: Snippet<'a, Annotation<'a>>,
) -> Result<Snippet<'a, Annotation<'a>>, AllocError>
    requires sound { IsSnippetSound snippet }
    ensures with { IfOk result (IsSnippetWithContext before after snippet.entry) }
{
    if !snippet.fold {
        return Ok(snippet);
    }
    let spans = spans_around(alloc, before, after, &snippet)?;
    add_visible(&mut snippet.markers, spans)?;
    Ok(snippet)
}

/// Adds an annotation for each of some spans that keeps their lines, and marks nothing.
///
/// The one error is that memory ran out.
fn add_visible(
    markers: &mut Vec<Annotation<'_>>,
    spans: Vec<Range<usize>>,
) -> Result<(), AllocError>
    ensures added { OnOk result (markers.new.items ≡ markers.old.items ++ map visible_mark spans.items) }
{
    for span in spans {
        markers.push(AnnotationKind::Visible.span(span))?;
    }
    Ok(())
}
