//! Copies of what holds lists: snippets, elements and groups. Every other part of a report is `Clone`.
ghost use Rattle.std.specs.Prelude.{IfOk};
ghost use Rattle.snippet_model.specs.Same.{SamePatch};
ghost use Rattle.snippet_model.specs.Copies.{SameAnnotation, SameElement, SameGroup, SameSnippet};

use super::{Annotation, Element, Group, Patch, Snippet};
use std::alloc::AllocError;

impl<'a> Snippet<'a, Annotation<'a>> {
    /// A copy: the same source, settings and markers. The one error is that memory ran out.
    pub fn clone(&self) -> Result<Snippet<'a, Annotation<'a>>, AllocError>
        ensures same { IfOk result (SameSnippet SameAnnotation self.now) }
    {
        Ok(Snippet {
            path: self.path.clone()?,
            line_start: self.line_start,
            source: self.source.clone()?,
            markers: self.markers.clone()?,
            line_numbering: self.line_numbering,
            fold: self.fold,
        })
    }
}

impl<'a> Snippet<'a, Patch<'a>> {
    /// A copy: the same source, settings and markers. The one error is that memory ran out.
    pub fn clone(&self) -> Result<Snippet<'a, Patch<'a>>, AllocError>
        ensures same { IfOk result (SameSnippet SamePatch self.now) }
    {
        Ok(Snippet {
            path: self.path.clone()?,
            line_start: self.line_start,
            source: self.source.clone()?,
            markers: self.markers.clone()?,
            line_numbering: self.line_numbering,
            fold: self.fold,
        })
    }
}

impl<'a> Element<'a> {
    /// A copy: an element of the same kind that says the same. The one error is that memory ran out.
    pub fn clone(&self) -> Result<Element<'a>, AllocError>
        ensures same { IfOk result (SameElement self.now) }
    {
        match self {
            Element::Message(message) => Ok(Element::Message(message.clone()?)),
            Element::Cause(snippet) => Ok(Element::Cause(snippet.clone()?)),
            Element::Suggestion(snippet) => Ok(Element::Suggestion(snippet.clone()?)),
            Element::Origin(origin) => Ok(Element::Origin(origin.clone()?)),
            Element::Padding(padding) => Ok(Element::Padding(padding.clone()?)),
        }
    }
}

impl<'a> Group<'a> {
    /// A copy: the same title and elements. The one error is that memory ran out.
    pub fn clone(&self) -> Result<Group<'a>, AllocError>
        ensures same { IfOk result (SameGroup self.now) }
    {
        let mut elements = Vec::new(*self.elements.allocator());
        for element in &self.elements {
            elements.push(element.clone()?)?;
        }
        Ok(Group {
            level: self.level,
            title: self.title.clone()?,
            elements,
        })
    }
}
