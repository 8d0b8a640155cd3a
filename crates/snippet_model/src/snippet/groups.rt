//! How a group is built.
ghost use Rattle.std.specs.Prelude.{◌≡◌, List, [], ◌∷◌, ◌++◌, Some, None, IfOk, IsTrue, ◌↔◌};
ghost use Rattle.std.specs.Iterator.{IsFiniteIterable, Drains};
ghost use Rattle.snippet_model.specs.declared.snippet.Element.TheVariants as element;

use super::{Annotation, Element, Group, Message, Origin, Padding, Patch, Snippet, Title};
use crate::level::Level;
use std::alloc::{AllocError, Global};

impl<'a> Group<'a> {
    /// A group with this title and no elements. It takes no memory.
    pub fn with_title(alloc: Global, title: Title<'a>) -> Group<'a>
        ensures title { result.title ≡ Some title.entry }
        ensures level { result.level ≡ title.entry.level.kind }
        ensures elements { result.elements.items ≡ [] }
    {
        Group {
            level: title.level.kind,
            title: Some(title),
            elements: Vec::new(alloc),
        }
    }

    /// A group without a title, which begins with its first element; its primary marks have the style of this level's
    /// kind. It takes no memory.
    pub fn with_level(alloc: Global, level: Level<'a>) -> Group<'a>
        ensures title { result.title ≡ None }
        ensures level { result.level ≡ level.entry.kind }
        ensures elements { result.elements.items ≡ [] }
    {
        Group {
            level: level.kind,
            title: None,
            elements: Vec::new(alloc),
        }
    }

    /// Whether the group has no title and no elements, so that nothing of it is drawn.
    pub fn is_empty(&self) -> bool
        ensures value { IsTrue result ↔ ((self.now.title ≡ None) × (self.now.elements.items ≡ [])) }
    {
        self.title.is_none() && self.elements.is_empty()
    }

    /// The group with one more element after those it has. The one error is that memory ran out.
    pub fn element(mut self, element: Element<'a>) -> Result<Group<'a>, AllocError>
        ensures title { IfOk result (λ g. g.title ≡ self.entry.title) }
        ensures level { IfOk result (λ g. g.level ≡ self.entry.level) }
        ensures elements { IfOk result
            (λ g. g.elements.items ≡ self.entry.elements.items ++ element.entry ∷ []) }
    {
        self.elements.push(element)?;
        Ok(self)
    }

    /// The group with these elements after those it has, in their order. The iterator has to end. The one error is
    /// that memory ran out.
    pub fn elements<I: IntoIterator<Item = Element<'a>>>(
        mut self,
        elements: I,
    ) -> Result<Group<'a>, AllocError>
        requires ends { IsFiniteIterable I.into_iter_gives I.IntoIter.can_next I.IntoIter.remaining elements }
        ensures title { IfOk result (λ g. g.title ≡ self.entry.title) }
        ensures level { IfOk result (λ g. g.level ≡ self.entry.level) }
        ensures elements { IfOk result (λ g. (it : I.IntoIter) × (xs : List Element)
            × I.into_iter_gives elements it × Drains I.IntoIter.next_gives it xs
            × (g.elements.items ≡ self.entry.elements.items ++ xs)) }
    {
        self.elements.extend(elements)?;
        Ok(self)
    }

    /// The group with a message after the elements that it has. The one error is that memory ran out.
    pub fn message(self, message: Message<'a>) -> Result<Group<'a>, AllocError>
        ensures title { IfOk result (λ g. g.title ≡ self.entry.title) }
        ensures level { IfOk result (λ g. g.level ≡ self.entry.level) }
        ensures elements { IfOk result
            (λ g. g.elements.items ≡ self.entry.elements.items ++ element.Message message.entry ∷ []) }
    {
        self.element(Element::Message(message))
    }

    /// The group with source with annotations after the elements that it has. The one error is that memory ran out.
    pub fn snippet(self, snippet: Snippet<'a, Annotation<'a>>) -> Result<Group<'a>, AllocError>
        ensures title { IfOk result (λ g. g.title ≡ self.entry.title) }
        ensures level { IfOk result (λ g. g.level ≡ self.entry.level) }
        ensures elements { IfOk result
            (λ g. g.elements.items ≡ self.entry.elements.items ++ element.Cause snippet.entry ∷ []) }
    {
        self.element(Element::Cause(snippet))
    }

    /// The group with source with a suggested edit after the elements that it has. The one error is that memory ran
    /// out.
    pub fn suggestion(self, snippet: Snippet<'a, Patch<'a>>) -> Result<Group<'a>, AllocError>
        ensures title { IfOk result (λ g. g.title ≡ self.entry.title) }
        ensures level { IfOk result (λ g. g.level ≡ self.entry.level) }
        ensures elements { IfOk result
            (λ g. g.elements.items ≡ self.entry.elements.items ++ element.Suggestion snippet.entry ∷ []) }
    {
        self.element(Element::Suggestion(snippet))
    }

    /// The group with a place without source after the elements that it has. The one error is that memory ran out.
    pub fn origin(self, origin: Origin<'a>) -> Result<Group<'a>, AllocError>
        ensures title { IfOk result (λ g. g.title ≡ self.entry.title) }
        ensures level { IfOk result (λ g. g.level ≡ self.entry.level) }
        ensures elements { IfOk result
            (λ g. g.elements.items ≡ self.entry.elements.items ++ element.Origin origin.entry ∷ []) }
    {
        self.element(Element::Origin(origin))
    }

    /// The group with an empty row after the elements that it has. The one error is that memory ran out.
    pub fn padding(self) -> Result<Group<'a>, AllocError>
        ensures title { IfOk result (λ g. g.title ≡ self.entry.title) }
        ensures level { IfOk result (λ g. g.level ≡ self.entry.level) }
        ensures elements { IfOk result
            (λ g. g.elements.items ≡ self.entry.elements.items ++ element.Padding (record {}) ∷ []) }
    {
        self.element(Element::Padding(Padding))
    }
}
