//! A title's identifier, and the group that it begins.
ghost use Rattle.std.specs.Prelude.{◌≡◌, List, [], ◌∷◌, Some, IfOk};
ghost use Rattle.std.specs.Option.{option_and_then};
ghost use Rattle.std.specs.Iterator.{IsFiniteIterable, Drains};
ghost use Rattle.std.specs.declared.borrow.CowStr.TheVariants.{Borrowed};
ghost use Rattle.snippet_model.specs.declared.snippet.Element.TheVariants as element;

use super::{Annotation, Element, Group, Id, Message, Origin, Padding, Patch, Snippet, Title};
use snippet_text::CowStr;
use std::alloc::{AllocError, Global};

/// An identifier of this text, with the address that there was.
fn with_id<'a>(had: Option<Id<'a>>, id: CowStr<'a>) -> Id<'a>
    ensures id { result.id ≡ Some id.entry }
    ensures url { result.url ≡ option_and_then (λ had. had.url) had.entry }
{
    match had {
        Some(had) => Id {
            id: Some(id),
            url: had.url,
        },
        None => Id {
            id: Some(id),
            url: None,
        },
    }
}

/// An identifier that links to this address, with the text that there was.
fn with_url<'a>(had: Option<Id<'a>>, url: CowStr<'a>) -> Id<'a>
    ensures id { result.id ≡ option_and_then (λ had. had.id) had.entry }
    ensures url { result.url ≡ Some url.entry }
{
    match had {
        Some(had) => Id {
            id: had.id,
            url: Some(url),
        },
        None => Id {
            id: None,
            url: Some(url),
        },
    }
}

impl<'a> Title<'a> {
    /// The title with this identifier, which is shown in brackets after the level's name. An address that was given
    /// stays. The identifier isn't trusted: it is normalised where it is drawn.
    ///
    /// ```text
    /// Level::ERROR.primary_title("mismatched types").id("E0308")     error[E0308]: mismatched types
    /// ```
    pub fn id(self, id: &'a str) -> Title<'a>
        ensures changed { result ≡ record self.entry {
          id = Some (record { id = Some (Borrowed id.entry); url = option_and_then (λ had. had.url) self.entry.id });
        } }
    {
        self.id_cow(CowStr::Borrowed(id))
    }

    /// The title with this identifier, as [`id`](Title::id) makes it, from a text that may be owned.
    pub fn id_cow(self, id: CowStr<'a>) -> Title<'a>
        ensures changed { result ≡ record self.entry {
          id = Some (record { id = Some id.entry; url = option_and_then (λ had. had.url) self.entry.id });
        } }
    {
        Title {
            level: self.level,
            id: Some(with_id(self.id, id)),
            text: self.text,
            allows_styling: self.allows_styling,
        }
    }

    /// The title with this address, to which its identifier links where links are on. An identifier that was given
    /// stays.
    pub fn id_url(self, url: &'a str) -> Title<'a>
        ensures changed { result ≡ record self.entry {
          id = Some (record { id = option_and_then (λ had. had.id) self.entry.id; url = Some (Borrowed url.entry) });
        } }
    {
        self.id_url_cow(CowStr::Borrowed(url))
    }

    /// The title with this address, as [`id_url`](Title::id_url) makes it, from a text that may be owned.
    pub fn id_url_cow(self, url: CowStr<'a>) -> Title<'a>
        ensures changed { result ≡ record self.entry {
          id = Some (record { id = option_and_then (λ had. had.id) self.entry.id; url = Some url.entry });
        } }
    {
        Title {
            level: self.level,
            id: Some(with_url(self.id, url)),
            text: self.text,
            allows_styling: self.allows_styling,
        }
    }

    /// A group with this title and one element. The one error is that memory ran out.
    pub fn element(self, alloc: Global, element: Element<'a>) -> Result<Group<'a>, AllocError>
        ensures title { IfOk result (λ g. g.title ≡ Some self.entry) }
        ensures level { IfOk result (λ g. g.level ≡ self.entry.level.kind) }
        ensures elements { IfOk result (λ g. g.elements.items ≡ element.entry ∷ []) }
    {
        Group::with_title(alloc, self).element(element)
    }

    /// A group with this title and these elements, in their order. The iterator has to end. The one error is that
    /// memory ran out.
    pub fn elements<I: IntoIterator<Item = Element<'a>>>(
        self,
        alloc: Global,
        elements: I,
    ) -> Result<Group<'a>, AllocError>
        requires ends { IsFiniteIterable I.into_iter_gives I.IntoIter.can_next I.IntoIter.remaining elements }
        ensures title { IfOk result (λ g. g.title ≡ Some self.entry) }
        ensures level { IfOk result (λ g. g.level ≡ self.entry.level.kind) }
        ensures elements { IfOk result (λ g. (it : I.IntoIter) × (xs : List Element)
            × I.into_iter_gives elements it × Drains I.IntoIter.next_gives it xs
            × (g.elements.items ≡ xs)) }
    {
        Group::with_title(alloc, self).elements(elements)
    }

    /// A group with this title and a message. The one error is that memory ran out.
    pub fn message(self, alloc: Global, message: Message<'a>) -> Result<Group<'a>, AllocError>
        ensures title { IfOk result (λ g. g.title ≡ Some self.entry) }
        ensures level { IfOk result (λ g. g.level ≡ self.entry.level.kind) }
        ensures elements { IfOk result (λ g. g.elements.items ≡ element.Message message.entry ∷ []) }
    {
        self.element(alloc, Element::Message(message))
    }

    /// A group with this title and source with annotations. The one error is that memory ran out.
    pub fn snippet(
        self,
        alloc: Global,
        snippet: Snippet<'a, Annotation<'a>>,
    ) -> Result<Group<'a>, AllocError>
        ensures title { IfOk result (λ g. g.title ≡ Some self.entry) }
        ensures level { IfOk result (λ g. g.level ≡ self.entry.level.kind) }
        ensures elements { IfOk result (λ g. g.elements.items ≡ element.Cause snippet.entry ∷ []) }
    {
        self.element(alloc, Element::Cause(snippet))
    }

    /// A group with this title and source with a suggested edit. The one error is that memory ran out.
    pub fn suggestion(
        self,
        alloc: Global,
        snippet: Snippet<'a, Patch<'a>>,
    ) -> Result<Group<'a>, AllocError>
        ensures title { IfOk result (λ g. g.title ≡ Some self.entry) }
        ensures level { IfOk result (λ g. g.level ≡ self.entry.level.kind) }
        ensures elements { IfOk result (λ g. g.elements.items ≡ element.Suggestion snippet.entry ∷ []) }
    {
        self.element(alloc, Element::Suggestion(snippet))
    }

    /// A group with this title and a place without source. The one error is that memory ran out.
    pub fn origin(self, alloc: Global, origin: Origin<'a>) -> Result<Group<'a>, AllocError>
        ensures title { IfOk result (λ g. g.title ≡ Some self.entry) }
        ensures level { IfOk result (λ g. g.level ≡ self.entry.level.kind) }
        ensures elements { IfOk result (λ g. g.elements.items ≡ element.Origin origin.entry ∷ []) }
    {
        self.element(alloc, Element::Origin(origin))
    }

    /// A group with this title and an empty row. The one error is that memory ran out.
    pub fn padding(self, alloc: Global) -> Result<Group<'a>, AllocError>
        ensures title { IfOk result (λ g. g.title ≡ Some self.entry) }
        ensures level { IfOk result (λ g. g.level ≡ self.entry.level.kind) }
        ensures elements { IfOk result (λ g. g.elements.items ≡ element.Padding (record {}) ∷ []) }
    {
        self.element(alloc, Element::Padding(Padding))
    }
}
