//! What may be an element of a group.
ghost use Rattle.std.specs.Prelude.{◌≡◌};
ghost use Rattle.snippet_model.specs.declared.snippet.Element.TheVariants as element;

use super::{Annotation, Element, Message, Origin, Padding, Patch, Snippet};

impl<'a> From<Message<'a>> for Element<'a> {
    ghost from_gives = { λ message made. made ≡ element.Message message };

    fn from(message: Message<'a>) -> Element<'a> {
        Element::Message(message)
    }
}

impl<'a> From<Snippet<'a, Annotation<'a>>> for Element<'a> {
    ghost from_gives = { λ snippet made. made ≡ element.Cause snippet };

    fn from(snippet: Snippet<'a, Annotation<'a>>) -> Element<'a> {
        Element::Cause(snippet)
    }
}

impl<'a> From<Snippet<'a, Patch<'a>>> for Element<'a> {
    ghost from_gives = { λ snippet made. made ≡ element.Suggestion snippet };

    fn from(snippet: Snippet<'a, Patch<'a>>) -> Element<'a> {
        Element::Suggestion(snippet)
    }
}

impl<'a> From<Origin<'a>> for Element<'a> {
    ghost from_gives = { λ origin made. made ≡ element.Origin origin };

    fn from(origin: Origin<'a>) -> Element<'a> {
        Element::Origin(origin)
    }
}

impl<'a> From<Padding> for Element<'a> {
    ghost from_gives = { λ padding made. made ≡ element.Padding padding };

    fn from(padding: Padding) -> Element<'a> {
        Element::Padding(padding)
    }
}
