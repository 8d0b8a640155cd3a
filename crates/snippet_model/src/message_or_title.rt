//! What titles and messages have in common: a level, perhaps an identifier, and a text.
ghost use Rattle.std.specs.Prelude.{◌≡◌};
ghost use Rattle.std.specs.Option.{option_copied};
ghost use Rattle.snippet_model.specs.Heading.{Heading, heading_of_message, heading_of_title};

use crate::level::Level;
use crate::snippet::{Id, Message, Title};

/// A title or a message: what is drawn of both in the same way.
pub trait MessageOrTitle {
    ghost heading_of: { Self → Heading };

    /// How severe it is.
    fn level(&self) -> &Level<'_>
        ensures value { result.now ≡ (heading_of self.now).level };

    /// Its identifier, where it has one.
    fn id(&self) -> Option<&Id<'_>>
        ensures value { option_copied result ≡ (heading_of self.now).id };

    /// Its text.
    fn text(&self) -> &str
        ensures value { result.now ≡ (heading_of self.now).text };

    /// Whether its text is trusted: drawn as it is, with any style codes that it holds.
    fn allows_styling(&self) -> bool
        ensures value { result ≡ (heading_of self.now).allows_styling };
}

impl<'a> MessageOrTitle for Title<'a> {
    ghost heading_of = { λ title. heading_of_title title };

    fn level(&self) -> &Level<'_> {
        &self.level
    }

    fn id(&self) -> Option<&Id<'_>> {
        self.id.as_ref()
    }

    fn text(&self) -> &str {
        self.text.as_str()
    }

    fn allows_styling(&self) -> bool {
        self.allows_styling
    }
}

impl<'a> MessageOrTitle for Message<'a> {
    ghost heading_of = { λ message. heading_of_message message };

    fn level(&self) -> &Level<'_> {
        &self.level
    }

    fn id(&self) -> Option<&Id<'_>> {
        None
    }

    fn text(&self) -> &str {
        self.text.as_str()
    }

    fn allows_styling(&self) -> bool {
        true
    }
}
