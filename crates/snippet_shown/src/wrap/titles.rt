//! Titles and messages that are wrapped.
ghost use Rattle.std.specs.Prelude.{◌≤◌, IfOk};
ghost use Rattle.snippet_model.specs.Fits.{MessageFits, TitleFits};
ghost use Rattle.snippet_shown.specs.AsWrapped.{IsMessageWrapped, IsTitleWrapped};

use crate::remake::Remake;
use crate::wrap::room::{room_of_message, room_of_title};
use crate::wrap::text::wrapped;
use snippet_model::snippet::{Element, Message, Title};
use std::alloc::{AllocError, Global};

/// Titles and messages of a report are wrapped for a terminal of so many columns, beside a gutter of so many cells: a
/// line of a text that is wider than the room right of where the text begins is broken.
#[derive(Clone, Copy, Debug)]
pub struct Wrapping {
    /// The columns of the terminal.
    pub term_width: usize,
    /// The cells of the gutter, at most 20.
    pub gutter: usize,
}

impl Remake for Wrapping {
    ghost use Rattle.snippet_model.specs.Fits.{TitleFits};
    ghost use Rattle.snippet_shown.specs.AsWrapped.{IsElementWrapped, IsTitleWrapped};
    ghost use Rattle.snippet_shown.specs.Asked.{IsElementWrappable};

    ghost takes_title = { λ wrapping title. TitleFits title };

    ghost takes_element = { λ wrapping. IsElementWrappable wrapping.gutter };

    ghost makes_title = { λ wrapping. IsTitleWrapped wrapping.term_width };

    ghost makes_element = { λ wrapping. IsElementWrapped wrapping.term_width wrapping.gutter };

    fn title<'a>(&self, alloc: Global, title: Title<'a>) -> Result<Title<'a>, AllocError> {
        title_wrapped(alloc, self.term_width, title)
    }

    fn element<'a>(&self, alloc: Global, element: Element<'a>) -> Result<Element<'a>, AllocError> {
        match element {
            Element::Message(message) => {
                let message = message_wrapped(alloc, self.term_width, self.gutter, message)?;
                Ok(Element::Message(message))
            }
            other => Ok(other),
        }
    }
}

/// A title, wrapped.
fn title_wrapped<'a>(
    alloc: Global,
    term_width: usize,
    title: Title<'a>,
) -> Result<Title<'a>, AllocError>
    requires fits { TitleFits title }
    ensures wrapped { IfOk result (IsTitleWrapped term_width title.entry) }
{
    let room = room_of_title(term_width, &title);
    Ok(Title {
        level: title.level,
        id: title.id,
        text: wrapped(alloc, room, title.allows_styling, title.text)?,
        allows_styling: title.allows_styling,
    })
}

/// A message, wrapped.
fn message_wrapped<'a>(
    alloc: Global,
    term_width: usize,
    gutter: usize,
    message: Message<'a>,
) -> Result<Message<'a>, AllocError>
    requires fits { MessageFits message }
    requires gutter { gutter ≤ 20 }
    ensures wrapped { IfOk result (IsMessageWrapped term_width gutter message.entry) }
{
    let room = room_of_message(term_width, gutter, &message);
    Ok(Message {
        level: message.level,
        text: wrapped(alloc, room, true, message.text)?,
    })
}
