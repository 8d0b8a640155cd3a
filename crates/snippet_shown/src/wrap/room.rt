//! Where the texts of titles and messages begin, and the room that is right of there.
ghost use Rattle.std.specs.Prelude.{◌≡◌, ◌≤◌};
ghost use Rattle.snippet_model.specs.Fits.{MessageFits, TitleFits};
ghost use Rattle.snippet_shown.specs.AsWrapped as spec;

use snippet_model::snippet::{Message, Title};
use snippet_titles::label_width;

/// The columns of a terminal of this width that are right of where a title's text begins.
pub(crate) fn room_of_title(term_width: usize, title: &Title) -> usize
    requires fits { TitleFits title.now }
    ensures value { result ≡ spec.room_of_title term_width title.now }
{
    term_width.saturating_sub(label_width(title))
}

/// The room of a message, beside a gutter of so many cells.
pub(crate) fn room_of_message(term_width: usize, gutter: usize, message: &Message) -> usize
    requires fits { MessageFits message.now }
    requires gutter { gutter ≤ 20 }
    ensures value { result ≡ spec.room_of_message term_width gutter message.now }
{
    term_width.saturating_sub(gutter + 3 + label_width(message))
}
