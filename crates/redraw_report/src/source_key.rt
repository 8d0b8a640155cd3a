//! Keys by which sources are looked up: a source is compared with few of the others then, and not with each.
ghost use Rattle.std.specs.Prelude.{◌≡◌};
ghost use Rattle.redraw_report.specs.Sight.{sight_of};
ghost use Rattle.redraw_report.specs.SourceKey.{IsKeyOf, key_sight};

use crate::finding::{Content, Shown};

/// What tells a source from others, in an order: its path, and then what is shown of it.
#[derive(Clone, Copy, PartialEq, Eq, PartialOrd, Ord)]
pub struct SourceKey<'a> {
    path: &'a str,
    content: ContentKey<'a>,
}

/// What is shown of a source, in an order.
#[derive(Clone, Copy, PartialEq, Eq, PartialOrd, Ord)]
enum ContentKey<'a> {
    Lines(usize, &'a str),
    Nothing(Option<usize>, Option<usize>),
    Blank(usize, usize),
}

/// The key of a source.
pub fn key_of<'a>(source: &Shown<'a>) -> SourceKey<'a>
    ensures of { IsKeyOf result source.now }
{
    SourceKey {
        path: source.path,
        content: content_key(source.content),
    }
}

/// The key of what is shown of a source.
fn content_key<'a>(content: Content<'a>) -> ContentKey<'a>
    ensures of { key_sight result ≡ sight_of content.entry }
{
    match content {
        Content::Lines { text, first_line } => ContentKey::Lines(first_line, text.as_str()),
        Content::Nothing { line, column } => ContentKey::Nothing(line, column),
        Content::Blank { line, column } => ContentKey::Blank(line, column),
    }
}
