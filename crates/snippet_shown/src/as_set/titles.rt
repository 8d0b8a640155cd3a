//! Levels, titles, messages and origins as they are set.
ghost use Rattle.std.specs.Prelude.{IfOk};
ghost use Rattle.snippet_model.specs.Same.{SameOption};
ghost use Rattle.snippet_shown.specs.AsSet.{IsIdAsSet, IsLevelAsSet, IsMessageAsSet, IsNameAsSet, IsOriginAsSet};
ghost use Rattle.snippet_shown.specs.AsSet.{IsTitleAsSet};

use crate::as_set::texts::{lent, option_as_set, option_lent, text_as_set};
use snippet_model::level::{Level, LevelName};
use snippet_model::snippet::{Id, Message, Origin, Title};
use std::alloc::{AllocError, Global};

/// The name of a level as it is set.
fn name_as_set<'a>(
    alloc: Global,
    feeds: bool,
    name: &'a LevelName<'a>,
) -> Result<LevelName<'a>, AllocError>
    ensures set { IfOk result (IsNameAsSet feeds name.now) }
{
    match name {
        LevelName::Own(own) => Ok(LevelName::Own(text_as_set(alloc, feeds, own)?)),
        LevelName::Standard => Ok(LevelName::Standard),
        LevelName::Hidden => Ok(LevelName::Hidden),
    }
}

/// A level as it is set.
fn level_as_set<'a>(
    alloc: Global,
    feeds: bool,
    level: &'a Level<'a>,
) -> Result<Level<'a>, AllocError>
    ensures set { IfOk result (IsLevelAsSet feeds level.now) }
{
    Ok(Level {
        name: name_as_set(alloc, feeds, &level.name)?,
        kind: level.kind,
    })
}

/// An identifier as it is set.
fn id_as_set<'a>(alloc: Global, feeds: bool, id: &'a Id<'a>) -> Result<Id<'a>, AllocError>
    ensures set { IfOk result (IsIdAsSet feeds id.now) }
{
    Ok(Id {
        id: option_as_set(alloc, feeds, &id.id)?,
        url: option_lent(&id.url),
    })
}

/// An identifier that may be missing, as it is set.
fn optional_id_as_set<'a>(
    alloc: Global,
    feeds: bool,
    id: &'a Option<Id<'a>>,
) -> Result<Option<Id<'a>>, AllocError>
    ensures set { IfOk result (SameOption (IsIdAsSet feeds) id.now) }
{
    match id {
        Some(id) => Ok(Some(id_as_set(alloc, feeds, id)?)),
        None => Ok(None),
    }
}

/// A title as it is set.
fn title_as_set<'a>(
    alloc: Global,
    feeds: bool,
    title: &'a Title<'a>,
) -> Result<Title<'a>, AllocError>
    ensures set { IfOk result (IsTitleAsSet feeds title.now) }
{
    Ok(Title {
        level: level_as_set(alloc, feeds, &title.level)?,
        id: optional_id_as_set(alloc, feeds, &title.id)?,
        text: lent(&title.text),
        allows_styling: title.allows_styling,
    })
}

/// A title that may be missing, as it is set.
pub fn optional_title_as_set<'a>(
    alloc: Global,
    feeds: bool,
    title: &'a Option<Title<'a>>,
) -> Result<Option<Title<'a>>, AllocError>
    ensures set { IfOk result (SameOption (IsTitleAsSet feeds) title.now) }
{
    match title {
        Some(title) => Ok(Some(title_as_set(alloc, feeds, title)?)),
        None => Ok(None),
    }
}

/// A message as it is set.
pub fn message_as_set<'a>(
    alloc: Global,
    feeds: bool,
    message: &'a Message<'a>,
) -> Result<Message<'a>, AllocError>
    ensures set { IfOk result (IsMessageAsSet feeds message.now) }
{
    Ok(Message {
        level: level_as_set(alloc, feeds, &message.level)?,
        text: lent(&message.text),
    })
}

/// An origin as it is set.
pub fn origin_as_set<'a>(
    alloc: Global,
    feeds: bool,
    origin: &'a Origin<'a>,
) -> Result<Origin<'a>, AllocError>
    ensures set { IfOk result (IsOriginAsSet feeds origin.now) }
{
    Ok(Origin {
        path: text_as_set(alloc, feeds, &origin.path)?,
        line: origin.line,
        char_column: origin.char_column,
    })
}
