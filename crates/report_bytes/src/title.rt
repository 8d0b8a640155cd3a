//! How titles and messages are read.

ghost use Rattle.std.specs.Prelude.{◌≡◌, IfOk};
ghost use Rattle.snippet_model.specs.Fits.{IdFits, LevelFits, MessageFits, TextFits, TitleFits};
ghost use Rattle.snippet_style.specs.declared.role.LevelInner.{LevelInner};
ghost use Rattle.report_bytes.specs.Bytes.{id_then, level_then, message_then, name_then, title_then};
ghost use Rattle.report_bytes.specs.Reading.{Gives, after_id, after_level, after_message, after_name, after_title};

use crate::fault::ReadError;
use crate::field::{flag, kind, text};
use crate::kind::severity;
use crate::part::{FromBytes, option};
use snippet_model::level::LevelName;
use snippet_model::{Id, Level, Message, Title};
use std::alloc::Global;

impl<'v> FromBytes<'v> for Title<'v> {
    ghost part_then = { title_then };

    ghost after = { after_title };

    ghost fits = { TitleFits };

    #[tactic(auto, unfolding(crate::specs::Reading::after_title))]
    fn read(alloc: Global, bytes: &'v [u8]) -> Result<(Self, &'v [u8]), ReadError> {
        let (level, rest) = level(bytes)?;
        let (id, rest) = option(alloc, rest)?;
        let (text, rest) = text(rest)?;
        let (allows_styling, rest) = flag(rest)?;
        let title = Title {
            level,
            id,
            text,
            allows_styling,
        };
        Ok((title, rest))
    }
}

impl<'v> FromBytes<'v> for Id<'v> {
    ghost part_then = { id_then };

    ghost after = { after_id };

    ghost fits = { IdFits };

    #[tactic(auto, unfolding(crate::specs::Reading::after_id))]
    fn read(alloc: Global, bytes: &'v [u8]) -> Result<(Self, &'v [u8]), ReadError> {
        let (id, rest) = option(alloc, bytes)?;
        let (url, rest) = option(alloc, rest)?;
        Ok((Id { id, url }, rest))
    }
}

/// The message at the front.
#[tactic(auto, unfolding(crate::specs::Reading::after_message))]
pub fn message(bytes: &[u8]) -> Result<(Message<'_>, &[u8]), ReadError>
    ensures left { Gives (λ x. x.1.now) result (after_message bytes.now) }
    ensures spelled { IfOk result (λ x. bytes.now ≡ message_then x.0 x.1.now) }
    ensures fits { IfOk result (λ x. MessageFits x.0) }
{
    let (level, rest) = level(bytes)?;
    let (text, rest) = text(rest)?;
    Ok((Message { level, text }, rest))
}

/// The level at the front.
#[tactic(auto, unfolding(crate::specs::Reading::after_level))]
fn level(bytes: &[u8]) -> Result<(Level<'_>, &[u8]), ReadError>
    ensures left { Gives (λ x. x.1.now) result (after_level bytes.now) }
    ensures spelled { IfOk result (λ x. bytes.now ≡ level_then x.0 x.1.now) }
    ensures fits { IfOk result (λ x. LevelFits x.0) }
{
    let (name, rest) = name(bytes)?;
    let (number, rest) = kind(5, rest)?;
    let kind = severity(number);
    Ok((Level { name, kind }, rest))
}

/// The name of a level at the front.
#[tactic(auto, unfolding(crate::specs::Reading::after_name))]
fn name(bytes: &[u8]) -> Result<(LevelName<'_>, &[u8]), ReadError>
    ensures left { Gives (λ x. x.1.now) result (after_name bytes.now) }
    ensures spelled { IfOk result (λ x. bytes.now ≡ name_then x.0 x.1.now) }
    ensures fits { IfOk result (λ x. (kind : LevelInner) → LevelFits (record { name = x.0; kind = kind })) }
{
    let (number, rest) = kind(3, bytes)?;
    match number {
        0 => Ok((LevelName::Standard, rest)),
        1 => Ok((LevelName::Hidden, rest)),
        _ => {
            let (name, rest) = text(rest)?;
            Ok((LevelName::Own(name), rest))
        }
    }
}
