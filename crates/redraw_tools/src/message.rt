//! The texts of messages.
ghost use Rattle.std.specs.Prelude.{◌≡◌, IfOk, Some, false, map, option_map, string_bytes};
ghost use Rattle.serde_json.specs.View.{view};
ghost use Rattle.json_lines.specs.Field.{lent_text};
ghost use Rattle.json_lines.specs.Lenient.{object_at};
ghost use Rattle.redraw_tools.specs.Message as spec;
ghost use Rattle.redraw_tools.specs.Message.{MaySay, MayTell, said, said_by, seen_text};
ghost use Rattle.redraw_tools.specs.Rule.{part_data, rule_data};

use crate::expectation::SarifExpectation;
use crate::links::without_links;
use crate::location::Context;
use crate::placeholders::filled;
use crate::rule::SarifRule;
use json_lines::lenient::{LenientNode, Problems};
use serde_json::Value;
use std::alloc::{AllocError, Global};
use std::cell::Cell;

/// The most bytes that the messages of a result's parts have that aren't texts of their own, but for the last of them:
/// 1 MiB. Each place may name the same text of the rule.
pub const MOST_BYTES: usize = 1_048_576;

/// The text that a message has.
#[derive(Clone, Copy)]
pub struct MessageText<'v> {
    text: &'v str,
    arguments: &'v [Value],
    /// Whether it is the message's own, which has no arguments.
    is_alone: bool,
}

/// The text of the message in the field of this name, if there is one: its own, or one of the rule's by its id, with
/// its arguments in the place of placeholders; where these take more than 1 MiB, that is reported, and the text is cut.
/// In a text of its own without arguments braces stay as they are. A link to a location is its text.
pub fn text_in(
    object: &LenientNode<'_, '_>,
    name: &str,
    context: &Context<'_, '_>,
    problems: &mut Problems,
) -> Result<Option<String>, AllocError>
    ensures says { IfOk result (λ found. option_map string_bytes found
        ≡ said (part_data context.now.rule) (rule_data context.now.rule)
        (object_at name.now (view object.now.value.now))) }
{
    match object.object(name, problems) {
        Some(message) => text_of(&message, context, problems),
        None => Ok(None),
    }
}

/// The text of a message.
fn text_of(
    message: &LenientNode<'_, '_>,
    context: &Context<'_, '_>,
    problems: &mut Problems,
) -> Result<Option<String>, AllocError>
    ensures says { IfOk result (λ found. option_map string_bytes found ≡ option_map said_by
        (spec.text_of (part_data context.now.rule) (rule_data context.now.rule) (view message.now.value.now))) }
{
    match found_in(message, &context.rule, problems) {
        Some(text) => Ok(Some(shown(context.alloc, message, text, problems)?)),
        None => Ok(None),
    }
}

/// The text of the message of a part of a result, as a place: where there is no more room for it, it is left out, which
/// is reported. One that is a text of its own alone needs no room.
pub fn part_text_in(
    object: &LenientNode<'_, '_>,
    name: &str,
    context: &Context<'_, '_>,
    problems: &mut Problems,
) -> Result<Option<String>, AllocError>
    ensures says { IfOk result (λ found. MaySay (part_data context.now.rule) (rule_data context.now.rule)
        (object_at name.now (view object.now.value.now)) (option_map string_bytes found)) }
{
    match object.object(name, problems) {
        Some(message) => part_text_of(&message, context, problems),
        None => Ok(None),
    }
}

/// The text of a message of a part of a result.
fn part_text_of(
    message: &LenientNode<'_, '_>,
    context: &Context<'_, '_>,
    problems: &mut Problems,
) -> Result<Option<String>, AllocError>
    ensures says { IfOk result (λ found. MaySay (part_data context.now.rule) (rule_data context.now.rule)
        (Some (view message.now.value.now)) (option_map string_bytes found)) }
{
    match found_in(message, &context.rule, problems) {
        Some(text) if text.is_alone => Ok(Some(shown(context.alloc, message, text, problems)?)),
        Some(text) => in_room(message, text, context, problems),
        None => Ok(None),
    }
}

/// A text, which takes of the room that there is; where nothing is left of that, none.
fn in_room(
    message: &LenientNode<'_, '_>,
    text: MessageText<'_>,
    context: &Context<'_, '_>,
    problems: &mut Problems,
) -> Result<Option<String>, AllocError>
    requires other { text.is_alone ≡ false }
    ensures says { IfOk result (λ found. MayTell (seen_text text.entry) (option_map string_bytes found)) }
{
    if context.room.get() == 0 {
        message.tell(problems, SarifExpectation::TextLength);
        return Ok(None);
    }
    let whole = shown(context.alloc, message, text, problems)?;
    context
        .room
        .set(context.room.get().saturating_sub(whole.len()));
    Ok(Some(whole))
}

/// The text that a message has: its own, or one of the rule's by its id. Where it has neither, that is reported.
fn found_in<'v>(
    message: &LenientNode<'v, '_>,
    rule: &SarifRule<'v>,
    problems: &mut Problems,
) -> Option<MessageText<'v>>
    ensures value { option_map seen_text result
        ≡ spec.text_of (part_data rule.now) (rule_data rule.now) (view message.now.value.now) }
{
    let arguments = message.list("arguments", problems).items;
    let told = problems.lines.len();
    let own = message.text("text", problems);
    let named = text_by_id(message, rule, problems);
    let found = text_by(arguments, own, named);
    if found.is_none() && problems.lines.len() == told {
        message.tell(problems, SarifExpectation::Message);
    }
    found
}

/// A text of a message with these arguments: its own, else the one that it names.
fn text_by<'v>(
    arguments: &'v [Value],
    own: Option<&'v str>,
    named: Option<&'v str>,
) -> Option<MessageText<'v>>
    ensures value { option_map seen_text result
        ≡ spec.text_by (map view arguments.now) (lent_text own.entry) (lent_text named.entry) }
{
    match (own, named) {
        (Some(text), _) => Some(MessageText {
            text,
            arguments,
            is_alone: arguments.is_empty(),
        }),
        (None, Some(text)) => Some(MessageText {
            text,
            arguments,
            is_alone: false,
        }),
        (None, None) => None,
    }
}

/// A text as it is shown. One that is cut, since its arguments are too long, is reported.
fn shown(
    alloc: Global,
    message: &LenientNode<'_, '_>,
    text: MessageText<'_>,
    problems: &mut Problems,
) -> Result<String, AllocError>
    ensures value { IfOk result (λ whole. string_bytes whole ≡ said_by (seen_text text.entry)) }
{
    let shown = without_links(alloc, text.text)?;
    if text.is_alone {
        return Ok(shown);
    }
    let filled = filled(alloc, shown.as_str(), text.arguments)?;
    if filled.is_cut {
        message.tell(problems, SarifExpectation::ArgumentLength);
    }
    Ok(filled.text)
}

/// The text of the rule that a message names by its id.
fn text_by_id<'v>(
    message: &LenientNode<'_, '_>,
    rule: &SarifRule<'v>,
    problems: &mut Problems,
) -> Option<&'v str>
    ensures value { lent_text result
        ≡ spec.named_text (part_data rule.now) (rule_data rule.now) (view message.now.value.now) }
{
    match message.text("id", problems) {
        Some(id) => rule.message_string(id),
        None => None,
    }
}
