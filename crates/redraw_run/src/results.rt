//! The results of a log that is read without them: each is read by itself, and none is kept when the next is.
ghost use Rattle.std.specs.Prelude.{◌≡◌, ◌++◌, ℕ, IfOk, List};
ghost use Rattle.serde_json.specs.View.{view};
ghost use Rattle.redraw_run.specs.Fates.{StandsIn};

use crate::json_value::json_of;
use json::Scratch;
use json_lines::cut::Stretch;
use serde_json::Value;
use std::alloc::{AllocError, Global};
use std::str;

/// The text that results stand in, and what they are read in.
#[derive(Drop)]
pub struct Results<'t> {
    alloc: Global,
    text: &'t [u8],
    scratch: Scratch,
}

impl<'t> Results<'t> {
    /// Those that stand in this text.
    pub fn new(alloc: Global, text: &'t [u8]) -> Results<'t>
        ensures text { result.text ≡ text.entry }
    {
        Results {
            alloc,
            text,
            scratch: Scratch::new(alloc),
        }
    }

    /// The result that stands in this place; `null` where none does.
    pub fn read(&mut self, place: Stretch) -> Result<Value, AllocError>
        ensures stands { IfOk result (λ value. StandsIn self.old.text.now (view value)) }
        ensures kept { self.new.text ≡ self.old.text }
    {
        let read = json_of(self.alloc, text_in(self.text, place), &mut self.scratch)?;
        match read {
            Ok(value) => Ok(value),
            Err(_) => Ok(Value::Null),
        }
    }
}

/// The text of the value that stands in this place, without the comma after it.
fn text_in(text: &[u8], place: Stretch) -> &str
    ensures part { (before after : List ℕ) × (text.now ≡ before ++ result.now ++ after) }
{
    match str::from_utf8(bytes_in(text, place)) {
        Ok(value) => without_comma(value.trim_end()),
        Err(_) => "",
    }
}

/// The bytes of this place; none where it isn't in the text.
fn bytes_in(text: &[u8], place: Stretch) -> &[u8]
    ensures part { (before after : List ℕ) × (text.now ≡ before ++ result.now ++ after) }
{
    if place.start <= place.end && place.end <= text.len() {
        &text[place.start..place.end]
    } else {
        &[]
    }
}

/// A text without a comma at its end.
fn without_comma(text: &str) -> &str
    ensures part { (after : List ℕ) × (text.now ≡ result.now ++ after) }
{
    match text.strip_suffix(',') {
        Some(value) => value,
        None => text,
    }
}
