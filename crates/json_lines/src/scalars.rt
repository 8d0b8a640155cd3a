//! How texts, numbers and truth values are read.

ghost use Rattle.std.specs.Prelude.{◌≡◌, Some, IfOk, IfSome, option_map};
ghost use Rattle.std.specs.Cow.{cow_str_bytes};
ghost use Rattle.snippet_model.specs.Fits.{TextFits};
ghost use Rattle.serde_json.specs.Find.{as_bool, as_str};
ghost use Rattle.serde_json.specs.View.{view};
ghost use Rattle.json_lines.specs.Field.{as_whole, flag_field, given_or, lent_text, number_field, optional_at};
ghost use Rattle.json_lines.specs.Field.{text_field};

use crate::expectation::Expectation;
use crate::fault::Fault;
use crate::node::Node;
use snippet_text::{CowStr, text_fits};

impl<'v> Node<'v, '_> {
    /// The text, which is within the library's limit.
    pub fn as_text(&self) -> Result<&'v str, Fault>
        ensures value { IfOk result (λ text. as_str (view self.now.value.now) ≡ Some text.now) }
        ensures fits { IfOk result (λ text. TextFits text.now) }
    {
        match self.value.as_str() {
            Some(text) if text_fits(text) => Ok(text),
            _ => Err(self.unexpected(Expectation::Text)),
        }
    }

    /// The text in the field of this name.
    pub fn text(&self, name: &str) -> Result<&'v str, Fault>
        ensures value { IfOk result (λ text. text_field name.now (view self.now.value.now) ≡ Some text.now) }
        ensures fits { IfOk result (λ text. TextFits text.now) }
    {
        self.needed(name, Expectation::Text)?.as_text()
    }

    /// The text in the field of this name, if one is given.
    pub fn optional_text(&self, name: &str) -> Result<Option<&'v str>, Fault>
        ensures value { IfOk result (λ found. optional_at as_str name.now (view self.now.value.now)
            ≡ Some (lent_text found)) }
        ensures fits { IfOk result (λ found. IfSome found (λ text. TextFits text.now)) }
    {
        match self.given(name) {
            Some(field) => Ok(Some(field.as_text()?)),
            None => Ok(None),
        }
    }

    /// The whole number.
    pub fn as_number(&self) -> Result<usize, Fault>
        ensures value { IfOk result (λ number. as_whole (view self.now.value.now) ≡ Some number) }
    {
        match self.value.as_u64() {
            Some(number) => Ok(number as usize),
            None => Err(self.unexpected(Expectation::Number)),
        }
    }

    /// The number in the field of this name.
    pub fn number(&self, name: &str) -> Result<usize, Fault>
        ensures value { IfOk result (λ number. number_field name.now (view self.now.value.now) ≡ Some number) }
    {
        self.needed(name, Expectation::Number)?.as_number()
    }

    /// The number in the field of this name, if one is given.
    pub fn optional_number(&self, name: &str) -> Result<Option<usize>, Fault>
        ensures value { IfOk result (λ found. optional_at as_whole name.now (view self.now.value.now) ≡ Some found) }
    {
        match self.given(name) {
            Some(field) => Ok(Some(field.as_number()?)),
            None => Ok(None),
        }
    }

    /// The number in the field of this name, and this one where none is given.
    pub fn number_or(&self, name: &str, missing: usize) -> Result<usize, Fault>
        ensures value { IfOk result (λ number. given_or as_whole missing name.now (view self.now.value.now)
            ≡ Some number) }
    {
        match self.given(name) {
            Some(field) => field.as_number(),
            None => Ok(missing),
        }
    }

    /// The number of a byte.
    pub fn as_byte(&self) -> Result<u8, Fault>
        ensures value { IfOk result (λ byte. as_whole (view self.now.value.now) ≡ Some byte) }
    {
        match self.value.as_u64() {
            Some(number) if number < 256 => Ok(number as u8),
            _ => Err(self.unexpected(Expectation::Byte)),
        }
    }

    /// The truth value.
    pub fn as_flag(&self) -> Result<bool, Fault>
        ensures value { IfOk result (λ flag. as_bool (view self.now.value.now) ≡ Some flag) }
    {
        match self.value.as_bool() {
            Some(flag) => Ok(flag),
            None => Err(self.unexpected(Expectation::Flag)),
        }
    }

    /// The truth value in the field of this name.
    pub fn flag(&self, name: &str) -> Result<bool, Fault>
        ensures value { IfOk result (λ flag. flag_field name.now (view self.now.value.now) ≡ Some flag) }
    {
        self.needed(name, Expectation::Flag)?.as_flag()
    }

    /// The truth value in the field of this name, and this one where none is given.
    pub fn flag_or(&self, name: &str, missing: bool) -> Result<bool, Fault>
        ensures value { IfOk result (λ flag. given_or as_bool missing name.now (view self.now.value.now) ≡ Some flag) }
    {
        match self.given(name) {
            Some(field) => field.as_flag(),
            None => Ok(missing),
        }
    }
}

/// The text as the library takes it, if there is one.
pub fn lent<'v>(text: Option<&'v str>) -> Option<CowStr<'v>>
    requires fits { IfSome text (λ text. TextFits text.now) }
    ensures value { option_map cow_str_bytes result ≡ lent_text text.entry }
    ensures fits { IfSome result (λ text. TextFits (cow_str_bytes text)) }
{
    match text {
        Some(text) => Some(CowStr::Borrowed(text)),
        None => None,
    }
}
