//! Values of JSON, where they stand, and what is read of their fields.

ghost use Rattle.std.specs.Prelude.{◌≡◌, ℕ, List, Some, true, IfOk, IfSome, IsNone, IsTrue, OnOk, is_some, option_map};
ghost use Rattle.serde_json.specs.Data.{object, member, no_members};
ghost use Rattle.serde_json.specs.Find.{get, get_member};
ghost use Rattle.serde_json.specs.View.{members_view, view};
ghost use Rattle.json_lines.specs.Field.{HasOneField, HasOnly, IsOneOf, given, lent_texts};

use crate::expectation::Expectation;
use crate::fault::{Fault, Mismatch};
use crate::place::JsonPath;
use serde_json::{Map, Value};
use std::alloc::Global;
use std::fmt;

/// A value of JSON, and where it stands in its line.
#[derive(Clone, Copy)]
pub struct Node<'v, 'p> {
    pub alloc: Global,
    pub value: &'v Value,
    pub place: JsonPath<'p>,
}

impl<'v> Node<'v, '_> {
    /// The fault that something else was expected.
    pub fn unexpected<E: fmt::Display + Copy>(&self, expected: E) -> Fault {
        Fault::at(
            self.alloc,
            &self.place,
            Mismatch::Unexpected(expected, self.value),
        )
    }

    /// Nothing, if the value is an object and has only fields of these names.
    pub fn has_only(&self, names: &[&str]) -> Result<(), Fault>
        ensures only { OnOk result (HasOnly (lent_texts names.now) (view self.now.value.now)) }
    {
        let Some(fields) = self.value.as_object() else {
            return Err(self.unexpected(Expectation::Object));
        };
        match first_unknown(fields, names) {
            Some(name) => Err(self.unknown(name, names)),
            None => Ok(()),
        }
    }

    /// The fault that there is a field of this name, and only these are expected.
    fn unknown(&self, name: &str, names: &[&str]) -> Fault {
        let place = JsonPath::Field(&self.place, name);
        let wrong: Mismatch<'_, Expectation> = Mismatch::Unknown(names);
        Fault::at(self.alloc, &place, wrong)
    }

    /// The field of this name, whatever stands there; `None` where there is none.
    pub fn optional<'n>(&'n self, name: &'n str) -> Option<Node<'v, 'n>>
        ensures value { option_map (λ field. view field.value.now) result ≡ get name.now (view self.now.value.now) }
    {
        match self.value.get(name) {
            Some(value) => Some(Node {
                alloc: self.alloc,
                value,
                place: JsonPath::Field(&self.place, name),
            }),
            None => None,
        }
    }

    /// The field of this name; `None` where there is none, or `null` stands there.
    pub fn given<'n>(&'n self, name: &'n str) -> Option<Node<'v, 'n>>
        ensures value { option_map (λ field. view field.value.now) result ≡ given name.now (view self.now.value.now) }
    {
        match self.optional(name) {
            Some(field) if !field.value.is_null() => Some(field),
            _ => None,
        }
    }

    /// Whether the value is an object with one field.
    pub fn has_one_field(&self) -> bool
        ensures one { IsTrue result → HasOneField (view self.now.value.now) }
    {
        let Some(fields) = self.value.as_object() else {
            return false;
        };
        fields.len() == 1
    }

    /// The field of this name, if it is the object's only one.
    pub fn only_field<'n>(&'n self, name: &'n str) -> Option<Node<'v, 'n>>
        ensures value { IfSome result (λ field.
            view self.now.value.now ≡ object (member name.now (view field.value.now) no_members)) }
    {
        if self.has_one_field() {
            self.optional(name)
        } else {
            None
        }
    }

    /// The field of this name, which has to be there and hold this.
    pub fn needed<'n, E: fmt::Display + Copy>(
        &'n self,
        name: &'n str,
        expected: E,
    ) -> Result<Node<'v, 'n>, Fault>
        ensures value { IfOk result (λ field. get name.now (view self.now.value.now) ≡ Some (view field.value.now)) }
    {
        match self.optional(name) {
            Some(field) => Ok(field),
            None => {
                let place = JsonPath::Field(&self.place, name);
                Err(Fault::at(self.alloc, &place, Mismatch::Missing(expected)))
            }
        }
    }

    /// The item of a list with this number.
    pub fn item<'n>(&'n self, index: usize, value: &'v Value) -> Node<'v, 'n>
        ensures value { result.value.now ≡ value.now }
    {
        Node {
            alloc: self.alloc,
            value,
            place: JsonPath::Item(&self.place, index),
        }
    }
}

/// The first of the fields that has none of these names.
fn first_unknown<'f>(fields: &'f Map<String, Value>, names: &[&str]) -> Option<&'f str>
    ensures known { IsNone result → (name : List ℕ)
        → is_some (get_member name (members_view fields.now.entries)) ≡ true → IsOneOf (lent_texts names.now) name }
{
    for name in fields.keys() {
        if !is_among(name.as_str(), names) {
            return Some(name.as_str());
        }
    }
    None
}

/// Whether a name is one of these.
fn is_among(name: &str, names: &[&str]) -> bool
    ensures among { IsTrue result → IsOneOf (lent_texts names.now) name.now }
{
    for known in names {
        if *known == name {
            return true;
        }
    }
    false
}
