//! Values of JSON that other tools write, and all that is wrong with them.
ghost use Rattle.std.specs.Prelude.{◌≡◌, is_some, map, option_and_then, option_map};
ghost use Rattle.serde_json.specs.Find.{as_array, as_object};
ghost use Rattle.serde_json.specs.View.{view};
ghost use Rattle.json_lines.specs.Field.{given, lent_text, text_field};
ghost use Rattle.json_lines.specs.Lenient as spec;

use crate::expectation::Expectation;
use crate::place::JsonPath;
use serde_json::Value;
use std::alloc::{AllocError, Global};
use std::fmt;

/// What is wrong with a document.
#[derive(Drop)]
pub struct Problems {
    alloc: Global,
    /// Lines `WAY: expected WHAT`, in the order of reading.
    pub lines: Vec<String>,
    /// Whether memory was refused for a line, which isn't there then.
    pub is_refused: bool,
}

impl Problems {
    /// Nothing is wrong yet.
    pub fn new(alloc: Global) -> Problems {
        Problems {
            alloc,
            lines: Vec::new(alloc),
            is_refused: false,
        }
    }

    /// Adds that something was expected at this place.
    fn add<E: fmt::Display + Copy>(&mut self, place: JsonPath<'_>, expected: E) {
        let added = match format!(in self.alloc; "{place}: expected {expected}") {
            Ok(line) => self.lines.push(line).is_ok(),
            Err(AllocError) => false,
        };
        self.is_refused = self.is_refused || !added;
    }
}

/// A value of JSON, and where it stands. A field that has `null` counts as one that isn't there. Where something else
/// stands than what is asked for, that is reported, and there is no answer.
#[derive(Clone, Copy)]
pub struct LenientNode<'v, 'p> {
    pub value: &'v Value,
    pub place: JsonPath<'p>,
}

/// The items of a list, and where it stands.
#[derive(Clone, Copy)]
pub struct List<'v, 'p> {
    pub items: &'v [Value],
    pub place: JsonPath<'p>,
}

impl<'v> List<'v, '_> {
    /// The item with this number.
    pub fn node<'n>(&'n self, index: usize, value: &'v Value) -> LenientNode<'v, 'n>
        ensures value { result.value.now ≡ value.now }
    {
        LenientNode {
            value,
            place: JsonPath::Item(&self.place, index),
        }
    }
}

impl<'v> LenientNode<'v, '_> {
    /// Tells that this was expected here.
    pub fn tell<E: fmt::Display + Copy>(&self, problems: &mut Problems, expected: E) {
        problems.add(self.place, expected);
    }

    /// Tells that this was expected in the field of this name.
    pub fn tell_field<E: fmt::Display + Copy>(
        &self,
        name: &str,
        problems: &mut Problems,
        expected: E,
    ) {
        problems.add(JsonPath::Field(&self.place, name), expected);
    }

    /// What stands in the field of this name.
    fn field(&self, name: &str) -> Option<&'v Value>
        ensures value { option_map (λ v. view v.now) result ≡ given name.now (view self.now.value.now) }
    {
        match self.value.get(name) {
            Some(value) if !value.is_null() => Some(value),
            _ => None,
        }
    }

    /// Whether there is a field of this name.
    pub fn has(&self, name: &str) -> bool
        ensures value { result ≡ is_some (given name.now (view self.now.value.now)) }
    {
        self.field(name).is_some()
    }

    /// Whether the value is an object.
    pub fn is_object(&self, problems: &mut Problems) -> bool
        ensures value { result ≡ is_some (as_object (view self.now.value.now)) }
    {
        let is_object = self.value.is_object();
        if !is_object {
            self.tell(problems, Expectation::Object);
        }
        is_object
    }

    /// The object in the field of this name, which has to be there.
    pub fn needed<'n>(
        &'n self,
        name: &'n str,
        problems: &mut Problems,
    ) -> Option<LenientNode<'v, 'n>>
        ensures value { option_map (λ node. view node.value.now) result
            ≡ spec.object_at name.now (view self.now.value.now) }
    {
        if !self.has(name) {
            self.tell_field(name, problems, Expectation::Object);
        }
        self.object(name, problems)
    }

    /// The object in the field of this name.
    pub fn object<'n>(
        &'n self,
        name: &'n str,
        problems: &mut Problems,
    ) -> Option<LenientNode<'v, 'n>>
        ensures value { option_map (λ node. view node.value.now) result
            ≡ spec.object_at name.now (view self.now.value.now) }
    {
        match self.field(name) {
            Some(value) if value.is_object() => Some(LenientNode {
                value,
                place: JsonPath::Field(&self.place, name),
            }),
            Some(_) => {
                self.tell_field(name, problems, Expectation::Object);
                None
            }
            None => None,
        }
    }

    /// The list in the field of this name; an empty one where there is none.
    pub fn list<'n>(&'n self, name: &'n str, problems: &mut Problems) -> List<'v, 'n>
        ensures value { map view result.items.now ≡ spec.list_at name.now (view self.now.value.now) }
    {
        let value = self.field(name);
        if let Some(value) = value {
            if !value.is_array() {
                self.tell_field(name, problems, Expectation::List);
            }
        }
        List {
            items: items_of(value),
            place: JsonPath::Field(&self.place, name),
        }
    }

    /// The list in the field of this name, which has to be there.
    pub fn needed_list<'n>(&'n self, name: &'n str, problems: &mut Problems) -> List<'v, 'n>
        ensures value { map view result.items.now ≡ spec.list_at name.now (view self.now.value.now) }
    {
        if !self.has(name) {
            self.tell_field(name, problems, Expectation::List);
        }
        self.list(name, problems)
    }

    /// The text in the field of this name.
    pub fn text(&self, name: &str, problems: &mut Problems) -> Option<&'v str>
        ensures value { lent_text result ≡ spec.text_at name.now (view self.now.value.now) }
    {
        let value = self.field(name);
        let text = value.and_then(Value::as_str);
        if value.is_some() && text.is_none() {
            self.tell_field(name, problems, Expectation::AnyText);
        }
        text
    }

    /// The text in the field of this name, which has to be there.
    pub fn needed_text(&self, name: &str, problems: &mut Problems) -> Option<&'v str>
        ensures value { lent_text result ≡ spec.text_at name.now (view self.now.value.now) }
    {
        if !self.has(name) {
            self.tell_field(name, problems, Expectation::AnyText);
        }
        self.text(name, problems)
    }

    /// The whole number in the field of this name. The number -1 stands for none.
    pub fn number(&self, name: &str, problems: &mut Problems) -> Option<usize>
        ensures value { result ≡ spec.number_at name.now (view self.now.value.now) }
    {
        let value = self.field(name)?;
        match value.as_u64() {
            Some(number) => Some(number as usize),
            None => {
                if value.as_i64() != Some(-1) {
                    self.tell_field(name, problems, Expectation::FromZero);
                }
                None
            }
        }
    }

    /// The line or the column in the field of this name, counted from 1.
    pub fn from_one(&self, name: &str, problems: &mut Problems) -> Option<usize>
        ensures value { result ≡ spec.from_one name.now (view self.now.value.now) }
    {
        let number = self.field(name)?.as_u64().unwrap_or(0);
        if number == 0 {
            self.tell_field(name, problems, Expectation::FromOne);
            return None;
        }
        Some(number as usize)
    }
}

/// The items of a list, if there is one.
pub fn items_of<'v>(list: Option<&'v Value>) -> &'v [Value]
    ensures value { map view result.now
        ≡ spec.values (option_and_then as_array (option_map (λ v. view v.now) list.entry)) }
{
    match list {
        Some(list) => items_in(list),
        None => &[],
    }
}

/// The items of a value, if it is a list.
#[tactic(auto, using(crate::proofs::Values::values_of))]
fn items_in(value: &Value) -> &[Value]
    ensures value { map view result.now ≡ spec.values (as_array (view value.now)) }
{
    match value.as_array() {
        Some(items) => items.as_slice(),
        None => &[],
    }
}

/// The text in the field of this name, if one stands there; where there is none, nothing is reported.
pub fn text_field<'v>(object: &'v Value, name: &str) -> Option<&'v str>
    ensures value { lent_text result ≡ text_field name.now (view object.now) }
{
    object.get(name).and_then(Value::as_str)
}

/// What stands in the field of this name, if there is an object.
pub fn field_at<'v>(object: Option<&'v Value>, name: &str) -> Option<&'v Value>
    ensures value { option_map (λ v. view v.now) result
        ≡ spec.field_in name.now (option_map (λ v. view v.now) object.entry) }
{
    match object {
        Some(object) => object.get(name),
        None => None,
    }
}

/// The text in the field of this name, if there is an object and one stands there.
pub fn text_at<'v>(object: Option<&'v Value>, name: &str) -> Option<&'v str>
    ensures value { lent_text result ≡ spec.text_in name.now (option_map (λ v. view v.now) object.entry) }
{
    field_at(object, name).and_then(Value::as_str)
}

/// The item of a list with this number, if there is a list.
pub fn item_at<'v>(list: Option<&'v Value>, index: u64) -> Option<&'v Value>
    ensures value { option_map (λ v. view v.now) result
        ≡ spec.item_in index (option_map (λ v. view v.now) list.entry) }
{
    match list {
        Some(list) => list.get(index as usize),
        None => None,
    }
}
