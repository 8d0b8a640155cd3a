//! Fields of JSON, which may be missing or null in what other tools write.

ghost use Rattle.std.specs.Prelude.{◌≡◌, Some, IfOk, option_map, string_bytes};
ghost use Rattle.json_lines.specs.Field.{given_or, lent_text, optional_at};
ghost use Rattle.serde_json.specs.Data.{no_items};
ghost use Rattle.json_lines.specs.Field as spec;
ghost use Rattle.serde_json.specs.Find.{as_array, as_str};
ghost use Rattle.serde_json.specs.View.{items_view, view};

use json_lines::expectation::Expectation;
use json_lines::fault::Fault;
use json_lines::node::Node;
use serde_json::Value;
use std::alloc::{AllocError, Global};

/// What is expected of a level.
pub const LEVEL: &str = "\"error\", \"warning\", \"info\", \"note\" or \"help\"";

/// The field of this name; `None` where there is none, or null.
pub fn given<'v, 'n>(node: &'n Node<'v, '_>, name: &'n str) -> Option<Node<'v, 'n>>
    ensures value { option_map (λ field. view field.value.now) result ≡ spec.given name.now (view node.now.value.now) }
{
    node.given(name)
}

/// The text in the field of this name, if there is one.
pub fn given_text<'v>(node: &Node<'v, '_>, name: &str) -> Result<Option<&'v str>, Fault>
    ensures value { IfOk result (λ found. optional_at as_str name.now (view node.now.value.now)
        ≡ Some (lent_text found)) }
{
    match given(node, name) {
        Some(field) => Ok(Some(field.as_text()?)),
        None => Ok(None),
    }
}

/// A copy of a text.
pub fn owned(alloc: Global, text: &str) -> Result<String, AllocError>
    ensures value { IfOk result (λ copy. string_bytes copy ≡ text.now) }
{
    String::from_str(alloc, text)
}

/// The values of a list.
pub fn values_of<'v>(node: &Node<'v, '_>) -> Result<&'v [Value], Fault>
    ensures value { IfOk result (λ values. as_array (view node.now.value.now) ≡ Some (items_view values.now)) }
{
    match node.value.as_array() {
        Some(values) => Ok(values.as_slice()),
        None => Err(node.unexpected(Expectation::List)),
    }
}

/// The values of the list in the field of this name; none where there is no such field, or null.
pub fn listed<'v>(node: &Node<'v, '_>, name: &str) -> Result<&'v [Value], Fault>
    ensures value { IfOk result (λ values. given_or as_array no_items name.now (view node.now.value.now)
        ≡ Some (items_view values.now)) }
{
    match given(node, name) {
        Some(list) => values_of(&list),
        None => Ok(&[]),
    }
}
