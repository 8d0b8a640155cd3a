//! A value of JSON, read a token at a time.
ghost use Rattle.std.specs.Prelude.{◌≡◌, IfOk, IfSome, Some};
ghost use Rattle.serde_json.specs.Data.{Items, Members, Num, array, no_members, number, object};
ghost use Rattle.serde_json.specs.Read.{number_of, read};
ghost use Rattle.serde_json.specs.View.{view};
ghost use Rattle.json_lines.specs.Quick.{Takes, TakesItems, TakesMembers};

use crate::number::number_in;
use json::{Reader, Scratch, Token};
use serde_json::{Map, Value, put};
use std::alloc::{AllocError, Global};

/// How deep lists and objects may nest, as deep as in `Value::from_str`.
const DEPTH: u8 = 127;

/// The value that a text is, if it is found to be one. Nothing is said of another text, which may be a value or none.
/// The scratch grows to the length of the text.
pub fn quick_value(
    alloc: Global,
    text: &str,
    scratch: &mut Scratch,
) -> Result<Option<Value>, AllocError>
    ensures reads { IfOk result (λ found. IfSome found (λ value. read text.now ≡ Some (view value))) }
{
    let mut reader = Reader::new(text, scratch)?;
    let found = value_of(alloc, &mut reader, DEPTH)?;
    match reader.next() {
        None => Ok(found),
        Some(_) => Ok(None),
    }
}

/// The value that comes next, nested no deeper than this.
#[cycle(value)]
pub fn value_of(
    alloc: Global,
    reader: &mut Reader<'_>,
    depth: u8,
) -> Result<Option<Value>, AllocError>
    ensures takes { IfOk result (λ found. IfSome found (λ value. Takes depth reader.old reader.new (view value))) }
{
    match reader.next() {
        Some(Token::Null) => Ok(Some(Value::Null)),
        Some(Token::Bool(is)) => Ok(Some(Value::Bool(is))),
        Some(Token::Number(text)) => Ok(number_value(text)),
        Some(Token::String(text)) => Ok(Some(Value::String(String::from_str(alloc, text)?))),
        Some(Token::BeginArray) if depth > 0 => Ok(array(alloc, reader, depth - 1)?),
        Some(Token::BeginObject) if depth > 0 => Ok(object(alloc, reader, depth - 1)?),
        _ => Ok(None),
    }
}

/// The list whose items come next, each nested no deeper than this.
#[cycle(value)]
fn array(alloc: Global, reader: &mut Reader<'_>, depth: u8) -> Result<Option<Value>, AllocError>
    ensures takes { IfOk result (λ found. IfSome found (λ value.
        (items : Items) × (view value ≡ array items) × TakesItems depth reader.old reader.new items)) }
{
    let mut items = Vec::new(alloc);
    while !reader.take_end_array() {
        let Some(item) = value_of(alloc, reader, depth)? else {
            return Ok(None);
        };
        items.push(item)?;
    }
    Ok(Some(Value::Array(items)))
}

/// The object whose members come next, each nested no deeper than this. Of a key that comes twice the last value stays.
#[cycle(value)]
fn object(alloc: Global, reader: &mut Reader<'_>, depth: u8) -> Result<Option<Value>, AllocError>
    ensures takes { IfOk result (λ found. IfSome found (λ value.
        (members : Members) × (view value ≡ object members)
        × TakesMembers depth no_members reader.old reader.new members)) }
{
    let mut members = Map::new(alloc);
    while let Ok(key) = reader.next_key() {
        let Some(key) = key else {
            return Ok(Some(Value::Object(members)));
        };
        let Some(member) = value_of(alloc, reader, depth)? else {
            return Ok(None);
        };
        put(&mut members, alloc, key, member)?;
    }
    Ok(None)
}

/// The value that a token of JSON is that writes a number.
fn number_value(text: &str) -> Option<Value>
    ensures number { IfSome result (λ value. (n : Num)
        × (view value ≡ number n) × (number_of text.now ≡ Some n)) }
{
    match number_in(text) {
        Some(number) => Some(Value::Number(number)),
        None => None,
    }
}
