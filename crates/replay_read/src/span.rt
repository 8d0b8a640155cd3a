//! Where in a source the span of a marker lies: by numbers that count bytes or other units, or by lines and columns.

ghost use Rattle.std.specs.Prelude.{◌≡◌, ◌≤◌, IfOk, IfSome, IsTrue, OnOk, None, codes, length};
ghost use Rattle.std.specs.Str.{IsCharBoundary};
ghost use Rattle.serde_json.specs.View.{view};
ghost use Rattle.json_lines.specs.Field.{MaySayAt, SaysAt, given};
ghost use Rattle.replay_read.specs.MarkerSpan.{IsCountedSpan, IsPlaceOf, IsPlacedSpan, IsSpanOf, IsUnit};
ghost use Rattle.replay_read.specs.MarkerSpan as spec;

use crate::ruler::Ruler;
use crate::shape::{FormatValue, Shape, has_shape};
use json_lines::expectation::Expectation;
use json_lines::fault::Fault;
use json_lines::node::Node;
use serde_json::Value;
use snippet_lines::Position;
use std::ops::Range;

/// What is counted in a source.
#[derive(Clone, Copy)]
pub enum SpanUnit {
    /// Bytes of UTF-8.
    Byte,
    /// Characters: code points.
    Char,
    /// Units of UTF-16, of which a character has one or two.
    Utf16,
}

/// The unit of a snippet's spans, where one is given.
pub fn unit_in(snippet: &Node<'_, '_>) -> Result<Option<SpanUnit>, Fault>
    ensures value { IfOk result (MaySayAt IsUnit (codes "unit") (view snippet.now.value.now)) }
{
    match snippet.given("unit") {
        Some(unit) => Ok(Some(unit_of(&unit)?)),
        None => Ok(None),
    }
}

/// The unit of this name.
fn unit_of(node: &Node<'_, '_>) -> Result<SpanUnit, Fault>
    ensures value { IfOk result (IsUnit (view node.now.value.now)) }
{
    match node.value.as_str() {
        Some("byte") => Ok(SpanUnit::Byte),
        Some("char") => Ok(SpanUnit::Char),
        Some("utf16") => Ok(SpanUnit::Utf16),
        _ => Err(node.unexpected(FormatValue::SpanUnit)),
    }
}

/// How many places are looked for by these markers, beyond those that are bytes as they are told.
pub fn places_in(markers: &[Value], unit: Option<SpanUnit>) -> usize {
    if matches!(unit, Some(SpanUnit::Char | SpanUnit::Utf16))
        || markers.iter().any(|marker| marker.get("from").is_some())
    {
        markers.len()
    } else {
        0
    }
}

/// The span of a marker in the source.
pub fn span_of(node: &Node<'_, '_>, ruler: &Ruler<'_>) -> Result<Range<usize>, Fault>
    ensures value { IfOk result (IsSpanOf ruler.now.source.now ruler.now.unit (view node.now.value.now)) }
{
    if is_left_out(node, "from") && is_left_out(node, "to") {
        counted_span(node, ruler)
    } else {
        placed_span(node, ruler)
    }
}

/// Whether the field of this name isn't given.
fn is_left_out(node: &Node<'_, '_>, name: &str) -> bool
    ensures left_out { IsTrue result → given name.now (view node.now.value.now) ≡ None }
{
    match node.given(name) {
        Some(_) => false,
        None => true,
    }
}

/// The span from `start` to before `end`, beside which neither `from` nor `to` is given.
fn counted_span(node: &Node<'_, '_>, ruler: &Ruler<'_>) -> Result<Range<usize>, Fault>
    requires no_from { given (codes "from") (view node.now.value.now) ≡ None }
    requires no_to { given (codes "to") (view node.now.value.now) ≡ None }
    ensures value { IfOk result (IsCountedSpan ruler.now.source.now ruler.now.unit (view node.now.value.now)) }
{
    let start = node.number("start")?;
    let end = node.number("end")?;
    Ok(between(ruler.source, ruler.counted(start), ruler.counted(end)))
}

/// The span from the place `from` to before the place `to`, beside which neither `start` nor `end` may be given.
fn placed_span(node: &Node<'_, '_>, ruler: &Ruler<'_>) -> Result<Range<usize>, Fault>
    ensures value { IfOk result (IsPlacedSpan ruler.now.source.now ruler.now.unit (view node.now.value.now)) }
{
    has_no(node, "start")?;
    has_no(node, "end")?;
    let from = place_in(node, "from")?;
    let to = place_in(node, "to")?;
    Ok(between(ruler.source, ruler.placed(from), ruler.placed(to)))
}

/// Nothing, if the field of this name isn't given.
fn has_no(node: &Node<'_, '_>, name: &str) -> Result<(), Fault>
    ensures left_out { OnOk result (given name.now (view node.now.value.now) ≡ None) }
{
    match node.given(name) {
        Some(field) => Err(field.unexpected(FormatValue::NoNumber)),
        None => Ok(()),
    }
}

/// The place in the field of this name.
fn place_in(node: &Node<'_, '_>, name: &str) -> Result<Position, Fault>
    ensures value { IfOk result (SaysAt IsPlaceOf name.now (view node.now.value.now)) }
{
    place_of(&node.needed(name, Expectation::Object)?)
}

/// The place that is described.
fn place_of(node: &Node<'_, '_>) -> Result<Position, Fault>
    ensures value { IfOk result (IsPlaceOf (view node.now.value.now)) }
{
    has_shape(node, Shape::Place)?;
    let line = node.number("line")?;
    let column = node.number("column")?;
    Ok(Position { line, column })
}

/// The span between two bytes. Where the source has one of them not, it is one past the end, and past the one byte
/// after it that may be marked.
fn between(source: &str, start: Option<usize>, end: Option<usize>) -> Range<usize>
    ensures value { result ≡ spec.span_between source.now start end }
{
    match (start, end) {
        (Some(start), Some(end)) => start..end,
        _ => {
            let past = source.len() + 2;
            past..past
        }
    }
}
