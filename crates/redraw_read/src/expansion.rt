//! Macros that the places of rustc's diagnostics come from. rustc writes with each place where the macro around it was
//! called, and with that place the same, up to one outside of all macros; what it says of them in its text is not in
//! its JSON.

ghost use Rattle.std.specs.Prelude.{◌≡◌, Some, IfSome, codes, false, option_map};
ghost use Rattle.std.specs.BTreeSet.{contains_text};
ghost use Rattle.std.specs.Option.{option_and_then, option_map_or};
ghost use Rattle.json_lines.specs.Field.{lent_text};
ghost use Rattle.redraw_read.specs.Places as spec;
ghost use Rattle.redraw_read.specs.Places.{call_around, expansion_of, shown_place};
ghost use Rattle.serde_json.specs.Data.{Data};
ghost use Rattle.serde_json.specs.Find.{as_str, get};
ghost use Rattle.serde_json.specs.View.{view};

use crate::named_files::NamedFiles;
use crate::words::{begins_with, finishes_with};
use serde_json::Value;
use std::alloc::{AllocError, Global};

/// How many macros a place is followed through: more than JSON may nest.
const EXPANSIONS: usize = 128;

/// The expansion that a place is in: where it was called, and the macro.
fn expansion_of(span: &Value) -> Option<&Value>
    ensures value { option_map (λ e. view e.now) result ≡ expansion_of (view span.now) }
{
    match span.get("expansion") {
        Some(expansion) if has_span(expansion) => Some(expansion),
        _ => None,
    }
}

/// Whether an expansion says where it was called.
fn has_span(expansion: &Value) -> bool
    ensures value { result ≡ spec.is_called (view expansion.now) }
{
    match expansion.get("span") {
        Some(span) => span.is_object(),
        None => false,
    }
}

/// The outermost expansion that a place is in, of at most this many.
#[tactic(auto, using(crate::proofs::Around::around))]
fn outermost(span: &Value, most: usize) -> Option<&Value>
    ensures value { option_map (λ e. view e.now) result ≡ spec.outermost most (view span.now) }
{
    if most == 0 {
        return None;
    }
    let expansion = expansion_of(span)?;
    let call = expansion.get("span")?;
    match outermost(call, most - 1) {
        Some(outer) => Some(outer),
        None => Some(expansion),
    }
}

/// Whether a place has lines of its source with it.
fn has_text(span: &Value) -> bool
    ensures value { result ≡ spec.is_at_hand (view span.now) }
{
    match span.get("text") {
        Some(lines) => lines.get(0).is_some(),
        None => false,
    }
}

/// The place that is shown for a place: where the macros around it were called, if that source is at hand and its own
/// isn't; or by the files that a text names, the first in one of these of it and the calls around it.
pub fn shown_place<'v>(span: &'v Value, named: &Option<NamedFiles>) -> &'v Value
    ensures value { view result.now ≡ shown_place named.now (view span.now) }
{
    match named {
        Some(files) => match named_from(span, files, EXPANSIONS) {
            Some(place) => place,
            None => span,
        },
        None => place_at_hand(span),
    }
}

/// The place where the macros around this one were called, if that source is at hand and its own isn't; else its own.
fn place_at_hand(span: &Value) -> &Value
    ensures value { view result.now ≡ spec.shown_in (view span.now) (spec.outermost 128 (view span.now)) }
{
    match outermost(span, EXPANSIONS) {
        Some(expansion) if is_call_shown(span, expansion) => match expansion.get("span") {
            Some(call) => call,
            None => span,
        },
        _ => span,
    }
}

/// The first of a place and the calls around it, of at most this many, that is in one of these files.
#[tactic(auto, using(crate::proofs::Around::around))]
fn named_from<'v>(span: &'v Value, files: &NamedFiles, most: usize) -> Option<&'v Value>
    ensures value { option_map (λ place. view place.now) result ≡ spec.named_from files.now most (view span.now) }
{
    if most == 0 {
        return None;
    }
    if is_named(span, files) {
        return Some(span);
    }
    let call = call_around(span)?;
    named_from(call, files, most - 1)
}

/// Whether a place is in one of these files.
fn is_named(place: &Value, files: &NamedFiles) -> bool
    ensures value { result ≡ spec.is_named files.now (view place.now) }
{
    match place.get("file_name") {
        Some(name) => is_name(name, files),
        None => false,
    }
}

/// Whether a value is the name of one of these files.
fn is_name(name: &Value, files: &NamedFiles) -> bool
    ensures value { result ≡ option_map_or (contains_text files.now.names) (as_str (view name.now)) false }
{
    match name.as_str() {
        Some(name) => files.has(name),
        None => false,
    }
}

/// Where the macro around a place was called.
fn call_around(place: &Value) -> Option<&Value>
    ensures value { option_map (λ call. view call.now) result ≡ call_around (view place.now) }
{
    expansion_of(place)?.get("span")
}

/// Whether the call of a macro is at hand, and a place in that macro isn't.
fn is_call_shown(span: &Value, expansion: &Value) -> bool
    ensures value { result ≡ spec.is_call_shown (view span.now) (view expansion.now) }
{
    match expansion.get("span") {
        Some(call) => !has_text(span) && has_text(call),
        None => false,
    }
}

/// The call around a place that is shown beside it, and how: none where a call is shown for the place.
pub fn told_call<'v>(
    span: &'v Value,
    named: &Option<NamedFiles>,
) -> Option<(&'v Value, &'static str)>
    ensures call { IfSome result (λ told. (e : Data) × (spec.outermost 128 (view span.now) ≡ Some e)
        × (get (codes "span") e ≡ Some (view told.0.now)) × (spec.label_in e ≡ Some told.1.now)) }
{
    let expansion = outermost(span, EXPANSIONS)?;
    if is_shown_elsewhere(span, expansion, named) {
        return None;
    }
    match labelled_call(expansion) {
        Some((call, label)) if !is_inside(span, call) => Some((call, label)),
        _ => None,
    }
}

/// Whether a call is shown for a place in this expansion.
fn is_shown_elsewhere(span: &Value, expansion: &Value, named: &Option<NamedFiles>) -> bool {
    match named {
        Some(files) => !is_named(span, files),
        None => is_call_shown(span, expansion),
    }
}

/// Where a macro was called, and what is said of that.
fn labelled_call(expansion: &Value) -> Option<(&Value, &'static str)>
    ensures call { IfSome result (λ told. get (codes "span") (view expansion.now) ≡ Some (view told.0.now)) }
    ensures label { IfSome result (λ told. spec.label_in (view expansion.now) ≡ Some told.1.now) }
{
    let call = expansion.get("span")?;
    match decl_name(expansion).and_then(call_label) {
        Some(label) => Some((call, label)),
        None => None,
    }
}

/// The name of the macro that an expansion is of, as it is declared.
fn decl_name(expansion: &Value) -> Option<&str>
    ensures value { lent_text result ≡ option_and_then as_str (get (codes "macro_decl_name") (view expansion.now)) }
{
    expansion.get("macro_decl_name").and_then(Value::as_str)
}

/// What is said of the call of a macro, of a derive macro, and of an attribute macro.
const CALL: &str = "in this macro invocation";

const DERIVE_CALL: &str = "in this derive macro expansion";

const ATTRIBUTE_CALL: &str = "in this attribute macro expansion";

/// What is said of the call of a macro of this name.
fn call_label(name: &str) -> Option<&'static str>
    ensures value { lent_text result ≡ spec.call_label name.now }
{
    if finishes_with(name, "!") {
        Some(CALL)
    } else if begins_with(name, "#[derive(") {
        Some(DERIVE_CALL)
    } else if begins_with(name, "#[") {
        Some(ATTRIBUTE_CALL)
    } else {
        None
    }
}

/// This text, if it is what is said of the call of a macro.
pub fn call_text(text: &str) -> Option<&'static str> {
    if text == CALL {
        Some(CALL)
    } else if text == DERIVE_CALL {
        Some(DERIVE_CALL)
    } else if text == ATTRIBUTE_CALL {
        Some(ATTRIBUTE_CALL)
    } else {
        None
    }
}

/// Whether a place lies in another.
fn is_inside(inner: &Value, outer: &Value) -> bool {
    inner.get("file_name") == outer.get("file_name")
        && number(outer, "byte_start") <= number(inner, "byte_start")
        && number(inner, "byte_end") <= number(outer, "byte_end")
}

/// The number in the field of this name.
fn number(object: &Value, name: &str) -> Option<u64> {
    object.get(name).and_then(Value::as_u64)
}

/// Whether a place is a primary one.
fn is_primary(span: &Value) -> bool {
    span.get("is_primary").and_then(Value::as_bool) == Some(true)
}

/// Whether a place is an edit: a text is to stand there.
pub fn is_edit(span: &Value) -> bool {
    match span.get("suggested_replacement") {
        Some(text) => text.is_string(),
        None => false,
    }
}

/// The macros that primary places come from: the first of them, and the last.
#[derive(Clone, Copy)]
pub struct Macros<'v> {
    first: Option<&'v Value>,
    last: Option<&'v Value>,
}

impl<'v> Macros<'v> {
    /// None so far.
    pub fn new() -> Macros<'v> {
        Macros {
            first: None,
            last: None,
        }
    }

    /// These, and the macros that a place comes from, if it is a primary one and no edit.
    pub fn with_place(mut self, span: &'v Value) -> Macros<'v> {
        if expansion_of(span).is_none() || !is_primary(span) || is_edit(span) {
            return self;
        }
        let mut place = Some(span);
        for _ in 0..EXPANSIONS {
            let Some(expansion) = place.and_then(expansion_of) else {
                return self;
            };
            if macro_name(expansion).is_some() {
                if self.first.is_none() {
                    self.first = Some(expansion);
                }
                self.last = Some(expansion);
            }
            place = expansion.get("span");
        }
        self
    }

    /// These, and the macros that the primary places of a diagnostic or a child come from.
    pub fn with_places(self, part: &'v Value) -> Macros<'v> {
        let mut macros = self;
        if let Some(spans) = part.get("spans").and_then(Value::as_array) {
            for span in spans {
                macros = macros.with_place(span);
            }
        }
        macros
    }

    /// What rustc's text says of the macros that a diagnostic of this level originates in. Of those of which the call
    /// alone is at hand it says nothing.
    pub fn note(&self, alloc: Global, level: &str) -> Result<Option<String>, AllocError> {
        match (
            self.first.and_then(macro_name),
            self.last.and_then(told_name),
        ) {
            (Some(first), Some(last)) => Ok(Some(note_of(alloc, level, first, last)?)),
            _ => Ok(None),
        }
    }
}

/// What kind of macro an expansion is of, and its name, if more of the macro is at hand than its call.
fn told_name(expansion: &Value) -> Option<(&'static str, &str)> {
    match expansion.get("def_site_span") {
        Some(site) if !is_call_shown(site, expansion) => macro_name(expansion),
        _ => None,
    }
}

/// What is said of the first and the last macro that a diagnostic of this level originates in, each by its kind and
/// name.
fn note_of(
    alloc: Global,
    level: &str,
    first: (&str, &str),
    last: (&str, &str),
) -> Result<String, AllocError> {
    let (kind, name) = first;
    let mut note = format!(in alloc; "this {level} originates in the {kind} `{name}`")?;
    add_rest(&mut note, name, last)?;
    Ok(note)
}

/// Adds what is said after the name of the first macro.
fn add_rest(note: &mut String, first: &str, last: (&str, &str)) -> Result<(), AllocError> {
    if last.1 != first {
        add_last(note, last)?;
    }
    note.push_str(" (in Nightly builds, run with -Z macro-backtrace for more info)")
}

/// Adds what is said of the last macro.
fn add_last(note: &mut String, last: (&str, &str)) -> Result<(), AllocError> {
    let (kind, name) = last;
    write!(
        note,
        " which comes from the expansion of the {kind} `{name}`"
    )
}

/// What kind of macro an expansion is of, and its name; none where it is of no macro.
fn macro_name(expansion: &Value) -> Option<(&'static str, &str)> {
    match decl_name(expansion) {
        Some(name) => kind_and_name(name),
        None => None,
    }
}

/// The kind and the name of a macro that is declared by this name; none where it is no macro's.
fn kind_and_name(name: &str) -> Option<(&'static str, &str)> {
    match (name.strip_suffix('!'), attribute_name(name)) {
        (Some(name), _) => Some(("macro", name)),
        (None, Some(name)) => Some(attribute_kind(name)),
        (None, None) => None,
    }
}

/// What stands in the brackets of an attribute.
fn attribute_name(name: &str) -> Option<&str> {
    name.strip_prefix("#[")?.strip_suffix(']')
}

/// The kind and the name of the macro that an attribute is.
fn attribute_kind(attribute: &str) -> (&'static str, &str) {
    match derived_name(attribute) {
        Some(name) => ("derive macro", name),
        None => ("attribute macro", attribute),
    }
}

/// The name of the trait that an attribute derives, if it derives one.
fn derived_name(attribute: &str) -> Option<&str> {
    attribute.strip_prefix("derive(")?.strip_suffix(')')
}
