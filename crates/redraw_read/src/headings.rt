//! What a diagnostic of rustc is headed by: its level, its message, and its code.

ghost use Rattle.std.specs.Prelude.{◌≡◌, IfOk, Some, option_map, string_bytes};
ghost use Rattle.std.specs.List.{list_all};
ghost use Rattle.std.specs.Option.{option_and_then};
ghost use Rattle.redraw_read.specs.Told as spec;
ghost use Rattle.redraw_read.specs.Told.{IsHeading, code_seen, code_told};
ghost use Rattle.serde_json.specs.Find.{as_str};
ghost use Rattle.serde_json.specs.View.{view};

use crate::json::{LEVEL, given, owned};
use crate::words::after;
use json_lines::fault::Fault;
use json_lines::node::Node;
use redraw_report::diagnostic::{Code, Severity};
use serde_json::Value;
use std::alloc::{AllocError, Global};

/// The level and the message of a diagnostic or a child.
pub fn heading_of(node: &Node<'_, '_>) -> Result<(Severity, String), Fault>
    ensures is { IfOk result (λ heading.
        IsHeading (view node.now.value.now) heading.0 (string_bytes heading.1)) }
{
    let message = node.text("message")?;
    let level = node.needed("level", LEVEL)?;
    let severity = severity_in(&level)?;
    Ok((severity, message_of(level.alloc, level.value, message)?))
}

/// How severe a diagnostic of the level is that stands here.
fn severity_in(level: &Node<'_, '_>) -> Result<Severity, Fault>
    ensures value { IfOk result (λ severity.
        option_and_then spec.severity_named (as_str (view level.now.value.now)) ≡ Some severity) }
{
    match severity_of(level.value) {
        Some(severity) => Ok(severity),
        None => Err(level.unexpected(LEVEL)),
    }
}

/// How severe a diagnostic of this level is.
fn severity_of(level: &Value) -> Option<Severity>
    ensures value { result ≡ option_and_then spec.severity_named (as_str (view level.now)) }
{
    match level.as_str() {
        Some(name) => severity_named(name),
        None => None,
    }
}

/// How severe a diagnostic is whose level has this name.
fn severity_named(name: &str) -> Option<Severity>
    ensures value { result ≡ spec.severity_named name.now }
{
    if name == "error" || name == INTERNAL {
        Some(Severity::Error)
    } else if name == "warning" {
        Some(Severity::Warning)
    } else if name == "note" {
        Some(Severity::Note)
    } else if name == "help" {
        Some(Severity::Help)
    } else if name == "failure-note" {
        Some(Severity::Plain)
    } else {
        None
    }
}

/// The level of an internal compiler error, which its message is to say.
const INTERNAL: &str = "error: internal compiler error";

/// The message of a diagnostic of this level.
fn message_of(alloc: Global, level: &Value, message: &str) -> Result<String, AllocError>
    ensures value { IfOk result (λ text.
        string_bytes text ≡ spec.message_for (as_str (view level.now)) message.now) }
{
    match level.as_str() {
        Some(name) if name == INTERNAL => format!(in alloc; "internal compiler error: {message}"),
        _ => owned(alloc, message),
    }
}

/// Whether a code is that of an error, `E` and digits; others are the names of lints.
fn is_error_code(code: &str) -> bool
    ensures value { result ≡ spec.is_error_code code.now }
{
    match after(code, "E") {
        Some(digits) => !digits.is_empty() && are_digits(digits.as_bytes()),
        None => false,
    }
}

/// Whether some bytes are digits.
fn are_digits(bytes: &[u8]) -> bool
    ensures value { result ≡ list_all spec.is_digit bytes.now }
{
    bytes.iter().all(|b| is_digit(*b))
}

/// Whether a byte is a digit.
fn is_digit(byte: u8) -> bool
    ensures value { result ≡ spec.is_digit byte }
{
    byte >= b'0' && byte <= b'9'
}

/// The code of a diagnostic, where it is that of an error.
pub fn code_of(node: &Node<'_, '_>) -> Result<Option<Code>, Fault>
    ensures value { IfOk result (λ code. option_map code_seen code ≡ code_told (view node.now.value.now)) }
{
    match given(node, "code") {
        Some(field) => Ok(error_code(node.alloc, field.text("code")?)?),
        None => Ok(None),
    }
}

/// This code with the address of what is written of it, where it is that of an error.
fn error_code(alloc: Global, code: &str) -> Result<Option<Code>, AllocError>
    ensures value { IfOk result (λ found. option_map code_seen found ≡ spec.error_code code.now) }
{
    if !is_error_code(code) {
        return Ok(None);
    }
    let id = owned(alloc, code)?;
    Ok(Some(Code {
        id,
        url: Some(code_address(alloc, code)?),
    }))
}

/// Where the code of an error is explained.
fn code_address(alloc: Global, code: &str) -> Result<String, AllocError>
    ensures value { IfOk result (λ address. string_bytes address ≡ spec.code_address code.now) }
{
    format!(in alloc; "https://doc.rust-lang.org/error_codes/{code}.html")
}
