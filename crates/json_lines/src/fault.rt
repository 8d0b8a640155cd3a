//! What is wrong with a value, and where.

use crate::place::JsonPath;
use serde_json::Value;
use std::alloc::{AllocError, AllocFailed, Global};
use std::fmt;

/// Why a value isn't read.
#[derive(Drop)]
pub enum Fault {
    /// What is wrong in it, in words: the path of the place, and what is wrong there.
    Wrong(String),
    /// A growth of memory was refused.
    Memory,
}

/// What is wrong at a place, where this is expected.
#[derive(Clone, Copy)]
pub enum Mismatch<'v, E> {
    /// This value stands there, and something else was expected.
    Unexpected(E, &'v Value),
    /// Nothing stands there.
    Missing(E),
    /// A field stands there, and its object may only have fields of these names.
    Unknown(&'v [&'v str]),
}

impl From<AllocError> for Fault {
    fn from(_refused: AllocError) -> Fault {
        Fault::Memory
    }
}

impl<T: Drop> From<AllocFailed<T>> for Fault {
    fn from(_refused: AllocFailed<T>) -> Fault {
        Fault::Memory
    }
}

impl Fault {
    /// This is wrong at `place`.
    pub fn at<E: fmt::Display + Copy>(
        alloc: Global,
        place: &JsonPath<'_>,
        wrong: Mismatch<'_, E>,
    ) -> Fault {
        match format!(in alloc; "{place}: {wrong}") {
            Ok(words) => Fault::Wrong(words),
            Err(AllocError) => Fault::Memory,
        }
    }
}

impl fmt::Display for Fault {
    fn fmt<W: fmt::Write>(&self, f: &mut fmt::Formatter<W>) -> fmt::Result {
        match self {
            Fault::Wrong(words) => f.write_str(words.as_str()),
            Fault::Memory => write!(f, "out of memory"),
        }
    }
}

impl<E: fmt::Display> fmt::Display for Mismatch<'_, E> {
    fn fmt<W: fmt::Write>(&self, f: &mut fmt::Formatter<W>) -> fmt::Result {
        match self {
            Mismatch::Unexpected(expected, value) => {
                write!(f, "expected {expected}, found ")?;
                write_found(value, f)
            }
            Mismatch::Missing(expected) => write!(f, "missing, expected {expected}"),
            Mismatch::Unknown(names) => write_only(names, f),
        }
    }
}

/// Writes that only these names are expected.
fn write_only<W: fmt::Write>(names: &[&str], f: &mut fmt::Formatter<W>) -> fmt::Result {
    if names.is_empty() {
        return f.write_str("unknown, expected no field");
    }
    f.write_str("unknown, expected only")?;
    for name in names {
        write!(f, " {name}")?;
    }
    Ok(())
}

/// The length of the longest text that is shown whole, in bytes.
const LONGEST: usize = 40;

/// Writes what a value is: a list, an object and a long text by how much they hold, all else as it is.
fn write_found<W: fmt::Write>(value: &Value, f: &mut fmt::Formatter<W>) -> fmt::Result {
    match value {
        Value::Array(items) => write!(f, "a list of length {}", items.len()),
        Value::Object(fields) => write!(f, "an object of size {}", fields.len()),
        Value::String(text) if text.len() > LONGEST => {
            write!(f, "a text of {} bytes", text.len())
        }
        _ => write!(f, "{value}"),
    }
}
