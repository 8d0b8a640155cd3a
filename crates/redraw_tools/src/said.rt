//! What a compiler says of a place: the level, the name of the rule, and the message, as the tools write them.
//!
//! | The tool | What it writes |
//! |---|---|
//! | GCC, clang, clang-tidy, cppcheck, shellcheck, mypy | `warning: MESSAGE [ID]` |
//! | tsc | `error TS2304: MESSAGE` |
//! | pylint | `C0114: MESSAGE`, and the column before it is counted from 0 |
//! | yamllint | `[warning] MESSAGE (ID)` |
//! | flake8 | `E501 MESSAGE` |
//! | go vet | `MESSAGE` |
ghost use Rattle.std.specs.Prelude.{◌≡◌, ◌≤◌, length, option_map};
ghost use Rattle.std.specs.List.{list_any};
ghost use Rattle.json_lines.specs.Field.{lent_text};
ghost use Rattle.redraw_tools.specs.Cut.{lent_parts};
ghost use Rattle.redraw_tools.specs.Said as spec;
ghost use Rattle.redraw_tools.specs.Said.{said_view};

use crate::cut::{after, are_digits, before, parted, parted_last};
use redraw_report::diagnostic::Severity;

/// What is said of a place.
#[derive(Clone, Copy)]
pub struct Said<'t> {
    pub severity: Severity,
    /// The name of the rule, where there is one.
    pub id: Option<&'t str>,
    pub message: &'t str,
    /// Whether the tool counts columns from 0.
    pub is_from_zero: bool,
}

/// What this text says.
pub fn said_of(text: &str) -> Said<'_>
    ensures value { said_view result ≡ spec.said_of text.now }
{
    match leveled(text) {
        Some(said) => said,
        None => match bracketed(text) {
            Some(said) => said,
            None => unleveled(text),
        },
    }
}

/// What a text says that begins with a level or a code, and a colon.
fn leveled(text: &str) -> Option<Said<'_>>
    ensures value { option_map said_view result ≡ spec.leveled text.now }
{
    let (word, message) = parted(text, ": ")?;
    match level_of(word) {
        Some(severity) => Some(with_id_after(severity, message.trim_start())),
        None => coded_level(word, message),
    }
}

/// What a message says after a word that is a code, or a level and a code.
fn coded_level<'t>(word: &'t str, message: &'t str) -> Option<Said<'t>>
    ensures value { option_map said_view result ≡ spec.coded_level word.now message.now }
{
    match parted_last(word, " ") {
        Some((level, id)) => {
            let severity = level_of(level)?;
            Some(said_by(severity, code_in(id)?, message, false))
        }
        None => Some(said_by(level_by(word), code_in(word)?, message, true)),
    }
}

/// What a text says that begins with a level in brackets, and ends with the name of the rule in such.
fn bracketed(text: &str) -> Option<Said<'_>>
    ensures value { option_map said_view result ≡ spec.bracketed text.now }
{
    let (level, message) = parted(after(text, "[")?, "] ")?;
    let severity = level_of(level)?;
    match after_last(message, " (", ")") {
        Some((message, id)) => Some(said_by(severity, id, message, false)),
        None => Some(with_id_after(severity, message)),
    }
}

/// What a text says that names no level: it is a warning, which may begin with a code.
fn unleveled(text: &str) -> Said<'_>
    ensures value { said_view result ≡ spec.unleveled text.now }
{
    match coded(text) {
        Some(said) => said,
        None => with_id_after(Severity::Warning, text),
    }
}

/// What a text says that begins with a code, and a blank.
fn coded(text: &str) -> Option<Said<'_>>
    ensures value { option_map said_view result ≡ spec.coded text.now }
{
    let (word, message) = parted(text, " ")?;
    Some(said_by(Severity::Warning, code_in(word)?, message, false))
}

/// A message with the name of its rule.
fn said_by<'t>(severity: Severity, id: &'t str, message: &'t str, is_from_zero: bool) -> Said<'t>
    ensures value { said_view result ≡ spec.said_by severity id.now message.now is_from_zero }
{
    Said {
        severity,
        id: Some(id),
        message,
        is_from_zero,
    }
}

/// A message that may have the name of its rule in brackets at its end.
fn with_id_after(severity: Severity, text: &str) -> Said<'_>
    ensures value { said_view result ≡ spec.with_id_after severity text.now }
{
    match after_last(text, " [", "]") {
        Some((message, id)) => said_by(severity, id, message, false),
        None => Said {
            severity,
            id: None,
            message: text,
            is_from_zero: false,
        },
    }
}

/// What stands in brackets at the end of a text, without blanks and brackets in it, and what comes before them.
fn after_last<'t>(text: &'t str, opening: &str, closing: &str) -> Option<(&'t str, &'t str)>
    ensures value { lent_parts result ≡ spec.after_last text.now opening.now closing.now }
{
    let (message, inner) = parted_last(before(text, closing)?, opening)?;
    if inner.is_empty() || has_blank_or_bracket(inner) {
        return None;
    }
    Some((message.trim_end(), inner))
}

/// Whether a blank or a bracket stands in a text.
fn has_blank_or_bracket(text: &str) -> bool
    ensures value { result ≡ list_any spec.is_blank_or_bracket text.now }
{
    text.as_bytes()
        .iter()
        .any(|byte| is_blank_or_bracket(*byte))
}

/// Whether a byte is a blank or a bracket.
fn is_blank_or_bracket(byte: u8) -> bool
    ensures value { result ≡ spec.is_blank_or_bracket byte }
{
    matches!(byte, b' ' | b'\t' | b'[' | b']' | b'(' | b')')
}

/// The level that these words name.
fn level_of(words: &str) -> Option<Severity>
    ensures value { result ≡ spec.level_of words.now }
{
    match words {
        "error" | "fatal error" | "fatal" | "internal compiler error" | "sorry, unimplemented" =>
            Some(Severity::Error),
        "warning" => Some(Severity::Warning),
        "info" | "information" | "style" | "performance" | "portability" | "remark" => Some(
            Severity::Info,
        ),
        "note" => Some(Severity::Note),
        "help" | "hint" => Some(Severity::Help),
        _ => None,
    }
}

/// The level that a code of pylint has by its letter.
fn level_by(code: &str) -> Severity
    ensures value { result ≡ spec.level_by code.now }
{
    match code.as_bytes() {
        [b'E' | b'F', ..] => Severity::Error,
        [b'W', ..] => Severity::Warning,
        _ => Severity::Info,
    }
}

/// A word, if it is a code: some capital letters, and then two digits or more.
fn code_in(word: &str) -> Option<&str>
    ensures value { lent_text result ≡ spec.code_in word.now }
{
    if is_code(word.as_bytes()) {
        Some(word)
    } else {
        None
    }
}

/// Whether a word is a code.
fn is_code(word: &[u8]) -> bool
    ensures value { result ≡ spec.is_code word.now }
{
    let letters = capitals_before(word);
    letters > 0 && is_long_number(&word[letters..])
}

/// Whether some bytes are two digits or more, and nothing else.
fn is_long_number(bytes: &[u8]) -> bool
    ensures value { result ≡ spec.is_long_number bytes.now }
{
    bytes.len() >= 2 && are_digits(bytes)
}

/// How many capital letters some bytes begin with.
fn capitals_before(bytes: &[u8]) -> usize
    ensures value { result ≡ spec.capitals_before bytes.now }
    ensures within { result ≤ length bytes.now }
{
    for (at, byte) in bytes.iter().enumerate() {
        if !byte.is_ascii_uppercase() {
            return at;
        }
    }
    bytes.len()
}
