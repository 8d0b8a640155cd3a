//! Texts as messages show them.

ghost use Rattle.std.specs.Prelude.{◌≡◌, IfOk, chars, map, string_bytes};
ghost use Rattle.program.specs.Message as spec;

use snippet_text::normalize_untrusted_str;
use std::alloc::{AllocError, Global};

/// A text as a message shows it: on one line, with `␊`, U+240A, in place of each line feed, and without a character
/// that could change how a terminal shows it.
///
/// ```text
/// a name, a line feed, error: none        a name␊error: none
/// ```
pub fn message_text(alloc: Global, text: &str) -> Result<String, AllocError>
    ensures value { IfOk result (λ shown. string_bytes shown ≡ spec.message_text text.now) }
{
    let line = on_one_line(alloc, text)?;
    normalize_untrusted_str(alloc, line.as_str())
}

/// The message of the program of this name that it can't do this to the file of that name.
///
/// ```text
/// snip, read, a.rs        snip: cannot read a.rs
/// ```
pub fn cannot(alloc: Global, program: &str, verb: &str, name: &str) -> Result<String, AllocError>
    ensures value { IfOk result (λ text. string_bytes text ≡ spec.cannot program.now verb.now name.now) }
{
    let shown = message_text(alloc, name)?;
    format!(in alloc; "{program}: cannot {verb} {shown}")
}

/// A text with `␊` in place of each line feed.
pub fn on_one_line(alloc: Global, text: &str) -> Result<String, AllocError>
    ensures value { IfOk result (λ line. chars (string_bytes line) ≡ spec.on_one_line (chars text.now)) }
{
    let mut line = String::new(alloc);
    for c in text.chars() {
        line.push(picture(c))?;
    }
    Ok(line)
}

/// The character that a line shows for this one.
fn picture(c: char) -> char
    ensures value { result ≡ spec.picture_of c }
{
    if c == '\n' { '\u{240a}' } else { c }
}

/// Texts, each with `␊` in place of each line feed.
pub fn lines_of(alloc: Global, texts: &[&str]) -> Result<Vec<String>, AllocError>
    ensures value { IfOk result (λ lines. map (λ line. chars (string_bytes line)) lines.items
        ≡ map (λ text. spec.on_one_line (chars text.now)) texts.now) }
{
    let mut lines = Vec::new(alloc);
    for text in texts {
        lines.push(on_one_line(alloc, text)?)?;
    }
    Ok(lines)
}
