//! Which characters are listed, and what is shown in place of each.
ghost use Rattle.std.specs.Prelude.{◌≡◌, ◌∷◌, false, chars, encode_utf8_all, IfOk, string_bytes, ◌++◌, OnOk};
ghost use Rattle.std.specs.List.{list_any};
ghost use Rattle.std.specs.Cow.{cow_str_bytes};
ghost use Rattle.snippet_text.specs.Normalized as spec;
ghost use Rattle.snippet_text.specs.Width.{width_of};

use crate::plain::is_plain;
use std::alloc::{AllocError, Global};
use std::borrow::CowStr;

/// Whether a character is listed: one that could change how a terminal shows the text around it.
fn is_listed(c: char) -> bool
    ensures value { result ≡ spec.is_listed c }
{
    matches!(
        c,
        '\0'..='\t'
            | '\u{b}'..='\u{1f}'
            | '\u{7f}'
            | '\u{200d}'
            | '\u{202a}'..='\u{202e}'
            | '\u{2066}'..='\u{2069}'
    )
}

/// Whether a text holds a listed character.
fn has_listed(text: &str) -> bool
    ensures value { result ≡ list_any spec.is_listed (chars text.now) }
{
    if is_plain(text) {
        return false;
    }
    text.chars().any(|c| is_listed(c))
}

/// Adds a character as it is shown: a listed one by its replacement, any other as it is.
fn push_shown(out: &mut String, c: char) -> Result<(), AllocError>
    ensures ok { OnOk result (string_bytes out.new ≡ string_bytes out.old ++ encode_utf8_all (spec.shown c)) }
{
    match c {
        '\t' => out.push_str("    "),
        '\u{200d}' => Ok(()),
        '\0'..='\u{8}' | '\u{b}'..='\u{1f}' => {
            out.push(char::from_u32(0x2400 + c as u32).unwrap_or('\u{fffd}'))
        }
        '\u{7f}' => out.push('\u{2421}'),
        '\u{202a}'..='\u{202e}' | '\u{2066}'..='\u{2069}' => out.push('\u{fffd}'),
        _ => out.push(c),
    }
}

/// A text without listed characters: each is replaced by what is shown in its place, all others are kept.
///
/// A tab becomes four spaces, a control character its control picture (U+2400 and above), a bidirectional control
/// U+FFFD, and a zero width joiner nothing. The text keeps its width, and normalising it again changes nothing. The one
/// error is that memory ran out.
///
/// ```text
/// a, a tab, b, U+001B, [1m     becomes     a    b␛[1m
/// ```
pub fn normalize_untrusted_str(alloc: Global, text: &str) -> Result<String, AllocError>
    ensures value { IfOk result (λ t. chars (string_bytes t) ≡ spec.norm (chars text.now)) }
    ensures unlisted { IfOk result (λ t. list_any spec.is_listed (chars (string_bytes t)) ≡ false) }
    ensures stable { IfOk result (λ t. spec.norm (chars (string_bytes t)) ≡ chars (string_bytes t)) }
    ensures width_kept { IfOk result (λ t. width_of (chars (string_bytes t)) ≡ width_of (chars text.now)) }
{
    let mut out = String::new(alloc);
    if is_plain(text) {
        out.push_str(text)?;
        return Ok(out);
    }
    for c in text.chars() {
        push_shown(&mut out, c)?;
    }
    Ok(out)
}

/// A text without listed characters, borrowed where nothing in it is listed.
pub fn normalized<'a>(alloc: Global, text: &'a str) -> Result<CowStr<'a>, AllocError>
    ensures value { IfOk result (λ t. chars (cow_str_bytes t) ≡ spec.norm (chars text.now)) }
    ensures borrowed { list_any spec.is_listed (chars text.now) ≡ false
        → IfOk result (λ t. t ≡ CowStr.Borrowed text.entry) }
{
    if has_listed(text) {
        Ok(CowStr::Owned(normalize_untrusted_str(alloc, text)?))
    } else {
        Ok(CowStr::Borrowed(text))
    }
}
