//! Line feeds that are shown.
ghost use Rattle.std.specs.Prelude.{◌≡◌, ◌==◌, ◌++◌, IfOk, OnOk, chars, encode_utf8_all, false, string_bytes};
ghost use Rattle.std.specs.Cow.{cow_str_bytes};
ghost use Rattle.std.specs.List.{list_any};
ghost use Rattle.snippet_shown.specs.LineFeeds as spec;

use snippet_text::CowStr;
use std::alloc::{AllocError, Global};

/// A text with each line feed shown: `␊`, U+240A, stands in its place. It is borrowed where it holds none.
///
/// ```text
/// here, a line feed, 2 | let y = 666;        here␊2 | let y = 666;
/// ```
///
/// # Errors
///
/// There is no memory for the text.
pub fn with_line_feeds_shown<'a>(alloc: Global, text: &'a str) -> Result<CowStr<'a>, AllocError>
    ensures value { IfOk result (λ shown.
        chars (cow_str_bytes shown) ≡ spec.with_line_feeds_shown (chars text.now)) }
    ensures borrowed { list_any (λ c. c == 10) (chars text.now) ≡ false
        → IfOk result (λ shown. shown ≡ CowStr.Borrowed text.entry) }
{
    if has_line_feed(text) {
        Ok(CowStr::Owned(replaced(alloc, text)?))
    } else {
        Ok(CowStr::Borrowed(text))
    }
}

/// A text that may have been made, with each line feed shown: it is given back where it holds none.
///
/// # Errors
///
/// There is no memory for the text.
pub fn shown_on_one_line<'a>(alloc: Global, text: CowStr<'a>) -> Result<CowStr<'a>, AllocError>
    ensures value { IfOk result (λ shown.
        chars (cow_str_bytes shown) ≡ spec.with_line_feeds_shown (chars (cow_str_bytes text.entry))) }
{
    if has_line_feed(text.as_str()) {
        Ok(CowStr::Owned(replaced(alloc, text.as_str())?))
    } else {
        Ok(text)
    }
}

/// Whether a text holds a line feed.
fn has_line_feed(text: &str) -> bool
    ensures value { result ≡ list_any (λ c. c == 10) (chars text.now) }
{
    text.chars().any(|c| c == '\n')
}

/// A text with `␊` in place of each line feed.
fn replaced(alloc: Global, text: &str) -> Result<String, AllocError>
    ensures value { IfOk result (λ shown.
        chars (string_bytes shown) ≡ spec.with_line_feeds_shown (chars text.now)) }
{
    let mut shown = String::new(alloc);
    for c in text.chars() {
        shown.push(picture(c))?;
    }
    Ok(shown)
}

/// The character that is shown for this one.
fn picture(c: char) -> char
    ensures value { result ≡ spec.picture_of c }
{
    if c == '\n' { '\u{240a}' } else { c }
}
