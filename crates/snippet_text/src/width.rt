//! How many columns characters and texts take.
ghost use Rattle.std.specs.Prelude.{◌≡◌, ◌≤◌, ◌*◌, IfSome, length, chars};
ghost use Rattle.snippet_text.specs.Width as spec;
ghost use Rattle.snippet_text.specs.TextBounds.{TextFits};

use crate::plain::is_plain;
use unicode_width::UnicodeWidthChar;

/// The number of columns that a character takes: 4 for a tab, 1 for a character that is shown as one other, 0 for the
/// zero width joiner, else what `unicode_width` says, or 1 where it says nothing.
#[tactic(auto, unfolding(crate::specs::Width::char_width, unicode_width::specs::Width::char_width))]
pub fn char_width(c: char) -> usize
    ensures value { result ≡ spec.char_width c }
    ensures bound { result ≤ 4 }
{
    // Most characters are printable ASCII, and known at the first test.
    if matches!(c, ' '..='~') {
        return 1;
    }
    match common_width(c) {
        Some(width) => width,
        None => other_width(c),
    }
}

/// The width of a character of a block whose characters are all of one width, as most that aren't ASCII: letters with
/// accents, Greek and Cyrillic, combining marks, kana, ideographs, Hangul, emoji.
#[inline(always)]
fn common_width(c: char) -> Option<usize>
    ensures value { IfSome result (λ width. width ≡ spec.char_width c) }
    ensures bound { IfSome result (λ width. width ≤ 4) }
{
    match c {
        '\u{ae}'..='\u{2ff}' | '\u{370}'..='\u{482}' => Some(1),
        '\u{300}'..='\u{337}' | '\u{339}'..='\u{36f}' => Some(0),
        '\u{3041}'..='\u{3096}' | '\u{309b}'..='\u{30ff}' => Some(2),
        '\u{3250}'..='\u{a48c}' | '\u{ac00}'..='\u{d7a3}' => Some(2),
        '\u{ff01}'..='\u{ff60}' => Some(2),
        '\u{1f442}'..='\u{1f4fc}' | '\u{1f5fb}'..='\u{1f64f}' => Some(2),
        _ => None,
    }
}

/// The width of any character but printable ASCII.
#[tactic(auto, unfolding(crate::specs::Width::char_width, unicode_width::specs::Width::char_width))]
fn other_width(c: char) -> usize
    ensures value { result ≡ spec.char_width c }
    ensures bound { result ≤ 4 }
{
    match c {
        '\t' => 4,
        '\u{200d}' => 0,
        '\0'..='\u{8}' | '\u{b}'..='\u{1f}' | '\u{7f}' => 1,
        '\u{202a}'..='\u{202e}' | '\u{2066}'..='\u{2069}' => 1,
        '\u{2400}'..='\u{241f}' | '\u{2421}' | '\u{fffd}' => 1,
        _ => c.width().unwrap_or(1),
    }
}

/// The number of columns that a text takes: the sum of its characters' widths.
///
/// The text has to have fewer than 2^56 bytes, which `text_fits` tests. Sequences such as emoji and flags get no
/// treatment of their own. `日本` takes 4 columns, and `e` with the accent U+0301 takes 1.
pub fn str_width(text: &str) -> usize
    requires fits { TextFits text.now }
    ensures value { result ≡ spec.width_of (chars text.now) }
    ensures bound { result ≤ 4 * length text.now }
{
    if is_plain(text) {
        return text.len();
    }
    let mut columns = 0;
    for c in text.chars() {
        columns += char_width(c);
    }
    columns
}
