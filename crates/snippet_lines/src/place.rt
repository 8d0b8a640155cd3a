//! Places in a source.
ghost use Rattle.std.specs.Prelude.{◌≡◌, ◌-◌, ◌*◌, ◌≤◌, length, take, min, chars};
ghost use Rattle.std.specs.Str.{IsCharBoundary};
ghost use Rattle.snippet_text.specs.Width.{width_of};
ghost use Rattle.snippet_text.specs.TextBounds.{TextFits};

use snippet_text::{char_width, is_plain};

/// A place in a source, whose lines have numbers from that of the first one on; all else counts from 0.
///
/// ```text
/// source       日    本    ⇥     x     CR    LF    y
/// byte         0     3     6     7     8     9     10
/// char         0     1     2     3     4     4     0
/// display      0     2     4     8     9     9     0
/// line         1     1     1     1     1     1     2
/// ```
#[derive(Clone, Copy, Debug, PartialEq, Eq)]
pub struct Loc {
    /// The number of its line.
    pub line: usize,
    /// How many characters stand before it on its line.
    pub char: usize,
    /// How many columns stand before it on its line.
    pub display: usize,
    /// Its byte in the source.
    pub byte: usize,
}

impl Loc {
    /// The place of a byte on a line: of the line's text, its number and the byte at which it starts.
    ///
    /// A byte after the text stands at its end.
    pub fn on_line(text: &str, number: usize, start: usize, byte: usize) -> Loc
        requires fits { TextFits text.now }
        requires border { IsCharBoundary text.now (min (byte - start) (length text.now)) }
        requires ordered { start ≤ byte }
        ensures line { result.line ≡ number }
        ensures char { result.char ≡ length (chars (take (byte - start) text.now)) }
        ensures display { result.display ≡ width_of (chars (take (byte - start) text.now)) }
        ensures byte { result.byte ≡ byte }
        ensures char_bound { result.char ≤ length text.now }
        ensures display_bound { result.display ≤ 4 * length text.now }
    {
        let before = &text[..(byte - start).min(text.len())];
        let (char, display) = characters_and_columns(before);
        Loc {
            line: number,
            char,
            display,
            byte,
        }
    }

    /// The place of a later byte of the same line: of the line's text, and the byte at which it starts.
    ///
    /// Only what lies between the two is walked. A byte after the text stands at its end.
    pub fn later_on_line(self, text: &str, start: usize, byte: usize) -> Loc
        requires fits { TextFits text.now }
        requires here_char { self.char ≡ length (chars (take (self.byte - start) text.now)) }
        requires here_display { self.display ≡ width_of (chars (take (self.byte - start) text.now)) }
        requires here_border { IsCharBoundary text.now (min (self.byte - start) (length text.now)) }
        requires border { IsCharBoundary text.now (min (byte - start) (length text.now)) }
        requires started { start ≤ self.byte }
        requires later { self.byte ≤ byte }
        ensures line { result.line ≡ self.line }
        ensures char { result.char ≡ length (chars (take (byte - start) text.now)) }
        ensures display { result.display ≡ width_of (chars (take (byte - start) text.now)) }
        ensures byte { result.byte ≡ byte }
        ensures char_bound { result.char ≤ length text.now }
        ensures display_bound { result.display ≤ 4 * length text.now }
    {
        let from = (self.byte - start).min(text.len());
        let to = (byte - start).min(text.len());
        let between = &text[from..to];
        let (char, display) = characters_and_columns(between);
        Loc {
            line: self.line,
            char: self.char + char,
            display: self.display + display,
            byte,
        }
    }
}

/// How many characters a text has, and how many columns it takes: of most texts both are its bytes.
fn characters_and_columns(text: &str) -> (usize, usize)
    requires fits { TextFits text.now }
    ensures characters { result.0 ≡ length (chars text.now) }
    ensures columns { result.1 ≡ width_of (chars text.now) }
    ensures bound { result.1 ≤ 4 * length text.now }
{
    if is_plain(text) {
        return (text.len(), text.len());
    }
    walked(text)
}

/// How many characters a text has, and how many columns it takes, found character by character.
#[inline(never)]
fn walked(text: &str) -> (usize, usize)
    requires fits { TextFits text.now }
    ensures characters { result.0 ≡ length (chars text.now) }
    ensures columns { result.1 ≡ width_of (chars text.now) }
    ensures bound { result.1 ≤ 4 * length text.now }
{
    let mut characters = 0;
    let mut columns = 0;
    for c in text.chars() {
        characters += 1;
        columns += char_width(c);
    }
    (characters, columns)
}
