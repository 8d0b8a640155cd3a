//! The lines of a text, found one after another.
ghost use Rattle.std.specs.Prelude.{◌≡◌, ◌≢◌, ◌+◌, ◌<◌, ◌≤◌, ◌⊎◌, List, [], ◌++◌, length};
ghost use Rattle.snippet_lines.specs.Lines.{Line, end_bytes, line_bytes, last_byte};
ghost use Rattle.snippet_lines.specs.CutLines.{IsLineWithEnd, IsLine, IsCutOf};
ghost use Rattle.snippet_lines.specs.Lines.{lines_of, newline_count, source_lines};

use crate::counts::newline_count_before;
use memchr::memchr;
use std::marker::Model;

/// How a line ends.
#[derive(Clone, Copy, Debug, PartialEq, Eq)]
pub enum EndLine {
    /// At the end of the text, with no byte.
    Eof,
    /// By a line feed.
    Lf,
    /// By a carriage return and a line feed.
    Crlf,
}

impl EndLine {
    /// The number of bytes of the line end.
    pub fn len(self) -> usize
        ensures value { result ≡ length (end_bytes self) }
    {
        match self {
            EndLine::Eof => 0,
            EndLine::Lf => 1,
            EndLine::Crlf => 2,
        }
    }
}

/// The lines of a text, each with its end; an empty text has none. Joined, the lines and their ends are the text.
///
/// The text is scanned once, as far as lines are asked for. Of `one`, CR, LF, `two` it gives `one` with `EndLine::Crlf`
/// and `two` with `EndLine::Eof`.
#[derive(Drop)]
pub struct CursorLines<'a> {
    rest: &'a str,
}

impl<'a> Model for CursorLines<'a> {
    ghost use Rattle.std.specs.Prelude.{List};
    ghost use Rattle.snippet_lines.specs.Lines.{Line, lines_of};

    ghost Value = { List Line };

    ghost view = { λ cursor. lines_of cursor.rest.now };
}

impl<'a> CursorLines<'a> {
    /// A cursor before the first line of a text.
    pub fn new(text: &'a str) -> CursorLines<'a>
        ensures value { result ≡ lines_of text.now }
        ensures cut { IsCutOf text.now result }
        ensures only { (ls : List Line) → IsCutOf text.now ls → ls ≡ result }
    {
        CursorLines { rest: text }
    }
}

impl<'a> Iterator for CursorLines<'a> {
    ghost use Rattle.std.specs.Iterator.{YieldsFirstBy, item_count};

    type Item = (&'a str, EndLine);

    ghost next_gives = { YieldsFirstBy (λ line. (line.0.now, line.1)) (λ left. left) };

    ghost remaining = { item_count (λ left. left) };

    fn next(&mut self) -> Option<(&'a str, EndLine)> {
        if self.rest.is_empty() {
            return None;
        }
        let (line, rest) = split_first_line(self.rest);
        self.rest = rest;
        Some(without_line_end(line))
    }
}

/// The first line of a text, line end counted, and what follows it.
fn split_first_line(text: &str) -> (&str, &str)
    requires some { 0 < length text.now }
    ensures whole { text.now ≡ result.0.now ++ result.1.now }
    ensures some { 0 < length result.0.now }
    ensures one_line { IsLineWithEnd result.0.now }
    ensures ends { (last_byte result.0.now ≡ 10) ⊎ (result.1.now ≡ []) }
{
    match memchr(b'\n', text.as_bytes()) {
        Some(at) => text.split_at(at + 1),
        None => (text, ""),
    }
}

/// A line's text, and how the line ends.
pub fn without_line_end(line: &str) -> (&str, EndLine)
    requires one_line { IsLineWithEnd line.now }
    ensures whole { line.now ≡ line_bytes (result.0.now, result.1) }
    ensures line { IsLine (result.0.now, result.1) }
    ensures no_end { result.1 ≡ EndLine.Eof → last_byte line.now ≢ 10 }
{
    let Some(text) = line.strip_suffix('\n') else {
        return (line, EndLine::Eof);
    };
    match text.strip_suffix('\r') {
        Some(text) => (text, EndLine::Crlf),
        None => (text, EndLine::Lf),
    }
}

/// The number of line feeds in a text, not counting one that ends it: of `a`, LF, `b`, LF it is 1.
pub fn newline_count(text: &str) -> usize
    ensures value { result ≡ newline_count text.now }
    ensures lines { result + 1 ≡ length (source_lines text.now) }
    ensures bound { result ≤ length text.now }
{
    newline_count_before(text, text.len())
}
