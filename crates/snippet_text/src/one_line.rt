//! Which texts are one line.
ghost use Rattle.std.specs.Prelude.{◌↔◌, IsTrue};
ghost use Rattle.snippet_text.specs.OneLine.{IsOneLine};

/// Whether a text is one line: it holds no line feed.
///
/// A line feed in a label, a path, an id or a level's name is drawn as it is, so what stands after it begins a line of
/// the report's text. With the label `here`, a line feed, `2 | let y = 666;` that looks like a line of the source:
///
/// ```text
/// 1 | let x = 1;
///   |     ^ here
/// 2 | let y = 666;
/// ```
///
/// So ask this of such texts where they come from strangers.
pub fn is_one_line(text: &str) -> bool
    ensures value { IsTrue result ↔ IsOneLine text.now }
{
    text.as_bytes().iter().all(|b| *b != b'\n')
}
