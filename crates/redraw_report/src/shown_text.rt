//! The text that places are shown in.
ghost use Rattle.std.specs.Prelude.{◌≡◌};
ghost use Rattle.std.specs.Cow.{cow_str_bytes};
ghost use Rattle.redraw_report.specs.ShownText.{shown_text};

use snippet_lines::SourceLines;
use snippet_model::SourceText;
use snippet_text::CowStr;

/// Text that places are shown in: as it is, or a file whose lines were found when it was read. What is drawn doesn't
/// depend on which it is.
#[derive(Clone, Copy)]
pub enum ShownText<'a> {
    /// A text of which no lines are known.
    Text(&'a str),
    /// Lines that are lent: drawing them looks for no line again.
    Lines(&'a SourceLines<'a>),
}

impl<'a> ShownText<'a> {
    /// The text.
    pub fn as_str(self) -> &'a str
        ensures value { result.now ≡ shown_text self.entry }
    {
        match self {
            ShownText::Text(text) => text,
            ShownText::Lines(lines) => lines.source(),
        }
    }

    /// The text as a snippet takes it.
    pub fn source(self) -> SourceText<'a>
        ensures text { cow_str_bytes result.text ≡ shown_text self.entry }
    {
        match self {
            ShownText::Text(text) => SourceText::new(CowStr::Borrowed(text)),
            ShownText::Lines(lines) => SourceText::indexed(lines),
        }
    }
}
