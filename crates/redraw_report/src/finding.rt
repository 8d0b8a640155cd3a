//! A finding whose places have been found in the sources that are shown: all that a report is made of.
ghost use Rattle.std.specs.Prelude.{◌≡◌};
ghost use Rattle.redraw_report.specs.SameSource.{same_content, same_source};

use crate::diagnostic::{Code, Severity};
use crate::shown_text::ShownText;

/// Text that places are shown in.
#[derive(Clone, Copy)]
pub struct Shown<'a> {
    /// The path that is shown for it.
    pub path: &'a str,
    /// Where its lines are, or that they are nowhere.
    pub content: Content<'a>,
}

/// What is at hand of a file.
#[derive(Clone, Copy)]
pub enum Content<'a> {
    /// Lines of it, the first of which has this number.
    Lines {
        text: ShownText<'a>,
        first_line: usize,
    },
    /// None of it: only the line and column of a place are known, where they are.
    Nothing {
        line: Option<usize>,
        column: Option<usize>,
    },
    /// None of it, where a form tells places by marks alone: a line of blanks with this number is shown, up to this
    /// column.
    Blank {
        line: usize,
        column: usize,
    },
}

/// A finding, by places in sources.
#[derive(Drop)]
pub struct Finding<'a> {
    pub severity: Severity,
    /// What is wrong. The text isn't trusted.
    pub message: &'a str,
    /// The name of the rule that it breaks, where it has one.
    pub code: Option<&'a Code>,
    /// The places that it speaks of.
    pub marks: Vec<MarkedSpan<'a>>,
    /// What else is said of it.
    pub remarks: Vec<Remark<'a>>,
    /// Whether of an edit of several lines those that go are shown too.
    pub shows_gone: bool,
}

/// A place that is spoken of.
#[derive(Clone, Copy)]
pub struct MarkedSpan<'a> {
    /// The source that it is in.
    pub source: Shown<'a>,
    /// The byte of the source where the place starts.
    pub start: usize,
    /// The byte after it.
    pub end: usize,
    /// What is said of it. The text isn't trusted.
    pub label: Option<&'a str>,
    /// Whether it is the point of the report.
    pub is_primary: bool,
}

/// A note or help, with places of its own, with edits, or with neither.
#[derive(Drop)]
pub struct Remark<'a> {
    pub severity: Severity,
    /// What is said. The text isn't trusted.
    pub message: &'a str,
    /// The places that it speaks of.
    pub marks: Vec<MarkedSpan<'a>>,
    /// The edits that it suggests, each of them instead of the others.
    pub offers: Vec<Offer<'a>>,
    /// Whether it only goes on with the places of what is before it: its group has no title.
    pub goes_on: bool,
}

/// A suggestion: edits of one source, which are made together.
#[derive(Drop)]
pub struct Offer<'a> {
    /// The source that it changes.
    pub source: Shown<'a>,
    pub changes: Vec<Replacement<'a>>,
    /// Whether only the lines around the edits are shown, and not all of the source.
    pub is_folded: bool,
}

/// A part of a source, and the text that is to stand in its place.
#[derive(Clone, Copy)]
pub struct Replacement<'a> {
    /// The byte of the source where the part starts.
    pub start: usize,
    /// The byte after it.
    pub end: usize,
    /// What stands in its place. The text isn't trusted.
    pub text: &'a str,
}

/// Whether two sources are one: they are of the same path and show the same.
pub fn is_same(known: &Shown<'_>, other: &Shown<'_>) -> bool
    ensures value { result ≡ same_source known.now other.now }
{
    known.path == other.path && holds_same(known.content, other.content)
}

/// Whether the same is shown of two files.
fn holds_same(known: Content<'_>, other: Content<'_>) -> bool
    ensures value { result ≡ same_content known.entry other.entry }
{
    match (known, other) {
        (
            Content::Lines { text, first_line },
            Content::Lines {
                text: other_text,
                first_line: other_line,
            },
        ) => first_line == other_line && text.as_str() == other_text.as_str(),
        (
            Content::Nothing { line, column },
            Content::Nothing {
                line: other_line,
                column: other_column,
            },
        ) => line == other_line && column == other_column,
        (
            Content::Blank { line, column },
            Content::Blank {
                line: other_line,
                column: other_column,
            },
        ) => line == other_line && column == other_column,
        _ => false,
    }
}
