//! What is drawn below a line: an entry for each span that begins, ends or stands on it.
ghost use Rattle.std.specs.Prelude.{◌≡◌};

use crate::label::Label;
use snippet_lines::place::Loc;
use snippet_model::snippet::AnnotationKind;

/// One entry of a line: the columns from `start.display` to before `end.display`.
#[derive(Debug, Drop)]
pub struct LineAnnotation<'a> {
    /// Where it starts.
    pub start: Loc,
    /// Where it ends; on one line at least one column after its start.
    pub end: Loc,
    /// What is said of it.
    pub label: Label<'a>,
    /// Which part of a span it stands for.
    pub annotation_type: LineAnnotationType,
    /// How it is marked.
    pub kind: AnnotationKind,
    /// Whether the source itself is coloured as the mark is.
    pub highlight_source: bool,
}

impl<'a> LineAnnotation<'a> {
    /// This entry once more.
    pub fn copied(&self) -> LineAnnotation<'a>
        ensures value { result ≡ self.now }
    {
        LineAnnotation {
            start: self.start,
            end: self.end,
            kind: self.kind,
            label: self.label.copied(),
            annotation_type: self.annotation_type,
            highlight_source: self.highlight_source,
        }
    }
}

/// Which part of a span an entry stands for. The numbers are depths: how far right a bar stands, from 1.
#[derive(Clone, Copy, Debug, PartialEq, Eq)]
pub enum LineAnnotationType {
    /// A span that begins and ends on the line.
    Singleline,
    /// The line on which a span of several lines begins.
    MultilineStart(usize),
    /// The line on which such a span ends.
    MultilineEnd(usize),
    /// A line between those, where a bar is drawn.
    MultilineLine(usize),
}

/// A line that is shown, with its entries.
#[derive(Debug, Drop)]
pub struct AnnotatedLineInfo<'a> {
    /// The line's text, without its end.
    pub line: &'a str,
    /// The line's number.
    pub line_index: usize,
    /// The entries of the line, in the order made.
    pub annotations: Vec<LineAnnotation<'a>>,
    /// Whether a span keeps the line without marking it.
    pub keep: bool,
}
