//! The parts of a report: groups of a title and elements, and what an element may be.
ghost use Rattle.std.specs.Prelude.{◌≡◌, ℕ, [], None, Some, true, false};
ghost use Rattle.std.proofs.Common.{rules};
ghost use Rattle.std.specs.Cmp.{partial_order_from_own_ties};
ghost use Rattle.std.specs.Cow.{cow_str_bytes};
ghost use Rattle.std.specs.Cmp.Rules.{comparing};
ghost use Rattle.std.specs.Ordering.{nat_cmp, on, as_partial_cmp};
ghost use Rattle.std.specs.declared.ops.Range.{Range};
ghost use Rattle.std.specs.declared.borrow.CowStr.TheVariants.{Borrowed};
ghost use Rattle.snippet_model.specs.AnnotationKind.{rank_of};
ghost use Rattle.snippet_model.specs.Source.{unindexed};

mod clones;
mod elements;
mod fits;
mod groups;
mod markers;
mod origins;
mod titles;

use crate::level::Level;
use crate::option_cow::OptionCow;
use crate::source_text::SourceText;
pub use fits::report_fits;
use snippet_lines::SourceLines;
use snippet_style::LevelInner;
use snippet_text::CowStr;
use std::alloc::Global;
use std::cmp::Ordering;
use std::ops::Range;

/// The identifier of a title, as `E0308`, and the address that explains it.
#[derive(Clone, Debug, Drop)]
pub struct Id<'a> {
    /// The text that is shown in brackets.
    pub id: Option<CowStr<'a>>,
    /// The address that the text links to where links are on.
    pub url: Option<CowStr<'a>>,
}

/// The line that a group begins with.
#[derive(Clone, Debug, Drop)]
pub struct Title<'a> {
    /// How severe it is.
    pub level: Level<'a>,
    /// Its identifier, where it has one.
    pub id: Option<Id<'a>>,
    /// Its text.
    pub text: CowStr<'a>,
    /// Whether the text is trusted: drawn as it is, with any style codes that it holds.
    pub allows_styling: bool,
}

/// A title and the elements below it, one after another.
///
/// ```text
/// Level::ERROR
///     .primary_title("mismatched types")
///     .snippet(alloc, snippet)?
///     .message(Level::NOTE.message("`let` takes its type from the value"))?
/// ```
#[derive(Debug, Drop)]
pub struct Group<'a> {
    /// The kind of level whose style primary marks and labels of the group take.
    pub level: LevelInner,
    /// The title, where the group has one.
    pub title: Option<Title<'a>>,
    /// The elements, in order.
    pub elements: Vec<Element<'a>>,
}

/// One part of a group.
#[derive(Debug, Drop)]
pub enum Element<'a> {
    /// A trusted text below what stands before.
    Message(Message<'a>),
    /// Source with annotations.
    Cause(Snippet<'a, Annotation<'a>>),
    /// Source with a suggested edit.
    Suggestion(Snippet<'a, Patch<'a>>),
    /// A place without source.
    Origin(Origin<'a>),
    /// An empty row.
    Padding(Padding),
}

/// A trusted text: drawn as it is, with any style codes that it holds.
#[derive(Clone, Debug, Drop)]
pub struct Message<'a> {
    /// How severe it is.
    pub level: Level<'a>,
    /// Its text.
    pub text: CowStr<'a>,
}

/// A row of the gutter and the separator alone. As the last element of its group it is the row that closes it.
#[derive(Clone, Debug, Drop)]
pub struct Padding;

/// A place without source.
#[derive(Clone, Debug, Drop)]
pub struct Origin<'a> {
    /// The path of the file.
    pub path: CowStr<'a>,
    /// The number of the line.
    pub line: Option<usize>,
    /// The column, counted in characters from 1.
    pub char_column: Option<usize>,
}

/// What stands at a span of a source: an annotation or a patch.
pub trait Marker {
    ghost span_of: { Self → Range ℕ };

    /// The bytes of the source that are marked.
    fn span(&self) -> &Range<usize>
        ensures value { result.now ≡ span_of self.now };
}

/// Source text with markers: annotations or patches.
///
/// ```text
/// Snippet::source(alloc, "let x = 1;")
///     .path_str("a.rs")
///     .annotation(AnnotationKind::Primary.span(4..5))?
/// ```
#[derive(Debug, Drop)]
pub struct Snippet<'a, T> {
    /// The path of the file that the source is of.
    pub path: Option<CowStr<'a>>,
    /// The number of the source's first line.
    pub line_start: usize,
    /// The source.
    pub source: SourceText<'a>,
    /// The markers, in the order given.
    pub markers: Vec<T>,
    /// Whether line numbers are shown.
    pub line_numbering: bool,
    /// Whether lines that no marker touches are left out.
    pub fold: bool,
}

impl<'a, T> Snippet<'a, T> {
    /// A snippet of this source: no path, no markers, its first line has number 1, lines are numbered and folded.
    /// It takes no memory.
    pub fn source(alloc: Global, source: &'a str) -> Snippet<'a, T>
        ensures source { result.source ≡ unindexed (Borrowed source.entry) }
        ensures path { result.path ≡ None }
        ensures line_start { result.line_start ≡ 1 }
        ensures markers { result.markers.items ≡ [] }
        ensures line_numbering { result.line_numbering ≡ true }
        ensures fold { result.fold ≡ true }
    {
        Snippet::source_cow(alloc, CowStr::Borrowed(source))
    }

    /// A snippet as [`source`](Snippet::source) makes it, of a source that may be owned.
    pub fn source_cow(alloc: Global, source: CowStr<'a>) -> Snippet<'a, T>
        ensures source { result.source ≡ unindexed source.entry }
        ensures path { result.path ≡ None }
        ensures line_start { result.line_start ≡ 1 }
        ensures markers { result.markers.items ≡ [] }
        ensures line_numbering { result.line_numbering ≡ true }
        ensures fold { result.fold ≡ true }
    {
        Snippet::of(alloc, SourceText::new(source))
    }

    /// A snippet of a source whose lines were found before: drawing it looks for no line again. It takes no memory.
    pub fn indexed(alloc: Global, lines: &'a SourceLines<'_>) -> Snippet<'a, T>
        ensures source { cow_str_bytes result.source.text ≡ lines.now }
        ensures lines { result.source.is_indexed ≡ true }
        ensures path { result.path ≡ None }
        ensures line_start { result.line_start ≡ 1 }
        ensures markers { result.markers.items ≡ [] }
        ensures line_numbering { result.line_numbering ≡ true }
        ensures fold { result.fold ≡ true }
    {
        Snippet::of(alloc, SourceText::indexed(lines))
    }

    /// A snippet of any source: no path, no markers, its first line has number 1, lines are numbered and folded.
    fn of(alloc: Global, source: SourceText<'a>) -> Snippet<'a, T>
        ensures source { result.source ≡ source.entry }
        ensures path { result.path ≡ None }
        ensures line_start { result.line_start ≡ 1 }
        ensures markers { result.markers.items ≡ [] }
        ensures line_numbering { result.line_numbering ≡ true }
        ensures fold { result.fold ≡ true }
    {
        Snippet {
            path: None,
            line_start: 1,
            source,
            markers: Vec::new(alloc),
            line_numbering: true,
            fold: true,
        }
    }

    /// The path of the file that the source is of, or none where there is none. The path isn't trusted: it is
    /// normalised where it is drawn.
    pub fn path(mut self, path: OptionCow<'a>) -> Snippet<'a, T>
        ensures changed { result ≡ record self.entry { path = path.entry.0 } }
    {
        self.path = path.0;
        self
    }

    /// The path of the file that the source is of, from a borrowed text.
    pub fn path_str(self, path: &'a str) -> Snippet<'a, T>
        ensures changed { result ≡ record self.entry { path = Some (Borrowed path.entry) } }
    {
        self.path(OptionCow(Some(CowStr::Borrowed(path))))
    }

    /// The number of the source's first line, where it isn't 1. A snippet in which the number after that of the last
    /// line doesn't fit in a `usize` is refused, as `LineNumberTooLarge`.
    pub fn line_start(mut self, line_start: usize) -> Snippet<'a, T>
        ensures changed { result ≡ record self.entry { line_start = line_start } }
    {
        self.line_start = line_start;
        self
    }

    /// Whether line numbers are shown.
    pub fn line_numbering(mut self, line_numbering: bool) -> Snippet<'a, T>
        ensures changed { result ≡ record self.entry { line_numbering = line_numbering } }
    {
        self.line_numbering = line_numbering;
        self
    }

    /// Whether lines far from any span are left out, with `...` in their place; they are unless this says otherwise.
    /// With `false` each line of the source is shown.
    pub fn fold(mut self, fold: bool) -> Snippet<'a, T>
        ensures changed { result ≡ record self.entry { fold = fold } }
    {
        self.fold = fold;
        self
    }
}

/// A marked span of a source.
#[derive(Clone, Debug, Drop)]
pub struct Annotation<'a> {
    /// The bytes of the source that are marked.
    pub span: Range<usize>,
    /// What is said of them.
    pub label: Option<CowStr<'a>>,
    /// How they are marked.
    pub kind: AnnotationKind,
    /// Whether the source itself is coloured as the mark is.
    pub highlight_source: bool,
}

impl<'a> Annotation<'a> {
    /// What is said of the span, drawn beside or below its mark: the text given, or nothing. The text isn't trusted: it
    /// is normalised where it is drawn.
    pub fn label(mut self, label: OptionCow<'a>) -> Annotation<'a>
        ensures changed { result ≡ record self.entry { label = label.entry.0 } }
    {
        self.label = label.0;
        self
    }

    /// What is said of the span, from a borrowed text.
    pub fn label_str(self, label: &'a str) -> Annotation<'a>
        ensures changed { result ≡ record self.entry { label = Some (Borrowed label.entry) } }
    {
        self.label(OptionCow(Some(CowStr::Borrowed(label))))
    }

    /// Whether the marked source is drawn in the mark's style.
    pub fn highlight_source(mut self, highlight: bool) -> Annotation<'a>
        ensures changed { result ≡ record self.entry { highlight_source = highlight } }
    {
        self.highlight_source = highlight;
        self
    }
}

impl<'a> Marker for Annotation<'a> {
    ghost span_of = { λ annotation. annotation.span };

    fn span(&self) -> &Range<usize> {
        &self.span
    }
}

/// How a span is marked. Kinds are ordered as they are listed here.
#[derive(Clone, Copy, Debug, PartialEq, Eq)]
pub enum AnnotationKind {
    /// The point of the report, marked with `^`.
    Primary,
    /// What helps to see the point, marked with `-`.
    Context,
    /// Not marked: only its lines are shown.
    Visible,
}

impl AnnotationKind {
    /// The place of the kind in their order.
    const fn rank(self) -> u8
        ensures value { result ≡ rank_of self }
    {
        match self {
            AnnotationKind::Primary => 0,
            AnnotationKind::Context => 1,
            AnnotationKind::Visible => 2,
        }
    }

    /// An annotation of this kind, without label, of the bytes of this span: from its start to before its end, counted
    /// from 0 in the source. Any span may be given; one that isn't of the source is refused by name where the report is
    /// drawn, as `SpanPastEnd`.
    ///
    /// ```text
    /// AnnotationKind::Context.span(0..3)                             1 | let x = 1;
    /// AnnotationKind::Primary.span(4..5).label_str("never read")       | --- ^ never read
    /// ```
    pub fn span<'a>(self, span: Range<usize>) -> Annotation<'a>
        ensures span { result.span ≡ span }
        ensures label { result.label ≡ None }
        ensures kind { result.kind ≡ self }
        ensures highlight_source { result.highlight_source ≡ false }
    {
        Annotation {
            span,
            label: None,
            kind: self,
            highlight_source: false,
        }
    }
}

impl Ord for AnnotationKind {
    ghost cmp = { on rank_of nat_cmp };

    ghost total = { Prim.search (comparing, rules) };

    ghost matches_partial_cmp = { Prim.search (comparing, rules) };

    ghost matches_eq = { Prim.search (comparing, rules) };

    fn cmp(&self, other: &AnnotationKind) -> Ordering {
        self.rank().cmp(&other.rank())
    }
}

impl PartialOrd for AnnotationKind {
    ghost partial_cmp = { as_partial_cmp (on rank_of nat_cmp) };

    ghost laws = { partial_order_from_own_ties (Prim.search (comparing, rules)) (Prim.search (comparing, rules)) };

    fn partial_cmp(&self, other: &AnnotationKind) -> Option<Ordering> {
        Some(self.cmp(other))
    }
}

/// A suggested edit: bytes of a source and what stands there afterwards.
#[derive(Clone, Debug, Drop)]
pub struct Patch<'a> {
    /// The bytes of the source that are replaced.
    pub span: Range<usize>,
    /// What stands in their place.
    pub replacement: CowStr<'a>,
}

impl<'a> Patch<'a> {
    /// The edit that puts this text in place of the bytes of this span: an empty span puts it in, an empty text takes
    /// the bytes away. Two patches of a snippet that overlap are refused where the report is drawn, as
    /// `PatchesOverlap`.
    ///
    /// ```text
    /// Patch::new(4..5, "y")      1 - let x = 1;
    ///                            1 + let y = 1;
    /// Patch::new(4..4, "_")      1 | let _x = 1;
    ///                              |     +
    /// ```
    pub fn new(span: Range<usize>, replacement: &'a str) -> Patch<'a>
        ensures span { result.span ≡ span }
        ensures replacement { result.replacement ≡ Borrowed replacement.entry }
    {
        Patch::new_cow(span, CowStr::Borrowed(replacement))
    }

    /// The edit that puts this text, which may be owned, in place of the bytes of this span.
    pub fn new_cow(span: Range<usize>, replacement: CowStr<'a>) -> Patch<'a>
        ensures span { result.span ≡ span }
        ensures replacement { result.replacement ≡ replacement.entry }
    {
        Patch { span, replacement }
    }
}

impl<'a> Marker for Patch<'a> {
    ghost span_of = { λ patch. patch.span };

    fn span(&self) -> &Range<usize> {
        &self.span
    }
}
