//! The reports: how each is built.
ghost use Rattle.std.specs.Prelude.{IfOk};
ghost use Rattle.annotate_snippets.specs.Fits.{AnnotationFits, GroupFits, PatchFits, SnippetFits};
ghost use Rattle.snippet_text.specs.TextBounds.{TextFits};

use annotate_snippets::level::{ERROR, HELP, NOTE};
use annotate_snippets::renderer::Id;
use annotate_snippets::{
    Annotation, AnnotationKind, Element, Group, OptionCow, Origin, Patch, Snippet, Title,
};
use std::alloc::{AllocError, Global};

/// A report, by what it is of.
#[derive(Clone, Copy)]
pub enum Subject {
    Labelled,
    TwoLabels,
    SeveralLines,
    CutLine,
    NoteBelow,
    Origin,
    TwoOffers,
    TwoPatches,
    Unset,
    /// A report with a wide title, and a line feed in its label.
    Set,
    /// The reports from here on are refused by name.
    PastEnd,
    Reversed,
    OffBorder,
    TooLarge,
    Overlapping,
}

/// A report of an annotated snippet: `element` of a title.
fn titled(
    alloc: Global,
    title: &'static str,
    snippet: Snippet<'static, Annotation<'static>>,
) -> Result<Group<'static>, AllocError>
    requires title { TextFits title.now }
    requires snippet { SnippetFits AnnotationFits snippet }
    ensures fits { IfOk result GroupFits }
{
    ERROR
        .primary_title(title)
        .element(alloc, Element::from(snippet))
}

/// A report of a suggestion.
fn offered(
    alloc: Global,
    snippet: Snippet<'static, Patch<'static>>,
) -> Result<Group<'static>, AllocError>
    requires snippet { SnippetFits PatchFits snippet }
    ensures fits { IfOk result GroupFits }
{
    HELP.secondary_title("t")
        .element(alloc, Element::from(snippet))
}

/// A source whose bytes from `start` to before `end` are marked, and whose first line has this number.
fn marked(
    alloc: Global,
    source: &'static str,
    start: usize,
    end: usize,
    line_start: usize,
) -> Result<Group<'static>, AllocError>
    requires source { TextFits source.now }
    ensures fits { IfOk result GroupFits }
{
    let snippet = Snippet::source(alloc, source)
        .line_start(line_start)
        .annotation(AnnotationKind::Primary.span(start..end))?;
    titled(alloc, "e", snippet)
}

/// Two patches of the second byte.
fn overlapping(alloc: Global) -> Result<Group<'static>, AllocError>
    ensures fits { IfOk result GroupFits }
{
    let snippet = Snippet::source(alloc, "abc")
        .patch(Patch::new(0..2, "x"))?
        .patch(Patch::new(1..3, "y"))?;
    offered(alloc, snippet)
}

/// A variable that isn't used: `annotation`.
fn labelled(alloc: Global) -> Result<Group<'static>, AllocError>
    ensures fits { IfOk result GroupFits }
{
    let mark = AnnotationKind::Primary
        .span(4..5)
        .label(OptionCow::from("here"));
    let snippet = Snippet::source(alloc, "let x = 1;").annotation(mark)?;
    titled(alloc, "unused", snippet)
}

/// A line with two labels: `annotations`.
fn two_marks(alloc: Global) -> Result<Snippet<'static, Annotation<'static>>, AllocError>
    ensures fits { IfOk result (SnippetFits AnnotationFits) }
{
    let context = AnnotationKind::Context
        .span(0..2)
        .label(OptionCow::from("a"));
    let primary = AnnotationKind::Primary
        .span(3..5)
        .label(OptionCow::from("c"));
    Snippet::source(alloc, "ab cd").annotations([context, primary])
}

/// Two labels.
fn two_labels(alloc: Global) -> Result<Group<'static>, AllocError>
    ensures fits { IfOk result GroupFits }
{
    let snippet = two_marks(alloc)?;
    titled(alloc, "e", snippet)
}

/// A line that is longer than the width that it is drawn in.
fn cut_line(alloc: Global) -> Result<Group<'static>, AllocError>
    ensures fits { IfOk result GroupFits }
{
    let source = "aaaaaaaaaaaaaaaaaaaaaaaaaaaaaaTaaaaaaaaaaaaaaaaaaaaaaaaaaaaa";
    marked(alloc, source, 30, 31, 1)
}

/// A snippet and a note: `elements` of a title.
fn note_below(alloc: Global) -> Result<Group<'static>, AllocError>
    ensures fits { IfOk result GroupFits }
{
    let mark = AnnotationKind::Primary.span(0..1);
    let snippet = Snippet::source(alloc, "ab").annotation(mark)?;
    let note = NOTE.message("m");
    ERROR
        .primary_title("e")
        .elements(alloc, [Element::from(snippet), Element::from(note)])
}

/// An origin: `elements` of a group.
fn origin(alloc: Global) -> Result<Group<'static>, AllocError>
    ensures fits { IfOk result GroupFits }
{
    let place = Origin::path("$DIR/mismatched-types.rs");
    let title = ERROR.primary_title("mismatched types").id("E0308");
    Group::with_title(alloc, title).elements([Element::from(place)])
}

/// An offer to put something between the brackets: `patch`.
fn offer(
    alloc: Global,
    replacement: &'static str,
) -> Result<Snippet<'static, Patch<'static>>, AllocError>
    requires replacement { TextFits replacement.now }
    ensures fits { IfOk result (SnippetFits PatchFits) }
{
    Snippet::source(alloc, "foo()").patch(Patch::new(4..4, replacement))
}

/// A group with an offer below its elements: `element` of a group.
fn with_offer(
    group: Group<'static>,
    alloc: Global,
    replacement: &'static str,
) -> Result<Group<'static>, AllocError>
    requires group { GroupFits group }
    requires replacement { TextFits replacement.now }
    ensures fits { IfOk result GroupFits }
{
    let snippet = offer(alloc, replacement)?;
    group.element(Element::from(snippet))
}

/// Two suggestions.
fn two_offers(alloc: Global) -> Result<Group<'static>, AllocError>
    ensures fits { IfOk result GroupFits }
{
    let empty = Group::with_title(alloc, HELP.secondary_title("t"));
    let group = with_offer(empty, alloc, "x")?;
    with_offer(group, alloc, "y")
}

/// An insertion and a deletion: `patches`.
fn both_patches(alloc: Global) -> Result<Snippet<'static, Patch<'static>>, AllocError>
    ensures fits { IfOk result (SnippetFits PatchFits) }
{
    let patches = [Patch::new(0..0, "x"), Patch::new(2..3, "")];
    Snippet::source(alloc, "a\nbc").patches(patches)
}

/// An insertion and a deletion.
fn two_patches(alloc: Global) -> Result<Group<'static>, AllocError>
    ensures fits { IfOk result GroupFits }
{
    let snippet = both_patches(alloc)?;
    offered(alloc, snippet)
}

/// A title whose level has no name, with an id that has neither text nor address.
fn unset(alloc: Global) -> Group<'static>
    ensures fits { GroupFits result }
{
    let (id, url) = (None, None);
    let title = Title {
        id: Some(Id { id, url }),
        ..ERROR.no_name().primary_title("e")
    };
    Group::with_title(alloc, title)
}

/// A wide title, and a span in the middle of three lines whose label has two.
fn set(alloc: Global) -> Result<Group<'static>, AllocError>
    ensures fits { IfOk result GroupFits }
{
    let mark = AnnotationKind::Primary
        .span(2..3)
        .label(OptionCow::from("x\ny\u{85}"));
    let snippet = Snippet::source(alloc, "a\nb\nc\u{200f}").annotation(mark)?;
    titled(alloc, "a wide title", snippet)
}

/// Builds a report.
fn build(alloc: Global, subject: Subject) -> Result<Group<'static>, AllocError>
    ensures fits { IfOk result GroupFits }
{
    match subject {
        Subject::Labelled => labelled(alloc),
        Subject::TwoLabels => two_labels(alloc),
        Subject::SeveralLines => marked(alloc, "a {\n b\n}", 0, 8, 1),
        Subject::CutLine => cut_line(alloc),
        Subject::NoteBelow => note_below(alloc),
        Subject::Origin => origin(alloc),
        Subject::TwoOffers => two_offers(alloc),
        Subject::TwoPatches => two_patches(alloc),
        Subject::Unset => Ok(unset(alloc)),
        Subject::Set => set(alloc),
        Subject::PastEnd => marked(alloc, "ab", 3, 4, 1),
        Subject::Reversed => marked(alloc, "let x", 2, 1, 1),
        Subject::OffBorder => marked(alloc, "é", 1, 2, 1),
        Subject::TooLarge => marked(alloc, "a", 0, 1, usize::MAX),
        Subject::Overlapping => overlapping(alloc),
    }
}

/// Builds a report, once more where that is out of memory.
pub fn built(alloc: Global, subject: Subject) -> Result<Group<'static>, AllocError>
    ensures fits { IfOk result GroupFits }
{
    if let Ok(group) = build(alloc, subject) {
        return Ok(group);
    }
    build(alloc, subject)
}
