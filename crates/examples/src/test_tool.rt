//! A test tool: the two sides of a failed assertion, for a terminal or, in one line, for an editor.
ghost use Rattle.std.specs.Prelude.{IfOk};
ghost use Rattle.annotate_snippets.specs.Fits.{AnnotationFits, GroupFits, SnippetFits, TextFits};

use annotate_snippets::level::ERROR;
use annotate_snippets::renderer::RenderError;
use annotate_snippets::{Annotation, AnnotationKind, Group, Renderer, Snippet};
use std::alloc::{AllocError, Global};
use std::ops::Range;

/// What the receipt should be.
const EXPECTED: &str = "apples  3\ntotal  12\n";
/// What it is.
const FOUND: &str = "apples  3\ntotal  13\n";

/// One side: a file's text, with a label at the bytes where it differs from the other.
fn side(
    alloc: Global,
    path: &'static str,
    text: &'static str,
    differs: Range<usize>,
    label: &'static str,
) -> Result<Snippet<'static, Annotation<'static>>, AllocError>
    requires path { TextFits path.now }
    requires text { TextFits text.now }
    requires label { TextFits label.now }
    ensures fits { IfOk result (SnippetFits AnnotationFits) }
{
    let mark = AnnotationKind::Primary.span(differs).label_str(label);
    Snippet::source(alloc, text).path_str(path).annotation(mark)
}

/// Both sides, one below the other.
fn difference(alloc: Global) -> Result<Group<'static>, AllocError>
    ensures fits { IfOk result GroupFits }
{
    let label = "expected `12`, found `13`";
    let expected = side(alloc, "tests/receipt.txt", EXPECTED, 17..19, label)?;
    let found = side(alloc, "out/receipt.txt", FOUND, 17..19, "found here")?;
    ERROR
        .primary_title("the receipts differ")
        .snippet(alloc, expected)?
        .snippet(found)
}

/// The report of an assertion that failed, in the form that the renderer is set to. With `short_message(true)` it is
/// one line, which begins with a place that editors jump to, and which tells of the first side alone.
pub fn failure(alloc: Global, renderer: &Renderer) -> Result<String, RenderError> {
    let group: Group<'static> = difference(alloc)?;
    renderer.render(alloc, &[group])
}
