//! A compiler: a type error with two labels and a note.
ghost use Rattle.std.specs.Prelude.{IfOk};
ghost use Rattle.annotate_snippets.specs.Fits.{AnnotationFits, GroupFits, SnippetFits};

use annotate_snippets::level::{ERROR, NOTE};
use annotate_snippets::renderer::RenderError;
use annotate_snippets::{Annotation, AnnotationKind, Group, Renderer, Snippet};
use std::alloc::{AllocError, Global};

/// The file that is compiled.
const SOURCE: &str = "fn total(prices: &[u32]) -> u64 {\n    prices.iter().sum::<u32>()\n}\n";

/// The file's text with its two marks. A span counts bytes, as most parsers do.
///
/// The clause tells the check of `mismatch` that each text is short enough to be drawn: each function is proved by
/// itself, and knows of another what that one's clauses say.
fn marked(alloc: Global) -> Result<Snippet<'static, Annotation<'static>>, AllocError>
    ensures fits { IfOk result (SnippetFits AnnotationFits) }
{
    // What is wrong is primary: its place stands at the top, and its mark is in the error's colour. What explains it is
    // context.
    let found = AnnotationKind::Primary
        .span(38..64)
        .label_str("expected `u64`, found `u32`");
    let wanted = AnnotationKind::Context
        .span(28..31)
        .label_str("expected `u64` because of this");
    Snippet::source(alloc, SOURCE)
        .path_str("src/total.rs")
        .annotation(found)?
        .annotation(wanted)
}

/// The error with its note.
fn mismatch(alloc: Global) -> Result<Group<'static>, AllocError>
    ensures fits { IfOk result GroupFits }
{
    let snippet = marked(alloc)?;
    let note = NOTE.message("`u64::from` makes a `u64` of a `u32`");
    ERROR
        .primary_title("mismatched types")
        .id("E0308")
        .snippet(alloc, snippet)?
        .message(note)
}

/// The report of the error. `Renderer::styled()` draws it in colour.
pub fn mismatched_types(alloc: Global) -> Result<String, RenderError> {
    let group: Group<'static> = mismatch(alloc)?;
    Renderer::plain().render(alloc, &[group])
}
