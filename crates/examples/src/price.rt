//! The report whose parts are named at the head of `annotate_snippets`, and in `docs/ANATOMY.md`: an error with a span
//! of several lines and a note, and a suggested edit.
ghost use Rattle.std.specs.Prelude.{IfOk};
ghost use Rattle.annotate_snippets.specs.Fits.{AnnotationFits, GroupFits, SnippetFits};

use annotate_snippets::level::{ERROR, HELP, NOTE};
use annotate_snippets::renderer::RenderError;
use annotate_snippets::{Annotation, AnnotationKind, Group, Patch, Renderer, Snippet};
use std::alloc::{AllocError, Global};

/// The file that is compiled.
const SOURCE: &str = "fn total(prices: &[u32]) -> u32 {
    let sum: u32 = prices
        .iter()
        .sum();
    // in cents,
    // not in
    // euros
    sum as u64
}
";

/// The file's text with its two marks.
fn marked(alloc: Global) -> Result<Snippet<'static, Annotation<'static>>, AllocError>
    ensures fits { IfOk result (SnippetFits AnnotationFits) }
{
    let cast = AnnotationKind::Primary
        .span(140..150)
        .label_str("expected `u32`, found `u64`");
    let sum = AnnotationKind::Context
        .span(53..90)
        .label_str("this is a `u32`");
    Snippet::source(alloc, SOURCE)
        .path_str("src/price.rs")
        .annotation(cast)?
        .annotation(sum)
}

/// The error with its note.
fn error(alloc: Global) -> Result<Group<'static>, AllocError>
    ensures fits { IfOk result GroupFits }
{
    let snippet = marked(alloc)?;
    ERROR
        .primary_title("mismatched types")
        .id("E0308")
        .snippet(alloc, snippet)?
        .message(NOTE.message("`total` answers a `u32`"))
}

/// How it is mended.
fn help(alloc: Global) -> Result<Group<'static>, AllocError>
    ensures fits { IfOk result GroupFits }
{
    let edited = Snippet::source(alloc, SOURCE)
        .path_str("src/price.rs")
        .patch(Patch::new(143..150, ""))?;
    HELP.secondary_title("leave the cast out")
        .suggestion(alloc, edited)
}

/// The report.
pub fn mismatched_price(alloc: Global) -> Result<String, RenderError> {
    let error: Group<'static> = error(alloc)?;
    let help: Group<'static> = help(alloc)?;
    Renderer::plain().render(alloc, &[error, help])
}
