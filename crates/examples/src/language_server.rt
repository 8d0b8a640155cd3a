//! A language server: the lines of a file that is open are found once, and each report over it is drawn with those.
ghost use Rattle.annotate_snippets.specs.Fits.{TextFits};

use annotate_snippets::level::WARNING;
use annotate_snippets::renderer::RenderError;
use annotate_snippets::text::text_fits;
use annotate_snippets::{AnnotationKind, Group, Renderer, Snippet, SourceLines};
use std::alloc::{AllocError, Global};
use std::ops::Range;

/// The report of a name that nothing reads: these bytes of a file.
fn unused<'a>(
    alloc: Global,
    file: &'a SourceLines<'_>,
    name: Range<usize>,
) -> Result<String, RenderError>
    requires fits { TextFits file.now }
{
    let mark = AnnotationKind::Primary.span(name).label_str("never read");
    let snippet = Snippet::indexed(alloc, file)
        .path_str("src/main.rs")
        .annotation(mark)?;
    let group: Group<'a> = WARNING
        .primary_title("unused variable")
        .snippet(alloc, snippet)?;
    Renderer::plain().render(alloc, &[group])
}

/// The reports of the names at these places of a file, in order; none of a file that is too long to be drawn. The
/// file's lines are found before the first of them.
fn reports(alloc: Global, text: &str, names: &[Range<usize>]) -> Result<Vec<String>, RenderError> {
    let file = SourceLines::new(alloc, text)?;
    let mut reports = Vec::new(alloc);
    if !text_fits(text) {
        return Ok(reports);
    }
    for name in names {
        let report = unused(alloc, &file, name.start..name.end)?;
        reports.push(report).map_err(|_| AllocError)?;
    }
    Ok(reports)
}

/// A line of the file, with a name that nothing reads.
const LINE: &str = "let x = 1;\n";

/// The names of so many such lines.
fn names(alloc: Global, lines: usize) -> Result<Vec<Range<usize>>, AllocError> {
    let mut names = Vec::new(alloc);
    let mut start = 4usize;
    for _ in 0..lines {
        names.push(start..start.saturating_add(1))?;
        start = start.saturating_add(LINE.len());
    }
    Ok(names)
}

/// A hundred reports over one file.
pub fn hundred(alloc: Global) -> Result<Vec<String>, RenderError> {
    let text = LINE.repeat(alloc, 100)?;
    let names = names(alloc, 100)?;
    reports(alloc, text.as_str(), &names)
}
