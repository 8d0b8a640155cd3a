//! A service that draws what strangers send: whether their texts fit is asked first, and each refusal has its answer.
use annotate_snippets::level::ERROR;
use annotate_snippets::renderer::RenderError;
use annotate_snippets::snippet::report_fits;
use annotate_snippets::{AnnotationKind, Group, Renderer, Snippet};
use std::alloc::{AllocError, Global};

/// What a stranger sent: a source, and the bytes of it to be marked, from `start` to before `end`. Any of it may be
/// wrong.
#[derive(Clone, Copy, Debug)]
pub struct Request<'a> {
    pub source: &'a str,
    pub start: usize,
    pub end: usize,
    pub label: &'a str,
}

/// What the stranger is told where a growth of memory is refused.
const OUT_OF_MEMORY: &str = "out of memory: try again later";

/// What the stranger is told of each refusal.
fn reason(refusal: RenderError) -> &'static str {
    match refusal {
        RenderError::SpanReversed { .. } => "`start` is greater than `end`",
        RenderError::SpanPastEnd { .. } => "`end` is past the source",
        RenderError::SpanOffBoundary { .. } => "`start` or `end` is inside a character",
        RenderError::Memory(_) => OUT_OF_MEMORY,
        // The rest is the service's own fault: it sets the first line's number, sends no patches, and gives a title.
        _ => "the service is broken",
    }
}

/// What is to be drawn of a request.
fn group<'a>(alloc: Global, request: &Request<'a>) -> Result<Group<'a>, AllocError> {
    let mark = AnnotationKind::Primary.span(request.start..request.end);
    let snippet = Snippet::source(alloc, request.source).annotation(mark.label_str(request.label))?;
    ERROR
        .primary_title("a stranger says")
        .snippet(alloc, snippet)
}

/// The report of a request, whatever it holds, or why there is none. A control character in its texts is drawn as a
/// picture of itself, and so reaches no terminal; also a line feed of the label, after which a text could look like a
/// row of the report.
pub fn answer<'a>(alloc: Global, request: &Request<'a>) -> Result<String, &'static str> {
    let groups: [Group<'a>; 1] = [group(alloc, request).map_err(|_| OUT_OF_MEMORY)?];
    // The one thing that `render` asks of its caller: each text has fewer than 2^56 bytes.
    if !report_fits(&groups) {
        return Err("a text is too long");
    }
    Renderer::plain()
        .show_line_feeds(true)
        .render(alloc, &groups)
        .map_err(reason)
}
