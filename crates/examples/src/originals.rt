//! Reports after the four examples of annotate-snippets, by the same calls: what stands otherwise is `alloc`, `?`, and
//! the calls that spare a conversion.

use annotate_snippets::level::{ERROR, NOTE};
use annotate_snippets::renderer::RenderError;
use annotate_snippets::{AnnotationKind, Group, Renderer, Snippet};
use std::alloc::Global;

/// Part of a vector of annotations, whose range isn't Rust.
const RANGE: &str = "                annotations: vec![SourceAnnotation {
                label: \"expected struct `annotate_snippets::snippet::Slice`, found reference\"
                    ,
                range: <22, 25>,";

/// A line of a snippet's slices.
const SLICES: &str = "        slices: vec![\"A\",";

/// A function that returns nothing at its end.
const FORMAT: &str = ") -> Option<String> {
    for ann in annotations {
        match (ann.range.0, ann.range.1) {
            (None, None) => continue,
            (Some(start), Some(end)) if start > end_index => continue,
            (Some(start), Some(end)) if start >= start_index => {
                let label = if let Some(ref label) = ann.label {
                    format!(\" {}\", label)
                } else {
                    String::from(\"\")
                };

                return Some(format!(
                    \"{}{}{}\",
                    \" \".repeat(start - start_index),
                    \"^\".repeat(end - start),
                    label
                ));
            }
            _ => continue,
        }
    }
";

/// What is said of a reference in place of a struct.
const FOUND_REFERENCE: &str =
    "expected struct `annotate_snippets::snippet::Slice`, found reference";

/// After its example `expected_type`: two marks, with lines between them that are left out.
pub fn expected_type(alloc: Global) -> Result<String, RenderError> {
    let found = AnnotationKind::Primary
        .span(193..195)
        .label_str(FOUND_REFERENCE);
    let parsed = AnnotationKind::Context
        .span(34..50)
        .label_str("while parsing this struct");
    let snippet = Snippet::source(alloc, RANGE)
        .line_start(26)
        .path_str("examples/footer.rs")
        .annotation(found)?
        .annotation(parsed)?;
    let group: Group<'static> = ERROR
        .primary_title("expected type, found `22`")
        .snippet(alloc, snippet)?;
    Renderer::plain().render(alloc, &[group])
}

/// After its example `footer`: a message of two lines below the snippet.
pub fn footer(alloc: Global) -> Result<String, RenderError> {
    let found = AnnotationKind::Primary
        .span(21..24)
        .label_str(FOUND_REFERENCE);
    let snippet = Snippet::source(alloc, SLICES)
        .line_start(13)
        .path_str("src/multislice.rs")
        .annotation(found)?;
    let types = "expected type: `snippet::Annotation`\n   found type: `__&__snippet::Annotation`";
    let group: Group<'static> = ERROR
        .primary_title("mismatched types")
        .id("E0308")
        .snippet(alloc, snippet)?
        .message(NOTE.message(types))?;
    Renderer::plain().render(alloc, &[group])
}

/// After its example `format`: a span of many lines, of which most are left out.
pub fn format(alloc: Global) -> Result<String, RenderError> {
    let wanted = AnnotationKind::Context
        .span(5..19)
        .label_str("expected `Option<String>` because of return type");
    let given = AnnotationKind::Primary
        .span(26..725)
        .label_str("expected enum `std::option::Option`");
    let snippet = Snippet::source(alloc, FORMAT)
        .line_start(51)
        .path_str("src/format.rs")
        .annotation(wanted)?
        .annotation(given)?;
    let group: Group<'static> = ERROR
        .primary_title("mismatched types")
        .id("E0308")
        .snippet(alloc, snippet)?;
    Renderer::plain().render(alloc, &[group])
}

/// After its example `multislice`: parts of two files, without a mark.
pub fn multislice(alloc: Global) -> Result<String, RenderError> {
    let format = Snippet::source(alloc, "Foo")
        .line_start(51)
        .fold(false)
        .path_str("src/format.rs");
    let display = Snippet::source(alloc, "Faa")
        .line_start(129)
        .fold(false)
        .path_str("src/display.rs");
    let group: Group<'static> = ERROR
        .primary_title("mismatched types")
        .snippet(alloc, format)?
        .snippet(display)?;
    Renderer::plain().render(alloc, &[group])
}
