//! The span that a refusal is about, as numbers.

use annotate_snippets::renderer::RenderError;
use annotate_snippets::{Element, Group};
use std::alloc::{AllocError, Global};

/// What is told of the span that a refusal of these groups is about: its bytes, and the length of its source. It is
/// empty where the refusal is about no span, or about several.
pub fn span_of(
    alloc: Global,
    refusal: &RenderError,
    groups: &[Group<'_>],
) -> Result<String, AllocError> {
    let marked = match *refusal {
        RenderError::SpanReversed {
            group,
            element,
            marker,
        }
        | RenderError::SpanPastEnd {
            group,
            element,
            marker,
        }
        | RenderError::SpanOffBoundary {
            group,
            element,
            marker,
        } => marked_at(groups, group, element, marker),
        _ => None,
    };
    match marked {
        Some((start, end, length)) => {
            format!(in alloc; " ({start}..{end}, in a source of {length} bytes)")
        }
        None => Ok(String::new(alloc)),
    }
}

/// Where the span of a marker starts and ends, and the length of its source.
fn marked_at(
    groups: &[Group<'_>],
    group: usize,
    element: usize,
    marker: usize,
) -> Option<(usize, usize, usize)> {
    match groups.get(group)?.elements.get(element)? {
        Element::Cause(snippet) => {
            let span = &snippet.markers.get(marker)?.span;
            Some((span.start, span.end, snippet.source.as_str().len()))
        }
        Element::Suggestion(snippet) => {
            let span = &snippet.markers.get(marker)?.span;
            Some((span.start, span.end, snippet.source.as_str().len()))
        }
        _ => None,
    }
}
