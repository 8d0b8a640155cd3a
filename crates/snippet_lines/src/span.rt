//! Spans of a source, and what is wrong with those that are refused.
ghost use Rattle.std.specs.Prelude.{◌≡◌, ◌↔◌, IsNone};
ghost use Rattle.snippet_lines.specs.Span.{is_span_border, span_fault};
ghost use Rattle.snippet_lines.specs.IsSpan.{IsSpan};

use std::ops::Range;

/// Why a span is refused.
#[derive(Clone, Copy, Debug, PartialEq, Eq)]
pub enum SpanFault {
    /// It starts after its end.
    Reversed,
    /// It ends more than one byte after the source.
    PastEnd,
    /// It starts or ends inside a character.
    OffBoundary,
}

/// The first fault of a span of bytes, if it has one: it starts after its end, it ends more than one byte after the
/// source, or a character lies across its start or its end.
///
/// A span may end, and start, one byte after the source. Of `é`, two bytes, 0..2 and 3..3 have no fault, 2..1 is
/// `Reversed`, 0..4 `PastEnd` and 1..2 `OffBoundary`.
#[inline(always)]
#[tactic(auto, unfolding(crate::specs::Span::span_fault))]
pub fn check_span(source: &str, span: &Range<usize>) -> Option<SpanFault>
    ensures value { result ≡ span_fault source.now span.now.start span.now.end }
    ensures none { IsNone result ↔ IsSpan source.now span.now.start span.now.end }
{
    if span.start > span.end {
        Some(SpanFault::Reversed)
    } else if span.end > source.len() + 1 {
        Some(SpanFault::PastEnd)
    } else if is_border(source, span.start) && is_border(source, span.end) {
        None
    } else {
        Some(SpanFault::OffBoundary)
    }
}

/// Whether a span may start or end at a byte.
#[inline(always)]
fn is_border(source: &str, byte: usize) -> bool
    ensures value { result ≡ is_span_border source.now byte }
{
    source.is_char_boundary(byte) || byte == source.len() + 1
}
