//! The part of a text between two places that may not be places of it.
ghost use Rattle.std.specs.Prelude.{◌≡◌, ℕ, ◌<◌, ◌≤◌, length};
ghost use Rattle.std.specs.Str.{IsCharBoundary};
ghost use Rattle.snippet_lines.specs.Places as spec;
ghost use Rattle.snippet_lines.specs.Places.{IsSpanBetween};

use std::ops::Range;

/// A byte of a text, and whether it is the place that was asked for.
#[derive(Clone, Copy)]
pub struct Place {
    pub byte: usize,
    pub exact: bool,
}

/// A span of a source, between characters, and whether the source doesn't hold what was asked for.
#[derive(Clone, Debug, Drop, PartialEq, Eq)]
pub struct SpanAt {
    /// The bytes.
    pub span: Range<usize>,
    /// Whether a place isn't in the source, or they are in the wrong order, so that this is what comes closest.
    pub clamped: bool,
}

/// The part of a text between two places: from a border of characters to another, not before it.
pub fn between(text: &str, from: Place, to: Place) -> SpanAt
    // It starts at the last border at or before the one place, and ends at the last at or before the other, or at its
    // start where that is later.
    ensures value { result ≡ spec.clamped_between text.now from to }

    // So where the text holds both places, in that order, it goes from the one to the other.
    ensures located { IsSpanBetween text.now from to result }
{
    let start = border_before(text, from.byte);
    let end = border_before(text, to.byte).max(start);
    let exact = from.exact && to.exact && start == from.byte && end == to.byte;
    SpanAt {
        span: start..end,
        clamped: !exact,
    }
}

/// The last border of characters at this byte or before it.
fn border_before(text: &str, byte: usize) -> usize
    ensures value { result ≡ spec.border_before text.now byte }
    ensures border { IsCharBoundary text.now result }
    ensures before { result ≤ byte }
    ensures none { (k : ℕ) → result < k → k ≤ byte → k ≤ length text.now → IsCharBoundary text.now k → ⊥ }
{
    let mut at = byte.min(text.len());
    while !text.is_char_boundary(at) {
        at -= 1;
    }
    at
}
