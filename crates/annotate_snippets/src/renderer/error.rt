//! Why a report is refused.

ghost use Rattle.std.specs.Prelude.{◌≡◌};

use crate::renderer::words::RefusalWords;
use std::alloc::AllocError;
use thiserror::Error;

/// Why a report gives no text.
///
/// Groups, elements and markers are numbered from 0; a marker is an annotation or a patch. Of several faults the first
/// is named: groups, elements and markers in order, then an element's patches that overlap, then its line numbers.
#[derive(Debug, Drop, Error)]
pub enum RenderError {
    /// The short form was asked for, and the report is empty.
    #[error("a short message needs a group")]
    NoGroup,
    /// The short form was asked for, and the first group has no title.
    #[error("a short message needs a title")]
    NoTitle,
    /// A span starts after its end.
    #[error("group {group}, element {element}, marker {marker}: span is reversed")]
    SpanReversed {
        group: usize,
        element: usize,
        marker: usize,
    },
    /// A span ends more than one byte after the source.
    #[error("group {group}, element {element}, marker {marker}: span ends past the source")]
    SpanPastEnd {
        group: usize,
        element: usize,
        marker: usize,
    },
    /// A span starts or ends inside a character.
    #[error("group {group}, element {element}, marker {marker}: span is off a character border")]
    SpanOffBoundary {
        group: usize,
        element: usize,
        marker: usize,
    },
    /// Two patches of a snippet overlap: in the order by start, then end, else as given, the one ends after the start
    /// of the other. Of several such pairs it is the one with the least first number, then the least second.
    #[error("group {group}, element {element}: markers {first} and {second} overlap")]
    PatchesOverlap {
        group: usize,
        element: usize,
        first: usize,
        second: usize,
    },
    /// The number after that of a snippet's last line doesn't fit in a `usize`.
    #[error("group {group}, element {element}: line numbers are too large")]
    LineNumberTooLarge {
        group: usize,
        element: usize,
    },
    /// A growth of memory was refused.
    #[error("out of memory")]
    Memory(AllocError),
}

impl RenderError {
    /// What it prints, as a value that has a promise, character for character. `Display` prints the same, and has none.
    pub fn words(&self) -> RefusalWords<'_>
        ensures words { result.refusal.now ≡ self.now }
    {
        RefusalWords::of(self)
    }
}

/// So that `?` takes up a refused growth of memory: it is [`RenderError::Memory`].
impl From<AllocError> for RenderError {
    ghost use Rattle.annotate_snippets.specs.declared.renderer.error.RenderError.{RenderError};

    ghost from_gives = { λ error refusal. refusal ≡ RenderError.Memory error };

    fn from(error: AllocError) -> RenderError {
        RenderError::Memory(error)
    }
}
