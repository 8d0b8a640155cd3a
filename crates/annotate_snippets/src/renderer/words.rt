//! The words of refusals: what they print, as values whose `Display` promises each character.

ghost use Rattle.std.specs.Prelude.{◌≡◌, Some};
ghost use Rattle.annotate_snippets.specs.Refusal.{refusal_text, write_text};

use crate::renderer::error::RenderError;
use crate::renderer::to_writer::RenderToError;
use std::fmt;

/// The words of a [`RenderError`], which it borrows: one line, of where the fault is and what it is.
///
/// They take no memory, and nothing of the report stands in them.
#[derive(Clone, Copy)]
pub struct RefusalWords<'a> {
    refusal: &'a RenderError,
}

impl<'a> RefusalWords<'a> {
    /// The words of this refusal.
    pub(super) fn of(refusal: &'a RenderError) -> RefusalWords<'a>
        ensures { result.refusal.now ≡ refusal.now }
    {
        RefusalWords { refusal }
    }
}

impl fmt::Display for RefusalWords<'_> {
    ghost output = { λ words. Some (refusal_text words.refusal.now) };

    fn fmt<W: fmt::Write>(&self, f: &mut fmt::Formatter<W>) -> fmt::Result {
        match self.refusal {
            RenderError::NoGroup => write!(f, "a short message needs a group"),
            RenderError::NoTitle => write!(f, "a short message needs a title"),
            RenderError::SpanReversed {
                group,
                element,
                marker,
            } => write!(
                f,
                "group {group}, element {element}, marker {marker}: span is reversed"
            ),
            RenderError::SpanPastEnd {
                group,
                element,
                marker,
            } => write!(
                f,
                "group {group}, element {element}, marker {marker}: span ends past the source"
            ),
            RenderError::SpanOffBoundary {
                group,
                element,
                marker,
            } => write!(
                f,
                "group {group}, element {element}, marker {marker}: span is off a character border"
            ),
            RenderError::PatchesOverlap {
                group,
                element,
                first,
                second,
            } => write!(
                f,
                "group {group}, element {element}: markers {first} and {second} overlap"
            ),
            RenderError::LineNumberTooLarge { group, element } => {
                write!(
                    f,
                    "group {group}, element {element}: line numbers are too large"
                )
            }
            RenderError::Memory(_) => write!(f, "out of memory"),
        }
    }
}

/// The words of a [`RenderToError`], which it borrows: those of the refusal, or that the report can't be written.
///
/// They take no memory. Why the writer failed isn't among them, since nothing is promised of how an `io::Error` prints:
/// `Display` of the [`RenderToError`] itself adds it, after a colon.
#[derive(Clone, Copy)]
pub struct RenderToWords<'a> {
    error: &'a RenderToError,
}

impl<'a> RenderToWords<'a> {
    /// The words of this error.
    pub(super) fn of(error: &'a RenderToError) -> RenderToWords<'a>
        ensures { result.error.now ≡ error.now }
    {
        RenderToWords { error }
    }
}

impl fmt::Display for RenderToWords<'_> {
    ghost output = { λ words. Some (write_text words.error.now) };

    fn fmt<W: fmt::Write>(&self, f: &mut fmt::Formatter<W>) -> fmt::Result {
        match self.error {
            RenderToError::Refused(refusal) => {
                let words = refusal.words();
                write!(f, "{words}")
            }
            RenderToError::Write(_) => write!(f, "the report can't be written"),
        }
    }
}
