//! How snippets and their markers are read.

ghost use Rattle.std.specs.Prelude.{◌≡◌, IfOk, Some, length};
ghost use Rattle.std.specs.Cow.{cow_str_bytes};
ghost use Rattle.snippet_model.specs.Fits.{AnnotationFits, PatchFits, SnippetFits, TextFits};
ghost use Rattle.report_bytes.specs.Bytes.{IsNumberOf, annotation_then, number_then, patch_then, snippet_then};
ghost use Rattle.report_bytes.specs.Bytes.{source_then, span_then};
ghost use Rattle.report_bytes.specs.Reading.{Gives, after_annotation, after_kept, after_patch, after_snippet};
ghost use Rattle.report_bytes.specs.Reading.{after_source, after_span};

use crate::fault::{ReadError, Wrong};
use crate::field::{flag, kind, number, text};
use crate::kept::KeptSource;
use crate::kind::mark;
use crate::part::{FromBytes, list, option};
use snippet_model::{Annotation, Patch, Snippet, SourceText};
use std::alloc::Global;
use std::ops::Range;

/// A snippet that was read, and the number of its source, if it had one in place of a text.
#[derive(Drop)]
pub struct ReadSnippet<'v, T> {
    pub snippet: Snippet<'v, T>,
    pub number: Option<usize>,
}

/// The snippet at the front.
#[tactic(auto, unfolding(crate::specs::Reading::after_snippet))]
pub fn snippet<'v, 's, T: FromBytes<'v> + Drop>(
    alloc: Global,
    kept: &'v [KeptSource<'s>],
    bytes: &'v [u8],
) -> Result<(ReadSnippet<'v, T>, &'v [u8]), ReadError>
    ensures left { Gives (λ x. x.1.now) result (after_snippet T.after (length kept.now) bytes.now) }
    ensures spelled { IfOk result (λ x. bytes.now ≡ snippet_then T.part_then x.0.number x.0.snippet x.1.now) }
    ensures number { IfOk result (λ x. IsNumberOf kept.now (cow_str_bytes x.0.snippet.source.text) x.0.number) }
    ensures fits { IfOk result (λ x. SnippetFits T.fits x.0.snippet) }
{
    let (path, rest) = option(alloc, bytes)?;
    let (line_start, rest) = number(rest)?;
    let (source, number, rest) = source(kept, rest)?;
    let (markers, rest) = list(alloc, rest)?;
    let (line_numbering, rest) = flag(rest)?;
    let (fold, rest) = flag(rest)?;
    let snippet = Snippet {
        path,
        line_start,
        source,
        markers,
        line_numbering,
        fold,
    };
    Ok((ReadSnippet { snippet, number }, rest))
}

/// The source at the front, and its number, if it has one in place of a text.
#[tactic(auto, unfolding(crate::specs::Reading::after_source))]
fn source<'v, 's>(
    kept: &'v [KeptSource<'s>],
    bytes: &'v [u8],
) -> Result<(SourceText<'v>, Option<usize>, &'v [u8]), ReadError>
    ensures left { Gives (λ x. x.2.now) result (after_source (length kept.now) bytes.now) }
    ensures spelled { IfOk result (λ x. bytes.now ≡ source_then x.1 x.0.text x.2.now) }
    ensures number { IfOk result (λ x. IsNumberOf kept.now (cow_str_bytes x.0.text) x.1) }
    ensures fits { IfOk result (λ x. TextFits (cow_str_bytes x.0.text)) }
{
    let (kind, rest) = kind(2, bytes)?;
    if kind == 0 {
        let (text, rest) = text(rest)?;
        Ok((SourceText::new(text), None, rest))
    } else {
        let (source, number, rest) = kept_source(kept, rest)?;
        Ok((SourceText::indexed(source.lines()), Some(number), rest))
    }
}

/// The kept source whose number is at the front, and that number.
fn kept_source<'v, 's>(
    kept: &'v [KeptSource<'s>],
    bytes: &'v [u8],
) -> Result<(&'v KeptSource<'s>, usize, &'v [u8]), ReadError>
    ensures left { Gives (λ x. x.2.now) result (after_kept (length kept.now) bytes.now) }
    ensures spelled { IfOk result (λ x. bytes.now ≡ number_then x.1 x.2.now) }
    ensures number { IfOk result (λ x. IsNumberOf kept.now x.0.now (Some x.1)) }
{
    let (number, rest) = number(bytes)?;
    if number < kept.len() {
        Ok((&kept[number], number, rest))
    } else {
        Err(ReadError::at(Wrong::Kind, bytes))
    }
}

impl<'v> FromBytes<'v> for Annotation<'v> {
    ghost part_then = { annotation_then };

    ghost after = { after_annotation };

    ghost fits = { AnnotationFits };

    #[tactic(auto, unfolding(crate::specs::Reading::after_annotation))]
    fn read(alloc: Global, bytes: &'v [u8]) -> Result<(Self, &'v [u8]), ReadError> {
        let (span, rest) = span(bytes)?;
        let (label, rest) = option(alloc, rest)?;
        let (number, rest) = kind(3, rest)?;
        let (highlight_source, rest) = flag(rest)?;
        let annotation = Annotation {
            span,
            label,
            kind: mark(number),
            highlight_source,
        };
        Ok((annotation, rest))
    }
}

impl<'v> FromBytes<'v> for Patch<'v> {
    ghost part_then = { patch_then };

    ghost after = { after_patch };

    ghost fits = { PatchFits };

    #[tactic(auto, unfolding(crate::specs::Reading::after_patch))]
    fn read(_alloc: Global, bytes: &'v [u8]) -> Result<(Self, &'v [u8]), ReadError> {
        let (span, rest) = span(bytes)?;
        let (replacement, rest) = text(rest)?;
        Ok((Patch { span, replacement }, rest))
    }
}

/// The span at the front.
#[tactic(auto, unfolding(crate::specs::Reading::after_span))]
fn span(bytes: &[u8]) -> Result<(Range<usize>, &[u8]), ReadError>
    ensures left { Gives (λ x. x.1.now) result (after_span bytes.now) }
    ensures spelled { IfOk result (λ x. bytes.now ≡ span_then x.0 x.1.now) }
{
    let (start, rest) = number(bytes)?;
    let (end, rest) = number(rest)?;
    Ok((start..end, rest))
}
