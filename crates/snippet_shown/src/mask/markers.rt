//! Markers whose texts are masked.
ghost use Rattle.std.specs.Prelude.{IfOk};
ghost use Rattle.std.specs.List.{AllZip};
ghost use Rattle.snippet_shown.specs.AsMasked.{IsAnnotationMasked, IsPatchMasked};

use crate::mask::text::{option_masked, text_masked};
use snippet_model::snippet::{Annotation, Patch};
use std::alloc::{AllocError, Global};

/// An annotation, masked.
fn annotation_masked<'a>(
    alloc: Global,
    annotation: Annotation<'a>,
) -> Result<Annotation<'a>, AllocError>
    ensures masked { IfOk result (IsAnnotationMasked annotation.entry) }
{
    Ok(Annotation {
        span: annotation.span,
        label: option_masked(alloc, annotation.label)?,
        kind: annotation.kind,
        highlight_source: annotation.highlight_source,
    })
}

/// Annotations, masked, in order.
pub fn annotations_masked<'a>(
    alloc: Global,
    annotations: Vec<Annotation<'a>>,
) -> Result<Vec<Annotation<'a>>, AllocError>
    ensures masked { IfOk result (λ masked. AllZip IsAnnotationMasked annotations.entry.items masked.items) }
{
    let mut masked = Vec::new(alloc);
    for annotation in annotations {
        masked.push(annotation_masked(alloc, annotation)?)?;
    }
    Ok(masked)
}

/// Patches, what they put in masked, in order.
pub fn patches_masked<'a>(
    alloc: Global,
    patches: Vec<Patch<'a>>,
) -> Result<Vec<Patch<'a>>, AllocError>
    ensures masked { IfOk result (λ masked. AllZip IsPatchMasked patches.entry.items masked.items) }
{
    let mut masked = Vec::new(alloc);
    for patch in patches {
        masked.push(patch_masked(alloc, patch)?)?;
    }
    Ok(masked)
}

/// A patch, what it puts in masked.
fn patch_masked<'a>(alloc: Global, patch: Patch<'a>) -> Result<Patch<'a>, AllocError>
    ensures masked { IfOk result (IsPatchMasked patch.entry) }
{
    Ok(Patch {
        span: patch.span,
        replacement: text_masked(alloc, patch.replacement)?,
    })
}
