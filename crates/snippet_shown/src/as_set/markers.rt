//! Markers as they are set.
ghost use Rattle.std.specs.Prelude.{IfOk};
ghost use Rattle.std.specs.List.{AllZip};
ghost use Rattle.snippet_model.specs.Same.{SamePatch};
ghost use Rattle.snippet_shown.specs.AsSet.{IsAnnotationAsSet};

use crate::as_set::texts::{lent, option_as_set};
use snippet_model::snippet::{Annotation, Patch};
use std::alloc::{AllocError, Global};

/// An annotation as it is set.
fn annotation_as_set<'a>(
    alloc: Global,
    feeds: bool,
    annotation: &'a Annotation<'a>,
) -> Result<Annotation<'a>, AllocError>
    ensures set { IfOk result (IsAnnotationAsSet feeds annotation.now) }
{
    Ok(Annotation {
        span: annotation.span.start..annotation.span.end,
        label: option_as_set(alloc, feeds, &annotation.label)?,
        kind: annotation.kind,
        highlight_source: annotation.highlight_source,
    })
}

/// Annotations as they are set, in order.
pub fn annotations_as_set<'a>(
    alloc: Global,
    feeds: bool,
    annotations: &'a [Annotation<'a>],
) -> Result<Vec<Annotation<'a>>, AllocError>
    ensures set { IfOk result (λ set. AllZip (IsAnnotationAsSet feeds) annotations.now set.items) }
{
    let mut set = Vec::new(alloc);
    for annotation in annotations {
        set.push(annotation_as_set(alloc, feeds, annotation)?)?;
    }
    Ok(set)
}

/// This patch, its text lent.
fn patch_lent<'a>(patch: &'a Patch<'a>) -> Patch<'a>
    ensures same { SamePatch patch.now result }
{
    Patch {
        span: patch.span.start..patch.span.end,
        replacement: lent(&patch.replacement),
    }
}

/// These patches, their texts lent, in order.
pub fn patches_lent<'a>(
    alloc: Global,
    patches: &'a [Patch<'a>],
) -> Result<Vec<Patch<'a>>, AllocError>
    ensures same { IfOk result (λ same. AllZip SamePatch patches.now same.items) }
{
    let mut same = Vec::new(alloc);
    for patch in patches {
        same.push(patch_lent(patch))?;
    }
    Ok(same)
}
