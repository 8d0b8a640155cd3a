//! Patches trimmed to what they change, in order.
ghost use Rattle.std.specs.Prelude.{◌≡◌, map, All, IfOk};
ghost use Rattle.std.specs.Ordering.{nat_cmp, ordering_then};
ghost use Rattle.snippet_lines.specs.IsSpan.{IsSpan};
ghost use Rattle.snippet_splice.specs.Edits.{edit_of, trimmed_edit, trimmed_edits, in_order, edited_from, patched};
ghost use Rattle.snippet_splice.specs.TrimmedEdits.{trimmed_edit_of, edit_bounds, original_bounds_of, AreApart};

use crate::trim::as_substr;
use snippet_model::Patch;
use std::alloc::{AllocError, Global};
use std::cmp::Ordering;
use std::ops::Range;

/// A patch trimmed to what it changes.
///
/// Trimmed or not, patches give the same source. One with an empty replacement, one that reaches past the source's end,
/// and one that doesn't keep the original stay as they are.
#[derive(Clone, Debug, Drop)]
pub struct TrimmedPatch<'a> {
    /// The bytes of the source that the patch replaces, as it was given.
    pub original_span: Range<usize>,
    /// The bytes of the source that it changes.
    pub span: Range<usize>,
    /// What stands in their place.
    pub replacement: &'a str,
}

/// The patches trimmed to what they change, in the order of the untrimmed ones: by start, then end, else as given.
///
/// The one error is that memory ran out.
pub fn trimmed_patches<'a>(
    alloc: Global,
    source: &str,
    patches: &'a [Patch<'_>],
) -> Result<Vec<TrimmedPatch<'a>>, AllocError>
    requires spans { All (λ p. IsSpan source.now p.span.start p.span.end) patches.now }
    ensures edits { IfOk result
        (λ ts. map trimmed_edit_of ts.items ≡ trimmed_edits source.now (map edit_of patches.now)) }
    ensures originals { IfOk result (λ ts. map original_bounds_of ts.items
        ≡ map edit_bounds (in_order (map edit_of patches.now))) }
    ensures spans { IfOk result (λ ts. All (λ t. IsSpan source.now t.span.start t.span.end) ts.items) }
    ensures original_spans { IfOk result
        (λ ts. All (λ t. IsSpan source.now t.original_span.start t.original_span.end) ts.items) }
    // Applied as they stand they give the patched source.
    ensures law { AreApart 0 (in_order (map edit_of patches.now)) → IfOk result (λ ts.
        edited_from source.now 0 (map trimmed_edit_of ts.items) ≡ patched source.now (map edit_of patches.now)) }
{
    let mut trimmed = Vec::with_capacity(alloc, patches.len())?;
    for patch in patches {
        trimmed.push(trim_patch(source, patch))?;
    }
    trimmed.sort_by(|a, b| compare_untrimmed(a, b))?;
    Ok(trimmed)
}

/// Which of two trimmed patches comes first: by start of the untrimmed ones, then by end.
fn compare_untrimmed(a: &TrimmedPatch<'_>, b: &TrimmedPatch<'_>) -> Ordering
    ensures value { let first = a.now.original_span in let second = b.now.original_span in
        result ≡ ordering_then (nat_cmp first.start second.start) (nat_cmp first.end second.end) }
{
    let first = &a.original_span;
    let second = &b.original_span;
    first
        .start
        .cmp(&second.start)
        .then(first.end.cmp(&second.end))
}

/// A patch trimmed to what it changes. One whose text is empty or whose span reaches past the source stays.
#[tactic(auto, unfolding(crate::specs::Edits::trimmed_edit))]
fn trim_patch<'a>(source: &str, patch: &'a Patch<'_>) -> TrimmedPatch<'a>
    requires span { IsSpan source.now patch.now.span.start patch.now.span.end }
    ensures edit { trimmed_edit_of result ≡ trimmed_edit source.now (edit_of patch.now) }
    ensures original { result.original_span ≡ patch.now.span }
    ensures span { IsSpan source.now result.span.start result.span.end }
{
    let replacement = patch.replacement.as_str();
    let (start, end) = (patch.span.start, patch.span.end);
    if replacement.is_empty() || source.len() < end {
        return TrimmedPatch {
            original_span: start..end,
            span: start..end,
            replacement,
        };
    }
    match as_substr(&source[start..end], replacement) {
        Some((before, middle, after)) => TrimmedPatch {
            original_span: start..end,
            span: start + before..end - after,
            replacement: middle,
        },
        None => TrimmedPatch {
            original_span: start..end,
            span: start..end,
            replacement,
        },
    }
}
