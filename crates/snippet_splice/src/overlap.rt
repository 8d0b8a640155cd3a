//! Patches that overlap.
ghost use Rattle.std.specs.Prelude.{◌≡◌, ◌↔◌, ℕ, ◌<◌, ◌+◌, ◌≤◌, true, false, map, All, IfSome, IfNone, IsNone, length};
ghost use Rattle.std.specs.Prelude.{slice_index_or};
ghost use Rattle.snippet_lines.specs.IsSpan.{IsSpan};
ghost use Rattle.snippet_splice.specs.Edits.{edit_of};
ghost use Rattle.snippet_splice.specs.Overlap.{overlap};
ghost use Rattle.snippet_splice.specs.FirstOverlap.{overlap_at, IsFirstOverlap, AreDisjoint, no_edit};
ghost use Rattle.snippet_splice.specs.Overlap as spec;

use snippet_model::Patch;

/// The two patches that overlap, if any do, by their numbers in the list from 0: of all such pairs that of the least
/// first number, and of those that of the least second.
///
/// Two patches overlap where, in the order by start, then end, else as given, the first ends after the start of the
/// second. No span may have a fault, as `check_span` finds it. It takes no memory; patches that are given in order, and
/// don't overlap, cost one walk. Of `abc`, 0..2 and 1..3 overlap: 0 and 1 are returned.
pub fn check_patches(source: &str, patches: &[Patch<'_>]) -> Option<(usize, usize)>
    requires spans { All (λ p. IsSpan source.now p.span.start p.span.end) patches.now }
    ensures some { IfSome result (λ t. IsFirstOverlap (map edit_of patches.now) t.0 t.1) }
    ensures none { IsNone result ↔ AreDisjoint (map edit_of patches.now) }
    ensures value { result ≡ spec.first_overlap (map edit_of patches.now) }
{
    if stand_apart(patches) {
        return None;
    }
    first_overlap(patches)
}

/// Whether each patch ends at the start of the next or before it.
fn stand_apart(patches: &[Patch<'_>]) -> bool
    ensures apart { result ≡ true → (k : ℕ) → k + 1 < length patches.now →
        (slice_index_or (map edit_of patches.now) k no_edit).end ≤
        (slice_index_or (map edit_of patches.now) (k + 1) no_edit).start }
{
    for i in 1..patches.len() {
        if patches[i].span.start < patches[i - 1].span.end {
            return false;
        }
    }
    true
}

/// The first pair of patches that overlap, each pair tried in turn.
fn first_overlap(patches: &[Patch<'_>]) -> Option<(usize, usize)>
    ensures some { IfSome result (λ t. IsFirstOverlap (map edit_of patches.now) t.0 t.1) }
    ensures none { IfNone result (AreDisjoint (map edit_of patches.now)) }
{
    for first in 0..patches.len() {
        if let Some(second) = first_overlapping(patches, first) {
            return Some((first, second));
        }
    }
    None
}

/// The first of the later patches that overlaps with the patch of this number.
fn first_overlapping(patches: &[Patch<'_>], first: usize) -> Option<usize>
    requires within { first < length patches.now }
    ensures some { IfSome result (λ n. (first < n) × (n < length patches.now)
        × (overlap_at (map edit_of patches.now) first n ≡ true)
        × ((k : ℕ) → first < k → k < n → overlap_at (map edit_of patches.now) first k ≡ false)) }
    ensures none { IfNone result ((k : ℕ) → first < k → k < length patches.now
        → overlap_at (map edit_of patches.now) first k ≡ false) }
{
    for second in first + 1..patches.len() {
        if overlap(&patches[first], &patches[second]) {
            return Some(second);
        }
    }
    None
}

/// Whether a patch and one that is given later overlap.
fn overlap(patch: &Patch<'_>, later: &Patch<'_>) -> bool
    ensures value { result ≡ overlap (edit_of patch.now) (edit_of later.now) }
{
    let swapped = later.span.start < patch.span.start
        || later.span.start == patch.span.start && later.span.end < patch.span.end;
    if swapped {
        patch.span.start < later.span.end
    } else {
        later.span.start < patch.span.end
    }
}
