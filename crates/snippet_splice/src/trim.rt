//! What a replacement keeps of the text that it replaces.
ghost use Rattle.std.specs.Prelude.{◌≡◌, ℕ, ◌≤◌, List, IfSome, IfNone, length, take};
ghost use Rattle.std.specs.Option.{option_map};
ghost use Rattle.std.specs.Str.{IsCharBoundary};
ghost use Rattle.snippet_splice.specs.Trim.{sandwich};
ghost use Rattle.snippet_splice.specs.Sandwich.{IsSandwiched, IsSandwich};

/// The part of a replacement that stands between what it keeps of the original: how many bytes it keeps of the
/// original's beginning, that part, and how many bytes it keeps of the original's end. `None` where the replacement
/// isn't the original with a text put in between two of its characters.
///
/// The whole original comes first where the replacement begins with it, else it comes last where the replacement ends
/// with it, else its beginning is as long as can be. `AABBCC` in place of `AACC` is `Some((2, "BB", 2))`.
pub fn as_substr<'a>(original: &str, replacement: &'a str) -> Option<(usize, &'a str, usize)>
    ensures some { IfSome result (λ t. IsSandwich original.now replacement.now t.0 t.1.now t.2) }
    ensures none { IfNone result ((before : ℕ) (middle : List ℕ) (after : ℕ)
        → IsSandwiched original.now replacement.now before middle after → ⊥) }
    ensures value { option_map (λ t. (t.0, t.1.now, t.2)) result ≡ sandwich original.now replacement.now }
{
    if let Some(middle) = replacement.strip_prefix(original) {
        return Some((original.len(), middle, 0));
    }
    if replacement.len() <= original.len() {
        return None;
    }
    if let Some(middle) = replacement.strip_suffix(original) {
        return Some((0, middle, original.len()));
    }
    let kept = common_prefix(original, replacement);
    let rest = &original[kept..];
    match replacement[kept..].strip_suffix(rest) {
        Some(middle) => Some((kept, middle, rest.len())),
        None => None,
    }
}

/// How many bytes two texts begin with in common, whole characters of the first counted.
fn common_prefix(first: &str, second: &str) -> usize
    ensures border { IsCharBoundary first.now result }
    ensures other_border { IsCharBoundary second.now result }
    ensures same { take result first.now ≡ take result second.now }
    ensures longest { (n : ℕ) → IsCharBoundary first.now n → n ≤ length second.now
        → take n first.now ≡ take n second.now → n ≤ result }
{
    first.floor_char_boundary(common_bytes(first.as_bytes(), second.as_bytes()))
}

/// How many bytes two lists of bytes begin with in common.
fn common_bytes(first: &[u8], second: &[u8]) -> usize
    ensures within_first { result ≤ length first.now }
    ensures within_second { result ≤ length second.now }
    ensures same { take result first.now ≡ take result second.now }
    ensures longest { (n : ℕ) → n ≤ length first.now → n ≤ length second.now
        → take n first.now ≡ take n second.now → n ≤ result }
{
    let bound = first.len().min(second.len());
    for i in 0..bound {
        if first[i] != second[i] {
            return i;
        }
    }
    bound
}
