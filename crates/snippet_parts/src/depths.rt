//! How far right the bar of each span of several lines stands, so that spans that share a line stay apart.
ghost use Rattle.std.specs.Prelude.{◌≡◌, ◌+◌, ◌-◌, ◌≤◌, ◌<◌, true, All, Contains, ◌∷◌, length, map, fold, max};
ghost use Rattle.std.specs.Prelude.{IfOk};
ghost use Rattle.std.specs.List.{AllWithin};
ghost use Rattle.std.specs.List.Sorted.{IsNonDecreasingBy};
ghost use Rattle.snippet_parts.specs.declared.depths.LongExtent.{LongExtent};
ghost use Rattle.snippet_parts.specs.Depths as spec;
ghost use Rattle.snippet_parts.specs.Chains as chains;
ghost use Rattle.snippet_parts.specs.Depths.{share_line};
ghost use Rattle.snippet_parts.specs.Chains.{IsLongestChain};
ghost use Rattle.snippet_style.specs.Bounds.{HasNext};

use std::alloc::{AllocError, Global};

/// The place of a span of several lines.
#[derive(Clone, Copy, Debug, PartialEq, Eq)]
pub struct LongExtent {
    /// The byte at which it starts.
    pub from: usize,
    /// The byte at which it ends.
    pub to: usize,
    /// The number of the line on which it starts.
    pub first: usize,
    /// The number of the line on which it ends.
    pub last: usize,
}

/// The greatest depth of spans of several lines, and the depth of each, from 1.
///
/// The places of the spans are given in the order of their first lines. Spans of one place have one depth; those of
/// different places that share a line have different depths. The greatest depth is the length of a longest list of
/// places, in their order, in which each shares a line with the next; 0 without places.
///
/// The one error is that memory ran out.
pub fn depths(alloc: Global, places: &[LongExtent]) -> Result<(usize, Vec<usize>), AllocError>
    requires ordered { IsNonDecreasingBy (λ p. p.first) places.now }
    requires lines { All (λ p. p.first ≤ p.last) places.now }
    ensures greatest { IfOk result (λ d. d.0 ≡ spec.greatest_depth places.now) }
    ensures longest { IfOk result (λ d. IsLongestChain (spec.places_of places.now) d.0) }
    ensures value { IfOk result (λ d. d.1.items ≡ map (spec.depth_among places.now) places.now) }
    ensures within { IfOk result (λ d. All (λ depth. (1 ≤ depth) × (depth ≤ d.0)) d.1.items) }
    // Two spans that share a line and have one depth have one place.
    ensures distinct { (p q : LongExtent) → Contains places.now p → Contains places.now q → share_line p q ≡ true
        → spec.depth_among places.now p ≡ spec.depth_among places.now q → p ≡ q }
{
    let mut depths = raw_depths(alloc, places)?;
    let greatest = greatest(&depths);
    turn(&mut depths, greatest);
    Ok((greatest, depths))
}

/// Turns raw depths into depths, of which the greatest raw one is the least.
fn turn(depths: &mut [usize], greatest: usize)
    requires most { All (λ raw. raw ≤ greatest) depths.old }
    requires room { HasNext greatest }
    ensures value { depths.new ≡ map (λ raw. greatest - raw + 1) depths.old }
{
    for depth in depths.iter_mut() {
        *depth = greatest - *depth + 1;
    }
}

/// The raw depths of spans at some places.
fn raw_depths(alloc: Global, places: &[LongExtent]) -> Result<Vec<usize>, AllocError>
    requires ordered { IsNonDecreasingBy (λ p. p.first) places.now }
    requires lines { All (λ p. p.first ≤ p.last) places.now }
    ensures value { IfOk result (λ raws. raws.items ≡ chains.raw_depths places.now) }
{
    let mut raws = vec![in alloc; 0; places.len()]?;
    for i in (0..places.len()).rev() {
        raws[i] = raw_depth(places[i], &places[i + 1..], &raws[i + 1..]);
    }
    Ok(raws)
}

/// The raw depth of a span at a place, of which the later ones have these.
fn raw_depth(place: LongExtent, later: &[LongExtent], raws: &[usize]) -> usize
    requires ordered { IsNonDecreasingBy (λ p. p.first) later.now }
    requires after { All (λ p. place.first ≤ p.first) later.now }
    requires lines { All (λ p. p.first ≤ p.last) later.now }
    requires own_lines { place.first ≤ place.last }
    requires raws { raws.now ≡ chains.raw_depths later.now }
    ensures value { result ≡ spec.raw_depth_among (spec.places_of (place ∷ later.now)) place }
{
    let near = starting_by(later, place.last);
    let mut deepest = 0;
    for i in 0..near {
        if place == later[i] {
            return raws[i];
        }
        deepest = raws[i].max(deepest);
    }
    deepest + 1
}

/// How many of some places start on a line or above.
pub(crate) fn starting_by(places: &[LongExtent], line: usize) -> usize
    requires ordered { IsNonDecreasingBy (λ p. p.first) places.now }
    ensures within { result ≤ length places.now }
    ensures by { AllWithin (λ p. p.first ≤ line) places.now 0 result }
    ensures after { AllWithin (λ p. line < p.first) places.now result (length places.now) }
{
    places.partition_point(|p| p.first <= line)
}

/// The greatest of some depths, or 0.
fn greatest(depths: &[usize]) -> usize
    ensures value { result ≡ fold max 0 depths.now }
{
    let mut greatest = 0;
    for depth in depths {
        greatest = greatest.max(*depth);
    }
    greatest
}
