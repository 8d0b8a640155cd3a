//! Runs that are put over others.
//!
//! A put takes only the runs that the new one touches: what the first of them holds before it, and the last after it,
//! stays. All other runs keep their places.
ghost use Rattle.std.specs.Prelude.{◌≡◌, ◌+◌, ◌-◌, ◌<◌, ◌≤◌, ◌++◌, ◌∷◌, ℕ, [], true, false, length, take, drop};
ghost use Rattle.std.specs.Prelude.{All, OnOk, OnErr, string_bytes, option_to_list};
ghost use Rattle.snippet_grid.specs.Runs.{IsRun, BeginsWith, Precedes, Differ, IsClear, ReachesTo, Touches};
ghost use Rattle.snippet_grid.specs.Runs.{AreTouchedRuns};
ghost use Rattle.snippet_grid.specs.Runs.{IsFront, IsBack, ArePieces, IsPut};
ghost use Rattle.snippet_grid.specs.declared.runs.Run.{Run};
ghost use Rattle.std.specs.List.{AllPairs, slice_index_or};
ghost use Rattle.snippet_style.specs.Bounds.{IsUsize};

use crate::runs::{Run, add_run, begun_by, clipped, continues, join};
use std::alloc::AllocError;

/// Whether all runs stand before this one.
#[inline(always)]
fn are_before(runs: &[Run<'_>], run: &Run<'_>) -> bool
    requires ordered { AllPairs (λ a b. Precedes a b) runs.now }
    requires are_runs { All (λ x. IsUsize (x.cell + x.count)) runs.now }
    ensures yes { result ≡ true → All (λ x. Precedes x run.now) runs.now }
{
    let len = runs.len();
    if len == 0 {
        return true;
    }
    let last = &runs[len - 1];
    last.row < run.row || last.row == run.row && last.cell + last.count <= run.cell
}

/// Whether a run stands before another one and does not touch it.
#[inline(always)]
fn is_clear(first: &Run<'_>, second: &Run<'_>) -> bool
    requires fits { IsUsize (first.now.cell + first.now.count) }
    ensures yes { result ≡ true → IsClear first.now second.now }
    ensures no { result ≡ false → ReachesTo first.now second.now }
{
    first.row < second.row || first.row == second.row && first.cell + first.count < second.cell
}

/// The first of the runs before `end` that touches this one, or `end`.
fn first_touched(runs: &[Run<'_>], end: usize, run: &Run<'_>) -> usize
    requires ordered { AllPairs (λ a b. Precedes a b) runs.now }
    requires are_runs { All (λ x. IsUsize (x.cell + x.count)) runs.now }
    requires within { end ≤ length runs.now }
    requires reaches { (k : ℕ) (d : Run) → k < end → ReachesTo run.now (slice_index_or runs.now k d) }
    ensures ordered { result ≤ end }
    ensures before { (k : ℕ) (d : Run) → k < result → IsClear (slice_index_or runs.now k d) run.now }
    ensures touch { (k : ℕ) (d : Run) → result ≤ k → k < end → Touches (slice_index_or runs.now k d) run.now }
{
    let mut start = end;
    while start > 0 && !is_clear(&runs[start - 1], run) {
        start -= 1;
    }
    start
}

/// What the first of the runs that a run touches holds before it.
fn front_of<'a>(text: &str, touched: &[Run<'a>], run: &Run<'a>) -> Option<Run<'a>>
    requires touched { AreTouchedRuns text.now run.now touched.now }
    ensures front { IsFront text.now touched.now run.now (option_to_list result) }
{
    let len = touched.len();
    if len == 0 {
        return None;
    }
    let first = &touched[0];
    if run.cell <= first.cell {
        return None;
    }
    Some(clipped(text, first, first.cell, run.cell))
}

/// What the last of the runs that a run touches holds after it.
fn back_of<'a>(text: &str, touched: &[Run<'a>], run: &Run<'a>) -> Option<Run<'a>>
    requires touched { AreTouchedRuns text.now run.now touched.now }
    requires run { IsRun text.now run.now }
    ensures back { IsBack text.now touched.now run.now (option_to_list result) }
{
    let len = touched.len();
    if len == 0 {
        return None;
    }
    let last = &touched[len - 1];
    let from = run.cell + run.count;
    let to = last.cell + last.count;
    if to <= from {
        return None;
    }
    Some(clipped(text, last, from, to))
}

/// What becomes of the runs that a run touches when it is put over them: at most three.
#[inline(never)]
fn add_pieces<'a>(
    text: &mut String,
    copy: &mut String,
    pieces: &mut Vec<Run<'a>>,
    touched: &[Run<'a>],
    run: &Run<'a>,
) -> Result<(), AllocError>
    requires none { pieces.old.items ≡ [] }
    requires touched { AreTouchedRuns (string_bytes text.old) run.now touched.now }
    requires run { IsRun (string_bytes text.old) run.now }
    ensures text { BeginsWith (string_bytes text.old) (string_bytes text.new) }
    ensures pieces { OnOk result (ArePieces (string_bytes text.old)
        (string_bytes text.new) touched.now pieces.new.items run.now) }
{
    let front = front_of(text.as_str(), touched, run);
    let back = back_of(text.as_str(), touched, run);
    if let Some(left) = front {
        pieces.push(left)?;
    }
    add_run(text, copy, pieces, run)?;
    match back {
        Some(right) => add_run(text, copy, pieces, &right),
        None => Ok(()),
    }
}

/// Puts one more run than there are in place of those from `start` to before `end`. Those after them move once.
fn insert_one<'a>(
    runs: &mut Vec<Run<'a>>,
    start: usize,
    end: usize,
    fresh: &[Run<'a>],
) -> Result<(), AllocError>
    requires ordered { start ≤ end }
    requires within { end ≤ length runs.old.items }
    requires one_more { length fresh.now ≡ end - start + 1 }
    ensures ok { OnOk result (runs.new.items ≡ take start runs.old.items ++ fresh.now ++ drop end runs.old.items) }
    ensures err { OnErr result (runs.new.items ≡ runs.old.items) }
{
    let count = end - start;
    runs.insert(end, fresh[count])?;
    runs[start..end].copy_from_slice(&fresh[..count]);
    Ok(())
}

/// Puts a run between those that it doesn't touch.
fn insert_clear<'a>(runs: &mut Vec<Run<'a>>, place: usize, run: &Run<'a>) -> Result<(), AllocError>
    requires within { place ≤ length runs.old.items }
    ensures ok { OnOk result (runs.new.items ≡ take place runs.old.items ++ run.now ∷ drop place runs.old.items) }
    ensures err { OnErr result (runs.new.items ≡ runs.old.items) }
{
    runs.insert(place, *run)?;
    Ok(())
}

/// Puts runs in place of those from `start` to before `end`. What is left in `fresh` means nothing.
#[inline(never)]
pub(crate) fn exchange<'a>(
    runs: &mut Vec<Run<'a>>,
    start: usize,
    end: usize,
    fresh: &mut Vec<Run<'a>>,
) -> Result<(), AllocError>
    requires ordered { start ≤ end }
    requires within { end ≤ length runs.old.items }
    ensures ok { OnOk result (runs.new.items ≡ take start runs.old.items ++ fresh.old.items
        ++ drop end runs.old.items) }
    ensures err { OnErr result (runs.new.items ≡ runs.old.items) }
{
    let count = end - start;
    if fresh.len() == count {
        runs[start..end].copy_from_slice(fresh);
        return Ok(());
    }
    if fresh.len() == count + 1 {
        return insert_one(runs, start, end, fresh);
    }
    fresh.extend_from_slice(&runs[end..])?;
    runs.reserve(fresh.len())?;
    runs.truncate(start);
    runs.extend_from_slice(fresh)
}

/// Room for a change that is made: what is left in it means nothing.
#[derive(Drop)]
pub(crate) struct Spare<'a> {
    pub(crate) text: String,
    pub(crate) runs: Vec<Run<'a>>,
}

/// Puts a run over what others hold.
#[inline(always)]
pub(crate) fn put_run<'a>(
    text: &mut String,
    spare: &mut Spare<'a>,
    runs: &mut Vec<Run<'a>>,
    run: &Run<'a>,
) -> Result<(), AllocError>
    requires runs { All (λ x. IsRun (string_bytes text.old) x) runs.old.items }
    requires ordered { AllPairs (λ a b. Precedes a b) runs.old.items }
    requires apart { AllPairs (λ a b. Differ a b) runs.old.items }
    requires run { IsRun (string_bytes text.old) run.now }
    ensures text { BeginsWith (string_bytes text.old) (string_bytes text.new) }
    ensures ok { OnOk result (IsPut (string_bytes text.old)
        (string_bytes text.new) runs.old.items runs.new.items run.now) }
    ensures err { OnErr result (runs.new.items ≡ runs.old.items) }
{
    let old = runs.as_slice();
    if are_before(old, run) {
        return add_run(text, &mut spare.text, runs, run);
    }
    let end = begun_by(old, run.row, run.cell + run.count);
    let start = first_touched(old, end, run);
    if start == end {
        return insert_clear(runs, end, run);
    }
    if end - start == 1 && continues(&old[start], run) {
        return join(text, &mut spare.text, &mut runs[start], run);
    }
    spare.runs.clear();
    add_pieces(
        text,
        &mut spare.text,
        &mut spare.runs,
        &old[start..end],
        run,
    )?;
    exchange(runs, start, end, &mut spare.runs)
}
