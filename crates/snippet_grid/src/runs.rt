//! Runs of neighbouring cells that share their role and their link.
ghost use Rattle.std.specs.Prelude.{◌≡◌, ◌+◌, ◌-◌, ◌<◌, ◌≤◌, ℕ, true, false, length, min, take, drop, All};
ghost use Rattle.std.specs.Prelude.{IfOk, OnOk, OnErr, string_bytes};
ghost use Rattle.snippet_grid.specs.Runs.{IsRun, Continues, Differ, IsJoined, IsPart, BeginsWith, ShowsMore};
ghost use Rattle.snippet_grid.specs.Runs.{ShowsCopy, FitsMoved, AddsRun, IsRow, EndsBy, Precedes, BeginsAfter};
ghost use Rattle.snippet_grid.specs.Runs.{BeginsBy, run_bytes, run_chars};
ghost use Rattle.snippet_grid.specs.Changes.{num_touched};
ghost use Rattle.snippet_grid.specs.declared.runs.Run.{Run};
ghost use Rattle.std.specs.List.{AllPairs, slice_index_or};
ghost use Rattle.std.specs.Str.{chars};
ghost use Rattle.snippet_style.specs.Cell.{bytes_of};
ghost use Rattle.snippet_style.specs.Bounds.{IsUsize};

use crate::cells::RowCells;
use snippet_style::ElementStyle;
use std::alloc::AllocError;

/// Neighbouring cells of a row, with one role and one link mark. Their characters are a stretch of a text that all runs
/// of a grid share.
#[derive(Clone, Copy)]
pub(crate) struct Run<'a> {
    pub(crate) row: usize,
    /// The first cell, and how many there are.
    pub(crate) cell: usize,
    pub(crate) count: usize,
    /// Where the characters begin and end in the text, in bytes.
    pub(crate) start: usize,
    pub(crate) end: usize,
    pub(crate) role: ElementStyle,
    pub(crate) link: Option<&'a str>,
}

/// Whether a run goes on where another ends, with its role and its link.
#[inline(always)]
pub(crate) fn continues(first: &Run<'_>, second: &Run<'_>) -> bool
    requires fits { IsUsize (first.now.cell + first.now.count) }
    ensures yes { result ≡ true → Continues first.now second.now }
    ensures no { result ≡ false → Differ first.now second.now }
{
    first.row == second.row
        && first.cell + first.count == second.cell
        && first.role == second.role
        && first.link == second.link
}

/// Whether the text from this place on begins with what a run holds.
fn stands_at(text: &str, at: usize, run: &Run<'_>) -> bool
    requires run { IsRun text.now run.now }
    requires within { at ≤ length text.now }
    ensures yes { result ≡ true → take (run.now.end - run.now.start) (drop at text.now) ≡ run_bytes text.now run.now }
{
    if at == run.start {
        return true;
    }
    let len = run.end - run.start;
    if text.len() - at < len {
        return false;
    }
    let bytes = text.as_bytes();
    bytes[at..at + len] == bytes[run.start..run.end]
}

/// Adds to a run another one, which goes on where it ends. Where the text goes on with the second's characters, nothing
/// is copied; else those of both are, to the end of the text. `copy` is there for its room.
#[inline(never)]
pub(crate) fn join<'a>(
    text: &mut String,
    copy: &mut String,
    first: &mut Run<'a>,
    second: &Run<'a>,
) -> Result<(), AllocError>
    requires first { IsRun (string_bytes text.old) first.old }
    requires second { IsRun (string_bytes text.old) second.now }
    requires continues { Continues first.old second.now }
    ensures ok { OnOk result (IsJoined (string_bytes text.old) (string_bytes text.new) first.old second.now first.new) }
    ensures text { BeginsWith (string_bytes text.old) (string_bytes text.new) }
    ensures err { OnErr result (first.new ≡ first.old) }
{
    if stands_at(text.as_str(), first.end, second) {
        first.count += second.count;
        first.end += second.end - second.start;
        return Ok(());
    }
    let start = text.len();
    copy.clear();
    copy.push_str(&text[first.start..first.end])?;
    copy.push_str(&text[second.start..second.end])?;
    text.push_str(copy.as_str())?;
    *first = Run {
        count: first.count + second.count,
        start,
        end: text.len(),
        ..*first
    };
    Ok(())
}

/// Adds a run after others, and joins it to the last where it goes on.
#[inline(always)]
pub(crate) fn add_run<'a>(
    text: &mut String,
    copy: &mut String,
    runs: &mut Vec<Run<'a>>,
    run: &Run<'a>,
) -> Result<(), AllocError>
    requires runs { All (λ old. IsRun (string_bytes text.old) old) runs.old.items }
    requires run { IsRun (string_bytes text.old) run.now }
    ensures text { BeginsWith (string_bytes text.old) (string_bytes text.new) }
    ensures ok { OnOk result (ShowsMore (string_bytes text.old)
        (string_bytes text.new) runs.old.items runs.new.items run.now) }
    ensures are_runs { OnOk result (All (λ new. IsRun (string_bytes text.new) new) runs.new.items) }
    ensures adds { OnOk result (AddsRun runs.old.items runs.new.items run.now) }
    ensures err { OnErr result (runs.new.items ≡ runs.old.items) }
{
    let len = runs.len();
    if len > 0 {
        let last = &runs[len - 1];
        if continues(last, run) {
            return join(text, copy, &mut runs[len - 1], run);
        }
    }
    runs.push(*run)?;
    Ok(())
}

/// How many bytes the first characters of a text take.
fn byte_at(text: &str, count: usize) -> usize
    requires within { count ≤ length (chars text.now) }
    ensures value { result ≡ bytes_of (take count (chars text.now)) }
    ensures inside { result ≤ length text.now }
{
    let mut at = 0;
    let mut left = count;
    for ch in text.chars() {
        if left == 0 {
            return at;
        }
        at += ch.len_utf8();
        left -= 1;
    }
    at
}

/// Where the character of this number begins in a run, in bytes after the run's first.
fn byte_in(text: &str, run: &Run<'_>, count: usize) -> usize
    requires run { IsRun text.now run.now }
    requires within { count ≤ run.now.count }
    ensures value { result ≡ bytes_of (take count (run_chars text.now run.now)) }
    ensures inside { run.now.start + result ≤ run.now.end }
{
    // Where each character takes one byte, there is nothing to walk over.
    if run.end - run.start == run.count {
        return count;
    }
    byte_at(&text[run.start..run.end], count)
}

/// The part of a run from one of its cells to before another.
pub(crate) fn clipped<'a>(text: &str, run: &Run<'a>, from: usize, to: usize) -> Run<'a>
    requires run { IsRun text.now run.now }
    requires low { run.now.cell ≤ from }
    requires some { from < to }
    requires high { to ≤ run.now.cell + run.now.count }
    ensures part { IsPart text.now run.now from to result }
{
    if from == run.cell && to == run.cell + run.count {
        return *run;
    }
    let skipped = byte_in(text, run, from - run.cell);
    let kept = byte_in(text, run, to - run.cell);
    Run {
        cell: from,
        count: to - from,
        start: run.start + skipped,
        end: run.start + kept,
        ..*run
    }
}

/// Adds what some runs of a row hold in these of its cells, so that it begins at the cell `at`.
pub(crate) fn copy_cells<'a>(
    text: &mut String,
    copy: &mut String,
    out: &mut Vec<Run<'a>>,
    runs: &[Run<'a>],
    cells: RowCells,
    at: usize,
) -> Result<(), AllocError>
    requires out { IsRow (string_bytes text.old) cells.row out.old.items }
    requires before { EndsBy at out.old.items }
    requires runs { IsRow (string_bytes text.old) cells.row runs.now }
    requires fits { All (λ x. FitsMoved cells.start at x) runs.now }
    ensures text { BeginsWith (string_bytes text.old) (string_bytes text.new) }
    ensures ok { OnOk result (ShowsCopy (string_bytes text.old)
        (string_bytes text.new) out.old.items out.new.items runs.now cells.start cells.end at) }
    ensures row { OnOk result (IsRow (string_bytes text.new) cells.row out.new.items) }
    ensures ends { OnOk result (EndsBy (at + (cells.end - cells.start)) out.new.items) }
    ensures tight { (n : ℕ) → EndsBy n runs.now → OnOk result
        (EndsBy (at + (min n cells.end - cells.start)) out.new.items) }
    ensures count { OnOk result (length out.new.items
        ≤ length out.old.items + num_touched cells.start cells.end runs.now) }
{
    for run in runs {
        let start = run.cell.max(cells.start);
        let end = (run.cell + run.count).min(cells.end);
        if start < end {
            let part = clipped(text.as_str(), run, start, end);
            let piece = Run {
                row: cells.row,
                cell: at + (start - cells.start),
                ..part
            };
            add_run(text, copy, out, &piece)?;
        }
    }
    Ok(())
}

/// Whether a run begins after a cell.
fn begins_after(run: &Run<'_>, row: usize, cell: usize) -> bool
    ensures yes { result ≡ true → BeginsAfter row cell run.now }
    ensures no { result ≡ false → BeginsBy row cell run.now }
{
    row < run.row || row == run.row && cell < run.cell
}

/// A stretch of places in which the number of the runs that begin by a cell lies. It is looked for from the last run
/// on, in steps that double, since most of what is drawn stands near what was drawn last.
fn begun_between(runs: &[Run<'_>], row: usize, cell: usize) -> (usize, usize)
    requires ordered { AllPairs (λ a b. Precedes a b) runs.now }
    ensures bounds { result.0 ≤ result.1 × (result.1 ≤ length runs.now) }
    ensures begun { (k : ℕ) (d : Run) → k < result.0 → BeginsBy row cell (slice_index_or runs.now k d) }
    ensures later { (k : ℕ) (d : Run) → result.1 ≤ k → k < length runs.now
        → BeginsAfter row cell (slice_index_or runs.now k d) }
{
    let mut high = runs.len();
    let mut step = 1;
    while step <= high {
        let place = high - step;
        if !begins_after(&runs[place], row, cell) {
            return (place + 1, high);
        }
        high = place;
        step = step.saturating_mul(2);
    }
    (0, high)
}

/// How many runs begin by a cell: in a row above, or in its row at it or before it.
pub(crate) fn begun_by(runs: &[Run<'_>], row: usize, cell: usize) -> usize
    requires ordered { AllPairs (λ a b. Precedes a b) runs.now }
    ensures within { result ≤ length runs.now }
    ensures begun { (k : ℕ) (d : Run) → k < result → BeginsBy row cell (slice_index_or runs.now k d) }
    ensures later { (k : ℕ) (d : Run) → result ≤ k → k < length runs.now
        → BeginsAfter row cell (slice_index_or runs.now k d) }
{
    let (mut low, mut high) = begun_between(runs, row, cell);
    while low < high {
        let mid = low + (high - low) / 2;
        if begins_after(&runs[mid], row, cell) {
            high = mid;
        } else {
            low = mid + 1;
        }
    }
    low
}

/// How many runs stand in the rows down to this one.
pub(crate) fn rows_end(runs: &[Run<'_>], row: usize) -> usize
    requires ordered { AllPairs (λ a b. Precedes a b) runs.now }
    requires fits { All (λ x. IsUsize x.cell) runs.now }
    ensures within { result ≤ length runs.now }
    ensures above { (k : ℕ) (d : Run) → k < result → (slice_index_or runs.now k d).row ≤ row }
    ensures below { (k : ℕ) (d : Run) → result ≤ k → k < length runs.now → row < (slice_index_or runs.now k d).row }
{
    begun_by(runs, row, usize::MAX)
}

/// Where the runs of a row begin and end.
pub(crate) fn row_bounds(runs: &[Run<'_>], row: usize) -> (usize, usize)
    requires ordered { AllPairs (λ a b. Precedes a b) runs.now }
    requires fits { All (λ x. IsUsize x.cell) runs.now }
    ensures bounds { result.0 ≤ result.1 × (result.1 ≤ length runs.now) }
    ensures above { (k : ℕ) (d : Run) → k < result.0 → (slice_index_or runs.now k d).row < row }
    ensures inside { (k : ℕ) (d : Run) → result.0 ≤ k → k < result.1 → (slice_index_or runs.now k d).row ≡ row }
    ensures below { (k : ℕ) (d : Run) → result.1 ≤ k → k < length runs.now → row < (slice_index_or runs.now k d).row }
{
    let end = rows_end(runs, row);
    let start = if row == 0 { 0 } else { rows_end(runs, row - 1) };
    (start, end)
}
