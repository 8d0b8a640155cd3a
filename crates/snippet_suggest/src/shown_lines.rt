//! Which lines of the spliced text are shown.
ghost use Rattle.std.specs.Prelude.{◌≡◌, ℕ, ◌++◌, ◌<◌, ◌≤◌, nat_le, ◌&&◌, ◌||◌, true, false, IfOk, OnOk};
ghost use Rattle.std.specs.Prelude.{length};
ghost use Rattle.std.specs.List.{slice_index_or};
ghost use Rattle.snippet_suggest.specs.SuggestedLines as spec;
ghost use Rattle.snippet_suggest.specs.SuggestedLines.{shown_run};

use snippet_splice::LineRange;
use std::alloc::{AllocError, Global};

/// A row of the lines that are shown.
#[derive(Clone, Copy, Debug, PartialEq, Eq)]
pub enum SuggestionLine {
    /// The line of this number, from 0.
    Line(usize),
    /// The placeholder for lines that are left out.
    Gap,
}

/// The lines that are shown of a text of `count` lines, on which these ranges are touched: folded not those after the
/// last touched one, and of more than three untouched ones between two touched the first and the last alone.
pub(crate) fn shown_lines(
    alloc: Global,
    count: usize,
    ranges: &[LineRange],
    fold: bool,
) -> Result<Vec<SuggestionLine>, AllocError>
    ensures value { IfOk result (λ shown. shown.items ≡ spec.shown_from (spec.is_touched fold ranges.now) 0 0 count) }
{
    let touched = touched_table(alloc, count, ranges, fold)?;
    let mut shown = Vec::with_capacity(alloc, ranges.len())?;
    let mut after = 0;
    for line in 0..count {
        if touched[line] {
            push_run(&mut shown, after, line)?;
            shown.push(SuggestionLine::Line(line))?;
            after = line + 1;
        }
    }
    Ok(shown)
}

/// Which of this many lines are shown by themselves: those that a range holds, or all, if lines aren't folded.
fn touched_table(
    alloc: Global,
    count: usize,
    ranges: &[LineRange],
    fold: bool,
) -> Result<Vec<bool>, AllocError>
    ensures size { IfOk result (λ t. length t.items ≡ count) }
    ensures value { IfOk result (λ t. (k : ℕ) → k < count
        → slice_index_or t.items k false ≡ spec.is_touched fold ranges.now k) }
{
    let mut touched = vec![in alloc; !fold; count]?;
    for range in ranges {
        touch_range(&mut touched, *range);
    }
    Ok(touched)
}

/// Marks the lines of a range, as far as they are there.
fn touch_range(touched: &mut [bool], range: LineRange)
    ensures size { length touched.new ≡ length touched.old }
    ensures value { (k : ℕ) → k < length touched.old → slice_index_or touched.new k false
        ≡ (slice_index_or touched.old k false || (nat_le range.first k && nat_le k range.last)) }
{
    let end = range.last.saturating_add(1).min(touched.len());
    for line in range.first..end {
        touched[line] = true;
    }
}

/// Whether a line is shown by itself: one of the ranges holds it, or lines aren't folded.
pub(crate) fn is_touched(fold: bool, ranges: &[LineRange], line: usize) -> bool
    ensures value { result ≡ spec.is_touched fold ranges.now line }
{
    !fold || is_held(ranges, line)
}

/// Whether one of the ranges holds a line.
fn is_held(ranges: &[LineRange], line: usize) -> bool
    ensures value { result ≡ spec.is_touched true ranges.now line }
{
    ranges
        .iter()
        .any(|range| range.first <= line && line <= range.last)
}

/// Adds what is shown of the untouched lines from `from` to before `to`.
fn push_run(shown: &mut Vec<SuggestionLine>, from: usize, to: usize) -> Result<(), AllocError>
    requires ordered { from ≤ to }
    ensures added { OnOk result (shown.new.items ≡ shown.old.items ++ shown_run from to) }
{
    if to - from > 3 {
        shown.push(SuggestionLine::Line(from))?;
        shown.push(SuggestionLine::Gap)?;
        shown.push(SuggestionLine::Line(to - 1))?;
        return Ok(());
    }
    for line in from..to {
        shown.push(SuggestionLine::Line(line))?;
    }
    Ok(())
}
