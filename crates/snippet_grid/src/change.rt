//! Cells of a row that change their role, or the link that they belong to, and nothing else.
ghost use Rattle.std.specs.Prelude.{◌≡◌, ◌+◌, ◌-◌, ◌*◌, ◌<◌, ◌≤◌, ℕ, min, length, IfOk, OnOk, OnErr, string_bytes};
ghost use Rattle.std.specs.List.{slice_index_or};
ghost use Rattle.snippet_grid.specs.Calls.{cells_changed};
ghost use Rattle.snippet_grid.specs.Runs.{IsRow, EndsBy, BeginsWith, shown_cell};
ghost use Rattle.snippet_grid.specs.declared.runs.Run.{Run};
ghost use Rattle.snippet_grid.specs.Changes.{changed_by, IsChanged, IsBlankRun, IsPartOfRow, ShowsSpan};

use crate::cells::{Cells, RowCells};
use crate::put::{Spare, exchange, put_run};
use crate::runs::{Run, begun_by, clipped, row_bounds};
use crate::spaces::push_spaces;
use crate::words::width_of;
use snippet_style::ElementStyle;
use std::alloc::AllocError;

/// What becomes of cells.
#[derive(Clone, Copy)]
pub(crate) enum Change<'a> {
    /// They get this role, where overwriting is allowed or their own gives way.
    Restyle(ElementStyle, bool),
    /// They link to this URL.
    Link(&'a str),
}

/// The run with each of its cells changed.
fn changed<'a>(change: Change<'a>, run: &Run<'a>) -> Run<'a>
    ensures is { IsChanged change.entry run.now result }
{
    match change {
        Change::Restyle(role, overwrite) => {
            if overwrite || run.role.gives_way() {
                Run { role, ..*run }
            } else {
                *run
            }
        }
        Change::Link(url) => Run {
            link: Some(url),
            ..*run
        },
    }
}

/// Adds spaces to the text, as an unstyled run.
fn push_gap<'a>(
    text: &mut String,
    row: usize,
    from: usize,
    to: usize,
) -> Result<Run<'a>, AllocError>
    requires some { from < to }
    ensures ok { IfOk result (λ run. IsBlankRun (string_bytes text.new) row from to run) }
    ensures text { BeginsWith (string_bytes text.old) (string_bytes text.new) }
{
    let start = text.len();
    push_spaces(text, to - from)?;
    Ok(Run {
        row,
        cell: from,
        count: to - from,
        start,
        end: text.len(),
        role: ElementStyle::NoStyle,
        link: None,
    })
}

/// Where a stretch of cells ends that no run holds: where the run of this number begins, or at `to`.
fn gap_end(runs: &[Run<'_>], next: usize, to: usize) -> usize
    ensures within { result ≤ to }
    ensures next { (d : Run) → next < length runs.now → result ≡ min (slice_index_or runs.now next d).cell to }
    ensures none { length runs.now ≤ next → result ≡ to }
{
    if next < runs.len() {
        runs[next].cell.min(to)
    } else {
        to
    }
}

/// The first cells of a stretch of a row that one run holds, or none does: as a run.
fn part_at<'a>(
    text: &mut String,
    runs: &[Run<'a>],
    row: usize,
    from: usize,
    to: usize,
) -> Result<Run<'a>, AllocError>
    requires runs { IsRow (string_bytes text.old) row runs.now }
    requires some { from < to }
    ensures text { BeginsWith (string_bytes text.old) (string_bytes text.new) }
    ensures ok { IfOk result (λ part. IsPartOfRow (string_bytes text.new) row from to (λ c.
        shown_cell (string_bytes text.old) runs.now row c) part) }
{
    let next = begun_by(runs, row, from);
    if next > 0 {
        let run = &runs[next - 1];
        let end = run.cell + run.count;
        if from < end {
            return Ok(clipped(text.as_str(), run, from, end.min(to)));
        }
    }
    push_gap(text, row, from, gap_end(runs, next, to))
}

/// Changes some cells of a row.
fn change_row<'a>(
    text: &mut String,
    spare: &mut Spare<'a>,
    runs: &mut Vec<Run<'a>>,
    cells: RowCells,
    change: Change<'a>,
) -> Result<(), AllocError>
    requires runs { IsRow (string_bytes text.old) cells.row runs.old.items }
    requires some { cells.start ≤ cells.end }
    ensures text { BeginsWith (string_bytes text.old) (string_bytes text.new) }
    ensures ok { OnOk result (ShowsSpan (string_bytes text.old)
        (string_bytes text.new) runs.old.items runs.new.items cells.row cells.start cells.end (λ c.
        changed_by change.entry (shown_cell (string_bytes text.old) runs.old.items cells.row c))) }
    ensures row { OnOk result (IsRow (string_bytes text.new) cells.row runs.new.items) }
    ensures ends { (n : ℕ) → EndsBy n runs.old.items → cells.end ≤ n → OnOk result (EndsBy n runs.new.items) }
    ensures count { OnOk result (length runs.new.items ≤ length runs.old.items + 2 * (cells.end - cells.start)) }
{
    let mut col = cells.start;
    while col < cells.end {
        let part = part_at(text, runs.as_slice(), cells.row, col, cells.end)?;
        put_run(text, spare, runs, &changed(change, &part))?;
        col += part.count;
    }
    Ok(())
}

/// Changes some cells of a row, as far as they are there: where one run holds them all, or none does, at once; else in
/// a copy of the row, for which `fresh` has room, and which is then put in its place.
pub(crate) fn change_cells<'a>(
    grid: &mut Cells<'a>,
    spare: &mut Spare<'a>,
    fresh: &mut Vec<Run<'a>>,
    cells: RowCells,
    change: Change<'a>,
) -> Result<(), AllocError>
    ensures ok { OnOk result (grid.new.rows
        ≡ cells_changed (changed_by change.entry) grid.old.rows cells.row cells.start cells.end) }
    ensures runs_added { grid.new.num_runs ≤ grid.old.num_runs + 2 * (cells.end - cells.start) }
    ensures err { OnErr result (grid.new ≡ grid.old) }
{
    let RowCells { row, start, end } = cells;
    let last = end.min(width_of(&grid.widths, row));
    if last <= start {
        return Ok(());
    }
    let old = grid.runs.as_slice();
    let (from, to) = row_bounds(old, row);
    let part = part_at(&mut grid.text, &old[from..to], row, start, last)?;
    if part.count == last - start {
        return put_run(
            &mut grid.text,
            spare,
            &mut grid.runs,
            &changed(change, &part),
        );
    }
    fresh.clear();
    fresh.extend_from_slice(&grid.runs.as_slice()[from..to])?;
    let there = RowCells { end: last, ..cells };
    change_row(&mut grid.text, spare, fresh, there, change)?;
    exchange(&mut grid.runs, from, to, fresh)
}
