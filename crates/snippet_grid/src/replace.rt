//! A text that takes the place of some cells of a row; the cells after them move.
ghost use Rattle.std.specs.Prelude.{◌≡◌, ◌+◌, ◌-◌, ◌<◌, ◌≤◌, ℕ, length, All, OnOk, OnErr, IsOk};
ghost use Rattle.std.specs.Prelude.{string_bytes};
ghost use Rattle.std.specs.List.{slice_index_or};
ghost use Rattle.std.specs.Str.{chars};
ghost use Rattle.snippet_grid.specs.Grid.{row_at};
ghost use Rattle.snippet_grid.specs.Calls.{cells_replaced};
ghost use Rattle.snippet_style.specs.Cell.{SPACE, text_cells};
ghost use Rattle.snippet_grid.specs.Runs.{IsRow, EndsBy, FitsMoved, BeginsWith};
ghost use Rattle.snippet_grid.specs.Changes.{ShowsSpan, ShowsReplaced};
ghost use Rattle.snippet_style.specs.Bounds.{IsUsize};

use crate::cells::{Cells, RowCells};
use crate::put::{Spare, exchange};
use crate::runs::{Run, add_run, copy_cells, row_bounds};
use crate::words::{push_word, width_of};
use snippet_style::{ElementStyle, char_count};
use std::alloc::AllocError;

/// Adds a text, which may be empty, after the spare runs, which end before it.
fn add_word<'a>(
    text: &mut String,
    spare: &mut Spare<'a>,
    row: usize,
    at: usize,
    word: &str,
    role: ElementStyle,
) -> Result<(), AllocError>
    requires out { IsRow (string_bytes text.old) row spare.old.runs.items }
    requires before { EndsBy at spare.old.runs.items }
    requires fits { IsUsize (at + length (chars word.now)) }
    ensures text { BeginsWith (string_bytes text.old) (string_bytes text.new) }
    ensures ok { OnOk result (ShowsSpan (string_bytes text.old)
        (string_bytes text.new) spare.old.runs.items spare.new.runs.items row at (at + length (chars word.now)) (λ c.
        slice_index_or (text_cells role (chars word.now)) (c - at) SPACE)) }
    ensures row { OnOk result (IsRow (string_bytes text.new) row spare.new.runs.items) }
    ensures ends { OnOk result (EndsBy (at + length (chars word.now)) spare.new.runs.items) }
    ensures count { OnOk result (length spare.new.runs.items ≤ length spare.old.runs.items + 1) }
{
    if word.is_empty() {
        return Ok(());
    }
    let run = push_word(text, row, at, word, role)?;
    add_run(text, &mut spare.text, &mut spare.runs, &run)
}

/// Lays out the runs of a row with a text in place of the cells from `start` to before `end`.
fn replaced_row<'a>(
    text: &mut String,
    spare: &mut Spare<'a>,
    runs: &[Run<'a>],
    cells: RowCells,
    word: &str,
    role: ElementStyle,
) -> Result<(), AllocError>
    requires runs { IsRow (string_bytes text.old) cells.row runs.now }
    requires some { cells.start ≤ cells.end }
    requires fits { IsUsize (cells.start + length (chars word.now)) }
    requires moved { All (λ x. FitsMoved cells.end (cells.start + length (chars word.now)) x) runs.now }
    ensures text { BeginsWith (string_bytes text.old) (string_bytes text.new) }
    ensures ok { OnOk result (ShowsReplaced (string_bytes text.old)
        (string_bytes text.new) runs.now spare.new.runs.items cells.row cells.start cells.end
        (text_cells role (chars word.now))) }
    ensures row { OnOk result (IsRow (string_bytes text.new) cells.row spare.new.runs.items) }
    ensures ends { (n : ℕ) → EndsBy n runs.now → OnOk result
        (EndsBy (cells.start + length (chars word.now) + (n - cells.end)) spare.new.runs.items) }
    ensures count { OnOk result (length spare.new.runs.items ≤ length runs.now + 2) }
{
    let row = cells.row;
    let before = RowCells {
        row,
        start: 0,
        end: cells.start,
    };
    let after = RowCells {
        row,
        start: cells.end,
        end: usize::MAX,
    };
    spare.runs.clear();
    copy_cells(text, &mut spare.text, &mut spare.runs, runs, before, 0)?;
    add_word(text, spare, row, cells.start, word, role)?;
    let at = cells.start + char_count(word);
    copy_cells(text, &mut spare.text, &mut spare.runs, runs, after, at)
}

/// Puts a text in place of some cells of a row, if they are there.
pub(crate) fn replace_cells<'a>(
    grid: &mut Cells<'a>,
    spare: &mut Spare<'a>,
    cells: RowCells,
    word: &str,
    role: ElementStyle,
) -> Result<(), AllocError>
    ensures ok { OnOk result (grid.new.rows ≡ cells_replaced grid.old.rows cells.row cells.start cells.end
        (text_cells role (chars word.now))) }
    ensures runs_added { grid.new.num_runs ≤ grid.old.num_runs + 2 }
    ensures empty_succeeds { cells.end ≤ cells.start → IsOk result }
    ensures past_succeeds { length (row_at grid.old.rows cells.row) < cells.end → IsOk result }
    ensures err { OnErr result (grid.new ≡ grid.old) }
{
    let RowCells { row, start, end } = cells;
    let width = width_of(&grid.widths, row);
    if end <= start || width < end {
        return Ok(());
    }
    let Some(wide) = (width - (end - start)).checked_add(char_count(word)) else {
        return Err(AllocError);
    };
    let old = grid.runs.as_slice();
    let (from, to) = row_bounds(old, row);
    replaced_row(&mut grid.text, spare, &old[from..to], cells, word, role)?;
    exchange(&mut grid.runs, from, to, &mut spare.runs)?;
    grid.widths[row] = wide;
    Ok(())
}
