//! The runs of a grid's rows, row by row, written to any sink.
ghost use Rattle.std.specs.Prelude.{◌≡◌, ◌<◌, ◌+◌, ◌++◌, List, length, IfOk, OnOk, encode_utf8, string_bytes};
ghost use Rattle.std.specs.List.{AllPairs};
ghost use Rattle.std.specs.Option.{option_copied};
ghost use Rattle.snippet_grid.specs.Changes.{RowAt};
ghost use Rattle.snippet_grid.specs.Grid.{row_at};
ghost use Rattle.snippet_grid.specs.OpenRow.{cells_alike};
ghost use Rattle.snippet_grid.specs.Runs.{BeginsRow, IsGrid, IsRow, IsRun, EndsBy, Precedes, cells_to, grid_shown};
ghost use Rattle.snippet_grid.specs.Runs.{run_chars};
ghost use Rattle.snippet_style.specs.Cell.{Cell};

use crate::row_sink::RowSink;
use crate::runs::Run;
use std::alloc::AllocError;

/// Adds the line feed before a row that is not the first.
#[inline(always)]
pub(crate) fn feed(text: &mut String, row: usize) -> Result<(), AllocError>
    ensures first { OnOk result (row ≡ 0 → string_bytes text.new ≡ string_bytes text.old) }
    ensures further { OnOk result (0 < row → string_bytes text.new ≡ string_bytes text.old ++ encode_utf8 10) }
{
    if row == 0 {
        return Ok(());
    }
    text.push('\n')
}

/// Writes a row whose runs begin at this one, and gives where those of the next row begin.
#[inline(always)]
pub(crate) fn write_row<'a, S: RowSink<'a>>(
    sink: &mut S,
    text: &str,
    runs: &[Run<'a>],
    widths: &[usize],
    from: usize,
    row: usize,
) -> Result<usize, AllocError>
    requires grid { IsGrid text.now runs.now widths.now }
    requires begins { BeginsRow runs.now from row }
    requires within { row < length widths.now }
    ensures next { IfOk result (λ to. BeginsRow runs.now to (row + 1)) }
    ensures added { OnOk result ((start : S) (cells : List Cell) → S.adds start sink.old cells
        → S.adds start sink.new (cells ++ row_at (grid_shown text.now runs.now widths.now) row)) }
{
    let to = row_end(runs, from, row);
    write_runs(sink, text, &runs[from..to], row, widths[row])?;
    Ok(to)
}

/// Where the runs of a row end that begin here.
#[inline(always)]
fn row_end(runs: &[Run<'_>], from: usize, row: usize) -> usize
    requires ordered { AllPairs (λ a b. Precedes a b) runs.now }
    requires begins { BeginsRow runs.now from row }
    ensures at { RowAt runs.now row from result }
{
    let mut to = from;
    while to < runs.len() && runs[to].row == row {
        to += 1;
    }
    to
}

/// Writes the first cells of a row, as many as these: what its runs hold, and unstyled spaces between them.
#[inline(always)]
fn write_runs<'a, S: RowSink<'a>>(
    sink: &mut S,
    text: &str,
    runs: &[Run<'a>],
    row: usize,
    width: usize,
) -> Result<(), AllocError>
    requires runs { IsRow text.now row runs.now }
    requires ends { EndsBy width runs.now }
    ensures added { OnOk result ((start : S) (cells : List Cell) → S.adds start sink.old cells
        → S.adds start sink.new (cells ++ cells_to text.now runs.now row width)) }
{
    let mut col = 0;
    for run in runs {
        sink.add_spaces(run.cell - col)?;
        write_run(sink, text, run)?;
        col = run.cell + run.count;
    }
    sink.add_spaces(width - col)
}

/// Writes what a run holds.
#[inline(always)]
fn write_run<'a, S: RowSink<'a>>(sink: &mut S, text: &str, run: &Run<'a>) -> Result<(), AllocError>
    requires run { IsRun text.now run.now }
    ensures added { OnOk result ((start : S) (cells : List Cell) → S.adds start sink.old cells
        → S.adds start sink.new (cells ++ cells_alike run.now.role (option_copied run.now.link)
        (run_chars text.now run.now))) }
{
    let word = &text[run.start..run.end];
    match run.link {
        Some(url) => sink.add_link(word, run.role, url),
        None => sink.add_word(word, run.role),
    }
}
