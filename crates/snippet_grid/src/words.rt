//! Words that are written into a grid of runs.
ghost use Rattle.std.specs.Prelude.{◌≡◌, ◌↔◌, ◌+◌, ◌<◌, ◌≤◌, ◌++◌, max, true, length, map, None};
ghost use Rattle.std.specs.Prelude.{IfOk, OnOk, OnErr, IsOk, IsTrue};
ghost use Rattle.std.specs.Prelude.{◌∷◌, [], encode_utf8, string_bytes, vec_capacity};
ghost use Rattle.std.specs.List.{slice_index_or};
ghost use Rattle.std.specs.Option.{option_copied};
ghost use Rattle.std.specs.Str.{chars};
ghost use Rattle.snippet_grid.specs.Grid.{cells_written};
ghost use Rattle.snippet_style.specs.Cell.{text_cells};
ghost use Rattle.snippet_grid.specs.Runs.{BeginsWith, IsRun, IsGrid, IsLast, IsWord, IsWidened, run_chars, grid_shown};
ghost use Rattle.snippet_grid.specs.Stored.{stored};
ghost use Rattle.snippet_style.specs.Bounds.{HasNext, IsRowNumber, IsUsize};

use crate::cells::Cells;
use crate::put::{Spare, put_run};
use crate::runs::{Run, add_run};
use snippet_style::{ElementStyle, char_count};
use std::alloc::AllocError;

/// The most rows that a grid may have.
const MAX_ROWS: usize = (1 << 60) - 1;

/// How many cells a row has, none where there is no such row.
pub(crate) fn width_of(widths: &[usize], row: usize) -> usize
    ensures value { result ≡ slice_index_or widths.now row 0 }
{
    if row < widths.len() { widths[row] } else { 0 }
}

/// Whether a text has no more characters than there is room for.
pub(crate) fn fits(text: &str, room: usize) -> bool
    ensures value { IsTrue result ↔ length (chars text.now) ≤ room }
{
    // A character has a byte at least, so there is nothing to count where the bytes fit.
    if text.len() <= room {
        return true;
    }
    char_count(text) <= room
}

/// What most reports take: the first write makes room for so much at once.
const FIRST_BYTES: usize = 1008;

const FIRST_RUNS: usize = 112;

const FIRST_ROWS: usize = 16;

/// Makes room for a small report, if nothing was written yet.
#[inline(always)]
pub(crate) fn make_first_room(
    text: &mut String,
    runs: &mut Vec<Run<'_>>,
    widths: &mut Vec<usize>,
) -> Result<(), AllocError>
    ensures text { string_bytes text.new ≡ string_bytes text.old }
    ensures runs { runs.new.items ≡ runs.old.items }
    ensures widths { widths.new.items ≡ widths.old.items }
{
    if !runs.is_empty() {
        return Ok(());
    }
    reserve_first(text, runs, widths)
}

/// Reserves room for a small report.
fn reserve_first(
    text: &mut String,
    runs: &mut Vec<Run<'_>>,
    widths: &mut Vec<usize>,
) -> Result<(), AllocError>
    ensures text { string_bytes text.new ≡ string_bytes text.old }
    ensures runs { runs.new.items ≡ runs.old.items }
    ensures widths { widths.new.items ≡ widths.old.items }
{
    text.reserve(FIRST_BYTES)?;
    runs.reserve(FIRST_RUNS)?;
    widths.reserve(FIRST_ROWS)
}

/// Makes room for a row of this number.
#[inline(always)]
pub(crate) fn make_room(widths: &mut Vec<usize>, row: usize) -> Result<(), AllocError>
    requires row { HasNext row }
    ensures items { widths.new.items ≡ widths.old.items }
    ensures room { OnOk result (row + 1 ≤ vec_capacity widths.new) }
    ensures few { OnOk result (IsRowNumber (length widths.old.items)
        → IsRowNumber (max (length widths.old.items) (row + 1))) }
{
    let len = widths.len();
    if row < len {
        return Ok(());
    }
    widths.reserve(row + 1 - len)?;

    // No memory holds so many rows, so the reserve has failed before. The test states it for the
    // proof, since a `Vec` promises only a bound on its capacity that is above this one.
    if row >= MAX_ROWS {
        return Err(AllocError);
    }
    Ok(())
}

/// Makes a row reach to this cell, unless it is longer already. There is room for it.
#[inline(always)]
fn widen(widths: &mut Vec<usize>, row: usize, end: usize) -> Result<(), AllocError>
    requires row { HasNext row }
    requires room { row + 1 ≤ vec_capacity widths.old }
    ensures wide { IsWidened widths.old.items widths.new.items row end }
    ensures succeeds { IsOk result }
{
    let len = widths.len();
    if len == row {
        widths.push(end)?;
        return Ok(());
    }
    if len < row {
        widths.resize(row + 1, 0)?;
    }
    if widths[row] < end {
        widths[row] = end;
    }
    Ok(())
}

/// Adds a word to the text, as a run.
#[inline(always)]
pub(crate) fn push_word<'a>(
    text: &mut String,
    row: usize,
    at: usize,
    word: &str,
    role: ElementStyle,
) -> Result<Run<'a>, AllocError>
    requires some { 0 < length (chars word.now) }
    requires end { IsUsize (at + length (chars word.now)) }
    ensures ok { IfOk result (λ run. IsWord (string_bytes text.new) row at role word.now run) }
    ensures text { BeginsWith (string_bytes text.old) (string_bytes text.new) }
{
    let count = char_count(word);
    let start = text.len();
    text.push_str(word)?;
    Ok(Run {
        row,
        cell: at,
        count,
        start,
        end: text.len(),
        role,
        link: None,
    })
}

/// Adds a character to the text, as a run.
#[inline(always)]
fn push_char<'a>(
    text: &mut String,
    row: usize,
    at: usize,
    ch: char,
    role: ElementStyle,
) -> Result<Run<'a>, AllocError>
    requires end { HasNext at }
    ensures ok { IfOk result (λ run. IsWord (string_bytes text.new) row at role (encode_utf8 ch) run) }
    ensures alone { OnOk result (chars (encode_utf8 ch) ≡ ch ∷ []) }
    ensures text { BeginsWith (string_bytes text.old) (string_bytes text.new) }
{
    let start = text.len();
    text.push(ch)?;
    Ok(Run {
        row,
        cell: at,
        count: 1,
        start,
        end: text.len(),
        role,
        link: None,
    })
}

/// Whether a run is to stand after all that is written: in the last row, and not left of its end.
#[inline(always)]
fn is_last(widths: &[usize], run: &Run<'_>) -> bool
    ensures yes { result ≡ true → IsLast widths.now run.now }
{
    let row = run.row;
    row < widths.len() && widths.len() - row == 1 && widths[row] <= run.cell
}

/// Puts a run of cells with no link after all that is written.
#[inline(always)]
fn place_last<'a>(
    text: &mut String,
    copy: &mut String,
    runs: &mut Vec<Run<'a>>,
    widths: &mut Vec<usize>,
    run: &Run<'a>,
) -> Result<(), AllocError>
    requires grid { IsGrid (string_bytes text.old) runs.old.items widths.old.items }
    requires run { IsRun (string_bytes text.old) run.now }
    requires unlinked { option_copied run.now.link ≡ None }
    requires last { IsLast widths.old.items run.now }
    ensures ok { OnOk result (grid_shown (string_bytes text.new) runs.new.items widths.new.items
        ≡ cells_written (grid_shown (string_bytes text.old) runs.old.items widths.old.items) run.now.row run.now.cell
        (text_cells run.now.role (run_chars (string_bytes text.old) run.now))) }
    ensures grid { IsGrid (string_bytes text.new) runs.new.items widths.new.items }
    ensures runs_added { length runs.new.items ≤ length runs.old.items + 2 }
    ensures rows { IsRowNumber (length widths.old.items) → IsRowNumber (length widths.new.items) }
    ensures err { OnErr result (stored (string_bytes text.new) runs.new.items widths.new.items
        ≡ stored (string_bytes text.old) runs.old.items widths.old.items) }
{
    add_run(text, copy, runs, run)?;
    widths[run.row] = run.cell + run.count;
    Ok(())
}

/// Puts a run of cells with no link over what others hold, and makes its row reach to its end. Most of what is written
/// goes on where the last row ends.
#[inline(always)]
fn place_run<'a>(
    text: &mut String,
    spare: &mut Spare<'a>,
    runs: &mut Vec<Run<'a>>,
    widths: &mut Vec<usize>,
    run: &Run<'a>,
) -> Result<(), AllocError>
    requires grid { IsGrid (string_bytes text.old) runs.old.items widths.old.items }
    requires run { IsRun (string_bytes text.old) run.now }
    requires unlinked { option_copied run.now.link ≡ None }
    requires row { HasNext run.now.row }
    ensures ok { OnOk result (grid_shown (string_bytes text.new) runs.new.items widths.new.items
        ≡ cells_written (grid_shown (string_bytes text.old) runs.old.items widths.old.items) run.now.row run.now.cell
        (text_cells run.now.role (run_chars (string_bytes text.old) run.now))) }
    ensures grid { IsGrid (string_bytes text.new) runs.new.items widths.new.items }
    ensures runs_added { length runs.new.items ≤ length runs.old.items + 2 }
    ensures rows { IsRowNumber (length widths.old.items) → IsRowNumber (length widths.new.items) }
    ensures err { OnErr result (stored (string_bytes text.new) runs.new.items widths.new.items
        ≡ stored (string_bytes text.old) runs.old.items widths.old.items) }
{
    if is_last(widths, run) {
        return place_last(text, &mut spare.text, runs, widths, run);
    }
    make_room(widths, run.row)?;
    put_run(text, spare, runs, run)?;
    widen(widths, run.row, run.cell + run.count)?;
    Ok(())
}

/// Writes a word that has a character into a row, from this cell on.
#[inline(always)]
pub(crate) fn write_word<'a>(
    cells: &mut Cells<'a>,
    spare: &mut Spare<'a>,
    row: usize,
    at: usize,
    word: &str,
    role: ElementStyle,
) -> Result<(), AllocError>
    requires row { HasNext row }
    requires end { IsUsize (at + length (chars word.now)) }
    requires some { 0 < length (chars word.now) }
    ensures ok { OnOk result
        (cells.new.rows ≡ cells_written cells.old.rows row at (text_cells role (chars word.now))) }
    ensures runs_added { cells.new.num_runs ≤ cells.old.num_runs + 2 }
    ensures err { OnErr result (cells.new ≡ cells.old) }
{
    make_first_room(&mut cells.text, &mut cells.runs, &mut cells.widths)?;
    let run = push_word(&mut cells.text, row, at, word, role)?;
    place_run(
        &mut cells.text,
        spare,
        &mut cells.runs,
        &mut cells.widths,
        &run,
    )
}

/// Writes a character into a row, at this cell.
#[inline(always)]
pub(crate) fn write_char<'a>(
    cells: &mut Cells<'a>,
    spare: &mut Spare<'a>,
    row: usize,
    at: usize,
    ch: char,
    role: ElementStyle,
) -> Result<(), AllocError>
    requires row { HasNext row }
    requires end { HasNext at }
    ensures ok { OnOk result
        (cells.new.rows ≡ cells_written cells.old.rows row at (text_cells role (ch ∷ []))) }
    ensures runs_added { cells.new.num_runs ≤ cells.old.num_runs + 2 }
    ensures err { OnErr result (cells.new ≡ cells.old) }
{
    make_first_room(&mut cells.text, &mut cells.runs, &mut cells.widths)?;
    let run = push_char(&mut cells.text, row, at, ch, role)?;
    place_run(
        &mut cells.text,
        spare,
        &mut cells.runs,
        &mut cells.widths,
        &run,
    )
}
