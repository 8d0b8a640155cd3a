//! Rows that are kept cell by cell, and added to a grid once all is painted in them.
ghost use Rattle.std.specs.Prelude.{◌≡◌, ◌≢◌, ◌<◌, ◌≤◌, ◌-◌, ◌++◌, ◌∷◌, [], ℕ, IfOk, OnOk, OnErr, drop};
ghost use Rattle.std.specs.Prelude.{encode_utf8_all, length, map, string_bytes, take};
ghost use Rattle.std.specs.List.{slice_index_or};
ghost use Rattle.snippet_grid.specs.AddedRow.{AddsRow, AddsStretch};
ghost use Rattle.snippet_grid.specs.Runs.{BeginsWith};
ghost use Rattle.snippet_grid.specs.StyledChars.{cell_of, ch_of};
ghost use Rattle.snippet_grid.specs.declared.styled_char.StyledChar.{StyledChar};
ghost use Rattle.snippet_style.specs.Bounds.{IsRowNumber};
ghost use Rattle.snippet_style.specs.Cell.{SPACE};

use crate::cells::Cells;
use crate::runs::Run;
use crate::styled_char::StyledChar;
use crate::words::{make_first_room, make_room};
use std::alloc::AllocError;

/// Adds a row of these cells below all others.
pub(crate) fn add_row<'a>(cells: &mut Cells<'a>, row: &[StyledChar]) -> Result<(), AllocError>
    ensures ok { OnOk result (cells.new.rows ≡ cells.old.rows ++ map cell_of row.now ∷ []) }
    ensures small { OnOk result (IsRowNumber (length cells.old.rows)) }
    ensures err { OnErr result (cells.new ≡ cells.old) }
{
    make_first_room(&mut cells.text, &mut cells.runs, &mut cells.widths)?;
    let number = cells.widths.len();
    make_room(&mut cells.widths, number)?;
    let count = cells.runs.len();
    if let Err(error) = add_stretches(&mut cells.text, &mut cells.runs, number, row) {
        cells.runs.truncate(count);
        return Err(error);
    }
    cells.widths.push(row.len())?;
    Ok(())
}

/// Adds the cells of a row after all others, as runs: a run for each stretch of one role. Blanks need none.
///
/// ```text
///      | ||__^ a           runs: `|`, `||__^` or its parts, `a`
/// ```
fn add_stretches<'a>(
    text: &mut String,
    runs: &mut Vec<Run<'a>>,
    row: usize,
    cells: &[StyledChar],
) -> Result<(), AllocError>
    ensures text { BeginsWith (string_bytes text.old) (string_bytes text.new) }
    ensures ok { OnOk result
        (AddsRow (string_bytes text.new) row (map cell_of cells.now) runs.old.items runs.new.items) }
    ensures err { OnErr result (take (length runs.old.items) runs.new.items ≡ runs.old.items) }
{
    let mut from = 0;
    while from < cells.len() {
        if cells[from].is_blank() {
            from += 1;
        } else {
            from = add_stretch(text, runs, row, cells, from)?;
        }
    }
    Ok(())
}

/// Adds the cells of a row from this one on that are of its role, up to a blank, as a run, and gives the cell after
/// them. It is no blank itself.
#[inline(always)]
fn add_stretch<'a>(
    text: &mut String,
    runs: &mut Vec<Run<'a>>,
    row: usize,
    cells: &[StyledChar],
    from: usize,
) -> Result<usize, AllocError>
    requires some { from < length cells.now }
    requires filled { (d : StyledChar) → cell_of (slice_index_or cells.now from d) ≢ SPACE }
    ensures text { BeginsWith (string_bytes text.old) (string_bytes text.new) }
    ensures ok { IfOk result (λ to.
        AddsStretch (string_bytes text.new) row cells.now from to runs.old.items runs.new.items) }
    ensures err { OnErr result (runs.new.items ≡ runs.old.items) }
{
    let start = text.len();
    let to = spell(text, cells, from)?;
    runs.push(Run {
        row,
        cell: from,
        count: to - from,
        start,
        end: text.len(),
        role: cells[from].role,
        link: None,
    })?;
    Ok(to)
}

/// Adds the characters of the cells from this one on that are of its role, up to a blank, to a text, and gives the cell
/// after them.
#[inline(always)]
fn spell(text: &mut String, cells: &[StyledChar], from: usize) -> Result<usize, AllocError>
    requires some { from < length cells.now }
    requires filled { (d : StyledChar) → cell_of (slice_index_or cells.now from d) ≢ SPACE }
    ensures text { BeginsWith (string_bytes text.old) (string_bytes text.new) }
    ensures spelt { IfOk result (λ to. string_bytes text.new ≡ string_bytes text.old
        ++ encode_utf8_all (map ch_of (take (to - from) (drop from cells.now)))) }
    ensures more { IfOk result (λ to. from < to) }
    ensures within { IfOk result (λ to. to ≤ length cells.now) }
    ensures role { IfOk result (λ to. (k : ℕ) (d : StyledChar) → from ≤ k → k < to
        → (slice_index_or cells.now k d).role ≡ (slice_index_or cells.now from d).role) }
    ensures stops { IfOk result (λ to. (d : StyledChar) → to < length cells.now
        → (slice_index_or cells.now to d).role ≡ (slice_index_or cells.now from d).role
        → cell_of (slice_index_or cells.now to d) ≡ SPACE) }
{
    let role = cells[from].role;
    let mut to = from;
    while to < cells.len() && cells[to].role == role && !cells[to].is_blank() {
        text.push(cells[to].ch)?;
        to += 1;
    }
    Ok(to)
}
