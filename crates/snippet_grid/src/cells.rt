//! The cells of a grid's rows, kept as runs.
ghost use Rattle.std.specs.Prelude.{◌≡◌, ◌≤◌, [], length};
ghost use Rattle.snippet_grid.specs.Grid.{row_at};
ghost use Rattle.snippet_grid.specs.Calls.{num_cells};
ghost use Rattle.snippet_grid.specs.RunBounds.{fewest_runs, most_runs};
ghost use Rattle.snippet_style.specs.Bounds.{IsRowNumber};

use crate::runs::Run;
use crate::words::width_of;
use std::alloc::Global;
use std::marker::Model;

/// The cells of a grid's rows.
#[derive(Drop)]
pub(crate) struct Cells<'a> {
    /// What is written, in order; a cell that no run holds is an unstyled space.
    pub(crate) runs: Vec<Run<'a>>,
    /// How many cells each row has.
    pub(crate) widths: Vec<usize>,
    /// The characters of the runs, and what they were copied from.
    pub(crate) text: String,
}

impl<'a> Model for Cells<'a> {
    ghost use Rattle.std.specs.Prelude.{length, string_bytes};
    ghost use Rattle.snippet_style.specs.Bounds.{IsRowNumber};
    ghost use Rattle.snippet_grid.specs.Stored.{Stored, stored};
    ghost use Rattle.snippet_grid.specs.Runs.{IsGrid};

    ghost Value = { Stored };

    ghost view = { λ c. stored (string_bytes c.text) c.runs.items c.widths.items };

    ghost invariant = { λ c. IsGrid (string_bytes c.text) c.runs.items c.widths.items
        × IsRowNumber (length c.widths.items) };
}

/// Some cells of a row: those from `start` to before `end`.
#[derive(Clone, Copy)]
pub(crate) struct RowCells {
    pub(crate) row: usize,
    pub(crate) start: usize,
    pub(crate) end: usize,
}

impl<'a> Cells<'a> {
    /// No rows.
    pub(crate) fn new(alloc: Global) -> Cells<'a>
        ensures empty { result.rows ≡ [] }
    {
        Cells {
            runs: Vec::new(alloc),
            widths: Vec::new(alloc),
            text: String::new(alloc),
        }
    }

    /// Takes all rows away. What they had room in is used again.
    pub(crate) fn clear(&mut self)
        ensures empty { self.new.rows ≡ [] }
    {
        self.runs.clear();
        self.widths.clear();
        self.text.clear();
    }

    /// How many rows there are.
    pub(crate) fn num_rows(&self) -> usize
        ensures count { result ≡ length self.now.rows }
        ensures small { IsRowNumber result }
    {
        self.widths.len()
    }

    /// How many runs are kept.
    pub(crate) fn num_runs(&self) -> usize
        ensures few { result ≤ num_cells self.now.rows }
        ensures enough { fewest_runs self.now.rows ≤ result }
        ensures apart { result ≤ most_runs self.now.rows }
    {
        self.runs.len()
    }

    /// How many cells a row has, none where there is no such row.
    pub(crate) fn width(&self, row: usize) -> usize
        ensures value { result ≡ length (row_at self.now.rows row) }
    {
        width_of(&self.widths, row)
    }
}
