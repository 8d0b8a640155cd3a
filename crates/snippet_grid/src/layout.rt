//! Where the parts of rows stand.

ghost use Rattle.std.specs.Prelude.{◌≡◌, ◌+◌, ◌<◌, ◌≤◌};
ghost use Rattle.snippet_grid.specs.Layout as spec;
ghost use Rattle.snippet_style.specs.Bounds.{IsAddable, IsCodeCell, code_limit};

use snippet_style::DecorStyle;
use std::marker::Model;

/// Where the parts of a group's rows stand, in cells from 0, and the glyphs of its strokes.
///
/// The gutter has at most 20 cells, those of the longest line number. The code stands right of the separator and the
/// space after it, and left of cell 2^63 + 2^32, so that a column of a line can be added to its cell.
///
/// ```text
///       |                  the separator stands at `separator_cell()`, one right of the gutter
///     1 | let x = 1;       a line's number is right-aligned in cells 0 to `gutter`, its source stands from `code` on
///       |     ^            the mark below column p stands at `code_cell(p)`
///     2 | | let y = 2;     the bar of depth d stands at `bar_cell(d)`, between the separator and the code
/// ```
#[derive(Clone, Copy, Debug)]
pub struct Layout {
    /// The number of cells that line numbers are right-aligned in.
    pub gutter: usize,
    /// The cell of the source's column 0.
    pub code: usize,
    /// The glyphs of the strokes.
    pub decor: DecorStyle,
    /// Whether a mark's label is cut at its line feeds, so that each piece stands in a row of its own.
    pub label_lines: bool,
    /// The cell before which the pieces of labels are to end, which are broken where they would not; 0 where none is.
    pub label_end: usize,
}

impl Model for Layout {
    ghost use Rattle.snippet_grid.specs.Layout.{Layout};

    ghost Value = { Layout };

    ghost use Rattle.snippet_grid.specs.LayoutOf.{layout_of, IsNarrow};

    ghost view = { layout_of };

    ghost invariant = { IsNarrow };

    ghost inverse = { λ l. record {
      gutter = l.gutter;
      code = l.code;
      decor = l.decor;
      label_lines = l.label_lines;
      label_end = l.label_end;
    } };
}

impl Layout {
    /// The cell of the separator, and of a sign or a closing glyph that stands in its place.
    pub fn separator_cell(self) -> usize
        ensures value { result ≡ spec.separator_cell self }
        ensures few { result ≤ 21 }
    {
        self.gutter + 1
    }

    /// The first cell right of the separator and the space after it. Bars stand from there on, and where there are none
    /// a suggestion's line and the label of a message.
    pub fn inner_cell(self) -> usize
        ensures value { result ≡ spec.inner_cell self }
        ensures few { result ≤ 23 }
        ensures place { result ≤ self.code }
    {
        self.gutter + 3
    }

    /// The cell of a bar of this depth, which is 1 for the leftmost one.
    pub fn bar_cell(self, depth: usize) -> usize
        requires depth { spec.bar_cell self depth < self.code }
        ensures value { result ≡ spec.bar_cell self depth }
        ensures left { IsCodeCell result }
    {
        self.gutter + 2 + depth
    }

    /// The cell of a column of the source.
    pub fn code_cell(self, column: usize) -> usize
        requires column { IsAddable column }
        ensures value { result ≡ spec.code_cell self column }
        ensures near { result < code_limit + column }
    {
        self.code + column
    }
}
