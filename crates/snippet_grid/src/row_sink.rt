//! What a row is written to from left to right: one that is printed at once, or one of a grid.
//!
//! ```text
//!    = note: expected `u32`
//! ^^^                             spaces
//!    ^^^^^^^^^^^^^^^^^^^          words, each in its role
//! ```
ghost use Rattle.std.specs.Prelude.{◌<◌, ◌++◌, ◌∷◌, [], List, IfOk, OnOk, chars, length, map, replicate};
ghost use Rattle.snippet_grid.specs.Grid.{linked};
ghost use Rattle.snippet_style.specs.Cell.{Cell, SPACE, text_cells};

use snippet_style::ElementStyle;
use std::alloc::AllocError;

/// A row that is written from left to right, where nothing overlaps.
pub trait RowSink<'a> {
    ghost use Rattle.std.specs.Prelude.{List};
    ghost use Rattle.snippet_style.specs.Cell.{Cell};

    /// What holds the row once it has ended.
    type Ended;

    // The cells that the row gained between two times.
    ghost adds: { Self → Self → List Cell → Type 0 };

    // The rows that were gained from a time to the end.
    ghost gains: { Self → Self.Ended → List (List Cell) → Type 0 };

    /// Adds unstyled spaces to the row.
    ///
    /// # Errors
    ///
    /// There is no memory for them.
    fn add_spaces(&mut self, count: usize) -> Result<(), AllocError>
        ensures added { OnOk result ((start : Self) (cells : List Cell) → adds start self.old cells
            → adds start self.new (cells ++ replicate count SPACE)) };

    /// Adds a text in a role to the row, one cell for each character.
    ///
    /// # Errors
    ///
    /// There is no memory for it.
    fn add_word(&mut self, word: &str, role: ElementStyle) -> Result<(), AllocError>
        ensures added { OnOk result ((start : Self) (cells : List Cell) → adds start self.old cells
            → adds start self.new (cells ++ text_cells role (chars word.now))) };

    /// Adds a text in a role to the row, which links to a URL.
    ///
    /// # Errors
    ///
    /// There is no memory for it.
    fn add_link(&mut self, word: &str, role: ElementStyle, url: &'a str) -> Result<(), AllocError>
        ensures added { OnOk result ((start : Self) (cells : List Cell) → adds start self.old cells
            → adds start self.new (cells ++ map (linked url.now) (text_cells role (chars word.now)))) };

    /// Ends the row. One without cells may not be there.
    ///
    /// # Errors
    ///
    /// There is no memory for its end.
    fn end(self) -> Result<Self::Ended, AllocError>
        ensures gained { IfOk result (λ ended. (start : Self) (cells : List Cell) → adds start self cells
            → 0 < length cells → gains start ended (cells ∷ [])) };
}
