//! Where the parts of a suggestion's rows stand, and how it begins.

use snippet_grid::Layout;
use snippet_lines::LineNumbers;

/// Where the parts of a suggestion's rows stand, in cells from 0, and what its gutter shows.
///
/// ```text
///     1 - let x = 1;       a line's number is right-aligned in the first `base.gutter` cells, its glyph stands at
///     1 + let x = 2;       `base.separator_cell()`, and the line from `base.inner_cell()` on
/// ```
#[derive(Clone, Copy, Debug)]
pub struct SuggestionLayout {
    /// Where the parts of the group's rows stand.
    pub base: Layout,
    /// What stands in the gutter beside lines.
    pub numbers: LineNumbers,
}

/// How a suggestion begins.
///
/// ```text
///      ╭╴              Opening: a row of its own
///      ├╴              Next: in the last row of the suggestion before
///   ├▸ a.rs:1:5
///      │               Path: in the row below its path
/// ```
#[derive(Clone, Copy, Debug, PartialEq, Eq)]
pub enum SuggestionStart {
    /// In a row of its own.
    Opening,
    /// In the last row of the element before, which is a suggestion for the same file.
    Next,
    /// In the row that sets its path off from the lines, which is there and stays as it is.
    Path,
}
