//! Characters in their roles, for who keeps the cells of a row one by one.
ghost use Rattle.std.specs.Prelude.{◌≡◌, ◌↔◌, IsTrue};
ghost use Rattle.snippet_grid.specs.StyledChars.{cell_of};
ghost use Rattle.snippet_style.specs.Cell.{SPACE};

use snippet_style::ElementStyle;

/// A character in a role.
#[derive(Clone, Copy)]
pub struct StyledChar {
    pub ch: char,
    pub role: ElementStyle,
}

impl StyledChar {
    /// Whether it is a space of no role, as a row is filled up with.
    #[inline(always)]
    pub fn is_blank(&self) -> bool
        ensures value { IsTrue result ↔ (cell_of self.now ≡ SPACE) }
    {
        self.ch == ' ' && matches!(self.role, ElementStyle::NoStyle)
    }
}
