//! The rows of a group's title.
ghost use Rattle.std.specs.Prelude.{◌≡◌, ◌++◌, OnOk};
ghost use Rattle.snippet_model.specs.Fits.{TitleFits};
ghost use Rattle.snippet_titles.specs.PrintedHeading.{title_rows};

use crate::heading::draw_heading;
use crate::style::TitleStyle;
use snippet_grid::StyledBuffer;
use snippet_model::snippet::Title;
use std::alloc::AllocError;

/// Draws the title of a group below all that stands in the grid. Where links are on, the text of its id links to its
/// URL.
pub fn draw_title<'a>(
    buffer: &mut StyledBuffer<'a>,
    hyperlink: bool,
    title: &'a Title<'a>,
) -> Result<(), AllocError>
    requires fits { TitleFits title.now }
    ensures rows { OnOk result (buffer.new ≡ buffer.old ++ title_rows hyperlink title.now) }
{
    draw_heading(buffer, hyperlink, TitleStyle::Title, title)
}
