//! How reports look.
ghost use Rattle.std.specs.Prelude.{◌≡◌};
ghost use Rattle.redraw_run.specs.ReportLook.{looks};

use annotate_snippets::Renderer;
use program::options::{Options, renderer_of};
use redraw_command::terminal::{Look, Markup, Surroundings};

/// What draws reports: the library's renderer, and what else of the form of all that is printed matters.
#[derive(Drop)]
pub struct ReportRenderer {
    pub settings: Renderer,
    /// The markup that all is written in.
    pub markup: Markup,
    /// Whether findings are written as workflow commands of GitHub, which no other line may be taken for.
    pub is_workflow: bool,
}

/// What draws reports as they are to look there. In HTML they are in the graphic form, and link. Where they are to fit,
/// each row of a label that is broken stands below the one before.
pub fn renderer_for(look: &Look, around: Surroundings<'_>) -> ReportRenderer
    ensures settings { result ≡ looks look.now around.entry }
{
    let has_colors = look.has_colors(around);
    let options = Options {
        unicode: look.unicode,
        text: look.text,
        short: look.short && !look.markup.is_html(),
        styled: has_colors,
        width: look.width.or(around.columns),
    };
    let settings = renderer_of(options)
        .hyperlink(look.markup.is_html() || has_colors && look.has_links(around))
        .show_line_feeds(true)
        .mask_controls(true)
        .wrap(look.fit)
        .label_lines(look.fit);
    ReportRenderer {
        settings,
        markup: look.markup,
        is_workflow: look.github,
    }
}
