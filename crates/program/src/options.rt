//! How a report is drawn, as the arguments of a command line say it.
ghost use Rattle.std.specs.Prelude.{◌≡◌};
ghost use Rattle.program.specs.OptionSettings.{settings_of};

use annotate_snippets::Renderer;
use annotate_snippets::renderer::{DEFAULT_TERM_WIDTH, DecorStyle};

/// How a report is drawn.
#[derive(Clone, Copy, Debug, Default, PartialEq, Eq)]
pub struct Options {
    /// Whether strokes are drawn with line-drawing characters.
    pub unicode: bool,
    /// Whether the report is written without graphics.
    pub text: bool,
    /// Whether the report is written on one line.
    pub short: bool,
    /// Whether the report is written with style codes.
    pub styled: bool,
    /// The width that lines are cut to, in columns, where one is given.
    pub width: Option<usize>,
}

/// The renderer that the options ask for.
pub fn renderer_of(options: Options) -> Renderer
    ensures settings { result ≡ settings_of options }
{
    let renderer = if options.styled {
        Renderer::styled()
    } else {
        Renderer::plain()
    };
    let strokes = if options.unicode {
        DecorStyle::Unicode
    } else {
        DecorStyle::Ascii
    };
    renderer
        .no_graphics(options.text)
        .short_message(options.short)
        .decor_style(strokes)
        .term_width(options.width.unwrap_or(DEFAULT_TERM_WIDTH))
}
