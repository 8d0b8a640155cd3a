//! Styles and their codes, and the sheet that gives each role its style.

ghost use Rattle.std.specs.Prelude.{◌≡◌};
ghost use Rattle.snippet_style.specs.Stylesheet.{default_sheet};

use crate::renderer::{
    DEFAULT_ADDITION_STYLE, DEFAULT_CONTEXT_STYLE, DEFAULT_EMPHASIS_STYLE, DEFAULT_ERROR_STYLE,
    DEFAULT_HELP_STYLE, DEFAULT_INFO_STYLE, DEFAULT_LINE_NUM_STYLE, DEFAULT_NONE_STYLE,
    DEFAULT_NOTE_STYLE, DEFAULT_REMOVAL_STYLE, DEFAULT_WARNING_STYLE,
};
pub use snippet_style::{AnsiColor, Color, Effects, Style, Stylesheet, open_code, reset_code};

/// Proves, and does nothing else, that each constant that `renderer` gives is the style of the default sheet that its
/// name says.
fn prove_default_styles() -> Stylesheet
    ensures value { result ≡ default_sheet }
{
    Stylesheet {
        error: DEFAULT_ERROR_STYLE,
        warning: DEFAULT_WARNING_STYLE,
        info: DEFAULT_INFO_STYLE,
        note: DEFAULT_NOTE_STYLE,
        help: DEFAULT_HELP_STYLE,
        line_num: DEFAULT_LINE_NUM_STYLE,
        emphasis: DEFAULT_EMPHASIS_STYLE,
        none: DEFAULT_NONE_STYLE,
        context: DEFAULT_CONTEXT_STYLE,
        addition: DEFAULT_ADDITION_STYLE,
        removal: DEFAULT_REMOVAL_STYLE,
    }
}
