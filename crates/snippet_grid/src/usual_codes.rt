//! The codes of the styles that most sheets have: of bold type, of one of the sixteen colours, or of both.
ghost use Rattle.std.specs.Prelude.{◌≡◌, ◌+◌, ◌++◌, OnOk, string_bytes, true};
ghost use Rattle.std.specs.Fmt.{decimal};
ghost use Rattle.snippet_grid.specs.UsualCodes.{IsCodeOf, usual_bytes};
ghost use Rattle.snippet_style.specs.Codes as spec;

use snippet_style::{AnsiColor, Color, Effects, Style};
use std::alloc::AllocError;

/// The code of such a style.
#[derive(Clone, Copy)]
pub(crate) enum UsualCode {
    /// Of bold type.
    Bold,
    /// Of a colour.
    Color(AnsiColor),
    /// Of bold type in a colour.
    BoldColor(AnsiColor),
}

impl UsualCode {
    /// Adds the code to a text. The compiler knows how long the codes of each kind are.
    #[inline(never)]
    pub(crate) fn push(self, out: &mut String) -> Result<(), AllocError>
        ensures text { OnOk result (string_bytes out.new ≡ string_bytes out.old ++ usual_bytes self) }
    {
        match self {
            UsualCode::Bold => out.push_str("\u{1b}[1m"),
            UsualCode::Color(color) => out.push_str(color_code(color)),
            UsualCode::BoldColor(color) => out.push_str(bold_color_code(color)),
        }
    }
}

/// What opens a style.
#[derive(Clone, Copy)]
pub(crate) enum StyleCode {
    /// Nothing, since it is plain.
    Nothing,
    /// A usual code.
    Usual(UsualCode),
    /// A code that is written anew each time.
    Other,
}

/// What opens a style.
#[inline(always)]
pub(crate) fn code_of(style: Style) -> StyleCode
    ensures code { IsCodeOf result style }
{
    let bold = style.effects.bold;
    let rest = Style {
        fg: None,
        effects: Effects {
            bold: false,
            ..style.effects
        },
        ..style
    };
    if !rest.is_plain() {
        return StyleCode::Other;
    }
    match (style.fg, bold) {
        (None, false) => StyleCode::Nothing,
        (None, true) => StyleCode::Usual(UsualCode::Bold),
        (Some(Color::Ansi(color)), true) => StyleCode::Usual(UsualCode::BoldColor(color)),
        (Some(Color::Ansi(color)), false) => StyleCode::Usual(UsualCode::Color(color)),
        _ => StyleCode::Other,
    }
}

/// The code of a colour of the sixteen.
fn color_code(color: AnsiColor) -> &'static str
    ensures text { result.now ≡ spec.code (decimal (spec.foreground_number color + 0)) }
{
    match color {
        AnsiColor::Black => "\u{1b}[30m",
        AnsiColor::Red => "\u{1b}[31m",
        AnsiColor::Green => "\u{1b}[32m",
        AnsiColor::Yellow => "\u{1b}[33m",
        AnsiColor::Blue => "\u{1b}[34m",
        AnsiColor::Magenta => "\u{1b}[35m",
        AnsiColor::Cyan => "\u{1b}[36m",
        AnsiColor::White => "\u{1b}[37m",
        AnsiColor::BrightBlack => "\u{1b}[90m",
        AnsiColor::BrightRed => "\u{1b}[91m",
        AnsiColor::BrightGreen => "\u{1b}[92m",
        AnsiColor::BrightYellow => "\u{1b}[93m",
        AnsiColor::BrightBlue => "\u{1b}[94m",
        AnsiColor::BrightMagenta => "\u{1b}[95m",
        AnsiColor::BrightCyan => "\u{1b}[96m",
        AnsiColor::BrightWhite => "\u{1b}[97m",
    }
}

/// The code of bold type and a colour of the sixteen.
fn bold_color_code(color: AnsiColor) -> &'static str
    ensures text { result.now ≡ spec.effect_code true 1 ++ spec.code (decimal (spec.foreground_number color + 0)) }
{
    match color {
        AnsiColor::Black => "\u{1b}[1m\u{1b}[30m",
        AnsiColor::Red => "\u{1b}[1m\u{1b}[31m",
        AnsiColor::Green => "\u{1b}[1m\u{1b}[32m",
        AnsiColor::Yellow => "\u{1b}[1m\u{1b}[33m",
        AnsiColor::Blue => "\u{1b}[1m\u{1b}[34m",
        AnsiColor::Magenta => "\u{1b}[1m\u{1b}[35m",
        AnsiColor::Cyan => "\u{1b}[1m\u{1b}[36m",
        AnsiColor::White => "\u{1b}[1m\u{1b}[37m",
        AnsiColor::BrightBlack => "\u{1b}[1m\u{1b}[90m",
        AnsiColor::BrightRed => "\u{1b}[1m\u{1b}[91m",
        AnsiColor::BrightGreen => "\u{1b}[1m\u{1b}[92m",
        AnsiColor::BrightYellow => "\u{1b}[1m\u{1b}[93m",
        AnsiColor::BrightBlue => "\u{1b}[1m\u{1b}[94m",
        AnsiColor::BrightMagenta => "\u{1b}[1m\u{1b}[95m",
        AnsiColor::BrightCyan => "\u{1b}[1m\u{1b}[96m",
        AnsiColor::BrightWhite => "\u{1b}[1m\u{1b}[97m",
    }
}
