//! Kinds by their numbers.

ghost use Rattle.std.specs.Prelude.{◌≡◌, ◌<◌};
ghost use Rattle.report_bytes.specs.Bytes.{ansi_number, decor_number, mark_number, severity_number};

use snippet_model::AnnotationKind;
use snippet_style::{AnsiColor, DecorStyle, LevelInner};

/// The kind of level of this number.
pub fn severity(number: u8) -> LevelInner
    requires below { number < 5 }
    ensures number { severity_number result ≡ number }
{
    match number {
        0 => LevelInner::Error,
        1 => LevelInner::Warning,
        2 => LevelInner::Info,
        3 => LevelInner::Note,
        _ => LevelInner::Help,
    }
}

/// The kind of mark of this number.
pub fn mark(number: u8) -> AnnotationKind
    requires below { number < 3 }
    ensures number { mark_number result ≡ number }
{
    match number {
        0 => AnnotationKind::Primary,
        1 => AnnotationKind::Context,
        _ => AnnotationKind::Visible,
    }
}

/// The set of glyphs of this number.
pub fn decor(number: u8) -> DecorStyle
    requires below { number < 2 }
    ensures number { decor_number result ≡ number }
{
    match number {
        0 => DecorStyle::Ascii,
        _ => DecorStyle::Unicode,
    }
}

/// The colour of this number.
pub fn ansi(number: u8) -> AnsiColor
    requires below { number < 16 }
    ensures number { ansi_number result ≡ number }
{
    match number {
        0 => AnsiColor::Black,
        1 => AnsiColor::Red,
        2 => AnsiColor::Green,
        3 => AnsiColor::Yellow,
        4 => AnsiColor::Blue,
        5 => AnsiColor::Magenta,
        6 => AnsiColor::Cyan,
        7 => AnsiColor::White,
        8 => AnsiColor::BrightBlack,
        9 => AnsiColor::BrightRed,
        10 => AnsiColor::BrightGreen,
        11 => AnsiColor::BrightYellow,
        12 => AnsiColor::BrightBlue,
        13 => AnsiColor::BrightMagenta,
        14 => AnsiColor::BrightCyan,
        _ => AnsiColor::BrightWhite,
    }
}
