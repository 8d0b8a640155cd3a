//! How sheets and their styles are read.

ghost use Rattle.std.specs.Prelude.{◌≡◌, ◌∷◌, IfOk, IfSome};
ghost use Rattle.snippet_style.specs.Style.{plain_style};
ghost use Rattle.snippet_style.specs.Stylesheet.{default_sheet};
ghost use Rattle.report_bytes.specs.Bytes.{color_then, effects_then, sheet_then, style_then};
ghost use Rattle.report_bytes.specs.Reading.{Gives, after_byte, after_color, after_effects, after_levels};
ghost use Rattle.report_bytes.specs.Reading.{after_parts, after_sheet, after_style};

use crate::fault::{ReadError, Wrong};
use crate::field::{flag, kind};
use crate::kind::ansi;
use crate::part::{FromBytes, option};
use snippet_style::{Color, Effects, Style, Stylesheet};
use std::alloc::Global;

impl<'v> FromBytes<'v> for Stylesheet {
    ghost part_then = { sheet_then };

    ghost after = { after_sheet };

    ghost fits = { λ _. Unit {0} };

    fn read(alloc: Global, bytes: &'v [u8]) -> Result<(Self, &'v [u8]), ReadError> {
        match after_default(bytes) {
            Some(rest) => Ok((Stylesheet::styled(), rest)),
            None => sheet(alloc, bytes),
        }
    }
}

/// The bytes of the default sheet, a row for each style.
const DEFAULT_SHEET: [u8; 128] = [
    1, 0, 9, 0, 1, 0, 0, 0, 0, 0, 0, 0, // error
    1, 0, 3, 0, 1, 0, 0, 0, 0, 0, 0, 0, // warning
    1, 0, 12, 0, 1, 0, 0, 0, 0, 0, 0, 0, // info
    1, 0, 10, 0, 1, 0, 0, 0, 0, 0, 0, 0, // note
    1, 0, 14, 0, 1, 0, 0, 0, 0, 0, 0, 0, // help
    1, 0, 12, 0, 1, 0, 0, 0, 0, 0, 0, 0, // line_num
    0, 0, 1, 0, 0, 0, 0, 0, 0, 0, // emphasis
    0, 0, 0, 0, 0, 0, 0, 0, 0, 0, // none
    1, 0, 12, 0, 1, 0, 0, 0, 0, 0, 0, 0, // context
    1, 0, 10, 0, 0, 0, 0, 0, 0, 0, 0, 0, // addition
    1, 0, 9, 0, 0, 0, 0, 0, 0, 0, 0, 0, // removal
];

/// What is left after the default sheet, where that is at the front, as it is of most reports in colours.
fn after_default(bytes: &[u8]) -> Option<&[u8]>
    ensures default { IfSome result (λ rest. bytes.now ≡ sheet_then default_sheet rest.now) }
{
    bytes.strip_prefix(&DEFAULT_SHEET)
}

/// The sheet at the front.
#[tactic(auto, unfolding(crate::specs::Reading::after_sheet))]
fn sheet(alloc: Global, bytes: &[u8]) -> Result<(Stylesheet, &[u8]), ReadError>
    ensures left { Gives (λ x. x.1.now) result (after_sheet bytes.now) }
    ensures spelled { IfOk result (λ x. bytes.now ≡ sheet_then x.0 x.1.now) }
{
    let (levels, rest) = levels(alloc, bytes)?;
    let (parts, rest) = parts(alloc, rest)?;
    let sheet = Stylesheet {
        line_num: parts.line_num,
        emphasis: parts.emphasis,
        none: parts.none,
        context: parts.context,
        addition: parts.addition,
        removal: parts.removal,
        ..levels
    };
    Ok((sheet, rest))
}

/// The styles of the five levels, and the plain one for all else.
#[tactic(auto, unfolding(crate::specs::Reading::after_levels))]
fn levels(alloc: Global, bytes: &[u8]) -> Result<(Stylesheet, &[u8]), ReadError>
    ensures left { Gives (λ x. x.1.now) result (after_levels bytes.now) }
    ensures spelled { IfOk result (λ x. bytes.now ≡ style_then x.0.error (style_then x.0.warning (style_then x.0.info
        (style_then x.0.note (style_then x.0.help x.1.now))))) }
{
    let (error, rest) = Style::read(alloc, bytes)?;
    let (warning, rest) = Style::read(alloc, rest)?;
    let (info, rest) = Style::read(alloc, rest)?;
    let (note, rest) = Style::read(alloc, rest)?;
    let (help, rest) = Style::read(alloc, rest)?;
    let sheet = Stylesheet {
        error,
        warning,
        info,
        note,
        help,
        ..Stylesheet::plain()
    };
    Ok((sheet, rest))
}

/// The six other styles, and the plain one for levels.
#[tactic(auto, unfolding(crate::specs::Reading::after_parts))]
fn parts(alloc: Global, bytes: &[u8]) -> Result<(Stylesheet, &[u8]), ReadError>
    ensures left { Gives (λ x. x.1.now) result (after_parts bytes.now) }
    ensures spelled { IfOk result (λ x. bytes.now ≡ style_then x.0.line_num (style_then x.0.emphasis
        (style_then x.0.none (style_then x.0.context (style_then x.0.addition (style_then x.0.removal x.1.now)))))) }
{
    let (line_num, rest) = Style::read(alloc, bytes)?;
    let (emphasis, rest) = Style::read(alloc, rest)?;
    let (none, rest) = Style::read(alloc, rest)?;
    let (context, rest) = Style::read(alloc, rest)?;
    let (addition, rest) = Style::read(alloc, rest)?;
    let (removal, rest) = Style::read(alloc, rest)?;
    let sheet = Stylesheet {
        line_num,
        emphasis,
        none,
        context,
        addition,
        removal,
        ..Stylesheet::plain()
    };
    Ok((sheet, rest))
}

impl<'v> FromBytes<'v> for Style {
    ghost part_then = { style_then };

    ghost after = { after_style };

    ghost fits = { λ _. Unit {0} };

    fn read(alloc: Global, bytes: &'v [u8]) -> Result<(Self, &'v [u8]), ReadError> {
        match after_plain(bytes) {
            Some(rest) => Ok((Style::new(), rest)),
            None => style(alloc, bytes),
        }
    }
}

/// What is left after the plain style, where that is at the front, as most styles of most sheets are.
fn after_plain(bytes: &[u8]) -> Option<&[u8]>
    ensures plain { IfSome result (λ rest. bytes.now ≡ style_then plain_style rest.now) }
{
    match bytes {
        [0, 0, 0, 0, 0, 0, 0, 0, 0, 0, rest @ ..] => Some(rest),
        _ => None,
    }
}

/// The style at the front.
#[tactic(auto, unfolding(crate::specs::Reading::after_style))]
fn style(alloc: Global, bytes: &[u8]) -> Result<(Style, &[u8]), ReadError>
    ensures left { Gives (λ x. x.1.now) result (after_style bytes.now) }
    ensures spelled { IfOk result (λ x. bytes.now ≡ style_then x.0 x.1.now) }
{
    let (fg, rest) = option(alloc, bytes)?;
    let (bg, rest) = option(alloc, rest)?;
    let (effects, rest) = effects(rest)?;
    Ok((Style { fg, bg, effects }, rest))
}

impl<'v> FromBytes<'v> for Color {
    ghost part_then = { color_then };

    ghost after = { after_color };

    ghost fits = { λ _. Unit {0} };

    #[tactic(auto, unfolding(crate::specs::Reading::after_color))]
    fn read(_alloc: Global, bytes: &'v [u8]) -> Result<(Self, &'v [u8]), ReadError> {
        let (number, rest) = kind(3, bytes)?;
        match number {
            0 => {
                let (color, rest) = kind(16, rest)?;
                Ok((Color::Ansi(ansi(color)), rest))
            }
            1 => {
                let (index, rest) = byte(rest)?;
                Ok((Color::Ansi256(index), rest))
            }
            _ => {
                let (red, rest) = byte(rest)?;
                let (green, rest) = byte(rest)?;
                let (blue, rest) = byte(rest)?;
                Ok((Color::Rgb(red, green, blue), rest))
            }
        }
    }
}

/// The byte at the front.
fn byte(bytes: &[u8]) -> Result<(u8, &[u8]), ReadError>
    ensures left { Gives (λ x. x.1.now) result (after_byte bytes.now) }
    ensures spelled { IfOk result (λ x. bytes.now ≡ x.0 ∷ x.1.now) }
{
    match bytes {
        [] => Err(ReadError::at(Wrong::Short, bytes)),
        [byte, rest @ ..] => Ok((*byte, rest)),
    }
}

/// The effects at the front.
#[tactic(auto, unfolding(crate::specs::Reading::after_effects))]
fn effects(bytes: &[u8]) -> Result<(Effects, &[u8]), ReadError>
    ensures left { Gives (λ x. x.1.now) result (after_effects bytes.now) }
    ensures spelled { IfOk result (λ x. bytes.now ≡ effects_then x.0 x.1.now) }
{
    let (bold, rest) = flag(bytes)?;
    let (dimmed, rest) = flag(rest)?;
    let (italic, rest) = flag(rest)?;
    let (underline, rest) = flag(rest)?;
    let (blink, rest) = flag(rest)?;
    let (invert, rest) = flag(rest)?;
    let (hidden, rest) = flag(rest)?;
    let (strikethrough, rest) = flag(rest)?;
    let effects = Effects {
        bold,
        dimmed,
        italic,
        underline,
        blink,
        invert,
        hidden,
        strikethrough,
    };
    Ok((effects, rest))
}
