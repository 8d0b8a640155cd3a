//! The settings of a report, and how they are read.

ghost use Rattle.std.specs.Prelude.{◌≡◌, ◌+◌, IfOk, if◌then◌else◌};
ghost use Rattle.report_bytes.specs.Bytes.{later_then, number_then, settings_then, switch_then};
ghost use Rattle.report_bytes.specs.Reading.{Fails, Gives, after_kind, after_later, after_one, after_settings};
ghost use Rattle.report_bytes.specs.Reading.{after_switch};

use crate::fault::{ReadError, Wrong};
use crate::field::{flag, kind, number};
use crate::kind::decor;
use snippet_style::DecorStyle;

/// How a report is drawn: the settings of a renderer, but for its sheet.
#[derive(Clone, Copy, Debug)]
pub struct Settings {
    /// Whether line numbers after a path are shown as `LL`.
    pub anonymized_origin_line_numbers: bool,
    /// Whether line numbers of snippets are shown as `LL`.
    pub anonymized_snippet_line_numbers: bool,
    /// The width that lines are cut to, in columns.
    pub term_width: usize,
    /// The characters that strokes are drawn with.
    pub decor_style: DecorStyle,
    /// Whether the identifiers of titles link to their addresses.
    pub hyperlink: bool,
    /// Whether a report is drawn on one line.
    pub short_message: bool,
    /// Whether a report is written without graphics, for speech and Braille.
    pub no_graphics: bool,
    /// Whether line feeds of labels, paths, identifiers and level names are shown, as `␊`.
    pub show_line_feeds: bool,
    /// How many lines before each line that is shown for its spans are shown too.
    pub context_before: usize,
    /// How many lines after each line that is shown for its spans are shown too.
    pub context_after: usize,
    /// Whether lines of titles and messages that are wider than the terminal are broken at blanks.
    pub wrap: bool,
    /// Whether the controls of texts are masked.
    pub mask_controls: bool,
    /// Whether labels are cut at their line feeds.
    pub label_lines: bool,
}

/// The settings at the front.
#[tactic(auto, unfolding(crate::specs::Reading::after_settings))]
pub fn settings_at(bytes: &[u8]) -> Result<(Settings, &[u8]), ReadError>
    ensures left { Gives (λ x. x.1.now) result (after_settings bytes.now) }
    ensures spelled { IfOk result (λ x. bytes.now ≡ settings_then x.0 x.1.now) }
{
    let (anonymized_origin_line_numbers, rest) = flag(bytes)?;
    let (anonymized_snippet_line_numbers, rest) = flag(rest)?;
    let (term_width, rest) = number(rest)?;
    let (decor_style, rest) = kind(2, rest)?;
    let (hyperlink, rest) = flag(rest)?;
    let (short_message, rest) = flag(rest)?;
    let (no_graphics, rest) = flag(rest)?;
    let (show_line_feeds, rest) = flag(rest)?;
    let (context_before, rest) = number(rest)?;
    let (context_after, rest) = number(rest)?;
    let (wrap, rest) = flag(rest)?;
    let (switches, rest) = switches(rest)?;
    let settings = Settings {
        anonymized_origin_line_numbers,
        anonymized_snippet_line_numbers,
        term_width,
        decor_style: decor(decor_style),
        hyperlink,
        short_message,
        no_graphics,
        show_line_feeds,
        context_before,
        context_after,
        wrap,
        mask_controls: switches.mask_controls,
        label_lines: switches.label_lines,
    };
    Ok((settings, rest))
}

/// The switches that came after the other settings.
#[derive(Clone, Copy, Debug)]
struct LaterSwitches {
    mask_controls: bool,
    label_lines: bool,
}

/// The switches at the front that came after the other settings: how many are on, and these, in the order of their
/// kinds.
#[tactic(auto, unfolding(crate::specs::Reading::after_later))]
fn switches(bytes: &[u8]) -> Result<(LaterSwitches, &[u8]), ReadError>
    ensures left { Gives (λ x. x.1.now) result (after_later bytes.now) }
    ensures spelled { IfOk result (λ x. bytes.now ≡ later_then x.0.mask_controls x.0.label_lines x.1.now) }
{
    let (count, rest) = number(bytes)?;
    let (mask_controls, left, rest) = switch(0, count, rest)?;
    let (label_lines, left, rest) = switch(1, left, rest)?;
    if left > 0 {
        return Err(no_kind(rest));
    }
    let switches = LaterSwitches {
        mask_controls,
        label_lines,
    };
    Ok((switches, rest))
}

/// Whether the switch of this kind is at the front, where so many are left: and how many are left after it, and what.
fn switch(kind: u8, count: usize, bytes: &[u8]) -> Result<(bool, usize, &[u8]), ReadError>
    ensures left { Gives (λ x. (x.1, x.2.now)) result (after_switch kind count bytes.now) }
    ensures spelled { IfOk result (λ x. bytes.now ≡ switch_then kind x.0 x.2.now) }
    ensures count { IfOk result (λ x. count ≡ x.1 + (if x.0 then 1 else 0)) }
{
    match bytes.split_first() {
        Some((byte, rest)) if count > 0 && *byte == kind => Ok((true, count - 1, one(rest)?)),
        _ => Ok((false, count, bytes)),
    }
}

/// The number 1 at the front.
fn one(bytes: &[u8]) -> Result<&[u8], ReadError>
    ensures left { Gives (λ x. x.now) result (after_one bytes.now) }
    ensures spelled { IfOk result (λ rest. bytes.now ≡ number_then 1 rest.now) }
{
    let (number, rest) = number(bytes)?;
    if number == 1 {
        Ok(rest)
    } else {
        Err(ReadError::at(Wrong::Flag, bytes))
    }
}

/// That no kind is at the front.
fn no_kind(bytes: &[u8]) -> ReadError
    ensures fault { Fails result (after_kind 0 bytes.now) }
{
    if bytes.is_empty() {
        ReadError::at(Wrong::Short, bytes)
    } else {
        ReadError::at(Wrong::Kind, bytes)
    }
}
