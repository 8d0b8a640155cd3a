//! The text of a grid's rows with the codes of styles and links.
//!
//! A row begins with the style `none` of the sheet open, and no link. Codes stand where two
//! neighbouring cells differ in their style or their link, and at the row's end:
//!
//! ```text
//! a cell  | link ends | reset | opening | link begins |  the next cell
//! ```
ghost use Rattle.std.specs.Prelude.{◌≡◌, ◌≢◌, ◌<◌, ◌++◌, ℕ, List, [], ◌∷◌, length, replicate, None, Some, OnOk};
ghost use Rattle.std.specs.Prelude.{string_bytes};
ghost use Rattle.std.specs.Option.{option_copied};
ghost use Rattle.std.specs.Str.{chars};
ghost use Rattle.std.specs.List.{flat_map};
ghost use Rattle.snippet_grid.specs.SheetCodes.{style_at};
ghost use Rattle.snippet_grid.specs.OpenRow.{Goes};
ghost use Rattle.snippet_grid.specs.Stretch.{PrintsStretch};
ghost use Rattle.snippet_grid.specs.Woven.{Opening, Reset, LinkTo, LinkEnd, piece_text};
ghost use Rattle.snippet_grid.specs.Weaving.{WeavesRow};
ghost use Rattle.snippet_style.specs.Cell.{Cell};
ghost use Rattle.snippet_style.specs.declared.role.LevelInner.{LevelInner};

use crate::codes::{NONE, SheetCodes, WovenLook};
use crate::spaces::push_spaces;
use std::alloc::AllocError;

/// Ends a row whose last cell looks like this.
#[inline(always)]
pub(crate) fn end_row(
    out: &mut String,
    codes: &SheetCodes,
    last: WovenLook<'_>,
) -> Result<(), AllocError>
    ensures closed { OnOk result ((level : LevelInner) (cells : List Cell) (old : List ℕ)
        → Goes codes.now level (Some (style_at codes.now last.entry.place)) (option_copied last.entry.link) cells old
        (string_bytes out.old) → WeavesRow codes.now level cells old (string_bytes out.new)) }
{
    end_link(out, last.link, None)?;
    codes.push_reset(out, last.place)
}

/// Adds a text that looks like this, after what was printed and looks like `last`.
#[inline(always)]
pub(crate) fn weave_stretch(
    out: &mut String,
    word: &str,
    codes: &SheetCodes,
    last: WovenLook<'_>,
    next: WovenLook<'_>,
) -> Result<(), AllocError>
    requires some { 0 < length (chars word.now) }
    ensures text { OnOk result (PrintsStretch (chars word.now) (style_at codes.now last.entry.place)
        (style_at codes.now next.entry.place) (option_copied last.entry.link) (option_copied next.entry.link)
        (string_bytes out.old) (string_bytes out.new)) }
{
    end_link(out, last.link, next.link)?;
    change_style(out, codes, last.place, next.place)?;
    begin_link(out, last.link, next.link)?;
    push_word(out, word)
}

/// Adds a word. Many a stroke is one byte, for which nothing is called.
#[inline(always)]
fn push_word(out: &mut String, word: &str) -> Result<(), AllocError>
    ensures text { OnOk result (string_bytes out.new ≡ string_bytes out.old ++ word.now) }
{
    let bytes = word.as_bytes();
    if bytes.len() == 1 && bytes[0].is_ascii() {
        return out.push(char::from(bytes[0]));
    }
    out.push_str(word)
}

/// Adds unstyled spaces, after what was printed and looks like `last`.
#[inline(always)]
pub(crate) fn weave_gap(
    out: &mut String,
    count: usize,
    codes: &SheetCodes,
    last: WovenLook<'_>,
) -> Result<(), AllocError>
    ensures text { OnOk result (PrintsStretch (replicate count 32) (style_at codes.now last.entry.place) codes.now.none
        (option_copied last.entry.link) None (string_bytes out.old) (string_bytes out.new)) }
{
    end_link(out, last.link, None)?;
    change_style(out, codes, last.place, NONE)?;
    push_spaces(out, count)
}

/// Ends the link that is open, unless it goes on.
#[inline(always)]
fn end_link(out: &mut String, last: Option<&str>, next: Option<&str>) -> Result<(), AllocError>
    ensures kept { OnOk result (option_copied last.entry ≡ option_copied next.entry → string_bytes out.new
        ≡ string_bytes out.old) }
    ensures none { OnOk result (option_copied last.entry ≡ None → string_bytes out.new ≡ string_bytes out.old) }
    ensures ended { OnOk result (option_copied last.entry ≢ None → option_copied last.entry ≢ option_copied next.entry
        → string_bytes out.new ≡ string_bytes out.old ++ flat_map piece_text (LinkEnd ∷ [])) }
{
    if last.is_some() && last != next {
        out.push_str("\u{1b}]8;;\u{1b}\\")?;
    }
    Ok(())
}

/// Resets the style that is open and opens the next one, unless they are the same.
#[inline(always)]
fn change_style(
    out: &mut String,
    codes: &SheetCodes,
    last: usize,
    next: usize,
) -> Result<(), AllocError>
    requires within { last < 11 × (next < 11) }
    ensures kept { OnOk result (style_at codes.now last ≡ style_at codes.now next → string_bytes out.new
        ≡ string_bytes out.old) }
    ensures changed { OnOk result (style_at codes.now last ≢ style_at codes.now next
        → string_bytes out.new ≡ string_bytes out.old
        ++ flat_map piece_text (Reset (style_at codes.now last) ∷ Opening (style_at codes.now next) ∷ [])) }
{
    if codes.differ(last, next) {
        codes.push_reset(out, last)?;
        codes.push_opening(out, next)?;
    }
    Ok(())
}

/// Begins the next link, if there is one, unless it was open before.
#[inline(always)]
fn begin_link(out: &mut String, last: Option<&str>, next: Option<&str>) -> Result<(), AllocError>
    ensures kept { OnOk result (option_copied last.entry ≡ option_copied next.entry → string_bytes out.new
        ≡ string_bytes out.old) }
    ensures none { OnOk result (option_copied next.entry ≡ None → string_bytes out.new ≡ string_bytes out.old) }
    ensures begun { OnOk result ((url : List ℕ) → option_copied next.entry ≡ Some url
        → option_copied last.entry ≢ Some url → string_bytes out.new ≡ string_bytes out.old
        ++ flat_map piece_text (LinkTo url ∷ [])) }
{
    let Some(url) = next else {
        return Ok(());
    };
    if last == next {
        return Ok(());
    }
    out.push_str("\u{1b}]8;;")?;
    out.push_str(url)?;
    out.push_str("\u{1b}\\")
}
