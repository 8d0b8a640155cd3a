//! Texts that are broken into rows.
ghost use Rattle.std.specs.Prelude.{◌≡◌, ◌≤◌, List, ◌∷◌, ◌++◌, false, true, chars, encode_utf8_all, map, unwrap_or};
ghost use Rattle.std.specs.Prelude.{IfOk, OnOk, string_bytes};
ghost use Rattle.std.specs.Option.{option_map};
ghost use Rattle.std.specs.Cow.{cow_str_bytes};
ghost use Rattle.snippet_shown.specs.Letters.{Letter, letter, letters_of};
ghost use Rattle.snippet_shown.specs.Wrapped as spec;
ghost use Rattle.snippet_shown.specs.Asked as asked;

use crate::wrap::code::{Place, first_place, letter_width, place_after};
use crate::wrap::row::{Step, row_start, step_at};
use snippet_text::CowStr;
use std::alloc::{AllocError, Global};

/// The columns of the widest character, a tab: in fewer nothing is broken.
const LEAST_ROOM: usize = 4;

/// A text with its lines broken, so that none is wider than a room of so many columns: at the blanks before the first
/// word that has no room, which give their place to a line feed, or where a word alone is wider before the first
/// character that has no room. An indentation stays before its word, cut where that has no room beside it. It is the
/// text itself where each line fits, or where the room has fewer than 4 columns. A trusted text may have codes, which
/// take no room.
///
/// ```text
/// in 11 columns:    the borrow checker       becomes     the borrow
///                                                        checker
/// ```
///
/// # Errors
///
/// There is no memory for the text.
pub fn wrapped<'a>(
    alloc: Global,
    room: usize,
    trusted: bool,
    text: CowStr<'a>,
) -> Result<CowStr<'a>, AllocError>
    ensures value { IfOk result (λ shown.
        chars (cow_str_bytes shown) ≡ spec.wrapped room trusted (chars (cow_str_bytes text.entry))) }
{
    if stays(room, trusted, text.as_str()) {
        Ok(text)
    } else {
        Ok(CowStr::Owned(rows(alloc, room, trusted, text.as_str())?))
    }
}

/// Whether a text stays as it is: each line fits, or the room is too small.
fn stays(room: usize, trusted: bool, text: &str) -> bool
    ensures yes { result ≡ true → spec.wrapped room trusted (chars text.now) ≡ chars text.now }
    ensures no { result ≡ false → 4 ≤ room }
{
    room < LEAST_ROOM || fits(room, trusted, text)
}

/// Whether each line of a text is no wider than so many columns.
fn fits(room: usize, trusted: bool, text: &str) -> bool
    ensures value { result ≡ asked.lines_fit room room (letters_of trusted (chars text.now)) }
{
    let mut left = room;
    let mut place = first_place(trusted);
    for c in text.chars() {
        let Some(after) = left_after(room, left, place, c) else {
            return false;
        };
        left = after;
        place = place_after(place, c);
    }
    true
}

/// The columns that are left after a character, of those that were left before it; none where it doesn't fit.
fn left_after(room: usize, left: usize, place: Place, c: char) -> Option<usize>
    ensures value { (ls : List Letter) → asked.lines_fit room left (letter place c ∷ ls)
        ≡ unwrap_or (option_map (λ after. asked.lines_fit room after ls) result) false }
{
    if c == '\n' {
        Some(room)
    } else {
        left.checked_sub(letter_width(place, c))
    }
}

/// The text that is shown.
fn rows(alloc: Global, room: usize, trusted: bool, text: &str) -> Result<String, AllocError>
    requires room { 4 ≤ room }
    ensures value { IfOk result (λ shown.
        chars (string_bytes shown) ≡ spec.wrapped room trusted (chars text.now)) }
{
    let mut shown = String::new(alloc);
    let mut place = first_place(trusted);
    let mut row = row_start(room, place, text);
    let mut letters = text.chars();
    'letters: while let Some(c) = letters.next() {
        let step = step_at(room, row, place, c, letters.as_str());
        push_shown(&mut shown, step, place, c)?;
        row = step.row;
        place = place_after(place, c);
    }
    Ok(shown)
}

/// What is shown of a character, at the end of a text.
fn push_shown(shown: &mut String, step: Step, place: Place, c: char) -> Result<(), AllocError>
    ensures value { OnOk result (string_bytes shown.new
        ≡ string_bytes shown.old ++ encode_utf8_all (map (λ l. l.char) (spec.shown_at step (letter place c)))) }
{
    if step.breaks {
        shown.push('\n')?;
    }
    if step.keeps {
        shown.push(c)?;
    }
    Ok(())
}
