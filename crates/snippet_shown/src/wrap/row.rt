//! What is shown of a character, by the row in which it stands and by what follows it.
ghost use Rattle.std.specs.Prelude.{◌≡◌, [], chars, false, nat_le};
ghost use Rattle.snippet_shown.specs.Letters.{letter, letters, place_after};
ghost use Rattle.snippet_shown.specs.Wrapped as spec;
ghost use Rattle.snippet_shown.specs.declared.wrap.row.Stage.TheVariants.{Indentation, Word};

use crate::wrap::code::{Place, is_before_word, is_blank, is_code, letter_width, place_after};
use snippet_text::char_width;

/// What a row has so far.
#[derive(Clone, Copy)]
pub(crate) enum Stage {
    /// The indentation of its line, or nothing.
    Indentation,
    /// Nothing: it was begun at a blank, with which those go that follow.
    Gap,
    /// Part of a word at least.
    Word,
}

/// A row as far as it is shown.
#[derive(Clone, Copy)]
pub(crate) struct Row {
    /// What it has so far.
    pub stage: Stage,
    /// The columns that are left, before its first word beside the first character of that.
    pub left: usize,
}

/// What is shown of a character.
#[derive(Clone, Copy)]
pub(crate) struct Step {
    /// Whether a new row begins at it.
    pub breaks: bool,
    /// Whether it is shown itself.
    pub keeps: bool,
    /// The row after it.
    pub row: Row,
}

/// The columns of the first character of the next word of a line, if it has one more.
fn next_width(place: Place, rest: &str) -> Option<usize>
    ensures value { result ≡ spec.next_width (letters place (chars rest.now)) }
{
    let mut place = place;
    for c in rest.chars() {
        if c == '\n' {
            return None;
        }
        if !is_before_word(place, c) {
            return Some(char_width(c));
        }
        place = place_after(place, c);
    }
    None
}

/// Whether there is room for the blanks with which the rest of a line begins, and for the word after them.
fn has_room(left: usize, place: Place, rest: &str) -> bool
    ensures value { result ≡ nat_le (spec.columns_ahead false (letters place (chars rest.now))) left }
{
    let mut left = left;
    let mut place = place;
    let mut inside = false;
    for c in rest.chars() {
        if ends_ahead(inside, place, c) {
            return true;
        }
        let width = letter_width(place, c);
        if left < width {
            return false;
        }
        left -= width;
        inside = inside_after(inside, place, c);
        place = place_after(place, c);
    }
    true
}

/// Whether what is ahead ends at a character: at the end of a line, or at a blank after a word has begun.
fn ends_ahead(inside: bool, place: Place, c: char) -> bool
    ensures value { result ≡ spec.ends_ahead inside (letter place c) }
{
    c == '\n' || (inside && is_blank(place, c))
}

/// Whether a word has begun after a character.
fn inside_after(inside: bool, place: Place, c: char) -> bool
    ensures value { result ≡ spec.inside_after inside (letter place c) }
{
    inside || !is_before_word(place, c)
}

/// A row at the start of a line.
pub(crate) fn row_start(room: usize, place: Place, rest: &str) -> Row
    ensures value { result ≡ spec.row_start room (letters place (chars rest.now)) }
{
    Row {
        stage: Stage::Indentation,
        left: room.saturating_sub(next_width(place, rest).unwrap_or(0)),
    }
}

/// What is shown of a character that stands in this row at this place, before the rest of a text.
pub(crate) fn step_at(room: usize, row: Row, place: Place, c: char, rest: &str) -> Step
    ensures value { result ≡ spec.step room row (letter place c) (letters (place_after place c) (chars rest.now)) }
{
    let after = place_after(place, c);
    if c == '\n' {
        kept(row_start(room, after, rest))
    } else if is_code(place, c) {
        kept(row)
    } else if is_blank(place, c) {
        at_blank(room, row, char_width(c), after, rest)
    } else {
        in_word(room, row, char_width(c))
    }
}

/// A blank of so many columns: an indentation is cut so that the first character of its word has room beside it, after
/// the end of a row blanks go with the one that ended it, and after a word the row ends where the blanks and the next
/// word have no room.
fn at_blank(room: usize, row: Row, width: usize, after: Place, rest: &str) -> Step
    ensures value { result ≡ spec.at_blank room row.stage row.left width (letters after (chars rest.now)) }
{
    match row.stage {
        Stage::Indentation => in_indentation(row.left, width),
        Stage::Gap => dropped(row),
        Stage::Word => after_word(room, row.left, width, after, rest),
    }
}

/// A blank of so many columns in an indentation, with so many columns left.
fn in_indentation(left: usize, width: usize) -> Step
    ensures value { result ≡ spec.at_blank 0 Indentation left width [] }
{
    if width <= left {
        kept(Row {
            stage: Stage::Indentation,
            left: left - width,
        })
    } else {
        dropped(Row {
            stage: Stage::Indentation,
            left,
        })
    }
}

/// A blank of so many columns after a word, with so many columns left.
fn after_word(room: usize, left: usize, width: usize, after: Place, rest: &str) -> Step
    ensures value { result ≡ spec.at_blank room Word left width (letters after (chars rest.now)) }
{
    if width <= left && has_room(left - width, after, rest) {
        kept(Row {
            stage: Stage::Word,
            left: left - width,
        })
    } else {
        ended(room, next_width(after, rest))
    }
}

/// The end of a row at a blank, where the line goes on with a character of so many columns, or where it doesn't: no row
/// is begun for blanks.
fn ended(room: usize, next: Option<usize>) -> Step
    ensures value { result ≡ spec.ended room next }
{
    match next {
        Some(width) => Step {
            breaks: true,
            keeps: false,
            row: Row {
                stage: Stage::Gap,
                left: room.saturating_sub(width),
            },
        },
        None => dropped(Row {
            stage: Stage::Gap,
            left: 0,
        }),
    }
}

/// A character of a word, of so many columns: the first of a row has room, any other stands on the next row where it
/// has none.
fn in_word(room: usize, row: Row, width: usize) -> Step
    ensures value { result ≡ spec.in_word room row.stage row.left width }
{
    match row.stage {
        Stage::Word => within_word(room, row.left, width),
        _ => kept(Row {
            stage: Stage::Word,
            left: row.left,
        }),
    }
}

/// A character of a word, of so many columns, after another one of it.
fn within_word(room: usize, left: usize, width: usize) -> Step
    ensures value { result ≡ spec.in_word room Word left width }
{
    let begins = left < width;
    let columns = if begins { room } else { left };
    Step {
        breaks: begins,
        keeps: true,
        row: Row {
            stage: Stage::Word,
            left: columns.saturating_sub(width),
        },
    }
}

/// A character that is shown.
fn kept(row: Row) -> Step
    ensures value { result ≡ spec.kept row }
{
    Step {
        breaks: false,
        keeps: true,
        row,
    }
}

/// A character that isn't shown.
fn dropped(row: Row) -> Step
    ensures value { result ≡ spec.dropped row }
{
    Step {
        breaks: false,
        keeps: false,
        row,
    }
}
