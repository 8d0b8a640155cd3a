//! The codes of trusted texts, which take no room.
ghost use Rattle.std.specs.Prelude.{◌≡◌};
ghost use Rattle.snippet_shown.specs.Letters as spec;

use snippet_text::char_width;

/// Where in a text a character stands.
#[derive(Clone, Copy)]
pub(crate) enum Place {
    /// In a text that isn't trusted, which has no codes.
    Untrusted,
    /// In a trusted text, outside codes.
    Outside,
    /// After the ESC of a code.
    Escape,
    /// In a code that `ESC [` begins: it ends with a character from `@` to `~`.
    Bracket,
    /// In a code that `ESC ]` begins: it ends with BEL or `ESC \`.
    Command,
    /// After an ESC in such a code.
    CommandEscape,
}

/// Where the first character of a text stands.
pub(crate) fn first_place(trusted: bool) -> Place
    ensures value { result ≡ spec.first_place trusted }
{
    if trusted {
        Place::Outside
    } else {
        Place::Untrusted
    }
}

/// Where the character after this one stands.
pub(crate) fn place_after(place: Place, c: char) -> Place
    ensures value { result ≡ spec.place_after place c }
{
    match place {
        Place::Untrusted => Place::Untrusted,
        Place::Outside => after_outside(c),
        Place::Escape => after_escape(c),
        Place::Bracket => after_bracket(c),
        Place::Command => after_command(c),
        Place::CommandEscape => after_command_escape(c),
    }
}

/// Where the character stands after one outside codes.
fn after_outside(c: char) -> Place
    ensures value { result ≡ spec.after_outside c }
{
    if c == '\u{1b}' {
        Place::Escape
    } else {
        Place::Outside
    }
}

/// Where the character stands after one that follows an ESC.
fn after_escape(c: char) -> Place
    ensures value { result ≡ spec.after_escape c }
{
    if c == '[' {
        Place::Bracket
    } else if c == ']' {
        Place::Command
    } else {
        after_outside(c)
    }
}

/// Where the character stands after one in an `ESC [`.
fn after_bracket(c: char) -> Place
    ensures value { result ≡ spec.after_bracket c }
{
    if c == '\n' || ('@' <= c && c <= '~') {
        Place::Outside
    } else {
        Place::Bracket
    }
}

/// Where the character stands after one in an `ESC ]`.
fn after_command(c: char) -> Place
    ensures value { result ≡ spec.after_command c }
{
    if c == '\n' || c == '\u{7}' {
        Place::Outside
    } else if c == '\u{1b}' {
        Place::CommandEscape
    } else {
        Place::Command
    }
}

/// Where the character stands after one that follows an ESC there.
fn after_command_escape(c: char) -> Place
    ensures value { result ≡ spec.after_command_escape c }
{
    if c == '\\' {
        Place::Outside
    } else {
        after_command(c)
    }
}

/// Whether a character that stands there belongs to a code, or takes no room as one does: a carriage return.
pub(crate) fn is_code(place: Place, c: char) -> bool
    ensures value { result ≡ spec.is_code place c }
{
    match place {
        Place::Untrusted => false,
        Place::Outside => c == '\u{1b}' || c == '\r',
        _ => c != '\n',
    }
}

/// Whether a character that stands there is a blank, at which a line may be broken: a space or a tab.
pub(crate) fn is_blank(place: Place, c: char) -> bool
    ensures value { result ≡ spec.is_blank (spec.letter place c) }
{
    !is_code(place, c) && (c == ' ' || c == '\t')
}

/// Whether a character that stands there may stand before a word: a blank, or one of a code.
pub(crate) fn is_before_word(place: Place, c: char) -> bool
    ensures value { result ≡ spec.is_before_word (spec.letter place c) }
{
    is_code(place, c) || is_blank(place, c)
}

/// The columns that a character takes which stands there.
pub(crate) fn letter_width(place: Place, c: char) -> usize
    ensures value { result ≡ spec.letter_width (spec.letter place c) }
{
    if is_code(place, c) { 0 } else { char_width(c) }
}
