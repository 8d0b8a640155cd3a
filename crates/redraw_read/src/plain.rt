//! A text without what a terminal takes for something else than text.

ghost use Rattle.std.specs.Prelude.{◌≡◌, IfOk, false, string_bytes};
ghost use Rattle.redraw_read.specs.AsShown as spec;

use crate::words::after_first;
use std::alloc::{AllocError, Global};

/// Where in a text a character stands.
#[derive(Clone, Copy)]
enum EscapeState {
    /// In what is shown.
    Shown,
    /// After an escape.
    Escape,
    /// In a sequence that ends with a letter.
    Sequence,
    /// In an address, which ends with an escape and a backslash.
    Address,
    /// After the escape at its end.
    AddressEnd,
}

/// Where the character after this one stands.
fn state_after(state: EscapeState, character: char) -> EscapeState {
    match (state, character) {
        (EscapeState::Address, '\u{1b}') => EscapeState::AddressEnd,
        (EscapeState::Address, _) => EscapeState::Address,
        (_, '\u{1b}') => EscapeState::Escape,
        (EscapeState::Escape, '[') => EscapeState::Sequence,
        (EscapeState::Escape, ']') => EscapeState::Address,
        (EscapeState::Sequence, character) if !character.is_ascii_alphabetic() =>
            EscapeState::Sequence,
        _ => EscapeState::Shown,
    }
}

/// Whether a character is shown that stands here.
fn is_shown(state: EscapeState, character: char) -> bool {
    matches!(state, EscapeState::Shown) && character != '\u{1b}'
}

/// A text without styles and addresses.
pub fn without_styles(alloc: Global, text: &str) -> Result<String, AllocError>
    ensures plain { spec.has_escape text.now ≡ false → IfOk result (λ shown. string_bytes shown ≡ text.now) }
{
    if has_escape(text) {
        characters_shown(alloc, text)
    } else {
        String::from_str(alloc, text)
    }
}

/// Whether there is an escape in a text.
fn has_escape(text: &str) -> bool
    ensures value { result ≡ spec.has_escape text.now }
{
    after_first(text, "\u{1b}").is_some()
}

/// The characters of a text that are shown.
fn characters_shown(alloc: Global, text: &str) -> Result<String, AllocError> {
    let mut shown = String::new(alloc);
    let mut state = EscapeState::Shown;
    for character in text.chars() {
        if is_shown(state, character) {
            shown.push(character)?;
        }
        state = state_after(state, character);
    }
    Ok(shown)
}
