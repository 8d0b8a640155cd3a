//! Links in messages: `[text](1)` leads to one of the result's locations, `[text](sarif:..)` to a part of the log, and
//! both are shown as their texts.
//!
//! A link to an address stays as it is written, since the address would be lost.
ghost use Rattle.std.specs.Prelude.{◌≡◌, ◌+◌, ◌<◌, ◌≤◌, ◌++◌, IfOk, OnOk, chars, drop, encode_utf8_all, false, length};
ghost use Rattle.std.specs.Prelude.{slice_index, string_bytes};
ghost use Rattle.redraw_tools.specs.Links as spec;
ghost use Rattle.redraw_tools.specs.Links.{backslash_piece, link_piece, piece_of};

use std::alloc::{AllocError, Global};

/// How many characters `sarif:` has.
const SCHEME_LENGTH: usize = 6;

/// A message's text with the text of each link in the link's place. A bracket after a backslash is that bracket.
pub fn without_links(alloc: Global, message: &str) -> Result<String, AllocError>
    ensures value { IfOk result (λ text. string_bytes text
        ≡ encode_utf8_all (spec.without_links 0 (chars message.now))) }
{
    let written: Vec<char> = message.chars().collect(alloc)?;
    shown_of(alloc, &written)
}

/// What is shown of the characters of a message.
fn shown_of(alloc: Global, written: &[char]) -> Result<String, AllocError>
    ensures value { IfOk result (λ text. string_bytes text ≡ encode_utf8_all (spec.without_links 0 written.now)) }
{
    let mut text = String::new(alloc);
    let mut taken = 0;
    for at in 0..written.len() {
        if taken > 0 {
            taken -= 1;
        } else {
            taken = add_piece_at(&mut text, written, at)?;
        }
    }
    Ok(text)
}

/// Adds what is shown for the character with this index, and returns how many after it go with it.
fn add_piece_at(text: &mut String, written: &[char], at: usize) -> Result<usize, AllocError>
    requires within { at < length written.now }
    ensures added { OnOk result (string_bytes text.new
        ≡ string_bytes text.old ++ encode_utf8_all (piece_of (slice_index written.now at)
        (drop (at + 1) written.now)).shown) }
    ensures more { IfOk result (λ more. more
        ≡ (piece_of (slice_index written.now at) (drop (at + 1) written.now)).more) }
{
    add_piece(text, written[at], &written[at + 1..])
}

/// Adds what is shown for a character before others, and returns how many of these it takes with it.
fn add_piece(text: &mut String, c: char, after: &[char]) -> Result<usize, AllocError>
    ensures added { OnOk result (string_bytes text.new
        ≡ string_bytes text.old ++ encode_utf8_all (piece_of c after.now).shown) }
    ensures more { IfOk result (λ more. more ≡ (piece_of c after.now).more) }
{
    match c {
        '[' => add_link(text, c, after),
        '\\' => add_backslash(text, c, after),
        _ => {
            text.push(c)?;
            Ok(0)
        }
    }
}

/// Adds what is shown for a bracket, with which a link may begin, and returns how many characters go with it.
fn add_link(text: &mut String, c: char, after: &[char]) -> Result<usize, AllocError>
    ensures added { OnOk result (string_bytes text.new
        ≡ string_bytes text.old ++ encode_utf8_all (link_piece c after.now).shown) }
    ensures more { IfOk result (λ more. more ≡ (link_piece c after.now).more) }
{
    let length = before_bracket(after);
    let target = target_length(&after[length..]);
    if target > 0 {
        add_unescaped(text, &after[..length])?;
        Ok(length + target)
    } else {
        text.push(c)?;
        Ok(0)
    }
}

/// Adds what is shown for a backslash, and returns how many characters go with it.
fn add_backslash(text: &mut String, c: char, after: &[char]) -> Result<usize, AllocError>
    ensures added { OnOk result (string_bytes text.new
        ≡ string_bytes text.old ++ encode_utf8_all (backslash_piece c after.now).shown) }
    ensures more { IfOk result (λ more. more ≡ (backslash_piece c after.now).more) }
{
    match after {
        [bracket @ ('[' | ']'), ..] => {
            text.push(*bracket)?;
            Ok(1)
        }
        [other @ '\\', ..] => {
            text.push(c)?;
            text.push(*other)?;
            Ok(1)
        }
        _ => {
            text.push(c)?;
            Ok(0)
        }
    }
}

/// How many characters come before the first bracket that has no backslash before it.
fn before_bracket(written: &[char]) -> usize
    ensures value { result ≡ spec.before_bracket false written.now }
    ensures within { result ≤ length written.now }
{
    let mut is_escaped = false;
    for (at, c) in written.iter().enumerate() {
        if is_bracket(*c) && !is_escaped {
            return at;
        }
        is_escaped = escapes(is_escaped, *c);
    }
    written.len()
}

/// Whether a character escapes the one after it: a backslash that isn't escaped itself.
fn escapes(is_escaped: bool, c: char) -> bool
    ensures value { result ≡ spec.escapes is_escaped c }
{
    c == '\\' && !is_escaped
}

/// Whether a character is a square bracket.
fn is_bracket(c: char) -> bool
    ensures value { result ≡ spec.is_bracket c }
{
    matches!(c, '[' | ']')
}

/// How many characters a link has after its text: `](`, what it leads to and `)`; 0 where none of that stands here.
fn target_length(written: &[char]) -> usize
    ensures value { result ≡ spec.target_length written.now }
    ensures within { result ≤ length written.now }
{
    match written {
        [']', '(', rest @ ..] => match address_length(rest) {
            0 => 0,
            length => length + 2,
        },
        _ => 0,
    }
}

/// How many characters what a link leads to and the parenthesis that closes after it have; 0 where none of that stands
/// here, or it leads elsewhere than into the log.
fn address_length(written: &[char]) -> usize
    ensures value { result ≡ spec.address_length written.now }
    ensures within { result ≤ length written.now }
{
    if leads_into_log(written) {
        part_length(&written[SCHEME_LENGTH.min(written.len())..])
    } else {
        number_length(written)
    }
}

/// Whether some characters begin with `sarif:`.
fn leads_into_log(written: &[char]) -> bool
    ensures value { result ≡ spec.leads_into_log written.now }
{
    has_at(written, 0, 's')
        && has_at(written, 1, 'a')
        && has_at(written, 2, 'r')
        && has_at(written, 3, 'i')
        && has_at(written, 4, 'f')
        && has_at(written, 5, ':')
}

/// Whether the character with this index is this one.
fn has_at(written: &[char], index: usize, c: char) -> bool
    ensures value { result ≡ spec.has_at written.now index c }
{
    match written.get(index) {
        Some(found) => *found == c,
        None => false,
    }
}

/// How many characters the address of a part of the log has, with the parenthesis that closes after it and `sarif:`
/// before it, which isn't here.
fn part_length(written: &[char]) -> usize
    ensures value { result ≡ spec.part_length written.now }
    ensures within { result ≤ length written.now + SCHEME_LENGTH }
    ensures some { 0 < result → 0 < length written.now }
{
    match closed_length(written) {
        0 => 0,
        length => length + SCHEME_LENGTH,
    }
}

/// How many characters come up to the first parenthesis that closes, and with it; 0 where none does.
fn closed_length(written: &[char]) -> usize
    ensures value { result ≡ spec.closed_length written.now }
    ensures within { result ≤ length written.now }
{
    for (at, c) in written.iter().enumerate() {
        if *c == ')' {
            return at + 1;
        }
    }
    0
}

/// How many characters a number and the parenthesis that closes after it have; 0 where none of that stands here.
fn number_length(written: &[char]) -> usize
    ensures value { result ≡ spec.number_length written.now }
    ensures within { result ≤ length written.now }
{
    let digits = digits_before(written);
    if digits > 0 && begins_with(')', &written[digits..]) {
        digits + 1
    } else {
        0
    }
}

/// Whether some characters begin with this one.
fn begins_with(c: char, written: &[char]) -> bool
    ensures value { result ≡ spec.begins_with c written.now }
{
    match written {
        [first, ..] => *first == c,
        [] => false,
    }
}

/// How many digits some characters begin with.
fn digits_before(written: &[char]) -> usize
    ensures value { result ≡ spec.digits_before written.now }
    ensures within { result ≤ length written.now }
{
    for (at, c) in written.iter().enumerate() {
        if !c.is_ascii_digit() {
            return at;
        }
    }
    written.len()
}

/// Adds the text of a link. Of a backslash before a bracket or a backslash only the second stays.
fn add_unescaped(text: &mut String, written: &[char]) -> Result<(), AllocError>
    ensures added { OnOk result (string_bytes text.new
        ≡ string_bytes text.old ++ encode_utf8_all (spec.unescaped false written.now)) }
{
    let mut is_escaped = false;
    for c in written {
        add_text_at(text, is_escaped, *c)?;
        is_escaped = escapes(is_escaped, *c);
    }
    if is_escaped {
        text.push('\\')?;
    }
    Ok(())
}

/// Adds what is shown for a character of a link's text.
fn add_text_at(text: &mut String, is_escaped: bool, c: char) -> Result<(), AllocError>
    ensures added { OnOk result (string_bytes text.new
        ≡ string_bytes text.old ++ encode_utf8_all (spec.link_text_at is_escaped c)) }
{
    if escapes(is_escaped, c) {
        return Ok(());
    }
    if is_escaped && !is_bracket(c) && c != '\\' {
        text.push('\\')?;
    }
    text.push(c)?;
    Ok(())
}
