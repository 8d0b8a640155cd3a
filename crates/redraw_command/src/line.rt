//! What a line of an input is, before it is read.
ghost use Rattle.std.specs.Prelude.{◌≡◌, ◌≤◌, ℕ, List, length, true};
ghost use Rattle.redraw_command.specs.Line as spec;
ghost use Rattle.redraw_command.specs.Line.{IsForm, IsUnmarked};

use std::str;

/// The mark of the order of bytes.
const MARK: &[u8] = b"\xef\xbb\xbf";

/// A line, without a mark of the order of bytes at the start of the input.
#[derive(Clone, Copy)]
pub enum Line<'a> {
    /// It may be a value of JSON, or the start of one, since it begins as an object does, if after blanks.
    Object(&'a str),
    /// It may be a list, or the start of one, since it begins as a list does, if after blanks.
    List(&'a str),
    /// It begins as an object does, and isn't UTF-8.
    Undecoded,
    /// It is nothing but blanks.
    Blank,
    /// It is none of the program's business.
    Other,
}

/// What a line is, the first of an input or another.
pub fn line_of(bytes: &[u8], is_first: bool) -> Line<'_>
    ensures form { (text : List ℕ) × IsUnmarked is_first bytes.now text × IsForm text result }
{
    form_of(unmarked(bytes, is_first))
}

/// How many bytes of an input the mark has that it begins with, at its start or elsewhere.
pub fn mark_length(bytes: &[u8], is_first: bool) -> usize
    ensures within { result ≤ length bytes.now }
{
    if is_first && bytes.starts_with(MARK) {
        MARK.len()
    } else {
        0
    }
}

/// A line without the mark, where it may begin with one.
fn unmarked(bytes: &[u8], is_first: bool) -> &[u8]
    ensures unmarked { IsUnmarked is_first bytes.now result.now }
{
    if is_first { without_mark(bytes) } else { bytes }
}

/// What a line is, without a mark.
fn form_of(bytes: &[u8]) -> Line<'_>
    ensures form { IsForm bytes.now result }
{
    match first_of(bytes) {
        Some(b'{') => match str::from_utf8(bytes) {
            Ok(text) => Line::Object(text),
            Err(_) => Line::Undecoded,
        },
        Some(b'[') => match str::from_utf8(bytes) {
            Ok(text) => Line::List(text),
            Err(_) => Line::Other,
        },
        Some(_) => Line::Other,
        None => Line::Blank,
    }
}

/// The first byte that isn't blank.
pub fn first_of(bytes: &[u8]) -> Option<u8>
    ensures value { result ≡ spec.first_of bytes.now }
{
    for byte in bytes {
        if !byte.is_ascii_whitespace() {
            return Some(*byte);
        }
    }
    None
}

/// The bytes without the mark of their order, which some tools write at the start.
fn without_mark(bytes: &[u8]) -> &[u8]
    ensures unmarked { IsUnmarked true bytes.now result.now }
{
    match bytes.strip_prefix(MARK) {
        Some(rest) => rest,
        None => bytes,
    }
}

/// Whether the first bytes of an input are UTF-16: the mark of its order, or a brace of two bytes.
pub fn is_utf16(bytes: &[u8]) -> bool
    ensures value { result ≡ spec.begins_utf16 bytes.now }
{
    match bytes {
        [first, second, ..] => are_utf16(*first, *second),
        _ => false,
    }
}

/// Whether two bytes begin a text in UTF-16.
fn are_utf16(first: u8, second: u8) -> bool
    ensures value { result ≡ spec.are_utf16 first second }
{
    (first == 0xff && second == 0xfe)
        || (first == 0xfe && second == 0xff)
        || (first == b'{' && second == 0)
        || (first == 0 && second == b'{')
}
