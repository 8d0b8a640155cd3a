//! Lines that pass through among workflow commands.
ghost use Rattle.std.specs.Prelude.{◌≡◌, ◌==◌, ◌++◌, ◌∷◌, [], IfOk, OnOk, encode_utf8_all, if◌then◌else◌, string_bytes};
ghost use Rattle.redraw_command.specs.Unheeded as spec;

use std::alloc::{AllocError, Global};

/// What is put before a line that would be a command.
const MARK: &[u8] = b"| ";

/// A text no line of which GitHub takes for a command: `| ` stands before a line that begins with `::`, be it after
/// blanks, and a space in each `##[`. A carriage return ends a line there too. The text need not be UTF-8.
///
/// ```text
/// ::error::none        | ::error::none
/// ##[error]none        ## [error]none
/// ```
pub fn unheeded(alloc: Global, text: &[u8]) -> Result<Vec<u8>, AllocError>
    ensures value { IfOk result (λ plain. plain.items ≡ spec.unheeded text.now) }
{
    let mut plain = Vec::new(alloc);
    let mut starts = true;
    let mut hashes = 0;
    for at in 0..text.len() {
        let byte = text[at];
        add_mark(starts, &text[at..], &mut plain)?;
        add_byte(hashes, byte, &mut plain)?;
        starts = ends_line(byte);
        hashes = hashes_after(hashes, byte == b'#');
    }
    Ok(plain)
}

/// Adds what is put before a line that would be a command, where this is the start of a line.
fn add_mark(starts: bool, text: &[u8], plain: &mut Vec<u8>) -> Result<(), AllocError>
    ensures added { OnOk result (plain.new.items ≡ plain.old.items ++ spec.mark_before starts text.now) }
{
    if starts && begins_command(text) {
        plain.extend_from_slice(MARK)?;
    }
    Ok(())
}

/// Adds a byte that follows so many hashes, after a space where it would begin a command with them.
fn add_byte(hashes: u8, byte: u8, plain: &mut Vec<u8>) -> Result<(), AllocError>
    ensures added { OnOk result (plain.new.items ≡ plain.old.items ++ (spec.gap_before hashes byte ++ (byte ∷ []))) }
{
    if byte == b'[' && hashes > 1 {
        plain.push(b' ')?;
    }
    plain.push(byte)?;
    Ok(())
}

/// So many hashes there are when one more character is read, of which no more than two are counted.
fn hashes_after(hashes: u8, is_hash: bool) -> u8
    ensures value { result ≡ if is_hash then (if hashes == 0 then 1 else 2) else 0 }
{
    match (is_hash, hashes) {
        (true, 0) => 1,
        (true, _) => 2,
        (false, _) => 0,
    }
}

/// A text with a space in each `##[`, with which a command of the older form begins anywhere in a line.
pub fn apart(alloc: Global, text: &str) -> Result<String, AllocError>
    ensures value { IfOk result (λ shown. string_bytes shown ≡ spec.apart text.now) }
{
    let mut shown = String::new(alloc);
    let mut hashes = 0;
    for c in text.chars() {
        add_character(hashes, c, &mut shown)?;
        hashes = hashes_after(hashes, c == '#');
    }
    Ok(shown)
}

/// Adds a character that follows so many hashes, after a space where it would begin a command with them.
fn add_character(hashes: u8, c: char, shown: &mut String) -> Result<(), AllocError>
    ensures added { OnOk result (string_bytes shown.new
        ≡ string_bytes shown.old ++ encode_utf8_all (spec.gap_before hashes c ++ (c ∷ []))) }
{
    if c == '[' && hashes > 1 {
        shown.push(' ')?;
    }
    shown.push(c)
}

/// Whether a text begins with two colons, but for what isn't seen of its first line.
fn begins_command(text: &[u8]) -> bool
    ensures value { result ≡ spec.begins_command text.now }
{
    for at in 0..text.len() {
        let byte = text[at];
        if byte == b':' {
            return begins_colon(&text[at + 1..]);
        }
        if is_seen(byte) || ends_line(byte) {
            return false;
        }
    }
    false
}

/// Whether a text begins with a colon.
fn begins_colon(text: &[u8]) -> bool
    ensures value { result ≡ spec.begins_colon text.now }
{
    match text {
        [byte, ..] => *byte == b':',
        [] => false,
    }
}

/// Whether a byte is a character of ASCII that is seen.
fn is_seen(byte: u8) -> bool
    ensures value { result ≡ spec.is_seen byte }
{
    byte > b' ' && byte < 127
}

/// Whether a byte ends a line for whoever looks for commands.
fn ends_line(byte: u8) -> bool
    ensures value { result ≡ spec.ends_line byte }
{
    byte == b'\n' || byte == b'\r'
}
