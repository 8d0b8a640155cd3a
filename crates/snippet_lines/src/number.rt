//! Line numbers, as the gutter shows them.
ghost use Rattle.std.specs.Prelude.{◌≡◌, ◌≤◌, IfOk, codes, length, replicate, string_bytes};
ghost use Rattle.std.specs.Fmt.{decimal};
ghost use Rattle.snippet_lines.specs.Number.{number_width, set_right, shown_number};

use itoa::Buffer;
use std::alloc::{AllocError, Global};

/// What the gutter shows beside lines.
#[derive(Clone, Copy, Debug, PartialEq, Eq)]
pub enum LineNumbers {
    /// Each line's number.
    Shown,
    /// `LL` in place of each number, so that texts don't change where lines move.
    Anonymized,
    /// Nothing.
    Hidden,
}

impl LineNumbers {
    /// The number of cells that the gutter needs, where this is the greatest number.
    pub fn width(self, number: usize) -> usize
        ensures value { result ≡ number_width self number }
        ensures small { result ≤ 20 }
    {
        match self {
            LineNumbers::Shown => gutter_width(number),
            LineNumbers::Anonymized => 2,
            LineNumbers::Hidden => 0,
        }
    }
}

/// The number of cells that a line's number takes: its decimal digits.
fn gutter_width(number: usize) -> usize
    ensures value { result ≡ length (decimal number) }
    ensures small { result ≤ 20 }
{
    let mut width = 1;
    let mut rest = number;
    while rest >= 10 {
        rest /= 10;
        width += 1;
    }
    width
}

/// What stands in the gutter beside a line: its number or `LL`, right-aligned in `gutter` cells, or spaces.
///
/// # Errors
///
/// There is no memory for the text.
pub fn number_text(
    alloc: Global,
    numbers: LineNumbers,
    gutter: usize,
    number: usize,
) -> Result<String, AllocError>
    ensures text { IfOk result (λ text. string_bytes text ≡ shown_number numbers gutter number) }
{
    match numbers {
        LineNumbers::Shown => digits_text(alloc, gutter, number),
        LineNumbers::Anonymized => anonymized_text(alloc, gutter),
        LineNumbers::Hidden => " ".repeat(alloc, gutter),
    }
}

/// A number, right-aligned in `gutter` cells.
fn digits_text(alloc: Global, gutter: usize, number: usize) -> Result<String, AllocError>
    ensures text { IfOk result (λ text. string_bytes text ≡ set_right gutter (decimal number)) }
{
    let mut buffer = Buffer::new();
    let digits = buffer.format(number);
    let len = digits.len();
    let mut text = spaces(alloc, gutter.saturating_sub(len), len)?;
    text.push_str(digits)?;
    Ok(text)
}

/// This many spaces, with room for so many bytes after them.
fn spaces(alloc: Global, count: usize, room: usize) -> Result<String, AllocError>
    ensures text { IfOk result (λ text. string_bytes text ≡ replicate count 32) }
{
    let mut text = String::with_capacity(alloc, count.saturating_add(room))?;
    for _ in 0..count {
        text.push(' ')?;
    }
    Ok(text)
}

/// The text `LL`, right-aligned in `gutter` cells.
fn anonymized_text(alloc: Global, gutter: usize) -> Result<String, AllocError>
    ensures text { IfOk result (λ text. string_bytes text ≡ set_right gutter (codes "LL")) }
{
    let mut text = " ".repeat(alloc, gutter.saturating_sub(2))?;
    text.push_str("LL")?;
    Ok(text)
}
