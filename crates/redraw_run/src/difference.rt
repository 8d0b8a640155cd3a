//! How two texts differ, line by line.
ghost use Rattle.std.specs.Prelude.{◌≤◌, ◌+◌, length};

use snippet_text::normalized;
use std::alloc::{AllocError, Global};

/// What stands above a difference: which text has the lines with this sign.
const HEAD: &str = "--- rustc\n+++ redraw\n";

/// How a drawing differs from rustc's own text: the lines that both begin and end with after a blank, between them
/// those of the text after `-`, and those of the drawing after `+`.
///
/// ```text
/// --- rustc
/// +++ redraw
///  error: expected one of
/// - --> src/main.rs:2:5
/// + --> src/main.rs:2:4
///   |
/// ```
pub fn difference_of(alloc: Global, text: &str, drawing: &str) -> Result<String, AllocError> {
    let given = lines_of(alloc, text)?;
    let drawn = lines_of(alloc, drawing)?;
    let start = common_start(&given, &drawn);
    let end = common_end(&given[start..], &drawn[start..]);
    let mut shown = String::from_str(alloc, HEAD)?;
    add_lines(alloc, &mut shown, ' ', &given[..start])?;
    add_lines(alloc, &mut shown, '-', &given[start..given.len() - end])?;
    add_lines(alloc, &mut shown, '+', &drawn[start..drawn.len() - end])?;
    add_lines(alloc, &mut shown, ' ', &given[given.len() - end..])?;
    Ok(shown)
}

/// The lines of a text, without the empty ones at its end.
fn lines_of<'t>(alloc: Global, text: &'t str) -> Result<Vec<&'t str>, AllocError> {
    text.trim_end_matches('\n').split('\n').collect(alloc)
}

/// How many lines two texts begin with alike.
fn common_start(ones: &[&str], others: &[&str]) -> usize
    ensures one { result ≤ length ones.now }
    ensures other { result ≤ length others.now }
{
    let most = lesser(ones.len(), others.len());
    for index in 0..most {
        if ones[index] != others[index] {
            return index;
        }
    }
    most
}

/// How many lines two texts end with alike.
fn common_end(ones: &[&str], others: &[&str]) -> usize
    ensures one { result ≤ length ones.now }
    ensures other { result ≤ length others.now }
{
    let most = lesser(ones.len(), others.len());
    for index in 0..most {
        if ones[ones.len() - 1 - index] != others[others.len() - 1 - index] {
            return index;
        }
    }
    most
}

/// The lesser of two numbers.
fn lesser(one: usize, other: usize) -> usize
    ensures one { result ≤ one }
    ensures other { result ≤ other }
{
    if one < other { one } else { other }
}

/// Adds lines after this sign, as they may be shown.
fn add_lines(
    alloc: Global,
    shown: &mut String,
    sign: char,
    lines: &[&str],
) -> Result<(), AllocError> {
    for line in lines {
        let line = normalized(alloc, *line)?;
        shown.push(sign)?;
        shown.push_str(line.as_str())?;
        shown.push('\n')?;
    }
    Ok(())
}
