//! Where a line of a compiler says that something is: the place that it begins with.
//!
//! `FILE:LINE:COL: TEXT` and `FILE:LINE: TEXT` are such lines, and `FILE(LINE,COL): TEXT` and `FILE(LINE): TEXT`. A
//! drive at the beginning, as `C:\` or `C:/`, belongs to FILE; elsewhere a file with a colon in its name isn't known.
//! After the last colon one blank stands, and then the text: lines that go on with more are further in.
ghost use Rattle.std.specs.Prelude.{◌≡◌, option_map};
ghost use Rattle.json_lines.specs.Field.{lent_text};
ghost use Rattle.redraw_tools.specs.Heading as spec;
ghost use Rattle.redraw_tools.specs.Heading.{column_view, line_view, named_view};

use crate::cut::{after, before, number_of, parted, parted_last};

/// A place, and what is said of it.
#[derive(Clone, Copy)]
pub struct Heading<'t> {
    /// The letter of a drive, where the file is on one.
    pub drive: Option<&'t str>,
    /// The file, after the drive and a colon.
    pub file: &'t str,
    /// The line, as it is counted.
    pub line: usize,
    /// The column, where one is told.
    pub column: Option<usize>,
    /// What is said of it.
    pub text: &'t str,
}

/// A file, and the rest of a line.
#[derive(Clone, Copy)]
struct Named<'t> {
    drive: Option<&'t str>,
    file: &'t str,
    rest: &'t str,
}

/// The place that a line begins with, which has no line feed.
pub fn heading_of(line: &str) -> Option<Heading<'_>>
    ensures value { option_map line_view result ≡ spec.heading_of line.now }
{
    let named = named_in(line)?;
    match in_brackets(named) {
        Some(heading) => Some(heading),
        None => after_colons(named),
    }
}

/// The file that a line begins with, up to a colon.
fn named_in(line: &str) -> Option<Named<'_>>
    ensures value { option_map named_view result ≡ spec.named_in line.now }
{
    let (file, rest) = parted(line, ":")?;
    if !is_drive(file, rest) {
        let drive = None;
        return Some(Named { drive, file, rest });
    }
    let drive = Some(file);
    let (file, rest) = parted(rest, ":")?;
    Some(Named { drive, file, rest })
}

/// Whether this stands for a drive before a colon and that.
fn is_drive(letter: &str, rest: &str) -> bool
    ensures value { result ≡ spec.is_drive letter.now rest.now }
{
    match (letter.as_bytes(), rest.as_bytes()) {
        ([letter], [b'\\' | b'/', ..]) => letter.is_ascii_alphabetic(),
        _ => false,
    }
}

/// A place whose line and column stand in brackets.
fn in_brackets(named: Named<'_>) -> Option<Heading<'_>>
    ensures value { option_map line_view result ≡ spec.in_brackets (named_view named.entry) }
{
    let text = text_after(named.rest)?;
    let (file, inner) = parted_last(before(named.file, ")")?, "(")?;
    let (line, column) = numbers_in(inner)?;
    Some(Heading {
        drive: named.drive,
        file,
        line,
        column,
        text,
    })
}

/// The line, and the column if there is one, that stand in brackets.
fn numbers_in(inner: &str) -> Option<(usize, Option<usize>)>
    ensures value { result ≡ spec.numbers_in inner.now }
{
    match parted(inner, ",") {
        Some((line, column)) => Some((number_of(line)?, Some(number_of(column)?))),
        None => Some((number_of(inner)?, None)),
    }
}

/// A place whose line and column stand after colons.
fn after_colons(named: Named<'_>) -> Option<Heading<'_>>
    ensures value { option_map line_view result ≡ spec.after_colons (named_view named.entry) }
{
    let (line, rest) = parted(named.rest, ":")?;
    let line = number_of(line)?;
    let (column, text) = column_in(rest)?;
    Some(Heading {
        drive: named.drive,
        file: named.file,
        line,
        column,
        text,
    })
}

/// The column that comes after a line and its colon, if one does, and the text after it.
fn column_in(rest: &str) -> Option<(Option<usize>, &str)>
    ensures value { option_map column_view result ≡ spec.column_in rest.now }
{
    match text_after(rest) {
        Some(text) => Some((None, text)),
        None => {
            let (digits, after) = parted(rest, ":")?;
            Some((Some(number_of(digits)?), text_after(after)?))
        }
    }
}

/// The text that comes after one blank.
fn text_after(rest: &str) -> Option<&str>
    ensures value { lent_text result ≡ spec.text_after rest.now }
{
    match after(rest, " ") {
        Some(text) if is_text(text) => Some(text),
        _ => None,
    }
}

/// Whether this begins with something that is no blank.
fn is_text(text: &str) -> bool
    ensures value { result ≡ spec.is_text text.now }
{
    !matches!(text.as_bytes(), [] | [b' ' | b'\t', ..])
}
