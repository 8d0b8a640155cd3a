//! The window of a line: the part of it that is shown.
ghost use Rattle.std.specs.Prelude.{◌≡◌, ◌+◌, ◌-◌, ◌<◌, ◌≤◌, All, IfSome, List, ℕ, length, take, drop, chars, min};
ghost use Rattle.snippet_text.specs.Plain.{IsPlain};
ghost use Rattle.snippet_text.specs.Width.{width_of};
ghost use Rattle.snippet_window.specs.NearPart.{IsPartOf, reaching_last};
ghost use Rattle.snippet_window.specs.Window.{reaching, fitting, dropped_part, inner_part};
ghost use Rattle.snippet_window.specs.Window.{covered_columns, uncovered_part, covered_end};
ghost use Rattle.snippet_style.specs.Cell.{bytes_of};
ghost use Rattle.snippet_text.specs.TextBounds.{TextFits};
ghost use Rattle.snippet_style.specs.Bounds.{FitsRow, IsColumn, IsTextWidth, IsWindowColumn};

use crate::margin::Margin;
use snippet_style::char_count;
use snippet_text::{char_width, is_plain, plain_prefix, str_width};

/// The most bytes that a text may have, whose width is asked for.
const MOST_BYTES: usize = (1 << 56) - 1;

/// How many bytes a text has at most that is looked at as a whole.
const SHORT_TEXT: usize = 64;

/// So many columns are as soon walked over.
const FEW: usize = 8;

/// The window of a line. It is drawn from left to right: the placeholder where lines are cut on the left, then the
/// text, then the placeholder over the end of the text where the line is cut on the right.
///
/// ```text
///     ...d, e);  f(g, h...
///     |  |             |
///     |  |             `end`: the cell of the placeholder on the right
///     |  `text` stands here, after the `start` columns that the placeholder took
///     the first cell; left of it `dropped` columns of the line aren't shown
/// ```
#[derive(Clone, Copy, Debug)]
pub struct LineWindow<'a> {
    /// The columns of the line that are dropped left of the window.
    pub dropped: usize,
    /// Where lines are cut on the left: the columns of the characters that give their place to the placeholder.
    pub start: Option<usize>,
    /// What is shown after them.
    pub text: &'a str,
    /// Where the line is cut on the right: the cell from which on the placeholder stands, from 0.
    pub end: Option<usize>,
}

/// The window of a line of this many columns, between the bounds of a margin. Of the line's normalised text `text` is
/// the part, after `skipped` columns, that holds the window.
pub fn window_of<'a>(
    margin: Margin,
    placeholder: &str,
    skipped: usize,
    text: &'a str,
    width: usize,
) -> LineWindow<'a>
    requires narrow { IsColumn width }
    requires skipped { skipped ≤ min margin.computed_left width }
    requires short { FitsRow (chars text.now) }
    requires placeholder { TextFits placeholder.now }
    ensures dropped { (line : List ℕ) → IsPartOf margin line width skipped (chars text.now)
        → result.dropped ≡ width_of (dropped_part margin.computed_left line) }
    ensures few_dropped { IsWindowColumn result.dropped }
    ensures few_start { IfSome result.start (λ start. IsTextWidth start) }
    ensures few_end { IfSome result.end (λ end. IsWindowColumn end) }
    ensures start { (line : List ℕ) → IsPartOf margin line width skipped (chars text.now)
        → result.start ≡ covered_columns margin.computed_left (chars placeholder.now)
        (inner_part margin.term_width margin.computed_left margin.computed_right line) }
    ensures text { (line : List ℕ) → IsPartOf margin line width skipped (chars text.now)
        → chars result.text.now ≡ uncovered_part margin.computed_left (chars placeholder.now)
        (inner_part margin.term_width margin.computed_left margin.computed_right line) }
    ensures end { (line : List ℕ) → IsPartOf margin line width skipped (chars text.now)
        → result.end ≡ covered_end margin.term_width margin.computed_left margin.computed_right
        (chars placeholder.now) line }
{
    let left = margin.left(width);
    let right = margin.right(width);
    let (reached, rest) = after_columns(text, left - skipped);
    let (inner, inner_width) = within_columns(rest, right.saturating_sub(left));
    let (start, shown) = uncovered(margin, placeholder, inner);
    let end = if right < width {
        let at = start.unwrap_or(0) + char_count(shown);
        let covered = last_reaching(inner, inner_width, str_width(placeholder));
        Some(at.saturating_sub(covered))
    } else {
        None
    };
    LineWindow {
        dropped: skipped + reached,
        start,
        text: shown,
        end,
    }
}

/// The columns of a window's first characters that give their place to a placeholder, if lines are cut on the left, and
/// what stands after them.
fn uncovered<'a>(margin: Margin, placeholder: &str, inner: &'a str) -> (Option<usize>, &'a str)
    requires placeholder { TextFits placeholder.now }
    ensures start { result.0 ≡ covered_columns margin.computed_left (chars placeholder.now) (chars inner.now) }
    ensures bound { IfSome result.0 (λ start. start < width_of (chars placeholder.now) + 4) }
    ensures text { chars result.1.now ≡ uncovered_part margin.computed_left (chars placeholder.now) (chars inner.now) }
{
    if margin.was_cut_left() {
        let (skipped, shown) = after_columns(inner, str_width(placeholder));
        (Some(skipped), shown)
    } else {
        (None, inner)
    }
}

/// The width of the fewest characters that reach this many columns, or of all, and what stands after them.
fn after_columns(text: &str, columns: usize) -> (usize, &str)
    requires few { IsColumn columns }
    ensures width { let cs = chars text.now in result.0 ≡ width_of (take (reaching columns cs) cs) }
    ensures near { result.0 < columns + 4 }
    ensures rest { let cs = chars text.now in chars result.1.now ≡ drop (reaching columns cs) cs }
{
    let (at, width) = reaching_end(text, columns);
    (width, &text[at..])
}

/// Where the fewest characters end that reach this many columns, or all, in bytes and in columns.
pub(crate) fn reaching_end(text: &str, columns: usize) -> (usize, usize)
    requires few { IsColumn columns }
    ensures bytes { let cs = chars text.now in result.0 ≡ bytes_of (take (reaching columns cs) cs) }
    ensures width { let cs = chars text.now in result.1 ≡ width_of (take (reaching columns cs) cs) }
    ensures near { result.1 < columns + 4 }
{
    if columns == 0 {
        return (0, 0);
    }
    let plain = plain_start(text, columns);
    let (at, width) = walked_reaching(&text[plain..], columns - plain);
    (plain + at, plain + width)
}

/// Where the fewest characters end that reach this many columns, or all, found character by character.
fn walked_reaching(text: &str, columns: usize) -> (usize, usize)
    requires few { IsColumn columns }
    ensures bytes { let cs = chars text.now in result.0 ≡ bytes_of (take (reaching columns cs) cs) }
    ensures width { let cs = chars text.now in result.1 ≡ width_of (take (reaching columns cs) cs) }
    ensures near { result.1 < columns + 4 }
{
    let mut at = 0;
    let mut width = 0;
    for c in text.chars() {
        if width >= columns {
            return (at, width);
        }
        width += char_width(c);
        at += c.len_utf8();
    }
    (at, width)
}

/// The first characters that fit in this many columns, and their width.
fn within_columns(text: &str, columns: usize) -> (&str, usize)
    ensures value { let cs = chars text.now in chars result.0.now ≡ take (fitting columns cs) cs }
    ensures width { result.1 ≡ width_of (chars result.0.now) }
{
    let (at, width) = fitting_end(text, columns);
    (&text[..at], width)
}

/// Where the last of the characters ends that fit in this many columns, in bytes and in columns.
pub(crate) fn fitting_end(text: &str, columns: usize) -> (usize, usize)
    ensures bytes { let cs = chars text.now in result.0 ≡ bytes_of (take (fitting columns cs) cs) }
    ensures width { let cs = chars text.now in result.1 ≡ width_of (take (fitting columns cs) cs) }
    ensures near { columns < width_of (chars text.now) → columns < result.1 + 4 }
{
    if text.is_empty() {
        return (0, 0);
    }
    match whole_width(text, columns) {
        Some(width) => (text.len(), width),
        None => {
            let plain = plain_start(text, columns);
            let (at, width) = walked_end(&text[plain..], columns - plain);
            (plain + at, plain + width)
        }
    }
}

/// Where the last of the characters ends that fit in this many columns, found character by character.
fn walked_end(text: &str, columns: usize) -> (usize, usize)
    ensures bytes { let cs = chars text.now in result.0 ≡ bytes_of (take (fitting columns cs) cs) }
    ensures width { let cs = chars text.now in result.1 ≡ width_of (take (fitting columns cs) cs) }
    ensures near { columns < width_of (chars text.now) → columns < result.1 + 4 }
    ensures within { result.1 ≤ columns }
{
    let mut at = 0;
    let mut left = columns;
    for c in text.chars() {
        let width = char_width(c);
        if width > left {
            return (at, columns - left);
        }
        left -= width;
        at += c.len_utf8();
    }
    (at, columns - left)
}

/// How many of a text's first bytes are found to be printable ASCII without a walk over them, but not more than a
/// limit. So many characters stand there, each of one byte and one column.
fn plain_start(text: &str, limit: usize) -> usize
    ensures within { result ≤ limit }
    ensures inside { result ≤ length text.now }
    ensures plain { All IsPlain (take result text.now) }
{
    if limit < FEW {
        return 0;
    }
    if text.len() <= SHORT_TEXT && is_plain(text) {
        return limit.min(text.len());
    }
    plain_prefix(text, limit)
}

/// The width of a text, if it fits in this many columns and has no more bytes than these, as most texts that fit: then
/// no walk over its characters is needed.
fn whole_width(text: &str, columns: usize) -> Option<usize>
    ensures value { IfSome result (λ width. width ≡ width_of (chars text.now)) }
    ensures fits { IfSome result (λ width. width ≤ columns) }
{
    if text.len() > columns.min(MOST_BYTES) {
        return None;
    }
    let width = str_width(text);
    if width <= columns { Some(width) } else { None }
}

/// How many characters, up to the last one, of a text of this width reach this many columns: the fewest, or all.
fn last_reaching(text: &str, width: usize, columns: usize) -> usize
    requires width { width ≡ width_of (chars text.now) }
    ensures value { result ≡ reaching_last columns (chars text.now) }
{
    if is_plain(text) {
        return columns.min(text.len());
    }
    let mut width = width;
    let mut count = char_count(text);
    for c in text.chars() {
        let after = width - char_width(c);
        if after < columns {
            return count;
        }
        width = after;
        count -= 1;
    }
    count
}
