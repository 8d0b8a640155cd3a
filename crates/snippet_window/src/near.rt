//! The part of a line that is sure to hold its window.
ghost use Rattle.std.specs.Prelude.{◌≡◌, ◌+◌, ◌-◌, ◌<◌, ◌≤◌, length, take, drop, chars, min};
ghost use Rattle.snippet_text.specs.Width.{width_of};
ghost use Rattle.snippet_window.specs.NearPart.{HoldsWindow, falling_short, window_columns};
ghost use Rattle.snippet_window.specs.Window.{reaching};
ghost use Rattle.snippet_style.specs.Bounds.{IsColumn, IsTextWidth};

use crate::margin::Margin;
use crate::window::{fitting_end, reaching_end};

/// The columns of the widest character.
const WIDEST: usize = 4;

/// A part of a line that holds the window of the line.
///
/// ```text
///     a, b, c, d, e);  f(g, h, i, j, k, l, m, n
///            |   |             |     |
///            |   `-- window ---'     |
///            `------- `text` --------'
/// ```
#[derive(Clone, Copy, Debug)]
pub struct NearPart<'a> {
    /// The columns of the characters before it.
    pub skipped: usize,
    /// Its characters.
    pub text: &'a str,
}

/// The part of a line of this width, in columns, that holds the line's window between the bounds of a margin: it is at
/// most a few characters longer than the window.
pub fn near_part<'a>(margin: Margin, line: &'a str, width: usize) -> NearPart<'a>
    requires width { width ≡ width_of (chars line.now) }
    requires narrow { IsTextWidth width }
    ensures holds { HoldsWindow margin.term_width margin.computed_left margin.computed_right (chars line.now)
        result.skipped (chars result.text.now) }
    ensures within { result.skipped ≤ min margin.computed_left width }
    ensures short { length result.text.now ≤ length line.now }
    // Little of the line is kept beside the window.
    ensures few { width_of (chars result.text.now) < window_columns margin.term_width margin.computed_left
        margin.computed_right (chars line.now) + 12 }
{
    let left = margin.left(width);
    let columns = margin.right(width).saturating_sub(left);
    let (skipped, rest) = after_fewer(line, left);
    NearPart {
        skipped,
        text: part_reaching(rest, width - skipped, left - skipped + columns + WIDEST),
    }
}

/// The columns of the most characters that take fewer columns than these, and what stands after them.
fn after_fewer(text: &str, columns: usize) -> (usize, &str)
    ensures width { let cs = chars text.now in result.0 ≡ width_of (take (falling_short columns cs) cs) }
    ensures within { result.0 ≤ columns }
    ensures near { columns ≤ width_of (chars text.now) → columns ≤ result.0 + 4 }
    ensures rest { let cs = chars text.now in chars result.1.now ≡ drop (falling_short columns cs) cs }
    ensures short { length result.1.now ≤ length text.now }
{
    if columns == 0 {
        (0, text)
    } else {
        let (at, width) = fitting_end(text, columns - 1);
        (width, &text[at..])
    }
}

/// The fewest characters of a text of this width that reach this many columns, or all.
fn part_reaching(text: &str, width: usize, columns: usize) -> &str
    requires width { width ≡ width_of (chars text.now) }
    requires few { IsColumn columns }
    ensures value { let cs = chars text.now in chars result.now ≡ take (reaching columns cs) cs }
    ensures near { width_of (chars result.now) < columns + 4 }
    ensures short { length result.now ≤ length text.now }
{
    if width < columns {
        return text;
    }
    let (at, _) = reaching_end(text, columns);
    &text[..at]
}
