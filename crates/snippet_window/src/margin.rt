//! The bounds between which the lines of a snippet are shown.
ghost use Rattle.std.specs.Prelude.{◌≡◌, ◌+◌, ◌-◌, ◌<◌, ◌≤◌, nat_le, nat_lt, min, if◌then◌else◌};
ghost use Rattle.snippet_window.specs.Margin.{capped_sum, margin_bounds};

/// The columns that stay free around spans and labels, for the placeholder.
const PADDING: usize = 6;

/// The width of common whitespace, less the padding, up to which none of it is cut.
const LONG_WHITESPACE: usize = 20;

/// How much of longer whitespace stays.
const KEPT_WHITESPACE: usize = 16;

/// The bounds between which the lines of a snippet are shown, in columns.
#[derive(Clone, Copy, Debug, PartialEq, Eq)]
pub struct Margin {
    /// The column at which lines begin to be shown.
    computed_left: usize,
    /// The column after the last one that is shown.
    computed_right: usize,
    /// The room: how many columns of a line may be shown.
    pub term_width: usize,
}

impl Margin {
    /// The bounds of a snippet, in a room of `term_width` columns.
    ///
    /// `whitespace_left` is the width of the whitespace that all lines begin with, `span_left` and `span_right` are the
    /// least and the greatest column of its spans, `label_right` is the column after its labels, and `max_line_len` the
    /// width of its widest line. The left bound is never past the right one where `span_left` isn't past `span_right`;
    /// where it is above 0, it is at least six columns left of the spans.
    pub fn new(
        whitespace_left: usize,
        span_left: usize,
        span_right: usize,
        label_right: usize,
        term_width: usize,
        max_line_len: usize,
    ) -> Margin
        ensures bounds { result ≡ margin_bounds term_width (record {
          whitespace = whitespace_left;
          widest = max_line_len;
          first = span_left;
          last = span_right;
          label_end = label_right;
        }) }
        ensures room { result.term_width ≡ term_width }
        ensures ordered { span_left ≤ span_right → result.computed_left ≤ result.computed_right }
        // Where lines are cut on the left, the first span stands after the padding.
        ensures padded { 0 < result.computed_left → result.computed_left + 6 ≤ span_left }
    {
        let blank = whitespace_left.min(span_left).saturating_sub(PADDING);
        let from = span_left.saturating_sub(PADDING);
        let to = span_right.saturating_add(PADDING);
        let after = label_right.saturating_add(PADDING);
        let left = cut_whitespace(blank);
        let right = max_line_len.max(left);
        if right - left <= term_width {
            // All fits, once whitespace is cut.
            Margin::between(left, right, term_width)
        } else if after.saturating_sub(blank) <= term_width && blank <= after {
            Margin::with_room_from(blank, term_width)
        } else if after.saturating_sub(from) <= term_width {
            let free = term_width - after.saturating_sub(from);
            Margin::with_room_from(from.saturating_sub(free / 2), term_width)
        } else if to.saturating_sub(from) <= term_width {
            let free = term_width - to.saturating_sub(from);
            Margin::with_room_from(from.saturating_sub(free / 5 * 2), term_width)
        } else {
            // The spans alone are more than the room holds.
            Margin::between(from, to, term_width)
        }
    }

    /// These bounds.
    fn between(left: usize, right: usize, term_width: usize) -> Margin
        ensures left { result.computed_left ≡ left }
        ensures right { result.computed_right ≡ right }
        ensures room { result.term_width ≡ term_width }
    {
        Margin {
            computed_left: left,
            computed_right: right,
            term_width,
        }
    }

    /// The bounds of all the room, from a column on.
    fn with_room_from(left: usize, term_width: usize) -> Margin
        ensures left { result.computed_left ≡ left }
        ensures right { result.computed_right ≡ capped_sum left term_width }
        ensures ordered { result.computed_left ≤ result.computed_right }
        ensures room { result.term_width ≡ term_width }
    {
        Margin::between(left, left.saturating_add(term_width), term_width)
    }

    /// Whether lines are cut on the left: their first columns are dropped, and the next give way to a placeholder.
    pub fn was_cut_left(&self) -> bool
        ensures value { result ≡ nat_lt 0 self.now.computed_left }
    {
        self.computed_left > 0
    }

    /// The column at which a line of this width begins to be shown: its end where it ends before the bound.
    pub fn left(&self, line_len: usize) -> usize
        ensures value { result ≡ min self.now.computed_left line_len }
    {
        self.computed_left.min(line_len)
    }

    /// The column after the last one shown of a line of this width: its end where that fits from the left bound on.
    pub fn right(&self, line_len: usize) -> usize
        ensures value { result ≡ (if nat_le (line_len - self.now.computed_left) self.now.term_width
            then line_len else min line_len self.now.computed_right) }
        ensures ordered { self.now.computed_left ≤ self.now.computed_right
            → min self.now.computed_left line_len ≤ result }
    {
        if line_len.saturating_sub(self.computed_left) <= self.term_width {
            line_len
        } else {
            line_len.min(self.computed_right)
        }
    }
}

/// How much of common whitespace is cut, where nothing else has to be.
fn cut_whitespace(blank: usize) -> usize
    ensures value { result ≡ (if nat_lt 20 blank then blank - 16 else 0) }
    ensures bound { result ≤ blank }
{
    if blank > LONG_WHITESPACE {
        blank - KEPT_WHITESPACE
    } else {
        0
    }
}
