//! Beside which lines a span of several lines has bars. Lines count from 0.
ghost use Rattle.std.specs.Prelude.{◌≡◌, ℕ, ◌+◌, ◌-◌, ◌<◌, ◌≤◌, ◌&&◌, nat_lt, nat_le, min, not, length};
ghost use Rattle.std.specs.List.{list_any, range_with_len};
ghost use Rattle.snippet_parts.specs.Kept as spec;
ghost use Rattle.snippet_parts.specs.Located.{AreBars};
ghost use Rattle.snippet_lines.specs.Lines.{source_lines};

use crate::source_map::SourceMap;
use crate::trivial_lines::is_trivial;

/// Beside which lines a span of several lines has bars: after its first line up to `end`, and beside the line before
/// its last, if that is closing.
#[derive(Clone, Copy, Debug)]
pub(crate) struct Bars {
    /// The last line of the bars of its beginning, which is the span's first line where there are none.
    pub(crate) end: usize,
    /// Whether it has a bar beside the line before its last, apart from those.
    pub(crate) closing: bool,
}

/// The bars of a span of several lines, from its first line to its last.
pub(crate) fn bars_between(source: &SourceMap<'_>, first: usize, last: usize) -> Bars
    requires ordered { first < last }
    requires within { last < length (source_lines source.now.text) }
    ensures value { AreBars source.now.text first last result }
{
    Bars {
        end: bars_end(source, first, last),
        closing: has_closing_bar(source, first, last),
    }
}

/// The last line up to which a span of several lines has bars after its first one, which it is where there are none.
///
/// At most the three lines after the first one have bars, and not the trivial ones at their end.
fn bars_end(source: &SourceMap<'_>, first: usize, last: usize) -> usize
    requires ordered { first ≤ last }
    requires within { last < length (source_lines source.now.text) }
    ensures from { first ≤ result }
    ensures to { result ≤ min (first + 4) last }
    ensures before { first < last → result < last }
    ensures bars { (k : ℕ) → first < k → nat_le k result
        ≡ list_any (λ j. not (spec.is_trivial_line source.now.text j)) (range_with_len k (min (first + 4) last - k)) }
{
    for line in (first..beginning(first, last)).rev() {
        if !is_trivial_line(source, line) {
            return line;
        }
    }
    first
}

/// Whether a span of several lines has a bar beside the line before its last, apart from those of its beginning.
fn has_closing_bar(source: &SourceMap<'_>, first: usize, last: usize) -> bool
    requires ordered { first < last }
    requires within { last < length (source_lines source.now.text) }
    ensures value { result ≡ (nat_lt (min (first + 4) last) (last - 1)
        && not (spec.is_trivial_line source.now.text (last - 1))) }
{
    beginning(first, last) < last - 1 && !is_trivial_line(source, last - 1)
}

/// The line before which the beginning of a span ends: the fourth after the first, or the last one if that comes
/// sooner.
fn beginning(first: usize, last: usize) -> usize
    requires ordered { first ≤ last }
    ensures value { result ≡ min (first + 4) last }
{
    first + 4.min(last - first)
}

/// Whether a line of a source says little.
fn is_trivial_line(source: &SourceMap<'_>, line: usize) -> bool
    requires within { line < length (source_lines source.now.text) }
    ensures value { result ≡ spec.is_trivial_line source.now.text line }
{
    is_trivial(source.text_of_line(line))
}
