//! Where lines start, as a map of a source has it.
ghost use Rattle.std.specs.Prelude.{◌≡◌, ◌+◌, ◌<◌, ◌≤◌, length};
ghost use Rattle.std.specs.List.{HoldsAt};
ghost use Rattle.std.specs.List.Sorted.{IsNonDecreasingBy};
ghost use Rattle.snippet_lines.specs.Lines.{source_lines, start_of};
ghost use Rattle.snippet_parts.specs.MapStarts.{starts_of};

use snippet_lines::line_bounds::line_bounds;

/// The byte at which each of some lines starts: found for one map, or lent by who found the lines of the source.
#[derive(Drop)]
pub enum Starts<'a> {
    /// Found for this map.
    Found(Vec<usize>),
    /// Lent to it.
    Lent(&'a [usize]),
}

impl<'a> Starts<'a> {
    /// The bytes, in order.
    pub fn as_slice(&self) -> &[usize]
        ensures value { result.now ≡ starts_of self.now }
    {
        match self {
            Starts::Found(starts) => starts.as_slice(),
            Starts::Lent(starts) => starts,
        }
    }
}

/// The last of some lines that starts at a byte or before it, where these are the bytes at which they start.
pub(crate) fn last_starting_by(starts: &[usize], byte: usize) -> usize
    requires some { 0 < length starts.now }
    requires ordered { IsNonDecreasingBy (λ start. start) starts.now }
    requires first { HoldsAt (λ start. start ≤ byte) starts.now 0 }
    ensures within { result < length starts.now }
    ensures from { HoldsAt (λ start. start ≤ byte) starts.now result }
    ensures to { result + 1 < length starts.now → HoldsAt (λ start. byte < start) starts.now (result + 1) }
{
    starts.partition_point(|start| *start <= byte) - 1
}

/// The byte at which line `index` of a source starts, from 0; of the number of lines, the byte after the source.
pub(crate) fn nth_line_start(source: &str, index: usize) -> usize
    requires within { index ≤ length (source_lines source.now) }
    ensures value { result ≡ start_of (source_lines source.now) index }
{
    let mut start = 0;
    for line in 0..index {
        start = line_bounds(source, start).end;
    }
    start
}
