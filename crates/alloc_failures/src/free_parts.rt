//! Calls of sources, spans, margins and grids that take no memory.

use crate::subject::print_subjects;
use annotate_snippets::Patch;
use annotate_snippets::renderer::parts::{
    CursorLines, Margin, SourceMap, SpanFault, StyledBuffer, as_substr, check_patches, check_span,
    newline_count,
};
use std::alloc::Global;
use std::io;

/// The source that is mapped before the first line.
pub const SOURCE: &str = "a\r\nbc";

/// Makes the calls, and prints what came out right.
pub fn print(rt: &(impl Print + AllocGlobal), map: &SourceMap<'_>) -> io::Result<()> {
    print_subjects(
        rt,
        &[
            ("faults of spans", faults()),
            ("patches that overlap, and others", overlaps()),
            ("lines by their numbers", lines(map)),
            ("the places of a span", places(map)),
            ("the text that a replacement puts in", put_in()),
            ("line feeds, and a source line by line", feeds()),
            ("the bounds of lines", bounds()),
            ("a new grid", new_grid(rt.alloc())),
        ],
    )
}

/// Whether each fault of a span is found, and none where there is none.
fn faults() -> bool {
    check_span("ab", &(2..1)) == Some(SpanFault::Reversed)
        && check_span("ab", &(3..4)) == Some(SpanFault::PastEnd)
        && check_span("é", &(1..2)) == Some(SpanFault::OffBoundary)
        && check_span("ab", &(2..3)) == None
}

/// Which patches of a source overlap; `None` also where one of them has no span of it.
fn overlap(source: &str, one: Patch<'_>, other: Patch<'_>) -> Option<(usize, usize)> {
    if check_span(source, &one.span).is_some() || check_span(source, &other.span).is_some() {
        return None;
    }
    check_patches(source, &[one, other])
}

/// Whether patches overlap where they share a byte.
fn overlaps() -> bool {
    overlap("abc", Patch::new(0..2, "x"), Patch::new(1..3, "y")) == Some((0, 1))
        && overlap("abc", Patch::new(0..1, "x"), Patch::new(1..3, "y")) == None
}

/// Whether the source has its lines.
fn lines(map: &SourceMap<'_>) -> bool {
    map.get_line(1) == Some("a")
        && map.get_line(2) == Some("bc")
        && map.get_line(3) == None
        && map.line_count() == 2
}

/// Whether a span of both lines starts and ends where it does.
fn places(map: &SourceMap<'_>) -> bool {
    if check_span(map.source(), &(0..4)).is_some() {
        return false;
    }
    let (start, end) = map.span_to_locations(0..4);
    start.line == 1 && start.display == 0 && end.line == 2 && end.display == 1
}

/// Whether a replacement keeps what it has of the original.
fn put_in() -> bool {
    as_substr("AACC", "AABBCC") == Some((2, "BB", 2)) && as_substr("foo", "bar") == None
}

/// Whether a source has its line feeds and lines.
fn feeds() -> bool {
    let mut bytes = 0;
    for (line, end) in CursorLines::new("one\r\ntwo") {
        bytes = line.len().saturating_add(end.len());
    }
    newline_count("one\r\ntwo") == 1 && newline_count("one\n") == 0 && bytes == 3
}

/// Whether lines are cut where they have to be.
fn bounds() -> bool {
    // One marked column of 60 in 16 columns: it stands in the middle, and both ends are cut.
    is_bounded(Margin::new(0, 30, 31, 31, 16, 60), 60, (true, 23, 39))
        // 40 marked columns in 16: the span alone is more than the room holds, and no end is cut.
        && is_bounded(Margin::new(0, 0, 40, 40, 16, 40), 40, (false, 0, 40))
        // 30 spaces before a marked column: 22 of them stay.
        && is_bounded(Margin::new(30, 30, 31, 31, 136, 36), 36, (true, 8, 36))
        // Sums stop at the greatest number.
        && is_bounded(
            Margin::new(0, 0, usize::MAX, usize::MAX, usize::MAX, 1),
            1,
            (false, 0, 1),
        )
}

/// Whether lines are cut on the left, and one of this width is shown from the first column to before the second.
fn is_bounded(margin: Margin, width: usize, bounds: (bool, usize, usize)) -> bool {
    (
        margin.was_cut_left(),
        margin.left(width),
        margin.right(width),
    ) == bounds
}

/// Whether a new grid has neither rows nor runs.
fn new_grid(alloc: Global) -> bool {
    let grid = StyledBuffer::new(alloc);
    grid.num_lines() == 0 && grid.num_runs() == 0
}
