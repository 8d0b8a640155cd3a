//! The map of a snippet's source.
ghost use Rattle.std.specs.Prelude.{◌≡◌, ◌+◌, ◌≤◌, IfOk};
ghost use Rattle.std.specs.Cow.{cow_str_bytes};
ghost use Rattle.std.specs.Str.{IsUtf8};
ghost use Rattle.snippet_lines.specs.Lines.{newline_count};
ghost use Rattle.snippet_parts.specs.Numbered.{numbered_source};
ghost use Rattle.snippet_style.specs.Bounds.{HasNext};
ghost use Rattle.snippet_text.specs.TextBounds.{TextFits};

use crate::source_map::SourceMap;
use snippet_model::snippet::{Marker, Snippet};
use std::alloc::{AllocError, Global};
use std::ops::Range;

/// The map of a snippet's source. It keeps where lines start from the first line that a marker reaches to the last, and
/// where lines aren't folded of all; where the snippet's lines are lent, it reads those.
///
/// The one error is that memory ran out.
pub fn map_of<'a, T: Marker>(
    alloc: Global,
    snippet: &'a Snippet<'a, T>,
) -> Result<SourceMap<'a>, AllocError>
    requires fits { TextFits (cow_str_bytes snippet.now.source.text) }
    requires numbers { HasNext (snippet.now.line_start + newline_count (cow_str_bytes snippet.now.source.text)) }
    ensures ok { IfOk result (λ m. m ≡ numbered_source snippet.now) }
    ensures utf8 { IfOk result (λ m. IsUtf8 m.text) }
{
    let source = snippet.source.as_str();
    if let Some(starts) = snippet.source.line_starts() {
        return Ok(SourceMap::with_starts(alloc, source, starts, snippet.line_start));
    }
    let bytes = if snippet.fold {
        reached(&snippet.markers)
    } else {
        0..source.len()
    };
    SourceMap::near(alloc, source, snippet.line_start, bytes)
}

/// The bytes from the first that a marker reaches to the last; those at the start of a source without markers.
fn reached<T: Marker>(markers: &[T]) -> Range<usize>
    ensures ordered { result.start ≤ result.end }
{
    let Some(first) = markers.first() else {
        return 0..0;
    };
    let mut start = first.span().start;
    let mut end = first.span().end.max(start);
    for marker in markers {
        start = marker.span().start.min(start);
        end = marker.span().end.max(end);
    }
    start..end
}
