//! What is known of a snippet before it is drawn.
ghost use Rattle.std.specs.Prelude.{◌≡◌, ◌==◌, ◌&&◌, not, length, map, take, if◌then◌else◌};
ghost use Rattle.std.specs.Cow.{cow_str_bytes};
ghost use Rattle.snippet_parts.specs.Counted as spec;
ghost use Rattle.snippet_parts.specs.Least.{greatest};
ghost use Rattle.snippet_parts.specs.Numbered.{numbered_source};

use crate::source_map::SourceMap;
use snippet_model::snippet::{Annotation, Snippet};

/// The line number that an annotated snippet counts for the gutter's width: that of the last line that its spans
/// reach, or of its last line where it isn't folded or has no spans. The map is that of its source.
pub fn counted_number(map: &SourceMap<'_>, snippet: &Snippet<Annotation>) -> usize
    requires map { map.now ≡ numbered_source snippet.now }
    ensures value { result ≡ spec.counted_number snippet.now }
{
    let end = reached_end(snippet);
    map.line_number_of(map.line_index_of(end.saturating_sub(1)))
}

/// The byte up to which a snippet's spans reach, or the end of its source where it isn't folded or has no spans.
fn reached_end(snippet: &Snippet<Annotation>) -> usize
    ensures value { take result (cow_str_bytes snippet.now.source.text)
        ≡ (if snippet.now.fold && not (length snippet.now.markers.items == 0)
        then take (greatest (map (λ a. a.span.end) snippet.now.markers.items)) (cow_str_bytes snippet.now.source.text)
        else cow_str_bytes snippet.now.source.text) }
{
    if snippet.fold && !snippet.markers.is_empty() {
        return greatest_end(&snippet.markers);
    }
    snippet.source.len()
}

/// The greatest byte at which an annotation ends, or 0 without annotations.
fn greatest_end(annotations: &[Annotation]) -> usize
    ensures value { result ≡ greatest (map (λ a. a.span.end) annotations.now) }
{
    let mut end = 0;
    for annotation in annotations {
        end = annotation.span.end.max(end);
    }
    end
}
