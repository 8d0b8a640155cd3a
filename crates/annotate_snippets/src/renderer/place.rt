//! The place that stands after the path of an annotated snippet.
//!
//! ```text
//!   --> src/main.rs:3:5
//! ```
ghost use Rattle.std.specs.Prelude.{◌≡◌, Bool, true, All, map};
ghost use Rattle.std.specs.Str.{IsUtf8};
ghost use Rattle.snippet_lines.specs.IsSpan.{IsSpan};
ghost use Rattle.snippet_parts.specs.Annotated.{annotated_lines};
ghost use Rattle.snippet_parts.specs.OnLine.{seen_kept};
ghost use Rattle.annotate_snippets.specs.PreparedReport.{IsCausePrepared};
ghost use Rattle.annotate_snippets.specs.ShortForm.{place_named};

use crate::renderer::preprocess::PreparedCause;
use snippet_model::snippet::Annotation;
use snippet_parts::{SourceMap, naming_start, secondary_place};
use snippet_titles::OriginLocation;

/// The place that the head of an annotated snippet names. A primary one names a span; any other one the first entry of
/// its lines.
pub fn place_in_head(primary: bool, cause: &PreparedCause<'_>) -> OriginLocation
    requires prepared { IsCausePrepared cause.now }
    ensures value { result ≡ place_named primary (map seen_kept cause.now.kept.items) }
{
    if primary {
        return named_place(&cause.map, &cause.snippet.markers);
    }
    match secondary_place(&cause.kept) {
        Some(place) => OriginLocation {
            line: Some(place.line),
            column: place.column,
        },
        None => OriginLocation {
            line: None,
            column: None,
        },
    }
}

/// The place that the head of a primary snippet names, given its source and its spans: that of a byte, so no line is
/// looked at for its entries.
pub fn named_place(source: &SourceMap<'_>, annotations: &[Annotation<'_>]) -> OriginLocation
    requires spans { All (λ a. IsSpan source.now.text a.span.start a.span.end) annotations.now }
    requires utf8 { IsUtf8 source.now.text }
    ensures value { (fold : Bool) → result ≡ place_named true (annotated_lines fold source.now annotations.now) }
{
    match naming_start(annotations) {
        Some(start) => {
            let (at, _) = source.span_to_locations(start..start);
            OriginLocation {
                line: Some(at.line),
                column: Some(at.char + 1),
            }
        }
        None => OriginLocation {
            line: None,
            column: None,
        },
    }
}
