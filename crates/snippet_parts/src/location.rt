//! The place that the head of a snippet names after its path.
ghost use Rattle.std.specs.Prelude.{◌≡◌, ℕ, Bool, List, All, IfSome, map};
ghost use Rattle.std.specs.Option.{option_map};
ghost use Rattle.std.specs.Str.{IsUtf8};
ghost use Rattle.snippet_lines.specs.Lines.{Source};
ghost use Rattle.snippet_lines.specs.IsSpan.{IsSpan};
ghost use Rattle.snippet_parts.specs.Annotated.{annotated_lines};
ghost use Rattle.snippet_parts.specs.Mark.{is_marking};
ghost use Rattle.snippet_parts.specs.Least.{least};
ghost use Rattle.snippet_parts.specs.Location as spec;
ghost use Rattle.snippet_parts.specs.NamingStart as naming;
ghost use Rattle.snippet_parts.specs.NamingStart.{marked_starts, place_at, primary_starts};
ghost use Rattle.snippet_parts.specs.EntryBounds.{AllEntries, HasCharacterRoom};
ghost use Rattle.snippet_parts.specs.OnLine.{seen_kept};

use crate::entries::AnnotatedLineInfo;
use crate::least::lesser;
use snippet_model::snippet::{Annotation, AnnotationKind};

/// A line of a source, and a column there, as the head of a snippet names them.
#[derive(Clone, Copy, Debug)]
pub struct Location {
    /// The line's number.
    pub line: usize,
    /// The column, in characters, from 1; `None` where no annotation stands on the line.
    pub column: Option<usize>,
}

/// The place that the head of a snippet names that isn't primary, given the lines that are kept.
///
/// It is on the first line with an entry, at the column of the first one there; without entries it is the first line
/// alone. `None` where there are no lines.
pub fn secondary_place(lines: &[AnnotatedLineInfo<'_>]) -> Option<Location>
    requires room { AllEntries HasCharacterRoom lines.now }
    ensures value { result ≡ spec.secondary_place (map seen_kept lines.now) }
{
    for info in lines {
        if let Some(entry) = info.annotations.first() {
            return Some(Location {
                line: info.line_index,
                column: Some(entry.start.char + 1),
            });
        }
    }
    let first = lines.first()?;
    Some(Location {
        line: first.line_index,
        column: None,
    })
}

/// The byte at which the first primary span starts; where none is primary, the first span that is marked. `None` where
/// none is.
///
/// The place of this byte is the one that the head of a primary snippet names: on the first line with a primary entry,
/// at the least column of a primary one; where no entry is primary, on the first line with an entry, at the least
/// column there.
pub fn naming_start(annotations: &[Annotation<'_>]) -> Option<usize>
    ensures value { result ≡ naming.naming_start annotations.now }
    // A span of no bytes may stand there.
    ensures border { (source : List ℕ) → All (λ a. IsSpan source a.span.start a.span.end) annotations.now
        → IfSome result (λ start. IsSpan source start start) }
    ensures named { (fold : Bool) (s : Source) → IsUtf8 s.text
        → All (λ a. IsSpan s.text a.span.start a.span.end) annotations.now
        → spec.primary_place (annotated_lines fold s annotations.now) ≡ option_map (place_at s) result }
{
    match first_primary(annotations) {
        Some(start) => Some(start),
        None => first_marked(annotations),
    }
}

/// The least byte at which one of some spans starts that are primary, if there are any.
fn first_primary(annotations: &[Annotation<'_>]) -> Option<usize>
    ensures value { result ≡ least (primary_starts annotations.now) }
{
    let mut least = None;
    for annotation in annotations {
        if annotation.kind == AnnotationKind::Primary {
            least = lesser(least, annotation.span.start);
        }
    }
    least
}

/// The least byte at which one of some spans starts that are marked, if there are any.
fn first_marked(annotations: &[Annotation<'_>]) -> Option<usize>
    ensures value { result ≡ least (marked_starts annotations.now) }
{
    let mut least = None;
    for annotation in annotations {
        if is_marking(annotation.kind) {
            least = lesser(least, annotation.span.start);
        }
    }
    least
}

/// Whether spans of this kind are marked, and don't just keep their lines.
pub fn is_marking(kind: AnnotationKind) -> bool
    ensures value { result ≡ is_marking kind }
{
    matches!(kind, AnnotationKind::Primary | AnnotationKind::Context)
}
