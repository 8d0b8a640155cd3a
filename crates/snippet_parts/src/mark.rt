//! The mark of a column: the kind of the span that is marked there.
ghost use Rattle.std.specs.Prelude.{◌≡◌, ℕ, ◌+◌, ◌<◌, ◌≤◌, true, false, All, IfSome};
ghost use Rattle.std.specs.Option.{IfNone};
ghost use Rattle.snippet_model.specs.declared.snippet.AnnotationKind.TheVariants.{Primary, Context};
ghost use Rattle.snippet_parts.specs.Mark.{start_column, end_column, span_width, is_marking, is_marked_on, IsMarkedAt};
ghost use Rattle.snippet_parts.specs.Mark.{IsMarkOf};
ghost use Rattle.snippet_lines.specs.IsSpan.{IsSpan};

use crate::location::is_marking;
use crate::source_map::SourceMap;
use snippet_model::snippet::{Annotation, AnnotationKind};
use std::cmp::Ordering;
use std::ops::Range;

/// A span that is marked at a column.
#[derive(Clone, Copy)]
struct Mark {
    /// How many columns the span covers.
    width: usize,
    /// How it is marked.
    kind: AnnotationKind,
}

/// The mark of a column of a line: the kind of the narrowest span that covers it, primary at equal width; `None`
/// where no span is marked.
///
/// `line` is the line's number, and `column` counts from 0. It looks at each span: meant for tests and for a reader,
/// not for drawing.
pub fn mark_of(
    source: &SourceMap<'_>,
    annotations: &[Annotation<'_>],
    line: usize,
    column: usize,
) -> Option<AnnotationKind>
    requires spans { All (λ a. IsSpan source.now.text a.span.start a.span.end) annotations.now }
    ensures mark { IfSome result (λ kind. (k : ℕ) → line ≡ source.now.first + k
        → IsMarkOf source.now.text annotations.now k column kind) }
    // No line has a number below the first one's, so nothing is marked there.
    ensures number { IfSome result (λ _. source.now.first ≤ line) }
    ensures none { IfNone result ((k : ℕ) → line ≡ source.now.first + k
        → All (λ a. IsMarkedAt source.now.text k column a → ⊥) annotations.now) }
{
    let mut best = None;
    for annotation in annotations {
        if let Some(mark) = mark_at(source, annotation, line, column) {
            best = match best {
                Some(before) if !is_narrower(mark, before) => best,
                _ => Some(mark),
            };
        }
    }
    best.map(|mark| mark.kind)
}

/// Whether a span is narrower than one before it, or primary and as wide.
fn is_narrower(mark: Mark, before: Mark) -> bool
    ensures narrower { result ≡ true → mark.width ≤ before.width }
    ensures primary { result ≡ true → mark.kind ≡ Context → mark.width < before.width }
    ensures wider { result ≡ false → before.width ≤ mark.width }
    ensures not_primary { result ≡ false → mark.kind ≡ Primary → before.width < mark.width }
{
    match mark.width.cmp(&before.width) {
        Ordering::Less => true,
        Ordering::Equal => mark.kind == AnnotationKind::Primary,
        Ordering::Greater => false,
    }
}

/// A span as it is marked at a column of the line of a number, if it is.
fn mark_at(
    source: &SourceMap<'_>,
    annotation: &Annotation<'_>,
    line: usize,
    column: usize,
) -> Option<Mark>
    requires span { IsSpan source.now.text annotation.now.span.start annotation.now.span.end }
    ensures marked { IfSome result (λ mark. (k : ℕ) → line ≡ source.now.first + k
        → IsMarkedAt source.now.text k column annotation.now) }
    ensures width { IfSome result (λ mark. mark.width ≡ span_width source.now.text annotation.now) }
    ensures kind { IfSome result (λ mark. mark.kind ≡ annotation.now.kind) }
    ensures number { IfSome result (λ _. source.now.first ≤ line) }
    ensures none { IfNone result ((k : ℕ) → line ≡ source.now.first + k
        → IsMarkedAt source.now.text k column annotation.now → ⊥) }
{
    let columns = marked_columns(source, annotation, line)?;
    if columns.start <= column && column < columns.end {
        Some(Mark {
            width: columns.end - columns.start,
            kind: annotation.kind,
        })
    } else {
        None
    }
}

/// The columns that a span covers below the line of a number; `None` where it isn't marked there.
fn marked_columns(
    source: &SourceMap<'_>,
    annotation: &Annotation<'_>,
    line: usize,
) -> Option<Range<usize>>
    requires span { IsSpan source.now.text annotation.now.span.start annotation.now.span.end }
    ensures marked { IfSome result (λ columns. (k : ℕ) → line ≡ source.now.first + k
        → is_marked_on source.now.text k annotation.now ≡ true) }
    ensures number { IfSome result (λ _. source.now.first ≤ line) }
    ensures start { IfSome result (λ columns. columns.start ≡ start_column source.now.text annotation.now) }
    ensures end { IfSome result (λ columns. columns.end ≡ end_column source.now.text annotation.now) }
    ensures none { IfNone result ((k : ℕ) → line ≡ source.now.first + k
        → is_marked_on source.now.text k annotation.now ≡ false) }
{
    let (start, end) = source.span_to_locations(annotation.span.start..annotation.span.end);
    if !is_marking(annotation.kind) || start.line != line || end.line != line {
        return None;
    }
    Some(start.display..end.display.max(start.display + 1))
}
