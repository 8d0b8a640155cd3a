//! Places without lines of which nothing is said: rustc shows of those in a file only the first.

ghost use Rattle.std.specs.Prelude.{◌≡◌, ◌++◌, List, [], ◌∷◌, IfOk};
ghost use Rattle.redraw_read.specs.Places as spec;
ghost use Rattle.redraw_read.specs.Places.{shown_after, shown_from, shown_of};
ghost use Rattle.redraw_report.specs.declared.diagnostic.FileSpan.{FileSpan};

use crate::roles::with_role;
use redraw_report::diagnostic::FileSpan;
use std::alloc::{AllocError, Global};

/// These places, of which neighbours without lines stand by their lines, but those without lines of which nothing is
/// said that come after another one in their file. That one is primary then if they are.
pub fn drop_unsaid(alloc: Global, spans: Vec<FileSpan>) -> Result<Vec<FileSpan>, AllocError>
    ensures value { IfOk result (λ kept. kept.items ≡ shown_of spans.items) }
{
    let mut kept = Vec::new(alloc);
    let mut last: Option<FileSpan> = None;
    for span in spans {
        last = Some(last_after(&mut kept, last, span)?);
    }
    let kept = with_last(kept, last)?;
    Ok(kept)
}

/// Some places, and after them the last one, if there is one.
fn with_last(mut kept: Vec<FileSpan>, last: Option<FileSpan>) -> Result<Vec<FileSpan>, AllocError>
    ensures value { IfOk result (λ all. all.items ≡ kept.items ++ shown_from last []) }
{
    if let Some(last) = last {
        kept.push(last)?;
        return Ok(kept);
    }
    Ok(kept)
}

/// The last place after one more: the last before, if that shows the file of this one, and is primary then if this one
/// is; else this one, and the last before is kept.
fn last_after(
    kept: &mut Vec<FileSpan>,
    last: Option<FileSpan>,
    span: FileSpan,
) -> Result<FileSpan, AllocError>
    ensures next { (rest : List FileSpan) → IfOk result (λ next.
        kept.old.items ++ shown_from last (span ∷ rest) ≡ kept.new.items ++ shown_after next rest) }
{
    let Some(last) = last else {
        return Ok(span);
    };
    if is_shown_by(&last, &span) {
        let is_primary = last.is_primary || span.is_primary;
        return Ok(with_role(last, is_primary));
    }
    kept.push(last)?;
    Ok(span)
}

/// Whether the last place shows the file of this one, and that is all that is shown of this one.
fn is_shown_by(last: &FileSpan, span: &FileSpan) -> bool
    ensures value { result ≡ spec.is_shown_by last.now span.now }
{
    span.carried.is_none()
        && span.label.is_none()
        && last.carried.is_none()
        && last.file == span.file
}
