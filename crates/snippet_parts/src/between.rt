//! The single lines between lines that are kept: they are shown too, since a row that stands for one line saves none.
ghost use Rattle.std.specs.Prelude.{◌≡◌, Bool, List, ◌++◌, ◌≤◌, All, length, map, IfOk, IfSome, OnOk};
ghost use Rattle.std.specs.Option.{option_map};
ghost use Rattle.snippet_model.specs.declared.snippet.Annotation.{Annotation};
ghost use Rattle.snippet_parts.specs.Annotated.{annotated_lines, kept_line};
ghost use Rattle.snippet_parts.specs.OnLine.{seen_kept};
ghost use Rattle.snippet_parts.specs.Between as spec;
ghost use Rattle.snippet_parts.specs.Kept.{shown_lines};
ghost use Rattle.snippet_parts.specs.ShownLines.{infos_of, kept_of};
ghost use Rattle.snippet_lines.specs.IsSpan.{IsSpan};
ghost use Rattle.snippet_text.specs.TextBounds.{TextFits};

use crate::entries::AnnotatedLineInfo;
use crate::shown_line::ShownLine;
use crate::source_map::SourceMap;
use std::alloc::{AllocError, Global};

/// The lines that are shown: those that are kept, which are given in their order, and each single line between two of
/// them, without entries.
///
/// The one error is that memory ran out.
pub fn with_lines_between<'a>(
    alloc: Global,
    source: &SourceMap<'a>,
    kept: Vec<AnnotatedLineInfo<'a>>,
) -> Result<Vec<ShownLine<'a>>, AllocError>
    requires fits { TextFits source.now.text }
    requires texts { All (λ info. TextFits info.line.now) kept.items }
    ensures kept_are { IfOk result (λ shown. kept_of shown.items ≡ kept.entry.items) }
    // No entry stands on a line that isn't kept, and no span keeps it.
    ensures value { IfOk result (λ shown. (fold : Bool) (marks : List Annotation)
        → All (λ a. IsSpan source.now.text a.span.start a.span.end) marks
        → map seen_kept kept.entry.items ≡ annotated_lines fold source.now marks
        → map seen_kept (infos_of shown.items) ≡ map (kept_line source.now marks)
        (shown_lines fold source.now.text marks)) }
{
    let mut shown = Vec::with_capacity(alloc, kept.len())?;
    let mut before = None;
    for info in kept {
        let number = info.line_index;
        push_between(&mut shown, alloc, source, before, number)?;
        shown.push(ShownLine::new(info, false))?;
        before = Some(number);
    }
    Ok(shown)
}

/// Adds the single line between a line, if there is one, and a later one, each given by its number.
fn push_between<'a>(
    shown: &mut Vec<ShownLine<'a>>,
    alloc: Global,
    source: &SourceMap<'a>,
    before: Option<usize>,
    after: usize,
) -> Result<(), AllocError>
    requires fits { TextFits source.now.text }
    ensures kept_are { OnOk result (kept_of shown.new.items ≡ kept_of shown.old.items) }
    ensures value { OnOk result (map seen_kept (infos_of shown.new.items) ≡ map seen_kept (infos_of shown.old.items)
        ++ spec.lines_between source.now before after) }
{
    if let Some(before) = before {
        if let Some(line) = line_between(alloc, source, before, after) {
            shown.push(ShownLine::new(line, true))?;
        }
    }
    Ok(())
}

/// The single line between two lines, given by their numbers; `None` where there are more lines between them or none.
fn line_between<'a>(
    alloc: Global,
    source: &SourceMap<'a>,
    before: usize,
    after: usize,
) -> Option<AnnotatedLineInfo<'a>>
    ensures value { option_map seen_kept result ≡ spec.line_between source.now before after }
    ensures short { IfSome result (λ info. length info.line.now ≤ length source.now.text) }
{
    if after.checked_sub(before) != Some(2) {
        return None;
    }
    let line = source.get_line(before + 1)?;
    Some(AnnotatedLineInfo {
        line,
        line_index: before + 1,
        annotations: Vec::new(alloc),
        keep: false,
    })
}
