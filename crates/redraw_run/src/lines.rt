//! Lines of compilers, drawn where the file that they name is at hand.
ghost use Rattle.std.specs.Prelude.{◌≡◌, IfOk, IfSome, unwrap_or};
ghost use Rattle.redraw_report.specs.declared.diagnostic.Unit.TheVariants.{Bytes};
ghost use Rattle.redraw_run.specs.Deeds.{Happens, standing};
ghost use Rattle.redraw_run.specs.Fates.{IsFindingOrText};
ghost use Rattle.redraw_run.specs.Marked.{IsToldIn};
ghost use Rattle.output_stream.specs.Standing.{known};

use crate::draw::Drawing;
use crate::word::{mark_words, source_of};
use output_stream::Stream;
use redraw_command::stop::Stop;
use redraw_read::sources::{SourceFiles, Sources};
use redraw_report::diagnostic::{Diagnostic, Unit};
use redraw_tools::lines::reported;
use std::alloc::AllocError;
use std::io::Write;

/// Draws what some lines report, if the file that they name is at hand; else hands them on.
pub fn draw_lines<S: SourceFiles + Drop, W: Write, V: Write>(
    lines: &[u8],
    drawing: &mut Drawing<'_, S>,
    out: &mut Stream<W>,
    err: &mut Stream<V>,
) -> Result<(), Stop>
    ensures does { Happens result (IsFindingOrText lines.now)
        (standing drawing.old (known W.contents out.old) (known V.contents err.old))
        (standing drawing.new (known W.contents out.new) (known V.contents err.new)) }
{
    if !drawing.choice.reads_lines {
        return drawing.hand_on(lines, out);
    }
    drawing.own_text = None;
    let found = at_hand(lines, drawing)?;
    match found {
        Some(diagnostic) => drawing.take(diagnostic, None, out, err),
        None => drawing.hand_on(lines, out),
    }
}

/// What some lines report, if that is a finding in a file that is at hand.
fn at_hand<S: SourceFiles + Drop>(
    lines: &[u8],
    drawing: &mut Drawing<'_, S>,
) -> Result<Option<Diagnostic>, AllocError>
    ensures kept { (drawing.new.renderer ≡ drawing.old.renderer) × (drawing.new.choice ≡ drawing.old.choice)
        × (drawing.new.tally ≡ drawing.old.tally) }
    ensures told { IfOk result (λ found.
        IfSome found (IsToldIn (unwrap_or drawing.old.choice.columns Bytes) lines.now)) }
{
    let unit = drawing.choice.columns.unwrap_or(Unit::Bytes);
    let Some(mut diagnostic) = reported(drawing.alloc, lines, unit)? else {
        return Ok(None);
    };
    if !is_at_hand(&diagnostic, drawing)? {
        return Ok(None);
    }
    mark_words(&mut diagnostic, &drawing.sources);
    Ok(Some(diagnostic))
}

/// Whether the file is at hand in which a finding is.
fn is_at_hand<S: SourceFiles + Drop>(
    diagnostic: &Diagnostic,
    drawing: &mut Drawing<'_, S>,
) -> Result<bool, AllocError>
    ensures kept { (drawing.new.renderer ≡ drawing.old.renderer) × (drawing.new.choice ≡ drawing.old.choice)
        × (drawing.new.tally ≡ drawing.old.tally) }
{
    match diagnostic.spans.first() {
        Some(span) => holds(drawing, span.file.as_str()),
        None => Ok(false),
    }
}

/// Whether the file of this name is a text at hand, which is read then. Nothing is kept of one that isn't there: lines
/// that name no file take no memory.
fn holds<S: SourceFiles + Drop>(
    drawing: &mut Drawing<'_, S>,
    name: &str,
) -> Result<bool, AllocError>
    ensures kept { (drawing.new.renderer ≡ drawing.old.renderer) × (drawing.new.choice ≡ drawing.old.choice)
        × (drawing.new.tally ≡ drawing.old.tally) }
{
    if !is_asked(&drawing.sources, name) {
        if drawing.line_files.bytes(name)?.is_none() {
            return Ok(false);
        }
        drawing.sources.load(name, &[])?;
    }
    Ok(source_of(&drawing.sources, name).is_some())
}

/// Whether the file of this name was asked for before.
fn is_asked<S: SourceFiles + Drop>(sources: &Sources<S>, name: &str) -> bool {
    sources.index().place(name, "").is_some()
}
