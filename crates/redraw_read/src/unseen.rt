//! Places of files of which no lines are at hand. rustc shows them in an order that only its text tells, and begins
//! each such file with the arrow of a first one: it gets a group of its own, which goes on with the one before.
//!
//! ```text
//!  --> src/main.rs:3:25
//!   |
//! 3 | fn shout(text: &str) -> Strng {
//!   |                         ^^^^^
//!   |
//!  --> /rustc/library/alloc/src/string.rs:353:0
//!   |
//!   = note: similarly named struct `String` defined here
//! ```

ghost use Rattle.std.specs.Prelude.{◌≡◌, IfOk, false, is_some, not};
ghost use Rattle.std.specs.List.{list_any};
ghost use Rattle.redraw_read.specs.Rustc as spec;
ghost use Rattle.redraw_report.specs.declared.diagnostic.Child.{Child};
ghost use Rattle.redraw_report.specs.declared.diagnostic.FileSpan.{FileSpan};
ghost use Rattle.redraw_read.specs.Told.{KeepsHeading};

use crate::plain::without_styles;
use crate::rendered::Stand;
use crate::shown_lines::{LineNumbers, lines_of, numbers_of};
use redraw_report::diagnostic::{Child, Diagnostic, FileSpan, Region, Severity};
use std::alloc::{AllocError, Global};
use std::mem;

/// A diagnostic whose places without lines are in the order of this text, and in which each further file of such places
/// has a group of its own.
pub fn with_files_apart(
    alloc: Global,
    text: Option<&str>,
    diagnostic: Diagnostic,
) -> Result<Diagnostic, AllocError>
    ensures headed { IfOk result (KeepsHeading diagnostic) }
    ensures whole { spec.has_several diagnostic ≡ false → IfOk result (λ apart. apart ≡ diagnostic) }
{
    match text {
        Some(text) if has_several(&diagnostic) => apart_by(alloc, text, diagnostic),
        _ => Ok(diagnostic),
    }
}

/// Whether a diagnostic or one of its children has several places, one of them without lines.
fn has_several(diagnostic: &Diagnostic) -> bool
    ensures value { result ≡ spec.has_several diagnostic.now }
{
    are_several(&diagnostic.spans) || has_several_beside(&diagnostic.children)
}

/// Whether one of these children has several places, one of them without lines.
fn has_several_beside(children: &[Child]) -> bool
    ensures value { result ≡ list_any (λ (c : Child). spec.are_several c.spans.items) children.now }
{
    children.iter().any(|child| are_several(&child.spans))
}

/// Whether these are several places, one of them without lines.
fn are_several(spans: &[FileSpan]) -> bool
    ensures value { result ≡ spec.are_several spans.now }
{
    spans.len() > 1 && has_unseen(spans)
}

/// Whether one of these places has no lines.
fn has_unseen(spans: &[FileSpan]) -> bool
    ensures value { result ≡ list_any (λ (s : FileSpan). not (is_some s.carried)) spans.now }
{
    spans.iter().any(|span| is_unseen(span))
}

/// Whether no lines came with a place.
fn is_unseen(span: &FileSpan) -> bool
    ensures value { result ≡ not (is_some span.now.carried) }
{
    span.carried.is_none()
}

/// A diagnostic, with its places apart by their files as this text has them, which may have styles.
fn apart_by(alloc: Global, text: &str, diagnostic: Diagnostic) -> Result<Diagnostic, AllocError>
    ensures headed { IfOk result (KeepsHeading diagnostic) }
{
    let plain = without_styles(alloc, text)?;
    let lines = lines_of(alloc, plain.as_str())?;
    let named = numbers_of(alloc, Stand::Origin, &lines)?;
    let mut children = Vec::new(alloc);
    let spans = taken_apart(
        alloc,
        &named,
        diagnostic.severity,
        diagnostic.spans,
        &mut children,
    )?;
    add_each(alloc, &named, diagnostic.children, &mut children)?;
    Ok(Diagnostic {
        severity: diagnostic.severity,
        message: diagnostic.message,
        code: diagnostic.code,
        spans,
        children,
        homes: diagnostic.homes,
        shows_gone: diagnostic.shows_gone,
    })
}

/// Adds children, and after each what goes on with it.
fn add_each(
    alloc: Global,
    named: &LineNumbers,
    given: Vec<Child>,
    children: &mut Vec<Child>,
) -> Result<(), AllocError> {
    for child in given {
        add_apart(alloc, named, child, children)?;
    }
    Ok(())
}

/// Adds a child, and what goes on with it.
fn add_apart(
    alloc: Global,
    named: &LineNumbers,
    child: Child,
    children: &mut Vec<Child>,
) -> Result<(), AllocError> {
    let mut further = Vec::new(alloc);
    let spans = taken_apart(alloc, named, child.severity, child.spans, &mut further)?;
    children.push(Child {
        severity: child.severity,
        message: child.message,
        spans,
        alternatives: child.alternatives,
        goes_on: child.goes_on,
    })?;
    for child in further {
        children.push(child)?;
    }
    Ok(())
}

/// Of some places those up to the first further file without lines; what goes on with them is added: each such file,
/// with the places after it.
fn taken_apart(
    alloc: Global,
    named: &LineNumbers,
    severity: Severity,
    given: Vec<FileSpan>,
    further: &mut Vec<Child>,
) -> Result<Vec<FileSpan>, AllocError> {
    if !are_several(&given) {
        return Ok(given);
    }
    let ordered = by_files(alloc, given)?;
    let mut spans = Vec::new(alloc);
    for span in settled_by_text(alloc, named, ordered)? {
        if begins_apart(last_of(&spans, further), &span) {
            further.push(going_on(alloc, severity))?;
        }
        match further.last_mut() {
            Some(last) => last.spans.push(span)?,
            None => spans.push(span)?,
        }
    }
    Ok(spans)
}

/// Places in the order in which their files are shown: those of the file of the first primary one, then the others that
/// have lines, and then the rest.
fn by_files(alloc: Global, spans: Vec<FileSpan>) -> Result<Vec<FileSpan>, AllocError> {
    let lead = lead_file(alloc, &spans)?;
    let mut ordered = Vec::new(alloc);
    let mut seen = Vec::new(alloc);
    let mut unseen = Vec::new(alloc);
    for span in spans {
        if span.file == lead {
            ordered.push(span)?;
        } else if is_unseen(&span) {
            unseen.push(span)?;
        } else {
            seen.push(span)?;
        }
    }
    for span in seen {
        ordered.push(span)?;
    }
    for span in unseen {
        ordered.push(span)?;
    }
    Ok(ordered)
}

/// The file of the first primary one of some places; no name if none is.
fn lead_file(alloc: Global, spans: &[FileSpan]) -> Result<String, AllocError> {
    match spans.iter().find(|span| span.is_primary) {
        Some(span) => String::from_str(alloc, span.file.as_str()),
        None => Ok(String::new(alloc)),
    }
}

/// A child that goes on with what is before it, without places yet.
fn going_on(alloc: Global, severity: Severity) -> Child {
    Child {
        severity,
        message: String::new(alloc),
        spans: Vec::new(alloc),
        alternatives: Vec::new(alloc),
        goes_on: true,
    }
}

/// The last of some places, and of those that go on with them.
fn last_of<'a>(spans: &'a [FileSpan], further: &'a [Child]) -> Option<&'a FileSpan> {
    match further.last() {
        Some(child) => child.spans.last(),
        None => spans.last(),
    }
}

/// Whether a place is the first one of a further file without lines, after the one before it.
fn begins_apart(before: Option<&FileSpan>, span: &FileSpan) -> bool {
    match before {
        Some(last) => is_unseen(span) && last.file != span.file,
        None => false,
    }
}

/// A place, and the line of a text that names it.
type NamedSpan = (usize, FileSpan);

/// Places, of which neighbours without lines are in the order in which a text names them.
fn settled_by_text(
    alloc: Global,
    named: &LineNumbers,
    spans: Vec<FileSpan>,
) -> Result<Vec<FileSpan>, AllocError> {
    let mut settled = Vec::new(alloc);
    let mut run = Vec::new(alloc);
    for span in spans {
        if is_unseen(&span) {
            let number = number_in(alloc, named, &span)?;
            run.push((number, span))?;
        } else {
            add_run(run, &mut settled)?;
            run = Vec::new(alloc);
            settled.push(span)?;
        }
    }
    add_run(run, &mut settled)?;
    Ok(settled)
}

/// The number of the line of a text that names a place; that after all lines if none does.
fn number_in(alloc: Global, named: &LineNumbers, span: &FileSpan) -> Result<usize, AllocError> {
    match span.region {
        Region::Lines(region) => {
            let file = span.file.as_str();
            let line = region.start_line;
            let column = region.start_column.unwrap_or(0);
            let place = format!(in alloc; "{file}:{line}:{column}")?;
            Ok(named.get(place.as_str()).copied().unwrap_or(usize::MAX))
        }
        _ => Ok(usize::MAX),
    }
}

/// Adds places in the order of their lines of a text.
fn add_run(mut run: Vec<NamedSpan>, settled: &mut Vec<FileSpan>) -> Result<(), AllocError> {
    run.sort_by_key(|place| place.0)?;
    for (_, span) in run {
        settled.push(span)?;
    }
    Ok(())
}
