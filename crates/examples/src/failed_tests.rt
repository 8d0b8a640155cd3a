//! A printer of failed tests, in colour: for each the assertion that failed, and in another file the line to blame.

use annotate_snippets::level::{ERROR, NOTE};
use annotate_snippets::renderer::RenderToError;
use annotate_snippets::snippet::report_fits;
use annotate_snippets::{Annotation, AnnotationKind, Group, Renderer, Snippet};
use std::alloc::{AllocError, Global};
use std::io::Write;

/// Part of a file, and what is said of it.
#[derive(Clone, Copy)]
pub struct Part<'a> {
    pub path: &'a str,
    pub text: &'a str,
    /// The bytes of the text to be marked, from `start` to before `end`.
    pub start: usize,
    pub end: usize,
    pub label: &'a str,
}

/// A test that failed.
#[derive(Clone, Copy)]
pub struct Failure<'a> {
    pub name: &'a str,
    /// The assertion, in the file of the tests.
    pub assertion: Part<'a>,
    /// What made the wrong value.
    pub cause: Part<'a>,
}

/// A part of a file, with its mark.
fn marked<'a>(
    alloc: Global,
    part: &Part<'a>,
    kind: AnnotationKind,
) -> Result<Snippet<'a, Annotation<'a>>, AllocError> {
    let mark = kind.span(part.start..part.end).label_str(part.label);
    Snippet::source(alloc, part.text)
        .path_str(part.path)
        .annotation(mark)
}

/// The report of a failure: its name is a note, since it can be any text.
fn group<'a>(alloc: Global, failure: &Failure<'a>) -> Result<Group<'a>, AllocError> {
    let assertion = marked(alloc, &failure.assertion, AnnotationKind::Primary)?;
    let cause = marked(alloc, &failure.cause, AnnotationKind::Context)?;
    ERROR
        .primary_title("an assertion failed")
        .snippet(alloc, assertion)?
        .snippet(cause)?
        .message(NOTE.message(failure.name))
}

/// Writes the report of each failure, and a line feed after it. One that can't be drawn stops it.
pub fn print<'a, W: Write>(
    alloc: Global,
    failures: &[Failure<'a>],
    out: &mut W,
) -> Result<(), RenderToError> {
    for failure in failures {
        let groups: [Group<'a>; 1] = [group(alloc, failure)?];
        if report_fits(&groups) {
            Renderer::styled().render_to(alloc, &groups, out)?;
            out.write_all(b"\n")?;
        }
    }
    Ok(())
}
