//! A linter of JSON: it finds commas that stand before a closing bracket, and offers to drop them.

use annotate_snippets::level::{ERROR, HELP};
use annotate_snippets::renderer::RenderError;
use annotate_snippets::snippet::report_fits;
use annotate_snippets::{AnnotationKind, Group, Patch, Renderer, Snippet};
use std::alloc::{AllocError, Global};

/// What a file's text is found to be.
pub enum Verdict {
    /// Nothing is to be said of it.
    Clean,
    /// The report of what is wrong.
    Wrong(String),
    /// It is too long to be drawn.
    TooLong,
}

/// A comma that JSON doesn't allow, and the bracket that it stands before: the bytes at which they are.
#[derive(Clone, Copy)]
struct Comma {
    at: usize,
    bracket: usize,
}

/// Where a walk through a text is.
#[derive(Clone, Copy)]
enum TextState {
    Outside,
    InString,
    AfterBackslash,
}

/// Where the walk is after this byte.
fn place_after(place: TextState, byte: u8) -> TextState {
    match (place, byte) {
        (TextState::Outside, b'"') => TextState::InString,
        (TextState::InString, b'"') => TextState::Outside,
        (TextState::InString, b'\\') => TextState::AfterBackslash,
        (TextState::AfterBackslash, _) => TextState::InString,
        (same, _) => same,
    }
}

/// The comma that still has nothing but blanks after it, past this byte outside of strings.
fn open_comma(before: Option<usize>, at: usize, byte: u8) -> Option<usize> {
    match byte {
        b',' => Some(at),
        b' ' | b'\t' | b'\r' | b'\n' => before,
        _ => None,
    }
}

/// The commas of a text that stand before a closing bracket.
fn commas_in(alloc: Global, text: &str) -> Result<Vec<Comma>, AllocError> {
    let mut found = Vec::new(alloc);
    let mut place = TextState::Outside;
    let mut comma = None;
    for (bracket, byte) in text.as_bytes().iter().enumerate() {
        if let (TextState::Outside, Some(at), b'}' | b']') = (place, comma, *byte) {
            found.push(Comma { at, bracket })?;
        }
        comma = match place {
            TextState::Outside => open_comma(comma, bracket, *byte),
            TextState::InString | TextState::AfterBackslash => None,
        };
        place = place_after(place, *byte);
    }
    Ok(found)
}

/// What is wrong: the comma is marked, and the bracket that shows that nothing follows.
fn error<'a>(
    alloc: Global,
    path: &'a str,
    text: &'a str,
    comma: Comma,
) -> Result<Group<'a>, AllocError> {
    let mark = AnnotationKind::Primary.span(comma.at..comma.at.saturating_add(1));
    let close = AnnotationKind::Context.span(comma.bracket..comma.bracket.saturating_add(1));
    let snippet = Snippet::source(alloc, text)
        .path_str(path)
        .annotation(mark.label_str("no value follows this comma"))?
        .annotation(close)?;
    ERROR
        .primary_title("JSON has no comma before a closing bracket")
        .snippet(alloc, snippet)
}

/// How it is mended.
fn help<'a>(
    alloc: Global,
    path: &'a str,
    text: &'a str,
    comma: Comma,
) -> Result<Group<'a>, AllocError> {
    let patch = Patch::new(comma.at..comma.at.saturating_add(1), "");
    let snippet = Snippet::source(alloc, text).path_str(path).patch(patch)?;
    HELP.secondary_title("drop the comma")
        .suggestion(alloc, snippet)
}

/// What is wrong with each of these commas, and how it is mended.
fn report<'a>(
    alloc: Global,
    path: &'a str,
    text: &'a str,
    commas: &[Comma],
) -> Result<Vec<Group<'a>>, AllocError> {
    let mut groups = Vec::new(alloc);
    for comma in commas {
        groups.push(error(alloc, path, text, *comma)?)?;
        groups.push(help(alloc, path, text, *comma)?)?;
    }
    Ok(groups)
}

/// What is to be said of a file.
pub fn lint<'a>(alloc: Global, path: &'a str, text: &'a str) -> Result<Verdict, RenderError> {
    let groups: Vec<Group<'a>> = report(alloc, path, text, &commas_in(alloc, text)?)?;
    if groups.is_empty() {
        return Ok(Verdict::Clean);
    }
    if !report_fits(&groups) {
        return Ok(Verdict::TooLong);
    }
    Ok(Verdict::Wrong(Renderer::plain().render(alloc, &groups)?))
}
