//! What `render_to` tells of a writer that fails or is interrupted, and how often it calls it.
use crate::watched::Watched;
use annotate_snippets::level::{ERROR, HELP};
use annotate_snippets::renderer::{RenderError, RenderToError};
use annotate_snippets::snippet::report_fits;
use annotate_snippets::text::CowStr;
use annotate_snippets::{Group, Renderer};
use std::alloc::{AllocError, Global};
use std::io;
use std::test::Fail;

/// A report of five groups, each a title.
fn report(alloc: Global) -> [Group<'static>; 5] {
    [
        Group::with_title(alloc, ERROR.primary_title("one")),
        Group::with_title(alloc, HELP.secondary_title("two")),
        Group::with_title(alloc, HELP.secondary_title("three")),
        Group::with_title(alloc, HELP.secondary_title("four")),
        Group::with_title(alloc, HELP.secondary_title("five")),
    ]
}

/// Its text.
fn text(alloc: Global) -> Result<String, RenderError> {
    let groups: [Group<'static>; 5] = report(alloc);
    if report_fits(&groups) {
        return Renderer::plain().render(alloc, &groups);
    }
    Err(RenderError::Memory(AllocError))
}

/// Writes it.
fn write(alloc: Global, out: &mut Watched) -> Result<(), RenderToError> {
    let groups: [Group<'static>; 5] = report(alloc);
    if report_fits(&groups) {
        return Renderer::plain().render_to(alloc, &groups, out);
    }
    Err(RenderToError::Refused(RenderError::Memory(AllocError)))
}

/// Writes a report of this title alone.
fn write_title(alloc: Global, title: String, out: &mut Watched) -> Result<(), RenderToError> {
    let title = ERROR.primary_title_cow(CowStr::Owned(title));
    let groups: [Group<'static>; 1] = [Group::with_title(alloc, title)];
    if report_fits(&groups) {
        return Renderer::plain().render_to(alloc, &groups, out);
    }
    Err(RenderToError::Refused(RenderError::Memory(AllocError)))
}

/// Whether what came of it is the error that the watched writer gives.
fn is_the_writers(answer: &Result<(), RenderToError>) -> bool {
    match answer {
        Err(RenderToError::Write(error)) => error.kind() == io::ErrorKind::StorageFull,
        _ => false,
    }
}

/// Where a word begins in a text; its end where it isn't in it.
fn place_of(text: &str, word: &str) -> usize {
    text.find(word).unwrap_or(text.len())
}

#[test]
fn tells_the_writers_own_error_once(rt: HostRuntime) -> Result<(), Fail> {
    let whole = text(rt.alloc())?;
    let (second, fifth) = (
        place_of(whole.as_str(), "two"),
        place_of(whole.as_str(), "five"),
    );
    assert!(rt; second < fifth && fifth < whole.len());
    for room in [0, 1, second, fifth] {
        let mut out = Watched::new(rt.alloc(), room, 0);
        let answer = write(rt.alloc(), &mut out);
        assert!(rt; is_the_writers(&answer));
        assert_eq!(rt;
            out.text.as_slice(),
            &whole.as_bytes()[..room.min(whole.len())]
        );
        assert_eq!(rt; out.failures, 1);
    }
    Ok(())
}

#[test]
fn goes_on_after_interruptions(rt: HostRuntime) -> Result<(), Fail> {
    let whole = text(rt.alloc())?;
    for interruptions in [0, 1, 10] {
        let mut out = Watched::new(rt.alloc(), 1000, interruptions);
        write(rt.alloc(), &mut out)?;
        assert_eq!(rt; out.text.as_slice(), whole.as_bytes());
        assert_eq!(rt; out.calls, 5 + interruptions);
    }
    Ok(())
}

#[test]
fn writes_a_megabyte_at_once(rt: HostRuntime) -> Result<(), Fail> {
    let title = "a".repeat(rt.alloc(), 1 << 20)?;
    let mut out = Watched::new(rt.alloc(), 1 << 21, 0);
    write_title(rt.alloc(), title, &mut out)?;
    assert_eq!(rt; out.text.len(), "error: ".len() + (1 << 20));
    assert_eq!(rt; out.calls, 1);
    Ok(())
}
