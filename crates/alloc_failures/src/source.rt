//! What is made of a source map: the lines of a span, the lines that are kept, and the text with patches applied.

use crate::retry::again;
use crate::subject::print_subject;
use annotate_snippets::renderer::parts::{
    AnnotatedLineInfo, LineInfo, SourceMap, check_patches, check_span, newline_count,
};
use annotate_snippets::text::{CowStr, text_fits};
use annotate_snippets::{AnnotationKind, Patch, Snippet, SourceLines};
use std::alloc::{AllocError, Global};
use std::io;

/// A source of six lines.
const SOURCE: &str = "a\nb\nc\nd\ne\nf";

/// Makes the map of a source, and each call of it that takes memory.
pub fn print(rt: &(impl Print + AllocGlobal)) -> io::Result<()> {
    if !text_fits(SOURCE) || newline_count(SOURCE) > 9 {
        return println!(rt; "too long");
    }
    let map = again!(SourceMap::new(rt.alloc(), SOURCE, 1))?;
    print_map(rt, &map)?;
    print_subject(
        rt,
        "lines of a source: `new`, `new_cow`",
        again!(finds_lines(rt.alloc()))?,
    )
}

/// Makes each call of the map that takes memory.
fn print_map(rt: &impl Print, map: &SourceMap<'_>) -> io::Result<()> {
    print_subject(rt, "source map: `new`", map.line_count() == 6)?;
    print_span(rt, map)?;
    print_subject(rt, "source map: `annotated_lines`", again!(keeps(map))?)?;
    print_subject(rt, "source map: `splice_lines`", again!(splices(map))?)
}

/// Whether the lines of a source are found, of one that is borrowed and of one that is owned, and drawn and looked into
/// where they are lent.
fn finds_lines(alloc: Global) -> Result<bool, AllocError> {
    let borrowed = SourceLines::new(alloc, SOURCE)?;
    let text = String::from_str(alloc, "ab\nc")?;
    let owned = SourceLines::new_cow(alloc, CowStr::Owned(text))?;
    if newline_count(owned.source()) > 9 {
        return Ok(false);
    }
    let map = SourceMap::indexed(alloc, &owned, 7);
    let snippet: Snippet<'_, Patch<'_>> = Snippet::indexed(alloc, &borrowed);
    Ok(
        matches!(borrowed.starts(), [0, 2, 4, 6, 8, 10])
            && matches!(owned.starts(), [0, 3])
            && map.get_line(8) == Some("c")
            && snippet.source.as_str() == SOURCE,
    )
}

/// Whether this is the line of this text and number.
fn is_line(line: &LineInfo<'_>, text: &str, number: usize) -> bool {
    line.line == text && line.line_index == number
}

/// Prints whether the lines of a span are the second and the third.
fn print_span(rt: &impl Print, map: &SourceMap<'_>) -> io::Result<()> {
    if check_span(map.source(), &(2..5)).is_some() {
        return println!(rt; "no span");
    }
    let lines = again!(map.span_to_lines(2..5))?;
    print_subject(rt, "source map: `span_to_lines`", are_touched(&lines))
}

/// Whether these lines are the second and the third.
fn are_touched(lines: &[LineInfo<'_>]) -> bool {
    match lines {
        [one, other] => is_line(one, "b", 2) && is_line(other, "c", 3),
        _ => false,
    }
}

/// Whether this line is kept, with one entry.
fn is_kept(line: &AnnotatedLineInfo<'_>, text: &str, number: usize) -> bool {
    line.line == text && line.line_index == number && line.annotations.len() == 1
}

/// Whether these lines are the first two and the last, each with one entry.
fn are_kept(lines: &[AnnotatedLineInfo<'_>]) -> bool {
    match lines {
        [one, two, six] => is_kept(one, "a", 1) && is_kept(two, "b", 2) && is_kept(six, "f", 6),
        _ => false,
    }
}

/// Whether the first two lines and the last are kept, where a span goes over the first two and another is in the last.
fn keeps(map: &SourceMap<'_>) -> Result<bool, AllocError> {
    let (long, short) = (
        AnnotationKind::Primary.span(0..3),
        AnnotationKind::Context.span(10..11),
    );
    let source = map.source();
    if check_span(source, &long.span).is_some() || check_span(source, &short.span).is_some() {
        return Ok(false);
    }
    let marks = [long, short];
    let (deepest, kept) = map.annotated_lines(&marks, true)?;
    Ok(deepest == 1 && are_kept(&kept))
}

/// Whether an insertion and a replacement give the first two lines anew.
fn splices(map: &SourceMap<'_>) -> Result<bool, AllocError> {
    let (insertion, replacement) = (Patch::new(0..0, "x"), Patch::new(2..3, "zz"));
    let source = map.source();
    if check_span(source, &insertion.span).is_some()
        || check_span(source, &replacement.span).is_some()
    {
        return Ok(false);
    }
    let patches = [insertion, replacement];
    if check_patches(source, &patches).is_some() {
        return Ok(false);
    }
    match map.splice_lines(&patches, true)? {
        Some(spliced) => Ok(spliced.complete.as_str() == "xa\nzz"),
        None => Ok(false),
    }
}
