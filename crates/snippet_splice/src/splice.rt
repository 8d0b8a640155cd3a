//! The part of a source that is shown with patches applied.
ghost use Rattle.std.specs.Prelude.{◌≡◌, ◌↔◌, ◌+◌, ◌<◌, [], ◌++◌, map, All, IfOk, IfSome, IsNone, length, take};
ghost use Rattle.std.specs.Prelude.{◌≤◌, ◌*◌};
ghost use Rattle.std.specs.String.{string_bytes};
ghost use Rattle.snippet_lines.specs.Lines.{source_lines, text_at};
ghost use Rattle.snippet_lines.specs.IsSpan.{IsSpan, IsSpanBorder};
ghost use Rattle.snippet_splice.specs.Edits.{edit_of};
ghost use Rattle.snippet_splice.specs.Copied.{written_from, written_ranges, end_from};
ghost use Rattle.snippet_splice.specs.Splice.{IsSplice};
ghost use Rattle.snippet_splice.specs.StretchLines.{source_lines_shown};
ghost use Rattle.snippet_splice.specs.FirstOverlap.{AreDisjoint};
ghost use Rattle.snippet_splice.specs.TrimmedEdits.{original_bounds_of, trimmed_edit_of, AreApart};
ghost use Rattle.snippet_splice.specs.ShownText.{closes_line, shown_start, shown_rest, without_final_line_feeds};
ghost use Rattle.snippet_splice.specs.ShownText.{shown_text};

use crate::copy::push_copied;
use crate::patches::{TrimmedPatch, trimmed_patches};
use crate::stretches::{
    SubstitutionHighlight, new_stretches, patch_places, replaced_stretches, text_between,
};
use snippet_lines::line_bounds::line_bounds;
use snippet_lines::{CursorLines, ends_with_line_feed, line_feed_count, newline_count};
use snippet_model::Patch;
use std::alloc::{AllocError, Global};

/// Lines of a text, from the first to the last, both counted.
#[derive(Clone, Copy, Debug, PartialEq, Eq)]
pub struct LineRange {
    /// The first of them, counted from 0.
    pub first: usize,
    /// The last of them.
    pub last: usize,
}

/// The part of a source that is shown with patches applied.
///
/// If the source holds no carriage return, and no trimmed patch starts after a final line feed, the text is a part of
/// the patched source, which is the bytes between the patches and their replacements, joined. Each line that a patch
/// touches, and that isn't empty, is then one of its lines. Of `a`, LF, `bc` with `x` put in at 0 and `b` deleted it is
/// `xa`, LF, `c`. In any source a byte inside a line end, or after a final one, counts as one before it.
#[derive(Debug, Drop)]
pub struct SplicedLines<'a> {
    /// Its text, without the line feeds that end it.
    pub complete: String,
    /// The trimmed patches, in the order of the untrimmed ones: by start, then end, else as given.
    pub patches: Vec<TrimmedPatch<'a>>,
    /// For each of them the lines of the text on which its replacement stands, counted from 0.
    pub ranges: Vec<LineRange>,
    /// By lines of the text the stretches that the replacements write anew, in the order of the patches: a replacement
    /// is cut at its line feeds, and begins at the character at which its patch starts, as far after the one before it
    /// on that line as in the source.
    pub highlights: Vec<Vec<SubstitutionHighlight>>,
    /// By lines of the source, from the first that is shown on, the stretches that are replaced, in the order of the
    /// patches: each ends at the end of its line's text or where its patch ends.
    pub replaced_highlights: Vec<Vec<SubstitutionHighlight>>,
}

/// The part of a source that is shown with these patches applied; `None` exactly where there are none.
///
/// Folded it goes from the line on which the first patch starts to the end of the line on which the last one ends, or
/// to the end of the last trimmed replacement, if that ends with a line feed. Unfolded it is the whole patched source.
/// Line ends that are copied before the last patch are written as line feeds. The one error is that memory ran out.
pub fn spliced_lines<'a>(
    alloc: Global,
    source: &str,
    patches: &'a [Patch<'_>],
    fold: bool,
) -> Result<Option<SplicedLines<'a>>, AllocError>
    requires spans { All (λ p. IsSpan source.now p.span.start p.span.end) patches.now }
    requires disjoint { AreDisjoint (map edit_of patches.now) }
    ensures none { IfOk result (λ t. IsNone t ↔ (patches.now ≡ [])) }
    ensures splice { IfOk result (λ t. IfSome t (IsSplice source.now (map edit_of patches.now) fold)) }
{
    let patches = trimmed_patches(alloc, source, patches)?;
    let Some(first) = patches.first() else {
        return Ok(None);
    };
    let start = shown_start(source, first.original_span.start, fold);
    let written = write_patches(alloc, source, start, &patches)?;
    let after = &source[written.end.min(source.len())..];
    let rest = shown_rest(after, fold, closes_line(&patches));
    let complete = shown_text(written.text, rest)?;
    let places = patch_places(alloc, source, start, &patches)?;
    let lines = source_lines_shown(source, start, &patches, fold);
    let more = line_feed_count(rest);
    let highlights = new_stretches(alloc, &places, more)?;
    let replaced_highlights = replaced_stretches(alloc, &places, lines)?;
    Ok(Some(SplicedLines {
        complete,
        patches,
        ranges: written.ranges,
        highlights,
        replaced_highlights,
    }))
}

/// How many lines of the source the shown part replaces: folded from the byte `start` to the greatest end of a patch as
/// it was given, unfolded all.
fn source_lines_shown(source: &str, start: usize, patches: &[TrimmedPatch<'_>], fold: bool) -> usize
    ensures value { IsSpanBorder source.now start → All (λ t. IsSpanBorder source.now t.original_span.end) patches.now
        → result ≡ source_lines_shown fold source.now start (map original_bounds_of patches.now) }
{
    if !fold {
        return newline_count(source).saturating_add(1);
    }
    let mut end = start;
    for patch in patches {
        end = end.max(patch.original_span.end);
    }
    let feeds = line_feed_count(text_between(source, start, end));
    feeds.saturating_add(1)
}

/// The byte from which on the patched source is shown, if the first patch starts at `first`.
fn shown_start(source: &str, first: usize, fold: bool) -> usize
    ensures value { result ≡ shown_start fold source.now first }
{
    if fold {
        line_bounds(source, first).start
    } else {
        0
    }
}

/// Whether the last of some patches closes its line: its replacement ends with a line feed.
fn closes_line(patches: &[TrimmedPatch<'_>]) -> bool
    ensures value { result ≡ closes_line (map trimmed_edit_of patches.now) }
{
    match patches {
        [.., last] => ends_with_line_feed(last.replacement.as_bytes()),
        [] => false,
    }
}

/// What is shown of the source after the last patch.
fn shown_rest(rest: &str, fold: bool, closed: bool) -> &str
    ensures value { result.now ≡ shown_rest fold closed rest.now }
{
    if !fold {
        return rest;
    }
    if closed {
        return "";
    }
    first_line(rest)
}

/// The text of the first line of a text.
fn first_line(text: &str) -> &str
    ensures value { result.now ≡ text_at (source_lines text.now) 0 }
{
    match CursorLines::new(text).next() {
        Some((line, _)) => line,
        None => "",
    }
}

/// What was written with the rest after it, without the line feeds that end it.
fn shown_text(front: String, rest: &str) -> Result<String, AllocError>
    ensures value { IfOk result
        (λ t. string_bytes t ≡ without_final_line_feeds (string_bytes front ++ rest.now)) }
{
    let mut text = front;
    text.push_str(rest)?;
    let kept = without_final_line_feeds(text.as_str()).len();
    text.truncate(kept);
    Ok(text)
}

/// A text without the line feeds that end it.
fn without_final_line_feeds(text: &str) -> &str
    ensures value { result.now ≡ without_final_line_feeds text.now }
    ensures front { result.now ≡ take (length result.now) text.now }
{
    let mut rest = text;
    while let Some(front) = rest.strip_suffix('\n') {
        rest = front;
    }
    rest
}

/// What is written for patches, from a byte of the source on.
#[derive(Drop)]
struct Written {
    text: String,
    /// For each patch the lines of the text on which its replacement stands.
    ranges: Vec<LineRange>,
    /// The byte of the source after the last patch.
    end: usize,
}

/// Writes the source from a byte on with these patches applied, up to the last of them.
fn write_patches(
    alloc: Global,
    source: &str,
    from: usize,
    patches: &[TrimmedPatch<'_>],
) -> Result<Written, AllocError>
    requires from { IsSpanBorder source.now from }
    requires spans { All (λ t. IsSpan source.now t.span.start t.span.end) patches.now }
    requires apart { AreApart from (map trimmed_edit_of patches.now) }
    ensures text { IfOk result
        (λ w. string_bytes w.text ≡ written_from source.now from (map trimmed_edit_of patches.now)) }
    ensures ranges { IfOk result
        (λ w. w.ranges.items ≡ written_ranges source.now 0 from (map trimmed_edit_of patches.now)) }
    ensures end { IfOk result (λ w. w.end ≡ end_from from (map trimmed_edit_of patches.now)) }
    ensures border { IfOk result (λ w. IsSpanBorder source.now w.end) }
{
    let mut text = String::with_capacity(alloc, room_for(source, from, patches))?;
    let mut ranges = Vec::with_capacity(alloc, patches.len())?;
    let mut feeds = 0;
    let mut end = from;
    for patch in patches {
        let between = push_copied(&mut text, source, end, patch.span.start)?;
        text.push_str(patch.replacement)?;
        let first = feeds + between;
        feeds = first + line_feed_count(patch.replacement);
        ranges.push(LineRange { first, last: feeds })?;
        end = patch.span.end;
    }
    Ok(Written { text, ranges, end })
}

/// The bytes that a replacement is made room for.
const REPLACEMENT_BYTES: usize = 16;

/// Room for a source from a byte to the end of the last patch, with the patches applied, in bytes: for what is kept of
/// it at least. That is never more than the source has, and a few bytes for each patch.
fn room_for(source: &str, from: usize, patches: &[TrimmedPatch<'_>]) -> usize
    ensures most { result ≤ length source.now + 16 * length patches.now }
{
    let end = match patches.last() {
        Some(patch) => patch.span.end.min(source.len()),
        None => 0,
    };
    let kept = end.saturating_sub(from);
    kept.saturating_add(patches.len().saturating_mul(REPLACEMENT_BYTES))
}
