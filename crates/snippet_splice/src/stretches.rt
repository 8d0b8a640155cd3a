//! Which stretches of lines a suggested edit writes anew, and which of the source it replaces.
ghost use Rattle.std.specs.Prelude.{◌≡◌, ◌==◌, ◌≤◌, ◌<◌, ◌^◌, nat_lt, ℕ, List, ◌++◌, ◌∷◌, [], All, IfOk, OnOk, chars};
ghost use Rattle.std.specs.Prelude.{count_by, length, map, max, ◌+◌, if◌then◌else◌};
ghost use Rattle.std.specs.List.{slice_range, slice_split};
ghost use Rattle.std.specs.Str.{IsUtf8};
ghost use Rattle.snippet_lines.specs.Lines.{is_lf};
ghost use Rattle.snippet_lines.specs.IsSpan.{IsSpan, IsSpanBorder};
ghost use Rattle.snippet_splice.specs.Copied.{in_text};
ghost use Rattle.snippet_splice.specs.EditStretches.{after_last_lf, capped, characters_before, end_character};
ghost use Rattle.snippet_splice.specs.EditStretches.{extents_from};
ghost use Rattle.snippet_splice.specs.StretchLines.{extent_of, feeds_made, line_stretches, lines_over};
ghost use Rattle.snippet_splice.specs.TrimmedEdits.{AreApart, trimmed_edit_of};
ghost use Rattle.snippet_splice.specs.EditStretches.{pieces_on, replaced_on, start_character, stretches_on, taken_on};
ghost use Rattle.snippet_splice.specs.EditStretches.{without_cr};
ghost use Rattle.snippet_splice.specs.EditStretches as spec;
ghost use Rattle.snippet_style.specs.Bounds.{IsUsize};

use crate::copy::text_place;
use crate::patches::TrimmedPatch;
use memchr::memrchr;
use snippet_lines::line_feed_count;
use snippet_style::char_count;
use std::alloc::{AllocError, Global};

/// A stretch of a line, from one character to another; a tab of a replacement counts as four.
#[derive(Clone, Copy, Debug, PartialEq, Eq)]
pub struct SubstitutionHighlight {
    /// The number of its first character, from 0.
    pub start: usize,
    /// The number of the character after it.
    pub end: usize,
}

/// Where a patch stands in the source, by characters of its lines, and its text.
#[derive(Clone, Copy, Drop)]
pub(crate) struct PatchExtent<'s, 'a> {
    /// The line feeds between the end of the patch before it, or the beginning, and its start.
    feeds: usize,
    /// The characters of its line before its start.
    text_start: usize,
    /// The character number of its start: one more where it stands after the text of its line.
    start: usize,
    /// The character number of its end.
    end: usize,
    /// The text of the source that it stands over.
    inside: &'s str,
    /// What stands in its place.
    replacement: &'a str,
}

/// The places of some patches, in their order, if the line on which the first is looked for starts at `from`.
pub(crate) fn patch_places<'s, 'a>(
    alloc: Global,
    source: &'s str,
    from: usize,
    patches: &[TrimmedPatch<'a>],
) -> Result<Vec<PatchExtent<'s, 'a>>, AllocError>
    requires from { IsSpanBorder source.now from }
    requires spans { All (λ t. IsSpan source.now t.span.start t.span.end) patches.now }
    requires apart { AreApart from (map trimmed_edit_of patches.now) }
    ensures value { IfOk result (λ places. map extent_of places.items
        ≡ extents_from source.now from from (map trimmed_edit_of patches.now)) }
{
    let mut places = Vec::with_capacity(alloc, patches.len())?;
    let mut at = from;
    let mut chars = 0;
    for patch in patches {
        let between = text_between(source, at, patch.span.start);
        let text_start = chars_after(chars, between);
        let inside = text_between(source, patch.span.start, patch.span.end);
        chars = chars_after(text_start, inside);
        let start = text_start.saturating_add(steps_after_text(source, patch.span.start));
        places.push(PatchExtent {
            feeds: line_feed_count(between),
            text_start,
            start,
            end: end_char(source, patch, inside, start, chars),
            inside,
            replacement: patch.replacement,
        })?;
        at = patch.span.end;
    }
    Ok(places)
}

/// The character number of a patch's end: that of its start if its span is empty, and one more where it ends on a later
/// line, after the text of that. The text `inside` is what its span stands over.
fn end_char(
    source: &str,
    patch: &TrimmedPatch<'_>,
    inside: &str,
    start: usize,
    chars: usize,
) -> usize
    ensures value { let e = trimmed_edit_of patch.now in (from : ℕ)
        → inside.now ≡ slice_range source.now (in_text source.now e.start) (in_text source.now e.end)
        → start ≡ start_character source.now from e.start → chars ≡ characters_before source.now from e.end
        → result ≡ end_character source.now from e }
{
    if patch.span.start == patch.span.end {
        return start;
    }
    if line_feed_count(inside) == 0 {
        chars
    } else {
        chars.saturating_add(steps_after_text(source, patch.span.end))
    }
}

/// The text from one byte of a source to another, bytes inside a line end moved before it.
pub(crate) fn text_between<'a>(source: &'a str, from: usize, to: usize) -> &'a str
    ensures value { IsSpanBorder source.now from → IsSpanBorder source.now to
        → result.now ≡ slice_range source.now (in_text source.now from) (in_text source.now to) }
{
    match source.get(text_place(source, from)..text_place(source, to)) {
        Some(text) => text,
        None => "",
    }
}

/// 1 where a byte stands after the text of its line, else 0.
fn steps_after_text(source: &str, byte: usize) -> usize
    ensures value { result ≡ (if nat_lt (in_text source.now byte) byte then 1 else 0) }
{
    usize::from(text_place(source, byte) < byte)
}

/// The characters of a line before the end of a text, if this many stand before its beginning.
fn chars_after(before: usize, text: &str) -> usize
    ensures value { (front : List ℕ) → IsUtf8 front → before ≡ length (chars (after_last_lf front))
        → IsUsize (length (front ++ text.now)) → result ≡ length (chars (after_last_lf (front ++ text.now))) }
{
    match memrchr(b'\n', text.as_bytes()) {
        Some(at) => char_count(&text[at + 1..]),
        None => before.saturating_add(char_count(text)),
    }
}

/// The stretches that are written anew, by lines of the text; `feeds` more lines follow the last patch.
pub(crate) fn new_stretches(
    alloc: Global,
    places: &[PatchExtent<'_, '_>],
    feeds: usize,
) -> Result<Vec<Vec<SubstitutionHighlight>>, AllocError>
    ensures value { IfOk result (λ lines. (k : ℕ) → line_stretches lines.items k
        ≡ stretches_on k 0 0 0 (map extent_of places.now)) }
    ensures lines { IfOk result (λ lines.
        length lines.items ≡ capped (feeds_made (map extent_of places.now) + feeds + 1)) }
{
    let mut lines = Vec::with_capacity(alloc, places.len())?;
    let mut line = 0usize;
    let mut shown = 0usize;
    let mut end = 0usize;
    for place in places {
        line = line.saturating_add(place.feeds);
        let start = text_start(shown, end, place);
        let last = push_pieces(alloc, &mut lines, line, start, place.replacement)?;
        let feeds = line_feed_count(place.replacement);
        line = line.saturating_add(feeds);
        shown = shown_end(start, place, feeds, last);
        end = place.end;
    }
    open_lines(
        alloc,
        &mut lines,
        line.saturating_add(feeds).saturating_add(1),
    )?;
    Ok(lines)
}

/// The character at which the text of a patch begins, if character `end` of the source stands as character `shown` in
/// its line: as in the source where it is the first on its line, else as far after the patch before it as there.
fn text_start(shown: usize, end: usize, place: &PatchExtent<'_, '_>) -> usize
    ensures value { result ≡ spec.text_start shown end (extent_of place.now) }
{
    if place.feeds == 0 {
        shown.saturating_add(place.start.saturating_sub(end))
    } else {
        place.start
    }
}

/// As which character the end of a patch stands, whose text begins at character `start` and has so many line feeds: as
/// `last`, the end of its text, but where the text has several lines, as in the source.
fn shown_end(start: usize, place: &PatchExtent<'_, '_>, feeds: usize, last: usize) -> usize
    requires feeds { feeds ≡ count_by is_lf place.now.replacement.now }
    requires last { feeds ≡ 0 → last ≡ capped (start + spec.stretch_width place.now.replacement.now) }
    ensures value { result ≡ spec.shown_end start (extent_of place.now) }
{
    if feeds == 0 { last } else { place.end }
}

/// Adds a stretch for each piece of a replacement, cut at its line feeds: the first from character `from` on, on line
/// `first`, each other from the beginning of the next line on. It gives the end of the last one.
fn push_pieces(
    alloc: Global,
    lines: &mut Vec<Vec<SubstitutionHighlight>>,
    first: usize,
    from: usize,
    replacement: &str,
) -> Result<usize, AllocError>
    ensures value { OnOk result ((k : ℕ) → line_stretches lines.new.items k
        ≡ line_stretches lines.old.items k ++ pieces_on k first from (slice_split is_lf replacement.now)) }
    ensures lines { OnOk result (length lines.new.items
        ≡ max (length lines.old.items) (capped (first + count_by is_lf replacement.now + 1))) }
    ensures end { IfOk result (λ end. count_by is_lf replacement.now ≡ 0
        → end ≡ capped (from + spec.stretch_width replacement.now)) }
{
    let mut start = from;
    let mut line = first;
    let mut rest = replacement;
    while let Some((piece, after)) = rest.split_once('\n') {
        let end = start.saturating_add(stretch_width(piece));
        push_stretch(alloc, lines, line, SubstitutionHighlight { start, end })?;
        start = 0;
        line = line.saturating_add(1);
        rest = after;
    }
    let end = start.saturating_add(stretch_width(rest));
    push_stretch(alloc, lines, line, SubstitutionHighlight { start, end })?;
    Ok(end)
}

/// Adds a stretch to a line.
fn push_stretch(
    alloc: Global,
    lines: &mut Vec<Vec<SubstitutionHighlight>>,
    line: usize,
    stretch: SubstitutionHighlight,
) -> Result<(), AllocError>
    ensures value { OnOk result ((k : ℕ) → line_stretches lines.new.items k
        ≡ line_stretches lines.old.items k ++ (if line == k then stretch ∷ [] else [])) }
    ensures lines { OnOk result (length lines.new.items ≡ max (length lines.old.items) (capped (line + 1))) }
{
    if lines.len() <= line {
        return push_line(alloc, lines, line, stretch);
    }
    if let Some(stretches) = lines.get_mut(line) {
        stretches.push(stretch)?;
    }
    Ok(())
}

/// Adds a line with a stretch, of this number, and those before it that aren't there, without stretches.
fn push_line(
    alloc: Global,
    lines: &mut Vec<Vec<SubstitutionHighlight>>,
    line: usize,
    stretch: SubstitutionHighlight,
) -> Result<(), AllocError>
    requires new { length lines.old.items ≤ line }
    ensures value { OnOk result ((k : ℕ) → line_stretches lines.new.items k
        ≡ line_stretches lines.old.items k ++ (if line == k then stretch ∷ [] else [])) }
    ensures lines { OnOk result (length lines.new.items ≡ max (length lines.old.items) (capped (line + 1))) }
{
    open_lines(alloc, lines, line)?;
    let mut stretches = Vec::with_capacity(alloc, 1)?;
    stretches.push(stretch)?;
    lines.push(stretches)?;
    Ok(())
}

/// Adds lines without stretches until there are this many.
fn open_lines(
    alloc: Global,
    lines: &mut Vec<Vec<SubstitutionHighlight>>,
    count: usize,
) -> Result<(), AllocError>
    ensures same { (k : ℕ) → line_stretches lines.new.items k ≡ line_stretches lines.old.items k }
    ensures enough { OnOk result (count ≤ length lines.new.items) }
    ensures lines { OnOk result (length lines.new.items ≡ max (length lines.old.items) count) }
{
    for _ in lines.len()..count {
        lines.push(Vec::new(alloc))?;
    }
    Ok(())
}

/// The characters of a text, a tab counted as four.
fn stretch_width(text: &str) -> usize
    ensures value { result ≡ spec.stretch_width text.now }
{
    let tabs = text.as_bytes().iter().filter(|b| **b == b'\t').count();
    char_count(text).saturating_add(tabs.saturating_mul(3))
}

/// The stretches of the source that are replaced, by its lines from the beginning on, `count` of them.
pub(crate) fn replaced_stretches(
    alloc: Global,
    places: &[PatchExtent<'_, '_>],
    count: usize,
) -> Result<Vec<Vec<SubstitutionHighlight>>, AllocError>
    ensures value { IfOk result (λ lines. (k : ℕ) → line_stretches lines.items k
        ≡ replaced_on k 0 (map extent_of places.now)) }
    ensures lines { IfOk result (λ lines.
        length lines.items ≡ max (lines_over 0 (map extent_of places.now)) count) }
{
    let mut lines = Vec::with_capacity(alloc, count)?;
    let mut line = 0usize;
    for place in places {
        line = line.saturating_add(place.feeds);
        push_replaced(alloc, &mut lines, line, place)?;
        line = line.saturating_add(line_feed_count(place.inside));
    }
    open_lines(alloc, &mut lines, count)?;
    Ok(lines)
}

/// Adds a stretch for each line of a replaced text: from the patch's start, on later lines from their beginning, to the
/// end of the line's text, on the last line to the patch's end.
fn push_replaced(
    alloc: Global,
    lines: &mut Vec<Vec<SubstitutionHighlight>>,
    first: usize,
    place: &PatchExtent<'_, '_>,
) -> Result<(), AllocError>
    ensures value { let x = extent_of place.now in OnOk result ((k : ℕ) → line_stretches lines.new.items k
        ≡ line_stretches lines.old.items k ++ taken_on k first x.before x.start x.end (slice_split is_lf x.under)) }
    ensures lines { OnOk result (length lines.new.items
        ≡ max (length lines.old.items) (capped (first + count_by is_lf place.now.inside.now + 1))) }
{
    let mut start = place.start;
    let mut before = place.text_start;
    let mut line = first;
    let mut rest = place.inside;
    while let Some((piece, after)) = rest.split_once('\n') {
        let end = before.saturating_add(char_count(without_return(piece)));
        push_stretch(alloc, lines, line, SubstitutionHighlight { start, end })?;
        start = 0;
        before = 0;
        line = line.saturating_add(1);
        rest = after;
    }
    let end = place.end;
    push_stretch(alloc, lines, line, SubstitutionHighlight { start, end })
}

/// The text of a line that a line feed ends, without a carriage return before that.
fn without_return(piece: &str) -> &str
    ensures value { result.now ≡ without_cr piece.now }
{
    match piece.strip_suffix('\r') {
        Some(text) => text,
        None => piece,
    }
}
