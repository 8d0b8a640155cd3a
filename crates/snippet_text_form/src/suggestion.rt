//! Suggestions.
ghost use Rattle.std.specs.Prelude.{◌≡◌, ◌++◌, Some, chars, IfOk, IsTrue, OnOk};
ghost use Rattle.std.specs.Cow.{cow_str_bytes};
ghost use Rattle.std.specs.Option.{option_copied, option_map};
ghost use Rattle.std.specs.Str.{IsCharBoundary};
ghost use Rattle.snippet_lines.specs.Span.{is_character_border};
ghost use Rattle.snippet_lines.specs.IsSpan.{IsSpan};
ghost use Rattle.snippet_splice.specs.TrimmedEdits.{trimmed_edit_of};
ghost use Rattle.snippet_splice.specs.ShownText.{without_final_line_feeds};
ghost use Rattle.snippet_suggest.specs.PreparedSuggestion.{IsPrepared};
ghost use Rattle.snippet_text_form.specs.Form.{bare};
ghost use Rattle.snippet_text_form.specs.Suggestion.{added_form, added_text, edit_form, edit_indent, edit_place};
ghost use Rattle.snippet_text_form.specs.Suggestion.{named_path, option_form, replaced_to, suggestion_form};
ghost use Rattle.snippet_text_form.specs.Suggestion as spec;
ghost use Rattle.snippet_text.specs.TextBounds.{IsOffset};

use crate::cause::column_unless;
use crate::form::TextForm;
use crate::position::{LineStart, SpanEnds, add_place, add_to_line};
use snippet_lines::{Loc, newline_count};
use snippet_model::snippet::{Patch, Snippet};
use snippet_parts::SourceMap;
use snippet_shown::shown_on_one_line;
use snippet_splice::TrimmedPatch;
use snippet_style::ElementStyle;
use snippet_suggest::{PreparedSuggestion, is_blank, overwrites};
use snippet_text::{CowStr, normalized};
use std::alloc::{AllocError, Global};

/// How suggestions are told.
#[derive(Clone, Copy, Debug, PartialEq, Eq)]
pub struct SuggestionSettings {
    /// Whether each line of a source is named `LL`.
    pub anonymized: bool,
    /// Whether the line feeds of what a patch puts in are shown, as `␊`, so that it is told on one line.
    pub show_line_feeds: bool,
}

/// The source that patches are for, and how they are told.
#[derive(Clone, Copy)]
struct PatchedSource<'m, 'a> {
    map: &'m SourceMap<'a>,
    settings: SuggestionSettings,
}

/// Where a suggestion stands among others.
#[derive(Clone, Copy, Debug, PartialEq, Eq)]
pub struct SuggestionContext {
    /// Its number, from 1, where it is one of several in a row for one file.
    pub option: Option<usize>,
    /// Whether its path is named.
    pub names_path: bool,
}

/// Adds a suggestion: its number, where it has one, and a line for each of its patches.
///
/// ```text
///  option 1
///   on line 1, column 5 add: x
/// ```
///
/// # Errors
///
/// There is no memory for the text.
pub fn add_suggestion<'a>(
    alloc: Global,
    form: &mut TextForm<'a>,
    settings: SuggestionSettings,
    place: SuggestionContext,
    suggestion: &PreparedSuggestion<'a>,
) -> Result<(), AllocError>
    requires prepared { IsPrepared suggestion.now }
    ensures added { OnOk result (form.new ≡ form.old ++ suggestion_form settings place suggestion.now.snippet.now) }
{
    let path = shown_path(place.names_path, suggestion.snippet);
    add_option(form, place.option)?;
    let indent = indent_below(place.option);
    let start = LineStart { indent, path };
    let source = PatchedSource {
        map: &suggestion.map,
        settings,
    };
    for patch in &suggestion.splice.patches {
        add_patch(alloc, form, &source, start, patch)?;
    }
    Ok(())
}

/// A snippet's path, if it has one and that is named.
fn shown_path<'a>(names_path: bool, snippet: &'a Snippet<'a, Patch<'a>>) -> Option<&'a str>
    ensures value { option_copied result ≡ named_path names_path (option_map cow_str_bytes snippet.now.path) }
{
    match &snippet.path {
        Some(path) if names_path => Some(path.as_str()),
        _ => None,
    }
}

/// Adds a suggestion's number, where it has one.
fn add_option(form: &mut TextForm<'_>, option: Option<usize>) -> Result<(), AllocError>
    ensures added { OnOk result (form.new ≡ form.old ++ option_form option) }
{
    let Some(number) = option else {
        return Ok(());
    };
    form.add_break()?;
    form.add_text(" option ")?;
    form.add_number(number)
}

/// What stands before the places of a suggestion's patches.
fn indent_below<'a>(option: Option<usize>) -> &'a str
    ensures value { chars result.now ≡ edit_indent option }
{
    match option {
        Some(_) => "  ",
        None => " ",
    }
}

/// Adds a patch, on a line of its own.
fn add_patch<'a>(
    alloc: Global,
    form: &mut TextForm<'a>,
    source: &PatchedSource<'_, 'a>,
    start: LineStart<'a>,
    patch: &TrimmedPatch<'a>,
) -> Result<(), AllocError>
    requires span { IsSpan source.now.map.now.text patch.now.span.start patch.now.span.end }
    ensures added { OnOk result (form.new ≡ form.old ++ edit_form source.now.settings source.now.map.now
        (chars start.entry.indent.now) (option_copied start.entry.path) (trimmed_edit_of patch.now)) }
{
    form.add_break()?;
    form.add_text(start.indent)?;
    let (from, to) = source
        .map
        .span_to_locations(patch.span.start..patch.span.end);
    let ends = SpanEnds {
        start: from,
        end: to,
    };
    add_patch_place(alloc, form, source, start.path, patch, ends)?;
    let text = source.map.source();
    let show_line_feeds = source.settings.show_line_feeds;
    add_replacement(alloc, form, show_line_feeds, text, patch)
}

/// Adds where a patch stands.
fn add_patch_place<'a>(
    alloc: Global,
    form: &mut TextForm<'a>,
    source: &PatchedSource<'_, 'a>,
    path: Option<&'a str>,
    patch: &TrimmedPatch<'a>,
    ends: SpanEnds,
) -> Result<(), AllocError>
    requires span { IsSpan source.now.map.now.text patch.now.span.start patch.now.span.end }
    ensures added { OnOk result (form.new ≡ form.old ++ bare (edit_place source.now.settings.anonymized
        source.now.map.now (option_copied path.entry) (trimmed_edit_of patch.now) ends.start ends.end)) }
{
    let map = source.map;
    let anonymized = source.settings.anonymized;
    let start = ends.start;
    let end = ends.end;
    if overwrites(map.source(), patch) && !is_blank(patch.replacement) {
        let column = start.char + 1;
        add_place(alloc, form, anonymized, path, start.line, Some(column))?;
        add_end(form, anonymized, start, end)
    } else {
        let whole = is_whole_line(map, patch, start, end);
        let column = column_unless(whole, start);
        add_place(alloc, form, anonymized, path, start.line, column)
    }
}

/// Adds where a replaced span ends after the place at which it starts: ` to column 4`.
fn add_end(
    form: &mut TextForm<'_>,
    anonymized: bool,
    start: Loc,
    end: Loc,
) -> Result<(), AllocError>
    requires end { IsOffset end.char }
    ensures added { OnOk result (form.new ≡ form.old ++ bare (replaced_to anonymized start end)) }
{
    if start.line == end.line {
        form.add_text(" to column ")?;
        return form.add_number(end.char + 1);
    }
    add_to_line(form, anonymized, end.line, Some(end.char + 1))
}

/// Whether a patch is that of a whole line: its span is on one line, on which nothing else stands. The bytes at which
/// the line is cut are those of the source.
fn is_whole_line(map: &SourceMap<'_>, patch: &TrimmedPatch<'_>, start: Loc, end: Loc) -> bool
    ensures value { result ≡ spec.replaces_whole_line map.now start end (trimmed_edit_of patch.now) }
{
    if start.line != end.line {
        return false;
    }
    let Some(line) = map.get_line(start.line) else {
        return false;
    };
    is_alone(
        line,
        start.byte,
        end.byte,
        newline_count(patch.replacement) > 0,
    )
}

/// Whether a line can be cut at two bytes with nothing but whitespace before the first, and after the second too,
/// unless that doesn't matter.
fn is_alone(line: &str, from: usize, to: usize, anything: bool) -> bool
    ensures value { result ≡ spec.is_alone (Some line.now) from to anything }
{
    can_cut(line, from)
        && can_cut(line, to)
        && is_blank(&line[..from])
        && (anything || is_blank(&line[to..]))
}

/// Whether a line can be cut at a byte: no character lies across it.
fn can_cut(line: &str, byte: usize) -> bool
    ensures value { result ≡ is_character_border line.now byte }
    ensures border { IsTrue result → IsCharBoundary line.now byte }
{
    line.is_char_boundary(byte)
}

/// Adds what a patch puts in its place: ` add: ` or ` replace with: ` and its text; nothing where that is blank.
fn add_replacement<'a>(
    alloc: Global,
    form: &mut TextForm<'a>,
    show_line_feeds: bool,
    source: &str,
    patch: &TrimmedPatch<'a>,
) -> Result<(), AllocError>
    requires span { IsSpan source.now patch.now.span.start patch.now.span.end }
    ensures added { OnOk result (form.new ≡ form.old
        ++ added_form show_line_feeds source.now (trimmed_edit_of patch.now)) }
{
    if is_blank(patch.replacement) {
        return Ok(());
    }
    form.add_text(if overwrites(source, patch) {
        " replace with: "
    } else {
        " add: "
    })?;
    let text = added_text(alloc, show_line_feeds, patch)?;
    form.add_styled(ElementStyle::Addition, None, text)
}

/// The text that a patch puts in as it is told: without the line feeds that end it, normalised, and on one line where
/// line feeds are shown.
fn added_text<'a>(
    alloc: Global,
    show_line_feeds: bool,
    patch: &TrimmedPatch<'a>,
) -> Result<CowStr<'a>, AllocError>
    ensures value { IfOk result (λ text. chars (cow_str_bytes text)
        ≡ added_text show_line_feeds (trimmed_edit_of patch.now)) }
{
    let text = normalized(alloc, without_final_line_feeds(patch.replacement))?;
    if show_line_feeds {
        shown_on_one_line(alloc, text)
    } else {
        Ok(text)
    }
}

/// A text without the line feeds that end it.
fn without_final_line_feeds(text: &str) -> &str
    ensures value { result.now ≡ without_final_line_feeds text.now }
{
    let mut rest = text;
    while let Some(front) = rest.strip_suffix('\n') {
        rest = front;
    }
    rest
}
