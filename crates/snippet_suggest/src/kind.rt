//! How a suggestion is shown.
ghost use Rattle.std.specs.Prelude.{◌≡◌, ◌==◌, ◌&&◌, nat_le, true, false, All, IfSome, IfNone, is_none, length, map};
ghost use Rattle.std.specs.List.{list_all, list_any};
ghost use Rattle.std.specs.Option.{option_copied, option_map_or};
ghost use Rattle.std.specs.Str.{bytes_eq, trim};
ghost use Rattle.std.specs.String.{string_bytes};
ghost use Rattle.snippet_lines.specs.Lines.{last_byte, lines_of};
ghost use Rattle.snippet_lines.specs.IsSpan.{IsSpan};
ghost use Rattle.snippet_splice.specs.TrimmedEdits.{trimmed_edit_of};
ghost use Rattle.snippet_splice.specs.Trim.{sandwich};
ghost use Rattle.snippet_suggest.specs.Kind.{adds_text, is_under_text, kind_of, text_under};
ghost use Rattle.snippet_suggest.specs.Kind as spec;

use snippet_lines::{ends_with_line_feed, newline_count};
use snippet_splice::{SplicedLines, TrimmedPatch, as_substr};

/// How a suggestion is shown.
#[derive(Clone, Copy, Debug, PartialEq, Eq)]
pub enum DisplaySuggestion {
    /// As the one line that it gives, with marks below what is put in.
    Underline,
    /// As the lines that are removed, and the one line that stands in their place.
    Diff,
    /// As the lines that it gives.
    Plain,
    /// As lines that are new.
    Add,
}

impl DisplaySuggestion {
    /// How the patches of a source are shown, with the text that they give.
    pub fn new(source: &str, splice: &SplicedLines<'_>) -> DisplaySuggestion
        requires spans { All (λ p. IsSpan source.now p.span.start p.span.end) splice.now.patches.items }
        ensures value { result ≡ kind_of source.now (map trimmed_edit_of splice.now.patches.items)
            (string_bytes splice.now.complete) }
    {
        let text = splice.complete.as_str();
        let single = has_one_line(text);
        if single && takes_away(source, &splice.patches) {
            return DisplaySuggestion::Diff;
        }
        match only_replacement(&splice.patches, text) {
            Some(replacement) if ends_with_line_feed(replacement.as_bytes()) =>
                DisplaySuggestion::Add,
            Some(_) => DisplaySuggestion::Plain,
            None if single => DisplaySuggestion::Underline,
            None => DisplaySuggestion::Plain,
        }
    }
}

/// Whether a text has at most one line.
fn has_one_line(text: &str) -> bool
    ensures value { result ≡ nat_le (length (lines_of text.now)) 1 }
{
    newline_count(text) == 0
}

/// The replacement of the one patch, if there is just one and it gives the whole text, whitespace around them apart.
fn only_replacement<'a>(patches: &[TrimmedPatch<'a>], text: &str) -> Option<&'a str>
    ensures some { let ts = map trimmed_edit_of patches.now in IfSome result (λ t.
        ((length ts == 1 && list_all (λ e. bytes_eq (trim e.text) (trim text.now)) ts) ≡ true)
        × ((last_byte t.now == 10) ≡ list_any (λ e. last_byte e.text == 10) ts)) }
    ensures none { let ts = map trimmed_edit_of patches.now in
        IfNone result ((length ts == 1 && list_all (λ e. bytes_eq (trim e.text) (trim text.now)) ts) ≡ false) }
{
    match patches {
        [patch] if patch.replacement.trim() == text.trim() => Some(patch.replacement),
        _ => None,
    }
}

/// Whether one of some patches takes something away: it deletes or destroys text that isn't blank.
fn takes_away(source: &str, patches: &[TrimmedPatch<'_>]) -> bool
    requires spans { All (λ p. IsSpan source.now p.span.start p.span.end) patches.now }
    ensures value { result ≡ list_any (spec.takes_away source.now) (map trimmed_edit_of patches.now) }
{
    for patch in patches {
        if deletes_or_destroys(source, patch) {
            return true;
        }
    }
    false
}

/// Whether a patch deletes or destroys text that isn't blank.
fn deletes_or_destroys(source: &str, patch: &TrimmedPatch<'_>) -> bool
    requires span { IsSpan source.now patch.now.span.start patch.now.span.end }
    ensures value { result ≡ spec.takes_away source.now (trimmed_edit_of patch.now) }
{
    overwrites(source, patch) && (is_blank(patch.replacement) || destroys(source, patch))
}

/// Whether a patch that overwrites text keeps less than all of it.
fn destroys(source: &str, patch: &TrimmedPatch<'_>) -> bool
    requires span { IsSpan source.now patch.now.span.start patch.now.span.end }
    ensures value { let e = trimmed_edit_of patch.now in
        result ≡ option_map_or (λ text. is_none (sandwich (trim text) (trim e.text))) (text_under source.now e) true }
{
    match text_under(source, patch) {
        Some(text) => as_substr(text.trim(), patch.replacement.trim()).is_none(),
        None => true,
    }
}

/// Whether a patch stands over text that isn't blank. A span that isn't inside the source counts as such text, unless
/// it is empty.
pub fn overwrites(source: &str, patch: &TrimmedPatch<'_>) -> bool
    ensures value { let e = trimmed_edit_of patch.now in IsSpan source.now patch.now.span.start patch.now.span.end
        → result ≡ is_under_text e (text_under source.now e) }
{
    match text_under(source, patch) {
        Some(text) => !is_blank(text),
        None => patch.span.start != patch.span.end,
    }
}

/// The text of the source that a patch stands over; `None` where its span isn't inside the source.
fn text_under<'a>(source: &'a str, patch: &TrimmedPatch<'_>) -> Option<&'a str>
    ensures value { IsSpan source.now patch.now.span.start patch.now.span.end
        → option_copied result ≡ text_under source.now (trimmed_edit_of patch.now) }
{
    source.get(patch.span.start..patch.span.end)
}

/// Whether a patch adds text, and stands over nothing but whitespace.
pub(crate) fn is_addition(source: &str, patch: &TrimmedPatch<'_>) -> bool
    ensures value { IsSpan source.now patch.now.span.start patch.now.span.end
        → result ≡ adds_text source.now (trimmed_edit_of patch.now) }
{
    !patch.replacement.is_empty() && !overwrites(source, patch)
}

/// Whether a text is nothing but whitespace.
pub fn is_blank(text: &str) -> bool
    ensures value { result ≡ spec.is_blank_text text.now }
{
    text.chars().all(|c| c.is_whitespace())
}
