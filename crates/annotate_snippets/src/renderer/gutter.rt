//! How wide the gutter is, and what it shows beside lines.
ghost use Rattle.std.specs.Prelude.{◌≡◌, ◌≤◌, All, fold, map, max};
ghost use Rattle.annotate_snippets.specs.Gutter as spec;
ghost use Rattle.annotate_snippets.specs.Gutter.{gutter_of_report, width_wanted};
ghost use Rattle.annotate_snippets.specs.PreparedReport.{IsElementPrepared, IsGroupPrepared, element_of};

use crate::renderer::Renderer;
use crate::renderer::preprocess::{PreparedElement, PreparedGroup};
use snippet_lines::LineNumbers;
use snippet_parts::counted_number;

/// What the gutter shows beside the lines of a snippet, which are numbered or not.
pub fn line_numbers(renderer: &Renderer, numbered: bool) -> LineNumbers
    ensures value { result ≡ spec.line_numbers renderer.now numbered }
{
    match (numbered, renderer.anonymized_snippet_line_numbers) {
        (true, true) => LineNumbers::Anonymized,
        (true, false) => LineNumbers::Shown,
        (false, _) => LineNumbers::Hidden,
    }
}

/// The width of a report's gutter, in cells: that of the greatest line number that an element counts, or 0 where no
/// lines are numbered, or that of `LL`, where it stands in place of all numbers.
pub fn gutter_of(renderer: &Renderer, groups: &[PreparedGroup<'_>]) -> usize
    requires prepared { All IsGroupPrepared groups.now }
    ensures value { result ≡ gutter_of_report renderer.now (map (λ g. g.group.now) groups.now) }
    ensures small { result ≤ 20 }
{
    if renderer.anonymized_snippet_line_numbers {
        return LineNumbers::Anonymized.width(0);
    }
    let mut gutter = 0;
    for group in groups {
        gutter = widened(gutter, &group.elements);
    }
    gutter
}

/// The width of a gutter for some elements, one of this width at least.
fn widened(gutter: usize, elements: &[PreparedElement<'_>]) -> usize
    requires small { gutter ≤ 20 }
    requires prepared { All IsElementPrepared elements.now }
    ensures value { result ≡ fold (λ width e. max (width_wanted e) width) gutter (map element_of elements.now) }
    ensures small { result ≤ 20 }
{
    let mut widest = gutter;
    for element in elements {
        widest = wanted(element).max(widest);
    }
    widest
}

/// The width that an element wants.
fn wanted(element: &PreparedElement<'_>) -> usize
    requires prepared { IsElementPrepared element.now }
    ensures value { result ≡ width_wanted (element_of element.now) }
    ensures small { result ≤ 20 }
{
    match element {
        PreparedElement::Cause(cause) if cause.snippet.line_numbering => {
            LineNumbers::Shown.width(counted_number(&cause.map, cause.snippet))
        }
        PreparedElement::Suggestion(suggestion) if suggestion.snippet.line_numbering => {
            LineNumbers::Shown.width(suggestion.counted)
        }
        _ => 0,
    }
}
