//! The judgement of a report: which fault is first. It takes no memory.
ghost use Rattle.std.specs.Prelude.{◌≡◌, ◌+◌, ◌≤◌, IfSome, length};
ghost use Rattle.std.specs.Cow.{cow_str_bytes};
ghost use Rattle.std.specs.Option.{SomeIff};
ghost use Rattle.snippet_model.specs.declared.snippet.Element.TheVariants.{Cause, Suggestion};
ghost use Rattle.annotate_snippets.specs.Fault.{refusal_of, span_faults, number_after_lines, added_lines};
ghost use Rattle.annotate_snippets.specs.Fault.{element_faults, faults_from, first_of, number_faults};
ghost use Rattle.annotate_snippets.specs.Walk.{end_faults};
ghost use Rattle.annotate_snippets.specs.Fault as spec;
ghost use Rattle.snippet_lines.specs.Lines.{source_lines};
ghost use Rattle.snippet_style.specs.Bounds.{IsUsize};

use crate::renderer::error::RenderError;
use crate::renderer::form::Form;
use snippet_lines::{SpanFault, check_span, line_feed_count, newline_count};
use snippet_model::SourceText;
use snippet_model::snippet::{Annotation, Element, Group, Marker, Patch, Snippet};
use snippet_splice::check_patches;

/// The refusal of a report in a form, if it is refused: for a missing title where the form needs one, then for its
/// first fault, which is the same in each form.
pub fn first_refusal(form: Form, groups: &[Group]) -> Option<RenderError>
    ensures value { result ≡ spec.refusal_in form groups.now }
{
    match missing_title(form, groups) {
        Some(refusal) => Some(refusal),
        None => first_fault(groups),
    }
}

/// The refusal of a report that has no title for its short form: it is empty, or its first group has none.
fn missing_title(form: Form, groups: &[Group]) -> Option<RenderError>
    ensures value { result ≡ spec.missing_title form groups.now }
{
    if form != Form::Short {
        return None;
    }
    match groups.first() {
        None => Some(RenderError::NoGroup),
        Some(group) if group.title.is_none() => Some(RenderError::NoTitle),
        Some(_) => None,
    }
}

/// The fault that a report is refused for, if it has one: the first in the order of groups, elements and markers.
#[tactic(auto, unfolding(crate::specs::Fault::first_fault))]
fn first_fault(groups: &[Group]) -> Option<RenderError>
    ensures value { result ≡ spec.first_fault groups.now }
{
    for (number, group) in groups.iter().enumerate() {
        if let Some(fault) = first_of_elements(number, group.elements.as_slice()) {
            return Some(fault);
        }
    }
    None
}

/// The first fault of a group's elements.
#[inline(always)]
fn first_of_elements(group: usize, elements: &[Element]) -> Option<RenderError>
    ensures value { result ≡ first_of (faults_from (element_faults group) 0 elements.now) }
{
    for (number, element) in elements.iter().enumerate() {
        if let Some(fault) = first_of_element(group, number, element) {
            return Some(fault);
        }
    }
    None
}

/// The first fault of an element: of its spans, then of patches that overlap, then of its line numbers.
#[inline(always)]
fn first_of_element(group: usize, number: usize, element: &Element) -> Option<RenderError>
    ensures value { result ≡ first_of (element_faults group number element.now) }
{
    match element {
        Element::Cause(snippet) => first_of_cause(group, number, snippet),
        Element::Suggestion(snippet) => first_of_suggestion(group, number, snippet),
        Element::Message(_) | Element::Origin(_) | Element::Padding(_) => None,
    }
}

/// The first fault of an annotated snippet.
#[inline(always)]
fn first_of_cause(
    group: usize,
    element: usize,
    snippet: &Snippet<Annotation>,
) -> Option<RenderError>
    ensures value { result ≡ first_of (element_faults group element (Cause snippet.now)) }
{
    let source = snippet.source.as_str();
    if let Some(fault) = first_of_spans(group, element, source, &snippet.markers) {
        return Some(fault);
    }
    end_fault(group, element, snippet.line_start, &snippet.source)
}

/// The first fault of a suggested edit.
fn first_of_suggestion(
    group: usize,
    element: usize,
    snippet: &Snippet<Patch>,
) -> Option<RenderError>
    ensures value { result ≡ first_of (element_faults group element (Suggestion snippet.now)) }
{
    let source = snippet.source.as_str();
    let patches: &[Patch] = &snippet.markers;
    if let Some(fault) = first_of_spans(group, element, source, patches) {
        return Some(fault);
    }
    if let Some((first, second)) = check_patches(source, patches) {
        return Some(RenderError::PatchesOverlap {
            group,
            element,
            first,
            second,
        });
    }
    patched_end_fault(group, element, snippet.line_start, &snippet.source, patches)
}

/// The fault that the number after that of a source's last line doesn't fit.
#[inline(always)]
fn end_fault(
    group: usize,
    element: usize,
    line_start: usize,
    source: &SourceText<'_>,
) -> Option<RenderError>
    ensures value { result ≡ first_of
        (number_faults group element (number_after_lines line_start (cow_str_bytes source.now.text))) }
{
    // A source has at most one line more than bytes. Where that many fit, they needn't be counted.
    if source.len() < usize::MAX - line_start {
        return None;
    }
    missing_number(group, element, end_number(line_start, source))
}

/// The fault that the number after the last line's doesn't fit, of a source with patches, which may add lines.
fn patched_end_fault(
    group: usize,
    element: usize,
    line_start: usize,
    source: &SourceText<'_>,
    patches: &[Patch],
) -> Option<RenderError>
    ensures value { result ≡ first_of (number_faults group element
        (number_after_lines line_start (cow_str_bytes source.now.text) + added_lines patches.now)) }
{
    match greatest_end(line_start, source.as_str(), patches) {
        // Where that many would fit, the lines needn't be counted.
        Some(_) => None,
        None => {
            missing_number(
                group,
                element,
                patched_end_number(line_start, source, patches),
            )
        }
    }
}

/// A number that the one after that of a patched source's last line doesn't exceed, where it fits: that if each byte
/// were a line end.
fn greatest_end(line_start: usize, source: &str, patches: &[Patch]) -> Option<usize>
    ensures most { IfSome result (λ most. (number_after_lines line_start source.now + added_lines patches.now ≤ most)
        × IsUsize most) }
{
    let mut most = line_start.checked_add(source.len())?.checked_add(1)?;
    for patch in patches {
        most = most.checked_add(patch.replacement.as_str().len())?;
    }
    Some(most)
}

/// The fault that the number after that of a snippet's last line is missing, since it doesn't fit.
fn missing_number(group: usize, element: usize, end: Option<usize>) -> Option<RenderError>
    ensures value { result ≡ first_of (end_faults group element end) }
{
    match end {
        Some(_) => None,
        None => Some(RenderError::LineNumberTooLarge { group, element }),
    }
}

/// The first fault of the spans of some markers.
#[inline(always)]
fn first_of_spans<T: Marker>(
    group: usize,
    element: usize,
    source: &str,
    markers: &[T],
) -> Option<RenderError>
    ensures value { result ≡ first_of
        (faults_from (λ n m. span_faults group element source.now n (T.span_of m)) 0 markers.now) }
{
    for (number, marker) in markers.iter().enumerate() {
        if let Some(fault) = check_span(source, marker.span()) {
            return Some(refusal(group, element, number, fault));
        }
    }
    None
}

/// The refusal that names a fault of a span.
fn refusal(group: usize, element: usize, marker: usize, fault: SpanFault) -> RenderError
    ensures value { result ≡ refusal_of group element marker fault }
{
    match fault {
        SpanFault::Reversed => RenderError::SpanReversed {
            group,
            element,
            marker,
        },
        SpanFault::PastEnd => RenderError::SpanPastEnd {
            group,
            element,
            marker,
        },
        SpanFault::OffBoundary => RenderError::SpanOffBoundary {
            group,
            element,
            marker,
        },
    }
}

/// The number after that of a source's last line, where it fits.
fn end_number(line_start: usize, source: &SourceText<'_>) -> Option<usize>
    ensures value { SomeIff result (IsUsize (number_after_lines line_start (cow_str_bytes source.now.text)))
        (number_after_lines line_start (cow_str_bytes source.now.text)) }
{
    line_start.checked_add(line_count(source))
}

/// How many lines a source has. They are counted where they aren't lent.
fn line_count(source: &SourceText<'_>) -> usize
    ensures value { result ≡ length (source_lines (cow_str_bytes source.now.text)) }
{
    match source.line_starts() {
        Some(starts) => starts.len(),
        None => newline_count(source.as_str()) + 1,
    }
}

/// The number after the last line of a source, with the lines that some patches may add.
fn patched_end_number(
    line_start: usize,
    source: &SourceText<'_>,
    patches: &[Patch],
) -> Option<usize>
    ensures value { SomeIff result
        (IsUsize (number_after_lines line_start (cow_str_bytes source.now.text) + added_lines patches.now))
        (number_after_lines line_start (cow_str_bytes source.now.text) + added_lines patches.now) }
{
    let mut end = end_number(line_start, source)?;
    for patch in patches {
        end = end.checked_add(line_feed_count(patch.replacement.as_str()))?;
    }
    Some(end)
}
