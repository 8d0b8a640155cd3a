//! How a result comes about: the steps of its first code flow.
ghost use Rattle.std.specs.Prelude.{◌≡◌, ◌<◌, IfSome, OnOk, Some, length, option_map, slice_index_or};
ghost use Rattle.std.specs.Prelude.{string_bytes, true};
ghost use Rattle.json_lines.specs.Field.{lent_text};
ghost use Rattle.redraw_report.specs.declared.diagnostic.FileSpan as file_span;
ghost use Rattle.redraw_tools.specs.Fixes.{AddsNotes, remarks};
ghost use Rattle.redraw_tools.specs.Places.{GoesOn, SaysNoMore, StillSays};

use crate::location::{Context, message_at, place_at};
use crate::parts::remark_of;
use crate::steps::{left_out, shown_steps, step_label};
use json_lines::lenient::{LenientNode, List, Problems};
use redraw_report::diagnostic::{Child, FileSpan, Severity};
use std::alloc::AllocError;

/// What the steps of a flow are added to.
#[derive(Drop)]
pub struct Told {
    /// The places of a result.
    pub spans: Vec<FileSpan>,
    /// What else is said of it.
    pub children: Vec<Child>,
}

/// Adds the steps of a result's first flow: each that has a place as a place of context, with its number and message.
/// Of many only the first and the last are shown, and a note says how many are left out.
pub fn add_steps(
    told: &mut Told,
    reported: &LenientNode<'_, '_>,
    context: &Context<'_, '_>,
    problems: &mut Problems,
) -> Result<(), AllocError>
    ensures kept { OnOk result (GoesOn told.old.spans.items told.new.spans.items) }
    ensures notes { OnOk result (AddsNotes (remarks told.old.children) (remarks told.new.children)) }
{
    let flows = reported.list("codeFlows", problems);
    let Some(flow) = first_of(&flows, problems) else {
        return Ok(());
    };
    let threads = flow.needed_list("threadFlows", problems);
    match first_of(&threads, problems) {
        Some(thread) => add_thread(told, &thread, context, problems),
        None => Ok(()),
    }
}

/// The first item of a list, if there is one that is an object.
fn first_of<'v, 'n>(
    list: &'n List<'v, '_>,
    problems: &mut Problems,
) -> Option<LenientNode<'v, 'n>> {
    let first = list.node(0, list.items.first()?);
    if first.is_object(problems) {
        Some(first)
    } else {
        None
    }
}

/// Adds the steps of a thread.
fn add_thread(
    told: &mut Told,
    thread: &LenientNode<'_, '_>,
    context: &Context<'_, '_>,
    problems: &mut Problems,
) -> Result<(), AllocError>
    ensures kept { OnOk result (GoesOn told.old.spans.items told.new.spans.items) }
    ensures notes { OnOk result (AddsNotes (remarks told.old.children) (remarks told.new.children)) }
{
    let steps = thread.needed_list("locations", problems);
    let count = steps.items.len();
    let shown = shown_steps(context.alloc, count)?;
    for index in &shown {
        add_step_at(told, &steps, *index, context, problems)?;
    }
    let hidden = count.saturating_sub(shown.len());
    if hidden > 0 {
        let text = left_out(context.alloc, hidden, count)?;
        add_note(told, text, context)?;
    }
    Ok(())
}

/// Adds the step with this index.
fn add_step_at(
    told: &mut Told,
    steps: &List<'_, '_>,
    index: usize,
    context: &Context<'_, '_>,
    problems: &mut Problems,
) -> Result<(), AllocError>
    ensures kept { OnOk result (GoesOn told.old.spans.items told.new.spans.items) }
    ensures notes { OnOk result (AddsNotes (remarks told.old.children) (remarks told.new.children)) }
{
    match steps.items.get(index) {
        Some(value) => {
            let number = index.saturating_add(1);
            add_step(told, &steps.node(index, value), number, context, problems)
        }
        None => Ok(()),
    }
}

/// Adds a step: a place, or where it has none a note with its message.
fn add_step(
    told: &mut Told,
    step: &LenientNode<'_, '_>,
    number: usize,
    context: &Context<'_, '_>,
    problems: &mut Problems,
) -> Result<(), AllocError>
    ensures kept { OnOk result (GoesOn told.old.spans.items told.new.spans.items) }
    ensures notes { OnOk result (AddsNotes (remarks told.old.children) (remarks told.new.children)) }
{
    if !step.is_object(problems) {
        return Ok(());
    }
    let Some(location) = step.object("location", problems) else {
        return Ok(());
    };
    let message = message_at(&location, context, problems)?;
    let label = step_label(context.alloc, number, text_of(&message))?;
    match place_at(&location, context, problems)? {
        Some(place) => mark_step(&mut told.spans, place, message, label),
        None if message.is_some() => add_note(told, label, context),
        None => Ok(()),
    }
}

/// Marks the place of a step, whose label is its message after its number. A place that is marked already, and says
/// nothing or the same, is marked once.
fn mark_step(
    spans: &mut Vec<FileSpan>,
    place: FileSpan,
    message: Option<String>,
    label: String,
) -> Result<(), AllocError>
    requires label { StillSays (option_map string_bytes message) (Some (string_bytes label)) }
    ensures kept { OnOk result (GoesOn spans.old.items spans.new.items) }
{
    match marked_at(spans, &place, &message) {
        Some(at) => {
            spans[at].label = Some(label);
            Ok(())
        }
        None => {
            let mut place = place;
            place.label = Some(label);
            spans.push(place)?;
            Ok(())
        }
    }
}

/// The index of the place where this one is marked already, and says nothing or the same.
fn marked_at(spans: &[FileSpan], place: &FileSpan, message: &Option<String>) -> Option<usize>
    ensures within { IfSome result (λ at. at < length spans.now) }
    ensures same { IfSome result (λ at. (d : file_span.FileSpan) → SaysNoMore (slice_index_or spans.now at d)
        (option_map string_bytes message.now)) }
{
    for (at, span) in spans.iter().enumerate() {
        if is_same_place(span, place) && says_no_more(span, message) {
            return Some(at);
        }
    }
    None
}

/// Whether two places are one.
fn is_same_place(one: &FileSpan, other: &FileSpan) -> bool {
    one.region == other.region && one.file.as_str() == other.file.as_str()
}

/// Whether a place has no label, or this one.
fn says_no_more(span: &FileSpan, message: &Option<String>) -> bool
    ensures yes { result ≡ true → SaysNoMore span.now (option_map string_bytes message.now) }
{
    span.label.is_none() || text_of(&span.label) == text_of(message)
}

/// A text, if there is one.
fn text_of(text: &Option<String>) -> Option<&str>
    ensures value { lent_text result ≡ option_map string_bytes text.now }
{
    match text {
        Some(text) => Some(text.as_str()),
        None => None,
    }
}

/// Adds a note.
fn add_note(told: &mut Told, message: String, context: &Context<'_, '_>) -> Result<(), AllocError>
    ensures kept { told.new.spans ≡ told.old.spans }
    ensures notes { OnOk result (AddsNotes (remarks told.old.children) (remarks told.new.children)) }
{
    told.children
        .push(remark_of(context.alloc, Severity::Note, message))?;
    Ok(())
}
