//! The labels that suggestions are shown as, at the places of their edits.

ghost use Rattle.std.specs.Prelude.{◌≡◌, ◌++◌, List, [], ◌∷◌, IfOk, None, OnOk, length, slice_index_or};
ghost use Rattle.std.specs.BTreeMap.{UpdatesBy};
ghost use Rattle.redraw_read.specs.Labels as spec;
ghost use Rattle.redraw_read.specs.Labels.{with_each, with_label, with_labels};
ghost use Rattle.redraw_read.specs.Roles.{part_cmp};
ghost use Rattle.redraw_read.specs.Targets.{AreBarePlaces, kept_by, put_at, put_each, target, targets};
ghost use Rattle.redraw_report.specs.Report.{lent};
ghost use Rattle.redraw_report.specs.declared.diagnostic.FileSpan.{FileSpan};

use crate::roles::{FilePart, part_of};
use crate::words::{after, after_first, before, begins_with};
use redraw_report::diagnostic::{FileSpan, SuggestedEdit};
use std::alloc::{AllocError, Global};
use std::collections::{BTreeMap, VecDeque};

/// A label, and the edit that it tells of.
#[derive(Drop)]
pub struct EditLabel {
    pub edit: SuggestedEdit,
    pub label: String,
}

/// The label of a suggestion in what a row has from its message on: the message, what is to be noticed, and what is to
/// stand there. Carets that stand right of it aren't part of it.
pub fn label_text<'t>(row: &'t str, message: &str, replacement: &str) -> &'t str
    ensures value { result.now ≡ spec.label_text row.now message.now replacement.now }
{
    match after(row, message) {
        Some(rest) => {
            let rest = after_replacement(replacement.trim(), after_notice(rest));
            without_carets(rest, row)
        }
        None => row,
    }
}

/// A row without this at its end, if it begins with a blank.
fn without_carets<'t>(rest: &str, row: &'t str) -> &'t str
    ensures value { result.now ≡ spec.without_carets rest.now row.now }
{
    if !begins_with(rest, " ") {
        return row;
    }
    match before(row, rest) {
        Some(label) => label,
        None => row,
    }
}

/// What comes after a notice in brackets, if one stands first.
fn after_notice(rest: &str) -> &str
    ensures value { result.now ≡ spec.after_notice rest.now }
{
    match after(rest, " (notice ") {
        Some(notice) => match after_first(notice, ")") {
            Some(after) => after,
            None => rest,
        },
        None => rest,
    }
}

/// What comes after the replacement in backquotes, if that stands first; nothing, if another text stands in these.
fn after_replacement<'t>(replacement: &str, rest: &'t str) -> &'t str
    ensures value { result.now ≡ spec.after_replacement replacement.now rest.now }
{
    match after_quoted(replacement, rest) {
        Some(after) => after,
        None if begins_with(rest, ": `") => "",
        None => rest,
    }
}

/// What comes after this text in backquotes.
fn after_quoted<'t>(text: &str, rest: &'t str) -> Option<&'t str>
    ensures value { lent result ≡ spec.after_quoted text.now rest.now }
{
    let rest = after(rest, ": `")?;
    let rest = after(rest, text)?;
    after(rest, "`")
}

/// Places with labels at those of their edits: each at the first primary place there that has none yet, else as a place
/// of its own. They may be put before primary places that have no label.
pub fn with_labels(
    alloc: Global,
    spans: Vec<FileSpan>,
    labels: Vec<EditLabel>,
    are_first: bool,
) -> Result<Vec<FileSpan>, AllocError>
    ensures value { IfOk result (λ labelled. labelled.items ≡ with_labels are_first labels.items spans.items) }
{
    if labels.is_empty() {
        return Ok(spans);
    }
    let labelled = with_each(alloc, spans, labels)?;
    if are_first {
        bare_last(alloc, labelled)
    } else {
        Ok(labelled)
    }
}

/// Places with labels at those of their edits.
fn with_each(
    alloc: Global,
    spans: Vec<FileSpan>,
    labels: Vec<EditLabel>,
) -> Result<Vec<FileSpan>, AllocError>
    ensures value { IfOk result (λ labelled. labelled.items ≡ with_each labels.items spans.items) }
{
    let mut labelled = spans;
    let targets = targets_of(alloc, &labelled, &labels)?;
    put_each(&mut labelled, labels, &targets)?;
    Ok(labelled)
}

/// Some places, those last that are primary and have no label; else in their order.
fn bare_last(alloc: Global, spans: Vec<FileSpan>) -> Result<Vec<FileSpan>, AllocError>
    ensures value { IfOk result (λ ordered. ordered.items ≡ spec.bare_last spans.items) }
{
    let mut others = Vec::new(alloc);
    let mut bare = Vec::new(alloc);
    for span in spans {
        if is_bare(&span) {
            bare.push(span)?;
        } else {
            others.push(span)?;
        }
    }
    others.append(&mut bare)?;
    Ok(others)
}

/// Whether a place is primary and has no label.
fn is_bare(span: &FileSpan) -> bool
    ensures value { result ≡ spec.is_bare span.now }
{
    span.is_primary && span.label.is_none()
}

/// Puts each label to the place of its index, where it has one.
fn put_each(
    spans: &mut Vec<FileSpan>,
    labels: Vec<EditLabel>,
    targets: &[Option<usize>],
) -> Result<(), AllocError>
    ensures put { OnOk result (spans.new.items ≡ put_each targets.now labels.items spans.old.items) }
{
    let mut index = 0;
    for label in labels {
        put_label(spans, label, target_at(targets, index))?;
        index = index.saturating_add(1);
    }
    Ok(())
}

/// The target with this index; none past the last one.
fn target_at(targets: &[Option<usize>], index: usize) -> Option<usize>
    ensures value { result ≡ slice_index_or targets.now index None }
{
    if index < targets.len() {
        targets[index]
    } else {
        None
    }
}

/// Puts a label to the place of this index, or as a place of its own.
fn put_label(
    spans: &mut Vec<FileSpan>,
    told: EditLabel,
    target: Option<usize>,
) -> Result<(), AllocError>
    ensures put { OnOk result (spans.new.items ≡ put_at target told spans.old.items) }
{
    match target {
        Some(index) => {
            if let Some(span) = spans.get_mut(index) {
                span.label = Some(told.label);
            }
        }
        None => spans.push(own_place(told.edit, told.label))?,
    }
    Ok(())
}

/// The place of an edit with its label.
fn own_place(edit: SuggestedEdit, label: String) -> FileSpan
    ensures value { result ≡ spec.own_place record { edit = edit; label = label } }
{
    FileSpan {
        file: edit.file,
        region: edit.region,
        label: Some(label),
        is_primary: false,
        carried: edit.carried,
    }
}

/// The indices of primary places without a label, by the parts of files that these are; of each part in order.
type BarePlaces<'a> = BTreeMap<FilePart<'a>, VecDeque<usize>>;

/// Of each label the index of the place that it goes to. Of several at one place each goes to another.
fn targets_of(
    alloc: Global,
    spans: &[FileSpan],
    labels: &[EditLabel],
) -> Result<Vec<Option<usize>>, AllocError>
    ensures value { IfOk result (λ found. found.items ≡ targets labels.now spans.now) }
{
    let mut bare = bare_places(alloc, spans)?;
    let mut targets = Vec::new(alloc);
    for label in labels {
        targets.push(take_first(alloc, &mut bare, label)?)?;
    }
    Ok(targets)
}

/// The primary places without a label.
fn bare_places<'a>(alloc: Global, spans: &'a [FileSpan]) -> Result<BarePlaces<'a>, AllocError>
    ensures are { IfOk result (λ bare. AreBarePlaces bare spans.now) }
{
    let mut bare = BTreeMap::new(alloc);
    for (index, span) in spans.iter().enumerate() {
        add_bare(alloc, &mut bare, span, index)?;
    }
    Ok(bare)
}

/// Adds a place with this index, if it is primary and has no label.
fn add_bare<'a>(
    alloc: Global,
    bare: &mut BarePlaces<'a>,
    span: &'a FileSpan,
    index: usize,
) -> Result<(), AllocError>
    ensures added { (spans : List FileSpan) → AreBarePlaces bare.old spans → index ≡ length spans
        → OnOk result (AreBarePlaces bare.new (spans ++ span.now ∷ [])) }
{
    if is_bare(span) {
        let part = part_of(span);
        let mut indices = indices_out(alloc, bare, part);
        indices.push_back(index)?;
        bare.insert(part, indices)?;
    }
    Ok(())
}

/// Takes out the indices that are kept by a part of a file.
fn indices_out<'a>(alloc: Global, bare: &mut BarePlaces<'a>, part: FilePart<'a>) -> VecDeque<usize>
    ensures value { result.items ≡ kept_by bare.old part.entry }
    ensures out { UpdatesBy part_cmp (part_cmp part.entry) bare.old bare.new None }
{
    match bare.remove(&part) {
        Some(indices) => indices,
        None => VecDeque::new(alloc),
    }
}

/// Takes the first of some places that a label goes to.
fn take_first<'a>(
    alloc: Global,
    bare: &mut BarePlaces<'a>,
    label: &'a EditLabel,
) -> Result<Option<usize>, AllocError>
    ensures taken { (spans : List FileSpan) → AreBarePlaces bare.old spans
        → IfOk result (λ first. (first ≡ target label.now spans)
        × AreBarePlaces bare.new (with_label label.now spans)) }
{
    let part = (label.edit.region, label.edit.file.as_str());
    let mut indices = indices_out(alloc, bare, part);
    let first = indices.pop_front();
    bare.insert(part, indices)?;
    Ok(first)
}
