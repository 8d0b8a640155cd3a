//! What rustc writes with `--error-format=json`, a diagnostic a line.

ghost use Rattle.std.specs.Prelude.{◌≡◌, ◌≤◌, ◌++◌, List, IfOk, OnOk, length, map, option_map};
ghost use Rattle.std.specs.List.{AllZip};
ghost use Rattle.json_lines.specs.Field.{lent_text};
ghost use Rattle.redraw_read.specs.Places.{ArePlacesOf};
ghost use Rattle.redraw_read.specs.Rustc.{AreChildrenOf, ArePlacesBeside, IsChildOf, IsNote, IsOwnText};
ghost use Rattle.redraw_read.specs.Rustc.{IsReadAs, IsShownBy, IsToldBy, MayHaveNote};
ghost use Rattle.redraw_read.specs.Told.{IsHeaded, code_seen, code_told};
ghost use Rattle.redraw_report.specs.declared.diagnostic.Child.{Child};
ghost use Rattle.redraw_report.specs.declared.diagnostic.Diagnostic.{Diagnostic};
ghost use Rattle.serde_json.specs.View.{view};

use crate::edits::{alternatives_of, edits_of};
use crate::expansion::{Macros, is_edit};
use crate::headings::{code_of, heading_of};
use crate::json::{given_text, listed, owned};
use crate::reading::{MacroNote, Open, Reader, Reading};
use crate::rendered::{as_rendered, if_whole};
use crate::spans::spans_of;
use crate::unseen::with_files_apart;
use json_lines::expectation::Expectation;
use json_lines::fault::Fault;
use json_lines::node::Node;
use redraw_report::diagnostic::{Child, Code, Diagnostic, FileSpan, Severity, SuggestedEdit};
use serde_json::Value;
use std::alloc::{AllocError, Global};

/// The diagnostic that a value describes, by this reading, with its suggestions as its own text shows them, where it
/// has that.
pub fn diagnostic_by(node: &Node<'_, '_>, reading: Reading) -> Result<Diagnostic, Fault>
    ensures read { IfOk result (IsReadAs (view node.now.value.now)) }
{
    let text = whole_text(node)?;
    let reader = Reader::new(node.alloc, reading, text)?;
    let diagnostic = shown_diagnostic(node, &reader, text)?;
    Ok(with_files_apart(node.alloc, text, diagnostic)?)
}

/// The diagnostic that a value describes, with its suggestions as this text shows them.
fn shown_diagnostic(
    node: &Node<'_, '_>,
    reader: &Reader,
    text: Option<&str>,
) -> Result<Diagnostic, Fault>
    ensures headed { IfOk result (IsHeaded (view node.now.value.now)) }
    ensures shown { IfOk result (λ shown. (told : Diagnostic)
        × IsToldBy reader.now (view node.now.value.now) told
        × IsShownBy reader.now.puts_labels_first (lent_text text.entry) told shown) }
{
    let diagnostic = told_diagnostic(node, reader)?;
    match text {
        Some(text) => Ok(as_rendered(node.alloc, text, diagnostic, reader.puts_labels_first)?),
        None => Ok(diagnostic),
    }
}

/// rustc's own text of a diagnostic, where it has one that shows all of it.
pub fn whole_text<'v>(node: &Node<'v, '_>) -> Result<Option<&'v str>, Fault>
    ensures is { IfOk result (λ text. IsOwnText (view node.now.value.now) (lent_text text)) }
{
    let said = given_text(node, "rendered")?;
    Ok(if_whole(said))
}

/// What the JSON of a diagnostic leaves open.
pub fn open_in(value: &Value) -> Open {
    let own = spans_in(value);
    let children = children_in(value);
    Open {
        edits: children.iter().any(has_several_edits),
        macros: is_in_macro(own) || children.iter().any(has_macro),
        labels: own.iter().any(is_labelled_start) || has_label_apart(children, own),
    }
}

/// The children of a diagnostic.
fn children_in(value: &Value) -> &[Value] {
    match value.get("children").and_then(Value::as_array) {
        Some(children) => children.as_slice(),
        None => &[],
    }
}

/// The places of a diagnostic or a child.
fn spans_in(part: &Value) -> &[Value] {
    match part.get("spans").and_then(Value::as_array) {
        Some(spans) => spans.as_slice(),
        None => &[],
    }
}

/// Whether a child suggests an edit.
fn has_edit(child: &Value) -> bool {
    spans_in(child).iter().any(is_edit)
}

/// Whether a child has several places, one of which is an edit.
fn has_several_edits(child: &Value) -> bool {
    spans_in(child).len() > 1 && has_edit(child)
}

/// Whether a child has one place, an edit, and may be shown as a label there, which stands beside primary places that
/// have none.
fn has_label_apart(children: &[Value], own: &[Value]) -> bool {
    if !children.iter().any(has_one_edit) {
        return false;
    }
    match own.iter().find(|span| is_bare(span)) {
        Some(first) => {
            let are_several = own.iter().any(|span| is_bare(span) && !is_at(span, first));
            children
                .iter()
                .any(|child| may_be_label(child, first, are_several))
        }
        None => false,
    }
}

/// Whether a child has one place, an edit.
fn has_one_edit(child: &Value) -> bool {
    match spans_in(child) {
        [edit] => is_edit(edit),
        _ => false,
    }
}

/// Whether a child has one place, an edit, which isn't where this place is, or where several are.
fn may_be_label(child: &Value, first: &Value, are_several: bool) -> bool {
    match spans_in(child) {
        [edit] => is_edit(edit) && (are_several || !is_at(first, edit)),
        _ => false,
    }
}

/// Whether a place is primary and has no label.
fn is_bare(span: &Value) -> bool {
    let is_primary = span.get("is_primary").and_then(Value::as_bool);
    is_primary == Some(true) && !is_labelled(span)
}

/// Whether a place has a label.
fn is_labelled(span: &Value) -> bool {
    span.get("label").and_then(Value::as_str).is_some()
}

/// Whether two places have the same bytes.
fn is_at(one: &Value, other: &Value) -> bool {
    bytes_of(one) == bytes_of(other)
}

/// The bytes of a file at which a place starts and ends.
fn bytes_of(span: &Value) -> (Option<u64>, Option<u64>) {
    let start = span.get("byte_start").and_then(Value::as_u64);
    let end = span.get("byte_end").and_then(Value::as_u64);
    (start, end)
}

/// Whether a place of a child is in a macro.
fn has_macro(child: &Value) -> bool {
    is_in_macro(spans_in(child))
}

/// Whether one of some places is in a macro.
fn is_in_macro(spans: &[Value]) -> bool {
    spans.iter().any(is_expanded)
}

/// Whether a place is in a macro.
fn is_expanded(span: &Value) -> bool {
    match span.get("expansion") {
        Some(expansion) => expansion.is_object(),
        None => false,
    }
}

/// Whether a place has a label and is on the first line, without bytes.
fn is_labelled_start(span: &Value) -> bool {
    is_on_first_line(span) && is_labelled(span) && is_empty(span)
}

/// Whether a place starts on the first line.
fn is_on_first_line(span: &Value) -> bool {
    let line = span.get("line_start").and_then(Value::as_u64);
    line.unwrap_or(0) <= 1
}

/// Whether a place has no bytes.
fn is_empty(span: &Value) -> bool {
    let (start, end) = bytes_of(span);
    start == end
}

/// The diagnostic that the other fields of a value describe.
fn told_diagnostic(node: &Node<'_, '_>, reader: &Reader) -> Result<Diagnostic, Fault>
    ensures is { IfOk result (IsToldBy reader.now (view node.now.value.now)) }
{
    let (severity, message) = heading_of(node)?;
    let (spans, children, code) = parts_of(node, reader)?;
    Ok(Diagnostic {
        severity,
        message,
        code,
        spans,
        children,
        homes: Vec::new(node.alloc),
        shows_gone: false,
    })
}

/// The places, the children and the code of a diagnostic.
fn parts_of(
    node: &Node<'_, '_>,
    reader: &Reader,
) -> Result<(Vec<FileSpan>, Vec<Child>, Option<Code>), Fault>
    ensures places { IfOk result (λ parts.
        ArePlacesOf reader.now.named reader.now.puts_labels_first (view node.now.value.now) parts.0.items) }
    ensures children { IfOk result (λ parts. AreChildrenOf reader.now (view node.now.value.now) parts.1.items) }
    ensures code { IfOk result (λ parts. option_map code_seen parts.2 ≡ code_told (view node.now.value.now)) }
{
    let spans = spans_of(node, &reader.named, reader.puts_labels_first)?;
    let children = children_of(node, reader)?;
    let code = code_of(node)?;
    Ok((spans, children, code))
}

/// The children of a diagnostic, with a note on the macros that it originates in.
fn children_of(node: &Node<'_, '_>, reader: &Reader) -> Result<Vec<Child>, Fault>
    ensures are { IfOk result (λ children. AreChildrenOf reader.now (view node.now.value.now) children.items) }
{
    let list = node.needed("children", Expectation::List)?;
    let values = listed(node, "children")?;
    let mut children = children_by(&list, values, reader)?;
    add_macro_note(node, values, &reader.note, &mut children)?;
    Ok(children)
}

/// The children in a list of these values.
fn children_by<'v>(
    list: &Node<'v, '_>,
    values: &'v [Value],
    reader: &Reader,
) -> Result<Vec<Child>, Fault>
    ensures are { IfOk result (λ children. AllZip (IsChildOf reader.now) (map view values.now) children.items) }
{
    let mut children = Vec::new(list.alloc);
    for (index, value) in values.iter().enumerate() {
        children.push(child_of(&list.item(index, value), reader)?)?;
    }
    Ok(children)
}

/// The macros that the primary places of a diagnostic and of its children come from.
fn macros_of<'v>(diagnostic: &'v Value, children: &'v [Value]) -> Macros<'v> {
    let mut macros = Macros::new().with_places(diagnostic);
    for child in children {
        macros = macros.with_places(child);
    }
    macros
}

/// Adds the note on the macros that a diagnostic with these children originates in.
fn add_macro_note(
    node: &Node<'_, '_>,
    values: &[Value],
    note: &MacroNote,
    children: &mut Vec<Child>,
) -> Result<(), Fault>
    ensures noted { OnOk result (MayHaveNote children.old.items children.new.items) }
{
    match note {
        MacroNote::OfPlaces => add_note_of_places(node, values, children),
        MacroNote::BeforeEdits(note) => {
            let message = owned(node.alloc, note.as_str())?;
            Ok(insert_before_edits(children, note_of(node.alloc, message))?)
        }
        MacroNote::Last(note) => {
            let message = owned(node.alloc, note.as_str())?;
            Ok(children.push(note_of(node.alloc, message))?)
        }
        MacroNote::Nowhere => Ok(()),
    }
}

/// Adds what the places of a diagnostic with these children say of the macros that it originates in.
fn add_note_of_places(
    node: &Node<'_, '_>,
    values: &[Value],
    children: &mut Vec<Child>,
) -> Result<(), Fault>
    ensures noted { OnOk result (MayHaveNote children.old.items children.new.items) }
{
    let macros = macros_of(node.value, values);
    match macros.note(node.alloc, node.text("level")?)? {
        Some(message) => {
            insert_before_edits(children, note_of(node.alloc, message))?;
            Ok(())
        }
        None => Ok(()),
    }
}

/// Puts a note before the first child that suggests an edit.
fn insert_before_edits(children: &mut Vec<Child>, note: Child) -> Result<(), AllocError>
    requires is_note { IsNote note }
    ensures noted { OnOk result (MayHaveNote children.old.items children.new.items) }
{
    let at = count_before_edits(children);
    children.insert(at, note)?;
    Ok(())
}

/// A note without places.
fn note_of(alloc: Global, message: String) -> Child
    ensures is_note { IsNote result }
{
    Child {
        severity: Severity::Note,
        message,
        spans: Vec::new(alloc),
        alternatives: Vec::new(alloc),
        goes_on: false,
    }
}

/// How many children stand before the first that suggests an edit.
fn count_before_edits(children: &[Child]) -> usize
    ensures within { result ≤ length children.now }
{
    for (index, child) in children.iter().enumerate() {
        if !child.alternatives.is_empty() {
            return index;
        }
    }
    children.len()
}

/// A child: its places, or the edits that it suggests.
fn child_of(node: &Node<'_, '_>, reader: &Reader) -> Result<Child, Fault>
    ensures is { IfOk result (IsChildOf reader.now (view node.now.value.now)) }
{
    let (severity, message) = heading_of(node)?;
    let edits = edits_of(node)?;
    let spans = spans_beside(node, &edits, reader)?;
    let alternatives = alternatives_of(node.alloc, edits, reader.joins_edits)?;
    Ok(Child {
        severity,
        message,
        spans,
        alternatives,
        goes_on: false,
    })
}

/// The places of a child with these edits: none if it has some.
fn spans_beside(
    node: &Node<'_, '_>,
    edits: &[SuggestedEdit],
    reader: &Reader,
) -> Result<Vec<FileSpan>, Fault>
    ensures are { IfOk result (λ spans.
        ArePlacesBeside reader.now (view node.now.value.now) edits.now spans.items) }
{
    if !edits.is_empty() {
        return Ok(Vec::new(node.alloc));
    }
    let spans = spans_of(node, &reader.named_by_children, reader.puts_labels_first)?;
    Ok(spans)
}
