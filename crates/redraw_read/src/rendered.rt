//! How a suggestion is shown, which rustc's own text of a diagnostic tells: its JSON says of each suggestion only what
//! it changes.

ghost use Rattle.std.specs.Prelude.{◌≡◌, ◌==◌, ◌++◌, ℕ, [], IfOk, List, OnOk, false, map, string_bytes};
ghost use Rattle.std.specs.List.{before_first, flat_map, slice_split};
ghost use Rattle.redraw_read.specs.AsShown.{IsAsShown, child_seen, child_shown, has_escape, labels_of, place_shown};
ghost use Rattle.redraw_read.specs.AsShown.{message_line, suggestion_shown, with_first_line};
ghost use Rattle.json_lines.specs.Field.{lent_text};
ghost use Rattle.redraw_read.specs.Labels as labels_spec;
ghost use Rattle.redraw_read.specs.Labels.{label_for, label_seen};
ghost use Rattle.redraw_read.specs.Rendered as spec;
ghost use Rattle.redraw_read.specs.Rustc as spec_of;
ghost use Rattle.redraw_read.specs.Rendered.{way, way_by, way_of};
ghost use Rattle.redraw_read.specs.Told.{KeepsHeading};
ghost use Rattle.redraw_report.specs.Report.{lent};

use crate::labels::{EditLabel, label_text, with_labels};
use crate::manners::Manners;
use crate::plain::without_styles;
use crate::roles::settle_roles;
use crate::words::{after, after_first, begins_with, finishes_with};
use redraw_report::diagnostic::{Child, Diagnostic, SuggestedEdit};
use snippet_text::normalized;
use std::alloc::{AllocError, Global};

/// How a suggestion is shown, with the line that shows it, from the suggestion's message on.
#[derive(Clone, Copy)]
pub enum Manner<'t> {
    /// As a group of its own: this is its title.
    Group(&'t str),
    /// As this message of the group before it.
    Message(&'t str),
    /// As a label of the place that it changes: `help: `, and this.
    Label(&'t str),
    /// Not at all.
    Nowhere,
}

/// Where in a line the message of a suggestion stands, or a place.
#[derive(Clone, Copy)]
pub enum Stand {
    /// After `help: `, with which the line begins.
    Title,
    /// After blanks, the sign `=`, `├` or `╰`, and ` help: `.
    Message,
    /// After the first `help: ` of a row beside an empty gutter.
    Label,
    /// After the first word, which is an arrow.
    Origin,
}

/// How a suggestion with this message is shown in a text.
pub fn manner_of<'t>(message: &str, text: &'t str) -> Manner<'t>
    ensures value { way_of result ≡ way message.now text.now }
{
    if let Some(title) = first_shown(Stand::Title, message, text) {
        return Manner::Group(title);
    }
    if let Some(said) = first_shown(Stand::Message, message, text) {
        return Manner::Message(said);
    }
    match first_shown(Stand::Label, message, text) {
        Some(label) => Manner::Label(label),
        None => Manner::Nowhere,
    }
}

/// How a suggestion is shown of which a text shows this as a title, as a message or as a label.
pub fn manner_by<'t>(
    title: Option<&'t str>,
    said: Option<&'t str>,
    label: Option<&'t str>,
) -> Manner<'t>
    ensures value { way_of result ≡ way_by (lent title.entry) (lent said.entry) (lent label.entry) }
{
    match (title, said, label) {
        (Some(title), _, _) => Manner::Group(title),
        (None, Some(said), _) => Manner::Message(said),
        (None, None, Some(label)) => Manner::Label(label),
        (None, None, None) => Manner::Nowhere,
    }
}

/// What the first line of a text that shows this message there shows of it.
fn first_shown<'t>(place: Stand, message: &str, text: &'t str) -> Option<&'t str>
    ensures value { lent result ≡ spec.first_shown place message.now (slice_split (λ b. b == 10) text.now) }
{
    for line in text.split('\n') {
        if let Some(shown) = shown_in(place, message, line) {
            return Some(shown);
        }
    }
    None
}

/// What a line shows of this message there, if it does.
pub fn shown_in<'t>(place: Stand, message: &str, line: &'t str) -> Option<&'t str>
    ensures value { lent result ≡ spec.shown_in place message.now line.now }
{
    match stands_in(place, line) {
        Some(text) => text_of(place, message, text),
        None => None,
    }
}

/// A text, if it is that of a message.
fn text_of<'t>(place: Stand, message: &str, text: &'t str) -> Option<&'t str>
    ensures value { lent result ≡ spec.text_of place message.now text.now }
{
    if is_of(place, message, text) {
        Some(text)
    } else {
        None
    }
}

/// Whether a text that stands there is that of a message, and not that of one which only begins with it.
pub fn is_of(place: Stand, message: &str, text: &str) -> bool
    ensures value { result ≡ spec.is_of place message.now text.now }
{
    match after(text, message) {
        Some(rest) => ends(place, rest),
        None => false,
    }
}

/// Whether a message ends where this follows it.
fn ends(place: Stand, rest: &str) -> bool
    ensures value { result ≡ spec.ends place rest.now }
{
    match place {
        Stand::Label => ends_title(rest) || ends_label(rest),
        _ => ends_title(rest),
    }
}

/// Whether the message of a title ends where this follows it: nothing, or what is to be noticed.
fn ends_title(rest: &str) -> bool
    ensures value { result ≡ spec.ends_title rest.now }
{
    rest.is_empty() || begins_with(rest, " (notice ")
}

/// Whether the message of a label ends where this follows it: what is to stand there, or a stroke after a blank.
fn ends_label(rest: &str) -> bool
    ensures value { result ≡ spec.ends_label rest.now }
{
    begins_with(rest, ": `") || begins_with_stroke(rest)
}

/// Whether a text begins with a blank and a stroke of marks, or with two blanks.
fn begins_with_stroke(text: &str) -> bool
    ensures value { result ≡ spec.begins_with_stroke text.now }
{
    match text.as_bytes() {
        [b' ', stroke, ..] => is_stroke(*stroke),
        _ => false,
    }
}

/// Whether a byte begins a stroke of marks, in ASCII or among those of U+2500 to U+257F, or is a blank.
fn is_stroke(byte: u8) -> bool
    ensures value { result ≡ spec.is_stroke byte }
{
    matches!(byte, b' ' | b'^' | b'-' | b'_' | b'|' | 0xe2)
}

/// What stands in a line where a message may stand, or a place.
pub fn stands_in<'t>(place: Stand, line: &'t str) -> Option<&'t str>
    ensures value { lent result ≡ spec.stands_in place line.now }
{
    match place {
        Stand::Title => after(line, "help: "),
        Stand::Message => message_in(line.trim_start()),
        Stand::Label => label_in(line),
        Stand::Origin => after_word(line),
    }
}

/// What stands after the sign of a message and `help: ` in a line that begins with these, in ASCII or Unicode.
fn message_in<'t>(line: &'t str) -> Option<&'t str>
    ensures value { lent result ≡ spec.message_in line.now }
{
    if let Some(text) = after(line, "= help: ") {
        return Some(text);
    }
    if let Some(text) = after(line, "\u{251c} help: ") {
        return Some(text);
    }
    after(line, "\u{2570} help: ")
}

/// What stands in a line after its first word.
fn after_word<'t>(line: &'t str) -> Option<&'t str>
    ensures value { lent result ≡ spec.after_word line.now }
{
    match after_first(line.trim_start(), " ") {
        Some(rest) => Some(rest.trim_start()),
        None => None,
    }
}

/// What stands after the first `help: ` of a row beside an empty gutter: a source may have such words too.
fn label_in(line: &str) -> Option<&str>
    ensures value { lent result ≡ spec.label_in line.now }
{
    if is_beside_gutter(line) {
        after_first(line, "help: ")
    } else {
        None
    }
}

/// Whether a line is a row beside an empty gutter, as those of marks and labels are.
fn is_beside_gutter(line: &str) -> bool
    ensures value { result ≡ spec.is_beside_gutter line.now }
{
    let row = line.trim_start();
    begins_with(row, "|") || begins_with(row, "\u{2502}")
}

/// A text, if it shows all of a diagnostic: an empty line is at its end then. One of a single line shows only where it
/// is.
pub fn if_whole(text: Option<&str>) -> Option<&str>
    ensures value { lent_text result ≡ spec_of.if_whole (lent_text text.entry) }
{
    match text {
        Some(text) if finishes_with(text, "\n\n") => Some(text),
        _ => None,
    }
}

/// A diagnostic with its suggestions as they are shown in a text of it, which may have styles.
pub fn as_rendered(
    alloc: Global,
    text: &str,
    diagnostic: Diagnostic,
    puts_labels_first: bool,
) -> Result<Diagnostic, AllocError>
    ensures headed { IfOk result (KeepsHeading diagnostic) }
    ensures shown { IfOk result (λ shown. (plain : List ℕ) × (has_escape text.now ≡ false → plain ≡ text.now)
        × IsAsShown plain puts_labels_first diagnostic shown) }
{
    let text = without_styles(alloc, text)?;
    as_shown(alloc, text.as_str(), diagnostic, puts_labels_first)
}

/// A diagnostic with its suggestions as they are shown in a text of it.
fn as_shown(
    alloc: Global,
    text: &str,
    diagnostic: Diagnostic,
    puts_labels_first: bool,
) -> Result<Diagnostic, AllocError>
    ensures headed { IfOk result (KeepsHeading diagnostic) }
    ensures shown { IfOk result (IsAsShown text.now puts_labels_first diagnostic) }
{
    let mut manners = Manners::new(alloc, text, suggestion_count(&diagnostic.children))?;
    let spans = manners.show_columns(alloc, diagnostic.spans)?;
    let mut told = Vec::new(alloc);
    let children = shown_children(alloc, &mut manners, diagnostic.children, &mut told)?;
    let labelled = with_labels(alloc, spans, told, puts_labels_first)?;
    let spans = settle_roles(alloc, labelled)?;
    Ok(Diagnostic {
        severity: diagnostic.severity,
        message: diagnostic.message,
        code: diagnostic.code,
        spans,
        children,
        homes: diagnostic.homes,
        shows_gone: diagnostic.shows_gone,
    })
}

/// How many of some children are suggestions.
fn suggestion_count(children: &[Child]) -> usize {
    children
        .iter()
        .filter(|child| !child.alternatives.is_empty())
        .count()
}

/// What children become; a suggestion that is shown as a label joins those that are told.
fn shown_children(
    alloc: Global,
    manners: &mut Manners<'_>,
    children: Vec<Child>,
    told: &mut Vec<EditLabel>,
) -> Result<Vec<Child>, AllocError>
    ensures each { IfOk result (λ shown. map child_seen shown.items
        ≡ flat_map (child_shown manners.old.text.now) (map child_seen children.items)) }
    ensures told { OnOk result (map label_seen told.new.items ≡ map label_seen told.old.items
        ++ flat_map (labels_of manners.old.text.now) (map child_seen children.items)) }
{
    let mut shown = Vec::new(alloc);
    for child in children {
        show_child(alloc, manners, child, told, &mut shown)?;
    }
    Ok(shown)
}

/// Adds what a child becomes.
fn show_child(
    alloc: Global,
    manners: &mut Manners<'_>,
    child: Child,
    told: &mut Vec<EditLabel>,
    shown: &mut Vec<Child>,
) -> Result<(), AllocError>
    ensures text { manners.new.text.now ≡ manners.old.text.now }
    ensures added { OnOk result (map child_seen shown.new.items
        ≡ map child_seen shown.old.items ++ child_shown manners.old.text.now (child_seen child)) }
    ensures told { OnOk result (map label_seen told.new.items
        ≡ map label_seen told.old.items ++ labels_of manners.old.text.now (child_seen child)) }
{
    if child.alternatives.is_empty() {
        Ok(shown.push(with_columns(alloc, manners, child)?)?)
    } else {
        show_suggestion(alloc, manners, child, told, shown)
    }
}

/// A child without edits, with its places as they are shown.
fn with_columns(alloc: Global, manners: &mut Manners<'_>, child: Child) -> Result<Child, AllocError>
    ensures text { manners.new.text.now ≡ manners.old.text.now }
    ensures value { IfOk result (λ shown. child_seen shown
        ≡ record (child_seen child) { spans = map (place_shown manners.old.text.now) child.spans.items }) }
{
    let spans = manners.show_columns(alloc, child.spans)?;
    Ok(Child {
        severity: child.severity,
        message: child.message,
        spans,
        alternatives: child.alternatives,
        goes_on: child.goes_on,
    })
}

/// Adds what a suggestion becomes.
fn show_suggestion(
    alloc: Global,
    manners: &mut Manners<'_>,
    child: Child,
    told: &mut Vec<EditLabel>,
    shown: &mut Vec<Child>,
) -> Result<(), AllocError>
    ensures text { manners.new.text.now ≡ manners.old.text.now }
    ensures added { OnOk result (map child_seen shown.new.items ≡ map child_seen shown.old.items
        ++ suggestion_shown (way (message_line (string_bytes child.message)) manners.old.text.now) (child_seen child)) }
    ensures told { OnOk result (map label_seen told.new.items
        ≡ map label_seen told.old.items ++ labels_of manners.old.text.now (child_seen child)) }
{
    let message = first_line(alloc, child.message.as_str())?;
    match manners.manner_of(message)? {
        Manner::Group(title) => Ok(shown.push(retitled(alloc, child, title)?)?),
        Manner::Message(said) => Ok(shown.push(without_edits(alloc, child, said)?)?),
        Manner::Label(label) => add_label(alloc, label, child, told),
        Manner::Nowhere => Ok(()),
    }
}

/// The first line of a message, as it is drawn.
fn first_line(alloc: Global, message: &str) -> Result<String, AllocError>
    ensures value { IfOk result (λ line. string_bytes line ≡ message_line message.now) }
{
    let drawn = normalized(alloc, before_feed(message))?;
    let line = drawn.into_owned(alloc)?;
    Ok(line)
}

/// What of a message stands before its first line feed.
fn before_feed(message: &str) -> &str
    ensures value { result.now ≡ before_first (λ b. b == 10) message.now }
{
    match message.split_once('\n') {
        Some((line, _)) => line,
        None => message,
    }
}

/// A child with this as the first line of its message.
fn retitled(alloc: Global, child: Child, line: &str) -> Result<Child, AllocError>
    ensures value { IfOk result (λ shown. child_seen shown
        ≡ record (child_seen child) { message = with_first_line line.now (string_bytes child.message) }) }
{
    let message = redrawn(alloc, child.message.as_str(), line)?;
    Ok(Child {
        severity: child.severity,
        message,
        spans: child.spans,
        alternatives: child.alternatives,
        goes_on: child.goes_on,
    })
}

/// A child as a message alone, with this as its first line.
fn without_edits(alloc: Global, child: Child, line: &str) -> Result<Child, AllocError>
    ensures value { IfOk result (λ shown. child_seen shown ≡ record {
      severity = child.severity;
      message = with_first_line line.now (string_bytes child.message);
      spans = [];
      alternatives = [];
    }) }
{
    let message = redrawn(alloc, child.message.as_str(), line)?;
    Ok(Child {
        severity: child.severity,
        message,
        spans: Vec::new(alloc),
        alternatives: Vec::new(alloc),
        goes_on: child.goes_on,
    })
}

/// A message with this as its first line.
fn redrawn(alloc: Global, message: &str, line: &str) -> Result<String, AllocError>
    ensures value { IfOk result (λ text. string_bytes text ≡ with_first_line line.now message.now) }
{
    match message.split_once('\n') {
        Some((_, rest)) => format!(in alloc; "{line}\n{rest}"),
        None => String::from_str(alloc, line),
    }
}

/// Adds the label that a suggestion is shown as in this row, for the place of its edit.
fn add_label(
    alloc: Global,
    row: &str,
    child: Child,
    labels: &mut Vec<EditLabel>,
) -> Result<(), AllocError>
    ensures added { OnOk result (map label_seen labels.new.items ≡ map label_seen labels.old.items
        ++ label_for row.now (message_line (string_bytes child.message)) child.alternatives.items) }
{
    let message = first_line(alloc, child.message.as_str())?;
    match last_edit(child.alternatives) {
        Some(edit) => Ok(labels.push(edit_label(alloc, row, message.as_str(), edit)?)?),
        None => Ok(()),
    }
}

/// The last edit of the last of some alternatives.
fn last_edit(alternatives: Vec<Vec<SuggestedEdit>>) -> Option<SuggestedEdit>
    ensures value { result ≡ labels_spec.last_edit alternatives.items }
{
    let mut alternatives = alternatives;
    let mut edits = alternatives.pop()?;
    edits.pop()
}

/// The label in this row, from its message on, of an edit.
fn edit_label(
    alloc: Global,
    row: &str,
    message: &str,
    edit: SuggestedEdit,
) -> Result<EditLabel, AllocError>
    ensures value { IfOk result (λ told. label_seen told ≡ labels_spec.label_of row.now message.now edit) }
{
    let told = label_text(row, message, edit.replacement.as_str());
    let label = format!(in alloc; "help: {told}")?;
    Ok(EditLabel { edit, label })
}
