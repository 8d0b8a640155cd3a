//! Titles and messages.
ghost use Rattle.std.specs.Prelude.{◌≡◌, ◌++◌, ◌≤◌, if◌then◌else◌, chars, length, IfOk, IfSome, OnOk};
ghost use Rattle.std.specs.Cow.{cow_str_bytes};
ghost use Rattle.std.specs.Option.{option_copied};
ghost use Rattle.snippet_model.specs.Fits.{IdFits, LevelFits};
ghost use Rattle.snippet_model.specs.Heading.{HeadingFits};
ghost use Rattle.snippet_model.specs.Heading as model;
ghost use Rattle.snippet_model.specs.Level.{name_of};
ghost use Rattle.snippet_text.specs.Normalized.{norm};
ghost use Rattle.snippet_text.specs.Width.{width_of};
ghost use Rattle.snippet_titles.specs.HeadingRows.{heading_lines};
ghost use Rattle.snippet_text_form.specs.Form.{bare};
ghost use Rattle.snippet_text_form.specs.HeadingForm.{before_name, colon_form, heading_form, id_form};
ghost use Rattle.snippet_text_form.specs.FormMarks.{before_line};
ghost use Rattle.snippet_text_form.specs.HeadingForm.{label_form, label_of_id, heading_label, lines_form, name_form};
ghost use Rattle.snippet_text_form.specs.HeadingForm as spec;
ghost use Rattle.snippet_style.specs.Bounds.{IsTextWidth};

use crate::form::TextForm;
use snippet_model::MessageOrTitle;
use snippet_model::level::Level;
use snippet_model::snippet::Id;
use snippet_style::{ElementStyle, LevelInner};
use snippet_text::{CowStr, is_plain, normalized, str_width};
use snippet_titles::{HeadingRoles, TitleStyle, address_of, colon, is_hidden, is_set, shown_name};
use std::alloc::{AllocError, Global};

/// Whether a heading is a title or a message.
#[derive(Clone, Copy, Debug, PartialEq, Eq)]
pub enum HeadingKind {
    /// The title of a group.
    Title,
    /// A message in a group.
    Message,
}

impl HeadingKind {
    /// What stands before the level's name.
    fn before_name(self) -> &'static str
        ensures value { chars result.now ≡ before_name self }
        ensures short { length result.now ≤ 1 }
    {
        match self {
            HeadingKind::Title => "",
            HeadingKind::Message => " ",
        }
    }

    /// The roles of a heading's parts.
    fn roles(self, level: LevelInner, trusted: bool) -> HeadingRoles
        ensures value { result ≡ spec.text_roles_of self level trusted }
    {
        match self {
            HeadingKind::Title => snippet_titles::roles_of(&TitleStyle::Title, level, trusted),
            HeadingKind::Message => HeadingRoles {
                label: ElementStyle::MainHeaderMsg,
                colon: ElementStyle::NoStyle,
                text: ElementStyle::NoStyle,
            },
        }
    }
}

/// Adds a title or message, on a line of its own. Further lines of its text stand below the first. Where links are on,
/// its id links to its URL.
///
/// ```text
/// error E0308: mismatched types
///              in the arms of a match
///  note: expected a reference
/// ```
///
/// # Errors
///
/// There is no memory for the text.
pub fn add_heading<'a>(
    alloc: Global,
    form: &mut TextForm<'a>,
    hyperlink: bool,
    kind: HeadingKind,
    heading: &'a dyn MessageOrTitle,
) -> Result<(), AllocError>
    requires fits { HeadingFits (heading_of heading.now) }
    ensures added { OnOk result (form.new ≡ form.old ++ heading_form hyperlink kind (heading_of heading.now)) }
{
    let roles = kind.roles(heading.level().kind, heading.allows_styling());
    form.add_break()?;
    add_label(alloc, form, hyperlink, kind, roles, heading)?;
    add_lines(alloc, form, roles.text, kind, heading)
}

/// Adds what stands before a heading's text.
fn add_label<'a>(
    alloc: Global,
    form: &mut TextForm<'a>,
    hyperlink: bool,
    kind: HeadingKind,
    roles: HeadingRoles,
    heading: &'a dyn MessageOrTitle,
) -> Result<(), AllocError>
    ensures added { OnOk result (form.new ≡ form.old ++ label_form hyperlink kind roles (heading_of heading.now)) }
{
    let hidden = is_hidden(heading.level());
    add_name(alloc, form, kind, roles.label, heading.level())?;
    add_id(alloc, form, hyperlink, hidden, roles.label, heading.id())?;
    add_colon(form, roles.colon, hidden, heading.id())
}

/// Adds a level's name, unless that is hidden.
fn add_name<'a>(
    alloc: Global,
    form: &mut TextForm<'a>,
    kind: HeadingKind,
    role: ElementStyle,
    level: &'a Level<'a>,
) -> Result<(), AllocError>
    ensures added { OnOk result (form.new ≡ form.old ++ name_form kind role level.now) }
{
    if is_hidden(level) {
        return Ok(());
    }
    form.add_text(kind.before_name())?;
    form.add_styled(role, None, shown_name(alloc, level)?)
}

/// Adds an id, where there is one that has a text.
fn add_id<'a>(
    alloc: Global,
    form: &mut TextForm<'a>,
    hyperlink: bool,
    hidden: bool,
    role: ElementStyle,
    id: Option<&'a Id<'a>>,
) -> Result<(), AllocError>
    ensures added { OnOk result (form.new ≡ form.old ++ id_form hyperlink hidden role (option_copied id.entry)) }
{
    let Some(id) = id else {
        return Ok(());
    };
    let Some(text) = &id.id else {
        return Ok(());
    };
    form.add_text(before_id(hidden))?;
    let shown = normalized(alloc, text.as_str())?;
    let address = if shown.is_empty() {
        None
    } else {
        address_of(hyperlink, id)
    };
    form.add_styled(role, address, shown)
}

/// What stands before an id.
fn before_id(hidden: bool) -> &'static str
    ensures value { chars result.now ≡ spec.before_id hidden }
    ensures short { length result.now ≤ 1 }
{
    if hidden { "" } else { " " }
}

/// Adds the colon before a heading's text.
fn add_colon(
    form: &mut TextForm<'_>,
    role: ElementStyle,
    hidden: bool,
    id: Option<&Id<'_>>,
) -> Result<(), AllocError>
    ensures added { OnOk result (form.new ≡ form.old ++ colon_form role hidden (option_copied id.entry)) }
{
    if hidden && !is_set(id) {
        return Ok(());
    }
    form.add_styled(role, None, CowStr::Borrowed(": "))
}

/// The columns of what stands before a heading's text.
fn label_width(kind: HeadingKind, heading: &dyn MessageOrTitle) -> usize
    requires fits { HeadingFits (heading_of heading.now) }
    ensures value { result ≡ width_of (heading_label kind (heading_of heading.now)) }
{
    let hidden = is_hidden(heading.level());
    let colon = colon(hidden, heading.id());
    name_width(kind, heading.level()) + id_width(hidden, heading.id()) + str_width(colon)
}

/// The columns of a level's name with what stands before it, none where it is hidden.
fn name_width(kind: HeadingKind, level: &Level<'_>) -> usize
    requires fits { LevelFits level.now }
    ensures value { result ≡ (if model.is_hidden level.now.name then 0 else width_of
        (before_name kind ++ norm (chars (name_of level.now)))) }
    ensures small { IsTextWidth result }
{
    if is_hidden(level) {
        return 0;
    }
    str_width(kind.before_name()) + str_width(level.as_str())
}

/// The columns of an id with what stands before it, none where it has no text.
fn id_width(hidden: bool, id: Option<&Id<'_>>) -> usize
    requires fits { IfSome (option_copied id) IdFits }
    ensures value { result ≡ width_of (label_of_id hidden (option_copied id.entry)) }
    ensures small { IsTextWidth result }
{
    let Some(id) = id else {
        return 0;
    };
    match &id.id {
        Some(text) => str_width(before_id(hidden)) + str_width(text.as_str()),
        None => 0,
    }
}

/// Adds a heading's text; each further line of it stands below the first, as far right.
fn add_lines<'a>(
    alloc: Global,
    form: &mut TextForm<'a>,
    role: ElementStyle,
    kind: HeadingKind,
    heading: &'a dyn MessageOrTitle,
) -> Result<(), AllocError>
    requires fits { HeadingFits (heading_of heading.now) }
    ensures added { OnOk result (form.new ≡ form.old
        ++ lines_form role (width_of (heading_label kind (heading_of heading.now)))
        (heading_lines (heading_of heading.now))) }
{
    let text = heading.text();
    // Most texts are printable ASCII: trusted or not they are shown as they are, and hold no line feed.
    if is_plain(text) {
        return form.add_styled(role, None, CowStr::Borrowed(text));
    }
    let trusted = heading.allows_styling();
    let mut width = None;
    for (index, line) in text.split('\n').enumerate() {
        width = begin_line(form, kind, width, index, heading)?;
        form.add_styled(role, None, shown_line(alloc, trusted, line)?)?;
    }
    Ok(())
}

/// Adds what stands before a line: nothing before the first, else a line feed and as many spaces as the label has
/// columns, which are given where they are known. It gives them as far as they are known then.
fn begin_line(
    form: &mut TextForm<'_>,
    kind: HeadingKind,
    known: Option<usize>,
    index: usize,
    heading: &dyn MessageOrTitle,
) -> Result<Option<usize>, AllocError>
    requires fits { HeadingFits (heading_of heading.now) }
    requires known { IfSome known (λ width. width ≡ width_of (heading_label kind (heading_of heading.now))) }
    ensures added { OnOk result (form.new
        ≡ form.old ++ bare (before_line (width_of (heading_label kind (heading_of heading.now))) index)) }
    ensures known { IfOk result (λ known. IfSome known (λ width.
        width ≡ width_of (heading_label kind (heading_of heading.now)))) }
{
    if index == 0 {
        return Ok(known);
    }
    let width = known_width(kind, known, heading);
    form.add_text("\n")?;
    form.add_spaces(width)?;
    Ok(Some(width))
}

/// The columns of what stands before a heading's text, which are given where they are known. A text of one line doesn't
/// ask.
fn known_width(kind: HeadingKind, known: Option<usize>, heading: &dyn MessageOrTitle) -> usize
    requires fits { HeadingFits (heading_of heading.now) }
    requires known { IfSome known (λ width. width ≡ width_of (heading_label kind (heading_of heading.now))) }
    ensures value { result ≡ width_of (heading_label kind (heading_of heading.now)) }
{
    match known {
        Some(width) => width,
        None => label_width(kind, heading),
    }
}

/// A line of a text as it is shown: a trusted one as it is, any other normalised.
fn shown_line<'a>(alloc: Global, trusted: bool, line: &'a str) -> Result<CowStr<'a>, AllocError>
    ensures value { IfOk result (λ shown. chars (cow_str_bytes shown)
        ≡ (if trusted then chars line.now else norm (chars line.now))) }
{
    if trusted {
        Ok(CowStr::Borrowed(line))
    } else {
        normalized(alloc, line)
    }
}
