//! Builders that take no memory.

use crate::subject::print_subjects;
use annotate_snippets::level::{ERROR, HELP, Level, NOTE};
use annotate_snippets::renderer::{Id, MessageOrTitle};
use annotate_snippets::snippet::report_fits;
use annotate_snippets::text::CowStr;
use annotate_snippets::{
    Annotation, AnnotationKind, Element, Group, OptionCow, Origin, Padding, Patch, Snippet, Title,
};
use std::alloc::Global;
use std::io;

/// Makes the calls, and prints what came out right.
pub fn print(rt: &(impl Print + AllocGlobal)) -> io::Result<()> {
    let alloc = rt.alloc();
    print_subjects(
        rt,
        &[
            ("names of levels", names()),
            ("titles and messages", headings()),
            ("empty groups", groups(alloc)),
            ("whether texts fit", fits(alloc)),
            ("settings of snippets", snippets(alloc)),
            ("annotations", annotations()),
            ("patches", patches()),
            ("origins", origins()),
            ("elements", elements(alloc)),
            ("optional texts", optional_texts(alloc)),
        ],
    )
}

/// Whether levels have the names that they are given.
fn names() -> bool {
    is_named(ERROR, "error")
        && is_named(HELP.no_name(), "")
        && is_named(NOTE.with_name(OptionCow::from("remark")), "remark")
}

/// Whether a level has this name.
fn is_named(level: Level<'_>, name: &str) -> bool {
    level.as_str() == name
}

/// Whether this is a heading of this text, trusted or not.
fn is_heading<H: MessageOrTitle + Drop>(heading: H, text: &str, trusted: bool) -> bool {
    heading.text() == text
        && heading.allows_styling() == trusted
        && heading.id().is_none()
        && heading.level().as_str() == "error"
}

/// Whether titles and messages have the texts that they are given.
fn headings() -> bool {
    is_heading(ERROR.primary_title("e"), "e", false)
        && is_heading(ERROR.secondary_title("t"), "t", true)
        && is_heading(ERROR.message("m"), "m", true)
        && has_id(ERROR.primary_title("e").id("E1").id_url("u"))
        && shared_headings()
}

/// A title whose texts are copies on write.
fn shared_title() -> Title<'static> {
    ERROR
        .secondary_title_cow(CowStr::Borrowed("t"))
        .id_cow(CowStr::Borrowed("E1"))
        .id_url_cow(CowStr::Borrowed("u"))
}

/// Whether titles and messages have the texts that they are given as copies on write.
fn shared_headings() -> bool {
    is_heading(ERROR.primary_title_cow(CowStr::Borrowed("e")), "e", false)
        && is_heading(ERROR.secondary_title_cow(CowStr::Borrowed("t")), "t", true)
        && is_heading(ERROR.message_cow(CowStr::Borrowed("m")), "m", true)
        && has_id(shared_title())
}

/// Whether a title has the id `E1`, whose address is `u`.
fn has_id(title: Title<'_>) -> bool {
    is_id(&title.id)
}

/// Whether this is the id `E1`, whose address is `u`.
fn is_id(id: &Option<Id<'_>>) -> bool {
    match id {
        Some(id) => is_text(&id.id, "E1") && is_text(&id.url, "u"),
        None => false,
    }
}

/// Whether groups without elements are empty where they have no title.
fn groups(alloc: Global) -> bool {
    !is_empty(Group::with_title(alloc, ERROR.primary_title("e")))
        && is_empty(Group::with_level(alloc, NOTE))
}

/// Whether a group is empty.
fn is_empty(group: Group<'_>) -> bool {
    group.is_empty()
}

/// Whether short texts fit.
fn fits(alloc: Global) -> bool {
    let group = Group::with_title(alloc, ERROR.primary_title("e").id("E1"));
    group.fits() && Element::from(Origin::path("a.rs")).fits() && report_fits(&[group])
}

/// Whether a snippet has the settings that it is given.
fn snippets(alloc: Global) -> bool {
    let snippet = Snippet::source(alloc, "ab")
        .path(OptionCow::from("a.rs"))
        .line_start(7)
        .line_numbering(false)
        .fold(false);
    is_set(&snippet)
}

/// Whether a snippet has these settings.
fn is_set(snippet: &Snippet<'_, Annotation<'_>>) -> bool {
    snippet.source.as_str() == "ab"
        && is_text(&snippet.path, "a.rs")
        && snippet.line_start == 7
        && !snippet.line_numbering
        && !snippet.fold
}

/// Whether an optional text is this one.
fn is_text(given: &Option<CowStr<'_>>, text: &str) -> bool {
    match given {
        Some(given) => given.as_str() == text,
        None => false,
    }
}

/// Whether an annotation has what it is given.
fn annotations() -> bool {
    let mark = AnnotationKind::Context
        .span(1..2)
        .label(OptionCow::from("here"))
        .highlight_source(true);
    mark.span.start == 1
        && mark.kind == AnnotationKind::Context
        && is_text(&mark.label, "here")
        && mark.highlight_source
}

/// Whether patches have what they are given.
fn patches() -> bool {
    puts(Patch::new(1..2, "x"), "x") && puts(Patch::new_cow(1..2, CowStr::Borrowed("y")), "y")
}

/// Whether a patch puts this text in place of the second byte.
fn puts(patch: Patch<'_>, text: &str) -> bool {
    patch.span.start == 1 && patch.span.end == 2 && patch.replacement.as_str() == text
}

/// Whether origins have what they are given.
fn origins() -> bool {
    is_place(
        Origin::path("a.rs").line(3).char_column(2),
        "a.rs",
        Some(3),
        Some(2),
    ) && is_place(Origin::from(CowStr::Borrowed("b.rs")), "b.rs", None, None)
        && is_place(
            Origin::path_cow(CowStr::Borrowed("c.rs")),
            "c.rs",
            None,
            None,
        )
}

/// Whether an origin is this place of this file.
fn is_place(origin: Origin<'_>, path: &str, line: Option<usize>, column: Option<usize>) -> bool {
    origin.path.as_str() == path && origin.line == line && origin.char_column == column
}

/// What kind of element this is.
fn kind_of(element: &Element<'_>) -> &'static str {
    match element {
        Element::Message(_) => "message",
        Element::Cause(_) => "cause",
        Element::Suggestion(_) => "suggestion",
        Element::Origin(_) => "origin",
        Element::Padding(_) => "padding",
    }
}

/// Whether an element is of this kind.
fn is_of_kind(element: Element<'_>, kind: &str) -> bool {
    kind_of(&element) == kind
}

/// A snippet with annotations.
fn marked(alloc: Global) -> Snippet<'static, Annotation<'static>> {
    Snippet::source(alloc, "a")
}

/// A snippet with patches.
fn patched(alloc: Global) -> Snippet<'static, Patch<'static>> {
    Snippet::source_cow(alloc, CowStr::Borrowed("a"))
}

/// Whether elements are of the kinds that they are made from.
fn elements(alloc: Global) -> bool {
    is_of_kind(Element::from(NOTE.message("m")), "message")
        && is_of_kind(Element::from(Origin::path("a.rs")), "origin")
        && is_of_kind(Element::from(Padding), "padding")
        && is_of_kind(Element::from(marked(alloc)), "cause")
        && is_of_kind(Element::from(patched(alloc)), "suggestion")
}

/// Whether an optional text is there, and is this one.
fn is_given(given: OptionCow<'_>, text: &str) -> bool {
    is_text(&given.0, text)
}

/// Whether optional texts are those that they are made from.
fn optional_texts(alloc: Global) -> bool {
    let none: Option<&str> = None;
    is_given(OptionCow::from("a"), "a")
        && is_given(OptionCow::from(Some("a")), "a")
        && is_given(OptionCow::from(CowStr::Borrowed("a")), "a")
        && is_given(OptionCow::from(String::new(alloc)), "")
        && !is_given(OptionCow::from(none), "")
        && lent_texts(alloc)
}

/// Whether an optional text is the one that is lent, or is there.
fn lent_texts(alloc: Global) -> bool {
    let owned = String::new(alloc);
    let shared = CowStr::Borrowed("a");
    is_given(OptionCow::from(&owned), "")
        && is_given(OptionCow::from(&shared), "a")
        && is_given(OptionCow::from(Some(String::new(alloc))), "")
        && is_given(OptionCow::from(Some(CowStr::Borrowed("a"))), "a")
}
