//! What builders make of one group: of its elements at once, of each by a builder for its kind, and by copies.

use annotate_snippets::level::{ERROR, HELP, NOTE};
use annotate_snippets::text::CowStr;
use annotate_snippets::{
    Annotation, AnnotationKind, Element, Group, OptionCow, Origin, Padding, Patch, Snippet, Title,
};
use std::alloc::{AllocError, Global};
use std::test::Fail;

/// A group with an element of each kind.
const WHOLE: &str = concat!(
    "Group { level: Error, title: Some(Title { level: Level { name: Standard, kind: Error }, ",
    "id: Some(Id { id: Some(\"E1\"), url: Some(\"https://a.example/E1\") }), ",
    "text: \"e\", allows_styling: false }), elements: [",
    "Message(Message { level: Level { name: Own(\"remark\"), kind: Note }, text: \"m\" }), ",
    "Cause(Snippet { path: Some(\"a.rs\"), line_start: 7, source: \"let x = 1;\", markers: [",
    "Annotation { span: 4..5, label: Some(\"here\"), kind: Primary, highlight_source: true }, ",
    "Annotation { span: 8..9, label: None, kind: Context, highlight_source: false }], ",
    "line_numbering: true, fold: true }), ",
    "Suggestion(Snippet { path: None, line_start: 1, source: \"let x = 1;\", markers: [",
    "Patch { span: 4..5, replacement: \"y\" }, Patch { span: 9..9, replacement: \"0\" }], ",
    "line_numbering: false, fold: false }), ",
    "Origin(Origin { path: \"b.rs\", line: Some(3), char_column: Some(2) }), Padding(Padding)] }",
);

/// A group with two elements.
const PAIR: &str = concat!(
    "Group { level: Help, title: Some(Title { level: Level { name: Standard, kind: Help }, id: None, ",
    "text: \"t\", allows_styling: true }), elements: [",
    "Padding(Padding), Origin(Origin { path: \"b.rs\", line: None, char_column: None })] }",
);

/// The source of the snippets.
const LINE: &str = "let x = 1;";

/// An annotation without a label.
fn unlabelled() -> Annotation<'static> {
    AnnotationKind::Context.span(8..9)
}

/// A line with two annotations, given at once.
fn cause(alloc: Global) -> Result<Snippet<'static, Annotation<'static>>, AllocError> {
    let labelled = AnnotationKind::Primary
        .span(4..5)
        .label(OptionCow::from("here"))
        .highlight_source(true);
    Snippet::source(alloc, LINE)
        .path(OptionCow::from("a.rs"))
        .line_start(7)
        .annotations([labelled, unlabelled()])
}

/// The cause, given one by one, with its texts as they are borrowed.
fn cause_one_by_one(alloc: Global) -> Result<Snippet<'static, Annotation<'static>>, AllocError> {
    let labelled = AnnotationKind::Primary
        .span(4..5)
        .label_str("here")
        .highlight_source(true);
    Snippet::source(alloc, LINE)
        .path_str("a.rs")
        .line_start(7)
        .annotation(labelled)?
        .annotation(unlabelled())
}

/// A line of owned source, unnumbered and not folded.
fn owned_line(alloc: Global) -> Result<Snippet<'static, Patch<'static>>, AllocError> {
    let source = String::from_str(alloc, LINE)?;
    Ok(
        Snippet::source_cow(alloc, CowStr::Owned(source))
            .line_numbering(false)
            .fold(false),
    )
}

/// The line with two patches, given at once.
fn suggestion(alloc: Global) -> Result<Snippet<'static, Patch<'static>>, AllocError> {
    let insertion = Patch::new_cow(9..9, CowStr::Borrowed("0"));
    owned_line(alloc)?.patches([Patch::new(4..5, "y"), insertion])
}

/// The suggestion, given one by one.
fn suggestion_one_by_one(alloc: Global) -> Result<Snippet<'static, Patch<'static>>, AllocError> {
    owned_line(alloc)?
        .patch(Patch::new(4..5, "y"))?
        .patch(Patch::new(9..9, "0"))
}

/// A place in a file.
fn place() -> Origin<'static> {
    Origin::path("b.rs").line(3).char_column(2)
}

/// An element of each kind.
fn elements(
    cause: Snippet<'static, Annotation<'static>>,
    suggestion: Snippet<'static, Patch<'static>>,
) -> [Element<'static>; 5] {
    let remark = NOTE.with_name(OptionCow::from("remark"));
    [
        Element::from(remark.message("m")),
        Element::from(cause),
        Element::from(suggestion),
        Element::from(place()),
        Element::from(Padding),
    ]
}

/// A group with an element of each kind, given at once.
fn whole(alloc: Global) -> Result<Group<'static>, AllocError> {
    let elements = elements(cause(alloc)?, suggestion(alloc)?);
    ERROR
        .primary_title("e")
        .id("E1")
        .id_url_cow(CowStr::Borrowed("https://a.example/E1"))
        .elements(alloc, elements)
}

/// The whole group, each element given by a builder for its kind.
fn whole_by_kind(alloc: Global) -> Result<Group<'static>, AllocError> {
    let remark = NOTE.with_name(OptionCow::from("remark"));
    ERROR
        .primary_title("e")
        .id("E1")
        .id_url("https://a.example/E1")
        .message(alloc, remark.message("m"))?
        .snippet(cause_one_by_one(alloc)?)?
        .suggestion(suggestion_one_by_one(alloc)?)?
        .origin(place())?
        .padding()
}

/// A group with two elements, given at once.
fn pair(alloc: Global) -> Result<Group<'static>, AllocError> {
    let both = [Element::from(Padding), Element::from(Origin::path("b.rs"))];
    Group::with_title(alloc, HELP.secondary_title("t")).elements(both)
}

/// A copy of a title.
fn title_copy() -> Result<Title<'static>, AllocError> {
    HELP.secondary_title("t").clone()
}

/// The pair, its elements given one by one below a copy of the title.
fn pair_one_by_one(alloc: Global) -> Result<Group<'static>, AllocError> {
    title_copy()?
        .element(alloc, Element::from(Padding))?
        .element(Element::from(Origin::path("b.rs")))
}

/// The pair, its elements given by kind.
fn pair_by_kind(alloc: Global) -> Result<Group<'static>, AllocError> {
    HELP.secondary_title("t")
        .padding(alloc)?
        .origin(Origin::path("b.rs"))
}

/// Whether a group shows itself so.
fn shows(alloc: Global, group: &Group<'_>, shown: &str) -> Result<bool, AllocError> {
    Ok(format!(in alloc; "{group:?}")?.as_str() == shown)
}

/// Whether a report of a group that was made for this is shown so.
fn is_made(alloc: Global, group: Group<'static>, shown: &str) -> Result<bool, AllocError> {
    shows(alloc, &group, shown)
}

/// A copy of a group that was made for this.
fn copy_of(group: Group<'static>) -> Result<Group<'static>, AllocError> {
    group.clone()
}

#[test]
fn makes_an_element_of_each_kind(rt: HostRuntime) -> Result<(), Fail> {
    let alloc = rt.alloc();
    assert!(rt; is_made(alloc, whole(alloc)?, WHOLE)?);
    assert!(rt; is_made(alloc, whole_by_kind(alloc)?, WHOLE)?);
    assert!(rt; is_made(alloc, copy_of(whole(alloc)?)?, WHOLE)?);
    Ok(())
}

#[test]
fn adds_elements_in_order(rt: HostRuntime) -> Result<(), Fail> {
    let alloc = rt.alloc();
    assert!(rt; is_made(alloc, pair(alloc)?, PAIR)?);
    assert!(rt; is_made(alloc, pair_one_by_one(alloc)?, PAIR)?);
    assert!(rt; is_made(alloc, pair_by_kind(alloc)?, PAIR)?);
    Ok(())
}
