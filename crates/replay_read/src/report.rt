//! How groups are read: which fields there are, which of them may be missing, and what they then are.

ghost use Rattle.std.specs.Prelude.{◌≡◌, ℕ, List, Some, true, All, IfOk, IfSome, codes, option_and_then, option_map};
ghost use Rattle.std.specs.Cow.{cow_str_bytes};
ghost use Rattle.snippet_model.specs.Fits.{GroupFits, IdFits, TitleFits, LevelFits, MessageFits, ElementFits};
ghost use Rattle.snippet_model.specs.Fits.{AnnotationFits, PatchFits, SnippetFits, TextFits};
ghost use Rattle.serde_json.specs.Find.{as_bool, as_str, get};
ghost use Rattle.serde_json.specs.View.{view};
ghost use Rattle.json_lines.specs.Field.{OrNull, SaysAt, as_whole, given_or, lent_text};
ghost use Rattle.replay_read.specs.Report.{AreMarkersOf, IsAnnotationOf, IsElementOf, IsGroupOf, IsLevelOf};
ghost use Rattle.replay_read.specs.Report.{IsMessageOf, IsNameOf};
ghost use Rattle.replay_read.specs.Report.{IsOriginOf, IsPatchOf, IsSnippetOf, IsTitleOf};
ghost use Rattle.replay_read.specs.Kinds.{kind_name, mark_name};

use crate::list::{ReadMarker, ReadPart, markers_of, parts_at};
use crate::ruler::Ruler;
use crate::shape::{FormatValue, Shape, has_shape};
use crate::source::{NamedSource, SnippetSource, source_in};
use crate::span::{SpanUnit, places_in, span_of, unit_in};
use crate::told::are_many;
use json_lines::expectation::Expectation;
use json_lines::fault::Fault;
use json_lines::node::Node;
use json_lines::scalars::lent;
use snippet_model::level::LevelName;
use snippet_model::{
    Annotation, AnnotationKind, Element, Group, Id, Level, Message, Origin, Padding, Patch,
    Snippet, Title,
};
use snippet_style::LevelInner;
use snippet_text::CowStr;

impl<'v> ReadPart<'v> for Group<'v> {
    ghost says = { IsGroupOf };

    ghost fits = { GroupFits };

    fn read(node: &Node<'v, '_>, sources: &'v [NamedSource<'_>]) -> Result<Self, Fault> {
        has_shape(node, Shape::Group)?;
        let title = title_or_null(&node.needed("title", FormatValue::ObjectOrNull)?)?;
        let elements = parts_at(node, "elements", sources)?;
        let level = match &title {
            Some(title) => title.level.kind,
            None => level_in(node)?.kind,
        };
        Ok(Group {
            level,
            title,
            elements,
        })
    }
}

/// The title; none where `null` stands there.
fn title_or_null<'v>(node: &Node<'v, '_>) -> Result<Option<Title<'v>>, Fault>
    ensures value { IfOk result (OrNull IsTitleOf (view node.now.value.now)) }
    ensures fits { IfOk result (λ title. IfSome title TitleFits) }
{
    if node.value.is_null() {
        return Ok(None);
    }
    Ok(Some(title_of(node)?))
}

/// The title that is described.
fn title_of<'v>(node: &Node<'v, '_>) -> Result<Title<'v>, Fault>
    ensures value { IfOk result (IsTitleOf (view node.now.value.now)) }
    ensures fits { IfOk result TitleFits }
{
    has_shape(node, Shape::Title)?;
    let text = node.text("text")?;
    let primary = node.flag("primary")?;
    let id = node.optional_text("id")?;
    let url = node.optional_text("url")?;
    let level = level_in(node)?;
    Ok(Title {
        level,
        text: CowStr::Borrowed(text),
        allows_styling: !primary,
        id: id_of(id, url),
    })
}

/// The identifier of a title and its address; none where both are missing.
fn id_of<'v>(id: Option<&'v str>, url: Option<&'v str>) -> Option<Id<'v>>
    requires id_fits { IfSome id (λ text. TextFits text.now) }
    requires url_fits { IfSome url (λ text. TextFits text.now) }
    ensures id { option_map cow_str_bytes (option_and_then (λ id. id.id) result) ≡ lent_text id.entry }
    ensures url { option_map cow_str_bytes (option_and_then (λ id. id.url) result) ≡ lent_text url.entry }
    ensures fits { IfSome result IdFits }
{
    if id.is_none() && url.is_none() {
        return None;
    }
    Some(Id {
        id: lent(id),
        url: lent(url),
    })
}

/// The level in the field of that name.
fn level_in<'v>(node: &Node<'v, '_>) -> Result<Level<'v>, Fault>
    ensures value { IfOk result (SaysAt IsLevelOf (codes "level") (view node.now.value.now)) }
    ensures fits { IfOk result LevelFits }
{
    level_of(&node.needed("level", Expectation::Object)?)
}

/// The level that is described.
fn level_of<'v>(node: &Node<'v, '_>) -> Result<Level<'v>, Fault>
    ensures value { IfOk result (IsLevelOf (view node.now.value.now)) }
    ensures fits { IfOk result LevelFits }
{
    has_shape(node, Shape::Level)?;
    let kind = kind_of(&node.needed("kind", FormatValue::LevelKind)?)?;
    let name = name_in(node)?;
    Ok(Level { name, kind })
}

/// The name of a level: that of its kind where none is given, hidden where `null` stands there.
fn name_in<'v>(level: &Node<'v, '_>) -> Result<LevelName<'v>, Fault>
    ensures value { IfOk result (IsNameOf (get (codes "name") (view level.now.value.now))) }
    ensures fits { IfOk result (λ name. (kind : LevelInner) → LevelFits (record { name = name; kind = kind })) }
{
    match level.optional("name") {
        None => Ok(LevelName::Standard),
        Some(name) if name.value.is_null() => Ok(LevelName::Hidden),
        Some(name) => Ok(LevelName::Own(CowStr::Borrowed(name.as_text()?))),
    }
}

/// The kinds of levels.
const LEVEL_KINDS: [LevelInner; 5] = [
    LevelInner::Error,
    LevelInner::Warning,
    LevelInner::Info,
    LevelInner::Note,
    LevelInner::Help,
];

/// How a kind of level is written.
fn level_name(kind: LevelInner) -> &'static str
    ensures value { result.now ≡ kind_name kind }
{
    match kind {
        LevelInner::Error => "error",
        LevelInner::Warning => "warning",
        LevelInner::Info => "info",
        LevelInner::Note => "note",
        LevelInner::Help => "help",
    }
}

/// The kind of level of this name.
fn kind_of(node: &Node<'_, '_>) -> Result<LevelInner, Fault>
    ensures value { IfOk result (λ kind. as_str (view node.now.value.now) ≡ Some (kind_name kind)) }
{
    let name = node.value.as_str();
    for kind in &LEVEL_KINDS {
        if name == Some(level_name(*kind)) {
            return Ok(*kind);
        }
    }
    Err(node.unexpected(FormatValue::LevelKind))
}

impl<'v> ReadPart<'v> for Element<'v> {
    ghost says = { IsElementOf };

    ghost fits = { ElementFits };

    fn read(node: &Node<'v, '_>, sources: &'v [NamedSource<'_>]) -> Result<Self, Fault> {
        has_shape(node, Shape::Element)?;
        if let Some(message) = node.only_field("message") {
            return Ok(Element::Message(message_of(&message)?));
        }
        if let Some(cause) = node.only_field("cause") {
            let snippet = snippet_of(&cause, Shape::Cause, "annotations", sources)?;
            return Ok(Element::Cause(snippet));
        }
        if let Some(suggestion) = node.only_field("suggestion") {
            let snippet = snippet_of(&suggestion, Shape::Suggestion, "patches", sources)?;
            return Ok(Element::Suggestion(snippet));
        }
        bare_element(node)
    }
}

/// The element that is neither a message nor a snippet.
fn bare_element<'v>(node: &Node<'v, '_>) -> Result<Element<'v>, Fault>
    ensures value { (sources : List (List ℕ)) → IfOk result (IsElementOf sources (view node.now.value.now)) }
    ensures fits { IfOk result ElementFits }
{
    if let Some(origin) = node.only_field("origin") {
        return Ok(Element::Origin(origin_of(&origin)?));
    }
    if let Some(padding) = node.only_field("padding") {
        has_shape(&padding, Shape::Padding)?;
        return Ok(Element::Padding(Padding));
    }
    Err(node.unexpected(FormatValue::Element))
}

/// The message that is described.
fn message_of<'v>(node: &Node<'v, '_>) -> Result<Message<'v>, Fault>
    ensures value { IfOk result (IsMessageOf (view node.now.value.now)) }
    ensures fits { IfOk result MessageFits }
{
    has_shape(node, Shape::Message)?;
    let text = node.text("text")?;
    let level = level_in(node)?;
    Ok(Message {
        level,
        text: CowStr::Borrowed(text),
    })
}

/// The snippet of this shape that is described, of a text or one of these sources, with the markers in the field of
/// this name.
fn snippet_of<'v, T: ReadMarker<'v> + Drop>(
    node: &Node<'v, '_>,
    shape: Shape,
    markers: &str,
    sources: &'v [NamedSource<'_>],
) -> Result<Snippet<'v, T>, Fault>
    ensures value { IfOk result (IsSnippetOf T.says shape markers.now sources.now (view node.now.value.now)) }
    ensures fits { IfOk result (SnippetFits T.fits) }
{
    has_shape(node, shape)?;
    let source = source_in(node, sources)?;
    let path = node.optional_text("path")?;
    let (line_start, line_numbering, fold) = lines_of(node)?;
    let markers = marked_in(node, markers, &source)?;
    Ok(Snippet {
        source: source.text,
        path: lent(path),
        line_start,
        line_numbering,
        fold,
        markers,
    })
}

/// The markers of a snippet, in the field of this name, by the source that they mark.
fn marked_in<'v, T: ReadMarker<'v> + Drop>(
    snippet: &Node<'v, '_>,
    name: &str,
    source: &SnippetSource<'_, '_>,
) -> Result<Vec<T>, Fault>
    ensures value { IfOk result (λ xs. AreMarkersOf T.says (cow_str_bytes source.now.text.text) name.now
        (view snippet.now.value.now) xs.items) }
    ensures fits { IfOk result (λ xs. All T.fits xs.items) }
{
    let unit = unit_in(snippet)?;
    let markers = snippet.needed(name, Expectation::List)?;
    match source.named {
        Some(named) => markers_of(&markers, named.ruler(unit)),
        None => {
            let many = has_many_places(&markers, unit);
            let ruler = Ruler::new(snippet.alloc, source.text.as_str(), unit, many)?;
            markers_of(&markers, &ruler)
        }
    }
}

/// Whether so many places are looked for by markers in this list that it is worth measuring their source first.
fn has_many_places(list: &Node<'_, '_>, unit: Option<SpanUnit>) -> bool {
    match list.value.as_array() {
        Some(markers) => are_many(places_in(markers, unit)),
        None => false,
    }
}

/// How the lines of a snippet are shown: the number of the first, whether they have numbers, and whether some are left
/// out.
fn lines_of(snippet: &Node<'_, '_>) -> Result<(usize, bool, bool), Fault>
    ensures line_start { IfOk result (λ lines.
        given_or as_whole 1 (codes "line_start") (view snippet.now.value.now) ≡ Some lines.0) }
    ensures line_numbering { IfOk result (λ lines.
        given_or as_bool true (codes "line_numbering") (view snippet.now.value.now) ≡ Some lines.1) }
    ensures fold { IfOk result (λ lines. given_or as_bool true (codes "fold") (view snippet.now.value.now)
        ≡ Some lines.2) }
{
    let line_start = snippet.number_or("line_start", 1)?;
    let line_numbering = snippet.flag_or("line_numbering", true)?;
    let fold = snippet.flag_or("fold", true)?;
    Ok((line_start, line_numbering, fold))
}

impl<'v> ReadMarker<'v> for Annotation<'v> {
    ghost says = { IsAnnotationOf };

    ghost fits = { AnnotationFits };

    fn read(node: &Node<'v, '_>, ruler: &Ruler<'_>) -> Result<Self, Fault> {
        has_shape(node, Shape::Annotation)?;
        let kind = mark_of(&node.needed("kind", FormatValue::AnnotationKind)?)?;
        let span = span_of(node, ruler)?;
        let label = node.optional_text("label")?;
        let highlight_source = node.flag_or("highlight_source", false)?;
        Ok(Annotation {
            span,
            label: lent(label),
            kind,
            highlight_source,
        })
    }
}

/// The kind of annotation of this name.
fn mark_of(node: &Node<'_, '_>) -> Result<AnnotationKind, Fault>
    ensures value { IfOk result (λ kind. as_str (view node.now.value.now) ≡ Some (mark_name kind)) }
{
    match node.value.as_str() {
        Some("primary") => Ok(AnnotationKind::Primary),
        Some("context") => Ok(AnnotationKind::Context),
        Some("visible") => Ok(AnnotationKind::Visible),
        _ => Err(node.unexpected(FormatValue::AnnotationKind)),
    }
}

impl<'v> ReadMarker<'v> for Patch<'v> {
    ghost says = { IsPatchOf };

    ghost fits = { PatchFits };

    fn read(node: &Node<'v, '_>, ruler: &Ruler<'_>) -> Result<Self, Fault> {
        has_shape(node, Shape::Patch)?;
        let span = span_of(node, ruler)?;
        let text = node.text("text")?;
        Ok(Patch {
            span,
            replacement: CowStr::Borrowed(text),
        })
    }
}

/// The origin that is described.
fn origin_of<'v>(node: &Node<'v, '_>) -> Result<Origin<'v>, Fault>
    ensures value { IfOk result (IsOriginOf (view node.now.value.now)) }
    ensures fits { IfOk result (λ origin. TextFits (cow_str_bytes origin.path)) }
{
    has_shape(node, Shape::Origin)?;
    let path = node.text("path")?;
    let line = node.optional_number("line")?;
    let char_column = node.optional_number("column")?;
    Ok(Origin {
        path: CowStr::Borrowed(path),
        line,
        char_column,
    })
}
