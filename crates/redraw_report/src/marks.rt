//! What is drawn of places: each source with those that are in it.
ghost use Rattle.std.specs.Prelude.{◌≡◌, ◌++◌, List, [], ◌∷◌, IfOk, OnOk, map, string_bytes, true};
ghost use Rattle.std.specs.Cow.{cow_str_bytes};
ghost use Rattle.std.specs.List.{flat_map};
ghost use Rattle.redraw_report.specs.Report as spec;
ghost use Rattle.redraw_report.specs.Report.{content_parts, label_rows, file_lines, marked_of, marked_parts, said};
ghost use Rattle.redraw_report.specs.Report.{said_of_mark, source_parts, with_shown, with_source, with_sources};
ghost use Rattle.redraw_report.specs.SourceKey.{AreGroupsOf, AreKeysOf, places_in};
ghost use Rattle.redraw_report.specs.View.{Gap, Marks, marked_view, part_view};
ghost use Rattle.redraw_report.specs.declared.diagnostic.Severity.TheVariants.{Note};
ghost use Rattle.redraw_report.specs.declared.finding.MarkedSpan.{MarkedSpan};

use crate::diagnostic::Severity;
use crate::finding::{Content, MarkedSpan, Shown, is_same};
use crate::source_key::{SourceKey, key_of};
use crate::titles::message_of;
use snippet_model::{Annotation, AnnotationKind, Element, Origin, Padding, Snippet, SourceText};
use snippet_text::CowStr;
use std::alloc::{AllocError, Global};
use std::collections::{BTreeMap, BTreeSet};

/// Adds a source, if it isn't there yet; these keys are those of the sources that are.
fn add_shown<'a>(
    order: &mut Vec<Shown<'a>>,
    keys: &mut BTreeSet<SourceKey<'a>>,
    source: Shown<'a>,
) -> Result<(), AllocError>
    requires keyed { AreKeysOf keys.old order.old.items }
    ensures order { OnOk result (order.new.items ≡ with_shown order.old.items source.entry) }
    ensures keyed { OnOk result (AreKeysOf keys.new order.new.items) }
{
    let is_new = keys.insert(key_of(&source))?;
    if is_new {
        order.push(source)?;
    }
    Ok(())
}

/// Adds the source of a place, but of a place that isn't primary only where all are taken.
fn add_source_of<'a>(
    order: &mut Vec<Shown<'a>>,
    keys: &mut BTreeSet<SourceKey<'a>>,
    mark: &MarkedSpan<'a>,
    primary: bool,
) -> Result<(), AllocError>
    requires keyed { AreKeysOf keys.old order.old.items }
    ensures order { OnOk result (order.new.items ≡ with_source primary order.old.items mark.now) }
    ensures keyed { OnOk result (AreKeysOf keys.new order.new.items) }
{
    if primary && !mark.is_primary {
        return Ok(());
    }
    add_shown(order, keys, mark.source)
}

/// Adds the sources of some places, or only of the primary ones.
fn add_sources_of<'a>(
    order: &mut Vec<Shown<'a>>,
    keys: &mut BTreeSet<SourceKey<'a>>,
    marks: &[MarkedSpan<'a>],
    primary: bool,
) -> Result<(), AllocError>
    requires keyed { AreKeysOf keys.old order.old.items }
    ensures order { OnOk result (order.new.items ≡ with_sources primary order.old.items marks.now) }
    ensures keyed { OnOk result (AreKeysOf keys.new order.new.items) }
{
    for mark in marks {
        add_source_of(order, keys, mark, primary)?;
    }
    Ok(())
}

/// The sources of some places, each once: those of primary places first, then the others as they come.
fn sources_of<'a>(alloc: Global, marks: &[MarkedSpan<'a>]) -> Result<Vec<Shown<'a>>, AllocError>
    ensures value { IfOk result (λ order. order.items ≡ spec.sources_of marks.now) }
{
    let mut order = Vec::new(alloc);
    let mut keys = BTreeSet::new(alloc);
    add_sources_of(&mut order, &mut keys, marks, true)?;
    add_sources_of(&mut order, &mut keys, marks, false)?;
    Ok(order)
}

/// How a place is marked.
fn kind_of(mark: &MarkedSpan<'_>) -> AnnotationKind
    ensures value { result ≡ (marked_of mark.now).kind }
{
    if mark.is_primary {
        AnnotationKind::Primary
    } else {
        AnnotationKind::Context
    }
}

/// The annotation of a place.
fn annotation_of<'a>(mark: &MarkedSpan<'a>) -> Annotation<'a>
    ensures value { marked_view result ≡ marked_of mark.now }
{
    Annotation {
        span: mark.start..mark.end,
        label: match mark.label {
            Some(label) => Some(CowStr::Borrowed(label)),
            None => None,
        },
        kind: kind_of(mark),
        highlight_source: false,
    }
}

/// Places by their sources.
type MarkGroups<'a> = BTreeMap<SourceKey<'a>, Vec<MarkedSpan<'a>>>;

/// Places that were found, or none.
fn found_or_none<'a>(alloc: Global, found: Option<Vec<MarkedSpan<'a>>>) -> Vec<MarkedSpan<'a>>
    ensures value { result.items ≡ places_in found.entry }
{
    match found {
        Some(within) => within,
        None => Vec::new(alloc),
    }
}

/// Puts a place to those of its source.
fn add_mark<'a>(
    alloc: Global,
    groups: &mut MarkGroups<'a>,
    mark: &MarkedSpan<'a>,
) -> Result<(), AllocError>
    ensures added { (marks : List MarkedSpan) → AreGroupsOf groups.old marks
        → OnOk result (AreGroupsOf groups.new (marks ++ mark.now ∷ [])) }
{
    let key = key_of(&mark.source);
    let found = groups.remove(&key);
    let mut within = found_or_none(alloc, found);
    within.push(*mark)?;
    groups.insert(key, within)?;
    Ok(())
}

/// Some places by their sources.
fn groups_of<'a>(alloc: Global, marks: &[MarkedSpan<'a>]) -> Result<MarkGroups<'a>, AllocError>
    ensures value { IfOk result (λ groups. AreGroupsOf groups marks.now) }
{
    let mut groups = BTreeMap::new(alloc);
    for mark in marks {
        add_mark(alloc, &mut groups, mark)?;
    }
    Ok(groups)
}

/// The annotations of some places.
fn annotations_of<'a>(
    alloc: Global,
    marks: &[MarkedSpan<'a>],
) -> Result<Vec<Annotation<'a>>, AllocError>
    ensures value { IfOk result (λ annotations. map marked_view annotations.items ≡ map marked_of marks.now) }
{
    let mut annotations = Vec::new(alloc);
    for mark in marks {
        annotations.push(annotation_of(mark))?;
    }
    Ok(annotations)
}

/// Adds what is said of a place, below an empty row.
fn add_label_rows<'a>(
    alloc: Global,
    elements: &mut Vec<Element<'a>>,
    label: Option<&'a str>,
) -> Result<(), AllocError>
    ensures added { OnOk result (map part_view elements.new.items ≡ map part_view elements.old.items
        ++ label_rows label.entry) }
{
    match label {
        Some(label) => add_row(alloc, elements, label),
        None => Ok(()),
    }
}

/// Adds an empty row, and a note below it.
fn add_row<'a>(
    alloc: Global,
    elements: &mut Vec<Element<'a>>,
    text: &'a str,
) -> Result<(), AllocError>
    ensures added { OnOk result (map part_view elements.new.items
        ≡ map part_view elements.old.items ++ Gap ∷ said Note text.now ∷ []) }
{
    elements.push(Element::Padding(Padding))?;
    add_note(alloc, elements, text)
}

/// Adds a note.
fn add_note<'a>(
    alloc: Global,
    elements: &mut Vec<Element<'a>>,
    text: &'a str,
) -> Result<(), AllocError>
    ensures added { OnOk result (map part_view elements.new.items ≡ map part_view elements.old.items
        ++ said Note text.now ∷ []) }
{
    let message = message_of(alloc, Severity::Note, text)?;
    elements.push(message)?;
    Ok(())
}

/// Adds what is said of each of some places.
fn add_labels<'a>(
    alloc: Global,
    elements: &mut Vec<Element<'a>>,
    marks: &[MarkedSpan<'a>],
) -> Result<(), AllocError>
    ensures added { OnOk result (map part_view elements.new.items
        ≡ map part_view elements.old.items ++ flat_map said_of_mark marks.now) }
{
    for mark in marks {
        add_label_rows(alloc, elements, mark.label)?;
    }
    Ok(())
}

/// Adds a source with places that are in it.
fn add_source<'a>(
    alloc: Global,
    elements: &mut Vec<Element<'a>>,
    source: &Shown<'a>,
    within: &[MarkedSpan<'a>],
) -> Result<(), AllocError>
    ensures added { OnOk result (map part_view elements.new.items
        ≡ map part_view elements.old.items ++ content_parts within.now source.now source.now.content) }
{
    match source.content {
        Content::Lines { text, first_line } => {
            add_marked(alloc, elements, source, text.source(), first_line, within)
        }
        Content::Nothing { line, column } => {
            elements.push(Element::Origin(Origin {
                path: CowStr::Borrowed(source.path),
                line,
                char_column: column,
            }))?;
            add_labels(alloc, elements, within)
        }
        Content::Blank { line, column } => {
            let text = SourceText::new(CowStr::Owned(blanks_before(alloc, column)?));
            add_marked(alloc, elements, source, text, line, within)
        }
    }
}

/// As many blanks as stand before a column.
fn blanks_before(alloc: Global, column: usize) -> Result<String, AllocError>
    ensures value { IfOk result (λ text. string_bytes text ≡ spec.spaces_before column) }
{
    " ".repeat(alloc, column.saturating_sub(1))
}

/// Adds lines of a source, with the marks of places that are in it.
fn add_marked<'a>(
    alloc: Global,
    elements: &mut Vec<Element<'a>>,
    source: &Shown<'a>,
    text: SourceText<'a>,
    first_line: usize,
    within: &[MarkedSpan<'a>],
) -> Result<(), AllocError>
    ensures added { OnOk result (map part_view elements.new.items ≡ map part_view elements.old.items
        ++ Marks (file_lines source.now.path.now (cow_str_bytes text.entry.text) first_line true)
        (map marked_of within.now) ∷ []) }
{
    let markers = annotations_of(alloc, within)?;
    elements.push(Element::Cause(Snippet {
        path: Some(CowStr::Borrowed(source.path)),
        line_start: first_line,
        source: text,
        markers,
        line_numbering: true,
        fold: true,
    }))?;
    Ok(())
}

/// Adds a source with those of some places that are in it, by their groups.
fn add_group<'a>(
    alloc: Global,
    elements: &mut Vec<Element<'a>>,
    source: &Shown<'a>,
    groups: &MarkGroups<'a>,
    marks: &[MarkedSpan<'a>],
) -> Result<(), AllocError>
    requires grouped { AreGroupsOf groups.now marks.now }
    ensures added { OnOk result (map part_view elements.new.items
        ≡ map part_view elements.old.items ++ source_parts marks.now source.now) }
{
    let key = key_of(source);
    match groups.get(&key) {
        Some(within) => add_source(alloc, elements, source, within.as_slice()),
        None => add_source(alloc, elements, source, &marks[..0]),
    }
}

/// Adds some sources in their order, each with those of some places that are in it.
fn add_each_source<'a>(
    alloc: Global,
    elements: &mut Vec<Element<'a>>,
    order: &[Shown<'a>],
    groups: &MarkGroups<'a>,
    marks: &[MarkedSpan<'a>],
) -> Result<(), AllocError>
    requires grouped { AreGroupsOf groups.now marks.now }
    ensures added { OnOk result (map part_view elements.new.items
        ≡ map part_view elements.old.items ++ flat_map (source_parts marks.now) order.now) }
{
    for source in order {
        add_group(alloc, elements, source, groups, marks)?;
    }
    Ok(())
}

/// Those of some places that are in this source.
fn marks_in<'a>(
    alloc: Global,
    source: &Shown<'a>,
    marks: &[MarkedSpan<'a>],
) -> Result<Vec<MarkedSpan<'a>>, AllocError>
    ensures value { IfOk result (λ within. within.items ≡ spec.marks_in source.now marks.now) }
{
    let mut within = Vec::new(alloc);
    for mark in marks {
        if is_same(&mark.source, source) {
            within.push(*mark)?;
        }
    }
    Ok(within)
}

/// Does what `add_each_source` does, where each of some places is compared with each of the sources.
fn add_few_sources<'a>(
    alloc: Global,
    elements: &mut Vec<Element<'a>>,
    order: &[Shown<'a>],
    marks: &[MarkedSpan<'a>],
) -> Result<(), AllocError>
    ensures added { OnOk result (map part_view elements.new.items
        ≡ map part_view elements.old.items ++ flat_map (source_parts marks.now) order.now) }
{
    for source in order {
        let within = marks_in(alloc, source, marks)?;
        add_source(alloc, elements, source, &within)?;
    }
    Ok(())
}

/// How many sources are few.
const FEW: usize = 4;

/// Adds what is drawn of some places: each source with those that are in it. Sources are compared only where there are
/// several places, and then as seldom as may be: a file may be long. Where they are few each place is compared with
/// each, and else the places are put in groups first.
fn add_marks<'a>(
    alloc: Global,
    elements: &mut Vec<Element<'a>>,
    marks: &[MarkedSpan<'a>],
) -> Result<(), AllocError>
    ensures added { OnOk result (map part_view elements.new.items
        ≡ map part_view elements.old.items ++ marked_parts marks.now) }
{
    match marks {
        [mark] => add_source(alloc, elements, &mark.source, marks),
        _ => {
            let order = sources_of(alloc, marks)?;
            if order.len() <= FEW {
                return add_few_sources(alloc, elements, &order, marks);
            }
            let groups = groups_of(alloc, marks)?;
            add_each_source(alloc, elements, &order, &groups, marks)
        }
    }
}

/// What is drawn of some places.
pub fn marked_elements<'a>(
    alloc: Global,
    marks: &[MarkedSpan<'a>],
) -> Result<Vec<Element<'a>>, AllocError>
    ensures value { IfOk result (λ elements. map part_view elements.items ≡ marked_parts marks.now) }
{
    let mut elements = Vec::new(alloc);
    add_marks(alloc, &mut elements, marks)?;
    Ok(elements)
}
