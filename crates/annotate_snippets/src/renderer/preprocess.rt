//! What is known of a report before any row is drawn: the lines of each source, the entries on them, the patched texts.
//! Each is found once, and the gutter's width needs them all.
ghost use Rattle.std.specs.Prelude.{◌≡◌, ◌∷◌, ◌++◌, [], All, IfOk, OnOk, filter, fold, map, max};
ghost use Rattle.std.specs.Option.{is_some};
ghost use Rattle.annotate_snippets.specs.ElementContext as spec;
ghost use Rattle.annotate_snippets.specs.ElementContext.{share_file};
ghost use Rattle.annotate_snippets.specs.Walk.{is_drawn};
ghost use Rattle.annotate_snippets.specs.Gutter.{depth_of_element};
ghost use Rattle.annotate_snippets.specs.Gutter as gutter;
ghost use Rattle.annotate_snippets.specs.PreparedReport.{IsCausePrepared, IsDrawable, IsElementDrawable};
ghost use Rattle.annotate_snippets.specs.PreparedReport.{IsElementPrepared};
ghost use Rattle.annotate_snippets.specs.PreparedReport.{IsGroupDrawable, IsGroupPrepared, element_of};
ghost use Rattle.snippet_style.specs.Bounds.{IsCount};

use crate::renderer::paths::is_for_same_file;
use snippet_model::snippet::{
    Annotation, Element, Group, Message, Origin, Padding, Patch, Snippet,
};
use snippet_parts::{AnnotatedLineInfo, SourceMap, map_of};
use snippet_suggest::{PreparedSuggestion, prepare_suggestion};
use std::alloc::{AllocError, Global};

/// A group that is prepared.
#[derive(Drop)]
pub struct PreparedGroup<'a> {
    /// The group.
    pub group: &'a Group<'a>,
    /// Its elements that are drawn, in order.
    pub elements: Vec<PreparedElement<'a>>,
}

/// An element that is prepared.
#[derive(Drop)]
pub enum PreparedElement<'a> {
    /// A trusted text.
    Message(&'a Message<'a>),
    /// Source with annotations.
    Cause(PreparedCause<'a>),
    /// Source with a suggested edit.
    Suggestion(PreparedSuggestion<'a>),
    /// A place without source.
    Origin(&'a Origin<'a>),
    /// An empty row.
    Padding(&'a Padding),
}

/// An annotated snippet that is prepared.
#[derive(Drop)]
pub struct PreparedCause<'a> {
    /// The snippet.
    pub snippet: &'a Snippet<'a, Annotation<'a>>,
    /// The lines of its source.
    pub map: SourceMap<'a>,
    /// How many bars stand side by side left of its lines.
    pub depth: usize,
    /// Its lines that are kept, each with its entries.
    pub kept: Vec<AnnotatedLineInfo<'a>>,
}

impl<'a> PreparedElement<'a> {
    /// Whether it is of a file: an annotated snippet, with a path or without, or an origin.
    pub fn has_file(&self) -> bool
        ensures value { result ≡ is_some (spec.file_of_element (element_of self.now)) }
    {
        matches!(self, PreparedElement::Cause(_) | PreparedElement::Origin(_))
    }

    /// Whether this and another element are suggestions for one file.
    pub fn shares_file(&self, other: &PreparedElement<'_>) -> bool
        ensures value { result ≡ share_file (element_of self.now) (element_of other.now) }
    {
        match (self, other) {
            (PreparedElement::Suggestion(s), PreparedElement::Suggestion(t)) => {
                is_for_same_file(s.snippet, t.snippet)
            }
            _ => false,
        }
    }

    /// How many bars stand side by side left of its lines.
    fn depth(&self) -> usize
        requires prepared { IsElementPrepared self.now }
        ensures value { result ≡ gutter.depth_of_element (element_of self.now) }
        ensures small { IsCount result }
    {
        match self {
            PreparedElement::Cause(cause) => cause.depth,
            _ => 0,
        }
    }
}

impl<'a> PreparedGroup<'a> {
    /// How many bars stand side by side left of the lines of its elements.
    pub fn depth(&self) -> usize
        requires prepared { IsGroupPrepared self.now }
        ensures value { result ≡ fold (λ depth e. max (depth_of_element e) depth) 0 self.now.group.now.elements.items }
        ensures small { IsCount result }
    {
        let mut depth = 0;
        for element in &self.elements {
            depth = element.depth().max(depth);
        }
        depth
    }
}

/// Prepares the groups of a report, in order.
///
/// # Errors
///
/// There is no memory for what is found.
pub fn prepare_groups<'a>(
    alloc: Global,
    groups: &'a [Group<'a>],
) -> Result<Vec<PreparedGroup<'a>>, AllocError>
    requires drawable { All IsGroupDrawable groups.now }
    ensures groups { IfOk result (λ ps. map (λ p. p.group.now) ps.items ≡ groups.now) }
    ensures prepared { IfOk result (λ ps. All IsGroupPrepared ps.items) }
{
    let mut prepared = Vec::with_capacity(alloc, groups.len())?;
    for group in groups {
        prepared.push(prepare_group(alloc, group)?)?;
    }
    Ok(prepared)
}

/// Prepares a group.
///
/// # Errors
///
/// There is no memory for what is found.
pub fn prepare_group<'a>(
    alloc: Global,
    group: &'a Group<'a>,
) -> Result<PreparedGroup<'a>, AllocError>
    requires drawable { IsGroupDrawable group.now }
    ensures group { IfOk result (λ p. p.group.now ≡ group.now) }
    ensures prepared { IfOk result IsGroupPrepared }
{
    let elements = prepare_elements(alloc, &group.elements)?;
    Ok(PreparedGroup { group, elements })
}

/// Prepares the elements that are drawn, in order.
fn prepare_elements<'a>(
    alloc: Global,
    elements: &'a [Element<'a>],
) -> Result<Vec<PreparedElement<'a>>, AllocError>
    requires drawable { All IsElementDrawable elements.now }
    ensures elements { IfOk result (λ ps. map element_of ps.items ≡ filter is_drawn elements.now) }
    ensures prepared { IfOk result (λ ps. All IsElementPrepared ps.items) }
{
    let mut prepared = Vec::with_capacity(alloc, elements.len())?;
    for element in elements {
        add_prepared(alloc, &mut prepared, element)?;
    }
    Ok(prepared)
}

/// Adds what is prepared of an element, if it is drawn: each kind where it is made, since one has much to move.
fn add_prepared<'a>(
    alloc: Global,
    prepared: &mut Vec<PreparedElement<'a>>,
    element: &'a Element<'a>,
) -> Result<(), AllocError>
    requires drawable { IsElementDrawable element.now }
    ensures added { OnOk result (map element_of prepared.new.items ≡ map element_of prepared.old.items
        ++ filter is_drawn (element.now ∷ [])) }
    ensures prepared { OnOk result (All IsElementPrepared prepared.old.items
        → All IsElementPrepared prepared.new.items) }
{
    match element {
        Element::Message(message) => prepared.push(PreparedElement::Message(message))?,
        Element::Cause(snippet) => {
            let cause = prepare_cause(alloc, snippet)?;
            prepared.push(PreparedElement::Cause(cause))?;
        }
        Element::Suggestion(snippet) => {
            if let Some(suggestion) = prepare_suggestion(alloc, snippet)? {
                prepared.push(PreparedElement::Suggestion(suggestion))?;
            }
        }
        Element::Origin(origin) => prepared.push(PreparedElement::Origin(origin))?,
        Element::Padding(padding) => prepared.push(PreparedElement::Padding(padding))?,
    }
    Ok(())
}

/// Prepares an annotated snippet.
fn prepare_cause<'a>(
    alloc: Global,
    snippet: &'a Snippet<'a, Annotation<'a>>,
) -> Result<PreparedCause<'a>, AllocError>
    requires drawable { IsDrawable snippet.now }
    ensures snippet { IfOk result (λ c. c.snippet.now ≡ snippet.now) }
    ensures prepared { IfOk result IsCausePrepared }
{
    let map = map_of(alloc, snippet)?;
    let (depth, kept) = map.annotated_lines(&snippet.markers, snippet.fold)?;
    Ok(PreparedCause {
        snippet,
        map,
        depth,
        kept,
    })
}
