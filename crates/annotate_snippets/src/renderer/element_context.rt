//! What stands around an element, as far as its rows depend on it.
ghost use Rattle.std.specs.Prelude.{◌≡◌, ℕ, ◌+◌, ◌∷◌, List, Some, map};
ghost use Rattle.std.specs.List.{slice_get};
ghost use Rattle.std.specs.Option.{option_copied, option_map, option_to_list};
ghost use Rattle.snippet_model.specs.declared.snippet.Element.{Element};
ghost use Rattle.annotate_snippets.specs.ElementContext as spec;
ghost use Rattle.annotate_snippets.specs.ElementContext.{context_at, is_end, is_before_message, position_of_group};
ghost use Rattle.annotate_snippets.specs.Walk.{IsWalkAt, is_first_group};
ghost use Rattle.annotate_snippets.specs.PreparedReport.{element_of};

use crate::renderer::paths::{is_same_file, path_of};
use crate::renderer::preprocess::PreparedElement;
use snippet_grid::Layout;
use snippet_suggest::SuggestionStart;

/// Where a group stands in its report.
#[derive(Clone, Copy, Debug, PartialEq, Eq)]
pub enum GroupPosition {
    /// It is the only one.
    Only,
    /// It is the first of several.
    First,
    /// It stands after another.
    Later,
}

impl GroupPosition {
    /// The place of the group of this number, from 0, among this many groups.
    pub fn at(count: usize, index: usize) -> GroupPosition
        ensures value { result ≡ position_of_group count index }
    {
        if count == 1 {
            GroupPosition::Only
        } else if index == 0 {
            GroupPosition::First
        } else {
            GroupPosition::Later
        }
    }

    /// Whether no group stands before it.
    pub fn is_first(self) -> bool
        ensures value { result ≡ is_first_group self }
    {
        self != GroupPosition::Later
    }

    /// Whether no group stands before it, and one after it.
    pub fn is_first_of_several(self) -> bool
        ensures value { result ≡ spec.is_first_of_several self }
    {
        self == GroupPosition::First
    }
}

/// What the rows of a group depend on beside the group.
#[derive(Clone, Copy)]
pub struct GroupContext<'r> {
    /// Where the parts of its rows stand.
    pub layout: Layout,
    /// Where it stands in its report.
    pub place: GroupPosition,
    /// The file that its suggestions are for where they name no other.
    pub file: Option<&'r str>,
}

/// What follows in a group.
#[derive(Clone, Copy, Debug, PartialEq, Eq)]
pub enum Next {
    /// No element.
    Nothing,
    /// A message.
    Message,
    /// Another element.
    Other,
}

impl Next {
    /// Whether no element follows.
    pub fn is_nothing(self) -> bool
        ensures value { result ≡ is_end self }
    {
        self == Next::Nothing
    }

    /// Whether a message follows.
    pub fn is_message(self) -> bool
        ensures value { result ≡ is_before_message self }
    {
        self == Next::Message
    }
}

/// What stands around an element.
#[derive(Clone, Copy)]
pub struct ElementContext {
    /// Where its group stands.
    pub place: GroupPosition,
    /// Whether no element of the group stands before it.
    pub first: bool,
    /// Whether no element before it is of a file: if it is of one itself, that is the group's primary file.
    pub primary: bool,
    /// How it begins, if it is a suggestion.
    pub start: SuggestionStart,
    /// Whether a suggestion for the same file begins in its last row.
    pub shared: bool,
    /// What follows it.
    pub next: Next,
}

impl ElementContext {
    /// Whether the group's window closes with the last row of its lines.
    pub fn closes(self) -> bool
        ensures value { result ≡ spec.closes_with self }
    {
        self.next.is_nothing() && !self.place.is_first_of_several()
    }

    /// Whether the group's window closes after its rows.
    pub fn closes_after(self) -> bool
        ensures value { result ≡ spec.closes_after self }
    {
        self.next.is_nothing() && self.place.is_first_of_several()
    }
}

/// What follows, given the elements after it.
pub fn next_of(elements: &[PreparedElement<'_>]) -> Next
    ensures value { result ≡ spec.next_of (map element_of elements.now) }
{
    following(elements.first())
}

/// A walk over a group's elements, in order: what the rows of the element that it has come to depend on before it.
#[derive(Clone, Copy)]
pub struct ContextWalk {
    /// Whether no element of the group stands before it.
    pub first: bool,
    /// Whether no element before it is of a file.
    pub primary: bool,
    /// Whether the one right before it shares its last row with it.
    pub shares: bool,
}

impl ContextWalk {
    /// A walk that has come to the first element.
    pub fn new() -> ContextWalk
        ensures begun { (es : List Element) → IsWalkAt es 0 result }
    {
        ContextWalk {
            first: true,
            primary: true,
            shares: false,
        }
    }

    /// What stands around the element that the walk has come to, in a group, before the one after it. The walk goes on
    /// to that.
    #[inline(always)]
    pub fn pass(
        &mut self,
        group: &GroupContext<'_>,
        element: &PreparedElement<'_>,
        after: Option<&PreparedElement<'_>>,
    ) -> ElementContext
        ensures around { (es : List Element) (i : ℕ) → IsWalkAt es i self.old
            → slice_get es i ≡ Some (element_of element.now)
            → slice_get es (i + 1) ≡ option_map element_of (option_copied after.entry)
            → result ≡ context_at group.now.place (option_copied group.now.file) es i (element_of element.now) }
        ensures walked { (es : List Element) (i : ℕ) → IsWalkAt es i self.old
            → slice_get es i ≡ Some (element_of element.now)
            → slice_get es (i + 1) ≡ option_map element_of (option_copied after.entry)
            → IsWalkAt es (i + 1) self.new }
    {
        let shared = shares_row(element, after);
        let around = ElementContext {
            place: group.place,
            first: self.first,
            primary: self.primary,
            start: start_of(group.file, self.shares, element),
            shared,
            next: following(after),
        };
        self.first = false;
        self.primary = self.primary && !element.has_file();
        self.shares = shared;
        around
    }
}

/// What follows, given the element after it.
fn following(after: Option<&PreparedElement<'_>>) -> Next
    ensures value { result ≡ spec.next_of (option_to_list (option_map element_of (option_copied after.entry))) }
{
    match after {
        None => Next::Nothing,
        Some(PreparedElement::Message(_)) => Next::Message,
        Some(_) => Next::Other,
    }
}

/// Whether an element and the one after it are suggestions for one file.
fn shares_row(element: &PreparedElement<'_>, after: Option<&PreparedElement<'_>>) -> bool
    ensures value { result ≡ spec.first_two_share (element_of element.now
        ∷ option_to_list (option_map element_of (option_copied after.entry))) }
{
    match after {
        Some(after) => element.shares_file(after),
        None => false,
    }
}

/// How an element begins, if it is a suggestion, which may share its file with the one right before.
fn start_of(file: Option<&str>, shares: bool, element: &PreparedElement<'_>) -> SuggestionStart
    ensures value { result ≡ spec.suggestion_start (option_copied file.entry) shares (element_of element.now) }
{
    let PreparedElement::Suggestion(suggestion) = element else {
        return SuggestionStart::Opening;
    };
    let path = path_of(&suggestion.snippet.path);
    if shares {
        SuggestionStart::Next
    } else if path.is_some() && !is_same_file(file, path) {
        SuggestionStart::Path
    } else {
        SuggestionStart::Opening
    }
}
