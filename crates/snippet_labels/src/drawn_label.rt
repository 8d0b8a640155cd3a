//! A label as it is drawn.
ghost use Rattle.std.specs.Prelude.{◌≡◌, ◌+◌, ◌-◌, ◌∷◌, ◌==◌, ◌||◌, [], IfOk, chars, encode_utf8_all, false};
ghost use Rattle.std.specs.Prelude.{if◌then◌else◌, length, max, nat_lt, not};
ghost use Rattle.std.specs.Cow.{cow_str_bytes};
ghost use Rattle.std.specs.List.{list_any, slice_split};
ghost use Rattle.snippet_labels.specs.LabelSize.{HasSize, cut_pieces, lines_of};
ghost use Rattle.snippet_labels.specs.Pieces as spec;
ghost use Rattle.snippet_labels.specs.Pieces.{shows_any, text_pieces};
ghost use Rattle.snippet_style.specs.Bounds.{HasNext, IsCount};
ghost use Rattle.snippet_text.specs.Normalized.{norm};
ghost use Rattle.snippet_text.specs.Width.{char_width};

use crate::labelled::breaks_labels;
use snippet_grid::Layout;
use snippet_shown::wrapped;
use snippet_text::{char_width, normalized};
use std::alloc::{AllocError, Global};
use std::borrow::CowStr;
use std::marker::Model;

/// In fewer columns no label is broken.
const LEAST_ROOM: usize = 20;

/// A label as it is drawn: in pieces, each of which stands in a row of its own, as they stand after its mark and as
/// they hang below it.
#[derive(Debug, Drop)]
pub struct DrawnLabel<'a> {
    text: LabelText<'a>,
    /// How many bytes its longest piece has, whichever way it stands.
    width: usize,
}

/// The text of a label, normalised.
#[derive(Debug, Drop)]
enum LabelText<'a> {
    /// It has one piece, whichever way it stands: the text as it was given.
    Given(&'a str),
    /// It has one piece, a text that was made of the given one.
    Made(String),
    /// It is cut at its line feeds.
    Cut(Box<CutLabel<'a>>),
    /// There is none, and the mark goes past where labels are to end.
    Past,
}

/// A label that is cut, as it stands after its mark and as it hangs below it: the two have not the same room.
#[derive(Debug, Drop)]
struct CutLabel<'a> {
    beside: CutText<'a>,
    below: CutText<'a>,
    /// Whether nothing may stand right of it in a row.
    last: bool,
    /// Whether its mark goes past where labels are to end.
    past: bool,
}

/// A text of which each line is a piece.
#[derive(Debug, Drop)]
struct CutText<'a> {
    text: CowStr<'a>,
    size: LabelSize,
}

/// How large pieces are.
#[derive(Clone, Copy, Debug)]
struct LabelSize {
    /// How many bytes the longest has.
    width: usize,
    /// How many there are.
    height: usize,
}

impl<'a> Model for DrawnLabel<'a> {
    ghost use Rattle.snippet_labels.specs.LabelSize.{IsSized, pieces_in};
    ghost use Rattle.snippet_labels.specs.Pieces.{LabelPieces};

    ghost Value = { LabelPieces };

    ghost view = { λ label. pieces_in label.text };

    ghost invariant = { λ label. IsSized label.text label.width };
}

impl<'a> DrawnLabel<'a> {
    /// A label of one piece.
    pub(crate) fn whole(text: CowStr<'a>) -> DrawnLabel<'a>
        ensures beside { result.beside ≡ chars (cow_str_bytes text.entry) ∷ [] }
        ensures below { result.below ≡ chars (cow_str_bytes text.entry) ∷ [] }
        ensures last { result.last ≡ false }
        ensures past { result.past ≡ false }
    {
        let width = text.as_str().len();
        let text = match text {
            CowStr::Borrowed(text) => LabelText::Given(text),
            CowStr::Owned(text) => LabelText::Made(text),
        };
        DrawnLabel { text, width }
    }

    /// The label of an entry that has none, of which the mark may go past where labels are to end.
    pub(crate) fn none(past: bool) -> DrawnLabel<'a>
        ensures value { result ≡ record { beside = [] ∷ []; below = [] ∷ []; last = false; past = past } }
    {
        let text = if past {
            LabelText::Past
        } else {
            LabelText::Given("")
        };
        DrawnLabel { text, width: 0 }
    }

    /// A label of this text that is cut at its line feeds, and broken where it has no room at this cell, at which it
    /// begins after its mark, or at that one, at which it hangs below it. Its mark may go past where labels are to
    /// end.
    ///
    /// # Errors
    ///
    /// There is no memory for it.
    pub(crate) fn cut(
        alloc: Global,
        layout: Layout,
        beside: usize,
        below: usize,
        past: bool,
        text: &'a str,
    ) -> Result<DrawnLabel<'a>, AllocError>
        ensures beside { IfOk result (λ label. label.beside
            ≡ cut_pieces (layout.label_end - beside) (norm (chars text.now))) }
        ensures below { IfOk result (λ label. label.below
            ≡ cut_pieces (layout.label_end - below) (norm (chars text.now))) }
        ensures last { IfOk result (λ label. label.last ≡ spec.stands_last layout (norm (chars text.now))) }
        ensures past { IfOk result (λ label. label.past ≡ past) }
    {
        let beside = cut_text(alloc, layout.label_end.saturating_sub(beside), text)?;
        let below = cut_text(alloc, layout.label_end.saturating_sub(below), text)?;
        let width = beside.size.width.max(below.size.width);
        let last = stands_last(alloc, layout, text)?;
        let label = Box::new(
            alloc,
            CutLabel {
                beside,
                below,
                last,
                past,
            },
        )?;
        Ok(DrawnLabel {
            text: LabelText::Cut(label),
            width,
        })
    }

    /// Its text where it stands at this position, and whether that is cut at its line feeds.
    pub fn text(&self, position: usize) -> (&str, bool)
        ensures pieces { text_pieces result.1 (chars result.0.now) ≡ spec.label_at position self.now }
    {
        match &self.text {
            LabelText::Given(text) => (text, false),
            LabelText::Made(text) => (text.as_str(), false),
            LabelText::Cut(label) => (cut_at(position, label).text.as_str(), true),
            LabelText::Past => ("", false),
        }
    }

    /// How long it is: the bytes of its longest piece, whichever way it stands.
    pub fn width(&self) -> usize
        ensures value { result ≡ spec.label_width self.now }
        ensures few { IsCount result }
    {
        self.width
    }

    /// How many pieces it has where it stands at this position, at least one.
    pub fn height(&self, position: usize) -> usize
        ensures value { result ≡ length (spec.label_at position self.now) }
    {
        match &self.text {
            LabelText::Cut(label) => cut_at(position, label).size.height,
            _ => 1,
        }
    }

    /// Whether nothing may stand right of it in a row: what did would be in a later column than its cell.
    pub(crate) fn stands_last(&self) -> bool
        ensures value { result ≡ self.now.last }
    {
        match &self.text {
            LabelText::Cut(label) => label.last,
            _ => false,
        }
    }

    /// Whether its mark goes too far for a label left of it to stand in the row of the marks.
    pub(crate) fn has_mark_past(&self) -> bool
        ensures value { result ≡ self.now.past }
    {
        match &self.text {
            LabelText::Cut(label) => label.past,
            LabelText::Past => true,
            _ => false,
        }
    }

    /// Whether others may stand in its row on both sides: right of it, and left of its mark.
    pub(crate) fn shares_row(&self) -> bool
        ensures value { result ≡ not (self.now.last || self.now.past) }
    {
        match &self.text {
            LabelText::Cut(label) => !(label.last || label.past),
            LabelText::Past => false,
            _ => true,
        }
    }

    /// Whether it shows nothing.
    pub fn is_empty(&self) -> bool
        ensures value { result ≡ not (shows_any self.now.beside || shows_any self.now.below) }
    {
        self.width() == 0
    }
}

/// The one of the two that stands at this position.
fn cut_at<'a, 'b>(position: usize, label: &'b CutLabel<'a>) -> &'b CutText<'a>
    ensures value { result.now ≡ (if position == 0 then label.now.beside else label.now.below) }
{
    if position == 0 {
        &label.beside
    } else {
        &label.below
    }
}

/// Whether nothing may stand right of a label of this text in a row: labels are broken, and what is shown of it has a
/// character of more than one column.
///
/// # Errors
///
/// There is no memory for it.
fn stands_last(alloc: Global, layout: Layout, text: &str) -> Result<bool, AllocError>
    ensures value { IfOk result (λ last. last ≡ spec.stands_last layout (norm (chars text.now))) }
{
    if !breaks_labels(layout) {
        return Ok(false);
    }
    let text = normalized(alloc, text)?;
    Ok(has_wide(text.as_str()))
}

/// Whether a text has a character of more than one column.
fn has_wide(text: &str) -> bool
    ensures value { result ≡ list_any (λ c. nat_lt 1 (char_width c)) (chars text.now) }
{
    text.chars().any(|c| char_width(c) > 1)
}

/// A text, normalised and broken where its lines are wider than this room.
///
/// # Errors
///
/// There is no memory for it.
fn cut_text<'a>(alloc: Global, room: usize, text: &'a str) -> Result<CutText<'a>, AllocError>
    ensures lines { IfOk result (λ cut. lines_of cut ≡ cut_pieces room (norm (chars text.now))) }
    ensures size { IfOk result (λ cut. HasSize cut.size (lines_of cut)) }
{
    let text = normalized(alloc, text)?;
    let text = broken(alloc, room, text)?;
    let size = lines_size(text.as_str());
    Ok(CutText { text, size })
}

/// A text that is broken where its lines are wider than this room, if the room has 20 columns.
///
/// # Errors
///
/// There is no memory for it.
fn broken<'a>(alloc: Global, room: usize, text: CowStr<'a>) -> Result<CowStr<'a>, AllocError>
    ensures value { IfOk result (λ shown. chars (cow_str_bytes shown)
        ≡ spec.broken_in room (chars (cow_str_bytes text.entry))) }
{
    if room < LEAST_ROOM {
        Ok(text)
    } else {
        wrapped(alloc, room, false, text)
    }
}

/// How large a text is that is cut at its line feeds.
fn lines_size(text: &str) -> LabelSize
    requires few { IsCount (length text.now) }
    ensures size { HasSize result (slice_split (λ c. c == 10) (chars text.now)) }
{
    let mut size = LabelSize {
        width: 0,
        height: 0,
    };
    for line in text.split('\n') {
        size = with_line(size, line);
    }
    size
}

/// The size with one line more.
fn with_line(size: LabelSize, line: &str) -> LabelSize
    requires few { IsCount size.width }
    requires more { HasNext size.height }
    ensures width { result.width ≡ max size.width (length (encode_utf8_all (chars line.now))) }
    ensures height { result.height ≡ size.height + 1 }
    ensures few { IsCount result.width }
{
    LabelSize {
        width: size.width.max(line.len()),
        height: size.height + 1,
    }
}
