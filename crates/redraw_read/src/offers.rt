//! The suggestions that alternatives become: the edits of one are made together, in one source, or it isn't drawn.

ghost use Rattle.std.specs.Prelude.{◌≡◌, ◌+◌, ◌≤◌, ◌++◌, ◌∷◌, [], Some, None, true, false, if◌then◌else◌, ◌&&◌};
ghost use Rattle.std.specs.Prelude.{IfOk, IfSome, IsTrue, OnOk, is_some, length, map, not, string_bytes, take};
ghost use Rattle.std.specs.List.{AllZip, filter_map, slice_range};
ghost use Rattle.std.specs.Str.{IsCharBoundary, trim};
ghost use Rattle.std.specs.Option.{option_map};
ghost use Rattle.redraw_report.specs.Report.{edited_of};
ghost use Rattle.redraw_read.specs.Counted.{adds, clamped_alternatives, clamped_edits, is_clamped, is_drawn, ones};
ghost use Rattle.redraw_read.specs.Counted.{sight_of_edit, undrawn_alternatives};
ghost use Rattle.redraw_read.specs.Placed as spec;
ghost use Rattle.redraw_read.specs.Placed.{AreOffersOf, IsOfferAt, IsOfferOf, IsSpotOf, at_hand, edit_at, edits_at};
ghost use Rattle.redraw_read.specs.Placed.{IsAttributeAt, IsAttributeIn, IsAttributeOffer, IsLastStart, IsLineIn};
ghost use Rattle.redraw_read.specs.Placed.{AreAboveLine, IsAboveLine, IsAlone, Lines, offered_view, sight_of};

use crate::hand::Hand;
use crate::spot::{Placing, Spot, counted, is_settled_in, spot_nowhere};
use crate::words::{begins_with, finishes_with};
use redraw_report::diagnostic::{Region, SuggestedEdit};
use redraw_report::finding::{Content, Offer, Replacement, Shown, is_same};
use redraw_report::shown_text::ShownText;
use std::alloc::{AllocError, Global};

/// The offers of some alternatives.
pub fn offers_of<'a>(
    placing: &mut Placing,
    hand: Hand<'a>,
    alternatives: &'a Vec<Vec<SuggestedEdit>>,
) -> Result<Vec<Offer<'a>>, AllocError>
    ensures are { IfOk result (λ offers. AreOffersOf (at_hand hand.entry) alternatives.now.items offers.items) }
    ensures counted { OnOk result (placing.new
        ≡ adds placing.old (clamped_alternatives (at_hand hand.entry) alternatives.now.items)
        (undrawn_alternatives (at_hand hand.entry) alternatives.now.items)) }
{
    let mut offers = Vec::new(placing.alloc);
    for edits in alternatives {
        let offer = offer_of(placing, hand, edits)?;
        add_offer(&mut offers, offer)?;
    }
    Ok(offers)
}

/// Adds an offer, if there is one.
fn add_offer<'a>(offers: &mut Vec<Offer<'a>>, offer: Option<Offer<'a>>) -> Result<(), AllocError>
    ensures added { OnOk result (offers.new.items ≡ offers.old.items ++ filter_map (λ o. o) (offer.entry ∷ [])) }
{
    if let Some(offer) = offer {
        offers.push(offer)?;
    }
    Ok(())
}

/// The offer of an alternative's edits, if they are in one source. One that isn't drawn is counted.
fn offer_of<'a>(
    placing: &mut Placing,
    hand: Hand<'a>,
    edits: &'a Vec<SuggestedEdit>,
) -> Result<Option<Offer<'a>>, AllocError>
    ensures is { IfOk result (IsOfferOf (at_hand hand.entry) edits.now.items) }
    ensures counted { OnOk result (placing.new
        ≡ adds placing.old (clamped_edits (at_hand hand.entry) edits.now.items)
        (ones (not (is_drawn (at_hand hand.entry) edits.now.items)))) }
{
    let spots = spots_of(placing, hand, edits)?;
    let offer = offer_by(placing.alloc, &spots, edits)?;
    placing.undrawn = counted(placing.undrawn, offer.is_none());
    Ok(offer)
}

/// Where some edits are.
fn spots_of<'a>(
    placing: &mut Placing,
    hand: Hand<'a>,
    edits: &'a Vec<SuggestedEdit>,
) -> Result<Vec<Spot<'a>>, AllocError>
    ensures are { IfOk result (λ spots. AllZip (IsSpotOf (at_hand hand.entry)) edits.now.items spots.items) }
    ensures counted { OnOk result
        (placing.new ≡ adds placing.old (clamped_edits (at_hand hand.entry) edits.now.items) 0) }
{
    let mut spots = Vec::new(placing.alloc);
    for edit in edits {
        spots.push(spot_of(placing, hand, edit)?)?;
    }
    Ok(spots)
}

/// Where an edit is: nowhere, if it isn't settled which part of its lines that is.
fn spot_of<'a>(
    placing: &mut Placing,
    hand: Hand<'a>,
    edit: &'a SuggestedEdit,
) -> Result<Spot<'a>, AllocError>
    ensures is { IfOk result (IsSpotOf (at_hand hand.entry) edit.now) }
    ensures counted { OnOk result (placing.new
        ≡ adds placing.old (ones (is_clamped (sight_of_edit (at_hand hand.entry) edit.now) edit.now.region)) 0) }
{
    let is_settled = is_settled_in(placing.alloc, hand, edit)?;
    if is_settled {
        placing.spot(hand, &edit.file, edit.region, &edit.carried)
    } else {
        Ok(spot_nowhere(hand.is_short, edit.file.as_str(), edit.region))
    }
}

/// The offer of edits at these places, if there is one: of an attribute, which is shown with its line, or of any edits.
fn offer_by<'a>(
    alloc: Global,
    spots: &[Spot<'a>],
    edits: &'a [SuggestedEdit],
) -> Result<Option<Offer<'a>>, AllocError>
    ensures is { IfOk result (IsOfferAt spots.now edits.now) }
    ensures drawn { IfOk result (λ offer. is_some offer ≡ is_some (spec.one_source spots.now)) }
{
    match attribute_of(alloc, spots, edits)? {
        Some(offer) => Ok(Some(offer)),
        None => offer_at(alloc, spots, edits),
    }
}

/// The offer of edits at these places, if the places are in one source, of which lines are at hand.
fn offer_at<'a>(
    alloc: Global,
    spots: &[Spot<'a>],
    edits: &'a [SuggestedEdit],
) -> Result<Option<Offer<'a>>, AllocError>
    ensures value { IfOk result (λ offer. option_map offered_view offer ≡ spec.offer_at spots.now edits.now) }
{
    match one_source(spots) {
        Some(source) => {
            let changes = changes_at(alloc, spots, edits)?;
            Ok(Some(folded_offer(source, changes)))
        }
        None => Ok(None),
    }
}

/// The offer of changes, of which only the lines around them are shown.
fn folded_offer<'a>(source: Shown<'a>, changes: Vec<Replacement<'a>>) -> Offer<'a>
    ensures value { offered_view result
        ≡ record { source = source.entry; edits = map edited_of changes.entry.items; folded = true } }
{
    Offer {
        source,
        changes,
        is_folded: true,
    }
}

/// The source that all of these places are in, if there is one and it has lines of a file.
fn one_source<'a>(spots: &[Spot<'a>]) -> Option<Shown<'a>>
    ensures value { result ≡ spec.one_source spots.now }
{
    match spots {
        [first, rest @ ..] => source_if(first.source, rest),
        [] => None,
    }
}

/// This source, if it has lines of a file and all of these places are in it too.
fn source_if<'a>(source: Shown<'a>, rest: &[Spot<'a>]) -> Option<Shown<'a>>
    ensures value { result
        ≡ if spec.has_text source.entry.content && spec.are_in source.entry rest.now then Some source.entry else None }
{
    if has_text(source.content) && are_in(&source, rest) {
        Some(source)
    } else {
        None
    }
}

/// Whether a source has lines of a file.
fn has_text(content: Content<'_>) -> bool
    ensures value { result ≡ spec.has_text content.entry }
{
    matches!(content, Content::Lines { .. })
}

/// Whether all of these places are in this source.
fn are_in(source: &Shown<'_>, spots: &[Spot<'_>]) -> bool
    ensures value { result ≡ spec.are_in source.now spots.now }
{
    spots.iter().all(|spot| is_same(&spot.source, source))
}

/// The changes of edits at these places.
fn changes_at<'a>(
    alloc: Global,
    spots: &[Spot<'_>],
    edits: &'a [SuggestedEdit],
) -> Result<Vec<Replacement<'a>>, AllocError>
    ensures value { IfOk result (λ changes. map edited_of changes.items ≡ edits_at spots.now edits.now) }
{
    let mut changes = Vec::new(alloc);
    for (index, edit) in edits.iter().enumerate() {
        add_change(&mut changes, spots.get(index), edit)?;
    }
    Ok(changes)
}

/// Adds the change of an edit at this place, if there is one.
fn add_change<'a>(
    changes: &mut Vec<Replacement<'a>>,
    spot: Option<&Spot<'_>>,
    edit: &'a SuggestedEdit,
) -> Result<(), AllocError>
    ensures added { OnOk result (map edited_of changes.new.items
        ≡ map edited_of changes.old.items ++ edit_at (option_map (λ s. s.now) spot.entry) edit.entry.now) }
{
    if let Some(spot) = spot {
        changes.push(Replacement {
            start: spot.start,
            end: spot.end,
            text: edit.replacement.as_str(),
        })?;
    }
    Ok(())
}

/// Whether a text is an attribute of Rust and a line end: rustc puts it above a line, and shows it with that line.
pub fn is_attribute(text: &str) -> bool
    ensures value { result ≡ spec.is_attribute text.now }
{
    let trimmed = text.trim();
    begins_with(trimmed, "#[") && finishes_with(trimmed, "]") && finishes_with(text, "\n")
}

/// The offer of an attribute, if this is one and lines are at hand where it is to stand.
fn attribute_of<'a>(
    alloc: Global,
    spots: &[Spot<'a>],
    edits: &'a [SuggestedEdit],
) -> Result<Option<Offer<'a>>, AllocError>
    ensures is { IfOk result (λ offer. IfSome offer (IsAttributeOffer spots.now edits.now)) }
    ensures none { IfOk result (λ offer. offer ≡ None → AreAboveLine spots.now edits.now → ⊥) }
{
    match (spots, edits) {
        ([spot], [edit]) => attribute_at(alloc, spot, edit),
        _ => Ok(None),
    }
}

/// The offer of an edit, if it puts an attribute above a line that is at hand.
fn attribute_at<'a>(
    alloc: Global,
    spot: &Spot<'a>,
    edit: &'a SuggestedEdit,
) -> Result<Option<Offer<'a>>, AllocError>
    ensures is { IfOk result (λ offer. IfSome offer
        (IsAttributeAt spot.now.source.content edit.now.region spot.now edit.now)) }
    ensures none { IfOk result (λ offer. offer ≡ None → IsAboveLine spot.now.source.content edit.now.region
        spot.now.start (string_bytes edit.now.replacement) → ⊥) }
{
    match (spot.source.content, edit.region) {
        (Content::Lines { text, .. }, Region::Lines(region)) => {
            attribute_if(alloc, text.as_str(), region.start_line, spot, edit)
        }
        _ => Ok(None),
    }
}

/// The offer of an edit that puts an attribute above the line of this number, in a text.
fn attribute_if<'a>(
    alloc: Global,
    text: &'a str,
    number: usize,
    spot: &Spot<'a>,
    edit: &'a SuggestedEdit,
) -> Result<Option<Offer<'a>>, AllocError>
    ensures is { IfOk result (λ offer. IfSome offer (λ o.
        (spec.is_attribute (string_bytes edit.now.replacement) ≡ true)
        × IsAttributeIn text.now number spot.now edit.now o)) }
    ensures none { IfOk result (λ offer. offer ≡ None → spec.is_attribute (string_bytes edit.now.replacement) ≡ true
        → IsAlone text.now spot.now.start → ⊥) }
{
    if is_attribute(edit.replacement.as_str()) {
        attribute_in(alloc, text, number, spot, edit)
    } else {
        Ok(None)
    }
}

/// The offer of an attribute, which is shown with the line that it stands above. One that stands after code is an edit
/// like any other.
fn attribute_in<'a>(
    alloc: Global,
    text: &'a str,
    number: usize,
    spot: &Spot<'a>,
    edit: &'a SuggestedEdit,
) -> Result<Option<Offer<'a>>, AllocError>
    ensures is { IfOk result (λ offer. IfSome offer (IsAttributeIn text.now number spot.now edit.now)) }
    ensures none { IfOk result (λ offer. offer ≡ None → IsAlone text.now spot.now.start → ⊥) }
{
    let Some(line) = line_around(text, spot.start) else {
        return Ok(None);
    };
    if !is_blank_from(text, line.start, spot.start) {
        return Ok(None);
    }
    let at = spot.start.saturating_sub(line.start);
    let changes = one_change(alloc, at, edit)?;
    Ok(Some(line_offer(spot.source.path, line.text, number, changes)))
}

/// Whether there is nothing but blanks between two bytes of a text.
fn is_blank_from(text: &str, start: usize, end: usize) -> bool
    ensures blank { IsTrue result → trim (slice_range text.now start end) ≡ [] }
    ensures told { start ≤ end → IsCharBoundary text.now start → IsCharBoundary text.now end
        → trim (slice_range text.now start end) ≡ [] → IsTrue result }
{
    match text.get(start..end) {
        Some(between) => between.trim().is_empty(),
        None => false,
    }
}

/// The change that puts the text of an edit in at a byte.
fn one_change<'a>(
    alloc: Global,
    at: usize,
    edit: &'a SuggestedEdit,
) -> Result<Vec<Replacement<'a>>, AllocError>
    ensures value { IfOk result (λ changes. map edited_of changes.items
        ≡ record { start = at; end = at; text = string_bytes edit.now.replacement } ∷ []) }
{
    let mut changes = Vec::new(alloc);
    changes.push(Replacement {
        start: at,
        end: at,
        text: edit.replacement.as_str(),
    })?;
    Ok(changes)
}

/// The offer of changes to a line of this number, which is shown whole.
fn line_offer<'a>(
    path: &'a str,
    text: &'a str,
    first_line: usize,
    changes: Vec<Replacement<'a>>,
) -> Offer<'a>
    ensures path { result.source.path.now ≡ path.now }
    ensures shows { sight_of result.source.content ≡ Lines text.now first_line }
    ensures changes { result.changes ≡ changes.entry }
    ensures unfolded { result.is_folded ≡ false }
{
    let text = ShownText::Text(text);
    let content = Content::Lines { text, first_line };
    Offer {
        source: Shown { path, content },
        changes,
        is_folded: false,
    }
}

/// A line of a text, and the byte where it starts.
#[derive(Clone, Copy)]
struct TextLine<'a> {
    start: usize,
    text: &'a str,
}

/// The line of a text around a byte.
fn line_around<'a>(text: &'a str, at: usize) -> Option<TextLine<'a>>
    ensures is { IfSome result (λ line. IsLineIn text.now line.text.now (take line.start text.now)) }
    ensures start { IfSome result (λ line. length (take line.start text.now) ≡ line.start) }
    ensures from { IfSome result (λ line. line.start ≤ at) }
    ensures to { IfSome result (λ line. at ≤ line.start + length line.text.now) }
    ensures begins { IfSome result (λ line. IsLastStart (take at text.now) line.start) }
    ensures none { result ≡ None → IsCharBoundary text.now at → ⊥ }
{
    let start = last_start(text.get(..at)?);
    Some(TextLine {
        start,
        text: first_line(text.get(start..)?),
    })
}

/// The byte of a text where its last line starts.
fn last_start(text: &str) -> usize
    ensures is { IsLastStart text.now result }
{
    match text.rfind('\n') {
        Some(feed) => feed + 1,
        None => 0,
    }
}

/// The first line of a text, without the line feed.
fn first_line(text: &str) -> &str
    ensures is { IsLineIn text.now result.now [] }
{
    match text.split_once('\n') {
        Some((line, _)) => line,
        None => text,
    }
}
