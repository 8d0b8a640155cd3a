//! What is drawn of suggestions: the first of them, and how many more there are.
ghost use Rattle.std.specs.Prelude.{◌≡◌, ◌++◌, IfOk, OnOk, map, string_bytes};
ghost use Rattle.std.specs.List.{flat_map};
ghost use Rattle.redraw_report.specs.Report as spec;
ghost use Rattle.redraw_report.specs.Report.{edited_of, more_parts, offered, offered_lines, offers_parts};
ghost use Rattle.redraw_report.specs.ShownText.{shown_text};
ghost use Rattle.redraw_report.specs.View.{Edits, edited_view, part_view};

use crate::diagnostic::Severity;
use crate::finding::{Content, Offer, Replacement};
use crate::gone::gone_lines;
use crate::shown_text::ShownText;
use crate::titles::level_of;
use snippet_model::{Element, Patch, Snippet};
use snippet_text::CowStr;
use std::alloc::{AllocError, Global};

/// How many edits are shown, of which one is to be made; where there are more, a message says how many more.
const SHOWN_OFFERS: usize = 4;

/// The patch of an edit.
fn patch_of<'a>(change: &Replacement<'a>) -> Patch<'a>
    ensures value { edited_view result ≡ edited_of change.now }
{
    Patch {
        span: change.start..change.end,
        replacement: CowStr::Borrowed(change.text),
    }
}

/// The patches of some edits.
fn patches_of<'a>(alloc: Global, changes: &[Replacement<'a>]) -> Result<Vec<Patch<'a>>, AllocError>
    ensures value { IfOk result (λ patches. map edited_view patches.items ≡ map edited_of changes.now) }
{
    let mut patches = Vec::new(alloc);
    for change in changes {
        patches.push(patch_of(change))?;
    }
    Ok(patches)
}

/// Lines of an offer's source with these patches.
fn patched<'a>(
    offer: &Offer<'a>,
    text: ShownText<'a>,
    first_line: usize,
    markers: Vec<Patch<'a>>,
) -> Element<'a>
    ensures value { part_view result ≡ Edits (offered_lines offer.now text.entry first_line)
        (map edited_view markers.entry.items) }
{
    Element::Suggestion(Snippet {
        path: Some(CowStr::Borrowed(offer.source.path)),
        line_start: first_line,
        source: text.source(),
        markers,
        line_numbering: true,
        fold: offer.is_folded,
    })
}

/// The lines that the one edit of an offer takes out, if those that it puts in don't tell: as an edit that takes them
/// out.
fn gone_of<'a>(
    alloc: Global,
    offer: &Offer<'a>,
    text: ShownText<'a>,
) -> Result<Vec<Patch<'a>>, AllocError>
    ensures value { IfOk result (λ patches. map edited_view patches.items
        ≡ spec.gone_edits (shown_text text.entry) offer.now.changes.items) }
{
    let mut patches = Vec::new(alloc);
    if offer.changes.len() == 1 {
        if let Some(span) = gone_lines(text.as_str(), &offer.changes[0]) {
            let replacement = CowStr::Borrowed("");
            patches.push(Patch { span, replacement })?;
        }
    }
    Ok(patches)
}

/// Adds the lines that the one edit of an offer takes out, if those that it puts in don't tell.
fn add_gone<'a>(
    alloc: Global,
    elements: &mut Vec<Element<'a>>,
    offer: &Offer<'a>,
    text: ShownText<'a>,
    first_line: usize,
) -> Result<(), AllocError>
    ensures added { OnOk result (map part_view elements.new.items ≡ map part_view elements.old.items
        ++ spec.gone_parts (offered_lines offer.now text.entry first_line) offer.now.changes.items) }
{
    let patches = gone_of(alloc, offer, text)?;
    if !patches.is_empty() {
        elements.push(patched(offer, text, first_line, patches))?;
    }
    Ok(())
}

/// Adds what is drawn of an offer: the lines of its source with its edits; nothing where there are none. Above them
/// stand the lines that go, if they are to be shown too.
fn add_offer<'a>(
    alloc: Global,
    elements: &mut Vec<Element<'a>>,
    offer: &Offer<'a>,
    shows_gone: bool,
) -> Result<(), AllocError>
    ensures added { OnOk result (map part_view elements.new.items ≡ map part_view elements.old.items
        ++ offered shows_gone offer.now) }
{
    if let Content::Lines { text, first_line } = offer.source.content {
        if shows_gone {
            add_gone(alloc, elements, offer, text, first_line)?;
        }
        let patches = patches_of(alloc, &offer.changes)?;
        elements.push(patched(offer, text, first_line, patches))?;
    }
    Ok(())
}

/// Adds what is drawn of some offers, one below the other.
fn add_each_offer<'a>(
    alloc: Global,
    elements: &mut Vec<Element<'a>>,
    offers: &[Offer<'a>],
    shows_gone: bool,
) -> Result<(), AllocError>
    ensures added { OnOk result (map part_view elements.new.items
        ≡ map part_view elements.old.items ++ flat_map (offered shows_gone) offers.now) }
{
    for offer in offers {
        add_offer(alloc, elements, offer, shows_gone)?;
    }
    Ok(())
}

/// The text that tells how many offers there are beside those that are shown.
fn more_text(alloc: Global, more: usize) -> Result<String, AllocError>
    ensures value { IfOk result (λ text. string_bytes text ≡ spec.more_text more) }
{
    if more == 1 {
        format!(in alloc; "and {more} other candidate")
    } else {
        format!(in alloc; "and {more} other candidates")
    }
}

/// Adds how many offers there are beside those that are shown, if there are any.
fn add_more<'a>(
    alloc: Global,
    elements: &mut Vec<Element<'a>>,
    more: usize,
) -> Result<(), AllocError>
    ensures added { OnOk result (map part_view elements.new.items ≡ map part_view elements.old.items
        ++ more_parts more) }
{
    if more > 0 {
        let text = more_text(alloc, more)?;
        let message = level_of(Severity::Plain).message_cow(CowStr::Owned(text));
        elements.push(Element::Message(message))?;
    }
    Ok(())
}

/// Adds what is drawn of the first offers, and how many more there are. The lines that an edit takes out are shown too,
/// if they are to be and there is no other offer that they could be taken for.
pub fn add_offers<'a>(
    alloc: Global,
    elements: &mut Vec<Element<'a>>,
    offers: &[Offer<'a>],
    shows_gone: bool,
) -> Result<(), AllocError>
    ensures added { OnOk result (map part_view elements.new.items
        ≡ map part_view elements.old.items ++ offers_parts shows_gone offers.now) }
{
    let count = offers.len().min(SHOWN_OFFERS);
    let shows_gone = shows_gone && offers.len() == 1;
    add_each_offer(alloc, elements, &offers[..count], shows_gone)?;
    add_more(alloc, elements, offers.len() - count)
}
