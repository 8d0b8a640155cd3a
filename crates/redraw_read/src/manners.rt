//! How suggestions and places are shown in a text, where there may be many: the text's lines are sorted then, once, and
//! each message is looked for once.

ghost use Rattle.std.specs.Prelude.{◌≡◌, ℕ, List, IfOk, map, string_bytes};
ghost use Rattle.std.specs.BTreeMap.{get_by_text};
ghost use Rattle.std.specs.Option.{ForSome};
ghost use Rattle.redraw_read.specs.AsShown.{place_shown};
ghost use Rattle.redraw_read.specs.Rendered.{way, way_of};
ghost use Rattle.redraw_read.specs.ShownLines.{AreKnown};

use crate::columns::show_columns;
use crate::named_places::NamedPlaces;
use crate::rendered::{Manner, manner_of};
use crate::shown_lines::ShownLines;
use redraw_report::diagnostic::FileSpan;
use std::alloc::{AllocError, Global};
use std::collections::BTreeMap;

/// How many suggestions are few: for each of these the text is searched.
const FEW: usize = 4;

/// How suggestions are shown, by their messages.
type KnownManners<'t> = BTreeMap<String, Manner<'t>>;

/// A text, its lines where there are more than a few suggestions, the messages that were found in these, and the places
/// that it names.
#[derive(Drop)]
pub struct Manners<'t> {
    pub text: &'t str,
    lines: Option<ShownLines<'t>>,
    known: KnownManners<'t>,
    named: NamedPlaces<'t>,
    ghost lined: { ForSome lines (λ l. l.text.now ≡ text.now) },
    ghost found: { AreKnown text.now known },
    ghost placed: { named.text.now ≡ text.now },
}

impl<'t> Manners<'t> {
    /// Those of so many suggestions in a text.
    pub fn new(alloc: Global, text: &'t str, count: usize) -> Result<Manners<'t>, AllocError>
        ensures text { IfOk result (λ manners. manners.text.now ≡ text.now) }
    {
        let lines = if count > FEW {
            Some(ShownLines::new(alloc, text)?)
        } else {
            None
        };
        Ok(Manners {
            text,
            lines,
            known: BTreeMap::new(alloc),
            named: NamedPlaces::new(text),
        })
    }

    /// These places, each from the column that the text has of it, where no lines came with it.
    pub fn show_columns(
        &mut self,
        alloc: Global,
        spans: Vec<FileSpan>,
    ) -> Result<Vec<FileSpan>, AllocError>
        ensures text { self.new.text.now ≡ self.old.text.now }
        ensures each { IfOk result (λ shown. shown.items ≡ map (place_shown self.old.text.now) spans.items) }
    {
        show_columns(alloc, &mut self.named, spans)
    }

    /// How a suggestion with this message is shown in the text.
    pub fn manner_of(&mut self, message: String) -> Result<Manner<'t>, AllocError>
        ensures text { self.new.text.now ≡ self.old.text.now }
        ensures value { IfOk result (λ manner. way_of manner ≡ way (string_bytes message) self.old.text.now) }
    {
        let Some(lines) = &self.lines else {
            return Ok(manner_of(message.as_str(), self.text));
        };
        if let Some(manner) = known_by(&self.known, message.as_str()) {
            return Ok(manner);
        }
        let manner = lines.manner_of(&message);
        keep(&mut self.known, message, manner)?;
        Ok(manner)
    }
}

/// How a suggestion with this message is shown, where that is known.
fn known_by<'t>(known: &KnownManners<'t>, message: &str) -> Option<Manner<'t>>
    ensures value { result ≡ get_by_text known.now message.now }
{
    known.get(message).copied()
}

/// Keeps how a suggestion with this message is shown.
fn keep<'t>(
    known: &mut KnownManners<'t>,
    message: String,
    manner: Manner<'t>,
) -> Result<(), AllocError>
    ensures kept { (text : List ℕ) → way_of manner.entry ≡ way (string_bytes message) text
        → AreKnown text known.old → AreKnown text known.new }
{
    known.insert(message, manner)?;
    Ok(())
}
