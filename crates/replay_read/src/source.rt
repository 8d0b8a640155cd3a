//! The sources that a case names once, and that of a snippet.

ghost use Rattle.std.specs.Prelude.{◌≡◌, IfOk, IfSome, codes, map, option_map};
ghost use Rattle.std.specs.Cow.{cow_str_bytes};
ghost use Rattle.snippet_model.specs.Fits.{TextFits};
ghost use Rattle.serde_json.specs.View.{view};
ghost use Rattle.json_lines.specs.Field.{SaysAt, given};
ghost use Rattle.replay_read.specs.Report.{AreSourcesOf, IsSourceOf};

use crate::list::items_of;
use crate::ruler::Ruler;
use crate::shape::FormatValue;
use crate::span::SpanUnit;
use crate::told::{ToldPlaces, are_many};
use json_lines::fault::Fault;
use json_lines::node::Node;
use snippet_lines::SourceLines;
use snippet_model::SourceText;
use snippet_text::{CowStr, text_fits};
use std::alloc::{AllocError, Global};
use std::marker::Model;

/// A source that a case names: its lines, and how places in it are found by each unit, once for all snippets of it.
#[derive(Drop)]
pub struct NamedSource<'s> {
    lines: SourceLines<'s>,
    /// Where no unit is said.
    unsaid: Ruler<'s>,
    by_bytes: Ruler<'s>,
    by_chars: Ruler<'s>,
    by_utf16: Ruler<'s>,
}

impl<'s> Model for NamedSource<'s> {
    ghost use Rattle.std.specs.Prelude.{◌≡◌, ℕ, List};
    ghost use Rattle.replay_read.specs.Ruled.{IsRulerOf};
    ghost use Rattle.std.specs.Prelude.{Some, None};
    ghost use Rattle.replay_read.specs.declared.span.SpanUnit.TheVariants.{Byte, Char, Utf16};

    ghost Value = { List ℕ };

    ghost view = { λ named. named.lines };

    ghost invariant = { λ named. IsRulerOf named.lines None named.unsaid
        × IsRulerOf named.lines (Some Byte) named.by_bytes
        × IsRulerOf named.lines (Some Char) named.by_chars × IsRulerOf named.lines (Some Utf16) named.by_utf16 };
}

impl<'s> NamedSource<'s> {
    /// The source that a text is, of which so many places are told.
    pub fn new(
        alloc: Global,
        text: &'s str,
        told: ToldPlaces,
    ) -> Result<NamedSource<'s>, AllocError>
        ensures value { IfOk result (λ source. source ≡ text.now) }
    {
        let lines = SourceLines::new(alloc, text)?;
        let unsaid = Ruler::new(alloc, text, None, are_many(told.unsaid))?;
        let by_bytes = Ruler::new(alloc, text, Some(SpanUnit::Byte), are_many(told.bytes))?;
        let by_chars = Ruler::new(alloc, text, Some(SpanUnit::Char), are_many(told.chars))?;
        let by_utf16 = Ruler::new(alloc, text, Some(SpanUnit::Utf16), are_many(told.utf16))?;
        Ok(NamedSource {
            lines,
            unsaid,
            by_bytes,
            by_chars,
            by_utf16,
        })
    }

    /// Its lines.
    pub fn lines(&self) -> &SourceLines<'s>
        ensures value { result.now ≡ self.now }
    {
        &self.lines
    }

    /// What finds places in it, where they are told in this unit.
    pub fn ruler(&self, unit: Option<SpanUnit>) -> &Ruler<'s>
        ensures source { result.now.source.now ≡ self.now }
        ensures unit { result.now.unit ≡ unit }
    {
        match unit {
            None => &self.unsaid,
            Some(SpanUnit::Byte) => &self.by_bytes,
            Some(SpanUnit::Char) => &self.by_chars,
            Some(SpanUnit::Utf16) => &self.by_utf16,
        }
    }
}

/// The sources that a case names, which are measured here, once.
pub fn sources_of<'v>(case: &Node<'v, '_>) -> Result<Vec<NamedSource<'v>>, Fault>
    ensures value { IfOk result (λ sources.
        AreSourcesOf (given (codes "sources") (view case.now.value.now)) sources.items) }
{
    match case.given("sources") {
        Some(sources) => {
            let texts: Vec<&'v str> = items_of(&sources)?;
            let named = named_sources(case.alloc, &texts, ToldPlaces::of_case(case.value))?;
            Ok(named)
        }
        None => Ok(Vec::new(case.alloc)),
    }
}

/// The sources that these texts are, of each of which so many places are told.
fn named_sources<'v>(
    alloc: Global,
    texts: &[&'v str],
    told: ToldPlaces,
) -> Result<Vec<NamedSource<'v>>, AllocError>
    ensures value { IfOk result (λ sources. sources.items ≡ map (λ text. text.now) texts.now) }
{
    let mut sources = Vec::new(alloc);
    for text in texts {
        sources.push(NamedSource::new(alloc, text, told)?)?;
    }
    Ok(sources)
}

/// The source of a snippet, and the one of a case that it is, if it is one.
#[derive(Drop)]
pub(crate) struct SnippetSource<'v, 's> {
    pub text: SourceText<'v>,
    pub named: Option<&'v NamedSource<'s>>,
    ghost same: { option_map (λ n. n.now) named ≡ option_map (λ n. cow_str_bytes text.text) named },
}

/// The source of a snippet: a text, or the number of one of these sources.
pub(crate) fn source_in<'v, 's>(
    snippet: &Node<'v, '_>,
    sources: &'v [NamedSource<'s>],
) -> Result<SnippetSource<'v, 's>, Fault>
    ensures value { IfOk result (λ source.
        SaysAt (IsSourceOf sources.now) (codes "source") (view snippet.now.value.now)
        (cow_str_bytes source.text.text)) }
    ensures fits { IfOk result (λ source. TextFits (cow_str_bytes source.text.text)) }
{
    let source = snippet.needed("source", FormatValue::Source)?;
    if let Some(named) = named_source(&source, sources) {
        if text_fits(named.lines().source()) {
            return Ok(SnippetSource {
                text: SourceText::indexed(named.lines()),
                named: Some(named),
            });
        }
    }
    match source.value.as_str() {
        Some(text) if text_fits(text) => Ok(SnippetSource {
            text: SourceText::new(CowStr::Borrowed(text)),
            named: None,
        }),
        _ => Err(source.unexpected(FormatValue::Source)),
    }
}

/// The source of which the number stands here, if it does.
fn named_source<'v, 's>(
    node: &Node<'_, '_>,
    sources: &'v [NamedSource<'s>],
) -> Option<&'v NamedSource<'s>>
    ensures value { IfSome result (λ source. IsSourceOf sources.now (view node.now.value.now) source.now) }
{
    let number = node.value.as_u64()?;
    sources.get(number as usize)
}
