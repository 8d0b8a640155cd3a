//! Places of bytes, each looked for from one that is known.
ghost use Rattle.std.specs.Prelude.{◌≡◌, IfSome};
ghost use Rattle.snippet_lines.specs.Place.{locations_of};
ghost use Rattle.snippet_lines.specs.IsSpan.{IsSpan, IsSpanBorder};
ghost use Rattle.snippet_parts.specs.LinePlaces.{IsLinePlace};
ghost use Rattle.snippet_style.specs.Bounds.{IsSourceColumn, IsSourceEnd};
ghost use Rattle.snippet_text.specs.TextBounds.{IsInText, IsOffset};

use crate::source_map::{LineInfo, SourceMap};
use snippet_lines::place::Loc;
use std::marker::Model;
use std::ops::Range;

/// The place of a byte, with the line on which it stands.
#[derive(Clone, Copy, Debug)]
pub(crate) struct LinePlace<'a> {
    pub(crate) line: LineInfo<'a>,
    pub(crate) at: Loc,
}

/// Looks for where spans of a source start and end, each from where the one before it starts.
#[derive(Drop)]
pub struct SpanFinder<'m, 'a> {
    source: &'m SourceMap<'a>,
    /// Where the last span that was looked for starts.
    known: Option<LinePlace<'a>>,
}

impl<'m, 'a> Model for SpanFinder<'m, 'a> {
    ghost use Rattle.std.specs.Prelude.{IfSome};
    ghost use Rattle.snippet_lines.specs.Lines.{Source};
    ghost use Rattle.snippet_parts.specs.LinePlaces.{IsLinePlace};

    ghost Value = { Source };

    ghost view = { λ finder. finder.source.now };

    ghost invariant = { λ finder. IfSome finder.known (IsLinePlace finder.source.now) };
}

impl<'m, 'a> SpanFinder<'m, 'a> {
    /// One that knows no place yet.
    pub fn new(source: &'m SourceMap<'a>) -> SpanFinder<'m, 'a>
        ensures source { result ≡ source.now }
    {
        SpanFinder {
            source,
            known: None,
        }
    }

    /// The source whose spans are looked for.
    pub fn source(&self) -> &'m SourceMap<'a>
        ensures source { result.now ≡ self.now }
    {
        self.source
    }

    /// Where a span of bytes starts and ends, as `SourceMap::span_to_locations` tells. It may have no fault, as
    /// `check_span` finds it.
    ///
    /// Of many spans on one line the line is looked for once, and what lies between one and the next is walked once.
    pub fn find(&mut self, span: Range<usize>) -> (Loc, Loc)
        requires span { IsSpan self.old.text span.start span.end }
        ensures source { self.new ≡ self.old }
        ensures value { result ≡ locations_of self.old span.start span.end }
        ensures start_char { IsOffset result.0.char }
        ensures end_char { IsOffset result.1.char }
    {
        locations_near(self.source, &mut self.known, span)
    }
}

/// Where a span of bytes starts and ends, as `SourceMap::span_to_locations` tells. A place before it may be known; the
/// place of its start is known then.
///
/// Of many spans on one line the line is looked for once, and what lies between one and the next is walked once.
pub(crate) fn locations_near<'a>(
    source: &SourceMap<'a>,
    known: &mut Option<LinePlace<'a>>,
    span: Range<usize>,
) -> (Loc, Loc)
    requires known { IfSome known.old (IsLinePlace source.now) }
    requires span { IsSpan source.now.text span.start span.end }
    ensures known { IfSome known.new (IsLinePlace source.now) }
    ensures value { result ≡ locations_of source.now span.start span.end }
    ensures start_bound { IsSourceColumn result.0.display }
    ensures end_bound { IsSourceEnd result.1.display }
    ensures start_char { IsOffset result.0.char }
    ensures end_char { IsOffset result.1.char }
{
    let first = place_near(source, known, span.start);
    *known = Some(first);
    let start = Loc {
        char: first.at.char + source.steps_after_text(&first.line, span.start),
        ..first.at
    };
    if span.start == span.end {
        return (start, start);
    }
    if span.end < first.line.end_byte {
        return (start, source.locate_later(&first.line, first.at, span.end));
    }
    let last = placed_byte(source, span.end);
    if last.line.line_index == first.line.line_index {
        return (start, last.at);
    }
    let steps = source.steps_after_text(&last.line, span.end);
    let end = Loc {
        char: last.at.char + steps,
        display: last.at.display + steps,
        ..last.at
    };
    (start, end)
}

/// The place of a byte. Where one is known that stands before it on its line, only what lies between them is walked.
fn place_near<'a>(
    source: &SourceMap<'a>,
    known: &Option<LinePlace<'a>>,
    byte: usize,
) -> LinePlace<'a>
    requires known { IfSome known.now (IsLinePlace source.now) }
    requires border { IsSpanBorder source.now.text byte }
    ensures place { IsLinePlace source.now result }
    ensures byte { result.at.byte ≡ byte }
    ensures char_bound { IsInText result.at.char }
    ensures display_bound { IsSourceColumn result.at.display }
{
    match known {
        Some(near) if near.at.byte <= byte && byte < near.line.end_byte => LinePlace {
            line: near.line,
            at: source.locate_later(&near.line, near.at, byte),
        },
        _ => placed_byte(source, byte),
    }
}

/// The place of a byte, where none is known that is near.
fn placed_byte<'a>(source: &SourceMap<'a>, byte: usize) -> LinePlace<'a>
    requires border { IsSpanBorder source.now.text byte }
    ensures place { IsLinePlace source.now result }
    ensures byte { result.at.byte ≡ byte }
    ensures char_bound { IsInText result.at.char }
    ensures display_bound { IsSourceColumn result.at.display }
{
    let line = source.line_holding(byte);
    let at = source.locate(&line, byte);
    LinePlace { line, at }
}
