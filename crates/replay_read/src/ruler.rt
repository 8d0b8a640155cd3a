//! How places of a source, which count units, or lines and columns, become its bytes.
//!
//! A source in which many places are looked for is measured once: where its lines start, and how many units stand
//! before stops that lie some hundred bytes apart. Then a place is found by a binary search, and a walk from the last
//! stop before it.

ghost use Rattle.std.specs.Prelude.{◌≡◌, ◌<◌, ◌≤◌, ◌+◌, ◌-◌, All, IfOk, IfSome, drop, length, option_map, slice_get};
ghost use Rattle.std.specs.Prelude.{slice_range, take, true, unwrap_or};
ghost use Rattle.std.specs.Char.{len_utf8};
ghost use Rattle.std.specs.Str.{IsCharBoundary, is_utf8};
ghost use Rattle.snippet_lines.specs.TextLines.{start_bytes};
ghost use Rattle.replay_read.specs.MarkerSpan as spec;
ghost use Rattle.replay_read.specs.Stops.{IsPart, IsStop, line_range, units_in};
ghost use Rattle.replay_read.specs.Stops as stops_spec;
ghost use Rattle.replay_read.specs.declared.span.SpanUnit.TheVariants.{Char};

use crate::span::SpanUnit;
use snippet_lines::text_lines::line_starts;
use snippet_lines::{ColumnUnit, Place, Position, line_start, place_after};
use std::alloc::{AllocError, Global};
use std::ops::Range;

/// How many bytes two stops lie apart, give or take three.
const STRIDE: usize = 256;

/// A border of characters in a source, and how many units stand before it.
#[derive(Clone, Copy)]
pub struct Stop {
    pub byte: usize,
    pub units: usize,
}

/// A source, what is counted in it where that is said, and what is known of where places are.
#[derive(Drop)]
pub struct Ruler<'s> {
    pub source: &'s str,
    pub unit: Option<SpanUnit>,
    /// The bytes at which its lines start; none where they weren't looked for.
    starts: Vec<usize>,
    /// Stops in it, in order; none where they weren't looked for.
    stops: Vec<Stop>,
    ghost text: { is_utf8 source.now ≡ true },
    ghost lined: { 0 < length starts.items → starts.items ≡ start_bytes source.now },
    ghost measured: { All (IsStop (unwrap_or unit Char) source.now) stops.items },
}

impl<'s> Ruler<'s> {
    /// A ruler for a source. Where many places are looked for the source is measured first, and else it isn't: then a
    /// place costs a walk up to it.
    pub fn new(
        alloc: Global,
        source: &'s str,
        unit: Option<SpanUnit>,
        many: bool,
    ) -> Result<Ruler<'s>, AllocError>
        ensures source { IfOk result (λ ruler. ruler.source.now ≡ source.now) }
        ensures unit { IfOk result (λ ruler. ruler.unit ≡ unit) }
    {
        if !many {
            return Ok(Ruler {
                source,
                unit,
                starts: Vec::new(alloc),
                stops: Vec::new(alloc),
            });
        }
        let starts = line_starts(alloc, source)?;
        let stops = stops_of(alloc, source, unit.unwrap_or(SpanUnit::Char))?;
        Ok(Ruler {
            source,
            unit,
            starts,
            stops,
        })
    }

    /// What columns count: characters where no unit is said.
    fn column_unit(&self) -> SpanUnit
        ensures value { result ≡ unwrap_or self.now.unit Char }
    {
        self.unit.unwrap_or(SpanUnit::Char)
    }

    /// The byte of a number.
    pub fn counted(&self, number: usize) -> Option<usize>
        ensures value { result ≡ spec.counted self.now.source.now self.now.unit number }
    {
        match self.unit {
            None | Some(SpanUnit::Byte) => Some(number),
            Some(_) => self.byte_in(0..self.source.len(), number),
        }
    }

    /// The byte of a place.
    pub fn placed(&self, place: Position) -> Option<usize>
        ensures value { result ≡ spec.placed self.now.source.now self.now.unit place }
    {
        if place.line == 0 || place.column == 0 {
            return None;
        }
        match self.line_at(place.line - 1) {
            Some(line) => self.byte_in(line, place.column - 1),
            None => None,
        }
    }

    /// The line of an index, from 0, without its line feed.
    fn line_at(&self, index: usize) -> Option<Range<usize>>
        ensures value { result ≡ line_range self.now.source.now index }
        ensures part { IfSome result (IsPart self.now.source.now) }
    {
        if self.starts.is_empty() {
            walked_line(self.source, index)
        } else {
            self.known_line(index)
        }
    }

    /// The line of an index, from 0, without its line feed, where it is known where lines start.
    fn known_line(&self, index: usize) -> Option<Range<usize>>
        requires known { 0 < length self.now.starts.items }
        ensures value { result ≡ line_range self.now.source.now index }
        ensures part { IfSome result (IsPart self.now.source.now) }
    {
        let Some(start) = self.starts.get(index) else {
            return None;
        };
        match self.starts.get(index + 1) {
            Some(next) => Some(*start..*next - 1),
            None => Some(*start..self.source.len()),
        }
    }

    /// The byte before which so many units stand in a part of the source.
    fn byte_in(&self, part: Range<usize>, units: usize) -> Option<usize>
        requires part { IsPart self.now.source.now part }
        ensures value { result ≡ option_map (λ byte. part.start + byte) (spec.byte_after (unwrap_or self.now.unit Char)
            (slice_range self.now.source.now part.start part.end) units) }
    {
        let end = part.end;
        let stop = self.stop_in(part, units);
        match byte_after(
            &self.source[stop.byte..end],
            units - stop.units,
            self.column_unit(),
        ) {
            Some(byte) => Some(stop.byte + byte),
            None => None,
        }
    }

    /// The last known border in a part of the source before which no more than so many units of the part stand: a
    /// stop, or its start.
    fn stop_in(&self, part: Range<usize>, units: usize) -> Stop
        requires part { IsPart self.now.source.now part }
        ensures border { IsCharBoundary self.now.source.now result.byte }
        ensures after { part.start ≤ result.byte }
        ensures before { result.byte ≤ part.end }
        ensures few { result.units ≤ units }
        ensures units { result.units ≡ units_in (unwrap_or self.now.unit Char)
            (slice_range self.now.source.now part.start result.byte) }
    {
        let start = Stop {
            byte: part.start,
            units: 0,
        };
        if self.stops.is_empty() || part.end - part.start <= STRIDE {
            return start;
        }
        let before = self.units_before(part.start);
        let stop = self.last_stop(part.end, before.saturating_add(units));
        if stop.byte < part.start {
            return start;
        }
        Stop {
            byte: stop.byte,
            units: stop.units - before,
        }
    }

    /// How many units stand before a border of the source.
    fn units_before(&self, byte: usize) -> usize
        requires border { IsCharBoundary self.now.source.now byte }
        ensures value { result ≡ units_in (unwrap_or self.now.unit Char) (take byte self.now.source.now) }
    {
        let stop = self.last_stop(byte, usize::MAX);
        stop.units + unit_count(&self.source[stop.byte..byte], self.column_unit())
    }

    /// The last stop up to which no more bytes and units stand than these; the source's start where there is none.
    fn last_stop(&self, byte: usize, units: usize) -> Stop
        ensures stop { IsStop (unwrap_or self.now.unit Char) self.now.source.now result }
        ensures before { result.byte ≤ byte }
        ensures few { result.units ≤ units }
    {
        // The stops are in order, so the search finds it. No promise needs that order: what is found is asked again.
        let count = self
            .stops
            .partition_point(|stop| stop.byte <= byte && stop.units <= units);
        match &self.stops[..count] {
            [.., stop] if stop.byte <= byte && stop.units <= units => *stop,
            _ => Stop { byte: 0, units: 0 },
        }
    }
}

/// Stops in a source, in order, and as many as are needed for one to lie in each stride.
fn stops_of(alloc: Global, source: &str, unit: SpanUnit) -> Result<Vec<Stop>, AllocError>
    ensures stops { IfOk result (λ stops. All (IsStop unit source.now) stops.items) }
{
    let mut stops = Vec::new(alloc);
    let mut here = Stop { byte: 0, units: 0 };
    for c in source.chars() {
        if stops.len() < here.byte / STRIDE {
            stops.push(here)?;
        }
        here = Stop {
            byte: here.byte + c.len_utf8(),
            units: here.units + size_of(c, unit),
        };
    }
    Ok(stops)
}

/// How many units a text has.
fn unit_count(text: &str, unit: SpanUnit) -> usize
    ensures value { result ≡ units_in unit text.now }
    ensures within { result ≤ length text.now }
{
    let mut count = 0;
    for c in text.chars() {
        count += size_of(c, unit);
    }
    count
}

/// How many units a character has.
fn size_of(c: char, unit: SpanUnit) -> usize
    ensures value { result ≡ stops_spec.size_of unit c }
    ensures within { result ≤ len_utf8 c }
{
    match unit {
        SpanUnit::Byte => c.len_utf8(),
        SpanUnit::Char => 1,
        SpanUnit::Utf16 => c.len_utf16(),
    }
}

/// The line of an index, from 0, without its line feed, found by a walk from the source's start.
fn walked_line(source: &str, index: usize) -> Option<Range<usize>>
    ensures value { result ≡ line_range source.now index }
    ensures part { IfSome result (IsPart source.now) }
{
    let start = line_start(source, index)?;
    let line = until_feed(&source[start..]);
    Some(start..start + line.len())
}

/// What stands before the first line feed.
fn until_feed(text: &str) -> &str
    ensures value { result.now ≡ spec.until_feed text.now }
    ensures within { length result.now ≤ length text.now }
{
    for (at, byte) in text.as_bytes().iter().enumerate() {
        if *byte == b'\n' {
            return &text[..at];
        }
    }
    text
}

/// The byte before which so many units of a text stand.
fn byte_after(text: &str, units: usize, unit: SpanUnit) -> Option<usize>
    ensures value { result ≡ spec.byte_after unit text.now units }
    ensures within { IfSome result (λ at. at ≤ length text.now) }
{
    match unit {
        SpanUnit::Byte if units <= text.len() => Some(units),
        SpanUnit::Byte => None,
        SpanUnit::Char => byte_of(text, place_after(text, units, ColumnUnit::Chars)),
        SpanUnit::Utf16 => byte_of(text, place_after(text, units, ColumnUnit::Utf16)),
    }
}

/// The byte of a place that was looked for. Between the units of a character it is that character's second byte, so
/// that a report is refused for it.
fn byte_of(text: &str, place: Place) -> Option<usize>
    ensures value { result ≡ spec.byte_of text.now place }
    ensures within { place.byte ≤ length text.now → IfSome result (λ at. at ≤ length text.now) }
{
    if place.exact {
        Some(place.byte)
    } else if place.byte < text.len() {
        Some(place.byte + 1)
    } else {
        None
    }
}
