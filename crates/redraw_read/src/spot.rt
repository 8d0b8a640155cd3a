//! Where the places that a tool names are, in the sources that are shown.

ghost use Rattle.std.specs.Prelude.{◌≡◌, IfOk, OnOk, string_bytes};
ghost use Rattle.redraw_read.specs.Counted.{adds, is_clamped, more, ones};
ghost use Rattle.redraw_read.specs.Extract.{chosen};
ghost use Rattle.redraw_read.specs.Placed as spec;
ghost use Rattle.redraw_report.specs.Region.{is_settled, start_bytes as starts_of};
ghost use Rattle.redraw_report.specs.ShownText.{shown_text};
ghost use Rattle.redraw_read.specs.Placed.{IsSpot, Lines, at_hand, sight_in, sight_of};

use crate::hand::{Extract, Hand, lines_for};
use crate::source::Source;
use redraw_report::diagnostic::{Carried, Region, SuggestedEdit};
use redraw_report::finding::{Content, Shown};
use redraw_report::locate::{Lookup, is_settled, locate};
use redraw_report::shown_text::ShownText;
use redraw_report::text_lines::line_starts;
use std::alloc::{AllocError, Global};

/// A source and a part of it.
#[derive(Clone, Copy)]
pub struct Spot<'a> {
    pub source: Shown<'a>,
    pub start: usize,
    pub end: usize,
}

/// How places are found, and what was found wrong with them on the way.
#[derive(Clone, Copy)]
pub struct Placing {
    pub alloc: Global,
    /// How many places aren't in their sources as they were given.
    pub clamped: u64,
    /// How many alternatives aren't drawn, since too little is at hand of what they change.
    pub undrawn: u64,
}

impl Placing {
    /// Where a part of the file of this name is: in the file, in the lines that the input has of it, or nowhere.
    pub fn spot<'a>(
        &mut self,
        hand: Hand<'a>,
        file: &'a String,
        region: Region,
        carried: &'a Option<Carried>,
    ) -> Result<Spot<'a>, AllocError>
        ensures is { IfOk result (IsSpot (string_bytes file.now)
            (sight_in (at_hand hand.entry) (string_bytes file.now) region carried.now) region) }
        ensures counted { OnOk result (self.new ≡ adds self.old (ones (is_clamped
            (sight_in (at_hand hand.entry) (string_bytes file.now) region carried.now) region)) 0) }
    {
        let path = file.as_str();
        match lines_for(hand, path, carried) {
            Some(lines) => self.spot_in(path, lines, region),
            None => Ok(spot_nowhere(hand.is_short, path, region)),
        }
    }

    /// Where a region is in these lines.
    fn spot_in<'a>(
        &mut self,
        path: &'a str,
        lines: Extract<'a>,
        region: Region,
    ) -> Result<Spot<'a>, AllocError>
        ensures is { IfOk result (IsSpot path.now
            (Lines (chosen lines.entry).text (chosen lines.entry).first_line) region) }
        ensures counted { OnOk result (self.new ≡ adds self.old (ones (is_clamped
            (Lines (chosen lines.entry).text (chosen lines.entry).first_line) region)) 0) }
    {
        match lines {
            Extract::Whole(source) => Ok(self.spot_in_file(path, source, region)),
            Extract::Part(lines) => self.spot_in_lines(path, lines, region),
        }
    }

    /// Where a region of a file is.
    fn spot_in_file<'a>(&mut self, path: &'a str, source: &'a Source, region: Region) -> Spot<'a>
        ensures is { IsSpot path.now (Lines source.now.lines 1) region result }
        ensures counted { self.new ≡ adds self.old (ones (is_clamped (Lines source.now.lines 1) region)) 0 }
    {
        let text = ShownText::Lines(&source.lines);
        self.spot_in_text(path, text, &source.starts, 1, region)
    }

    /// Where a region is in lines that the input has.
    fn spot_in_lines<'a>(
        &mut self,
        path: &'a str,
        lines: &'a Carried,
        region: Region,
    ) -> Result<Spot<'a>, AllocError>
        ensures is { IfOk result (IsSpot path.now (Lines (string_bytes lines.now.text) lines.now.first_line) region) }
        ensures counted { OnOk result (self.new ≡ adds self.old
            (ones (is_clamped (Lines (string_bytes lines.now.text) lines.now.first_line) region)) 0) }
    {
        let text = lines.text.as_str();
        let starts = line_starts(self.alloc, text)?;
        let text = ShownText::Text(text);
        Ok(self.spot_in_text(path, text, &starts, lines.first_line, region))
    }

    /// Where a region is in this text, whose lines start at these bytes and the first of them has this number.
    fn spot_in_text<'a>(
        &mut self,
        path: &'a str,
        text: ShownText<'a>,
        starts: &[usize],
        first_line: usize,
        region: Region,
    ) -> Spot<'a>
        requires lined { starts.now ≡ starts_of (shown_text text) }
        ensures is { IsSpot path.now (Lines (shown_text text.entry) first_line) region result }
        ensures counted { self.new
            ≡ adds self.old (ones (is_clamped (Lines (shown_text text.entry) first_line) region)) 0 }
    {
        let lookup = Lookup {
            text: text.as_str(),
            starts,
            first_line,
        };
        let located = locate(lookup, region);
        let content = Content::Lines { text, first_line };
        self.clamped = counted(self.clamped, located.clamped);
        Spot {
            source: Shown { path, content },
            start: located.span.start,
            end: located.span.end,
        }
    }
}

/// Whether it is settled which part of its lines an edit changes, if lines are at hand.
pub fn is_settled_in(
    alloc: Global,
    hand: Hand<'_>,
    edit: &SuggestedEdit,
) -> Result<bool, AllocError>
    ensures value { IfOk result (λ is. is ≡ spec.settled_in (sight_in (at_hand hand.entry)
        (string_bytes edit.now.file) edit.now.region edit.now.carried) edit.now.region) }
{
    match lines_for(hand, edit.file.as_str(), &edit.carried) {
        Some(Extract::Whole(source)) => {
            Ok(is_settled_at(source.text(), &source.starts, 1, edit.region))
        }
        Some(Extract::Part(lines)) => {
            let text = lines.text.as_str();
            let starts = line_starts(alloc, text)?;
            Ok(is_settled_at(text, &starts, lines.first_line, edit.region))
        }
        None => Ok(true),
    }
}

/// Whether it is settled where in a text a region lies, whose lines start at these bytes.
fn is_settled_at(text: &str, starts: &[usize], first_line: usize, region: Region) -> bool
    ensures value { result ≡ is_settled text.now starts.now first_line region }
{
    let lookup = Lookup {
        text,
        starts,
        first_line,
    };
    is_settled(lookup, region)
}

/// The place of a region of which nothing is at hand.
pub fn spot_nowhere<'a>(is_short: bool, path: &'a str, region: Region) -> Spot<'a>
    ensures is { IsSpot path.now (spec.unseen is_short (spec.start_line_of region) (spec.column_of region)) region
        result }
{
    let content = unseen(is_short, line_of(region), column_of(region));
    let at = blank_length(content);
    Spot {
        source: Shown { path, content },
        start: at,
        end: at,
    }
}

/// A count, with one more if there is one.
pub fn counted(count: u64, is_one: bool) -> u64
    ensures value { result ≡ more count (ones is_one) }
{
    if is_one {
        count.saturating_add(1)
    } else {
        count
    }
}

/// The line on which a region starts, where it has one.
fn line_of(region: Region) -> Option<usize>
    ensures value { result ≡ spec.start_line_of region }
{
    match region {
        Region::Lines(lines) => Some(lines.start_line),
        _ => None,
    }
}

/// The column at which a region starts, where it has one.
fn column_of(region: Region) -> Option<usize>
    ensures value { result ≡ spec.column_of region }
{
    match region {
        Region::Lines(lines) => lines.start_column,
        _ => None,
    }
}

/// The most columns that a place is shown at after blanks.
const MOST_COLUMNS: usize = 65_536;

/// What is shown of a line and a column of which nothing is at hand.
fn unseen<'a>(is_short: bool, line: Option<usize>, column: Option<usize>) -> Content<'a>
    ensures value { sight_of result ≡ spec.unseen is_short line column }
{
    match (is_short, line, column) {
        (true, Some(line), Some(column)) if column >= 1 && column <= MOST_COLUMNS => {
            Content::Blank { line, column }
        }
        _ => Content::Nothing { line, column },
    }
}

/// The byte at which a place is shown of which nothing is at hand.
fn blank_length(content: Content<'_>) -> usize
    ensures value { result ≡ spec.blanks_in (sight_of content.entry) }
{
    match content {
        Content::Blank { column, .. } => column.saturating_sub(1),
        _ => 0,
    }
}
