//! A source whose lines are known by number and by byte.
ghost use Rattle.std.specs.Prelude.{◌≡◌, ◌↔◌, ℕ, List, [], ◌+◌, ◌-◌, ◌<◌, ◌≤◌, true, All, Contains, map, length};
ghost use Rattle.std.specs.Prelude.{IfOk, IfSome, IsNone, nat_lt};
ghost use Rattle.std.specs.Option.{option_copied};
ghost use Rattle.std.specs.List.{list_any};
ghost use Rattle.snippet_lines.specs.Lines.{Line, line_at, source_lines, text_at, start_of, newline_count};
ghost use Rattle.snippet_lines.specs.CutLines.{AreLinesOf};
ghost use Rattle.snippet_lines.specs.Lines.{StandsAt};
ghost use Rattle.snippet_lines.specs.Starts.{line_starts as spec_starts};
ghost use Rattle.snippet_parts.specs.LineTable.{table_entry, entry_at, touched_entries};
ghost use Rattle.snippet_lines.specs.Place.{line_of, location_of, steps_after_text, locations_of};
ghost use Rattle.snippet_lines.specs.IsSpan.{IsSpan, IsSpanBorder};
ghost use Rattle.snippet_parts.specs.Annotated as spec;
ghost use Rattle.snippet_parts.specs.Depths.{places_of, share_line};
ghost use Rattle.snippet_parts.specs.Chains.{IsLongestChain};
ghost use Rattle.snippet_parts.specs.Entries.{Ascends};
ghost use Rattle.snippet_parts.specs.Marked.{first_line, last_line};
ghost use Rattle.snippet_parts.specs.OnLine.{numbers_of_lines, AreEntriesOn, seen_kept};
ghost use Rattle.snippet_parts.specs.LineStretches.{is_seen};
ghost use Rattle.snippet_model.specs.declared.snippet.Annotation.{Annotation};
ghost use Rattle.snippet_splice.specs.Edits.{edit_of};
ghost use Rattle.snippet_splice.specs.FirstOverlap.{AreDisjoint};
ghost use Rattle.snippet_splice.specs.Splice.{IsSplice};
ghost use Rattle.snippet_text.specs.TextBounds.{IsInText, IsOffset, TextFits};
ghost use Rattle.snippet_style.specs.Bounds.{HasNext, IsSourceColumn, IsSourceEnd};

use crate::annotated_lines::annotated_lines;
use crate::entries::AnnotatedLineInfo;
use crate::line_place::locations_near;
use crate::starts::{Starts, last_starting_by, nth_line_start};
use snippet_lines::line_bounds::{line_bounds, line_index};
use snippet_lines::lines::{newline_count, without_line_end};
use snippet_lines::place::Loc;
use snippet_lines::source_lines::{SourceLines, line_starts};
use snippet_model::snippet::{Annotation, Patch};
use snippet_splice::{SplicedLines, spliced_lines};
use std::alloc::{AllocError, Global};
use std::marker::Model;
use std::ops::Range;

/// A line of a source.
#[derive(Clone, Copy, Debug)]
pub struct LineInfo<'a> {
    /// Its text, without its end.
    pub line: &'a str,
    /// Its number.
    pub line_index: usize,
    /// The byte at which it starts.
    pub start_byte: usize,
    /// The byte after it, line end counted.
    pub end_byte: usize,
}

/// Where the line starts that is the only one kept, counted from that line.
const ALONE: [usize; 1] = [0];

/// A source, cut into lines that have numbers.
///
/// A line has a text and an end: LF, CR LF, or nothing at the end of the source. No text holds an LF, and a CR directly
/// before an LF belongs to the end. An empty source has one empty line, and one that ends with LF has no line after
/// that. Joined, the lines and their ends are the source, and no other lines meet this rule.
///
/// Where lines start is kept for some lines that follow one another, all of them or those that are shown; any other
/// line is looked for where it is asked for. Where the lines of a source are lent, none has to be.
#[derive(Drop)]
pub struct SourceMap<'a> {
    alloc: Global,
    /// The byte at which each line that is kept starts, counted from the first of them; at least one line is kept.
    starts: Starts<'a>,
    /// How many lines stand before these.
    skipped: usize,
    /// The byte at which the first of these starts.
    from: usize,
    /// The byte after the last of these, line end counted.
    end: usize,
    source: &'a str,
    line_start: usize,
}

impl<'a> Model for SourceMap<'a> {
    ghost use Rattle.snippet_lines.specs.Lines.{Source};

    ghost Value = { Source };

    ghost use Rattle.snippet_parts.specs.LineTable.{IsLineTable};
    ghost use Rattle.snippet_parts.specs.MapStarts.{starts_of};

    ghost view = { λ m. record { text = m.source.now; first = m.line_start } };

    ghost invariant = { λ m. IsLineTable m.source.now m.line_start m.skipped m.from m.end
        (starts_of m.starts) };
}

impl<'a> SourceMap<'a> {
    /// The map of a source whose first line has the number `line_start`.
    ///
    /// The source has to have fewer than 2^56 bytes, and the number after its last line's to fit in a `usize`. The one
    /// error is that memory ran out.
    pub fn new(
        alloc: Global,
        source: &'a str,
        line_start: usize,
    ) -> Result<SourceMap<'a>, AllocError>
        requires fits { TextFits source.now }
        requires numbers { HasNext (line_start + newline_count source.now) }
        ensures ok { IfOk result (λ m. m ≡ record { text = source.now; first = line_start }) }
    {
        SourceMap::near(alloc, source, line_start, 0..source.len())
    }

    /// The map that keeps where the lines start from the one that holds the start of a range of bytes to the one
    /// that holds its end: it is cheaper where no others are asked for.
    ///
    /// The one error is that memory ran out.
    pub fn near(
        alloc: Global,
        source: &'a str,
        line_start: usize,
        bytes: Range<usize>,
    ) -> Result<SourceMap<'a>, AllocError>
        requires fits { TextFits source.now }
        requires numbers { HasNext (line_start + newline_count source.now) }
        requires ordered { bytes.start ≤ bytes.end }
        ensures ok { IfOk result (λ m. m ≡ record { text = source.now; first = line_start }) }
    {
        let first = line_bounds(source, bytes.start);
        let from = first.start;
        let skipped = line_index(source, bytes.start);
        // Most ranges end on the line on which they start: then no other has to be looked for.
        if bytes.end < first.end {
            return Ok(SourceMap {
                alloc,
                starts: Starts::Lent(&ALONE),
                skipped,
                from,
                end: first.end,
                source,
                line_start,
            });
        }
        let end = line_bounds(source, bytes.end).end;
        Ok(SourceMap {
            alloc,
            starts: Starts::Found(line_starts(alloc, &source[from..end])?),
            skipped,
            from,
            end,
            source,
            line_start,
        })
    }

    /// The map of a source whose lines were found before. It takes no memory.
    pub fn indexed(alloc: Global, lines: &'a SourceLines<'_>, line_start: usize) -> SourceMap<'a>
        requires fits { TextFits lines.now }
        requires numbers { HasNext (line_start + newline_count lines.now) }
        ensures value { result ≡ record { text = lines.now; first = line_start } }
    {
        SourceMap::with_starts(alloc, lines.source(), lines.starts(), line_start)
    }

    /// The map of a source's text and the bytes at which its lines start.
    pub(crate) fn with_starts(
        alloc: Global,
        source: &'a str,
        starts: &'a [usize],
        line_start: usize,
    ) -> SourceMap<'a>
        requires starts { starts.now ≡ spec_starts source.now }
        requires fits { TextFits source.now }
        requires numbers { HasNext (line_start + newline_count source.now) }
        ensures value { result ≡ record { text = source.now; first = line_start } }
    {
        SourceMap {
            alloc,
            starts: Starts::Lent(starts),
            skipped: 0,
            from: 0,
            end: source.len(),
            source,
            line_start,
        }
    }

    /// The source.
    pub fn source(&self) -> &'a str
        ensures value { result.now ≡ self.now.text }
    {
        self.source
    }

    /// The number of the first line.
    pub fn line_start(&self) -> usize
        ensures value { result ≡ self.now.first }
    {
        self.line_start
    }

    /// How many lines the source has: at least one.
    pub fn line_count(&self) -> usize
        ensures value { result ≡ length (source_lines self.now.text) }
        // What these lines are, and that the source has no others.
        ensures lines { AreLinesOf self.now.text (source_lines self.now.text) }
        ensures only { (ls : List Line) → AreLinesOf self.now.text ls
            → ls ≡ source_lines self.now.text }
    {
        if self.end == self.source.len() {
            self.skipped + self.starts.as_slice().len()
        } else {
            newline_count(self.source) + 1
        }
    }

    /// The text of the line of a number, without its end; `None` where the source has no such line.
    pub fn get_line(&self, number: usize) -> Option<&'a str>
        ensures value { option_copied result ≡ line_at self.now number }
        ensures stands { let at = start_of (source_lines self.now.text) (number - self.now.first) in
            IfSome result (λ t. StandsAt self.now.text t.now at) }
    {
        let index = number.checked_sub(self.line_start)?;
        if self.has_line(index) {
            Some(self.text_of_line(index))
        } else {
            None
        }
    }

    /// The greatest depth of spans of several lines, and the lines that are kept, each with its entries.
    ///
    /// The lines ascend. The first and the last line of each span are among them, and all lines that a `Visible` span
    /// touches. Their entries stand in the order made: those of spans on one line as given, then of each span of
    /// several lines its start, its bars and its end. A span has an entry at its end alone where a later span has the
    /// same place. A span is primary where it is, or one before it of its place.
    ///
    /// A depth says in which column a bar stands, from 1. Spans of several lines are taken by first line, then the one
    /// with the later last line, else as given. Those that share a line and differ in place have different depths, and
    /// the greatest depth is the length of a longest list of places in which each shares a line with the next. Here
    /// spans of the lines 1 to 6, 2 to 3 and 4 to 5 have the depths 1, 2 and 2:
    ///
    /// ```text
    /// 1 |    a {
    ///   |  ____-
    /// 2 | |   b {
    ///   | | ____-
    /// 3 | ||  }
    ///   | ||__- two
    /// 4 | |   c {
    ///   | | ____^
    /// 5 | ||  }
    ///   | ||__^ three
    /// 6 | |  }
    ///   | |__- one
    /// ```
    ///
    /// No span may have a fault, as `check_span` finds it. The one error is that memory ran out.
    pub fn annotated_lines<'b>(
        &self,
        annotations: &'b [Annotation<'_>],
        fold: bool,
    ) -> Result<(usize, Vec<AnnotatedLineInfo<'b>>), AllocError>
    where
        'a: 'b,
        requires spans { All (λ a. IsSpan self.now.text a.span.start a.span.end) annotations.now }
        // The lines that are kept, ascending, each with its number, its text, its entries in the order made, and
        // whether a span keeps it without marking it.
        ensures lines { IfOk result (λ drawn. map seen_kept drawn.1.items
            ≡ spec.annotated_lines fold self.now annotations.now) }
        // Their numbers ascend, and the first and the last line of each span are among them.
        ensures ascending { IfOk result (λ drawn. Ascends (numbers_of_lines drawn.1.items)) }
        ensures first_lines { IfOk result (λ drawn. (a : Annotation) → Contains annotations.now a
            → Contains (numbers_of_lines drawn.1.items) (self.now.first + first_line self.now.text a)) }
        ensures last_lines { IfOk result (λ drawn. (a : Annotation) → Contains annotations.now a
            → Contains (numbers_of_lines drawn.1.items) (self.now.first + last_line self.now.text a)) }
        // So is each line of a span that isn't marked. `keep` is set on these lines and no others.
        ensures seen_lines { IfOk result (λ drawn. (a : Annotation) → Contains annotations.now a
            → (k : ℕ) → is_seen self.now.text k a ≡ true
            → Contains (numbers_of_lines drawn.1.items) (self.now.first + k)) }
        ensures keep { IfOk result (λ drawn. All (λ info. info.keep
            ≡ list_any (is_seen self.now.text (info.line_index - self.now.first)) annotations.now) drawn.1.items) }
        // The entries of each line.
        ensures entries { IfOk result (λ drawn. All (λ info. AreEntriesOn self.now annotations.now
            (info.line_index - self.now.first) info.annotations.items) drawn.1.items) }
        ensures deepest { IfOk result (λ drawn. drawn.0 ≡ spec.deepest self.now annotations.now) }
        // The greatest depth is the length of a longest list of places, each of which shares a line with the next.
        ensures longest { IfOk result (λ drawn. IsLongestChain
            (places_of (map spec.long_place (spec.long_spans self.now annotations.now))) drawn.0) }
        // Two spans of several lines that share a line and have one depth start and end at the same bytes.
        ensures distinct { (a b : Annotation) → Contains annotations.now a → Contains annotations.now b
            → spec.is_long self.now.text a ≡ true → spec.is_long self.now.text b ≡ true
            → share_line (spec.long_place (spec.long_entry self.now a))
            (spec.long_place (spec.long_entry self.now b)) ≡ true
            → spec.depth_of self.now annotations.now a ≡ spec.depth_of self.now annotations.now b
            → spec.long_place (spec.long_entry self.now a) ≡ spec.long_place (spec.long_entry self.now b) }
    {
        annotated_lines(self.alloc, self, annotations, fold)
    }

    /// Where a span of bytes starts and ends. It may have no fault, as `check_span` finds it.
    ///
    /// A byte is on the line whose bytes, line end counted, hold it, and one after all of them on the last line. Its
    /// character and its column are the number and the width of the characters before it in the line's text: in `日本`
    /// byte 3 is at character 1, column 2.
    ///
    /// The end of an empty span is its start. A start after its line's text, at the line end, counts one character more
    /// than the text has; such an end does too, and one column more, if the span started on an earlier line.
    pub fn span_to_locations(&self, span: Range<usize>) -> (Loc, Loc)
        requires span { IsSpan self.now.text span.start span.end }
        ensures value { result ≡ locations_of self.now span.start span.end }
        ensures start_bound { IsSourceColumn result.0.display }
        ensures end_bound { IsSourceEnd result.1.display }
        ensures start_char { IsOffset result.0.char }
        ensures end_char { IsOffset result.1.char }
    {
        locations_near(self, &mut None, span)
    }

    /// The lines that a span of bytes touches, in order: from the one that holds its start to the one that holds its
    /// end. The span may have no fault, as `check_span` finds it.
    ///
    /// The last line holds each byte after it too. The one error is that memory ran out.
    pub fn span_to_lines(&self, span: Range<usize>) -> Result<Vec<LineInfo<'a>>, AllocError>
        requires span { IsSpan self.now.text span.start span.end }
        ensures lines { IfOk result
            (λ infos. map table_entry infos.items ≡ touched_entries self.now span.start span.end) }
    {
        let first = self.line_index_of(span.start);
        let last = self.line_index_of(span.end);
        let mut lines = Vec::new(self.alloc);
        for index in first..last + 1 {
            lines.push(self.line_info(index))?;
        }
        Ok(lines)
    }

    /// The part of the source that is shown with these patches applied; `None` exactly where there are none.
    ///
    /// Folded it goes from the line on which the first patch starts to the end of the line on which the last one ends,
    /// or to the end of the last trimmed replacement, if that ends with a line feed. Unfolded it is the whole patched
    /// source. Line ends that are copied before the last patch are written as line feeds.
    ///
    /// No span may have a fault, as `check_span` finds it, and no two patches may overlap, as `check_patches` finds it.
    /// The one error is that memory ran out.
    pub fn splice_lines<'b>(
        &self,
        patches: &'b [Patch<'_>],
        fold: bool,
    ) -> Result<Option<SplicedLines<'b>>, AllocError>
        requires spans { All (λ p. IsSpan self.now.text p.span.start p.span.end) patches.now }
        requires disjoint { AreDisjoint (map edit_of patches.now) }
        ensures none { IfOk result (λ t. IsNone t ↔ (patches.now ≡ [])) }
        ensures splice { IfOk result (λ t. IfSome t (IsSplice self.now.text (map edit_of patches.now) fold)) }
    {
        spliced_lines(self.alloc, self.source(), patches, fold)
    }

    /// The location of a byte of this line.
    pub(crate) fn locate(&self, line: &LineInfo<'_>, byte: usize) -> Loc
        requires border { IsSpanBorder self.now.text byte }
        requires line { let ls = source_lines self.now.text in
            table_entry line.now ≡ entry_at self.now.first ls (line_of ls byte) }
        requires short { TextFits self.now.text }
        ensures location { result ≡ location_of self.now byte }
        ensures byte { result.byte ≡ byte }
        ensures char_bound { IsInText result.char }
        ensures display_bound { IsSourceColumn result.display }
    {
        Loc::on_line(line.line, line.line_index, line.start_byte, byte)
    }

    /// The location of a byte of this line that stands after one whose location is known.
    pub(crate) fn locate_later(&self, line: &LineInfo<'_>, known: Loc, byte: usize) -> Loc
        requires known_border { IsSpanBorder self.now.text known.byte }
        requires border { IsSpanBorder self.now.text byte }
        requires known { known ≡ location_of self.now known.byte }
        requires known_line { let ls = source_lines self.now.text in
            table_entry line.now ≡ entry_at self.now.first ls (line_of ls known.byte) }
        requires line { let ls = source_lines self.now.text in
            table_entry line.now ≡ entry_at self.now.first ls (line_of ls byte) }
        requires later { known.byte ≤ byte }
        requires short { TextFits self.now.text }
        ensures location { result ≡ location_of self.now byte }
        ensures byte { result.byte ≡ byte }
        ensures char_bound { IsInText result.char }
        ensures display_bound { IsSourceColumn result.display }
    {
        known.later_on_line(line.line, line.start_byte, byte)
    }

    /// 1 if a byte of this line lies after the end of the line's text, else 0.
    pub(crate) fn steps_after_text(&self, line: &LineInfo<'_>, byte: usize) -> usize
        requires line { let ls = source_lines self.now.text in
            table_entry line.now ≡ entry_at self.now.first ls (line_of ls byte) }
        requires short { TextFits self.now.text }
        ensures value { result ≡ steps_after_text self.now.text byte }
        ensures bound { result ≤ 1 }
    {
        usize::from(line.start_byte + line.line.len() < byte)
    }

    /// The line that holds a byte, from 0.
    pub(crate) fn line_index_of(&self, byte: usize) -> usize
        ensures value { result ≡ line_of (source_lines self.now.text) byte }
        ensures within { result < length (source_lines self.now.text) }
        ensures bound { HasNext result }
        ensures short { TextFits self.now.text }
    {
        // A byte after the source is on its last line, as its last byte is.
        let at = byte.min(self.source.len().saturating_sub(1));
        if self.from <= at && at < self.end {
            self.skipped + last_starting_by(self.starts.as_slice(), at - self.from)
        } else {
            line_index(self.source, byte)
        }
    }

    /// Whether the source has a line `index`, from 0.
    fn has_line(&self, index: usize) -> bool
        ensures value { result ≡ nat_lt index (length (source_lines self.now.text)) }
    {
        index < self.skipped + self.starts.as_slice().len() || index < self.line_count()
    }

    /// The text of line `index`, from 0, without its end.
    pub(crate) fn text_of_line(&self, index: usize) -> &'a str
        requires within { index < length (source_lines self.now.text) }
        ensures value { result.now ≡ text_at (source_lines self.now.text) index }
    {
        self.line_info(index).line
    }

    /// Line `index`, from 0.
    fn line_info(&self, index: usize) -> LineInfo<'a>
        requires within { index < length (source_lines self.now.text) }
        ensures entry { table_entry result ≡ entry_at self.now.first (source_lines self.now.text) index }
    {
        let source = self.source;
        let start = self.start_of_line(index);
        let end = self.start_of_line(index + 1);
        let (line, _) = without_line_end(&source[start..end]);
        LineInfo {
            line,
            line_index: self.line_number_of(index),
            start_byte: start,
            end_byte: end,
        }
    }

    /// The byte at which line `index` starts, from 0; of the number of lines, the byte after the source.
    fn start_of_line(&self, index: usize) -> usize
        requires within { index ≤ length (source_lines self.now.text) }
        ensures value { result ≡ start_of (source_lines self.now.text) index }
    {
        match self.kept_start(index) {
            Some(start) => start,
            None => nth_line_start(self.source, index),
        }
    }

    /// The byte at which line `index` starts, where it is kept.
    fn kept_start(&self, index: usize) -> Option<usize>
        ensures value { IfSome result (λ start. start ≡ start_of (source_lines self.now.text) index) }
    {
        let at = index.checked_sub(self.skipped)?;
        let starts = self.starts.as_slice();
        if at == starts.len() {
            return Some(self.end);
        }
        let start = starts.get(at)?;
        Some(self.from + *start)
    }

    /// The number of line `index`, from 0.
    pub(crate) fn line_number_of(&self, index: usize) -> usize
        requires within { index < length (source_lines self.now.text) }
        ensures value { result ≡ self.now.first + index }
    {
        self.line_start + index
    }

    /// The line that holds a byte.
    pub(crate) fn line_holding(&self, byte: usize) -> LineInfo<'a>
        ensures entry { let ls = source_lines self.now.text in
            table_entry result ≡ entry_at self.now.first ls (line_of ls byte) }
        ensures short { TextFits self.now.text }
    {
        self.line_info(self.line_index_of(byte))
    }
}
