//! What is at hand to show a part of a file in: the file, or lines that the input has of it.

ghost use Rattle.std.specs.Prelude.{◌≡◌, Some};
ghost use Rattle.std.specs.List.{slice_get};
ghost use Rattle.std.specs.Option.{option_and_then, option_map};
ghost use Rattle.std.proofs.Props.{props};
ghost use Rattle.redraw_read.specs.Extract as spec;
ghost use Rattle.redraw_read.specs.Extract.{chosen, held, held_by_file};
ghost use Rattle.redraw_read.specs.FileIndex.{IsIndexOf};

use crate::index::FileIndex;
use crate::lines::has_lines;
use crate::source::Source;
use crate::sources::File;
use redraw_report::diagnostic::Carried;

/// What is at hand, and how it is drawn.
#[derive(Clone, Copy)]
pub struct Hand<'a> {
    /// The files that were read.
    pub files: &'a [File],
    /// Where each stands among them.
    pub index: &'a FileIndex,
    /// A file of the project that is spoken of; empty where none is known.
    pub home: &'a str,
    /// Whether each finding is drawn on one line, which tells places by marks alone.
    pub is_short: bool,
    pub ghost indexed: { IsIndexOf index.now files.now } by { Prim.hlevel props },
}

/// Lines of a file.
#[derive(Clone, Copy)]
pub enum Extract<'a> {
    /// All of it.
    Whole(&'a Source),
    /// Those that the input has.
    Part(&'a Carried),
}

/// The lines in which a part of a file is shown, where any are at hand.
pub fn lines_for<'a>(
    hand: Hand<'a>,
    file: &str,
    carried: &'a Option<Carried>,
) -> Option<Extract<'a>>
    ensures value { option_map chosen result
        ≡ spec.lines_for (held_by_file hand.entry.files.now file.now hand.entry.home.now) carried.now }
{
    match (source_of(hand, file), carried) {
        (None, None) => None,
        (None, Some(lines)) => Some(Extract::Part(lines)),
        (Some(source), None) => Some(Extract::Whole(source)),
        (Some(source), Some(lines)) => Some(choice_of(source, lines)),
    }
}

/// The file, where it has these lines of it; else the lines. Parts of lines may be other than the file's: it counts
/// more than they.
fn choice_of<'a>(source: &'a Source, lines: &'a Carried) -> Extract<'a>
    ensures value { Some (chosen result) ≡ spec.lines_for (Some source.now.lines) (Some lines.now) }
{
    if !lines.is_whole || has_lines(source, lines.first_line, lines.text.as_str()) {
        Extract::Whole(source)
    } else {
        Extract::Part(lines)
    }
}

/// What the file of this name holds, where it was read.
fn source_of<'a>(hand: Hand<'a>, name: &str) -> Option<&'a Source>
    ensures value { option_map (λ source. source.now.lines) result
        ≡ held_by_file hand.entry.files.now name.now hand.entry.home.now }
{
    match hand.index.place(name, hand.home) {
        Some(place) => source_at(hand.files, place),
        None => None,
    }
}

/// What the file at this place holds, where it was read.
fn source_at<'a>(files: &'a [File], place: usize) -> Option<&'a Source>
    ensures value { option_map (λ source. source.now.lines) result
        ≡ option_and_then held (slice_get files.now place) }
{
    match files.get(place) {
        Some(file) => file.source(),
        None => None,
    }
}
