//! The readings of a diagnostic that its JSON leaves open. rustc's own text tells which of them is meant: of one its
//! drawing is that text.

use crate::named_files::NamedFiles;
use crate::plain::without_styles;
use std::alloc::{AllocError, Global};

/// What a reading does otherwise than the first one.
#[derive(Clone, Copy)]
pub struct Reading {
    /// Edits that meet without overlapping are made together, and an alternative begins with an edit that is left of
    /// the one before.
    pub joins_edits: bool,
    /// A place in a macro is shown in the first file around it that the text names: that of the diagnostic itself, or
    /// that of its children.
    pub shows_named: bool,
    /// The note on macros is the one that the text has, in its words, and none if it has none.
    pub quotes_note: bool,
    /// Places with labels, be they of suggestions, come before primary ones without, and a place with a label is one
    /// too if it is the start of a file.
    pub puts_labels_first: bool,
}

/// The first reading.
pub const FIRST: Reading = Reading {
    joins_edits: false,
    shows_named: false,
    quotes_note: false,
    puts_labels_first: false,
};

/// Those that do one thing otherwise, in the order in which they are tried.
const ONE_OTHER: [Reading; 4] = [
    Reading {
        joins_edits: true,
        ..FIRST
    },
    Reading {
        shows_named: true,
        ..FIRST
    },
    Reading {
        quotes_note: true,
        ..FIRST
    },
    Reading {
        puts_labels_first: true,
        ..FIRST
    },
];

/// How many readings are tried after the first one.
const MOST_OTHERS: usize = 7;

/// What the JSON of a diagnostic, and the text that it has, leave open.
#[derive(Clone, Copy)]
pub struct Open {
    /// Which edits belong together.
    pub edits: bool,
    /// Where a place in a macro is shown, and which note tells of it.
    pub macros: bool,
    /// Where the labels of suggestions stand, or if a place is the start of a file or none.
    pub labels: bool,
}

impl Open {
    /// Whether something is.
    pub fn is_any(&self) -> bool {
        self.edits || self.macros || self.labels
    }

    /// Whether a reading only does otherwise what is open.
    fn has(&self, reading: Reading) -> bool {
        (self.edits || !reading.joins_edits)
            && (self.macros || !reading.shows_named && !reading.quotes_note)
            && (self.labels || !reading.puts_labels_first)
    }
}

/// The readings that are tried after the first one: those that do one thing otherwise that is open, and then those that
/// do two, in the same order.
pub fn others_of(alloc: Global, open: Open) -> Result<Vec<Reading>, AllocError> {
    let mut others = Vec::new(alloc);
    for one in ONE_OTHER {
        add_other(&mut others, open, one)?;
    }
    for (index, one) in ONE_OTHER.iter().enumerate() {
        for other in ONE_OTHER.iter().skip(index + 1) {
            add_other(&mut others, open, both_of(*one, *other))?;
        }
    }
    Ok(others)
}

/// Adds a reading that is tried, unless there are enough.
fn add_other(others: &mut Vec<Reading>, open: Open, reading: Reading) -> Result<(), AllocError> {
    if open.has(reading) && others.len() < MOST_OTHERS {
        others.push(reading)?;
    }
    Ok(())
}

/// The reading that does otherwise what these two do.
fn both_of(one: Reading, other: Reading) -> Reading {
    Reading {
        joins_edits: one.joins_edits || other.joins_edits,
        shows_named: one.shows_named || other.shows_named,
        quotes_note: one.quotes_note || other.quotes_note,
        puts_labels_first: one.puts_labels_first || other.puts_labels_first,
    }
}

/// What is read by: a reading, and what it asks of the text.
#[derive(Drop)]
pub struct Reader {
    pub joins_edits: bool,
    /// Whether places with labels come first, and one with a label may be the start of a file.
    pub puts_labels_first: bool,
    /// The files that the text names before the first title of a child, where places are shown by them.
    pub named: Option<NamedFiles>,
    /// The files that it names from there on.
    pub named_by_children: Option<NamedFiles>,
    /// The note on the macros that a diagnostic originates in.
    pub note: MacroNote,
}

/// The note on the macros that a diagnostic originates in.
#[derive(Drop)]
pub enum MacroNote {
    /// What its places say of them.
    OfPlaces,
    /// What the text says of them, before the edits that are suggested.
    BeforeEdits(String),
    /// What the text says of them, after all that is said.
    Last(String),
    /// None.
    Nowhere,
}

impl Reader {
    /// What a reading asks of a text, where there is one.
    pub fn new(alloc: Global, reading: Reading, text: Option<&str>) -> Result<Reader, AllocError> {
        let (named, named_by_children) = match text {
            Some(text) if reading.shows_named => named_in(alloc, text)?,
            _ => (None, None),
        };
        let note = match text {
            Some(text) if reading.quotes_note => note_in(alloc, text)?,
            _ => MacroNote::OfPlaces,
        };
        Ok(Reader {
            joins_edits: reading.joins_edits,
            puts_labels_first: reading.puts_labels_first,
            named,
            named_by_children,
            note,
        })
    }
}

/// The files that a text names, which may have styles: before the first title of a child, and from there on.
fn named_in(
    alloc: Global,
    text: &str,
) -> Result<(Option<NamedFiles>, Option<NamedFiles>), AllocError> {
    let plain = without_styles(alloc, text)?;
    let (own, of_children) = split_at_children(plain.as_str());
    let named = NamedFiles::new(alloc, own)?;
    let named_by_children = NamedFiles::new(alloc, of_children)?;
    Ok((Some(named), Some(named_by_children)))
}

/// What of a text stands before the first title of a child, and the rest.
fn split_at_children(text: &str) -> (&str, &str) {
    let own = before_words(before_words(text, "\nnote: "), "\nhelp: ");
    match text.strip_prefix(own) {
        Some(of_children) => (own, of_children),
        None => (text, ""),
    }
}

/// What of a text stands before the first place where these words do; all of it where they don't.
fn before_words<'t>(text: &'t str, words: &str) -> &'t str {
    match text.split_once(words) {
        Some((before, _)) => before,
        None => text,
    }
}

/// The note on macros that a text has, which may have styles.
fn note_in(alloc: Global, text: &str) -> Result<MacroNote, AllocError> {
    let plain = without_styles(alloc, text)?;
    match quoted_note(plain.as_str()) {
        Some(note) => placed_note(alloc, note, plain.as_str()),
        None => Ok(MacroNote::Nowhere),
    }
}

/// A note of a text: an edit that is shown as a group comes after it.
fn placed_note(alloc: Global, note: &str, text: &str) -> Result<MacroNote, AllocError> {
    let told = String::from_str(alloc, note)?;
    if has_title_after(text, note) {
        Ok(MacroNote::BeforeEdits(told))
    } else {
        Ok(MacroNote::Last(told))
    }
}

/// Whether a title comes after these words of a text.
fn has_title_after(text: &str, words: &str) -> bool {
    match text.split_once(words) {
        Some((_, rest)) => rest.contains("\nhelp: "),
        None => false,
    }
}

/// The first note of a text on the macros that its diagnostic originates in.
fn quoted_note(text: &str) -> Option<&str> {
    for line in text.split('\n') {
        match note_of_line(line.trim_start()) {
            Some(note) if is_on_macros(note) => return Some(note),
            _ => {}
        }
    }
    None
}

/// The note that a line is, without the blanks before it; in ASCII or Unicode.
fn note_of_line(line: &str) -> Option<&str> {
    line.strip_prefix("= note: ")
        .or(line.strip_prefix("\u{251c} note: "))
        .or(line.strip_prefix("\u{2570} note: "))
}

/// Whether a note tells of the macros that a diagnostic originates in.
fn is_on_macros(note: &str) -> bool {
    note.starts_with("this ") && note.contains(" originates in the ")
}
