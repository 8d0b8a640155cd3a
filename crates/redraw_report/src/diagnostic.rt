//! What a tool reports of one finding, in whatever format it wrote that.

/// One finding: what is wrong, where, and what else is said of it.
#[derive(Drop)]
pub struct Diagnostic {
    /// How severe it is.
    pub severity: Severity,
    /// What is wrong. The text isn't trusted.
    pub message: String,
    /// The name of the rule that it breaks, where it has one.
    pub code: Option<Code>,
    /// The places that it speaks of, in the order given.
    pub spans: Vec<FileSpan>,
    /// What else is said of it, in the order given.
    pub children: Vec<Child>,
    /// Files of the project that it is about, and folders, with a slash at their end, by absolute paths. A relative
    /// path that can't be found is looked for below the folders of the files too, and upwards; a path below one of the
    /// folders below that of all files.
    pub homes: Vec<String>,
    /// Whether of an edit of several lines those that go are shown too, as in a diff. They aren't where the report has
    /// to be what its tool prints.
    pub shows_gone: bool,
}

/// How severe something is.
#[derive(Clone, Copy, PartialEq, Eq)]
pub enum Severity {
    Error,
    Warning,
    Info,
    Note,
    Help,
    /// A text that stands without the name of a level.
    Plain,
}

/// The name of a rule, and the address of a page that explains it.
#[derive(Drop)]
pub struct Code {
    /// The name, as `E0308`.
    pub id: String,
    /// The address, where one is known.
    pub url: Option<String>,
}

/// What is said of a finding beside its message: a note or help, with places of its own, with edits, or with neither.
#[derive(Drop)]
pub struct Child {
    /// How severe it is.
    pub severity: Severity,
    /// What is said. The text isn't trusted.
    pub message: String,
    /// The places that it speaks of; none of an edit.
    pub spans: Vec<FileSpan>,
    /// The edits that it suggests: one of these lists is to be made, all of it.
    pub alternatives: Vec<Vec<SuggestedEdit>>,
    /// Whether it only goes on, in another file, with the places of what is before it, and says nothing of its own.
    pub goes_on: bool,
}

/// A place in a file that is spoken of.
#[derive(Drop)]
pub struct FileSpan {
    /// The file, by the name that the tool gave it.
    pub file: String,
    /// Where in the file.
    pub region: Region,
    /// What is said of the place, where something is.
    pub label: Option<String>,
    /// Whether it is the point of the report; else it helps to see the point.
    pub is_primary: bool,
    /// Lines of the file, where the input has them.
    pub carried: Option<Carried>,
}

/// A suggested edit: a part of a file, and the text that is to stand in its place.
#[derive(Drop)]
pub struct SuggestedEdit {
    /// The file, by the name that the tool gave it.
    pub file: String,
    /// The part of it that goes.
    pub region: Region,
    /// What stands in its place.
    pub replacement: String,
    /// Lines of the file, where the input has them.
    pub carried: Option<Carried>,
}

/// Lines of a file that the input itself holds.
#[derive(Drop)]
pub struct Carried {
    /// The number of the first of the lines, from 1.
    pub first_line: usize,
    /// The lines, with line feeds between them and none after the last.
    pub text: String,
    /// Whether these are whole lines, as the file had them: then they are shown in place of the file where it holds
    /// others. Else they are shown only where the file can't be read.
    pub is_whole: bool,
}

/// A part of a file, as the tool counted it.
#[derive(Clone, Copy, PartialEq, Eq, PartialOrd, Ord)]
pub enum Region {
    /// From byte `start` to before byte `end` of the file, from 0.
    Bytes {
        start: usize,
        end: usize,
    },
    /// By lines and columns.
    Lines(LineRegion),
    /// From character `start` to before character `end` of the file, from 0.
    Chars {
        start: usize,
        end: usize,
        unit: Unit,
    },
}

/// A part of a file by lines and columns, all counted from 1: from a column of a line to before a column of the same or
/// a later line. Without a start column it begins with its first line, but without any columns with the first character
/// of that line that isn't a blank. Without an end column it ends with its last line, before that line's end.
#[derive(Clone, Copy, PartialEq, Eq, PartialOrd, Ord)]
pub struct LineRegion {
    pub start_line: usize,
    pub start_column: Option<usize>,
    pub end_line: usize,
    pub end_column: Option<usize>,
    /// What the columns count.
    pub unit: Unit,
}

/// What a tool counts as one character.
#[derive(Clone, Copy, PartialEq, Eq, PartialOrd, Ord)]
pub enum Unit {
    /// Units of UTF-16: a character outside of the basic plane is two.
    Utf16,
    /// Unicode scalar values.
    CodePoints,
    /// Bytes of UTF-8.
    Bytes,
    /// Columns of a terminal: a wide character is two, and a tab goes on to the next multiple of eight.
    Display,
    /// Nothing says what: units of UTF-16 then, and an edit is drawn only where all of these agree.
    Unsaid,
}
