//! Calls of a grid, and what it then holds and prints.

use Call::{Append, Link, Putc, Puts, Replace, SetStyle, SetStyleRange};
use Step::{Length, Make, Runs, Shows};
use annotate_snippets::renderer::parts::{ElementStyle, LevelInner, StyledBuffer};
use annotate_snippets::renderer::{AnsiColor, Stylesheet};
use snippet_style::char_count;
use std::alloc::{AllocError, Global};
use std::test::Fail;

const NONE: ElementStyle = ElementStyle::NoStyle;

const NUMBER: ElementStyle = ElementStyle::LineNumber;

const SOURCE: ElementStyle = ElementStyle::Quotation;

const ADDED: ElementStyle = ElementStyle::Addition;

const REMOVED: ElementStyle = ElementStyle::Removal;

const MARK: ElementStyle = ElementStyle::UnderlinePrimary;

const LABEL: ElementStyle = ElementStyle::LabelPrimary;

/// A call of a grid: its row first, then its cells.
#[derive(Clone, Copy)]
pub enum Call {
    Putc(u8, u32, char, ElementStyle),
    Puts(u8, u8, &'static str, ElementStyle),
    Append(u8, &'static str, ElementStyle),
    Replace(u8, u8, u8, &'static str),
    SetStyle(usize, usize, ElementStyle, bool),
    SetStyleRange(u8, u8, u8, ElementStyle, bool),
    Link(u8, u8, u8, &'static str),
}

/// A call, or what is to hold after those before it.
#[derive(Clone, Copy)]
enum Step {
    Make(Call),
    /// Under the sheet of this number there are so many rows, and this text.
    Shows(u8, usize, &'static str),
    /// There are so many runs.
    Runs(usize),
    /// The plain text has so many characters.
    Length(usize),
}

/// What is printed of the calls below.
const OPENED: &str = concat!(
    "\u{1b}[0merror: e\n",
    "  \u{1b}[0m|\n",
    "\u{1b}[0m1\u{1b}[31m \u{1b}[0m|\u{1b}[31m a\u{1b}[0m\n",
    "  \u{1b}[0m|\u{1b}[31m \u{1b}[0m^",
);

/// Where the first style isn't plain, a row begins in it.
const OPEN_AT_ROWS: &[Step] = &[
    Make(Putc(1, 2, '|', NUMBER)),
    Make(Putc(2, 0, '1', NUMBER)),
    Make(Putc(2, 2, '|', NUMBER)),
    Make(Putc(2, 4, 'a', SOURCE)),
    Make(Putc(3, 2, '|', NUMBER)),
    Make(Putc(3, 4, '^', MARK)),
    Make(Append(0, "error", ElementStyle::Level(LevelInner::Error))),
    Make(Append(0, ": e", ElementStyle::MainHeaderMsg)),
    Shows(1, 4, OPENED),
];

/// A linked id.
const LINKED: &[Step] = &[
    Make(Append(0, "E1", NONE)),
    Make(Link(0, 0, 2, "u")),
    Shows(0, 1, "\u{1b}]8;;u\u{1b}\\E1\u{1b}]8;;\u{1b}\\"),
];

/// `b` and `c` with links, and `b` in a colour.
const STYLED_LINKS: &str = concat!(
    "a\u{1b}[31m\u{1b}]8;;u\u{1b}\\b\u{1b}]8;;\u{1b}\\\u{1b}[0m",
    "\u{1b}]8;;v\u{1b}\\c\u{1b}]8;;\u{1b}\\",
);

/// The links without the colour.
const PLAIN_LINKS: &str =
    "a\u{1b}]8;;u\u{1b}\\b\u{1b}]8;;\u{1b}\\\u{1b}]8;;v\u{1b}\\c\u{1b}]8;;\u{1b}\\";

/// Links begin after an opening code and end before a reset.
const LINKS: &[Step] = &[
    Make(Putc(0, 0, 'a', NONE)),
    Make(Putc(0, 1, 'b', ADDED)),
    Make(Putc(0, 2, 'c', NONE)),
    Make(Link(0, 1, 2, "u")),
    Make(Link(0, 2, 9, "v")),
    Make(Link(0, 0, 0, "w")),
    Make(Link(1, 0, 9, "w")),
    Shows(2, 1, STYLED_LINKS),
    Shows(0, 1, PLAIN_LINKS),
];

/// Writes grow the grid as far as they reach.
const GROWING: &[Step] = &[
    Make(Putc(1, 3, '^', MARK)),
    Make(Puts(4, 2, "tèxt", SOURCE)),
    Make(Append(4, "label", LABEL)),
    Make(Append(6, "below", NONE)),
    Make(Puts(8, 2, "", NONE)),
    Shows(0, 7, "\n   ^\n\n\n  tèxtlabel\n\nbelow"),
];

/// `a`, `b` and a space, and `c`, each in a colour.
const COLOURED: &str = "\u{1b}[34ma\u{1b}[0m\u{1b}[32mb \u{1b}[0m\u{1b}[31mc\u{1b}[0m";

/// Only cells that are there get another style: at first the source and the space, and the label where it is
/// overwritten. There is no last cell, no second row, and no cell from 2 to before 1.
const RESTYLED: &[Step] = &[
    Make(Putc(0, 0, 'a', SOURCE)),
    Make(Putc(0, 1, 'b', SOURCE)),
    Make(Putc(0, 3, 'c', LABEL)),
    Make(SetStyleRange(0, 1, 9, ADDED, false)),
    Shows(3, 1, "a\u{1b}[32mb \u{1b}[0mc"),
    Make(SetStyle(0, 0, NUMBER, false)),
    Make(SetStyle(0, 1, REMOVED, false)),
    Make(SetStyle(0, 3, REMOVED, true)),
    Shows(3, 1, COLOURED),
    Make(SetStyle(0, usize::MAX, REMOVED, true)),
    Make(SetStyle(1, 0, REMOVED, true)),
    Make(SetStyleRange(0, 2, 1, REMOVED, true)),
    Shows(3, 1, COLOURED),
];

/// `a` and `f`, and dots in the colour of numbers between them.
const DOTTED: &str = "a\u{1b}[34m...\u{1b}[0mf";

/// Cells give way to a text of another length; nothing happens past the row, nor where there are no cells between the
/// two.
const REPLACED: &[Step] = &[
    Make(Puts(0, 0, "abcdef", SOURCE)),
    Make(Replace(0, 1, 5, "...")),
    Shows(3, 1, DOTTED),
    Make(Replace(0, 2, 2, "x")),
    Make(Replace(0, 4, 9, "x")),
    Make(Replace(1, 0, 1, "x")),
    Shows(3, 1, DOTTED),
];

/// Each call adds at most two runs, and cells of one role and link are one run: a put in the middle of a text leaves
/// three, and dots in place of all one. A line's number gives its role up only where it is overwritten.
const RUNS: &[Step] = &[
    Runs(0),
    Make(Puts(0, 0, "abc", SOURCE)),
    Make(Putc(0, 1, 'x', NUMBER)),
    Runs(3),
    Make(Replace(0, 0, 3, "...")),
    Runs(1),
    Make(SetStyle(0, 1, REMOVED, false)),
    Runs(1),
    Make(SetStyle(0, 1, REMOVED, true)),
    Runs(3),
    Shows(0, 1, "..."),
];

/// A cell far from the others takes no room for those before it.
const FAR: &[Step] = &[
    Make(Putc(0, 1_000_000, '^', NUMBER)),
    Runs(1),
    Length(1_000_001),
];

/// Cells that nothing was written into get a style, or a link, of their own.
const GAPS: &[Step] = &[
    Make(Putc(0, 70, 'a', REMOVED)),
    Make(SetStyleRange(0, 0, 69, ADDED, false)),
    Make(Link(0, 69, 70, "u")),
    Runs(3),
    Make(Replace(0, 1, 70, "")),
    Runs(2),
    Shows(3, 1, "\u{1b}[32m \u{1b}[0m\u{1b}[31ma\u{1b}[0m"),
];

/// The lists of calls.
const LISTS: &[&[Step]] = &[
    OPEN_AT_ROWS,
    LINKED,
    LINKS,
    GROWING,
    RESTYLED,
    REPLACED,
    RUNS,
    FAR,
    GAPS,
];

/// The sheet of this number: plain but for the styles of some roles.
fn sheet(number: u8) -> Stylesheet {
    let mut sheet = Stylesheet::plain();
    match number {
        1 => sheet.none = AnsiColor::Red.on_default(),
        2 => sheet.addition = AnsiColor::Red.on_default(),
        3 => {
            sheet.line_num = AnsiColor::Blue.on_default();
            sheet.addition = AnsiColor::Green.on_default();
            sheet.removal = AnsiColor::Red.on_default();
        }
        _ => {}
    }
    sheet
}

/// Whether a new grid holds all that these steps say.
fn holds_all(alloc: Global, steps: &[Step]) -> Result<bool, AllocError> {
    let mut buffer = StyledBuffer::new(alloc);
    let mut holds = true;
    for step in steps {
        holds = take(&mut buffer, *step)? && holds;
    }
    Ok(holds)
}

/// Makes a call, or says whether the grid holds what is to hold.
fn take(buffer: &mut StyledBuffer<'static>, step: Step) -> Result<bool, AllocError> {
    match step {
        Make(call) => {
            make(buffer, call)?;
            Ok(true)
        }
        Shows(number, rows, text) => shows(buffer, number, rows, text),
        Runs(runs) => Ok(buffer.num_runs() == runs),
        Length(count) => Ok(length(buffer)? == count),
    }
}

/// Whether a grid has so many rows, and this text under the sheet of this number.
fn shows(
    buffer: &StyledBuffer<'_>,
    number: u8,
    rows: usize,
    text: &str,
) -> Result<bool, AllocError> {
    let shown = buffer.render(LevelInner::Error, &sheet(number))?;
    Ok(buffer.num_lines() == rows && shown.as_str() == text)
}

/// How many characters the plain text of a grid has.
fn length(buffer: &StyledBuffer<'_>) -> Result<usize, AllocError> {
    let text = buffer.render(LevelInner::Error, &Stylesheet::plain())?;
    Ok(char_count(text.as_str()))
}

#[test]
fn holds_what_calls_write(rt: HostRuntime) -> Result<(), Fail> {
    for steps in LISTS {
        assert!(rt; holds_all(rt.alloc(), steps)?);
    }
    Ok(())
}

/// Makes a call of a grid.
pub fn make(buffer: &mut StyledBuffer<'static>, call: Call) -> Result<(), AllocError> {
    match call {
        Putc(row, cell, character, role) => {
            buffer.putc(usize::from(row), cell as usize, character, role)
        }
        Puts(row, cell, text, role) => {
            if char_count(text) < 99 {
                buffer.puts(usize::from(row), usize::from(cell), text, role)?;
            }
            Ok(())
        }
        Append(row, text, role) => buffer.append(usize::from(row), text, role),
        Replace(row, start, end, text) => {
            buffer.replace(usize::from(row), usize::from(start), usize::from(end), text)
        }
        SetStyle(row, cell, role, overwrite) => buffer.set_style(row, cell, role, overwrite),
        SetStyleRange(row, start, end, role, overwrite) => {
            let (row, start, end) = (usize::from(row), usize::from(start), usize::from(end));
            buffer.set_style_range(row, start, end, role, overwrite)
        }
        Link(row, start, end, url) => {
            buffer.link(usize::from(row), usize::from(start)..usize::from(end), url)
        }
    }
}
