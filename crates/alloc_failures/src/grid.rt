//! The grid of cells: a call that is out of memory leaves it as it was, and can be made once more.

use crate::retry::again;
use crate::subject::{print_subject, print_text};
use annotate_snippets::renderer::parts::{ElementStyle, LevelInner, StyledBuffer, StyledChar};
use annotate_snippets::renderer::{AnsiColor, Stylesheet};
use std::alloc::AllocError;
use std::io;

/// A call that writes.
#[derive(Clone, Copy)]
enum WriteCall {
    AddRow,
    Putc,
    Puts,
    Append,
    Replace,
    SetStyle,
    SetStyleRange,
    Link,
}

/// The calls, in the order in which they are made of each row.
const CALLS: &[(WriteCall, &str)] = &[
    (WriteCall::AddRow, "grid: `add_row`"),
    (WriteCall::Putc, "grid: `putc`"),
    (WriteCall::Puts, "grid: `puts`"),
    (WriteCall::Append, "grid: `append`"),
    (WriteCall::Replace, "grid: `replace`"),
    (WriteCall::SetStyle, "grid: `set_style`"),
    (WriteCall::SetStyleRange, "grid: `set_style_range`"),
    (WriteCall::Link, "grid: `link`"),
];

/// What a row has at first.
const FRONT: [StyledChar; 2] = [
    StyledChar {
        ch: 'a',
        role: ElementStyle::Quotation,
    },
    StyledChar {
        ch: 'b',
        role: ElementStyle::Quotation,
    },
];

/// How many rows are written.
const ROWS: u8 = 3;

/// The text of three such rows: `a`, dots in place of `bc`, `d` and two spaces, and a mark with a linked label.
const TEXT: &str = concat!(
    "\u{1b}[32ma\u{1b}[0m\u{1b}[34m...\u{1b}[0m\u{1b}[35md  \u{1b}[0m\u{1b}[31m^ \
        \u{1b}]8;;u\u{1b}\\label\u{1b}]8;;\u{1b}\\\u{1b}[0m\n",
    "\u{1b}[32ma\u{1b}[0m\u{1b}[34m...\u{1b}[0m\u{1b}[35md  \u{1b}[0m\u{1b}[31m^ \
        \u{1b}]8;;u\u{1b}\\label\u{1b}]8;;\u{1b}\\\u{1b}[0m\n",
    "\u{1b}[32ma\u{1b}[0m\u{1b}[34m...\u{1b}[0m\u{1b}[35md  \u{1b}[0m\u{1b}[31m^ \
        \u{1b}]8;;u\u{1b}\\label\u{1b}]8;;\u{1b}\\\u{1b}[0m",
);

/// A sheet that tells the roles apart.
fn sheet() -> Stylesheet {
    Stylesheet {
        error: AnsiColor::Red.on_default(),
        line_num: AnsiColor::Blue.on_default(),
        addition: AnsiColor::Green.on_default(),
        removal: AnsiColor::Magenta.on_default(),
        ..Stylesheet::plain()
    }
}

/// Makes a call of a row.
fn make(grid: &mut StyledBuffer<'static>, call: WriteCall, row: u8) -> Result<(), AllocError> {
    let row = usize::from(row);
    match call {
        WriteCall::AddRow => grid.add_row(&FRONT),
        WriteCall::Putc => grid.putc(row, 6, '^', ElementStyle::UnderlinePrimary),
        WriteCall::Puts => grid.puts(row, 2, "cd", ElementStyle::Quotation),
        WriteCall::Append => grid.append(row, " label", ElementStyle::LabelPrimary),
        WriteCall::Replace => grid.replace(row, 1, 3, "..."),
        WriteCall::SetStyle => grid.set_style(row, 0, ElementStyle::Addition, false),
        WriteCall::SetStyleRange => grid.set_style_range(row, 4, 9, ElementStyle::Removal, false),
        WriteCall::Link => grid.link(row, 9..14, "u"),
    }
}

/// What a grid shows of itself.
#[derive(Drop)]
struct GridState {
    rows: usize,
    runs: usize,
    /// Its characters, with the codes of their roles and links.
    text: String,
}

/// The text of a grid, once more where that is out of memory.
fn text_of(grid: &StyledBuffer<'static>) -> Result<String, AllocError> {
    again!(grid.render(LevelInner::Error, &sheet()))
}

/// What a grid shows.
fn state_of(grid: &StyledBuffer<'static>) -> Result<GridState, AllocError> {
    Ok(GridState {
        rows: grid.num_lines(),
        runs: grid.num_runs(),
        text: text_of(grid)?,
    })
}

/// Whether two grids show the same.
fn is_same(before: &GridState, after: &GridState) -> bool {
    before.rows == after.rows
        && before.runs == after.runs
        && before.text.as_str() == after.text.as_str()
}

/// Makes a call, once more where it is out of memory, and says whether the grid was then as before.
fn made(grid: &mut StyledBuffer<'static>, call: WriteCall, row: u8) -> Result<bool, AllocError> {
    let before = state_of(grid)?;
    if make(grid, call, row).is_ok() {
        return Ok(true);
    }
    let after = state_of(grid)?;
    make(grid, call, row)?;
    Ok(is_same(&before, &after))
}

/// Makes a call of each row, and prints whether it came out right.
fn print_call(
    rt: &impl Print,
    grid: &mut StyledBuffer<'static>,
    call: WriteCall,
    name: &str,
) -> io::Result<()> {
    let mut same = true;
    for row in 0..ROWS {
        same = made(grid, call, row)? && same;
    }
    print_subject(rt, name, same)
}

/// Makes each call of each row, and prints what came out right.
pub fn print(rt: &(impl Print + AllocGlobal)) -> io::Result<()> {
    let mut grid = StyledBuffer::new(rt.alloc());
    for (call, name) in CALLS {
        print_call(rt, &mut grid, *call, name)?;
    }
    print_whole(rt, &grid)
}

/// Prints whether the grid has its text.
fn print_whole(rt: &impl Print, grid: &StyledBuffer<'static>) -> io::Result<()> {
    let text = text_of(grid)?;
    print_text(rt, "grid: `render`", text.as_str(), TEXT)
}
