//! Plain rows of cells, and their text: what a grid is compared with. They share no code with it but the codes of a
//! style.

use crate::grid_calls::Call;
use annotate_snippets::renderer::parts::{ElementStyle, LevelInner};
use annotate_snippets::renderer::{Style, Stylesheet, open_code, reset_code};
use std::alloc::{AllocError, Global};

/// A cell.
#[derive(Clone, Copy)]
struct PlainCell {
    ch: char,
    role: ElementStyle,
    link: Option<&'static str>,
}

/// What fills a row up.
const BLANK: PlainCell = PlainCell {
    ch: ' ',
    role: ElementStyle::NoStyle,
    link: None,
};

/// Rows of cells.
#[derive(Drop)]
pub struct PlainGrid {
    rows: Vec<Vec<PlainCell>>,
}

impl PlainGrid {
    /// No rows.
    pub fn new(alloc: Global) -> Self {
        PlainGrid {
            rows: Vec::new(alloc),
        }
    }

    /// How many rows there are.
    pub fn num_rows(&self) -> usize {
        self.rows.len()
    }

    /// Does what a call of a grid does.
    pub fn make(&mut self, alloc: Global, call: Call) -> Result<(), AllocError> {
        let rows = &mut self.rows;
        match call {
            Call::Putc(row, cell, ch, role) => {
                write_character(alloc, rows, row, cell as usize, ch, role)
            }
            Call::Puts(row, cell, text, role) => {
                write(alloc, rows, row, usize::from(cell), text, role)
            }
            Call::Append(row, text, role) => append(alloc, rows, row, text, role),
            Call::Replace(row, start, end, text) => replace(alloc, rows, row, (start, end), text),
            Call::SetStyle(row, cell, role, overwrite) => {
                let end = cell.saturating_add(1);
                change_row(rows, row, cell, end, CellChange::Restyle(role, overwrite));
                Ok(())
            }
            Call::SetStyleRange(row, start, end, role, overwrite) => {
                change_range(
                    rows,
                    row,
                    (start, end),
                    CellChange::Restyle(role, overwrite),
                );
                Ok(())
            }
            Call::Link(row, start, end, url) => {
                change_range(rows, row, (start, end), CellChange::Link(url));
                Ok(())
            }
        }
    }

    /// The rows under a sheet, one below another, cell by cell.
    pub fn text(
        &self,
        alloc: Global,
        level: LevelInner,
        sheet: &Stylesheet,
    ) -> Result<String, AllocError> {
        let mut text = String::new(alloc);
        let mut is_first = true;
        for row in &self.rows {
            if !is_first {
                text.push('\n')?;
            }
            is_first = false;
            add_row(alloc, &mut text, row, level, sheet)?;
        }
        Ok(text)
    }
}

/// Writes a character, and adds the rows and cells that it needs.
fn write_character(
    alloc: Global,
    rows: &mut Vec<Vec<PlainCell>>,
    row: u8,
    at: usize,
    character: char,
    role: ElementStyle,
) -> Result<(), AllocError> {
    let mut text = String::new(alloc);
    text.push(character)?;
    write(alloc, rows, row, at, text.as_str(), role)
}

/// Writes a text after the last cell of a row.
fn append(
    alloc: Global,
    rows: &mut Vec<Vec<PlainCell>>,
    row: u8,
    text: &str,
    role: ElementStyle,
) -> Result<(), AllocError> {
    let end = match rows.get(usize::from(row)) {
        Some(cells) => cells.len(),
        None => 0,
    };
    write(alloc, rows, row, end, text, role)
}

/// Writes a text, if it has a character, and adds the rows and cells that it needs.
fn write(
    alloc: Global,
    rows: &mut Vec<Vec<PlainCell>>,
    row: u8,
    at: usize,
    text: &str,
    role: ElementStyle,
) -> Result<(), AllocError> {
    if text.is_empty() {
        return Ok(());
    }
    let row = usize::from(row);
    for _ in rows.len()..row + 1 {
        rows.push(Vec::new(alloc))?;
    }
    if row < rows.len() {
        write_cells(&mut rows[row], at, text, role)?;
    }
    Ok(())
}

/// Writes a text into a row.
fn write_cells(
    cells: &mut Vec<PlainCell>,
    at: usize,
    text: &str,
    role: ElementStyle,
) -> Result<(), AllocError> {
    for _ in cells.len()..at {
        cells.push(BLANK)?;
    }
    let mut to = at;
    for ch in text.chars() {
        let link = None;
        write_cell(cells, to, PlainCell { ch, role, link })?;
        to = to.saturating_add(1);
    }
    Ok(())
}

/// Writes a cell into a row: over the one that is there, else after the last one.
fn write_cell(cells: &mut Vec<PlainCell>, to: usize, cell: PlainCell) -> Result<(), AllocError> {
    if to < cells.len() {
        cells[to] = cell;
    } else {
        cells.push(cell)?;
    }
    Ok(())
}

/// Puts a text in place of some cells of a row, where the row holds them all.
fn replace(
    alloc: Global,
    rows: &mut Vec<Vec<PlainCell>>,
    row: u8,
    range: (u8, u8),
    text: &str,
) -> Result<(), AllocError> {
    let row = usize::from(row);
    let (start, end) = (usize::from(range.0), usize::from(range.1));
    if row < rows.len() && start < end && end <= rows[row].len() {
        let cells = replaced(alloc, &rows[row], start, end, text)?;
        rows[row] = cells;
    }
    Ok(())
}

/// The cells of a row with a text in place of some.
fn replaced(
    alloc: Global,
    cells: &[PlainCell],
    start: usize,
    end: usize,
    text: &str,
) -> Result<Vec<PlainCell>, AllocError> {
    let mut row = Vec::new(alloc);
    for (index, cell) in cells.iter().enumerate() {
        if index == start {
            add_numbers(&mut row, text)?;
        }
        if index < start || end <= index {
            row.push(*cell)?;
        }
    }
    Ok(row)
}

/// Adds a text to a row, in the role of a line's number.
fn add_numbers(row: &mut Vec<PlainCell>, text: &str) -> Result<(), AllocError> {
    for ch in text.chars() {
        row.push(PlainCell {
            ch,
            role: ElementStyle::LineNumber,
            link: None,
        })?;
    }
    Ok(())
}

/// What becomes of cells.
#[derive(Clone, Copy)]
enum CellChange {
    Restyle(ElementStyle, bool),
    Link(&'static str),
}

/// Changes the cells of a row that are there, from the first number of a range to before the second.
fn change_range(rows: &mut Vec<Vec<PlainCell>>, row: u8, range: (u8, u8), change: CellChange) {
    let (start, end) = (usize::from(range.0), usize::from(range.1));
    change_row(rows, usize::from(row), start, end, change);
}

/// Changes the cells of a row from `start` to before `end` that are there.
fn change_row(
    rows: &mut Vec<Vec<PlainCell>>,
    row: usize,
    start: usize,
    end: usize,
    change: CellChange,
) {
    if row < rows.len() {
        for (index, cell) in rows[row].iter_mut().enumerate() {
            if start <= index && index < end {
                *cell = changed(*cell, change);
            }
        }
    }
}

/// The cell changed.
fn changed(cell: PlainCell, change: CellChange) -> PlainCell {
    match change {
        CellChange::Link(url) => PlainCell {
            link: Some(url),
            ..cell
        },
        CellChange::Restyle(role, overwrite) => match cell.role {
            ElementStyle::NoStyle | ElementStyle::Quotation => PlainCell { role, ..cell },
            _ if overwrite => PlainCell { role, ..cell },
            _ => cell,
        },
    }
}

/// What is in force at a cell.
#[derive(Clone, Copy)]
struct PlainLook {
    style: Style,
    link: Option<&'static str>,
}

/// Adds a row to a text.
fn add_row(
    alloc: Global,
    text: &mut String,
    cells: &[PlainCell],
    level: LevelInner,
    sheet: &Stylesheet,
) -> Result<(), AllocError> {
    let (style, link) = (sheet.none, None);
    let mut last = PlainLook { style, link };
    for cell in cells {
        let (style, link) = (sheet.style_of(level, cell.role), cell.link);
        let next = PlainLook { style, link };
        change_look(alloc, text, last, next)?;
        text.push(cell.ch)?;
        last = next;
    }
    end_link(text, last.link)?;
    text.push_str(reset_code(last.style))
}

/// Adds the codes between two cells. A link ends before the codes of styles, and the next one starts after them.
fn change_look(
    alloc: Global,
    text: &mut String,
    last: PlainLook,
    next: PlainLook,
) -> Result<(), AllocError> {
    let same_link = last.link == next.link;
    if !same_link {
        end_link(text, last.link)?;
    }
    change_style(alloc, text, last.style, next.style)?;
    if same_link {
        return Ok(());
    }
    start_link(text, next.link)
}

/// Adds the codes that end a link, if there is one.
fn end_link(text: &mut String, link: Option<&'static str>) -> Result<(), AllocError> {
    match link {
        Some(_) => text.push_str("\u{1b}]8;;\u{1b}\\"),
        None => Ok(()),
    }
}

/// Adds the codes that reset a style and open another, unless the two are the same.
fn change_style(
    alloc: Global,
    text: &mut String,
    last: Style,
    next: Style,
) -> Result<(), AllocError> {
    if last == next {
        return Ok(());
    }
    text.push_str(reset_code(last))?;
    let opening = open_code(alloc, next)?;
    text.push_str(opening.as_str())
}

/// Adds the codes that start a link, if there is one.
fn start_link(text: &mut String, link: Option<&'static str>) -> Result<(), AllocError> {
    match link {
        Some(url) => {
            text.push_str("\u{1b}]8;;")?;
            text.push_str(url)?;
            text.push_str("\u{1b}\\")
        }
        None => Ok(()),
    }
}
