//! The row that shows a line of the source.
ghost use Rattle.std.specs.Prelude.{◌≡◌, ◌≤◌, ◌++◌, ◌∷◌, [], IfOk, IfSome, List, OnOk, chars};
ghost use Rattle.std.specs.Prelude.{length};
ghost use Rattle.snippet_style.specs.Cell.{Cell, SPACE, text_cells, written};
ghost use Rattle.snippet_style.specs.Separators.{separator_row};
ghost use Rattle.snippet_style.specs.declared.role.ElementStyle.TheVariants.{LineNumber};
ghost use Rattle.snippet_strokes.specs.Bars.{with_bars};
ghost use Rattle.snippet_strokes.specs.DrawnBars.{FitBeside};
ghost use Rattle.std.specs.Cow.{cow_str_bytes};
ghost use Rattle.snippet_window.specs.Window.{dropped_part};
ghost use Rattle.snippet_style.specs.Glyphs.{placeholder_of};
ghost use Rattle.snippet_lines.specs.Number.{shown_number};
ghost use Rattle.snippet_lines.specs.declared.number.LineNumbers.TheVariants.{Shown};
ghost use Rattle.snippet_strokes.specs.SourceRows.{source_row, window_cells};
ghost use Rattle.snippet_strokes.specs.BegunRow.{begun_cells, ended_cells};
ghost use Rattle.snippet_strokes.specs.SourceRows.{with_cells};
ghost use Rattle.snippet_text.specs.Normalized.{norm};
ghost use Rattle.snippet_text.specs.Width.{width_of};
ghost use Rattle.snippet_grid.specs.Layout.{inner_cell, separator_cell};
ghost use Rattle.snippet_text.specs.TextBounds.{TextFits};
ghost use Rattle.snippet_style.specs.Bounds.{FitsRow, HasNext, IsRowNumber, IsTextWidth, IsWindowColumn, IsWindowEnd};

use crate::bars::{BarStroke, OpenBar, draw_bars};
use crate::snippet::LineView;
use itoa::Buffer;
use snippet_grid::{Layout, StyledBuffer};
use snippet_lines::{LineNumbers, number_text};
use snippet_parts::ShownLine;
use snippet_style::ElementStyle;
use snippet_text::{CowStr, normalized};
use snippet_window::{LineWindow, near_part, window_of};
use std::alloc::{AllocError, Global};

/// The bars that are drawn with a source row: tops, and such that run past it. None of these has the depth of a top.
#[derive(Clone, Copy, Debug)]
pub(crate) struct Beside<'b> {
    pub(crate) tops: &'b [OpenBar],
    pub(crate) past: &'b [OpenBar],
}

/// The texts of a source row: what the gutter shows, the placeholder for what is cut, and what is shown of the line.
#[derive(Clone, Copy)]
struct SourceTexts<'t> {
    number: &'t str,
    placeholder: &'t str,
    window: LineWindow<'t>,
}

/// Draws the source row of a line below all that stands in the grid, with some bars beside it: the part of the line
/// between the bounds of a margin. It gives the row's number, and how many columns of the line are dropped on the left.
///
/// ```text
///     1 | let x = 1;
///     2 | ...x = 1 + 2 + 3 + ...
/// ```
///
/// # Errors
///
/// There is no memory for the row or its texts.
pub fn draw_source_row(
    buffer: &mut StyledBuffer,
    layout: Layout,
    view: LineView,
    line: &ShownLine,
    beside: Beside<'_>,
) -> Result<(usize, usize), AllocError>
    requires number { length (shown_number view.numbers layout.gutter line.now.info.line_index) ≤
        separator_cell layout }
    requires text { TextFits line.now.info.line.now }
    requires beside { FitBeside layout beside.tops.now beside.past.now }
    ensures added { OnOk result (buffer.new ≡ buffer.old
        ++ with_bars layout (λ strokes. strokes.bar) beside.entry.past.now
        (with_bars layout (λ strokes. strokes.whole_line) beside.entry.tops.now
        (source_row layout (shown_number view.numbers layout.gutter line.now.info.line_index)
        (window_cells layout.decor view.margin (norm (chars line.now.info.line.now))))) ∷ []) }
    ensures short { OnOk result (IsWindowEnd (length (window_cells layout.decor view.margin
        (norm (chars line.now.info.line.now))))) }
    ensures row { IfOk result (λ at. at.0 ≡ length buffer.old) }
    ensures dropped { IfOk result (λ at.
        at.1 ≡ width_of (dropped_part view.margin.computed_left (norm (chars line.now.info.line.now)))) }
    ensures few { IfOk result (λ at. IsWindowColumn at.1) }
{
    let alloc = buffer.allocator();
    let mut digits = Buffer::new();
    let number = number_beside(
        alloc,
        &mut digits,
        view.numbers,
        layout.gutter,
        line.info.line_index,
    )?;
    if line.info.line.is_empty() && !view.margin.was_cut_left() {
        return draw_empty_row(buffer, layout, &number, beside);
    }
    let near = near_part(view.margin, line.info.line, line.width);
    let text = normalized(alloc, near.text)?;
    let placeholder = layout.decor.placeholder();
    let window = window_of(
        view.margin,
        placeholder,
        near.skipped,
        text.as_str(),
        line.width,
    );
    let texts = SourceTexts {
        number: number.as_str(),
        placeholder,
        window,
    };
    let row = write_source_row(buffer, layout, texts, beside)?;
    Ok((row, window.dropped))
}

/// Draws the source row of a line with no text, where lines aren't cut on the left: nothing is shown of it, and nothing
/// dropped.
///
/// # Errors
///
/// There is no memory for the row.
#[inline(never)]
fn draw_empty_row(
    buffer: &mut StyledBuffer,
    layout: Layout,
    number: &CowStr<'_>,
    beside: Beside<'_>,
) -> Result<(usize, usize), AllocError>
    requires number { length (chars (cow_str_bytes number.now)) ≤ separator_cell layout }
    requires beside { FitBeside layout beside.tops.now beside.past.now }
    ensures added { OnOk result (buffer.new ≡ buffer.old
        ++ with_bars layout (λ strokes. strokes.bar) beside.entry.past.now
        (with_bars layout (λ strokes. strokes.whole_line) beside.entry.tops.now
        (source_row layout (chars (cow_str_bytes number.now)) [])) ∷ []) }
    ensures row { IfOk result (λ at. at.0 ≡ length buffer.old) }
    ensures dropped { IfOk result (λ at. at.1 ≡ 0) }
{
    let texts = SourceTexts {
        number: number.as_str(),
        placeholder: layout.decor.placeholder(),
        window: LineWindow {
            dropped: 0,
            start: None,
            text: "",
            end: None,
        },
    };
    let row = write_source_row(buffer, layout, texts, beside)?;
    Ok((row, 0))
}

/// What the gutter shows beside a line. It is made in `digits` where it is a number that fills the gutter.
fn number_beside<'b>(
    alloc: Global,
    digits: &'b mut Buffer,
    numbers: LineNumbers,
    gutter: usize,
    number: usize,
) -> Result<CowStr<'b>, AllocError>
    ensures text { IfOk result (λ text. cow_str_bytes text ≡ shown_number numbers gutter number) }
{
    match numbers {
        LineNumbers::Shown => digits_beside(alloc, digits, gutter, number),
        LineNumbers::Anonymized | LineNumbers::Hidden => {
            Ok(CowStr::Owned(number_text(alloc, numbers, gutter, number)?))
        }
    }
}

/// The number of a line, right-aligned in `gutter` cells.
fn digits_beside<'b>(
    alloc: Global,
    digits: &'b mut Buffer,
    gutter: usize,
    number: usize,
) -> Result<CowStr<'b>, AllocError>
    ensures text { IfOk result (λ text. cow_str_bytes text ≡ shown_number Shown gutter number) }
{
    let text = digits.format(number);
    if gutter <= text.len() {
        return Ok(CowStr::Borrowed(text));
    }
    Ok(CowStr::Owned(number_text(alloc, LineNumbers::Shown, gutter, number)?))
}

/// Writes a source row of these texts from left to right: the number and the separator, the bars, and the window.
#[inline(always)]
fn write_source_row(
    buffer: &mut StyledBuffer,
    layout: Layout,
    texts: SourceTexts<'_>,
    beside: Beside<'_>,
) -> Result<usize, AllocError>
    requires number { length (chars texts.number.now) ≤ separator_cell layout }
    requires placeholder { chars texts.placeholder.now ≡ placeholder_of layout.decor }
    requires start { IfSome texts.window.start (λ columns. IsTextWidth columns) }
    requires text { FitsRow (chars texts.window.text.now) }
    requires end { IfSome texts.window.end (λ at. IsWindowColumn at) }
    requires beside { FitBeside layout beside.tops.now beside.past.now }
    ensures added { OnOk result (buffer.new ≡ buffer.old
        ++ with_bars layout (λ strokes. strokes.bar) beside.entry.past.now
        (with_bars layout (λ strokes. strokes.whole_line) beside.entry.tops.now
        (source_row layout (chars texts.entry.number.now) (ended_cells layout.decor texts.entry.window.end
        (begun_cells layout.decor texts.entry.window.start (chars texts.entry.window.text.now))))) ∷ []) }
    ensures short { OnOk result (IsWindowEnd (length (ended_cells layout.decor texts.entry.window.end
        (begun_cells layout.decor texts.entry.window.start (chars texts.entry.window.text.now))))) }
    ensures row { IfOk result (λ row. row ≡ length buffer.old) }
{
    let window = texts.window;
    let row = begin_source_row(buffer, layout, texts.number)?;
    draw_bars(buffer, layout, row, beside.past, BarStroke::Solid)?;
    draw_bars(buffer, layout, row, beside.tops, BarStroke::Top)?;
    write_beginning(
        buffer,
        layout,
        row,
        texts.placeholder,
        window.start,
        window.text,
    )?;
    write_end(buffer, layout, row, texts.placeholder, window.end)?;
    Ok(row)
}

/// Begins a source row below all that stands in the grid, with what the gutter shows and the separator, and gives the
/// row's number.
#[inline(always)]
fn begin_source_row(
    buffer: &mut StyledBuffer,
    layout: Layout,
    number: &str,
) -> Result<usize, AllocError>
    requires number { length (chars number.now) ≤ separator_cell layout }
    ensures added { OnOk result (buffer.new ≡ buffer.old
        ++ written SPACE (separator_row layout.decor layout.gutter) 0 (text_cells LineNumber (chars number.now)) ∷ []) }
    ensures row { IfOk result (λ row. row ≡ length buffer.old) }
    ensures small { IsRowNumber (length buffer.old) }
    ensures place { inner_cell layout ≤ layout.code }
{
    let row = buffer.num_lines();
    buffer.puts(row, 0, number, ElementStyle::LineNumber)?;
    buffer.putc(
        row,
        layout.separator_cell(),
        layout.decor.separator(),
        ElementStyle::LineNumber,
    )?;
    Ok(row)
}

/// Writes the text of a window after a row that ends left of the code, and the placeholder before it where lines are
/// cut on the left.
#[inline(always)]
fn write_beginning(
    buffer: &mut StyledBuffer,
    layout: Layout,
    row: usize,
    placeholder: &str,
    start: Option<usize>,
    text: &str,
) -> Result<(), AllocError>
    requires row { HasNext row }
    requires placeholder { chars placeholder.now ≡ placeholder_of layout.decor }
    requires start { IfSome start (λ columns. IsTextWidth columns) }
    requires text { FitsRow (chars text.now) }
    ensures writes { OnOk result ((above : List (List Cell)) (front : List Cell) → row ≡ length above
        → length front ≤ layout.code → buffer.old ≡ above ++ front ∷ []
        → buffer.new ≡ above ++ with_cells layout.code (begun_cells layout.decor start (chars text.now)) front ∷ []) }
{
    match start {
        None => buffer.puts(row, layout.code, text, ElementStyle::Quotation),
        Some(columns) => {
            buffer.puts(row, layout.code, placeholder, ElementStyle::LineNumber)?;
            buffer.puts(
                row,
                layout.code_cell(columns),
                text,
                ElementStyle::Quotation,
            )
        }
    }
}

/// Writes the placeholder over the end of a window, where the line is cut on the right.
#[inline(always)]
fn write_end(
    buffer: &mut StyledBuffer,
    layout: Layout,
    row: usize,
    placeholder: &str,
    end: Option<usize>,
) -> Result<(), AllocError>
    requires row { HasNext row }
    requires placeholder { chars placeholder.now ≡ placeholder_of layout.decor }
    requires end { IfSome end (λ at. IsWindowColumn at) }
    ensures writes { OnOk result ((above : List (List Cell)) (front cells : List Cell) → row ≡ length above
        → length front ≤ layout.code → buffer.old ≡ above ++ with_cells layout.code cells front ∷ []
        → buffer.new ≡ above ++ with_cells layout.code (ended_cells layout.decor end cells) front ∷ []) }
{
    match end {
        None => Ok(()),
        Some(at) => buffer.puts(
            row,
            layout.code_cell(at),
            placeholder,
            ElementStyle::LineNumber,
        ),
    }
}
