//! The rows of a snippet: those of each line that is shown.
ghost use Rattle.std.specs.Prelude.{◌≡◌, ◌++◌, [], false, true, List, All, IfOk, OnOk, chars};
ghost use Rattle.snippet_parts.specs.ShownLines.{infos_of};
ghost use Rattle.snippet_strokes.specs.Drawable.{IsDrawableLine};
ghost use Rattle.snippet_strokes.specs.Bars as spec;
ghost use Rattle.snippet_strokes.specs.DrawnBars as drawn;
ghost use Rattle.snippet_strokes.specs.Bars.{Bar, bars_apart, ends_of_bars};
ghost use Rattle.snippet_text.specs.Normalized.{norm};
ghost use Rattle.snippet_strokes.specs.InfoRows.{info_rows, infos_rows};
ghost use Rattle.snippet_strokes.specs.DrawnBars.{FitBeside, HasBarRoom, open_below};

use crate::bars::{BarStroke, OpenBar, add_bars_apart, bars_apart, draw_bars, ends_on};
use crate::elision::draw_gap;
use crate::highlight::highlight_source;
use crate::source_row::{Beside, draw_source_row};
use crate::strokes::{StrokePlace, draw_strokes};
use crate::whole_line::is_whole_line;
use snippet_grid::{Layout, StyledBuffer};
use snippet_lines::LineNumbers;
use snippet_parts::ShownLine;
use snippet_window::Margin;
use std::alloc::AllocError;

/// How lines of a source are shown.
#[derive(Clone, Copy, Debug)]
pub struct LineView {
    /// The bounds between which they are shown.
    pub margin: Margin,
    /// What the gutter shows beside them.
    pub numbers: LineNumbers,
    /// Whether the group's window closes with the last of them.
    pub closes: bool,
}

/// Lists of bars, which keep their room from line to line.
#[derive(Drop)]
struct BarLists {
    /// The bars that are open below the lines that are drawn.
    open_bars: Vec<OpenBar>,
    /// Room for those that start or end on a line, and for those that are open below it: what is in it means nothing.
    ends: Vec<OpenBar>,
    spare: Vec<OpenBar>,
}

/// Draws the lines of a snippet below all that stands in the grid: for each line its source row and its strokes. Where
/// the group's window closes with them, the last row does so; it is one of its own where the last line has no entries.
///
/// ```text
///     1 | let x = 1;           1 │ let x = 1;
///       |     ^                  │     ━
///     2 | let y = x;           2 │ let y = x;
///       |                        ╰╴
///
///     3 | /   fn f() {         3 │ ┏   fn f() {
///   ...   |                      ┆ ┇
///     9 | |       x            9 │ ┃       x
/// ```
///
/// Of each line the part between the bounds of the margin is shown, and its strokes are drawn as far left as columns of
/// the line are dropped. No entry may stand left of the padding of the left bound.
///
/// A line with no entries has no strokes. Bars run beside the rows from the line on which a span of several lines
/// starts to the one on which it ends. Where lines between two of these are left out, a row stands for them.
///
/// # Errors
///
/// There is no memory for the rows. The grid may then hold some of them.
pub fn draw_snippet(
    buffer: &mut StyledBuffer,
    layout: Layout,
    view: LineView,
    lines: &[ShownLine],
) -> Result<(), AllocError>
    requires drawable { All (λ line. IsDrawableLine layout view.margin view.numbers line.info) lines.now }
    ensures added { OnOk result (buffer.new ≡ buffer.old ++ infos_rows layout view [] (infos_of lines.now)) }
{
    let alloc = buffer.allocator();
    let mut bars = BarLists {
        open_bars: Vec::new(alloc),
        ends: Vec::new(alloc),
        spare: Vec::new(alloc),
    };
    for i in 0..lines.len() {
        let closes = view.closes && i + 1 == lines.len();
        let line = &lines[i];
        let shown = LineView { closes, ..view };
        bars = draw_line(buffer, layout, shown, line, bars)?;
        let after = &lines[i + 1..];
        draw_gap(buffer, layout, line.info.line_index, after, &bars.open_bars)?;
    }
    Ok(())
}

/// Draws the rows of a line below all that stands in the grid, with the bars that are open above it and stay so, and
/// gives those that are open below it. The window may close with it.
///
/// ```text
///     1 | let x = 1;
///       |     ^ here
/// ```
fn draw_line(
    buffer: &mut StyledBuffer,
    layout: Layout,
    view: LineView,
    line: &ShownLine,
    bars: BarLists,
) -> Result<BarLists, AllocError>
    requires drawable { IsDrawableLine layout view.margin view.numbers line.now.info }
    requires room { All (HasBarRoom layout) bars.open_bars.items }
    ensures added { OnOk result (buffer.new ≡ buffer.old ++ info_rows layout view bars.open_bars.items line.now.info) }
    ensures bars { IfOk result (λ below. below.open_bars.items
        ≡ open_below bars.open_bars.items line.now.info.annotations.items) }
{
    // Most lines have neither entries nor bars beside them.
    if line.info.annotations.is_empty() && bars.open_bars.is_empty() {
        draw_marked_line(buffer, layout, view, line, &[])?;
        return Ok(bars);
    }
    let BarLists {
        open_bars,
        ends,
        spare,
    } = bars;
    let ends = ends_on(ends, &line.info.annotations)?;
    let mut below = bars_apart(spare, &open_bars, &ends)?;
    let beside = Beside {
        tops: &ends,
        past: &below,
    };
    draw_line_rows(buffer, layout, view, line, beside)?;
    add_bars_apart(&mut below, &ends, &open_bars)?;
    Ok(BarLists {
        open_bars: below,
        ends,
        spare: open_bars,
    })
}

/// Draws the rows of a line, beside which some bars start or end, and others run past.
fn draw_line_rows(
    buffer: &mut StyledBuffer,
    layout: Layout,
    view: LineView,
    line: &ShownLine,
    beside: Beside<'_>,
) -> Result<(), AllocError>
    requires drawable { IsDrawableLine layout view.margin view.numbers line.now.info }
    requires ends { beside.tops.now ≡ ends_of_bars line.now.info.annotations.items }
    requires beside { FitBeside layout beside.tops.now beside.past.now }
    ensures added { OnOk result ((above : List Bar)
        → beside.entry.past.now ≡ bars_apart above (ends_of_bars line.now.info.annotations.items)
        → buffer.new ≡ buffer.old ++ info_rows layout view above line.now.info) }
{
    let info = &line.info;
    if is_whole_line(info.line, &info.annotations) {
        return draw_whole_line(buffer, layout, view, line, beside);
    }
    draw_marked_line(buffer, layout, view, line, beside.past)
}

/// Draws the row of a line that is marked as a whole, with the tops of its bars and those that run past beside it. It
/// has no strokes else.
fn draw_whole_line(
    buffer: &mut StyledBuffer,
    layout: Layout,
    view: LineView,
    line: &ShownLine,
    beside: Beside<'_>,
) -> Result<(), AllocError>
    requires drawable { IsDrawableLine layout view.margin view.numbers line.now.info }
    requires whole { drawn.is_whole_line (norm (chars line.now.info.line.now)) line.now.info.annotations.items ≡ true }
    requires ends { beside.tops.now ≡ ends_of_bars line.now.info.annotations.items }
    requires beside { FitBeside layout beside.tops.now beside.past.now }
    ensures added { OnOk result ((above : List Bar)
        → beside.entry.past.now ≡ bars_apart above (ends_of_bars line.now.info.annotations.items)
        → buffer.new ≡ buffer.old ++ info_rows layout view above line.now.info) }
{
    let (row, dropped) = draw_source_row(buffer, layout, view, line, beside)?;
    highlight_source(buffer, layout, dropped, row, &line.info.annotations)
}

/// Draws the rows of a line that isn't marked as a whole, with the bars that run past beside them.
fn draw_marked_line(
    buffer: &mut StyledBuffer,
    layout: Layout,
    view: LineView,
    line: &ShownLine,
    past: &[OpenBar],
) -> Result<(), AllocError>
    requires drawable { IsDrawableLine layout view.margin view.numbers line.now.info }
    requires other { drawn.is_whole_line (norm (chars line.now.info.line.now)) line.now.info.annotations.items ≡ false }
    requires past { All (HasBarRoom layout) past.now }
    ensures added { OnOk result ((above : List Bar)
        → past.now ≡ bars_apart above (ends_of_bars line.now.info.annotations.items)
        → buffer.new ≡ buffer.old ++ info_rows layout view above line.now.info) }
{
    let none = Beside {
        tops: &[],
        past: &[],
    };
    let (row, dropped) = draw_source_row(buffer, layout, view, line, none)?;
    let info = &line.info;
    highlight_source(buffer, layout, dropped, row, &info.annotations)?;
    let place = StrokePlace {
        row,
        dropped,
        room: view.margin.term_width,
        closes: view.closes,
    };
    draw_strokes(buffer, layout, place, &info.annotations)?;
    draw_bars(buffer, layout, row, past, BarStroke::Solid)
}
