//! The bars of spans of several lines, which run beside the rows, left of the code.
ghost use Rattle.std.specs.Prelude.{◌≡◌, ◌+◌, ◌-◌, ◌<◌, ◌≤◌, ◌++◌, ℕ, true, All, IfOk, OnOk, length, replicate};
ghost use Rattle.std.specs.Prelude.{chars, slice_index_or};
ghost use Rattle.snippet_strokes.specs.declared.bars.OpenBar.{OpenBar};
ghost use Rattle.snippet_strokes.specs.Bars as spec;
ghost use Rattle.snippet_strokes.specs.DrawnBars as drawn;
ghost use Rattle.snippet_strokes.specs.DrawnBars.{HasBarRoom, HasSideRoom, StandsBeside, bar_cell_part, barred};
ghost use Rattle.snippet_strokes.specs.DrawnBars.{changed_from};
ghost use Rattle.snippet_strokes.specs.Bars.{ends_of_bars};
ghost use Rattle.snippet_style.specs.Cell.{SPACE, written};
ghost use Rattle.snippet_grid.specs.Layout.{bar_cell};

use crate::lines::repeated;
use crate::roles::is_primary;
use snippet_grid::{Layout, StyledBuffer};
use snippet_parts::{LineAnnotation, LineAnnotationType};
use snippet_style::DecorStyle;
use std::alloc::AllocError;

/// For how many bars a list has room at first. A longer one grows from there.
const BAR_ROOM: usize = 16;

/// A bar that an entry of a line opens or closes.
#[derive(Clone, Copy, Debug)]
pub(crate) struct OpenBar {
    /// How far right the bar stands, from 1.
    pub(crate) depth: usize,
    /// Whether it belongs to a primary span.
    pub(crate) primary: bool,
}

/// A part of a bar.
#[derive(Clone, Copy, Debug)]
pub(crate) enum BarStroke {
    /// The top beside a line that is marked as a whole.
    Top,
    /// What stands beside a row of a line.
    Solid,
    /// What stands beside lines that aren't shown.
    Dotted,
}

/// Bars that stand side by side, each right of the one before, and are drawn in one role.
#[derive(Clone, Copy, Debug)]
struct BarSide {
    /// The leftmost of them.
    first: OpenBar,
    /// How many they are.
    count: usize,
    /// The part of them that is drawn.
    stroke: BarStroke,
}

impl BarStroke {
    /// The glyph of the part.
    fn glyph(self, decor: DecorStyle, primary: bool) -> char
        ensures value { result ≡ drawn.bar_glyph self decor primary }
    {
        match self {
            BarStroke::Top => decor.underline(primary).whole_line,
            BarStroke::Solid => decor.underline(primary).bar,
            BarStroke::Dotted => decor.underline(primary).elided_bar,
        }
    }
}

/// The bars of the starts and ends on a line, in the room of another list.
///
/// # Errors
///
/// There is no memory for the list.
pub(crate) fn ends_on(
    room: Vec<OpenBar>,
    entries: &[LineAnnotation],
) -> Result<Vec<OpenBar>, AllocError>
    ensures value { IfOk result (λ bars. bars.items ≡ ends_of_bars entries.now) }
{
    let mut bars = room;
    bars.clear();
    for entry in entries {
        if let Some(bar) = bar_of(entry) {
            bars.push(bar)?;
        }
    }
    Ok(bars)
}

/// The bar that the start or the end of a span of several lines opens or closes.
fn bar_of(entry: &LineAnnotation) -> Option<OpenBar>
    ensures value { result ≡ drawn.bar_of entry.now }
{
    match entry.annotation_type {
        LineAnnotationType::MultilineStart(depth) | LineAnnotationType::MultilineEnd(depth) => {
            Some(OpenBar {
                depth,
                primary: is_primary(entry.kind),
            })
        }
        LineAnnotationType::Singleline | LineAnnotationType::MultilineLine(_) => None,
    }
}

/// The bars whose depth none of the others has, with room for the others, in the room of another list.
///
/// # Errors
///
/// There is no memory for the list.
pub(crate) fn bars_apart(
    room: Vec<OpenBar>,
    bars: &[OpenBar],
    others: &[OpenBar],
) -> Result<Vec<OpenBar>, AllocError>
    ensures value { IfOk result (λ apart. apart.items ≡ spec.bars_apart bars.now others.now) }
{
    let mut apart = room;
    apart.clear();
    let most = bars.len().saturating_add(others.len());
    if most > 0 {
        apart.reserve(most.max(BAR_ROOM))?;
    }
    add_bars_apart(&mut apart, bars, others)?;
    Ok(apart)
}

/// Adds to a list the bars whose depth none of the others has.
///
/// # Errors
///
/// There is no memory for the list.
pub(crate) fn add_bars_apart(
    list: &mut Vec<OpenBar>,
    bars: &[OpenBar],
    others: &[OpenBar],
) -> Result<(), AllocError>
    ensures added { OnOk result (list.new.items ≡ list.old.items ++ spec.bars_apart bars.now others.now) }
{
    for bar in bars {
        if !has_depth(others, bar.depth) {
            list.push(*bar)?;
        }
    }
    Ok(())
}

/// Whether one of some bars has this depth.
fn has_depth(bars: &[OpenBar], depth: usize) -> bool
    ensures value { result ≡ drawn.has_depth bars.now depth }
{
    bars.iter().any(|bar| bar.depth == depth)
}

/// Draws a part of some bars in each row from this one on. Those that stand side by side in one role are drawn as one
/// text.
///
/// ```text
///     2 | | |  y             the bar of depth 1, and that of depth 2
///       | | |  ^
/// ```
///
/// # Errors
///
/// There is no memory for the cells.
#[inline(always)]
pub(crate) fn draw_bars(
    buffer: &mut StyledBuffer,
    layout: Layout,
    row: usize,
    bars: &[OpenBar],
    stroke: BarStroke,
) -> Result<(), AllocError>
    requires room { All (HasBarRoom layout) bars.now }
    ensures value { OnOk result (buffer.new ≡ barred layout stroke bars.now row buffer.old) }
{
    // Most lines have no bars beside them.
    if bars.is_empty() {
        return Ok(());
    }
    draw_sides(buffer, layout, row, bars, stroke)
}

/// Draws a part of some bars in each row from this one on, those that stand side by side at a time.
#[inline(never)]
fn draw_sides(
    buffer: &mut StyledBuffer,
    layout: Layout,
    row: usize,
    bars: &[OpenBar],
    stroke: BarStroke,
) -> Result<(), AllocError>
    requires room { All (HasBarRoom layout) bars.now }
    ensures value { OnOk result (buffer.new ≡ barred layout stroke bars.now row buffer.old) }
{
    let mut from = 0;
    while from < bars.len() {
        let to = side_end(bars, from);
        let side = BarSide {
            first: bars[from],
            count: to - from,
            stroke,
        };
        draw_side(buffer, layout, row, side)?;
        from = to;
    }
    Ok(())
}

/// Whether a bar stands beside another, right of it, and is drawn in its role.
fn is_next(bar: OpenBar, next: OpenBar) -> bool
    requires right { 0 < next.depth }
    ensures yes { result ≡ true → StandsBeside bar 1 next }
{
    next.depth - 1 == bar.depth && next.primary == bar.primary
}

/// Where the bars end that stand side by side, from this one on, in one role.
fn side_end(bars: &[OpenBar], from: usize) -> usize
    requires some { from < length bars.now }
    requires right { All (λ bar. 0 < bar.depth) bars.now }
    ensures more { from < result }
    ensures within { result ≤ length bars.now }
    ensures beside { (k : ℕ) (d : OpenBar) → from ≤ k → k < result
        → StandsBeside (slice_index_or bars.now from d) (k - from) (slice_index_or bars.now k d) }
{
    let mut to = from + 1;
    while to < bars.len() && is_next(bars[to - 1], bars[to]) {
        to += 1;
    }
    to
}

/// Draws a part of bars that stand side by side in each row from this one on.
fn draw_side(
    buffer: &mut StyledBuffer,
    layout: Layout,
    row: usize,
    side: BarSide,
) -> Result<(), AllocError>
    requires side { HasSideRoom layout side.first side.count }
    ensures value { OnOk result (buffer.new ≡ changed_from
        (λ cells. written SPACE cells (bar_cell layout side.first.depth)
        (replicate side.count (bar_cell_part layout side.stroke side.first)))
        row buffer.old) }
{
    let alloc = buffer.allocator();
    let glyph = side.stroke.glyph(layout.decor, side.first.primary);
    let part = repeated(alloc, glyph, side.count)?;
    draw_parts(buffer, layout, row, side, part.as_str())
}

/// Draws bars that stand side by side in each row from this one on, given the text of their part.
fn draw_parts(
    buffer: &mut StyledBuffer,
    layout: Layout,
    row: usize,
    side: BarSide,
    part: &str,
) -> Result<(), AllocError>
    requires side { HasSideRoom layout side.first side.count }
    requires part { chars part.now ≡ replicate side.count
        (drawn.bar_glyph side.stroke layout.decor side.first.primary) }
    ensures value { OnOk result (buffer.new ≡ changed_from
        (λ cells. written SPACE cells (bar_cell layout side.first.depth)
        (replicate side.count (bar_cell_part layout side.stroke side.first)))
        row buffer.old) }
{
    let role = layout.decor.underline(side.first.primary).style;
    let cell = layout.bar_cell(side.first.depth);
    for r in row..buffer.num_lines() {
        buffer.puts(r, cell, part, role)?;
    }
    Ok(())
}
