//! The roles of what is new in a line, and of what is removed.
ghost use Rattle.std.specs.Prelude.{◌≡◌, ◌==◌, ◌+◌, ◌*◌, ℕ, ◌++◌, ◌∷◌, [], All, List, OnOk, chars, count_by, length};
ghost use Rattle.std.specs.Prelude.{take, true};
ghost use Rattle.snippet_splice.specs.EditStretches.{capped};
ghost use Rattle.snippet_splice.specs.StretchLines.{line_stretches};
ghost use Rattle.snippet_suggest.specs.Cells.{put, with_stretches};
ghost use Rattle.snippet_suggest.specs.InOrder.{AreInOrder};
ghost use Rattle.snippet_text.specs.Normalized.{norm};
ghost use Rattle.snippet_text.specs.Plain.{IsPlain};
ghost use Rattle.snippet_style.specs.declared.role.ElementStyle.TheVariants.{NoStyle};
ghost use Rattle.snippet_style.specs.Bounds.{HasNext};
ghost use Rattle.snippet_suggest.specs.Cursor.{IsCursor};
ghost use Rattle.snippet_style.specs.Cell.{Cell};
ghost use Rattle.snippet_grid.specs.Layout.{inner_cell};

use crate::layout::SuggestionLayout;
use snippet_grid::StyledBuffer;
use snippet_splice::SubstitutionHighlight;
use snippet_style::ElementStyle;
use snippet_text::is_plain;
use std::alloc::AllocError;
use std::str::Chars;

/// Gives the cells of stretches of a line, which stands in this row, a role.
pub(crate) fn paint_stretches(
    buffer: &mut StyledBuffer,
    layout: &SuggestionLayout,
    row: usize,
    line: &str,
    stretches: &[SubstitutionHighlight],
    role: ElementStyle,
) -> Result<(), AllocError>
    ensures cells { OnOk result ((above : List (List Cell)) (last : List Cell) → row ≡ length above → buffer.old
        ≡ above ++ last ∷ []
        → buffer.new ≡ above ++ with_stretches role layout.now.base.gutter (chars line.now) stretches.now last ∷ []) }
{
    let mut tabs = TabCursor::new(line);
    for stretch in stretches {
        if stretch.start != stretch.end {
            let start = stretch_cell(layout, stretch.start, tabs.before(stretch.start));
            let end = stretch_cell(layout, stretch.end, tabs.before(stretch.end));
            buffer.set_style_range(row, start, end, role, true)?;
        }
    }
    Ok(())
}

/// Whether a line is printable ASCII, and these stretches stand in it one after the other.
pub(crate) fn are_in_order(line: &str, stretches: &[SubstitutionHighlight]) -> bool
    ensures plain { result ≡ true → All IsPlain line.now }
    ensures ordered { result ≡ true → AreInOrder (length line.now) 0 stretches.now }
{
    if !is_plain(line) {
        return false;
    }
    let mut at = 0;
    for stretch in stretches {
        if stretch.start < at || stretch.end < stretch.start {
            return false;
        }
        at = stretch.end;
    }
    at <= line.len()
}

/// Puts a line of printable ASCII into a row that is the last, after what stands left of it: these stretches of it in a
/// role, the rest unstyled.
pub(crate) fn put_stretches(
    buffer: &mut StyledBuffer,
    layout: &SuggestionLayout,
    row: usize,
    line: &str,
    stretches: &[SubstitutionHighlight],
    role: ElementStyle,
) -> Result<(), AllocError>
    requires row { HasNext row }
    requires plain { All IsPlain line.now }
    requires ordered { AreInOrder (length line.now) 0 stretches.now }
    ensures cells { OnOk result ((above : List (List Cell)) (last : List Cell) → row ≡ length above → buffer.old
        ≡ above ++ last ∷ []
        → buffer.new ≡ above ++ with_stretches role layout.now.base.gutter (chars line.now) stretches.now
        (put NoStyle (norm (chars line.now)) (inner_cell layout.now.base) last) ∷ []) }
{
    let cell = layout.base.inner_cell();
    let mut at = 0;
    for stretch in stretches {
        let (start, end) = (stretch.start, stretch.end);
        buffer.puts(row, cell + at, &line[at..start], ElementStyle::NoStyle)?;
        buffer.puts(row, cell + start, &line[start..end], role)?;
        at = end;
    }
    buffer.puts(row, cell + at, &line[at..], ElementStyle::NoStyle)?;
    Ok(())
}

/// The cell of a character with this many tabs before it, each of which takes four cells.
fn stretch_cell(layout: &SuggestionLayout, character: usize, tabs: usize) -> usize
    ensures value { (n : ℕ) → tabs ≡ capped n → result ≡ capped (inner_cell layout.now.base + character + 3 * n) }
{
    let base = layout.base;
    base.gutter
        .saturating_add(3)
        .saturating_add(character)
        .saturating_add(tabs.saturating_mul(3))
}

/// Counts the tabs before characters of a line: in one walk, where it is asked for one character after the other.
#[derive(Drop)]
struct TabCursor<'a> {
    line: &'a str,
    rest: Chars<'a>,
    passed: usize,
    tabs: usize,
}

impl<'a> TabCursor<'a> {
    /// A cursor at the start of a line.
    fn new(line: &'a str) -> TabCursor<'a>
        ensures line { result.line.now ≡ line.now }
        ensures at { IsCursor result }
        ensures begins { result.passed ≡ 0 }
    {
        TabCursor {
            line,
            rest: line.chars(),
            passed: 0,
            tabs: 0,
        }
    }

    /// The number of tabs before a character.
    fn before(&mut self, character: usize) -> usize
        requires at { IsCursor self.old }
        ensures line { self.new.line.now ≡ self.old.line.now }
        ensures at { IsCursor self.new }
        ensures value { result ≡ capped (count_by (λ c. c == 9) (take character (chars self.old.line.now))) }
    {
        if character < self.passed {
            *self = TabCursor::new(self.line);
        }
        while self.passed < character {
            let Some(c) = self.rest.next() else {
                break;
            };
            self.passed += 1;
            self.tabs = self.tabs.saturating_add(usize::from(c == '\t'));
        }
        self.tabs
    }
}

/// The stretches of a line, by its number.
pub(crate) fn stretches_of(
    stretches: &[Vec<SubstitutionHighlight>],
    line: usize,
) -> &[SubstitutionHighlight]
    ensures value { result.now ≡ line_stretches stretches.now line }
{
    match stretches.get(line) {
        Some(stretches) => stretches,
        None => &[],
    }
}
