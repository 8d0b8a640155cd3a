//! Lists of calls from a fixed sequence, made of a grid and of plain rows of cells, whose texts are then compared.

use crate::grid_calls::{Call, make};
use crate::plain_grid::PlainGrid;
use annotate_snippets::renderer::parts::{ElementStyle, LevelInner, SheetCodes, StyledBuffer};
use annotate_snippets::renderer::{AnsiColor, Stylesheet};
use std::alloc::{AllocError, Global};
use std::test::Fail;

/// How many lists there are.
const LISTS: u64 = 1000;

/// How many calls a list has.
const CALLS: u64 = 12;

/// What is written.
const TEXTS: [&str; 8] = ["", "a", "bc", "tèx", "日本", "   ", "....", "a longer text"];

/// The roles of what is written, of different styles.
const ROLES: [ElementStyle; 8] = [
    ElementStyle::NoStyle,
    ElementStyle::Quotation,
    ElementStyle::LineNumber,
    ElementStyle::Addition,
    ElementStyle::Removal,
    ElementStyle::UnderlinePrimary,
    ElementStyle::UnderlineSecondary,
    ElementStyle::MainHeaderMsg,
];

/// What is linked to.
const LINKS: [&str; 2] = ["u", "v"];

/// A fixed sequence of numbers.
#[derive(Drop)]
struct Numbers {
    state: u64,
}

impl Numbers {
    /// The next number below a limit.
    fn below(&mut self, limit: u8) -> u8 {
        self.state = self
            .state
            .wrapping_mul(6_364_136_223_846_793_005)
            .wrapping_add(1_442_695_040_888_963_407);
        let high = self.state >> 56;
        if limit == 0 {
            0
        } else {
            (high % u64::from(limit)) as u8
        }
    }

    /// The next text.
    fn text(&mut self) -> &'static str {
        TEXTS[usize::from(self.below(8) % 8)]
    }

    /// The next role.
    fn role(&mut self) -> ElementStyle {
        ROLES[usize::from(self.below(8) % 8)]
    }

    /// The next of yes and no.
    fn is_on(&mut self) -> bool {
        self.below(2) == 1
    }

    /// The next call.
    fn call(&mut self) -> Call {
        let (row, cell, end) = (self.below(4), self.below(16), self.below(20));
        match self.below(8) {
            0 => Call::Putc(row, u32::from(cell), 'c', self.role()),
            1 => Call::Append(row, self.text(), self.role()),
            2 => Call::Replace(row, cell, end, self.text()),
            3 => Call::SetStyle(
                usize::from(row),
                usize::from(cell),
                self.role(),
                self.is_on(),
            ),
            4 => Call::SetStyleRange(row, cell, end, self.role(), self.is_on()),
            5 => Call::Link(row, cell, end, LINKS[usize::from(self.below(2) % 2)]),
            _ => Call::Puts(row, cell, self.text(), self.role()),
        }
    }
}

/// How many runs a call may add.
fn most_new_runs(call: Call) -> usize {
    match call {
        Call::SetStyleRange(..) | Call::Link(..) => usize::MAX,
        _ => 2,
    }
}

/// A sheet in which roles differ, and a row begins in a style.
fn sheet() -> Stylesheet {
    Stylesheet {
        error: AnsiColor::Red.on_default(),
        line_num: AnsiColor::Blue.on_default(),
        emphasis: AnsiColor::White.on_default(),
        none: AnsiColor::Black.on_default(),
        context: AnsiColor::Cyan.on_default(),
        addition: AnsiColor::Green.on_default(),
        removal: AnsiColor::Magenta.on_default(),
        ..Stylesheet::plain()
    }
}

/// Makes a call of a grid and of plain rows of cells, and says whether it adds no more runs to the grid than it may.
fn make_of_both(
    alloc: Global,
    buffer: &mut StyledBuffer<'static>,
    plain: &mut PlainGrid,
    call: Call,
) -> Result<bool, AllocError> {
    let before = buffer.num_runs();
    make(buffer, call)?;
    plain.make(alloc, call)?;
    Ok(buffer.num_runs() <= before.saturating_add(most_new_runs(call)))
}

/// Whether each of some calls adds no more runs than it may, and whether the grid then holds what plain rows of cells
/// hold.
fn list(alloc: Global, numbers: &mut Numbers) -> Result<(bool, bool), AllocError> {
    let mut buffer = StyledBuffer::new(alloc);
    let mut plain = PlainGrid::new(alloc);
    let mut few = true;
    for _ in 0..CALLS {
        few = make_of_both(alloc, &mut buffer, &mut plain, numbers.call())? && few;
    }
    Ok((few, is_same(alloc, &buffer, &plain)?))
}

/// Whether a grid has the rows and the texts of plain rows of cells, without codes and with them.
fn is_same(
    alloc: Global,
    buffer: &StyledBuffer<'static>,
    plain: &PlainGrid,
) -> Result<bool, AllocError> {
    let same_rows = buffer.num_lines() == plain.num_rows();
    let same_bare = is_same_under(alloc, buffer, plain, &Stylesheet::plain())?;
    let same_styled = is_same_under(alloc, buffer, plain, &sheet())?;
    let same_twice = is_same_twice(alloc, buffer, plain, &sheet())?;
    Ok(same_rows && same_bare && same_styled && same_twice)
}

/// Whether a grid has the text of plain rows of cells under a sheet.
fn is_same_under(
    alloc: Global,
    buffer: &StyledBuffer<'static>,
    plain: &PlainGrid,
    sheet: &Stylesheet,
) -> Result<bool, AllocError> {
    let text = buffer.render(LevelInner::Error, sheet)?;
    Ok(text == plain.text(alloc, LevelInner::Error, sheet)?)
}

/// Whether a grid that is printed twice, by the same codes, has the text of plain rows of cells twice.
fn is_same_twice(
    alloc: Global,
    buffer: &StyledBuffer<'static>,
    plain: &PlainGrid,
    sheet: &Stylesheet,
) -> Result<bool, AllocError> {
    let codes = SheetCodes::new(sheet);
    let once = buffer.render_after(String::new(alloc), LevelInner::Error, &codes)?;
    let twice = buffer.render_after(once, LevelInner::Error, &codes)?;
    let mut wanted = plain.text(alloc, LevelInner::Error, sheet)?;
    wanted.push_str(plain.text(alloc, LevelInner::Error, sheet)?.as_str())?;
    Ok(twice == wanted)
}

#[test]
fn holds_what_plain_rows_hold(rt: HostRuntime) -> Result<(), Fail> {
    let mut numbers = Numbers { state: 1 };
    for _ in 0..LISTS {
        let (few, same) = list(rt.alloc(), &mut numbers)?;
        assert!(rt; few);
        assert!(rt; same);
    }
    Ok(())
}
