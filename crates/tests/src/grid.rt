//! A row of the grid with as many cells as a row can have.

use snippet_grid::StyledBuffer;
use snippet_style::ElementStyle;
use std::alloc::{AllocError, Global};
use std::test::Fail;

/// A grid whose one row has room for one more cell.
fn almost_full(alloc: Global) -> Result<StyledBuffer<'static>, AllocError> {
    let mut grid = StyledBuffer::new(alloc);
    grid.putc(0, usize::MAX - 2, 'x', ElementStyle::LineNumber)?;
    Ok(grid)
}

/// Whether a text takes the cell that is left of a row, and no other has room after it.
fn fills(alloc: Global, text: &str) -> Result<bool, AllocError> {
    let mut grid = almost_full(alloc)?;
    grid.append(0, text, ElementStyle::Quotation)?;
    let full = grid.append(0, "e", ElementStyle::Quotation).is_err();
    Ok(full && grid.num_lines() == 1 && grid.num_runs() == 2)
}

#[test]
fn appends_a_character_of_one_byte(rt: HostRuntime) -> Result<(), Fail> {
    assert!(rt; fills(rt.alloc(), "e")?);
    Ok(())
}

#[test]
fn appends_a_character_of_several_bytes(rt: HostRuntime) -> Result<(), Fail> {
    assert!(rt; fills(rt.alloc(), "é")?);
    assert!(rt; fills(rt.alloc(), "👍")?);
    Ok(())
}

#[test]
fn appends_no_more_characters_than_have_room(rt: HostRuntime) -> Result<(), Fail> {
    let mut grid = almost_full(rt.alloc())?;
    assert!(rt; grid.append(0, "éé", ElementStyle::Quotation).is_err());
    assert_eq!(rt; grid.num_runs(), 1);
    grid.append(0, "", ElementStyle::Quotation)?;
    assert_eq!(rt; grid.num_runs(), 1);
    Ok(())
}
