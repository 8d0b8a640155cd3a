//! Which steps of a code flow are shown, and what is said of them.
ghost use Rattle.std.specs.Prelude.{◌≡◌, ◌+◌, ◌^◌, ◌<◌, ◌++◌, IfOk, OnOk, string_bytes};
ghost use Rattle.std.specs.List.{range_with_len};
ghost use Rattle.redraw_tools.specs.Steps as spec;

use std::alloc::{AllocError, Global};

/// The most steps that are all shown.
const MOST: usize = 12;
/// How many of the first steps are shown where there are more.
const FIRST: usize = 4;
/// How many of the last steps are shown then.
const LAST: usize = 8;

/// The indexes of the steps that are shown of so many: all where they are at most twelve, else the first four and the
/// last eight.
pub fn shown_steps(alloc: Global, count: usize) -> Result<Vec<usize>, AllocError>
    ensures value { IfOk result (λ shown. shown.items ≡ spec.shown_steps count) }
{
    let mut shown = Vec::new(alloc);
    if count <= MOST {
        add_indexes(&mut shown, 0, count)?;
    } else {
        add_indexes(&mut shown, 0, FIRST)?;
        add_indexes(&mut shown, count - LAST, LAST)?;
    }
    Ok(shown)
}

/// Adds so many indexes, from one on.
fn add_indexes(shown: &mut Vec<usize>, first: usize, length: usize) -> Result<(), AllocError>
    requires fits { first + length < 2 ^ 64 }
    ensures added { OnOk result (shown.new.items ≡ shown.old.items ++ range_with_len first length) }
{
    for offset in 0..length {
        shown.push(first + offset)?;
    }
    Ok(())
}

/// What is said at the step of this number: the number, and the step's message where it has one.
pub fn step_label(alloc: Global, number: usize, message: Option<&str>) -> Result<String, AllocError>
    ensures value { IfOk result (λ label. string_bytes label ≡ spec.step_label number message.entry) }
{
    match message {
        Some(message) => format!(in alloc; "{number}: {message}"),
        None => format!(in alloc; "{number}"),
    }
}

/// What is said of the steps that aren't shown.
pub fn left_out(alloc: Global, hidden: usize, count: usize) -> Result<String, AllocError>
    ensures value { IfOk result (λ text. string_bytes text ≡ spec.steps_left_out hidden count) }
{
    if hidden == 1 {
        format!(in alloc; "{hidden} of {count} steps is left out")
    } else {
        format!(in alloc; "{hidden} of {count} steps are left out")
    }
}
