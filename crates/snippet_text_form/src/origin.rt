//! Places without source.
ghost use Rattle.std.specs.Prelude.{◌≡◌, ◌++◌, OnOk};
ghost use Rattle.snippet_text_form.specs.Suggestion.{origin_form};

use crate::form::TextForm;
use crate::position::add_place_in_file;
use snippet_model::snippet::Origin;
use std::alloc::{AllocError, Global};

/// Adds a place without source, on a line of its own.
///
/// ```text
///  at src/main.rs:3:5
/// ```
///
/// # Errors
///
/// There is no memory for the text.
pub fn add_origin<'a>(
    alloc: Global,
    form: &mut TextForm<'a>,
    anonymized: bool,
    origin: &'a Origin<'a>,
) -> Result<(), AllocError>
    ensures added { OnOk result (form.new ≡ form.old ++ origin_form anonymized origin.now) }
{
    form.add_break()?;
    form.add_text(" ")?;
    let path = origin.path.as_str();
    add_place_in_file(
        alloc,
        form,
        anonymized,
        path,
        origin.line,
        origin.char_column,
    )
}
