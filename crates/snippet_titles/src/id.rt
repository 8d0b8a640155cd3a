//! A heading's identifier.
ghost use Rattle.std.specs.Prelude.{◌≡◌, ◌≤◌, ◌++◌, List, Some, chars, length, IfOk, OnOk};
ghost use Rattle.std.specs.Cow.{cow_str_bytes};
ghost use Rattle.std.specs.Option.{option_copied};
ghost use Rattle.snippet_text.specs.Normalized.{norm};
ghost use Rattle.snippet_titles.specs.HeadingRows.{id_cells, linked_to};
ghost use Rattle.snippet_titles.specs.HeadingRows as spec;
ghost use Rattle.snippet_style.specs.Cell.{Cell, text_cells};

use snippet_grid::RowSink;
use snippet_model::snippet::Id;
use snippet_style::ElementStyle;
use snippet_text::{CowStr, normalized};
use std::alloc::{AllocError, Global};

/// Adds an id to a row: in brackets, unless the name of its level is hidden. Where links are on its text links to its
/// URL.
///
///     [E0308]
///
#[inline(always)]
pub(crate) fn write_id<'a, S: RowSink<'a>>(
    alloc: Global,
    row: &mut S,
    hyperlink: bool,
    hidden: bool,
    role: ElementStyle,
    id: Option<&'a Id<'a>>,
) -> Result<(), AllocError>
    ensures added { OnOk result ((start : S) (cells : List Cell) → S.adds start row.old cells
        → S.adds start row.new (cells ++ id_cells hyperlink hidden role (option_copied id.entry))) }
{
    match id {
        Some(id) => write_set_id(alloc, row, hyperlink, hidden, role, id),
        None => Ok(()),
    }
}

/// Adds an id to a row, if it has a text.
#[inline(never)]
fn write_set_id<'a, S: RowSink<'a>>(
    alloc: Global,
    row: &mut S,
    hyperlink: bool,
    hidden: bool,
    role: ElementStyle,
    id: &'a Id<'a>,
) -> Result<(), AllocError>
    ensures added { OnOk result ((start : S) (cells : List Cell) → S.adds start row.old cells
        → S.adds start row.new (cells ++ id_cells hyperlink hidden role (Some id.now))) }
{
    let Some(text) = &id.id else {
        return Ok(());
    };
    let shown = shown_text(alloc, text)?;
    row.add_word(opening_bracket(hidden), role)?;
    write_linked(row, shown.as_str(), role, address_of(hyperlink, id))?;
    row.add_word(closing_bracket(hidden), role)
}

/// Adds a text to a row, which links to an address, if there is one.
#[inline(always)]
fn write_linked<'a, S: RowSink<'a>>(
    row: &mut S,
    text: &str,
    role: ElementStyle,
    address: Option<&'a str>,
) -> Result<(), AllocError>
    ensures added { OnOk result ((start : S) (cells : List Cell) → S.adds start row.old cells
        → S.adds start row.new (cells ++ linked_to (option_copied address.entry) (text_cells role (chars text.now)))) }
{
    match address {
        Some(url) => row.add_link(text, role, url),
        None => row.add_word(text, role),
    }
}

/// An id's text as it is drawn.
pub(crate) fn shown_text<'r>(alloc: Global, text: &'r CowStr<'_>) -> Result<CowStr<'r>, AllocError>
    ensures value { IfOk result (λ shown. chars (cow_str_bytes shown) ≡ norm (chars (cow_str_bytes text.now))) }
{
    normalized(alloc, text.as_str())
}

/// What stands before an id's text.
pub fn opening_bracket(hidden: bool) -> &'static str
    ensures value { chars result.now ≡ spec.opening_bracket_of hidden }
    ensures length { length result.now ≡ length (spec.opening_bracket_of hidden) }
    ensures short { length result.now ≤ 1 }
{
    if hidden { "" } else { "[" }
}

/// What stands after an id's text.
pub fn closing_bracket(hidden: bool) -> &'static str
    ensures value { chars result.now ≡ spec.closing_bracket_of hidden }
    ensures short { length result.now ≤ 1 }
{
    if hidden { "" } else { "]" }
}

/// Whether an id is set: it has a text or an address.
pub fn is_set(id: Option<&Id>) -> bool
    ensures value { result ≡ spec.is_set (option_copied id.entry) }
{
    match id {
        Some(id) => id.id.is_some() || id.url.is_some(),
        None => false,
    }
}

/// The address that an id's text links to, where links are on and it has one.
pub fn address_of<'a>(hyperlink: bool, id: &'a Id<'a>) -> Option<&'a str>
    ensures value { option_copied result ≡ spec.address_of hyperlink id.now }
{
    match &id.url {
        Some(url) if hyperlink => Some(url.as_str()),
        _ => None,
    }
}
