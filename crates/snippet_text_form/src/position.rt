//! How a place is named.
ghost use Rattle.std.specs.Prelude.{◌≡◌, ◌++◌, OnOk};
ghost use Rattle.std.specs.Option.{option_copied};
ghost use Rattle.snippet_text.specs.TextBounds.{IsOffset};
ghost use Rattle.snippet_titles.specs.Origin as titles;
ghost use Rattle.snippet_text_form.specs.Form.{bare};
ghost use Rattle.snippet_text_form.specs.Position as spec;
ghost use Rattle.snippet_text_form.specs.Position.{after_path, column_words, place_in_file, place_on_line, to_line};

use crate::form::TextForm;
use snippet_lines::Loc;
use snippet_parts::SourceMap;
use snippet_text::normalized;
use std::alloc::{AllocError, Global};

/// The source that spans stand in, and how its lines are named.
#[derive(Clone, Copy)]
pub(crate) struct NamedSource<'m, 'a> {
    pub(crate) map: &'m SourceMap<'a>,
    /// Whether each line is named `LL`.
    pub(crate) anonymized: bool,
}

/// What the line of a span begins with: spaces, and the path of its file where that is named.
#[derive(Clone, Copy)]
pub(crate) struct LineStart<'a> {
    pub(crate) indent: &'a str,
    pub(crate) path: Option<&'a str>,
}

/// Where a span starts and ends.
#[derive(Clone, Copy)]
pub(crate) struct SpanEnds {
    pub(crate) start: Loc,
    pub(crate) end: Loc,
    ghost start_fits: { IsOffset start.char },
    ghost end_fits: { IsOffset end.char },
}

/// Adds a place on a line: in a file, if there is a path.
pub(crate) fn add_place<'a>(
    alloc: Global,
    form: &mut TextForm<'a>,
    anonymized: bool,
    path: Option<&'a str>,
    line: usize,
    column: Option<usize>,
) -> Result<(), AllocError>
    ensures added { OnOk result (form.new ≡ form.old ++ bare
        (spec.place anonymized (option_copied path.entry) line column)) }
{
    match path {
        Some(path) => add_place_in_file(alloc, form, anonymized, path, Some(line), column),
        None => add_place_on_line(form, anonymized, line, column),
    }
}

/// Adds a place in a file, as far as its line and column are known: `at src/main.rs:3:5`.
pub(crate) fn add_place_in_file<'a>(
    alloc: Global,
    form: &mut TextForm<'a>,
    anonymized: bool,
    path: &'a str,
    line: Option<usize>,
    column: Option<usize>,
) -> Result<(), AllocError>
    ensures added { OnOk result (form.new ≡ form.old ++ bare (place_in_file anonymized path.now line column)) }
{
    form.add_text("at ")?;
    form.add_shown(normalized(alloc, path)?)?;
    add_after_path(form, anonymized, line, column)
}

/// Adds what stands after a path: `:3:5`.
fn add_after_path(
    form: &mut TextForm<'_>,
    anonymized: bool,
    line: Option<usize>,
    column: Option<usize>,
) -> Result<(), AllocError>
    ensures added { OnOk result (form.new ≡ form.old ++ bare (after_path anonymized line column)) }
{
    let Some(line) = line else {
        return add_column(form, column);
    };
    form.add_text(":")?;
    add_line(form, anonymized, line)?;
    if let Some(column) = column {
        form.add_text(":")?;
        form.add_number(column)?;
    }
    Ok(())
}

/// Adds a place without a path: `on line 3, column 5`.
pub(crate) fn add_place_on_line(
    form: &mut TextForm<'_>,
    anonymized: bool,
    line: usize,
    column: Option<usize>,
) -> Result<(), AllocError>
    ensures added { OnOk result (form.new ≡ form.old ++ bare (place_on_line anonymized line column)) }
{
    form.add_text("on line ")?;
    add_line(form, anonymized, line)?;
    add_column(form, column)
}

/// Adds a later line at which something ends, after the place at which it starts: ` to line 4, column 7`.
pub(crate) fn add_to_line(
    form: &mut TextForm<'_>,
    anonymized: bool,
    line: usize,
    column: Option<usize>,
) -> Result<(), AllocError>
    ensures added { OnOk result (form.new ≡ form.old ++ bare (to_line anonymized line column)) }
{
    form.add_text(" to line ")?;
    add_line(form, anonymized, line)?;
    add_column(form, column)
}

/// Adds a column in words, where there is one: `, column 5`.
fn add_column(form: &mut TextForm<'_>, column: Option<usize>) -> Result<(), AllocError>
    ensures added { OnOk result (form.new ≡ form.old ++ bare (column_words column)) }
{
    let Some(column) = column else {
        return Ok(());
    };
    form.add_text(", column ")?;
    form.add_number(column)
}

/// Adds the name of a line: its number, or `LL`.
pub(crate) fn add_line(
    form: &mut TextForm<'_>,
    anonymized: bool,
    line: usize,
) -> Result<(), AllocError>
    ensures added { OnOk result (form.new ≡ form.old ++ bare (titles.line_name anonymized line)) }
{
    if anonymized {
        form.add_text("LL")
    } else {
        form.add_number(line)
    }
}
