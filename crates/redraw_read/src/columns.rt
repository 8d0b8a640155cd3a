//! The columns of places in files that rustc hasn't at hand, as those of the standard library: its text has one that is
//! less by one than its JSON's.

ghost use Rattle.std.specs.Prelude.{◌≡◌, IfOk, map, string_bytes};
ghost use Rattle.redraw_read.specs.AsShown.{place_shown};
ghost use Rattle.redraw_read.specs.AsShown as spec;

use crate::named_places::NamedPlaces;
use redraw_report::diagnostic::{FileSpan, LineRegion, Region};
use std::alloc::{AllocError, Global};

/// These places, each from the column that a text has of it, where no lines came with it.
pub fn show_columns(
    alloc: Global,
    named: &mut NamedPlaces<'_>,
    spans: Vec<FileSpan>,
) -> Result<Vec<FileSpan>, AllocError>
    ensures text { named.new.text.now ≡ named.old.text.now }
    ensures each { IfOk result (λ shown. shown.items ≡ map (place_shown named.old.text.now) spans.items) }
{
    let mut shown = Vec::new(alloc);
    for span in spans {
        shown.push(show_column(alloc, named, span)?)?;
    }
    Ok(shown)
}

/// A place from the column that a text has of it, where no lines came with it.
fn show_column(
    alloc: Global,
    named: &mut NamedPlaces<'_>,
    span: FileSpan,
) -> Result<FileSpan, AllocError>
    ensures text { named.new.text.now ≡ named.old.text.now }
    ensures value { IfOk result (λ shown. shown ≡ place_shown named.old.text.now span) }
{
    let region = region_shown(alloc, named, &span)?;
    Ok(FileSpan {
        file: span.file,
        region,
        label: span.label,
        is_primary: span.is_primary,
        carried: span.carried,
    })
}

/// The region of a place, from the column that a text has of it, where no lines came with it.
fn region_shown(
    alloc: Global,
    named: &mut NamedPlaces<'_>,
    span: &FileSpan,
) -> Result<Region, AllocError>
    ensures text { named.new.text.now ≡ named.old.text.now }
    ensures value { IfOk result (λ region. region
        ≡ spec.region_shown named.old.text.now (string_bytes span.now.file) span.now.carried span.now.region) }
{
    match (&span.carried, span.region) {
        (None, Region::Lines(lines)) => {
            let start_column = column_shown(alloc, named, span.file.as_str(), lines)?;
            Ok(Region::Lines(LineRegion {
                start_column,
                ..lines
            }))
        }
        (_, region) => Ok(region),
    }
}

/// The column that a text has of a region of this file: the one before, where it names that.
fn column_shown(
    alloc: Global,
    named: &mut NamedPlaces<'_>,
    file: &str,
    region: LineRegion,
) -> Result<Option<usize>, AllocError>
    ensures text { named.new.text.now ≡ named.old.text.now }
    ensures value { IfOk result (λ column.
        column ≡ spec.column_shown named.old.text.now file.now region.start_line region.start_column) }
{
    match region.start_column {
        Some(column) if column > 0 => {
            let is_named = named.has(alloc, file, region.start_line, column - 1)?;
            Ok(Some(if is_named { column - 1 } else { column }))
        }
        column => Ok(column),
    }
}
