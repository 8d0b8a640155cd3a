//! The calls of macros that are shown beside primary places.

ghost use Rattle.std.specs.Prelude.{◌≡◌, ◌++◌, List, IfOk, OnOk, All, Contains};
ghost use Rattle.redraw_read.specs.Places.{IsCallBeside, IsTold};
ghost use Rattle.redraw_read.specs.Spans.{IsRegionOf};
ghost use Rattle.redraw_report.specs.declared.diagnostic.FileSpan.{FileSpan};
ghost use Rattle.serde_json.specs.Data.{Data};
ghost use Rattle.serde_json.specs.View.{view};

use crate::expansion::{call_text, told_call};
use crate::named_files::NamedFiles;
use crate::spans::{at_value, file_span, region_of};
use json_lines::fault::Fault;
use json_lines::node::Node;
use redraw_report::diagnostic::{FileSpan, LineRegion, Region};
use std::alloc::{AllocError, Global};
use std::collections::BTreeSet;

/// The line and column where a place starts, and those where it ends.
type Corners = (usize, usize, usize, usize);

/// Where it is said already that a macro was called there, and how.
#[derive(Drop)]
pub struct ToldCalls {
    said: BTreeSet<(Corners, &'static str)>,
}

impl ToldCalls {
    /// What these places say of calls.
    pub fn new(alloc: Global, spans: &[FileSpan]) -> Result<ToldCalls, AllocError> {
        let mut said = BTreeSet::new(alloc);
        for span in spans {
            if let Some(call) = said_of(span) {
                said.insert(call)?;
            }
        }
        Ok(ToldCalls { said })
    }

    /// Keeps in mind that this is said of a place in this region, and answers whether it wasn't said before.
    fn adds(&mut self, region: LineRegion, label: &'static str) -> Result<bool, AllocError> {
        match corners_of(region) {
            Some(corners) => Ok(self.said.insert((corners, label))?),
            None => Ok(true),
        }
    }
}

/// Adds the call of a macro that is shown beside a primary place, where there is one and it isn't there yet.
pub fn add_call(
    node: &Node<'_, '_>,
    named: &Option<NamedFiles>,
    told: &mut ToldCalls,
    spans: &mut Vec<FileSpan>,
) -> Result<(), Fault>
    ensures added { (items : List Data) → Contains items (view node.now.value.now)
        → OnOk result ((calls : List FileSpan) × All (IsCallBeside items) calls
        × (spans.new.items ≡ spans.old.items ++ calls)) }
{
    if !node.flag("is_primary")? {
        return Ok(());
    }
    match told_call(node.value, named) {
        Some((call, label)) => {
            add_told(&at_value(node, call), label, told, spans)?;
            Ok(())
        }
        None => Ok(()),
    }
}

/// Adds a place of which this is said, unless it is there.
fn add_told(
    place: &Node<'_, '_>,
    label: &'static str,
    told: &mut ToldCalls,
    spans: &mut Vec<FileSpan>,
) -> Result<(), Fault>
    ensures added { OnOk result ((calls : List FileSpan) × All (IsTold (view place.now.value.now) label.now) calls
        × (spans.new.items ≡ spans.old.items ++ calls)) }
{
    let region = region_of(place)?;
    let is_new = told.adds(region, label)?;
    if !is_new {
        return Ok(());
    }
    spans.push(told_span(place, region, label)?)?;
    Ok(())
}

/// A place in this region of which this is said, and which isn't the point of the report.
fn told_span(place: &Node<'_, '_>, region: LineRegion, label: &str) -> Result<FileSpan, Fault>
    requires said { IsRegionOf (view place.now.value.now) region }
    ensures told { IfOk result (IsTold (view place.now.value.now) label.now) }
{
    let file = place.text("file_name")?;
    file_span(place, file, region, Some(label), false)
}

/// What a place says of the call of a macro, and where, if it does.
fn said_of(span: &FileSpan) -> Option<(Corners, &'static str)> {
    match (span.region, &span.label) {
        (Region::Lines(lines), Some(label)) => Some((
            corners_of(lines)?,
            call_text(label.as_str())?,
        )),
        _ => None,
    }
}

/// Where a region starts and ends, where its columns are given.
fn corners_of(region: LineRegion) -> Option<Corners> {
    let start = region.start_column?;
    let end = region.end_column?;
    Some((region.start_line, start, region.end_line, end))
}
