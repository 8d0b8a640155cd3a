//! The finding that a diagnostic reports: its places and edits, in the sources that are at hand.

ghost use Rattle.std.specs.Prelude.{◌≡◌, IfOk, OnOk, string_bytes};
ghost use Rattle.std.specs.List.{AllZip, sum_by};
ghost use Rattle.std.specs.Option.{option_map};
ghost use Rattle.redraw_report.specs.Report.{lent};
ghost use Rattle.redraw_read.specs.Counted.{adds, clamped_child, clamped_in, clamped_spans, is_clamped, ones};
ghost use Rattle.redraw_read.specs.Counted.{sight_of_span, undrawn_child, undrawn_in};
ghost use Rattle.redraw_read.specs.Loaded.{Loads, child_files, edited_files, files_in, files_of, named_files};
ghost use Rattle.redraw_read.specs.Loaded.{texts_of};
ghost use Rattle.redraw_read.specs.Placed.{IsFindingOf, IsMarkOf, IsRemarkOf, at_hand, hand_for, home_of};

use crate::hand::Hand;
use crate::offers::offers_of;
use crate::sources::{SourceFiles, Sources, first_home};
pub use crate::spot::Placing;
use redraw_report::diagnostic::{Child, Diagnostic, FileSpan, SuggestedEdit};
use redraw_report::finding::{Finding, MarkedSpan, Remark};
use std::alloc::{AllocError, Global};

/// Reads each file that a diagnostic speaks of.
pub fn load_files<S: SourceFiles + Drop>(
    sources: &mut Sources<S>,
    diagnostic: &Diagnostic,
) -> Result<(), AllocError>
    ensures loads { OnOk result (Loads (home_of diagnostic.now.homes.items) (named_files diagnostic.now)
        sources.old.files.items sources.new.files.items
        (texts_of sources.old.unread.items) (texts_of sources.new.unread.items)) }
{
    let homes = &diagnostic.homes;
    load_spans(sources, homes, &diagnostic.spans)?;
    for child in &diagnostic.children {
        load_child(sources, homes, child)?;
    }
    Ok(())
}

/// Reads each file that a child speaks of.
fn load_child<S: SourceFiles + Drop>(
    sources: &mut Sources<S>,
    homes: &[String],
    child: &Child,
) -> Result<(), AllocError>
    ensures loads { OnOk result (Loads (home_of homes.now) (child_files child.now)
        sources.old.files.items sources.new.files.items
        (texts_of sources.old.unread.items) (texts_of sources.new.unread.items)) }
{
    load_spans(sources, homes, &child.spans)?;
    load_edits(sources, homes, &child.alternatives)
}

/// Reads each file that these places are in.
fn load_spans<S: SourceFiles + Drop>(
    sources: &mut Sources<S>,
    homes: &[String],
    spans: &[FileSpan],
) -> Result<(), AllocError>
    ensures loads { OnOk result (Loads (home_of homes.now) (files_of spans.now)
        sources.old.files.items sources.new.files.items
        (texts_of sources.old.unread.items) (texts_of sources.new.unread.items)) }
{
    for span in spans {
        sources.load(span.file.as_str(), homes)?;
    }
    Ok(())
}

/// Reads each file that these alternatives change.
fn load_edits<S: SourceFiles + Drop>(
    sources: &mut Sources<S>,
    homes: &[String],
    alternatives: &[Vec<SuggestedEdit>],
) -> Result<(), AllocError>
    ensures loads { OnOk result (Loads (home_of homes.now) (edited_files alternatives.now)
        sources.old.files.items sources.new.files.items
        (texts_of sources.old.unread.items) (texts_of sources.new.unread.items)) }
{
    for edits in alternatives {
        load_edited(sources, homes, edits)?;
    }
    Ok(())
}

/// Reads each file that these edits change.
fn load_edited<S: SourceFiles + Drop>(
    sources: &mut Sources<S>,
    homes: &[String],
    edits: &Vec<SuggestedEdit>,
) -> Result<(), AllocError>
    ensures loads { OnOk result (Loads (home_of homes.now) (files_in edits.now)
        sources.old.files.items sources.new.files.items
        (texts_of sources.old.unread.items) (texts_of sources.new.unread.items)) }
{
    for edit in edits {
        sources.load(edit.file.as_str(), homes)?;
    }
    Ok(())
}

impl Placing {
    /// Nothing was found wrong yet.
    pub fn new(alloc: Global) -> Placing
        ensures clamped { result.clamped ≡ 0 }
        ensures undrawn { result.undrawn ≡ 0 }
    {
        Placing {
            alloc,
            clamped: 0,
            undrawn: 0,
        }
    }

    /// The finding that a diagnostic reports. In the short form places are told by marks alone.
    pub fn finding<'a, S: SourceFiles + Drop>(
        &mut self,
        sources: &'a Sources<S>,
        diagnostic: &'a Diagnostic,
        is_short: bool,
    ) -> Result<Finding<'a>, AllocError>
        ensures is { IfOk result (IsFindingOf (hand_for sources.now.files.items is_short diagnostic.now)
            diagnostic.now) }
        ensures counted { OnOk result (self.new ≡ adds self.old
            (clamped_in (hand_for sources.now.files.items is_short diagnostic.now) diagnostic.now)
            (undrawn_in (hand_for sources.now.files.items is_short diagnostic.now) diagnostic.now)) }
    {
        let hand = Hand {
            files: sources.files(),
            index: sources.index(),
            home: first_home(&diagnostic.homes),
            is_short,
        };
        finding_in(self, hand, diagnostic)
    }
}

/// The finding that a diagnostic reports, by what is at hand.
pub fn finding_in<'a>(
    placing: &mut Placing,
    hand: Hand<'a>,
    diagnostic: &'a Diagnostic,
) -> Result<Finding<'a>, AllocError>
    ensures is { IfOk result (IsFindingOf (at_hand hand.entry) diagnostic.now) }
    ensures counted { OnOk result (placing.new ≡ adds placing.old (clamped_in (at_hand hand.entry) diagnostic.now)
        (undrawn_in (at_hand hand.entry) diagnostic.now)) }
{
    let marks = marks_of(placing, hand, &diagnostic.spans)?;
    let remarks = remarks_of(placing, hand, &diagnostic.children)?;
    Ok(Finding {
        severity: diagnostic.severity,
        message: diagnostic.message.as_str(),
        code: diagnostic.code.as_ref(),
        marks,
        remarks,
        shows_gone: diagnostic.shows_gone,
    })
}

/// The marks of some places.
fn marks_of<'a>(
    placing: &mut Placing,
    hand: Hand<'a>,
    spans: &'a Vec<FileSpan>,
) -> Result<Vec<MarkedSpan<'a>>, AllocError>
    ensures are { IfOk result (λ marks. AllZip (IsMarkOf (at_hand hand.entry)) spans.now.items marks.items) }
    ensures counted { OnOk result
        (placing.new ≡ adds placing.old (clamped_spans (at_hand hand.entry) spans.now.items) 0) }
{
    let mut marks = Vec::new(placing.alloc);
    for span in spans {
        marks.push(mark_of(placing, hand, span)?)?;
    }
    Ok(marks)
}

/// The mark of a place.
fn mark_of<'a>(
    placing: &mut Placing,
    hand: Hand<'a>,
    span: &'a FileSpan,
) -> Result<MarkedSpan<'a>, AllocError>
    ensures is { IfOk result (IsMarkOf (at_hand hand.entry) span.now) }
    ensures counted { OnOk result (placing.new
        ≡ adds placing.old (ones (is_clamped (sight_of_span (at_hand hand.entry) span.now) span.now.region)) 0) }
{
    let spot = placing.spot(hand, &span.file, span.region, &span.carried)?;
    Ok(MarkedSpan {
        source: spot.source,
        start: spot.start,
        end: spot.end,
        label: label_of(span),
        is_primary: span.is_primary,
    })
}

/// What is said of a place.
fn label_of(span: &FileSpan) -> Option<&str>
    ensures value { lent result ≡ option_map string_bytes span.now.label }
{
    match &span.label {
        Some(label) => Some(label.as_str()),
        None => None,
    }
}

/// The remarks that some children make.
fn remarks_of<'a>(
    placing: &mut Placing,
    hand: Hand<'a>,
    children: &'a Vec<Child>,
) -> Result<Vec<Remark<'a>>, AllocError>
    ensures are { IfOk result (λ remarks. AllZip (IsRemarkOf (at_hand hand.entry)) children.now.items remarks.items) }
    ensures counted { OnOk result (placing.new
        ≡ adds placing.old (sum_by (clamped_child (at_hand hand.entry)) children.now.items)
        (sum_by (undrawn_child (at_hand hand.entry)) children.now.items)) }
{
    let mut remarks = Vec::new(placing.alloc);
    for child in children {
        remarks.push(remark_of(placing, hand, child)?)?;
    }
    Ok(remarks)
}

/// The remark that a child makes.
fn remark_of<'a>(
    placing: &mut Placing,
    hand: Hand<'a>,
    child: &'a Child,
) -> Result<Remark<'a>, AllocError>
    ensures is { IfOk result (IsRemarkOf (at_hand hand.entry) child.now) }
    ensures counted { OnOk result (placing.new ≡ adds placing.old (clamped_child (at_hand hand.entry) child.now)
        (undrawn_child (at_hand hand.entry) child.now)) }
{
    let marks = marks_of(placing, hand, &child.spans)?;
    let offers = offers_of(placing, hand, &child.alternatives)?;
    Ok(Remark {
        severity: child.severity,
        message: child.message.as_str(),
        marks,
        offers,
        goes_on: child.goes_on,
    })
}
