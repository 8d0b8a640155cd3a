//! The report of a finding.
ghost use Rattle.std.specs.Prelude.{◌≡◌, ◌++◌, List, [], ◌∷◌, IfOk, map, option_map};
ghost use Rattle.redraw_report.specs.Links.{HasSafeLinks};
ghost use Rattle.redraw_report.specs.declared.finding.Remark.{Remark};
ghost use Rattle.redraw_report.specs.Report as spec;
ghost use Rattle.redraw_report.specs.Report.{headed_of, marked_parts, offers_parts, remark_section, report_of};
ghost use Rattle.redraw_report.specs.Report.{section_of, sections_from};
ghost use Rattle.redraw_report.specs.View.{headed_view, part_view, section_view};

use crate::finding::{Finding, Remark};
use crate::marks::marked_elements;
use crate::offers::add_offers;
use crate::titles::{kind_of, message_of, remark_title, title_of};
use snippet_model::{Element, Group, Title};
use std::alloc::{AllocError, Global};

/// The group of a title and elements.
fn group_of<'a>(title: Title<'a>, elements: Vec<Element<'a>>) -> Group<'a>
    ensures value { section_view result ≡ section_of (headed_view title.entry) (map part_view elements.entry.items) }
{
    Group {
        level: title.level.kind,
        title: Some(title),
        elements,
    }
}

/// The group of a remark that has places or edits.
fn remark_group<'a>(
    alloc: Global,
    remark: &Remark<'a>,
    shows_gone: bool,
) -> Result<Group<'a>, AllocError>
    ensures value { IfOk result (λ group. section_view group ≡ remark_section shows_gone remark.now) }
{
    let title = title_if(alloc, remark)?;
    let elements = remark_elements(alloc, remark, shows_gone)?;
    Ok(Group {
        level: kind_of(remark.severity),
        title,
        elements,
    })
}

/// The title of such a remark, unless it goes on with what is before it.
fn title_if<'a>(alloc: Global, remark: &Remark<'a>) -> Result<Option<Title<'a>>, AllocError>
    ensures value { IfOk result (λ title. option_map headed_view title ≡ spec.remark_title remark.now) }
{
    if remark.goes_on {
        Ok(None)
    } else {
        Ok(Some(remark_title(alloc, remark)?))
    }
}

/// What stands below the title of such a remark: its places, and the edits that it offers.
fn remark_elements<'a>(
    alloc: Global,
    remark: &Remark<'a>,
    shows_gone: bool,
) -> Result<Vec<Element<'a>>, AllocError>
    ensures value { IfOk result (λ elements. map part_view elements.items
        ≡ marked_parts remark.now.marks.items ++ offers_parts shows_gone remark.now.offers.items) }
{
    let mut elements = marked_elements(alloc, &remark.marks)?;
    add_offers(alloc, &mut elements, &remark.offers, shows_gone)?;
    Ok(elements)
}

/// The group of a finding itself.
fn first_group<'a>(alloc: Global, finding: &Finding<'a>) -> Result<Group<'a>, AllocError>
    ensures value { IfOk result (λ group.
        section_view group ≡ section_of (headed_of finding.now) (marked_parts finding.now.marks.items)) }
{
    let elements = marked_elements(alloc, &finding.marks)?;
    Ok(group_of(title_of(finding), elements))
}

/// Whether a remark has neither places nor edits.
fn is_bare(remark: &Remark<'_>) -> bool
    ensures value { result ≡ spec.is_bare remark.now }
{
    remark.marks.is_empty() && remark.offers.is_empty()
}

/// A group with a remark as one more message.
fn with_message<'a>(
    alloc: Global,
    group: Group<'a>,
    remark: &Remark<'a>,
) -> Result<Group<'a>, AllocError>
    ensures value { IfOk result (λ g. section_view g ≡ spec.with_message (section_view group.entry) remark.now) }
{
    let message = message_of(alloc, remark.severity, remark.message)?;
    group.element(message)
}

/// Takes a remark: as a message of the last group, which is answered; or as a group of its own, which is answered, and
/// the one before it is put to the others.
fn add_remark<'a>(
    alloc: Global,
    groups: &mut Vec<Group<'a>>,
    group: Group<'a>,
    remark: &Remark<'a>,
    shows_gone: bool,
) -> Result<Group<'a>, AllocError>
    ensures taken { IfOk result (λ g. (rest : List Remark)
        → map section_view groups.new.items ++ sections_from shows_gone (section_view g) rest
        ≡ map section_view groups.old.items
        ++ sections_from shows_gone (section_view group.entry) (remark.now ∷ rest)) }
{
    if is_bare(remark) {
        with_message(alloc, group, remark)
    } else {
        groups.push(group)?;
        remark_group(alloc, remark, shows_gone)
    }
}

/// Takes some remarks, one after another, and answers the last group.
fn add_remarks<'a>(
    alloc: Global,
    groups: &mut Vec<Group<'a>>,
    mut group: Group<'a>,
    remarks: &[Remark<'a>],
    shows_gone: bool,
) -> Result<Group<'a>, AllocError>
    ensures taken { IfOk result (λ g. map section_view groups.new.items ++ section_view g ∷ []
        ≡ map section_view groups.old.items ++ sections_from shows_gone (section_view group.entry) remarks.now) }
{
    for remark in remarks {
        group = add_remark(alloc, groups, group, remark, shows_gone)?;
    }
    Ok(group)
}

/// The report of a finding, for a form that has room for the lines that edits take out, or for one that hasn't. It
/// links to nothing but addresses that may be links.
pub fn report<'a>(
    alloc: Global,
    finding: &Finding<'a>,
    has_room: bool,
) -> Result<Vec<Group<'a>>, AllocError>
    ensures told { IfOk result (λ groups. map section_view groups.items ≡ report_of has_room finding.now) }
    ensures safe { IfOk result (λ groups. HasSafeLinks groups.items) }
{
    let mut groups = Vec::new(alloc);
    let first = first_group(alloc, finding)?;
    let shows_gone = has_room && finding.shows_gone;
    let last = add_remarks(alloc, &mut groups, first, &finding.remarks, shows_gone)?;
    groups.push(last)?;
    Ok(groups)
}
