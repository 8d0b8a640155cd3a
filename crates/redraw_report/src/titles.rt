//! Titles and messages: what is said, how severe it is, and which rule it is about.
ghost use Rattle.std.specs.Prelude.{◌≡◌, IfOk, option_map, string_bytes};
ghost use Rattle.std.specs.Cow.{cow_str_bytes};
ghost use Rattle.redraw_report.specs.Links as links;
ghost use Rattle.redraw_report.specs.Report as spec;
ghost use Rattle.redraw_report.specs.Report.{headed_of, named_of, remark_headed, said};
ghost use Rattle.redraw_report.specs.View.{headed_view, named_view, part_view};

use crate::diagnostic::{Code, Severity};
use crate::finding::{Finding, Remark};
use snippet_model::{Element, Id, Level, Title};
use snippet_style::LevelInner;
use snippet_text::{CowStr, is_link_address, normalized};
use std::alloc::{AllocError, Global};

/// The level that a severity is drawn by.
pub fn level_of<'a>(severity: Severity) -> Level<'a>
    ensures value { result ≡ spec.level_of severity }
{
    let level = Level::standard(kind_of(severity));
    match severity {
        Severity::Plain => level.no_name(),
        _ => level,
    }
}

/// The kind of the level that a severity is drawn by.
pub fn kind_of(severity: Severity) -> LevelInner
    ensures value { result ≡ (spec.level_of severity).kind }
{
    match severity {
        Severity::Error => LevelInner::Error,
        Severity::Warning => LevelInner::Warning,
        Severity::Info => LevelInner::Info,
        Severity::Note | Severity::Plain => LevelInner::Note,
        Severity::Help => LevelInner::Help,
    }
}

/// The identifier of a rule's name, with its address, where that may be a link.
fn id_of<'a>(code: &'a Code) -> Id<'a>
    ensures value { named_view result ≡ named_of code.now }
{
    Id {
        id: Some(CowStr::Borrowed(code.id.as_str())),
        url: safe_address(&code.url),
    }
}

/// An address, if it may be a link. A tool's log is no one's to trust: another one could hold what a terminal takes
/// for the end of the link, and for codes after it.
fn safe_address<'a>(address: &'a Option<String>) -> Option<CowStr<'a>>
    ensures value { option_map cow_str_bytes result ≡ links.safe_address (option_map string_bytes address.now) }
{
    match address {
        Some(address) if is_link_address(address.as_str()) => {
            Some(CowStr::Borrowed(address.as_str()))
        }
        _ => None,
    }
}

/// The title of a finding.
pub fn title_of<'a>(finding: &Finding<'a>) -> Title<'a>
    ensures value { headed_view result ≡ headed_of finding.now }
{
    Title {
        level: level_of(finding.severity),
        id: match finding.code {
            Some(code) => Some(id_of(code)),
            None => None,
        },
        text: CowStr::Borrowed(finding.message),
        allows_styling: false,
    }
}

/// The title of a remark that has a group of its own.
pub fn remark_title<'a>(alloc: Global, remark: &Remark<'a>) -> Result<Title<'a>, AllocError>
    ensures value { IfOk result (λ title. headed_view title ≡ remark_headed remark.now) }
{
    let text = normalized(alloc, remark.message)?;
    Ok(Title {
        level: level_of(remark.severity),
        id: None,
        text,
        allows_styling: true,
    })
}

/// A message of this severity.
pub fn message_of<'a>(
    alloc: Global,
    severity: Severity,
    text: &'a str,
) -> Result<Element<'a>, AllocError>
    ensures value { IfOk result (λ element. part_view element ≡ said severity text.now) }
{
    let text = normalized(alloc, text)?;
    Ok(Element::Message(level_of(severity).message_cow(text)))
}
