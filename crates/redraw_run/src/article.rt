//! The article of a report in a page.
ghost use Rattle.std.specs.Prelude.{◌≡◌, ◌++◌, IfOk, OnOk, option_map, string_bytes};
ghost use Rattle.redraw_run.specs.Article as spec;
ghost use Rattle.redraw_run.specs.Article.{IsArticle, IsArticleIn};

use crate::counts::Kind;
use crate::id::{ReportId, add_file_class};
use crate::page::Page;
use redraw_command::choice::is_sum;
use redraw_command::workflow::place_of;
use redraw_report::diagnostic::{Diagnostic, FileSpan, Severity};
use std::alloc::{AllocError, Global};

/// The article in which a report is taken into a page, with this in it.
pub fn article_in(
    alloc: Global,
    page: &mut Page,
    diagnostic: &Diagnostic,
    inner: &str,
) -> Result<String, AllocError>
    ensures article { IfOk result (λ text.
        IsArticleIn page.old page.new diagnostic.now inner.now (string_bytes text)) }
    ensures placed { IfOk result (λ text. IsArticle diagnostic.now inner.now (string_bytes text)) }
{
    let file = file_of(&diagnostic.spans);
    let id = page.take(inner, file, kind_of(diagnostic))?;
    article_of(alloc, diagnostic.severity, file, &id, inner)
}

/// The file that a report lies in: that of its first primary place.
fn file_of(spans: &[FileSpan]) -> Option<&str>
    ensures value { option_map (λ name. name.now) result ≡ spec.file_among spans.now }
{
    match place_of(spans) {
        Some(place) => Some(place.file.as_str()),
        None => None,
    }
}

/// What a report counts as.
fn kind_of(diagnostic: &Diagnostic) -> Kind
    ensures value { result ≡ spec.kind_of diagnostic.now }
{
    if is_sum(diagnostic) {
        return Kind::Uncounted;
    }
    match diagnostic.severity {
        Severity::Error => Kind::Error,
        Severity::Warning => Kind::Warning,
        Severity::Info | Severity::Note | Severity::Help => Kind::Other,
        Severity::Plain => Kind::Uncounted,
    }
}

/// An article with this in it, and a link to itself, in the classes of its level and its file.
fn article_of(
    alloc: Global,
    severity: Severity,
    file: Option<&str>,
    id: &ReportId,
    inner: &str,
) -> Result<String, AllocError>
    ensures value { IfOk result (λ text. string_bytes text
        ≡ spec.article severity (option_map (λ name. name.now) file.entry) id.now inner.now) }
{
    let mut out = String::new(alloc);
    out.push_str("<article class=\"")?;
    out.push_str(class_of(severity))?;
    add_class(alloc, file, &mut out)?;
    out.push_str("\" id=\"")?;
    id.add_to(alloc, &mut out)?;
    out.push_str("\">\n<a href=\"#")?;
    id.add_to(alloc, &mut out)?;
    out.push_str("\" aria-label=\"Link to this report\">#</a>\n")?;
    out.push_str(inner)?;
    out.push_str("\n</article>")?;
    Ok(out)
}

/// Adds the class of a file, if there is one.
fn add_class(alloc: Global, file: Option<&str>, out: &mut String) -> Result<(), AllocError>
    ensures added { OnOk result (string_bytes out.new
        ≡ string_bytes out.old ++ spec.class_in (option_map (λ name. name.now) file.entry)) }
{
    match file {
        Some(name) => {
            out.push_str(" ")?;
            add_file_class(alloc, name, out)
        }
        None => Ok(()),
    }
}

/// The class of an article, by how severe what it reports is.
fn class_of(severity: Severity) -> &'static str
    ensures value { result.now ≡ spec.class_of severity }
{
    match severity {
        Severity::Error => "error",
        Severity::Warning => "warning",
        Severity::Info => "info",
        Severity::Note => "note",
        Severity::Help => "help",
        Severity::Plain => "plain",
    }
}
