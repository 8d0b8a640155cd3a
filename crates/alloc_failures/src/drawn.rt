//! A report in its three forms, and under two sheets.
ghost use Rattle.annotate_snippets.specs.Fits.{GroupFits, ReportFits};

use crate::reports::{Subject, built};
use crate::subject::print_text;
use crate::texts_of_reports::REPORTS;
use annotate_snippets::renderer::{RenderError, Stylesheet};
use annotate_snippets::snippet::Report;
use annotate_snippets::{Group, Renderer};
use std::alloc::Global;
use std::io;

/// The texts of a report.
#[derive(Clone, Copy)]
pub struct Texts {
    /// What the report is of.
    pub name: &'static str,
    /// The columns that its lines are cut to.
    pub width: usize,
    /// Its text in the graphic form.
    pub graphic: &'static str,
    /// Its text in the short form.
    pub short: &'static str,
    /// Its text in the text form.
    pub text_form: &'static str,
    /// Its text in the graphic form under the default sheet.
    pub styled: &'static str,
}

/// Builds each report, draws it in each form and under two sheets, and prints what came out right.
pub fn print(rt: &(impl Print + AllocGlobal)) -> io::Result<()> {
    for (subject, texts) in REPORTS {
        print_subject(rt, *subject, *texts)?;
    }
    Ok(())
}

/// Draws one report in each form and under two sheets, and prints what came out right.
fn print_subject(
    rt: &(impl Print + AllocGlobal),
    subject: Subject,
    texts: Texts,
) -> io::Result<()> {
    let group = built(rt.alloc(), subject)?;
    print_group(rt, group, texts)
}

/// Draws a report of one group in each form, and under two sheets.
fn print_group(
    rt: &(impl Print + AllocGlobal),
    group: Group<'static>,
    texts: Texts,
) -> io::Result<()>
    requires fits { GroupFits group }
{
    let groups = [group];
    print_report(rt, &groups, texts)
}

/// Draws a report in each form, and under two sheets.
fn print_report(rt: &(impl Print + AllocGlobal), groups: Report<'_>, texts: Texts) -> io::Result<()>
    requires fits { ReportFits groups.now }
{
    println!(rt; "{}:", texts.name)?;
    print_graphic(rt, groups, texts)?;
    print_short(rt, groups, texts)?;
    print_text_form(rt, groups, texts)
}

/// Draws a report in the graphic form: alone, and under two sheets.
fn print_graphic(
    rt: &(impl Print + AllocGlobal),
    groups: Report<'_>,
    texts: Texts,
) -> io::Result<()>
    requires fits { ReportFits groups.now }
{
    let renderer = Renderer::plain().term_width(texts.width);
    print_form(rt, groups, &renderer, "  graphic form", texts.graphic)?;
    print_sheets(rt, groups, &renderer, texts)
}

/// Draws a report in the short form.
fn print_short(rt: &(impl Print + AllocGlobal), groups: Report<'_>, texts: Texts) -> io::Result<()>
    requires fits { ReportFits groups.now }
{
    let renderer = Renderer::plain()
        .term_width(texts.width)
        .short_message(true);
    print_form(rt, groups, &renderer, "  short form", texts.short)
}

/// Draws a report in the text form, which the short form gives way to.
fn print_text_form(
    rt: &(impl Print + AllocGlobal),
    groups: Report<'_>,
    texts: Texts,
) -> io::Result<()>
    requires fits { ReportFits groups.now }
{
    let renderer = Renderer::plain()
        .term_width(texts.width)
        .short_message(true)
        .no_graphics(true);
    print_form(rt, groups, &renderer, "  text form", texts.text_form)
}

/// The text of a report.
pub fn text_of(
    alloc: Global,
    groups: Report<'_>,
    renderer: &Renderer,
) -> Result<String, RenderError>
    requires fits { ReportFits groups.now }
{
    renderer.render(alloc, groups)
}

/// The text of a report, drawn once more where that is out of memory.
fn drawn(alloc: Global, groups: Report<'_>, renderer: &Renderer) -> Result<String, RenderError>
    requires fits { ReportFits groups.now }
{
    match text_of(alloc, groups, renderer) {
        Err(RenderError::Memory(_)) => text_of(alloc, groups, renderer),
        drawn => drawn,
    }
}

/// Draws a report in one form, and compares its text.
pub(crate) fn print_form(
    rt: &(impl Print + AllocGlobal),
    groups: Report<'_>,
    renderer: &Renderer,
    form: &str,
    wanted: &str,
) -> io::Result<()>
    requires fits { ReportFits groups.now }
{
    match drawn(rt.alloc(), groups, renderer) {
        Ok(text) => print_text(rt, form, text.as_str(), wanted),
        Err(refusal) => print_refusal(rt, form, refusal),
    }
}

/// Prints why a report isn't drawn, or stops where it is out of memory.
pub(crate) fn print_refusal(rt: &impl Print, form: &str, refusal: RenderError) -> io::Result<()> {
    match refusal {
        RenderError::Memory(refused) => Err(io::Error::from(refused)),
        refusal => println!(rt; "{form}: DIFFERS: {refusal}"),
    }
}

/// The texts of a report under the plain and the default sheet.
fn under_sheets(
    alloc: Global,
    groups: Report<'_>,
    renderer: &Renderer,
) -> Result<Vec<String>, RenderError>
    requires fits { ReportFits groups.now }
{
    let sheets = [Stylesheet::plain(), Renderer::styled().stylesheet];
    renderer.render_sheets(alloc, groups, &sheets)
}

/// The texts of a report under the plain and the default sheet, drawn once more if that is out of memory.
fn drawn_under_sheets(
    alloc: Global,
    groups: Report<'_>,
    renderer: &Renderer,
) -> Result<Vec<String>, RenderError>
    requires fits { ReportFits groups.now }
{
    match under_sheets(alloc, groups, renderer) {
        Err(RenderError::Memory(_)) => under_sheets(alloc, groups, renderer),
        drawn => drawn,
    }
}

/// Draws a report under the plain and the default sheet, and compares its texts.
fn print_sheets(
    rt: &(impl Print + AllocGlobal),
    groups: Report<'_>,
    renderer: &Renderer,
    texts: Texts,
) -> io::Result<()>
    requires fits { ReportFits groups.now }
{
    match drawn_under_sheets(rt.alloc(), groups, renderer) {
        Ok(drawn) => print_pair(rt, &drawn, texts),
        Err(refusal) => print_refusal(rt, "  two sheets", refusal),
    }
}

/// Compares the texts under the two sheets.
fn print_pair(rt: &impl Print, drawn: &[String], texts: Texts) -> io::Result<()> {
    match drawn {
        [plain, styled] => {
            print_text(rt, "  plain sheet", plain.as_str(), texts.graphic)?;
            print_text(rt, "  default sheet", styled.as_str(), texts.styled)
        }
        _ => println!(rt; "  two sheets: DIFFERS: {} texts", drawn.len()),
    }
}
