//! A report that is made anew as a renderer is set, with line feeds shown, controls masked, lines around its span and a
//! title that is wrapped: as a text, and as HTML.
ghost use Rattle.annotate_snippets.specs.Fits.{GroupFits, ReportFits};

use crate::drawn::{print_form, print_refusal};
use crate::reports::{Subject, built};
use crate::subject::print_text;
use annotate_snippets::renderer::RenderError;
use annotate_snippets::snippet::Report;
use annotate_snippets::{Group, Renderer};
use std::alloc::Global;
use std::io;

/// Its text.
const TEXT: &str =
    "error: a wide\n       title\n  |\n1 | a\n2 | b\n  | ^ x\u{240a}y\u{a4}\n3 | c\u{fffd}\n  |";

/// Its HTML.
const HTML: &str = concat!(
    "<span class=\"snippet-error\">error</span><span class=\"snippet-emphasis\">: a wide</span>\n",
    "       <span class=\"snippet-emphasis\">title</span>\n",
    "  <span class=\"snippet-line-number\">|</span>\n",
    "<span class=\"snippet-line-number\">1</span> <span class=\"snippet-line-number\">|</span> a\n",
    "<span class=\"snippet-line-number\">2</span> <span class=\"snippet-line-number\">|</span> b\n",
    "  <span class=\"snippet-line-number\">|</span> <span class=\"snippet-error\">^</span> ",
    "<span class=\"snippet-error\">x\u{240a}y\u{a4}</span>\n",
    "<span class=\"snippet-line-number\">3</span> <span class=\"snippet-line-number\">|</span> c\u{fffd}\n",
    "  <span class=\"snippet-line-number\">|</span>",
);

/// Builds the report, draws it, gives it as HTML, and prints what came out right.
pub fn print(rt: &(impl Print + AllocGlobal)) -> io::Result<()> {
    let group = built(rt.alloc(), Subject::Set)?;
    print_group(rt, group)
}

/// Draws a report of one group, and gives it as HTML.
fn print_group(rt: &(impl Print + AllocGlobal), group: Group<'static>) -> io::Result<()>
    requires fits { GroupFits group }
{
    let groups = [group];
    print_report(rt, &groups)
}

/// Draws a report, and gives it as HTML.
fn print_report(rt: &(impl Print + AllocGlobal), groups: Report<'_>) -> io::Result<()>
    requires fits { ReportFits groups.now }
{
    println!(rt; "a report that is made anew as the renderer is set:")?;
    let renderer = Renderer::plain()
        .term_width(13)
        .show_line_feeds(true)
        .mask_controls(true)
        .context_lines(1, 1)
        .wrap(true);
    print_form(rt, groups, &renderer, "  graphic form", TEXT)?;
    print_html(rt, groups, &renderer)
}

/// A report as HTML.
fn html_of(alloc: Global, groups: Report<'_>, renderer: &Renderer) -> Result<String, RenderError>
    requires fits { ReportFits groups.now }
{
    renderer.render_html(alloc, groups)
}

/// A report as HTML, given once more if that is out of memory.
fn given(alloc: Global, groups: Report<'_>, renderer: &Renderer) -> Result<String, RenderError>
    requires fits { ReportFits groups.now }
{
    match html_of(alloc, groups, renderer) {
        Err(RenderError::Memory(_)) => html_of(alloc, groups, renderer),
        given => given,
    }
}

/// Gives a report as HTML, and compares that.
fn print_html(
    rt: &(impl Print + AllocGlobal),
    groups: Report<'_>,
    renderer: &Renderer,
) -> io::Result<()>
    requires fits { ReportFits groups.now }
{
    match given(rt.alloc(), groups, renderer) {
        Ok(text) => print_text(rt, "  HTML", text.as_str(), HTML),
        Err(refusal) => print_refusal(rt, "  HTML", refusal),
    }
}
