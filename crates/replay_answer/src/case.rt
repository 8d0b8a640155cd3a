//! A case: a report as a line describes it, and how it is drawn. Its texts are those of the line's JSON.

use annotate_snippets::renderer::Stylesheet;
use annotate_snippets::{Group, Renderer};

/// One line: a report, and how it is drawn.
#[derive(Drop)]
pub struct Case<'v> {
    /// The name that joins the case with its answer.
    pub id: &'v str,
    /// The settings; the renderer's own sheet isn't looked at.
    pub renderer: Renderer,
    /// The sheets that the report is printed under, one text for each.
    pub sheets: Vec<Stylesheet>,
    /// Whether the report is given as HTML, in place of a text under each sheet.
    pub html: bool,
    /// Whether it is given as what stands in an article of a page, in their place, where it isn't given as HTML alone.
    pub html_page: bool,
    /// Whether it is given in Markdown, in their place, where it isn't given as HTML.
    pub markdown: bool,
    pub groups: Vec<Group<'v>>,
}
