//! A report as HTML, for `<pre>`.
//!
//! ```text
//! <span class="snippet-error">error</span><span class="snippet-emphasis">: unused</span>
//! ```
ghost use Rattle.std.specs.Prelude.{◌≡◌, All, IfOk, string_bytes};
ghost use Rattle.annotate_snippets.specs.GraphicForm.{graphic_form};
ghost use Rattle.annotate_snippets.specs.Html.{report_html};
ghost use Rattle.annotate_snippets.specs.Laws.Page.{PageLaws};
ghost use Rattle.annotate_snippets.specs.PreparedReport.{IsGroupDrawable};
ghost use Rattle.snippet_grid.specs.Html.{html_bytes};

use crate::renderer::Renderer;
use crate::renderer::element_context::GroupContext;
use crate::renderer::graphic::{draw_group, draw_page};
use crate::renderer::page::fed;
use crate::renderer::page_sink::PageSink;
use crate::renderer::preprocess::PreparedGroup;
use crate::snippet::Report;
use snippet_grid::StyledBuffer;
use std::alloc::{AllocError, Global};
use std::mem;

/// The page of a report's graphic form as HTML.
///
/// # Errors
///
/// There is no memory for the text, or for what it is made of.
pub fn page_html(
    alloc: Global,
    renderer: &Renderer,
    groups: Report<'_>,
) -> Result<String, AllocError>
    requires drawable { All IsGroupDrawable groups.now }
    ensures html { IfOk result (λ text.
        string_bytes text ≡ html_bytes (report_html renderer.now groups.now)) }
    ensures laws { IfOk result (λ text. PageLaws renderer.now groups.now (graphic_form renderer.now groups.now)) }
{
    let mut page = HtmlPage {
        text: String::new(alloc),
    };
    draw_page(alloc, renderer, groups, &mut page)?;
    Ok(page.text)
}

/// The page of a report as HTML, as far as it is printed.
#[derive(Drop)]
struct HtmlPage {
    /// The text so far.
    text: String,
}

impl PageSink for HtmlPage {
    ghost use Rattle.std.specs.Prelude.{string_bytes};
    ghost use Rattle.annotate_snippets.specs.Html.{AddsGroupHtml};

    type Error = AllocError;

    ghost took = { λ first g old new. AddsGroupHtml first g (string_bytes old.text) (string_bytes new.text) };

    ghost stopped = { λ first g error old new. Unit {0} };

    fn add<'a>(
        &mut self,
        alloc: Global,
        renderer: &Renderer,
        around: &GroupContext<'_>,
        group: PreparedGroup<'a>,
        empty: StyledBuffer<'a>,
    ) -> Result<StyledBuffer<'a>, AllocError> {
        let level = group.group.level;
        let mut buffer = draw_group(renderer, around, group, empty)?;
        let text = mem::replace(&mut self.text, String::new(alloc));
        let lead = fed(text, around.place.is_first())?;
        self.text = buffer.html_after(lead, level)?;
        buffer.clear();
        Ok(buffer)
    }
}
