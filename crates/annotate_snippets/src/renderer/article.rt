//! A report as what stands in an article of a page in HTML: a heading, the drawing for who sees it, and the report in
//! words for who listens.
//!
//! ```text
//! <h2>error[<a href="https://..">E0308</a>]: mismatched types</h2>
//! <pre aria-hidden="true">
//! error[E0308]: mismatched types
//! ..</pre>
//! <pre class="snippet-text">
//! error[E0308]: mismatched types
//! ..</pre>
//! ```
ghost use Rattle.std.specs.Prelude.{◌≡◌, ◌++◌, [], ◌∷◌, Err, IfOk, IfSome, IsOkUnless, None, OnOk, alloc_error};
ghost use Rattle.std.specs.Prelude.{chars, map, string_bytes};
ghost use Rattle.std.specs.Cow.{cow_str_bytes};
ghost use Rattle.std.specs.Option.{option_copied, option_map};
ghost use Rattle.snippet_grid.specs.Html.{AddsHtml, AnchorEnd, AnchorStart, Text};
ghost use Rattle.snippet_model.specs.Fits.{ReportFits};
ghost use Rattle.snippet_model.specs.Heading.{heading_of_title};
ghost use Rattle.annotate_snippets.specs.Article as spec;
ghost use Rattle.annotate_snippets.specs.Article.{IsReportArticle};
ghost use Rattle.annotate_snippets.specs.Fault as fault;
ghost use Rattle.annotate_snippets.specs.declared.renderer.form.Form.TheVariants as form;

use crate::renderer::Renderer;
use crate::renderer::error::RenderError;
use crate::renderer::form::Form;
use crate::renderer::markdown::{link_of, title_above};
use crate::renderer::validate::first_refusal;
use crate::snippet::Report;
use snippet_grid::push_escaped;
use snippet_model::snippet::{Id, Title};
use snippet_style::Stylesheet;
use snippet_text::normalized;
use snippet_titles::{closing_bracket, colon, is_hidden, opening_bracket, shown_name};
use std::alloc::{AllocError, Global};

impl Renderer {
    /// A report as HTML, for an `<article>`: a heading, `<h2>`, with the level, the id and the text of the first
    /// group's title, if that has one; the page of the graphic form in a `<pre>` that is hidden from who listens, as
    /// [`render_html`](Renderer::render_html) gives it without links; and the text form in a `<pre>` of the class
    /// `snippet-text`, as [`render`](Renderer::render) gives it, escaped, which
    /// [`HTML_PAGE_STYLESHEET`](crate::renderer::HTML_PAGE_STYLESHEET) hides from sight. `short_message`, `no_graphics`
    /// and the sheet aren't looked at.
    ///
    /// Where `hyperlink` is set, the id in the heading links to its address, if `render_html` would link to that.
    ///
    /// # Errors
    ///
    /// As of [`render_html`](Renderer::render_html).
    pub fn render_html_page(&self, alloc: Global, groups: Report<'_>) -> Result<String, RenderError>
        requires fits { ReportFits groups.now }

        // A report is refused for the first fault of what it holds.
        ensures refused { IfSome (fault.refusal_in form.Graphic groups.now) (λ refusal. result ≡ Err refusal) }

        // One without a fault gives a text where memory is found.
        ensures renders { fault.refusal_in form.Graphic groups.now ≡ None
            → IsOkUnless result (RenderError.Memory alloc_error) }

        // The text is heading, drawing and words, each as it stands alone, with its laws.
        ensures article { IfOk result (λ text. IsReportArticle self.now groups.now (string_bytes text)) }
    {
        if let Some(refusal) = first_refusal(Form::Graphic, groups) {
            return Err(refusal);
        }
        let unlinked = self.unlinked()?;
        let drawing = unlinked.render_html(alloc, groups)?;
        let spoken = self.spoken()?;
        let words = spoken.render(alloc, groups)?;
        let unwrapped = self.unwrapped()?;
        let whole = unwrapped.shown(alloc, Form::Graphic, groups)?;
        let title = title_above(Form::Graphic, &whole);
        let text = article(
            alloc,
            self.hyperlink,
            title,
            drawing.as_str(),
            words.as_str(),
        )?;
        Ok(text)
    }

    /// A renderer that is set alike, for who listens: it writes the text form, without codes and links.
    fn spoken(&self) -> Result<Renderer, AllocError>
        ensures value { IfOk result (λ spoken. spoken ≡ spec.spoken self.now) }
    {
        let mut spoken = self.clone()?.no_graphics(true).hyperlink(false);
        spoken.stylesheet = Stylesheet::plain();
        Ok(spoken)
    }
}

/// What stands in the article of a report that has this title, if any, this drawing and these words.
fn article(
    alloc: Global,
    links: bool,
    title: Option<&Title>,
    drawing: &str,
    words: &str,
) -> Result<String, AllocError>
    ensures value { IfOk result (λ text. string_bytes text
        ≡ spec.article links (option_copied title.entry) drawing.now words.now) }
{
    let mut out = String::new(alloc);
    if let Some(title) = title {
        push_heading(alloc, &mut out, links, title)?;
    }
    push_drawing(&mut out, drawing)?;
    push_words(&mut out, words)?;
    Ok(out)
}

/// Adds a drawing, which isn't read aloud.
fn push_drawing(out: &mut String, drawing: &str) -> Result<(), AllocError>
    ensures added { OnOk result (string_bytes out.new ≡ string_bytes out.old ++ spec.drawing_html drawing.now) }
{
    out.push_str("<pre aria-hidden=\"true\">\n")?;
    out.push_str(drawing)?;
    out.push_str("</pre>\n")
}

/// Adds words, which a stylesheet hides from sight.
fn push_words(out: &mut String, words: &str) -> Result<(), AllocError>
    ensures added { OnOk result (string_bytes out.new ≡ string_bytes out.old ++ spec.words_html words.now) }
{
    out.push_str("<pre class=\"snippet-text\">\n")?;
    push_escaped(out, words)?;
    out.push_str("</pre>")
}

/// Adds a title as a heading.
fn push_heading(
    alloc: Global,
    out: &mut String,
    links: bool,
    title: &Title,
) -> Result<(), AllocError>
    ensures added { OnOk result (string_bytes out.new
        ≡ string_bytes out.old ++ spec.heading_html links (heading_of_title title.now)) }
{
    out.push_str("<h2>")?;
    push_title(alloc, out, links, title)?;
    out.push_str("</h2>\n")
}

/// Adds a title: the name of its level and its id, a colon, and its text.
fn push_title(alloc: Global, out: &mut String, links: bool, title: &Title) -> Result<(), AllocError>
    ensures added { OnOk result (AddsHtml (spec.title_html links (heading_of_title title.now))
        (string_bytes out.old) (string_bytes out.new)) }
{
    let hidden = is_hidden(&title.level);
    let id = title.id.as_ref();
    push_text(out, shown_name(alloc, &title.level)?.as_str())?;
    push_id(alloc, out, links, hidden, id)?;
    push_text(out, colon(hidden, id))?;
    push_text(out, normalized(alloc, title.text.as_str())?.as_str())
}

/// Adds an id, where there is one that has a text, between its brackets. It links to its address, if links are shown
/// and that may be one.
fn push_id(
    alloc: Global,
    out: &mut String,
    links: bool,
    hidden: bool,
    id: Option<&Id>,
) -> Result<(), AllocError>
    ensures added { OnOk result (AddsHtml (spec.id_html links hidden (option_copied id.entry))
        (string_bytes out.old) (string_bytes out.new)) }
{
    let Some(id) = id else {
        return Ok(());
    };
    let Some(text) = &id.id else {
        return Ok(());
    };
    let shown = normalized(alloc, text.as_str())?;
    push_text(out, opening_bracket(hidden))?;
    push_linked(out, address_of(links, id), shown.as_str())?;
    push_text(out, closing_bracket(hidden))
}

/// The address of an id, if links are shown and it may be one.
fn address_of<'r>(links: bool, id: &'r Id<'_>) -> Option<&'r str>
    ensures value { option_copied result ≡ spec.address_of links (option_map cow_str_bytes id.now.url) }
{
    if links { link_of(id) } else { None }
}

/// Adds a text that links to an address, if there is one.
fn push_linked(out: &mut String, address: Option<&str>, text: &str) -> Result<(), AllocError>
    ensures added { OnOk result (AddsHtml (spec.linked_html (option_copied address.entry) (chars text.now))
        (string_bytes out.old) (string_bytes out.new)) }
{
    let Some(address) = address else {
        return push_text(out, text);
    };
    start_link(out, address)?;
    push_text(out, text)?;
    end_link(out)
}

/// Adds the tag that begins a link.
fn start_link(out: &mut String, address: &str) -> Result<(), AllocError>
    ensures added { OnOk result (AddsHtml (AnchorStart address.now ∷ [])
        (string_bytes out.old) (string_bytes out.new)) }
{
    out.push_str("<a href=\"")?;
    push_escaped(out, address)?;
    out.push_str("\">")
}

/// Adds the tag that ends a link.
fn end_link(out: &mut String) -> Result<(), AllocError>
    ensures added { OnOk result (AddsHtml (AnchorEnd ∷ []) (string_bytes out.old) (string_bytes out.new)) }
{
    out.push_str("</a>")
}

/// Adds a text, in which nothing is markup.
fn push_text(out: &mut String, text: &str) -> Result<(), AllocError>
    ensures added { OnOk result (AddsHtml (map Text (chars text.now)) (string_bytes out.old) (string_bytes out.new)) }
{
    push_escaped(out, text)
}
