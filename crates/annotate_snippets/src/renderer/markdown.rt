//! A report in Markdown: the title of its first group in bold, and below that its plain text between fences.
//!
//! ````text
//! **error\: unused**
//!
//! ```
//! error: unused
//!   |
//! 1 | let x = 1;
//!   |     ^
//! ```
//! ````
ghost use Rattle.std.specs.Prelude.{◌≡◌, ◌++◌, ◌≤◌, All, Err, IfOk, IfSome, IsOkUnless, OnOk, alloc_error, chars};
ghost use Rattle.std.specs.Prelude.{encode_utf8_all, length, string_bytes};
ghost use Rattle.std.specs.Option.{option_copied, option_map};
ghost use Rattle.std.specs.Cow.{cow_str_bytes};
ghost use Rattle.snippet_model.specs.Fits.{ReportFits};
ghost use Rattle.snippet_model.specs.Heading.{heading_of_title};
ghost use Rattle.annotate_snippets.specs.Fault as fault;
ghost use Rattle.annotate_snippets.specs.Fault.{IsWithinBounds};
ghost use Rattle.annotate_snippets.specs.Markdown as spec;
ghost use Rattle.annotate_snippets.specs.Markdown.{HasMarkdownLaws, IsReportMarkdown};

use crate::renderer::Renderer;
use crate::renderer::error::RenderError;
use crate::renderer::form::{Form, form_of};
use crate::renderer::page::text_in_form;
use crate::snippet::Report;
use snippet_model::snippet::{Group, Id, Title};
use snippet_style::Stylesheet;
use snippet_text::{is_link_address, normalized};
use snippet_titles::{closing_bracket, colon, is_hidden, opening_bracket, shown_name};
use std::alloc::{AllocError, Global};

impl Renderer {
    /// A report in Markdown, for who posts it where Markdown is read: in the graphic form the title of the first group
    /// in bold, on a line of its own above an empty one, whole if it is wrapped in the text; and in each form the text
    /// that [`render`](Renderer::render) gives, without codes and links, on lines of its own between two fences. The
    /// sheet and `hyperlink` aren't looked at.
    ///
    /// Each ASCII punctuation character of the title stands after a backslash, a line feed as a blank, and a listed
    /// character as it is shown elsewhere, so nothing of it is taken for markup. Its id links to its address where that
    /// is one that [`is_link_address`](snippet_text::is_link_address) takes. A title of blanks alone is left out. A
    /// fence is one backquote longer than the longest run of them in the text, and at least three.
    ///
    /// # Errors
    ///
    /// As of [`render`](Renderer::render).
    pub fn render_markdown(&self, alloc: Global, groups: Report<'_>) -> Result<String, RenderError>
        requires fits { ReportFits groups.now }

        // A report is refused for the first reason in order.
        ensures refused { IfSome (fault.first_refusal self.now groups.now) (λ refusal. result ≡ Err refusal) }

        // One within bounds gives a text where memory is found.
        ensures renders { IsWithinBounds self.now groups.now → IsOkUnless result (RenderError.Memory alloc_error) }

        // The text is the report in Markdown, of the report that is shown in place of the one given.
        ensures markdown { IfOk result (λ text. IsReportMarkdown self.now groups.now (string_bytes text)) }

        // What follows for who reads it: between the fences stands the plain text, in which no fence does, and above
        // them no character of the report that could be markup stands without a backslash.
        ensures laws { IfOk result (λ text. HasMarkdownLaws self.now groups.now (string_bytes text)) }
    {
        let form = form_of(self);
        let shown = self.shown(alloc, form, groups)?;
        let unlinked = self.unlinked()?;
        let page = text_in_form(alloc, &unlinked, form, &shown, &Stylesheet::plain())?;
        let unwrapped = self.unwrapped()?;
        let whole = unwrapped.shown(alloc, form, groups)?;
        let text = in_markdown(alloc, title_above(form, &whole), page.as_str())?;
        Ok(text)
    }

    /// A renderer that is set alike but links nowhere.
    pub(crate) fn unlinked(&self) -> Result<Renderer, AllocError>
        ensures value { IfOk result (λ unlinked. unlinked ≡ spec.unlinked self.now) }
    {
        Ok(self.clone()?.hyperlink(false))
    }

    /// A renderer that is set alike but wraps nothing.
    pub(crate) fn unwrapped(&self) -> Result<Renderer, AllocError>
        ensures value { IfOk result (λ unwrapped. unwrapped ≡ spec.unwrapped self.now) }
    {
        Ok(self.clone()?.wrap(false))
    }
}

/// The title that stands above the fence: in the graphic form that of the first group.
pub(crate) fn title_above<'r>(form: Form, groups: &'r [Group<'r>]) -> Option<&'r Title<'r>>
    ensures value { option_copied result ≡ spec.title_above form groups.now }
{
    match (form, groups) {
        (Form::Graphic, [first, ..]) => first.title.as_ref(),
        _ => None,
    }
}

/// A text in Markdown, below a title if there is one.
fn in_markdown(alloc: Global, title: Option<&Title>, page: &str) -> Result<String, AllocError>
    ensures value { IfOk result (λ text. string_bytes text ≡ spec.markdown (option_copied title.entry) page.now) }
{
    let mut text = String::new(alloc);
    if let Some(title) = title {
        push_title(alloc, &mut text, title)?;
    }
    let fence = fence_for(alloc, page)?;
    text.push_str(fence.as_str())?;
    text.push_str("\n")?;
    text.push_str(page)?;
    text.push_str("\n")?;
    text.push_str(fence.as_str())?;
    Ok(text)
}

/// Adds a title in bold, on a line of its own above an empty one, unless it shows nothing but blanks.
fn push_title(alloc: Global, out: &mut String, title: &Title) -> Result<(), AllocError>
    ensures added { OnOk result (string_bytes out.new
        ≡ string_bytes out.old ++ spec.bold_line (spec.title_bytes title.now)) }
{
    let line = title_line(alloc, title)?;
    let shown = line.as_str().trim();
    if shown.is_empty() {
        return Ok(());
    }
    out.push_str("**")?;
    out.push_str(shown)?;
    out.push_str("**\n\n")?;
    Ok(())
}

/// A title on one line.
fn title_line(alloc: Global, title: &Title) -> Result<String, AllocError>
    ensures value { IfOk result (λ line. string_bytes line
        ≡ encode_utf8_all (spec.title_line (heading_of_title title.now))) }
{
    let hidden = is_hidden(&title.level);
    let id = title.id.as_ref();
    let mut line = String::new(alloc);
    push_escaped(&mut line, shown_name(alloc, &title.level)?.as_str())?;
    push_id(alloc, &mut line, hidden, id)?;
    push_escaped(&mut line, colon(hidden, id))?;
    push_escaped(&mut line, normalized(alloc, title.text.as_str())?.as_str())?;
    Ok(line)
}

/// Adds an id, where there is one that has a text, between its brackets. It links to its address, if that may be a
/// link.
fn push_id(alloc: Global, out: &mut String, hidden: bool, id: Option<&Id>) -> Result<(), AllocError>
    ensures added { OnOk result (string_bytes out.new
        ≡ string_bytes out.old ++ encode_utf8_all (spec.id_in_markdown hidden (option_copied id.entry))) }
{
    let Some(id) = id else {
        return Ok(());
    };
    let Some(text) = &id.id else {
        return Ok(());
    };
    let shown = normalized(alloc, text.as_str())?;
    push_escaped(out, opening_bracket(hidden))?;
    push_linked(out, link_of(id), shown.as_str())?;
    push_escaped(out, closing_bracket(hidden))
}

/// The address of an id, if it may be a link.
pub(crate) fn link_of<'r>(id: &'r Id<'_>) -> Option<&'r str>
    ensures value { option_copied result ≡ spec.link_of (option_map cow_str_bytes id.now.url) }
{
    match &id.url {
        Some(url) if is_link_address(url.as_str()) => Some(url.as_str()),
        _ => None,
    }
}

/// Adds a text that links to an address, if there is one.
fn push_linked(out: &mut String, address: Option<&str>, text: &str) -> Result<(), AllocError>
    ensures added { OnOk result (string_bytes out.new
        ≡ string_bytes out.old ++ encode_utf8_all (spec.linked_text (option_copied address.entry) (chars text.now))) }
{
    let Some(address) = address else {
        return push_escaped(out, text);
    };
    out.push_str("[")?;
    push_escaped(out, text)?;
    out.push_str("](")?;
    push_escaped(out, address)?;
    out.push_str(")")?;
    Ok(())
}

/// Adds a text, in which nothing is markup.
fn push_escaped(out: &mut String, text: &str) -> Result<(), AllocError>
    ensures added { OnOk result (string_bytes out.new
        ≡ string_bytes out.old ++ encode_utf8_all (spec.escaped_text (chars text.now))) }
{
    for c in text.chars() {
        push_char(out, c)?;
    }
    Ok(())
}

/// Adds a character: punctuation after a backslash, a line feed as a blank.
fn push_char(out: &mut String, c: char) -> Result<(), AllocError>
    ensures added { OnOk result (string_bytes out.new ≡ string_bytes out.old ++ encode_utf8_all (spec.escaped c)) }
{
    if c.is_ascii_punctuation() {
        out.push('\\')?;
    }
    out.push(if c == '\n' { ' ' } else { c })
}

/// A fence for a text.
fn fence_for(alloc: Global, page: &str) -> Result<String, AllocError>
    ensures value { IfOk result (λ fence. string_bytes fence ≡ spec.fence page.now) }
{
    let mut fence = String::new(alloc);
    for _ in 0..longest_run(page.as_bytes()).max(2) + 1 {
        fence.push('`')?;
    }
    Ok(fence)
}

/// The length of the longest run of backquotes, in bytes.
fn longest_run(page: &[u8]) -> usize
    ensures value { result ≡ spec.longest_run 0 0 page.now }
    ensures within { result ≤ length page.now }
{
    let mut longest = 0;
    let mut run = 0;
    for byte in page {
        run = if *byte == b'`' { run + 1 } else { 0 };
        longest = longest.max(run);
    }
    longest
}
