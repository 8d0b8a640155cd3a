//! Draws reports, with the settings that they are drawn with.
ghost use Rattle.std.specs.Prelude.{◌≡◌, [], ◌∷◌, Err, IfSome, IfOk, IsOkUnless, alloc_error, map, string_bytes, true};

mod article;
mod cause;
mod drawn;
mod element_context;
mod elements;
mod error;
mod form;
mod graphic;
mod gutter;
mod html;
mod html_stylesheet;
mod layout;
mod markdown;
mod page;
mod page_sink;
mod pages;
pub mod parts;
mod paths;
mod place;
mod preprocess;
mod printing;
mod report_writer;
mod settings;
mod short;
mod shown_report;
pub mod style;
mod suggestions;
mod text_form;
mod title;
mod to_writer;
mod validate;
mod words;

pub use crate::snippet::Id;
use crate::snippet::Report;
pub use error::RenderError;
use form::{Form, form_of};
use html::page_html;
pub use html_stylesheet::{HTML_PAGE_STYLESHEET, HTML_STYLESHEET};
use page::text_in_form;
use pages::texts_in_form;
pub use settings::DEFAULT_TERM_WIDTH;
pub use snippet_model::MessageOrTitle;
pub use snippet_style::{
    DEFAULT_ADDITION_STYLE, DEFAULT_CONTEXT_STYLE, DEFAULT_EMPHASIS_STYLE, DEFAULT_ERROR_STYLE,
    DEFAULT_HELP_STYLE, DEFAULT_INFO_STYLE, DEFAULT_LINE_NUM_STYLE, DEFAULT_NONE_STYLE,
    DEFAULT_NOTE_STYLE, DEFAULT_REMOVAL_STYLE, DEFAULT_WARNING_STYLE, DecorStyle,
};
use std::alloc::Global;
pub use style::{AnsiColor, Color, Effects, Style, Stylesheet, open_code, reset_code};
pub use to_writer::RenderToError;
pub use words::{RefusalWords, RenderToWords};

/// Draws reports, with these settings.
#[derive(Clone, Debug, Drop)]
pub struct Renderer {
    /// Whether line numbers after a path are shown as `LL`.
    pub anonymized_origin_line_numbers: bool,
    /// Whether line numbers of snippets are shown as `LL`.
    pub anonymized_snippet_line_numbers: bool,
    /// The width that lines are cut to, in columns.
    pub term_width: usize,
    /// The characters that strokes are drawn with.
    pub decor_style: DecorStyle,
    /// The style of each role.
    pub stylesheet: Stylesheet,
    /// Whether the identifiers of titles link to their addresses.
    pub hyperlink: bool,
    /// Whether a report is drawn on one line.
    pub short_message: bool,
    /// Whether a report is written without graphics, for speech and Braille.
    pub no_graphics: bool,
    /// Whether line feeds of labels, paths, identifiers and level names are shown, as `␊`, and in the text form those
    /// of replacements.
    pub show_line_feeds: bool,
    /// How many lines before each line that is shown for its spans are shown too.
    pub context_before: usize,
    /// How many lines after each line that is shown for its spans are shown too.
    pub context_after: usize,
    /// Whether lines of titles, messages and labels that are wider than the terminal are broken at blanks.
    pub wrap: bool,
    /// Whether controls are masked that could change how a terminal shows the text around them.
    pub mask_controls: bool,
    /// Whether labels are cut at their line feeds, so that each line of a label stands in a row of its own.
    pub label_lines: bool,
}

impl Renderer {
    ghost use Rattle.snippet_model.specs.Fits.{ReportFits};
    ghost use Rattle.annotate_snippets.specs.Fault as spec;
    ghost use Rattle.annotate_snippets.specs.Fault.{IsWithinBounds};
    ghost use Rattle.annotate_snippets.specs.Laws.Forms.{HasLaws};
    ghost use Rattle.annotate_snippets.specs.Forms.{AreFree, ShowsReport, TextsShown, links_in};
    ghost use Rattle.std.specs.List.{AllZip};
    ghost use Rattle.annotate_snippets.specs.Html.{HasHtmlLaws, IsReportHtml};
    ghost use Rattle.annotate_snippets.specs.declared.renderer.form.Form.TheVariants as form;
    ghost use Rattle.snippet_model.specs.Trusted.{trusted_texts};

    /// The text of a report, under the renderer's own sheet.
    ///
    /// # Errors
    ///
    /// Why a report gives no text, the first reason in order; and `Memory` where there is no memory for the text.
    pub fn render(&self, alloc: Global, groups: Report<'_>) -> Result<String, RenderError>
        requires fits { ReportFits groups.now }

        // A report is refused for the first reason in order: that the short form lacks a title, or a fault of what it
        // holds.
        ensures refused { IfSome (spec.first_refusal self.now groups.now) (λ refusal. result ≡ Err refusal) }

        // One within bounds gives a text where memory is found.
        ensures renders { IsWithinBounds self.now groups.now → IsOkUnless result (RenderError.Memory alloc_error) }

        // The text shows the report, in the form that the renderer is set to.
        ensures shows { IfOk result (λ text.
            ShowsReport self.now groups.now self.now.stylesheet (string_bytes text)) }

        // What follows for who reads it: the text has the laws of that form, in the graphic form those of the page.
        ensures laws { IfOk result (λ text.
            HasLaws self.now groups.now self.now.stylesheet (string_bytes text)) }

        // Without the codes of the sheet and of the report's links, each listed character of the text is one of a
        // trusted text. It follows from `laws`, in fewer words.
        ensures free { IfOk result (λ text. AreFree (trusted_texts groups.now)
            (links_in (spec.form_of self.now) self.now groups.now) (self.now.stylesheet ∷ [])
            (string_bytes text ∷ [])) }
    {
        let form = form_of(self);
        let shown = self.shown(alloc, form, groups)?;
        let text = text_in_form(alloc, self, form, &shown, &self.stylesheet)?;
        Ok(text)
    }

    /// The page of a report's graphic form as HTML, for `<pre>`: its rows, joined by line feeds. `short_message`,
    /// `no_graphics` and the sheet aren't looked at.
    ///
    /// `&`, `<`, `>`, `"` and `'` stand as `&amp;`, `&lt;`, `&gt;`, `&quot;` and `&#39;`, so no text of the report is
    /// taken for a tag; each other character stands as it is, also one that a trusted text holds. A run of cells stands
    /// in a `<span>` of the class of its style: `snippet-error`, `snippet-warning`, `snippet-info`, `snippet-note`,
    /// `snippet-help`, `snippet-line-number`, `snippet-emphasis`, `snippet-context`, `snippet-addition` or
    /// `snippet-removal`; a primary mark or label has the class of its group's level, and what has no style of its own
    /// has none. [`HTML_STYLESHEET`] has the colours of the default styles for these classes.
    ///
    /// Where `hyperlink` is set, an id links to its address, in an `<a>`: an address that begins with `http:`, `https:`
    /// or `mailto:`, in letters of either case, and holds ASCII characters that are seen and nothing else. With any
    /// other address the id stands without a link.
    ///
    /// # Errors
    ///
    /// Why a report gives no text, the first reason in order, as of [`render`](Renderer::render) in the graphic form;
    /// and `Memory` where there is no memory for the text.
    pub fn render_html(&self, alloc: Global, groups: Report<'_>) -> Result<String, RenderError>
        requires fits { ReportFits groups.now }

        // A report is refused for the first fault of what it holds.
        ensures refused { IfSome (spec.refusal_in form.Graphic groups.now) (λ refusal. result ≡ Err refusal) }

        // One without a fault gives a text where memory is found.
        ensures renders { spec.refusal_in form.Graphic groups.now ≡ None
            → IsOkUnless result (RenderError.Memory alloc_error) }

        // The text is the page of the graphic form as HTML, of the report that is shown in place of the one given.
        ensures html { IfOk result (λ text. IsReportHtml self.now groups.now (string_bytes text)) }

        // What follows for who reads it: read as HTML it is the page's plain text, its tags are its own, and each
        // character stands in the class of its role and in the link of its cell. The page has the laws of a page.
        ensures laws { IfOk result (λ text. HasHtmlLaws self.now groups.now (string_bytes text)) }
    {
        let shown = self.shown(alloc, Form::Graphic, groups)?;
        let text = page_html(alloc, self, &shown)?;
        Ok(text)
    }

    /// The texts of a report, one under each of these sheets, in order; the renderer's own sheet isn't looked at. The
    /// report is drawn once, so the texts differ in their codes alone.
    ///
    /// # Errors
    ///
    /// As of [`render`](Renderer::render). With no sheets the report is looked through as ever, but not drawn, and no
    /// memory is taken, unless something is set that makes another report of it: line feeds that are shown, lines
    /// around those that are kept, or titles and messages that are wrapped.
    pub fn render_sheets(
        &self,
        alloc: Global,
        groups: Report<'_>,
        sheets: &[Stylesheet],
    ) -> Result<Vec<String>, RenderError>
        requires fits { ReportFits groups.now }

        // A report is refused for the first reason in order: that the short form lacks a title, or a fault of what it
        // holds.
        ensures refused { IfSome (spec.first_refusal self.now groups.now) (λ refusal. result ≡ Err refusal) }

        // One within bounds gives its texts where memory is found.
        ensures renders { IsWithinBounds self.now groups.now → IsOkUnless result (RenderError.Memory alloc_error) }

        // The texts show the report, in the form that the renderer is set to, each under its sheet.
        ensures shows { IfOk result (λ texts.
            TextsShown self.now groups.now sheets.now (map string_bytes texts.items)) }

        // What follows for who reads them: each text has the laws of that form. Without sheets there is no text.
        ensures laws { IfOk result (λ texts.
            AllZip (HasLaws self.now groups.now) sheets.now (map string_bytes texts.items)) }

        // They differ in their codes alone: there is one plain text and one list of links, and each listed character of
        // the plain text is one of a trusted text. It follows from `laws`, in fewer words.
        ensures free { IfOk result (λ texts. AreFree (trusted_texts groups.now)
            (links_in (spec.form_of self.now) self.now groups.now) sheets.now (map string_bytes texts.items)) }
    {
        let form = form_of(self);
        let shown = self.shown(alloc, form, groups)?;
        let texts = texts_in_form(alloc, self, form, &shown, sheets)?;
        Ok(texts)
    }
}
