//! Reports that are written to a writer: in the graphic form a group at a time, else whole.
ghost use Rattle.std.specs.Prelude.{◌≡◌, ◌⊎◌, [], ◌∷◌, All, Err, IfErr, IfOk, IfSome, None, OnErr, OnOk};
ghost use Rattle.std.specs.Prelude.{false, string_bytes, if◌then◌else◌};
ghost use Rattle.snippet_model.specs.Fits.{ReportFits};
ghost use Rattle.annotate_snippets.specs.Fault as spec;
ghost use Rattle.annotate_snippets.specs.Fault.{IsWithinBounds};
ghost use Rattle.annotate_snippets.specs.Laws.Forms.{HasLaws};
ghost use Rattle.annotate_snippets.specs.Forms.{ShowsReport};
ghost use Rattle.annotate_snippets.specs.Lent.{held};
ghost use Rattle.annotate_snippets.specs.PreparedReport.{IsGroupDrawable};
ghost use Rattle.annotate_snippets.specs.Written.{IsStop, IsTextIn, ShowsIn, WritesPart, WritesText};
ghost use Rattle.annotate_snippets.specs.Written.{blames_writer};
ghost use Rattle.annotate_snippets.specs.declared.renderer.form.Form.TheVariants as form;

use crate::renderer::Renderer;
use crate::renderer::error::RenderError;
use crate::renderer::form::{Form, form_of};
use crate::renderer::graphic::draw_page;
use crate::renderer::page::text_in_form;
use crate::renderer::report_writer::ReportWriter;
use crate::renderer::words::RenderToWords;
use crate::snippet::Report;
use snippet_grid::SheetCodes;
use std::alloc::{AllocError, Global};
use std::io::{self, Write};
use thiserror::Error;

/// Why a report isn't written whole.
#[derive(Debug, Drop, Error)]
pub enum RenderToError {
    /// The report gives no text, or a growth of memory was refused.
    #[error("{0}")]
    Refused(RenderError),
    /// The writer failed, for this reason.
    #[error("the report can't be written: {0}")]
    Write(io::Error),
}

impl RenderToError {
    /// What it prints, as a value that has a promise: these words, character for character. `Display` of the error
    /// itself prints the same, and where the writer failed, after a colon, why: of that nothing is promised.
    pub fn words(&self) -> RenderToWords<'_>
        ensures words { result.error.now ≡ self.now }
    {
        RenderToWords::of(self)
    }
}

/// So that `?` takes up a refusal: it is [`RenderToError::Refused`].
impl From<RenderError> for RenderToError {
    ghost use Rattle.annotate_snippets.specs.declared.renderer.to_writer.RenderToError.{RenderToError};

    ghost from_gives = { λ refusal error. error ≡ RenderToError.Refused refusal };

    fn from(refusal: RenderError) -> RenderToError {
        RenderToError::Refused(refusal)
    }
}

/// So that `?` takes up a refused growth of memory: it is [`RenderToError::Refused`], which holds
/// [`RenderError::Memory`].
impl From<AllocError> for RenderToError {
    ghost use Rattle.annotate_snippets.specs.declared.renderer.error.RenderError.{RenderError};
    ghost use Rattle.annotate_snippets.specs.declared.renderer.to_writer.RenderToError.{RenderToError};

    ghost from_gives = { λ failure error. error ≡ RenderToError.Refused (RenderError.Memory failure) };

    fn from(failure: AllocError) -> RenderToError {
        RenderToError::Refused(RenderError::Memory(failure))
    }
}

/// So that `?` takes up a writer's failure: it is [`RenderToError::Write`].
impl From<io::Error> for RenderToError {
    ghost use Rattle.annotate_snippets.specs.declared.renderer.to_writer.RenderToError.{RenderToError};

    ghost from_gives = { λ failure error. error ≡ RenderToError.Write failure };

    fn from(failure: io::Error) -> RenderToError {
        RenderToError::Write(failure)
    }
}

impl Renderer {
    /// Writes the text that [`render`](Renderer::render) gives to a writer, which isn't flushed. After `Ok` it holds
    /// what it held and the text; after a failure that and a first part of the text, which may be nothing.
    ///
    /// In the graphic form each group is drawn, written and dropped before the next is drawn, so memory holds the text
    /// of one group at a time. The writer is called for each group: one that is slow to call wants a buffer.
    ///
    /// # Errors
    ///
    /// `Refused`, as of [`render`](Renderer::render), and `Write` where the writer failed. Nothing is written of a
    /// report that is out of bounds; where memory runs out between groups, those before are written.
    pub fn render_to<W: Write>(
        &self,
        alloc: Global,
        groups: Report<'_>,
        out: &mut W,
    ) -> Result<(), RenderToError>
        requires fits { ReportFits groups.now }

        // A report is refused for the first reason in order, and then nothing is written.
        ensures refused { IfSome (spec.first_refusal self.now groups.now)
            (λ refusal. (result ≡ Err (RenderToError.Refused refusal)) × (out.new ≡ out.old)) }

        // One within bounds is written where memory is found and the writer takes it.
        ensures renders { IsWithinBounds self.now groups.now → IfErr result IsStop }

        // What the writer holds grows by a text that shows the report, in the form that the renderer is set to.
        ensures whole { OnOk result (WritesText (ShowsReport self.now groups.now self.now.stylesheet)
            (W.contents out.old) (W.contents out.new)) }

        // What follows for who reads it: the text has the laws of that form, in the graphic form those of the page.
        ensures laws { OnOk result (WritesText (HasLaws self.now groups.now self.now.stylesheet)
            (W.contents out.old) (W.contents out.new)) }

        // Where it isn't written whole, that grows by a first part of such a text, or by nothing.
        ensures part { OnErr result ((out.new ≡ out.old)
            ⊎ WritesPart (ShowsReport self.now groups.now self.now.stylesheet)
            (W.contents out.old) (W.contents out.new)) }
    {
        let codes = SheetCodes::new(&self.stylesheet);
        let mut lent = ReportWriter::new(out, &codes);
        self.write_report(alloc, groups, &mut lent)
    }

    /// What [`render_to`](Renderer::render_to) does, to a writer that is lent for it.
    fn write_report<W: Write>(
        &self,
        alloc: Global,
        groups: Report<'_>,
        out: &mut ReportWriter<'_, W>,
    ) -> Result<(), RenderToError>
        requires fits { ReportFits groups.now }
        requires sheet { out.old.codes.now ≡ self.now.stylesheet }
        ensures same_reference { out.new.target.ghost_name ≡ out.old.target.ghost_name }

        // A failed write is told as one, and nothing else is.
        ensures told { out.old.has_failed ≡ false → out.new.has_failed ≡ blames_writer result }
        ensures refused { IfSome (spec.first_refusal self.now groups.now)
            (λ refusal. (result ≡ Err (RenderToError.Refused refusal)) × (out.new ≡ out.old)) }
        ensures renders { IsWithinBounds self.now groups.now → IfErr result IsStop }
        ensures whole { OnOk result (WritesText (ShowsReport self.now groups.now self.now.stylesheet)
            (held W.contents out.old) (held W.contents out.new)) }
        ensures laws { OnOk result (WritesText (HasLaws self.now groups.now self.now.stylesheet)
            (held W.contents out.old) (held W.contents out.new)) }
        ensures part { OnErr result ((out.new ≡ out.old)
            ⊎ WritesPart (ShowsReport self.now groups.now self.now.stylesheet)
            (held W.contents out.old) (held W.contents out.new)) }
    {
        let form = form_of(self);
        let shown = self.shown(alloc, form, groups)?;
        write_form(alloc, self, form, &shown, out)
    }
}

/// Writes the text of a report in a form.
fn write_form<W: Write>(
    alloc: Global,
    renderer: &Renderer,
    form: Form,
    groups: Report<'_>,
    out: &mut ReportWriter<'_, W>,
) -> Result<(), RenderToError>
    requires drawable { All IsGroupDrawable groups.now }
    requires titled { spec.missing_title form groups.now ≡ None }
    requires sheet { out.old.codes.now ≡ renderer.now.stylesheet }
    ensures same_reference { out.new.target.ghost_name ≡ out.old.target.ghost_name }
    ensures told { out.old.has_failed ≡ false → out.new.has_failed ≡ blames_writer result }
    ensures stopped { IfErr result IsStop }
    ensures whole { OnOk result (WritesText (IsTextIn form renderer.now groups.now)
        (held W.contents out.old) (held W.contents out.new)) }
    ensures part { OnErr result ((out.new ≡ out.old)
        ⊎ WritesPart (ShowsIn form renderer.now groups.now) (held W.contents out.old) (held W.contents out.new)) }
{
    match form {
        Form::Graphic => write_groups(alloc, renderer, groups, out),
        Form::Short | Form::Text => write_drawn(alloc, renderer, form, groups, out),
    }
}

/// Writes the graphic form of a report, a group at a time.
fn write_groups<W: Write>(
    alloc: Global,
    renderer: &Renderer,
    groups: Report<'_>,
    out: &mut ReportWriter<'_, W>,
) -> Result<(), RenderToError>
    requires drawable { All IsGroupDrawable groups.now }
    requires sheet { out.old.codes.now ≡ renderer.now.stylesheet }
    ensures same_reference { out.new.target.ghost_name ≡ out.old.target.ghost_name }
    ensures told { out.old.has_failed ≡ false → out.new.has_failed ≡ blames_writer result }
    ensures stopped { IfErr result IsStop }
    ensures whole { OnOk result (WritesText (IsTextIn form.Graphic renderer.now groups.now)
        (held W.contents out.old) (held W.contents out.new)) }
    ensures part { OnErr result ((out.new ≡ out.old)
        ⊎ WritesPart (ShowsIn form.Graphic renderer.now groups.now)
        (held W.contents out.old) (held W.contents out.new)) }
{
    draw_page(alloc, renderer, groups, out)
}

/// Writes the text of a report in a form, which is made whole before.
fn write_drawn<W: Write>(
    alloc: Global,
    renderer: &Renderer,
    form: Form,
    groups: Report<'_>,
    out: &mut ReportWriter<'_, W>,
) -> Result<(), RenderToError>
    requires drawable { All IsGroupDrawable groups.now }
    requires titled { spec.missing_title form groups.now ≡ None }
    ensures same_reference { out.new.target.ghost_name ≡ out.old.target.ghost_name }
    ensures told { out.old.has_failed ≡ false → out.new.has_failed ≡ blames_writer result }
    ensures stopped { IfErr result IsStop }
    ensures whole { OnOk result (WritesText (IsTextIn form renderer.now groups.now)
        (held W.contents out.old) (held W.contents out.new)) }
    ensures part { OnErr result ((out.new ≡ out.old)
        ⊎ WritesPart (ShowsIn form renderer.now groups.now) (held W.contents out.old) (held W.contents out.new)) }
{
    let text = text_in_form(alloc, renderer, form, groups, &renderer.stylesheet)?;
    out.write(text.as_bytes())?;
    Ok(())
}
