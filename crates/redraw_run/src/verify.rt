//! Reports that are compared with the texts that rustc has of them.
ghost use Rattle.std.specs.Prelude.{◌≡◌, IfOk, OnOk};
ghost use Rattle.redraw_command.specs.declared.choice.OutputForm.TheVariants.{Verify};
ghost use Rattle.redraw_run.specs.Deeds.{Happens, standing};
ghost use Rattle.redraw_run.specs.DrawnFinding.{DrawsFinding, IsComparedTo};
ghost use Rattle.redraw_run.specs.Fates.{IsCompared};
ghost use Rattle.redraw_run.specs.Readings.{IsComparison};
ghost use Rattle.output_stream.specs.Standing.{Standing, known};

use crate::difference::difference_of;
use crate::draw::Drawing;
use crate::readings::{draws, rustc_look_for};
use crate::text::drawn_of;
use crate::write::pass;
use json_lines::node::Node;
use output_stream::Stream;
use redraw_command::choice::OutputForm;
use redraw_command::stop::Stop;
use redraw_read::plain::without_styles;
use redraw_read::rustc::whole_text;
use redraw_read::sources::SourceFiles;
use redraw_report::diagnostic::Diagnostic;
use std::alloc::{AllocError, Global};
use std::io::Write;

/// Keeps the text that rustc has of a diagnostic, where reports are to be compared.
pub fn keep_own_text<S: SourceFiles + Drop>(
    drawing: &mut Drawing<'_, S>,
    diagnostic: &Node<'_, '_>,
) -> Result<(), AllocError>
    ensures same { (out err : Standing) → standing drawing.new out err ≡ standing drawing.old out err }
{
    match drawing.choice.form {
        OutputForm::Verify => {
            drawing.own_text = own_text_of(drawing.alloc, diagnostic)?;
            Ok(())
        }
        _ => Ok(()),
    }
}

/// The text that rustc has of a diagnostic, without styles, if it shows all of it.
fn own_text_of(alloc: Global, diagnostic: &Node<'_, '_>) -> Result<Option<String>, AllocError> {
    match whole_text(diagnostic) {
        Ok(Some(text)) => Ok(Some(without_styles(alloc, text)?)),
        _ => Ok(None),
    }
}

impl<S: SourceFiles + Drop> Drawing<'_, S> {
    /// Compares the report of a finding with the text that rustc has of it, where it has one. Of the first that isn't
    /// that text it is shown how the two differ.
    pub fn compare<W: Write>(
        &mut self,
        diagnostic: &Diagnostic,
        out: &mut Stream<W>,
    ) -> Result<(), Stop>
        ensures draws { OnOk result (DrawsFinding Verify self.old.renderer self.new.sources.files.items diagnostic.now
            (known W.contents out.old) (known W.contents out.new) (out.new ≡ out.old) self.old.tally self.new.tally) }
        ensures kept { (self.new.renderer ≡ self.old.renderer) × (self.new.choice ≡ self.old.choice) }
        ensures seen { self.new.seen ≡ self.old.seen }
        ensures does { self.old.choice.form ≡ Verify → (err : Standing)
            → Happens result (IsCompared diagnostic.now) (standing self.old (known W.contents out.old) err)
            (standing self.new (known W.contents out.new) err) }
    {
        match self.own_text.take() {
            Some(text) => self.compare_with(text.as_str(), diagnostic, out),
            None => Ok(()),
        }
    }

    /// Compares the report of a finding with this text.
    fn compare_with<W: Write>(
        &mut self,
        text: &str,
        diagnostic: &Diagnostic,
        out: &mut Stream<W>,
    ) -> Result<(), Stop>
        ensures draws { OnOk result (IsComparedTo (known W.contents out.old) (known W.contents out.new)
            self.old.tally self.new.tally) }
        ensures kept { (self.new.renderer ≡ self.old.renderer) × (self.new.choice ≡ self.old.choice) }
        ensures seen { self.new.seen ≡ self.old.seen }
        ensures does { self.old.choice.form ≡ Verify → (err : Standing)
            → Happens result (IsCompared diagnostic.now) (standing self.old (known W.contents out.old) err)
            (standing self.new (known W.contents out.new) err) }
    {
        let is_same = self.is_own_text(text, diagnostic)?;
        let shown = self.difference(is_same, text, diagnostic)?;
        self.tally = self.tally.with_compared(is_same);
        pass(shown.as_bytes(), out)
    }

    /// Whether the report of a finding, drawn as rustc draws, is this text. The files that it names are read.
    fn is_own_text(&mut self, text: &str, diagnostic: &Diagnostic) -> Result<bool, AllocError>
        ensures is { IfOk result (IsComparison diagnostic.now) }
        ensures kept { (self.new.renderer ≡ self.old.renderer) × (self.new.choice ≡ self.old.choice)
            × (self.new.tally ≡ self.old.tally) }
        ensures seen { self.new.seen ≡ self.old.seen }
    {
        let look = rustc_look_for(text);
        let is_same = draws(&mut self.sources, self.alloc, &look, diagnostic, text)?;
        let _unread = self.sources.take_unread();
        Ok(is_same)
    }

    /// How the report of a finding differs from this text, if no other one did before; nothing where it is that text.
    fn difference(
        &self,
        is_same: bool,
        text: &str,
        diagnostic: &Diagnostic,
    ) -> Result<String, AllocError> {
        if is_same || self.tally.differing > 0 {
            return Ok(String::new(self.alloc));
        }
        let drawn = drawn_of(self.alloc, &rustc_look_for(text), &self.sources, diagnostic)?;
        match &drawn.text {
            Ok(drawing) => difference_of(self.alloc, text, drawing.as_str()),
            Err(_) => difference_of(self.alloc, text, ""),
        }
    }
}
