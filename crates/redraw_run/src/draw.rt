//! Findings, drawn one after another as they are read.
ghost use Rattle.std.specs.Prelude.{◌≡◌, ℕ, Bool, List, Option, option_map, ◌++◌, [], ◌∷◌, if◌then◌else◌, false, true};
ghost use Rattle.std.specs.Prelude.{◌==◌, ◌≢◌, OnErr, OnOk, IfOk, IfErr, Ok, alloc_error};
ghost use Rattle.std.specs.Prelude.{length, string_bytes};
ghost use Rattle.redraw_command.specs.Arguments.{argument_at};
ghost use Rattle.redraw_command.specs.Shortened.{IsShownOf};
ghost use Rattle.redraw_command.specs.Seen.{IsSeen, digests_of};
ghost use Rattle.redraw_command.specs.Tally.{one_more};
ghost use Rattle.redraw_command.specs.Told.{Tells};
ghost use Rattle.redraw_run.specs.Deeds.{Does, Happens, TellsAll, repeated, standing};
ghost use Rattle.redraw_run.specs.Fates.{AreMessages, IsChosen, IsDrawing, IsTaking, LeavesOut, IsReportedAs, IsShown};
ghost use Rattle.redraw_run.specs.Fates.{IsHandedOn, IsTakingRead, IsWritten, IsWrong};
ghost use Rattle.redraw_run.specs.DrawnFinding.{DrawsFinding, IsCounted, IsLeftOut, IsUndrawn, ShowsFinding};
ghost use Rattle.redraw_run.specs.Article.{IsPlaced};
ghost use Rattle.redraw_run.specs.DrawnFinding.{IsPrintedAs, ending_after};
ghost use Rattle.redraw_run.specs.ReadLines.{TellsUnless};
ghost use Rattle.redraw_run.specs.Telling.{TellsAbout, TellsMany};
ghost use Rattle.redraw_read.specs.Loaded.{texts_of};
ghost use Rattle.serde_json.specs.View.{view};
ghost use Rattle.redraw_read.specs.declared.sources.File.{File};
ghost use Rattle.redraw_command.specs.declared.choice.OutputForm.TheVariants.{Report, Workflow};
ghost use Rattle.output_stream.specs.Standing.{Adds, Standing, known};

use crate::article::article_in;
use crate::look::ReportRenderer;
use crate::page::Page;
use crate::text::drawn_of;
use crate::write::{pass, print};
use annotate_snippets::renderer::RenderError;
use json_lines::fault::Fault;
use output_stream::Stream;
use redraw_command::choice::{Choice, OutputForm, is_sum};
use redraw_command::relative::make_relative;
use redraw_command::seen::{Names, SeenDiagnostics};
use redraw_command::stop::Stop;
use redraw_command::tally::Tally;
use redraw_command::tell::tell;
use redraw_command::terminal::Markup;
use redraw_command::workflow::command_of;
use redraw_read::place::load_files;
use redraw_read::sources::{SourceFiles, Sources};
use redraw_report::diagnostic::{Diagnostic, FileSpan, Severity};
use serde_json::Value;
use std::alloc::{AllocError, Global};
use std::fmt;
use std::io::Write;

/// What is drawn from, and what was drawn so far.
#[derive(Drop)]
pub struct Drawing<'w, S: Drop> {
    pub alloc: Global,
    pub renderer: ReportRenderer,
    /// Which findings are drawn, and in which form.
    pub choice: Choice<'w>,
    pub sources: Sources<S>,
    /// The files that SARIF logs name, which are read by a rule of their own. While a log is drawn they are `sources`.
    pub log_sources: Sources<S>,
    /// The files that lines may name, where it is asked whether one is at hand.
    pub line_files: S,
    pub tally: Tally,
    /// What was drawn of cargo's diagnostics.
    pub seen: SeenDiagnostics,
    /// The files in which what was drawn has its primary places.
    pub files: Names,
    /// What a page keeps of the reports in it, where HTML is written.
    pub page: Page,
    /// The name of the input that is read, as messages give it.
    pub input: &'w str,
    /// The line of it that is read, from 1; 0 where it isn't read by lines.
    pub line: u64,
    /// The text that rustc has of the finding that is read, where reports are compared with it.
    pub own_text: Option<String>,
}

impl<S: SourceFiles + Drop> Drawing<'_, S> {
    /// Draws what a part of the input reports, or says what is wrong with it. Cargo's message is given where it is one.
    pub fn finding<W: Write, V: Write>(
        &mut self,
        read: Result<Diagnostic, Fault>,
        message: Option<&Value>,
        out: &mut Stream<W>,
        err: &mut Stream<V>,
    ) -> Result<(), Stop>
        ensures does { Happens result (IsReportedAs (λ d. read ≡ Ok d))
            (standing self.old (known W.contents out.old) (known V.contents err.old))
            (standing self.new (known W.contents out.new) (known V.contents err.new)) }
    {
        match read {
            Ok(diagnostic) => self.take(diagnostic, message, out, err),
            Err(Fault::Memory) => Err(Stop::Memory),
            Err(fault) => {
                self.wrong(fault, err);
                Ok(())
            }
        }
    }

    /// Tells that something is wrong with what is read, which is left out.
    pub fn wrong<D: fmt::Display + Drop, V: Write>(&mut self, what: D, err: &mut Stream<V>)
        ensures counted { self.new
            ≡ record self.old { tally = record self.old.tally { wrong = one_more self.old.tally.wrong } } }
        ensures does { (out : Standing) → Does IsWrong (standing self.old out (known V.contents err.old))
            (standing self.new out (known V.contents err.new)) }
    {
        self.leave_out();
        self.tell(what, err);
    }

    /// Counts a part of the input that is left out, since something is wrong with it.
    pub fn leave_out(&mut self)
        ensures counted { self.new
            ≡ record self.old { tally = record self.old.tally { wrong = one_more self.old.tally.wrong } } }
        ensures does { (out err : Standing) → Does LeavesOut (standing self.old out err)
            (standing self.new out err) }
    {
        self.tally.wrong = self.tally.wrong.saturating_add(1);
    }

    /// Tells something of what is read.
    pub fn tell<D: fmt::Display + Drop, V: Write>(&self, what: D, err: &mut Stream<V>)
        ensures told { Tells (known V.contents err.old) (known V.contents err.new) }
    {
        tell_of(self.alloc, self.input, self.line, what, err);
    }

    /// Hands on a line of the input as it is; in HTML with escapes, in Markdown as code, and among workflow commands as
    /// none.
    pub fn hand_on<W: Write>(&self, line: &[u8], out: &mut Stream<W>) -> Result<(), Stop>
        ensures does { (err : Standing) → Happens result (IsHandedOn line.now)
            (standing self.now (known W.contents out.old) err) (standing self.now (known W.contents out.new) err) }
    {
        let handed = self.renderer.handed(self.alloc, line)?;
        pass(&handed, out)
    }

    /// Draws a finding, if it is one of those that are asked for and cargo hasn't reported it before.
    pub fn take<W: Write, V: Write>(
        &mut self,
        diagnostic: Diagnostic,
        message: Option<&Value>,
        out: &mut Stream<W>,
        err: &mut Stream<V>,
    ) -> Result<(), Stop>
        ensures does { Happens result (IsTakingRead diagnostic)
            (standing self.old (known W.contents out.old) (known V.contents err.old))
            (standing self.new (known W.contents out.new) (known V.contents err.new)) }
    {
        let shown = as_shown(self.alloc, diagnostic, self.choice.folder)?;
        self.draw_chosen(&shown, message, out, err)
    }

    /// Draws a finding, if it is one of those that are asked for.
    fn draw_chosen<W: Write, V: Write>(
        &mut self,
        diagnostic: &Diagnostic,
        message: Option<&Value>,
        out: &mut Stream<W>,
        err: &mut Stream<V>,
    ) -> Result<(), Stop>
        ensures does { Happens result (IsTaking diagnostic.now)
            (standing self.old (known W.contents out.old) (known V.contents err.old))
            (standing self.new (known W.contents out.new) (known V.contents err.new)) }
    {
        if self.choice.takes(diagnostic) {
            self.draw_once(diagnostic, message, out, err)
        } else {
            Ok(())
        }
    }

    /// Draws a finding that is asked for, if cargo hasn't reported it before.
    fn draw_once<W: Write, V: Write>(
        &mut self,
        diagnostic: &Diagnostic,
        message: Option<&Value>,
        out: &mut Stream<W>,
        err: &mut Stream<V>,
    ) -> Result<(), Stop>
        ensures once { OnOk result ((was : Bool)
            × IsSeen (option_map (λ m. view m.now) message.entry) self.old.choice.has_duplicates was
            (digests_of self.old.seen) (digests_of self.new.seen)
            × (was ≡ true → (out.new ≡ out.old) × (self.new.tally ≡ repeated self.old.tally))
            × (was ≡ false → DrawsFinding self.old.choice.form self.old.renderer self.new.sources.files.items
            diagnostic.now (known W.contents out.old) (known W.contents out.new) (out.new ≡ out.old)
            self.old.tally self.new.tally)) }
        ensures does { Happens result (IsChosen diagnostic.now)
            (standing self.old (known W.contents out.old) (known V.contents err.old))
            (standing self.new (known W.contents out.new) (known V.contents err.new)) }
    {
        let is_seen = self.is_duplicate(message)?;
        if is_seen {
            return Ok(());
        }
        self.draw(diagnostic, out, err)
    }

    /// Whether this is a message of cargo that was drawn before and isn't to be drawn again; such a one is counted.
    fn is_duplicate(&mut self, message: Option<&Value>) -> Result<bool, AllocError>
        ensures counted { IfOk result (λ is.
            self.new.tally ≡ (if is then repeated self.old.tally else self.old.tally)) }
        ensures uncounted { OnErr result (self.new.tally ≡ self.old.tally) }
        ensures kept { (self.new.renderer ≡ self.old.renderer) × (self.new.choice ≡ self.old.choice) }
        ensures once { IfOk result (λ is. is ≡ true → self.old.choice.has_duplicates ≡ false) }
        ensures seen { IfOk result (λ is. IsSeen (option_map (λ m. view m.now) message.entry)
            self.old.choice.has_duplicates is (digests_of self.old.seen) (digests_of self.new.seen)) }
    {
        match message {
            Some(message) if !self.choice.has_duplicates => {
                let is_duplicate = self.seen.keeps(message)?;
                if is_duplicate {
                    self.tally.duplicates = self.tally.duplicates.saturating_add(1);
                }
                Ok(is_duplicate)
            }
            _ => Ok(false),
        }
    }

    /// Draws the finding that a diagnostic reports.
    fn draw<W: Write, V: Write>(
        &mut self,
        diagnostic: &Diagnostic,
        out: &mut Stream<W>,
        err: &mut Stream<V>,
    ) -> Result<(), Stop>
        ensures draws { OnOk result (DrawsFinding self.old.choice.form self.old.renderer self.new.sources.files.items
            diagnostic.now (known W.contents out.old) (known W.contents out.new) (out.new ≡ out.old)
            self.old.tally self.new.tally) }
        ensures kept { (self.new.renderer ≡ self.old.renderer) × (self.new.choice ≡ self.old.choice) }
        ensures seen { self.new.seen ≡ self.old.seen }
        ensures does { Happens result (IsDrawing diagnostic.now)
            (standing self.old (known W.contents out.old) (known V.contents err.old))
            (standing self.new (known W.contents out.new) (known V.contents err.new)) }
    {
        match self.choice.form {
            OutputForm::Report => self.draw_report(diagnostic, out, err),
            OutputForm::Workflow => self.draw_command(diagnostic, out),
            OutputForm::Verify => self.compare(diagnostic, out),
        }
    }

    /// Draws it as a report.
    fn draw_report<W: Write, V: Write>(
        &mut self,
        diagnostic: &Diagnostic,
        out: &mut Stream<W>,
        err: &mut Stream<V>,
    ) -> Result<(), Stop>
        ensures draws { OnOk result (DrawsFinding Report self.old.renderer self.new.sources.files.items diagnostic.now
            (known W.contents out.old) (known W.contents out.new) (out.new ≡ out.old) self.old.tally self.new.tally) }
        ensures kept { (self.new.renderer ≡ self.old.renderer) × (self.new.choice ≡ self.old.choice) }
        ensures seen { self.new.seen ≡ self.old.seen }
        ensures does { self.old.choice.form ≡ Report
            → Happens result (IsShown diagnostic.now)
            (standing self.old (known W.contents out.old) (known V.contents err.old))
            (standing self.new (known W.contents out.new) (known V.contents err.new)) }
        ensures tells { OnOk result (TellsAbout self.old.renderer.settings.short_message self.old.sources.files.items
            self.new.sources.files.items (texts_of self.old.sources.unread.items) diagnostic.now
            (known V.contents err.old) (known V.contents err.new)) }
        ensures told { OnOk result (self.new.sources.unread.items ≡ []) }
    {
        load_files(&mut self.sources, diagnostic)?;
        self.tell_unread(err);
        let drawn = drawn_of(self.alloc, &self.renderer, &self.sources, diagnostic)?;
        self.tell_inexact(drawn.clamped, drawn.undrawn, err);
        self.print_drawn(drawn.text, diagnostic, out, err)
    }

    /// Draws it as a workflow command, if it is one.
    fn draw_command<W: Write>(
        &mut self,
        diagnostic: &Diagnostic,
        out: &mut Stream<W>,
    ) -> Result<(), Stop>
        ensures draws { OnOk result (DrawsFinding Workflow self.old.renderer self.new.sources.files.items diagnostic.now
            (known W.contents out.old) (known W.contents out.new) (out.new ≡ out.old) self.old.tally self.new.tally) }
        ensures kept { (self.new.renderer ≡ self.old.renderer) × (self.new.choice ≡ self.old.choice) }
        ensures seen { self.new.seen ≡ self.old.seen }
        ensures does { self.old.choice.form ≡ Workflow → (err : Standing)
            → Happens result (IsWritten diagnostic.now) (standing self.old (known W.contents out.old) err)
            (standing self.new (known W.contents out.new) err) }
    {
        match command_of(self.alloc, diagnostic)? {
            Some(line) => {
                self.count(diagnostic)?;
                print(line.as_str(), "", out)
            }
            None => Ok(()),
        }
    }

    /// Tells which files couldn't be read, each once.
    fn tell_unread<V: Write>(&mut self, err: &mut Stream<V>)
        ensures kept { (self.new.renderer ≡ self.old.renderer) × (self.new.choice ≡ self.old.choice)
            × (self.new.tally ≡ self.old.tally) }
        ensures seen { self.new.seen ≡ self.old.seen }
        ensures files { self.new.sources.files ≡ self.old.sources.files }
        ensures does { (out : Standing) → Does AreMessages (standing self.old out (known V.contents err.old))
            (standing self.new out (known V.contents err.new)) }
        ensures each { TellsMany (length self.old.sources.unread.items) (known V.contents err.old)
            (known V.contents err.new) }
        ensures none { self.new.sources.unread.items ≡ [] }
    {
        let unread = self.sources.take_unread();
        for name in &unread {
            let what = "--root names the folder that paths begin in";
            let told = format_args!("can't read {name}: {what}");
            tell_of(self.alloc, self.input, self.line, told, err);
        }
    }

    /// Tells how many places aren't in their source, and how many edits aren't drawn.
    fn tell_inexact<V: Write>(&self, clamped: u64, undrawn: u64, err: &mut Stream<V>)
        ensures does { (out : Standing) → Does AreMessages (standing self.now out (known V.contents err.old))
            (standing self.now out (known V.contents err.new)) }
        ensures exact { clamped ≡ 0 → undrawn ≡ 0 → err.new ≡ err.old }
        ensures each { (middle : Standing) × TellsUnless (clamped == 0) (known V.contents err.old) middle
            × TellsUnless (undrawn == 0) middle (known V.contents err.new) }
    {
        let clamped_places = "places that aren't in their source, drawn at the nearest one";
        self.tell_count(clamped, clamped_places, err);
        let undrawn_edits = "edits that aren't drawn, since too little is at hand of their files";
        self.tell_count(undrawn, undrawn_edits, err);
    }

    /// Tells how many of these there are, if any.
    fn tell_count<V: Write>(&self, count: u64, what: &str, err: &mut Stream<V>)
        ensures told { TellsAll (known V.contents err.old) (known V.contents err.new) }
        ensures none { count ≡ 0 → err.new ≡ err.old }
        ensures one { TellsUnless (count == 0) (known V.contents err.old) (known V.contents err.new) }
    {
        if count > 0 {
            let told = format_args!("{what}: {count}");
            tell_of(self.alloc, self.input, self.line, told, err);
        }
    }

    /// Prints the text of a finding, or tells why there is none.
    fn print_drawn<W: Write, V: Write>(
        &mut self,
        text: Result<String, RenderError>,
        diagnostic: &Diagnostic,
        out: &mut Stream<W>,
        err: &mut Stream<V>,
    ) -> Result<(), Stop>
        ensures drawn { OnOk result (IfOk text (λ t. IsPrintedAs self.old.renderer diagnostic.now (string_bytes t)
            (known W.contents out.old) (known W.contents out.new))) }
        ensures counted { OnOk result (IfOk text (λ t. IsCounted diagnostic.now self.old.tally self.new.tally)) }
        ensures untold { OnOk result (IfOk text (λ t. err.new ≡ err.old)) }
        ensures left_out { OnOk result (IfErr text (λ e. (e ≢ RenderError.Memory alloc_error)
            × (out.new ≡ out.old) × IsLeftOut self.old.tally self.new.tally)) }
        ensures told { OnOk result (IfErr text (λ e. Tells (known V.contents err.old) (known V.contents err.new))) }
        ensures kept { (self.new.renderer ≡ self.old.renderer) × (self.new.choice ≡ self.old.choice) }
        ensures seen { self.new.seen ≡ self.old.seen }
        ensures does { self.old.choice.form ≡ Report
            → (files : List File)
            → IfOk text (λ t. ShowsFinding self.old.renderer files diagnostic.now (string_bytes t))
            → IfErr text (IsUndrawn self.old.renderer files diagnostic.now)
            → Happens result (IsShown diagnostic.now)
            (standing self.old (known W.contents out.old) (known V.contents err.old))
            (standing self.new (known W.contents out.new) (known V.contents err.new)) }
        ensures sources { self.new.sources ≡ self.old.sources }
    {
        match text {
            Ok(text) => {
                let placed = self.placed(diagnostic, text)?;
                self.count(diagnostic)?;
                print(placed.as_str(), self.ending_of(diagnostic.severity), out)
            }
            Err(error) => self.refuse(&error, diagnostic, err),
        }
    }

    /// The text of a finding as it is printed: where HTML is written, in an article of the page.
    fn placed(&mut self, diagnostic: &Diagnostic, text: String) -> Result<String, AllocError>
        ensures placed { IfOk result (λ placed. IsPlaced self.old.renderer.markup diagnostic.now (string_bytes text)
            (string_bytes placed)) }
        ensures kept { (self.new.renderer ≡ self.old.renderer) × (self.new.choice ≡ self.old.choice)
            × (self.new.tally ≡ self.old.tally) }
        ensures seen { self.new.seen ≡ self.old.seen }
        ensures sources { self.new.sources ≡ self.old.sources }
    {
        match self.renderer.markup {
            Markup::Html => article_in(self.alloc, &mut self.page, diagnostic, text.as_str()),
            Markup::Bare | Markup::Markdown => Ok(text),
        }
    }

    /// Leaves a finding out whose report is refused, and tells why.
    fn refuse<V: Write>(
        &mut self,
        error: &RenderError,
        diagnostic: &Diagnostic,
        err: &mut Stream<V>,
    ) -> Result<(), Stop>
        ensures left_out { OnOk result ((error.now ≢ RenderError.Memory alloc_error)
            × IsLeftOut self.old.tally self.new.tally) }
        ensures told { OnOk result (Tells (known V.contents err.old) (known V.contents err.new)) }
        ensures kept { (self.new.renderer ≡ self.old.renderer) × (self.new.choice ≡ self.old.choice) }
        ensures seen { self.new.seen ≡ self.old.seen }
        ensures does { self.old.choice.form ≡ Report
            → (files : List File) → IsUndrawn self.old.renderer files diagnostic.now error.now
            → (out : Standing) → Happens result (IsShown diagnostic.now)
            (standing self.old out (known V.contents err.old)) (standing self.new out (known V.contents err.new)) }
        ensures sources { self.new.sources ≡ self.old.sources }
    {
        match error {
            RenderError::Memory(_) => Err(Stop::Memory),
            _ => {
                self.leave_out();
                self.tell(error.words(), err);
                Ok(())
            }
        }
    }

    /// What stands after a report: an empty line, but none after one line or a text without a level.
    fn ending_of(&self, severity: Severity) -> &'static str
        ensures value { result.now ≡ ending_after self.now.renderer.settings.short_message severity }
    {
        if self.renderer.settings.short_message || severity == Severity::Plain {
            ""
        } else {
            "\n"
        }
    }

    /// Counts a finding that is drawn, and the files that it lies in.
    fn count(&mut self, diagnostic: &Diagnostic) -> Result<(), AllocError>
        ensures counted { OnOk result (IsCounted diagnostic.now self.old.tally self.new.tally) }
        ensures uncounted { OnErr result (self.new.tally ≡ self.old.tally) }
        ensures kept { (self.new.renderer ≡ self.old.renderer) × (self.new.choice ≡ self.old.choice) }
        ensures seen { self.new.seen ≡ self.old.seen }
        ensures sources { self.new.sources ≡ self.old.sources }
    {
        add_files(&mut self.files, &diagnostic.spans)?;
        self.tally = self.tally.with(diagnostic.severity, is_sum(diagnostic));
        self.tally.files = self.files.len();
        Ok(())
    }
}

/// A finding with its paths as they are shown from a folder; as it is where there is none.
fn as_shown(
    alloc: Global,
    mut diagnostic: Diagnostic,
    folder: Option<&str>,
) -> Result<Diagnostic, AllocError>
    ensures shown { IfOk result (IsShownOf (argument_at folder.entry) diagnostic) }
{
    match folder {
        Some(folder) => {
            make_relative(alloc, &mut diagnostic, folder)?;
            Ok(diagnostic)
        }
        None => Ok(diagnostic),
    }
}

/// Tells something of an input's line, or of the input where the line is 0.
fn tell_of<D: fmt::Display + Drop, V: Write>(
    alloc: Global,
    input: &str,
    line: u64,
    what: D,
    err: &mut Stream<V>,
)
    ensures told { Tells (known V.contents err.old) (known V.contents err.new) }
{
    if line == 0 {
        tell(alloc, format_args!("{input}: {what}"), err);
    } else {
        tell(alloc, format_args!("{input}:{line}: {what}"), err);
    }
}

/// Adds the files that the primary ones of these places are in.
fn add_files(files: &mut Names, spans: &[FileSpan]) -> Result<(), AllocError> {
    for span in spans {
        if span.is_primary {
            files.add(span.file.as_str())?;
        }
    }
    Ok(())
}
