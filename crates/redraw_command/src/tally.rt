//! What was drawn, and what became of the rest.
ghost use Rattle.std.specs.Prelude.{◌≡◌, not};
ghost use Rattle.redraw_command.specs.Tally as spec;

use crate::choice::OutputForm;
use redraw_report::diagnostic::Severity;
use std::fmt;

/// The status of a run that drew no error.
pub const CLEAN: u8 = 0;
/// The status of a run that drew an error, or read that a build failed, or found a report that differs.
pub const ERRORS: u8 = 1;
/// The status of a run whose arguments or input aren't of the form, or that was stopped.
pub const FAILED: u8 = 2;

/// What was drawn, by level, and what became of the rest.
#[derive(Clone, Copy, Default)]
pub struct Tally {
    /// The errors that were drawn.
    pub errors: u64,
    /// The warnings that were drawn.
    pub warnings: u64,
    /// What else was drawn: notes, helps and informations.
    pub notes: u64,
    /// The diagnostics of cargo that were drawn before, and weren't again.
    pub duplicates: u64,
    /// The files in which what was drawn has its primary places.
    pub files: u64,
    /// Parts of the input that are left out, since something is wrong with them.
    pub wrong: u64,
    /// The findings whose reports were compared with the texts that rustc has of them.
    pub compared: u64,
    /// Those of them whose reports aren't these texts.
    pub differing: u64,
    /// Whether an error was drawn, be it one that only sums up others.
    pub has_error: bool,
    /// Whether cargo says that the build failed.
    pub has_failed: bool,
}

impl Tally {
    /// Nothing was drawn or counted.
    pub fn new() -> Tally
        ensures value { result ≡ spec.no_tally }
    {
        Tally {
            errors: 0,
            warnings: 0,
            notes: 0,
            duplicates: 0,
            files: 0,
            wrong: 0,
            compared: 0,
            differing: 0,
            has_error: false,
            has_failed: false,
        }
    }

    /// The tally with a finding of this level more, which isn't counted where it only sums up others.
    pub fn with(mut self, severity: Severity, is_sum: bool) -> Tally
        ensures tallied { result ≡ spec.tallied self severity is_sum }
    {
        self.has_error = self.has_error || severity == Severity::Error;
        if is_sum {
            return self;
        }
        match severity {
            Severity::Error => self.errors = self.errors.saturating_add(1),
            Severity::Warning => self.warnings = self.warnings.saturating_add(1),
            Severity::Info | Severity::Note | Severity::Help => {
                self.notes = self.notes.saturating_add(1);
            }
            Severity::Plain => {}
        }
        self
    }

    /// The tally with a finding more whose report was compared with the text that rustc has of it.
    pub fn with_compared(mut self, is_same: bool) -> Tally
        ensures compared { result ≡ spec.with_compared self is_same }
    {
        self.compared = self.compared.saturating_add(1);
        if !is_same {
            self.differing = self.differing.saturating_add(1);
        }
        self
    }

    /// The status of a run that did this in a form, and read all of its inputs or not.
    pub fn status(&self, form: OutputForm, is_whole: bool) -> u8
        ensures status { result ≡ spec.tally_status form self.now is_whole }
    {
        if !is_whole {
            FAILED
        } else if self.has_found(form) {
            ERRORS
        } else {
            CLEAN
        }
    }

    /// Whether a run in this form found what it is to tell of: an error or a build that failed, or a report that
    /// differs.
    fn has_found(&self, form: OutputForm) -> bool
        ensures value { result ≡ spec.has_found form self.now }
    {
        match form {
            OutputForm::Verify => self.differing > 0,
            _ => self.has_error || self.has_failed,
        }
    }

    /// Whether nothing of all this was there.
    pub fn is_empty(&self) -> bool
        ensures value { result ≡ spec.is_empty self.now }
    {
        !self.has_drawn() && self.duplicates == 0 && self.wrong == 0 && self.compared == 0
    }

    /// Whether anything was drawn that counts.
    fn has_drawn(&self) -> bool
        ensures value { result ≡ not (spec.has_none self.now) }
    {
        self.errors > 0 || self.warnings > 0 || self.notes > 0
    }
}

/// What is told in the end: what was drawn, what became of the rest, and how many files weren't read.
#[derive(Clone, Copy)]
pub struct Summary {
    pub tally: Tally,
    /// The form in which findings were asked for.
    pub form: OutputForm,
    /// The files that weren't read, since they lie elsewhere than below the folder.
    pub outside: u64,
}

impl fmt::Display for Summary {
    fn fmt<W: fmt::Write>(&self, f: &mut fmt::Formatter<W>) -> fmt::Result {
        let Summary {
            tally,
            form,
            outside,
        } = *self;
        match form {
            OutputForm::Verify => write!(f, "{}", Comparison(tally))?,
            _ => write!(f, "{tally}")?,
        }
        if outside > 0 {
            let files = Counted(outside, "file", "files");
            write!(f, ", {files} outside the folder not read")?;
        }
        Ok(())
    }
}

/// What is told of the reports that were compared with the texts that rustc has of them.
#[derive(Clone, Copy)]
struct Comparison(Tally);

impl fmt::Display for Comparison {
    fn fmt<W: fmt::Write>(&self, f: &mut fmt::Formatter<W>) -> fmt::Result {
        let Comparison(tally) = *self;
        let reports = Counted(tally.compared, "report", "reports");
        let differing = tally.differing;
        write!(
            f,
            "{reports} compared, {differing} not as rustc prints them"
        )?;
        let wrong = tally.wrong;
        if wrong > 0 {
            write!(f, ", {wrong} left out")?;
        }
        Ok(())
    }
}

/// So many things of a name, which is given for one and for several.
#[derive(Clone, Copy)]
struct Counted(u64, &'static str, &'static str);

impl fmt::Display for Counted {
    fn fmt<W: fmt::Write>(&self, f: &mut fmt::Formatter<W>) -> fmt::Result {
        let Counted(count, one, several) = *self;
        let name = if count == 1 { one } else { several };
        write!(f, "{count} {name}")
    }
}

/// Writes how many things there are, if any, after a comma where others stand before it; and says whether any do now.
fn list<W: fmt::Write>(
    f: &mut fmt::Formatter<W>,
    is_first: bool,
    counted: Counted,
) -> Result<bool, fmt::Error> {
    if counted.0 == 0 {
        return Ok(is_first);
    }
    let comma = if is_first { "" } else { ", " };
    write!(f, "{comma}{counted}")?;
    Ok(false)
}

impl fmt::Display for Tally {
    fn fmt<W: fmt::Write>(&self, f: &mut fmt::Formatter<W>) -> fmt::Result {
        let is_first = list(f, true, Counted(self.errors, "error", "errors"))?;
        let is_first = list(f, is_first, Counted(self.warnings, "warning", "warnings"))?;
        if list(f, is_first, Counted(self.notes, "note", "notes"))? {
            f.write_str("nothing drawn")?;
        }
        if self.duplicates > 0 {
            let duplicates = Counted(self.duplicates, "duplicate", "duplicates");
            write!(f, " ({duplicates})")?;
        }
        if self.files > 0 {
            let files = Counted(self.files, "file", "files");
            write!(f, " in {files}")?;
        }
        let wrong = self.wrong;
        if wrong > 0 {
            write!(f, ", {wrong} left out")?;
        }
        Ok(())
    }
}
