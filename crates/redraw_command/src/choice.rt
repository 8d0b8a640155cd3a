//! Which findings are drawn, and in which form.
ghost use Rattle.std.specs.Prelude.{◌≡◌, ◌↔◌, nat_eq, option_map, string_bytes, true};
ghost use Rattle.std.specs.List.{Any, starts_with, ends_with};
ghost use Rattle.redraw_command.specs.Arguments.{argument_at};
ghost use Rattle.redraw_command.specs.Choice as spec;
ghost use Rattle.redraw_command.specs.Choice.{AreIn, IsIn, IsTaken};

use redraw_report::diagnostic::{Diagnostic, FileSpan, Severity, Unit};

/// What a finding is written as.
#[derive(Clone, Copy, PartialEq, Eq)]
pub enum OutputForm {
    /// A report that the library draws.
    Report,
    /// A workflow command of GitHub.
    Workflow,
    /// Nothing, but for the first whose report isn't the text that rustc has of it.
    Verify,
}

/// The least level of the findings that are drawn.
#[derive(Clone, Copy, PartialEq, Eq)]
pub enum Least {
    Error,
    Warning,
    /// All are, and texts without a level too.
    Any,
}

/// Which findings are drawn, and in which form.
#[derive(Clone, Copy)]
pub struct Choice<'a> {
    pub form: OutputForm,
    /// The least level of those that are drawn.
    pub least: Least,
    /// A text that one of their primary paths holds, where one is given.
    pub path: Option<&'a str>,
    /// Whether those are drawn again that cargo reports again.
    pub has_duplicates: bool,
    /// Whether nothing is summed up.
    pub is_quiet: bool,
    /// Whether lines of compilers are read, beside JSON.
    pub reads_lines: bool,
    /// What the columns of inputs count, where that is said.
    pub columns: Option<Unit>,
    /// The folder that paths are shown from, where it is known. None is known before a run begins.
    pub folder: Option<&'a str>,
}

/// The folder that paths are shown from; none where reports are compared with rustc's texts, which have the paths as
/// they are.
pub fn shown_from(form: OutputForm, folder: &Option<String>) -> Option<&str>
    ensures value { argument_at result ≡ spec.shown_from form (option_map string_bytes folder.now) }
{
    match (folder, form) {
        (Some(_), OutputForm::Verify) => None,
        (Some(folder), _) => Some(folder.as_str()),
        (None, _) => None,
    }
}

impl Choice<'_> {
    /// Whether a finding is one of those that are drawn.
    pub fn takes(&self, diagnostic: &Diagnostic) -> bool
        ensures taken { (result ≡ true) ↔ IsTaken self.now diagnostic.now }
    {
        self.takes_level(diagnostic.severity) && self.takes_spans(&diagnostic.spans)
    }

    /// Whether findings of this level are drawn.
    fn takes_level(&self, severity: Severity) -> bool
        ensures value { result ≡ spec.takes_level self.now.least severity }
    {
        match self.least {
            Least::Error => severity == Severity::Error,
            Least::Warning => severity == Severity::Error || severity == Severity::Warning,
            Least::Any => true,
        }
    }

    /// Whether findings with these places are drawn.
    fn takes_spans(&self, spans: &[FileSpan]) -> bool
        ensures taken { (result ≡ true) ↔ AreIn self.now.path spans.now }
    {
        match self.path {
            Some(text) => has_one_in(spans, text),
            None => true,
        }
    }
}

/// Whether one of these places is primary and in a file whose path holds this text.
fn has_one_in(spans: &[FileSpan], text: &str) -> bool
    ensures some { (result ≡ true) ↔ Any (IsIn text.now) spans.now }
{
    for span in spans {
        if is_in(span, text) {
            return true;
        }
    }
    false
}

/// Whether a place is primary and in a file whose path holds this text.
fn is_in(span: &FileSpan, text: &str) -> bool
    ensures value { (result ≡ true) ↔ IsIn text.now span.now }
{
    span.is_primary && span.file.contains(text)
}

/// Whether this only sums up how many others there are, as rustc and cargo do in the end: `aborting due to 2 previous
/// errors`.
pub fn is_sum(diagnostic: &Diagnostic) -> bool
    ensures value { result ≡ spec.is_sum diagnostic.now }
{
    diagnostic.spans.is_empty() && says_how_many(diagnostic.message.as_str())
}

/// Whether a message says how many others there are.
fn says_how_many(message: &str) -> bool
    ensures value { result ≡ spec.says_how_many message.now }
{
    begins_with(message, "aborting due to ")
        || stops_with(message, " warning emitted")
        || stops_with(message, " warnings emitted")
}

/// Whether a text begins with another.
fn begins_with(text: &str, start: &str) -> bool
    ensures value { result ≡ starts_with nat_eq text.now start.now }
{
    text.starts_with(start)
}

/// Whether a text ends with another.
fn stops_with(text: &str, end: &str) -> bool
    ensures value { result ≡ ends_with nat_eq text.now end.now }
{
    text.ends_with(end)
}
