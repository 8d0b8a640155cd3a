//! The logs that are values of JSON, of whichever tool, as runs of which each has results.
ghost use Rattle.std.specs.Prelude.{◌≡◌, IfOk, map};
ghost use Rattle.serde_json.specs.View.{view};
ghost use Rattle.redraw_tools.specs.Log.{IsReportedBy, IsRunOf, results_in};

use crate::eslint::eslint_finding;
use crate::lsp::lsp_finding;
use crate::sarif::SarifRun;
use json_lines::lenient::{LenientNode, List, Problems};
use redraw_report::diagnostic::{Diagnostic, Unit};
use std::alloc::{AllocError, Global};

/// How a log is written.
#[derive(Clone, Copy)]
pub enum LogForm {
    /// SARIF: a run is a run of a tool, with its results.
    Sarif,
    /// ESLint's list: a run is a file, with its messages.
    Eslint,
    /// The Language Server Protocol: a run is a document, with its diagnostics.
    Lsp,
}

/// A run of a log.
#[derive(Drop)]
pub enum LogRun<'v, 'p> {
    Sarif(SarifRun<'v, 'p>),
    Eslint(LenientNode<'v, 'p>),
    Lsp(LenientNode<'v, 'p>),
}

impl<'v, 'p> LogRun<'v, 'p> {
    /// The run that this value describes, whose columns count this, if that is asked for and it is one of SARIF. What
    /// is wrong with it is reported.
    pub fn new(
        alloc: Global,
        form: LogForm,
        node: LenientNode<'v, 'p>,
        columns: Option<Unit>,
        problems: &mut Problems,
    ) -> LogRun<'v, 'p>
        ensures is { IsRunOf form columns (view node.entry.value.now) result }
    {
        match form {
            LogForm::Sarif => LogRun::Sarif(SarifRun::new(alloc, node, columns, problems)),
            LogForm::Eslint => LogRun::Eslint(node),
            LogForm::Lsp => LogRun::Lsp(node),
        }
    }

    /// The results of the run.
    pub fn results(&self, problems: &mut Problems) -> List<'v, '_>
        ensures value { map view result.items.now ≡ results_in self.now }
    {
        match self {
            LogRun::Sarif(run) => run.results(problems),
            LogRun::Eslint(file) => file.list("messages", problems),
            LogRun::Lsp(document) => document.list("diagnostics", problems),
        }
    }

    /// What a result of the run reports; `None` for a value that is no object, which is reported as wrong.
    pub fn finding(
        &self,
        alloc: Global,
        reported: &LenientNode<'_, '_>,
        problems: &mut Problems,
    ) -> Result<Option<Diagnostic>, AllocError>
        ensures is { IfOk result (IsReportedBy self.now (view reported.now.value.now)) }
    {
        match self {
            LogRun::Sarif(run) => run.finding(alloc, reported, problems),
            LogRun::Eslint(file) => eslint_finding(alloc, file, reported, problems),
            LogRun::Lsp(document) => lsp_finding(alloc, document, reported, problems),
        }
    }
}
