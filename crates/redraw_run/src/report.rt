//! Values that hold what they report: a diagnostic of rustc, a message of cargo, and a SARIF log.
ghost use Rattle.json_lines.specs.Cut.{IsCutOf};
ghost use Rattle.redraw_run.specs.Deeds.{Happens, standing};
ghost use Rattle.redraw_run.specs.Fates.{AreRuns, IsCutLog, IsDiagnosed, IsErrorLost, IsLog, IsLogRun};
ghost use Rattle.redraw_run.specs.Logged.{document_in};
ghost use Rattle.output_stream.specs.Standing.{Standing, known};
ghost use Rattle.redraw_read.specs.Rustc.{IsPackagedAs, IsReadAs};
ghost use Rattle.serde_json.specs.Data.{Data};
ghost use Rattle.serde_json.specs.View.{view};
ghost use Rattle.std.specs.Prelude.{◌≡◌, Ok, map};
ghost use Rattle.redraw_tools.specs.declared.log.LogForm.TheVariants as form;

use crate::draw::Drawing;
use crate::readings::read_diagnostic;
use crate::sarif::{draw_cut_runs, draw_run, draw_runs};
use crate::verify::keep_own_text;
use json_lines::cut::CutLog;
use json_lines::expectation::Expectation;
use json_lines::fault::Fault;
use json_lines::lenient::LenientNode;
use json_lines::node::Node;
use json_lines::place::JsonPath;
use output_stream::Stream;
use redraw_command::stop::Stop;
use redraw_read::json::listed;
use redraw_read::sources::SourceFiles;
use redraw_report::diagnostic::Diagnostic;
use redraw_tools::log::LogForm;
use serde_json::Value;
use std::io::Write;
use std::mem;

/// Takes a diagnostic of rustc.
pub fn rustc_diagnostic<S: SourceFiles + Drop, W: Write, V: Write>(
    node: &Node<'_, '_>,
    drawing: &mut Drawing<'_, S>,
    out: &mut Stream<W>,
    err: &mut Stream<V>,
) -> Result<(), Stop>
    ensures does { Happens result (IsDiagnosed (IsReadAs (view node.now.value.now)))
        (standing drawing.old (known W.contents out.old) (known V.contents err.old))
        (standing drawing.new (known W.contents out.new) (known V.contents err.new)) }
{
    let read = read_diagnostic(&mut drawing.sources, node, false);
    keep_own_text(drawing, node)?;
    take_read(read, node.value, None, drawing, out, err)
}

/// Takes cargo's message, which has a diagnostic of rustc in it.
pub fn cargo_message<S: SourceFiles + Drop, W: Write, V: Write>(
    node: &Node<'_, '_>,
    drawing: &mut Drawing<'_, S>,
    out: &mut Stream<W>,
    err: &mut Stream<V>,
) -> Result<(), Stop>
    ensures does { Happens result (IsDiagnosed (IsPackagedAs (view node.now.value.now)))
        (standing drawing.old (known W.contents out.old) (known V.contents err.old))
        (standing drawing.new (known W.contents out.new) (known V.contents err.new)) }
{
    match node.needed("message", Expectation::Object) {
        Ok(message) => {
            let read = read_diagnostic(&mut drawing.sources, node, true);
            keep_own_text(drawing, &message)?;
            take_read(read, message.value, Some(message.value), drawing, out, err)
        }
        Err(fault) => drawing.finding(Err(fault), None, out, err),
    }
}

/// Draws what was read of this diagnostic, or says what is wrong with it; if it is an error then, the run fails.
fn take_read<S: SourceFiles + Drop, W: Write, V: Write>(
    read: Result<Diagnostic, Fault>,
    diagnostic: &Value,
    message: Option<&Value>,
    drawing: &mut Drawing<'_, S>,
    out: &mut Stream<W>,
    err: &mut Stream<V>,
) -> Result<(), Stop>
    ensures does { Happens result (IsDiagnosed (λ d. read ≡ Ok d))
        (standing drawing.old (known W.contents out.old) (known V.contents err.old))
        (standing drawing.new (known W.contents out.new) (known V.contents err.new)) }
{
    match read {
        Ok(finding) => drawing.take(finding, message, out, err),
        Err(fault) if is_error(diagnostic) => lose(fault, drawing, err),
        Err(fault) => drawing.finding(Err(fault), message, out, err),
    }
}

/// Says what is wrong with an error, which is left out, and has the run fail.
fn lose<S: SourceFiles + Drop, V: Write>(
    fault: Fault,
    drawing: &mut Drawing<'_, S>,
    err: &mut Stream<V>,
) -> Result<(), Stop>
    ensures does { (out : Standing) → Happens result IsErrorLost
        (standing drawing.old out (known V.contents err.old))
        (standing drawing.new out (known V.contents err.new)) }
{
    match fault {
        Fault::Memory => Err(Stop::Memory),
        fault => {
            drawing.wrong(fault, err);
            drawing.tally.has_failed = true;
            Ok(())
        }
    }
}

/// Whether a diagnostic of rustc is an error, be the rest of it as it may.
fn is_error(diagnostic: &Value) -> bool {
    match diagnostic.get("level").and_then(Value::as_str) {
        Some(level) => level.starts_with("error"),
        None => false,
    }
}

/// Takes a SARIF log, whose files are read by a rule of their own.
pub fn sarif_log<S: SourceFiles + Drop, W: Write, V: Write>(
    node: &Node<'_, '_>,
    drawing: &mut Drawing<'_, S>,
    out: &mut Stream<W>,
    err: &mut Stream<V>,
) -> Result<(), Stop>
    ensures does { Happens result (IsLog (view node.now.value.now))
        (standing drawing.old (known W.contents out.old) (known V.contents err.old))
        (standing drawing.new (known W.contents out.new) (known V.contents err.new)) }
{
    drawing.own_text = None;
    swap_sources(drawing);
    let drawn = draw_log(node, drawing, out, err);
    swap_sources(drawing);
    drawn
}

/// Takes a SARIF log that is read without its results, which stand in this text.
pub fn cut_sarif_log<S: SourceFiles + Drop, W: Write, V: Write>(
    log: &CutLog,
    text: &[u8],
    drawing: &mut Drawing<'_, S>,
    out: &mut Stream<W>,
    err: &mut Stream<V>,
) -> Result<(), Stop>
    ensures does { (d : Data) → IsCutOf d log.now → Happens result (IsCutLog text.now d)
        (standing drawing.old (known W.contents out.old) (known V.contents err.old))
        (standing drawing.new (known W.contents out.new) (known V.contents err.new)) }
{
    drawing.own_text = None;
    swap_sources(drawing);
    let drawn = draw_cut_runs(log, text, drawing, out, err);
    swap_sources(drawing);
    drawn
}

/// Puts the files that SARIF logs name in the place of those that lines name, or the other way round.
fn swap_sources<S: SourceFiles + Drop>(drawing: &mut Drawing<'_, S>)
    ensures kept { (out err : Standing) → standing drawing.new out err ≡ standing drawing.old out err }
    ensures swapped { (drawing.new.sources ≡ drawing.old.log_sources)
        × (drawing.new.log_sources ≡ drawing.old.sources) }
{
    mem::swap(&mut drawing.sources, &mut drawing.log_sources);
}

/// Draws a SARIF log. One whose runs are no list is told and left out.
fn draw_log<S: SourceFiles + Drop, W: Write, V: Write>(
    node: &Node<'_, '_>,
    drawing: &mut Drawing<'_, S>,
    out: &mut Stream<W>,
    err: &mut Stream<V>,
) -> Result<(), Stop>
    ensures does { Happens result (IsLog (view node.now.value.now))
        (standing drawing.old (known W.contents out.old) (known V.contents err.old))
        (standing drawing.new (known W.contents out.new) (known V.contents err.new)) }
{
    match listed(node, "runs") {
        Ok(runs) => {
            let document = JsonPath::Document;
            let place = JsonPath::Field(&document, "runs");
            draw_runs(runs, place, LogForm::Sarif, drawing, out, err)
        }
        Err(fault) => drawing.finding(Err(fault), None, out, err),
    }
}

/// Draws diagnostics of a document.
pub fn lsp_document<S: SourceFiles + Drop, W: Write, V: Write>(
    document: &Value,
    place: JsonPath<'_>,
    drawing: &mut Drawing<'_, S>,
    out: &mut Stream<W>,
    err: &mut Stream<V>,
) -> Result<(), Stop>
    ensures does { Happens result (IsLogRun form.Lsp (view document.now))
        (standing drawing.old (known W.contents out.old) (known V.contents err.old))
        (standing drawing.new (known W.contents out.new) (known V.contents err.new)) }
{
    drawing.own_text = None;
    let node = LenientNode {
        value: document,
        place,
    };
    draw_run(node, LogForm::Lsp, drawing, out, err)
}

/// Draws the diagnostics of a notification. One without parameters has none.
pub fn lsp_notification<S: SourceFiles + Drop, W: Write, V: Write>(
    notification: &Value,
    drawing: &mut Drawing<'_, S>,
    out: &mut Stream<W>,
    err: &mut Stream<V>,
) -> Result<(), Stop>
    ensures does { Happens result (IsLogRun form.Lsp (document_in (view notification.now)))
        (standing drawing.old (known W.contents out.old) (known V.contents err.old))
        (standing drawing.new (known W.contents out.new) (known V.contents err.new)) }
{
    let document = JsonPath::Document;
    let params = notification.get("params").unwrap_or(notification);
    lsp_document(
        params,
        JsonPath::Field(&document, "params"),
        drawing,
        out,
        err,
    )
}

/// Draws ESLint's log.
pub fn eslint_log<S: SourceFiles + Drop, W: Write, V: Write>(
    files: &[Value],
    drawing: &mut Drawing<'_, S>,
    out: &mut Stream<W>,
    err: &mut Stream<V>,
) -> Result<(), Stop>
    ensures does { Happens result (AreRuns form.Eslint (map view files.now))
        (standing drawing.old (known W.contents out.old) (known V.contents err.old))
        (standing drawing.new (known W.contents out.new) (known V.contents err.new)) }
{
    drawing.own_text = None;
    draw_runs(
        files,
        JsonPath::Document,
        LogForm::Eslint,
        drawing,
        out,
        err,
    )
}
