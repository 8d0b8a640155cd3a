//! A run of the program, over the bytes of a file and two writers.
ghost use Rattle.std.specs.Prelude.{◌≡◌, ◌≤◌, ◌↔◌, ◌⊎◌, [], ◌∷◌, IsTrue, IfErr, IfOk, IfSome, All, alloc_error, codes};
ghost use Rattle.std.specs.Prelude.{string_bytes};
ghost use Rattle.std.specs.Option.{option_copied};
ghost use Rattle.annotate_snippets.specs.Fits.{ReportFits, TextFits};
ghost use Rattle.program.specs.Ending.{Ends};
ghost use Rattle.program.specs.Lent.{IsLentFor, stream_of};
ghost use Rattle.program.specs.Stream.{Receives, Told};
ghost use Rattle.snip_run.specs.Report.{IsReportFor, RefusesCommand, ShowsCommand};
ghost use Rattle.snip_run.specs.Run.{MaySnip, ShowsFile, SnipFails, snip_end, snip_message};
ghost use Rattle.snip_run.specs.Arguments.{arguments_at, IsCommandLine, IsCommandOf};

use crate::arguments::{SnipCommand, command_of};
use annotate_snippets::level::ERROR;
use annotate_snippets::renderer::RenderError;
use annotate_snippets::text::text_fits;
use annotate_snippets::{AnnotationKind, Element, Group, OptionCow, Snippet};
use program::lent::LentStream;
use program::message::cannot;
use program::options::renderer_of;
use program::source::source_of;
use std::alloc::{AllocError, Global};
use std::io::Write;

/// How the arguments are to be written.
const USAGE: &str =
    "usage: snip [--unicode] [--text] [--short] [--styled] [--width N] FILE START END TITLE [LABEL]";

/// What is told where there is no memory to tell more.
const OUT_OF_MEMORY: &str = "snip: out of memory";

/// The status of a run that printed a report.
const PRINTED: u8 = 0;
/// The status of a run that printed no report, though the arguments are of the form.
const FAILED: u8 = 1;
/// The status of a run whose arguments aren't of the form.
const MISUSED: u8 = 2;

/// Why a command gives no report.
#[derive(Debug, Drop)]
enum SnipFailure {
    /// The file holds no text that can be drawn, or an argument is too long.
    Unreadable,
    /// The report is refused, or a growth of memory was.
    Refused(RenderError),
}

/// Whether each argument is within the library's limit.
fn arguments_fit(args: &[&str]) -> bool
    ensures value { IsTrue result ↔ All TextFits (arguments_at args.now) }
{
    args.iter().all(|argument| text_fits(argument))
}

/// The report that the command asks for over this source: its one group.
fn report_of<'a>(
    alloc: Global,
    command: &SnipCommand<'a>,
    source: &'a str,
) -> Result<Group<'a>, AllocError>
    requires title { TextFits command.now.title.now }
    requires label { IfSome command.now.label (λ t. TextFits t.now) }
    requires source { TextFits source.now }
    ensures report { IfOk result (λ group. IsReportFor command.now source.now (group ∷ [])) }
    ensures fits { IfOk result (λ group. ReportFits (group ∷ [])) }
{
    let mark = AnnotationKind::Primary
        .span(command.start..command.end)
        .label(OptionCow::from(command.label));
    let snippet = Snippet::source(alloc, source).annotation(mark)?;
    let group: Group<'a> = ERROR
        .primary_title(command.title)
        .element(alloc, Element::from(snippet))?;
    Ok(group)
}

/// The text of the report that the command asks for, over this source.
fn rendered<'a>(
    alloc: Global,
    command: &SnipCommand<'a>,
    source: &'a str,
) -> Result<String, RenderError>
    requires title { TextFits command.now.title.now }
    requires label { IfSome command.now.label (λ t. TextFits t.now) }
    requires source { TextFits source.now }
    ensures shows { IfOk result (λ text. ShowsCommand command.now source.now (string_bytes text)) }
    ensures refused { IfErr result (λ refusal. (refusal ≡ RenderError.Memory alloc_error)
        ⊎ RefusesCommand command.now source.now refusal) }
{
    let group: Group<'a> = report_of(alloc, command, source).map_err(RenderError::Memory)?;
    renderer_of(command.options).render(alloc, &[group])
}

/// The text of the report that the command asks for; it is the command of these arguments.
fn report_text<'a>(
    alloc: Global,
    args: &[&str],
    command: &SnipCommand<'a>,
    file: Option<&'a [u8]>,
) -> Result<String, SnipFailure>
    requires command { IsCommandOf (arguments_at args.now) command.now }
    ensures shows { IfOk result (λ text.
        ShowsFile (arguments_at args.now) (option_copied file.entry) command.now (string_bytes text)) }
    ensures fails { IfErr result (SnipFails (arguments_at args.now) (option_copied file.entry) command.now) }
{
    let Some(source) = source_of(file) else {
        return Err(SnipFailure::Unreadable);
    };
    if !arguments_fit(args) {
        return Err(SnipFailure::Unreadable);
    }
    match rendered(alloc, command, source) {
        Ok(text) => Ok(text),
        Err(refusal) => Err(SnipFailure::Refused(refusal)),
    }
}

/// What is told of a failure, where FILE has this name.
fn message_of(alloc: Global, failure: &SnipFailure, name: &str) -> Result<String, AllocError>
    ensures message { IfOk result (λ text. string_bytes text ≡ snip_message name.now failure.now) }
{
    match failure {
        SnipFailure::Unreadable => cannot(alloc, "snip", "read", name),
        SnipFailure::Refused(refusal) => format!(in alloc; "snip: {}", refusal.words()),
    }
}

/// Tells a failure, or that there was no memory for that.
fn tell<V: Write>(alloc: Global, failure: &SnipFailure, name: &str, err: &mut LentStream<'_, V>)
    ensures same_reference { err.new.target.ghost_name ≡ err.old.target.ghost_name }
    ensures told { Receives V.contents (stream_of err.old) (stream_of err.new)
        (Told (snip_message name.now failure.now))
        ⊎ Receives V.contents (stream_of err.old) (stream_of err.new) (Told (codes "snip: out of memory")) }
{
    match message_of(alloc, failure, name) {
        Ok(message) => err.write_line(message.as_str()),
        Err(AllocError) => err.write_line(OUT_OF_MEMORY),
    };
}

/// Prints the report that the arguments ask for, and answers the status to end with.
///
/// `file` is what FILE holds, or `None` where it can't be read. The status is 0 where the report was printed, 2 for
/// arguments that aren't of the form, and else 1. The report goes to `out`, and what is in its way to `err`; a report
/// that couldn't be written is told by the status alone. Neither writer is flushed.
///
/// | Status | `out` | `err` |
/// |---|---|---|
/// | 0 | the report and a line feed more | as it was |
/// | 1, what was in the report's way | as it was | a message and a line feed more |
/// | 1, a write of the report failed | a first part of it more | as it was |
/// | 2 | as it was | how the arguments are to be written, and a line feed more |
///
/// A message that couldn't be written stands there by a first part of it, and only where a write failed. Once one has
/// failed nothing more is written to its writer.
pub fn run<W: Write, V: Write>(
    alloc: Global,
    args: &[&str],
    file: Option<&[u8]>,
    out: &mut W,
    err: &mut V,
) -> u8
    ensures status { result ≤ 2 }
    ensures usage { (result ≡ 2) ↔ (IsCommandLine (arguments_at args.now) → ⊥) }

    // By cases: which status, what each writer is given, and when that is so.
    ensures ends { Ends (MaySnip (arguments_at args.now) (option_copied file.entry)) snip_end result
        (IsLentFor W.contents out.old out.new) (IsLentFor V.contents err.old err.new) }
{
    let mut lent_out = LentStream::new(out);
    let mut lent_err = LentStream::new(err);
    run_lent(alloc, args, file, &mut lent_out, &mut lent_err)
}

/// What [`run`] does, to writers that are lent for it.
fn run_lent<W: Write, V: Write>(
    alloc: Global,
    args: &[&str],
    file: Option<&[u8]>,
    out: &mut LentStream<'_, W>,
    err: &mut LentStream<'_, V>,
) -> u8
    ensures same_out { out.new.target.ghost_name ≡ out.old.target.ghost_name }
    ensures same_err { err.new.target.ghost_name ≡ err.old.target.ghost_name }
    ensures status { result ≤ 2 }
    ensures usage { (result ≡ 2) ↔ (IsCommandLine (arguments_at args.now) → ⊥) }

    // The cases of [`run`], of streams that keep whether a write failed: only then is a line cut short.
    ensures ends { Ends (MaySnip (arguments_at args.now) (option_copied file.entry)) snip_end result
        (Receives W.contents (stream_of out.old) (stream_of out.new))
        (Receives V.contents (stream_of err.old) (stream_of err.new)) }
{
    let Some(command) = command_of(args) else {
        err.write_line(USAGE);
        return MISUSED;
    };
    match report_text(alloc, args, &command, file) {
        Ok(text) => {
            if out.write_line(text.as_str()) {
                PRINTED
            } else {
                FAILED
            }
        }
        Err(failure) => {
            tell(alloc, &failure, command.file, err);
            FAILED
        }
    }
}
