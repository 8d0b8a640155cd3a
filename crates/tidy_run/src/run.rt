//! A run of the program, over the bytes of a file and three writers.
ghost use Rattle.std.specs.Prelude.{◌≡◌, ◌≢◌, ◌≤◌, ◌⊎◌, [], None, IsOk, IfErr, IfOk, IfSome, IsSomeAnd, length, map};
ghost use Rattle.std.specs.Prelude.{string_bytes};
ghost use Rattle.std.specs.List.{AllZip, flat_map};
ghost use Rattle.std.specs.Option.{option_copied};
ghost use Rattle.annotate_snippets.specs.Fault.{IsWithinBounds};
ghost use Rattle.annotate_snippets.specs.Fits.{TextFits};
ghost use Rattle.annotate_snippets.specs.Laws.Forms.{HasLaws};
ghost use Rattle.annotate_snippets.specs.Forms.{TextsShown};
ghost use Rattle.program.specs.Lent.{IsLentFor, stream_of};
ghost use Rattle.program.specs.Stream.{Receives, Told};
ghost use Rattle.tidy_run.specs.Findings.{findings_of};
ghost use Rattle.tidy_run.specs.Report.{tidy_settings, told_of};
ghost use Rattle.tidy_run.specs.Run.{AreTextsOf, Becomes, Reads, TidyEnds, TidyFails, sheets_for, tidy_message};
ghost use Rattle.tidy_run.specs.Arguments.{command_line_of, said, arguments_at};

use crate::arguments::{TidyCommand, command_of};
use crate::lint::lint;
use crate::report::report;
use crate::rule::Rule;
use annotate_snippets::renderer::RenderError;
use annotate_snippets::renderer::style::Stylesheet;
use annotate_snippets::text::text_fits;
use annotate_snippets::{Group, Renderer};
use program::lent::LentStream;
use program::message::cannot;
use program::source::source_of;
use std::alloc::{AllocError, Global};
use std::io::Write;

/// How the arguments are to be written.
const USAGE: &str = "usage: tidy [--log LOG] FILE";

/// What is told where there is no memory to tell more.
const OUT_OF_MEMORY: &str = "tidy: out of memory";

/// The status of a run in which no rule found anything.
const CLEAN: u8 = 0;
/// The status of a run that printed what the rules found.
const FOUND: u8 = 1;
/// The status of a run that could do neither.
const FAILED: u8 = 2;

/// Why a command's texts aren't written.
#[derive(Clone, Copy, Debug, PartialEq, Eq)]
enum TidyFailure<'a> {
    /// The file of this name holds no text that can be looked through, or its name is too long.
    Unreadable(&'a str),
    /// LOG of this name couldn't be written.
    Unwritable(&'a str),
    /// A growth of memory was refused.
    Memory,
}

/// The texts of a report within bounds, one under each sheet; none where there are no groups.
fn drawn(
    alloc: Global,
    groups: &Vec<Group<'_>>,
    sheets: &[Stylesheet],
) -> Result<Vec<String>, AllocError>
    requires bounds { IsWithinBounds tidy_settings groups.now.items }
    ensures none { groups.now.items ≡ [] → IfOk result (λ texts. texts.items ≡ []) }
    ensures shows { groups.now.items ≢ [] → IfOk result (λ texts.
        TextsShown tidy_settings groups.now.items sheets.now (map string_bytes texts.items)) }
    ensures laws { groups.now.items ≢ [] → IfOk result (λ texts.
        AllZip (HasLaws tidy_settings groups.now.items) sheets.now (map string_bytes texts.items)) }
{
    if groups.is_empty() {
        return Ok(Vec::new(alloc));
    }
    let renderer = Renderer::plain().show_line_feeds(true);
    match renderer.render_sheets(alloc, groups, sheets) {
        Ok(texts) => Ok(texts),
        Err(RenderError::Memory(error)) => Err(error),
        Err(_) => unreachable!(),
    }
}

/// The texts that show what rules find in a file, one under each sheet; none where they find nothing.
fn rendered<'a>(
    alloc: Global,
    rules: &[Box<dyn Rule>],
    path: &'a str,
    source: &'a str,
    sheets: &[Stylesheet],
) -> Result<Vec<String>, AllocError>
    requires path { TextFits path.now }
    requires source { TextFits source.now }
    ensures shows { IfOk result (λ texts. AreTextsOf path.now source.now
        (flat_map (λ rule. told_of (title_of rule) (findings_of (finds rule source.now) source.now)) rules.now)
        sheets.now (map string_bytes texts.items)) }
{
    let findings = lint(alloc, rules, source)?;
    let groups = report(alloc, rules, path, source, &findings)?;
    drawn(alloc, &groups, sheets)
}

/// The texts of what rules find in a file under the sheets that the command asks for: with LOG there are two.
fn rendered_for<'a>(
    alloc: Global,
    rules: &[Box<dyn Rule>],
    command: &TidyCommand<'a>,
    source: &'a str,
) -> Result<Vec<String>, AllocError>
    requires path { TextFits command.now.file.now }
    requires source { TextFits source.now }
    ensures shows { IfOk result (λ texts. AreTextsOf command.now.file.now source.now
        (flat_map (λ rule. told_of (title_of rule) (findings_of (finds rule source.now) source.now)) rules.now)
        (sheets_for (said command.now).log) (map string_bytes texts.items)) }
{
    match command.log {
        Some(_) => {
            let sheets = [Stylesheet::styled(), Stylesheet::plain()];
            rendered(alloc, rules, command.file, source, &sheets)
        }
        None => rendered(alloc, rules, command.file, source, &[Stylesheet::plain()]),
    }
}

/// The texts that the command asks for.
fn texts_of<'a>(
    alloc: Global,
    rules: &[Box<dyn Rule>],
    command: &TidyCommand<'a>,
    file: Option<&'a [u8]>,
) -> Result<Vec<String>, TidyFailure<'a>>
    ensures read { IsOk result → IsSomeAnd (option_copied file.entry)
        (Reads (said command.now) (option_copied file.entry)) }
    ensures shows { IfOk result (λ texts. IfSome (option_copied file.entry) (λ source.
        AreTextsOf command.now.file.now source
        (flat_map (λ rule. told_of (title_of rule) (findings_of (finds rule source) source)) rules.now)
        (sheets_for (said command.now).log) (map string_bytes texts.items))) }
    ensures fails { IfErr result (TidyFails (said command.now) (option_copied file.entry)) }
{
    let Some(source) = source_of(file) else {
        return Err(TidyFailure::Unreadable(command.file));
    };
    if !text_fits(command.file) {
        return Err(TidyFailure::Unreadable(command.file));
    }
    match rendered_for(alloc, rules, command, source) {
        Ok(texts) => Ok(texts),
        Err(AllocError) => Err(TidyFailure::Memory),
    }
}

/// What became of a command's texts.
#[derive(Clone, Copy, Debug, PartialEq, Eq)]
enum WriteOutcome<'a> {
    /// There are none.
    Nothing,
    /// They were written.
    All,
    /// LOG of this name couldn't be written, and nothing was printed.
    Unlogged(&'a str),
    /// What was to be printed couldn't be.
    Unprinted,
}

/// Writes a command's texts: the last to LOG where there is one, and then the first to `out`.
fn write_texts<'a, W: Write, L: Write>(
    command: &TidyCommand<'a>,
    texts: &[String],
    out: &mut LentStream<'_, W>,
    log: &mut LentStream<'_, L>,
) -> WriteOutcome<'a>
    requires count { (texts.now ≡ []) ⊎ (length texts.now ≡ length (sheets_for (said command.now).log)) }
    ensures same_out { out.new.target.ghost_name ≡ out.old.target.ghost_name }
    ensures same_log { log.new.target.ghost_name ≡ log.old.target.ghost_name }
    ensures written { Becomes result (said command.now).log (map string_bytes texts.now)
        (Receives W.contents (stream_of out.old) (stream_of out.new))
        (Receives L.contents (stream_of log.old) (stream_of log.new)) }
{
    let (Some(shown), Some(plain)) = (texts.first(), texts.last()) else {
        return WriteOutcome::Nothing;
    };
    if let Some(name) = command.log {
        if !log.write_line(plain.as_str()) {
            return WriteOutcome::Unlogged(name);
        }
    }
    if out.write_line(shown.as_str()) {
        WriteOutcome::All
    } else {
        WriteOutcome::Unprinted
    }
}

/// What is told of a failure.
fn message_of(alloc: Global, failure: TidyFailure<'_>) -> Result<String, AllocError>
    ensures message { IfOk result (λ text. string_bytes text ≡ tidy_message failure.entry) }
{
    match failure {
        TidyFailure::Unreadable(name) => cannot(alloc, "tidy", "read", name),
        TidyFailure::Unwritable(name) => cannot(alloc, "tidy", "write", name),
        TidyFailure::Memory => Err(AllocError),
    }
}

/// Tells a failure, or that there was no memory for that.
fn tell<V: Write>(alloc: Global, failure: TidyFailure<'_>, err: &mut LentStream<'_, V>)
    ensures same_reference { err.new.target.ghost_name ≡ err.old.target.ghost_name }
    ensures told { Receives V.contents (stream_of err.old) (stream_of err.new) (Told (tidy_message failure.entry))
        ⊎ Receives V.contents (stream_of err.old) (stream_of err.new) (Told (tidy_message TidyFailure.Memory)) }
{
    match message_of(alloc, failure) {
        Ok(message) => err.write_line(message.as_str()),
        Err(AllocError) => err.write_line(OUT_OF_MEMORY),
    };
}

/// Looks through a file by rules and prints what they find, as the arguments ask for, and answers the status to end
/// with.
///
/// `file` is what FILE holds, or `None` where it can't be read. The status is 0 where the rules find nothing, 1 where
/// what they find was printed, else 2. With LOG the report is printed in colours, once it stands in LOG without. What
/// is written to LOG goes to `log`, which isn't written to where the arguments name none, and what went wrong is told
/// to `err`. No writer is flushed.
///
/// | Status | `out` | `log` | `err` |
/// |---|---|---|---|
/// | 0 | as it was | as it was | as it was |
/// | 1 | the report and a line feed more | with LOG the report and a line feed more | as it was |
/// | 2, the arguments, or what was in the way of the report | as it was | as it was | a message and a line feed more |
/// | 2, a write to LOG failed | as it was | a first part of the report more | the same |
/// | 2, a write of the report failed | a first part of it more | with LOG the report and a line feed more | as it was |
///
/// A message that couldn't be written stands there by a first part of it, and only where a write failed. Once one has
/// failed nothing more is written to its writer.
pub fn run<W: Write, V: Write, L: Write>(
    alloc: Global,
    rules: &[Box<dyn Rule>],
    args: &[&str],
    file: Option<&[u8]>,
    out: &mut W,
    err: &mut V,
    log: &mut L,
) -> u8
    ensures status { result ≤ 2 }
    ensures usage { command_line_of (arguments_at args.now) ≡ None → result ≡ 2 }

    // By cases: which status, what each writer is given, and when that is so.
    ensures ends { TidyEnds (arguments_at args.now) (option_copied file.entry)
        (λ source. flat_map (λ rule. told_of (title_of rule) (findings_of (finds rule source) source)) rules.now) result
        (IsLentFor W.contents out.old out.new) (IsLentFor V.contents err.old err.new)
        (IsLentFor L.contents log.old log.new) }
{
    let mut lent_out = LentStream::new(out);
    let mut lent_err = LentStream::new(err);
    let mut lent_log = LentStream::new(log);
    run_lent(
        alloc,
        rules,
        args,
        file,
        &mut lent_out,
        &mut lent_err,
        &mut lent_log,
    )
}

/// What [`run`] does, to writers that are lent for it.
fn run_lent<W: Write, V: Write, L: Write>(
    alloc: Global,
    rules: &[Box<dyn Rule>],
    args: &[&str],
    file: Option<&[u8]>,
    out: &mut LentStream<'_, W>,
    err: &mut LentStream<'_, V>,
    log: &mut LentStream<'_, L>,
) -> u8
    ensures same_out { out.new.target.ghost_name ≡ out.old.target.ghost_name }
    ensures same_err { err.new.target.ghost_name ≡ err.old.target.ghost_name }
    ensures same_log { log.new.target.ghost_name ≡ log.old.target.ghost_name }
    ensures status { result ≤ 2 }
    ensures usage { command_line_of (arguments_at args.now) ≡ None → result ≡ 2 }

    // The cases of [`run`], of streams that keep whether a write failed: only then is a line cut short.
    ensures ends { TidyEnds (arguments_at args.now) (option_copied file.entry)
        (λ source. flat_map (λ rule. told_of (title_of rule) (findings_of (finds rule source) source)) rules.now) result
        (Receives W.contents (stream_of out.old) (stream_of out.new))
        (Receives V.contents (stream_of err.old) (stream_of err.new))
        (Receives L.contents (stream_of log.old) (stream_of log.new)) }
{
    let Some(command) = command_of(args) else {
        err.write_line(USAGE);
        return FAILED;
    };
    let texts = match texts_of(alloc, rules, &command, file) {
        Ok(texts) => texts,
        Err(failure) => {
            tell(alloc, failure, err);
            return FAILED;
        }
    };
    match write_texts(&command, &texts, out, log) {
        WriteOutcome::Nothing => CLEAN,
        WriteOutcome::All => FOUND,
        WriteOutcome::Unlogged(name) => {
            tell(alloc, TidyFailure::Unwritable(name), err);
            FAILED
        }
        WriteOutcome::Unprinted => FAILED,
    }
}
