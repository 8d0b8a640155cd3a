//! A run of the program: what its arguments ask for is done, and the status tells how it went.

ghost use Rattle.std.specs.Prelude.{◌≡◌, ◌≢◌, ◌⊎◌, ℕ, ◌≤◌, false, true, Some, None, List, codes, length, IfErr, IfOk};
ghost use Rattle.std.specs.Prelude.{OnOk};
ghost use Rattle.std.specs.Io.KnownBytes.{Appends};
ghost use Rattle.clap.specs.Words.{found_of, kind_of, rows_of};
ghost use Rattle.clap.specs.declared.error.kind.ErrorKind.TheVariants as kind;
ghost use Rattle.output_stream.specs.Standing.{known};
ghost use Rattle.program.specs.CommandLine.{AsksToShow};
ghost use Rattle.program.specs.Inputs.{held_by};
ghost use Rattle.program.specs.Stream.{Receives};
ghost use Rattle.replay_run.specs.Arguments.{Checks, IsCommandLine, Argument, asked, arguments_at, replay_app};
ghost use Rattle.replay_run.specs.Answered.{AnswersInputs, StopsInputs};
ghost use Rattle.replay_run.specs.Compared.{EndsComparison, count_line};
ghost use Rattle.replay_run.specs.Growth.{Grows};
ghost use Rattle.replay_run.specs.Problem.{TellsMemory, TellsStop, TellsUsageError};
ghost use Rattle.replay_run.specs.Inputs as spec;
ghost use Rattle.replay_run.specs.Inputs.{AsksAnswers, AsksComparison, Compares, IfAnswers, IfComparison, IsComparison};
ghost use Rattle.replay_run.specs.Inputs.{answers};
ghost use Rattle.replay_run.specs.declared.lines.Way.{Way};
ghost use Rattle.replay_run.specs.declared.problem.Problem.{Problem};

use crate::arguments::matches_of;
use crate::check::Counts;
use crate::command::{ReplayCommand, command_of};
use crate::inputs::{answer_inputs, check_pair, repeat_named};
use crate::lines::{AnswerForm, Way, print, print_line};
use crate::problem::Problem;
use crate::repeat::{TimedTally, print_tally};
use crate::stop::{StopAt, or_stop, tell_stop, tell_usage_error};
use clap::ArgMatches;
use output_stream::Stream;
use program::inputs::input_name;
use std::alloc::Global;
use std::io::Write;
use std::rt::{Clock, Files};

/// The status of a run that did all that was asked, and found nothing that differs.
const DONE: u8 = 0;
/// The status of a run that found cases that differ.
const DIFFERS: u8 = 1;
/// The status of a run that was stopped, or whose arguments aren't of the form.
const STOPPED: u8 = 2;

/// How standard output is called where something is told of it.
const OUTPUT: &str = "standard output";

/// Runs what the arguments ask for, and answers the status to end with.
pub fn run<'w, R: Files + Input + Clock + AllocGlobal, W: Write, V: Write>(
    rt: &R,
    args: &'w [&'w str],
    out: &mut Stream<W>,
    err: &mut Stream<V>,
) -> u8
    ensures status { result ≤ 2 }
    ensures silent { result ≤ 1 → err.new ≡ err.old }
    ensures told { result ≡ 2 → TellsUsageError (Receives V.contents err.old err.new)
        ⊎ ((name : Argument) × (problem : Problem) × TellsStop name problem (Receives V.contents err.old err.new)) }
    ensures usage { (IsCommandLine (arguments_at args.now) → ⊥) → result ≡ 2 }
    ensures no_answer { (IsCommandLine (arguments_at args.now) → ⊥) → out.new ≡ out.old }
    ensures differs { result ≡ 1 → Compares (arguments_at args.now) }
    ensures compares { result ≤ 1 → (files : List Argument) → AsksComparison (arguments_at args.now) files
        → EndsComparison R.File R.File.remaining (length files) (known W.contents out.old) (known W.contents out.new)
        result }
    ensures answers { result ≡ 0 → (way : Way) → (names : List Argument) → AsksAnswers (arguments_at args.now) way names
        → AnswersInputs R.File R.Reader (held_by R.File.remaining R.Reader.remaining) way false names
        (known W.contents out.old) (known W.contents out.new) }
    ensures stops { result ≡ 2 → (way : Way) → (names : List Argument) → AsksAnswers (arguments_at args.now) way names
        → ((out.new ≡ out.old) × TellsMemory (Receives V.contents err.old err.new))
        ⊎ ((name : Argument) × (problem : Problem) × TellsStop name problem (Receives V.contents err.old err.new)
        × StopsInputs R.File R.Reader (held_by R.File.remaining R.Reader.remaining) way names
        (known W.contents out.old) (known W.contents out.new) name problem) }
    ensures help { result ≡ 0 → AsksToShow replay_app (arguments_at args.now)
        → Grows (known W.contents out.old) (known W.contents out.new) }
{
    match matches_of(rt.alloc(), args) {
        Ok(matches) => run_matched(rt, args, &matches, out, err),
        Err(error) => answer_error(rt.alloc(), args, &error, out, err),
    }
}

/// Runs what the arguments ask for, by what they are matched with.
fn run_matched<R: Files + Input + Clock + AllocGlobal, W: Write, V: Write>(
    rt: &R,
    args: &[&str],
    matches: &ArgMatches<'_>,
    out: &mut Stream<W>,
    err: &mut Stream<V>,
) -> u8
    ensures status { result ≤ 2 }
    ensures silent { result ≤ 1 → err.new ≡ err.old }
    ensures told { result ≡ 2 → TellsUsageError (Receives V.contents err.old err.new)
        ⊎ ((name : Argument) × (problem : Problem) × TellsStop name problem (Receives V.contents err.old err.new)) }
    ensures usage { asked (rows_of (found_of matches.now)) ≡ None → (result ≡ 2) × (out.new ≡ out.old) }
    ensures differs { result ≡ 1 → (files : List Argument)
        × (asked (rows_of (found_of matches.now)) ≡ Some (Checks files)) }
    ensures compares { result ≤ 1 → (files : List Argument)
        → asked (rows_of (found_of matches.now)) ≡ Some (Checks files)
        → EndsComparison R.File R.File.remaining (length files) (known W.contents out.old) (known W.contents out.new)
        result }
    ensures answers { result ≡ 0 → (way : Way) → (names : List Argument)
        → asked (rows_of (found_of matches.now)) ≡ Some (answers way names)
        → AnswersInputs R.File R.Reader (held_by R.File.remaining R.Reader.remaining) way false names
        (known W.contents out.old) (known W.contents out.new) }
    ensures stops { result ≡ 2 → (way : Way) → (names : List Argument)
        → asked (rows_of (found_of matches.now)) ≡ Some (answers way names)
        → ((out.new ≡ out.old) × TellsMemory (Receives V.contents err.old err.new))
        ⊎ ((name : Argument) × (problem : Problem) × TellsStop name problem (Receives V.contents err.old err.new)
        × StopsInputs R.File R.Reader (held_by R.File.remaining R.Reader.remaining) way names
        (known W.contents out.old) (known W.contents out.new) name problem) }
{
    match command_of(rt.alloc(), matches) {
        Ok(command) => match finish(rt, &command, out) {
            Ok(status) => status,
            Err(stop) => {
                tell_stop(rt.alloc(), &stop, err);
                STOPPED
            }
        },
        Err(error) => {
            tell_usage_error(rt.alloc(), args, &error, err);
            STOPPED
        }
    }
}

/// Writes the help or the version, or what is wrong with the arguments.
fn answer_error<W: Write, V: Write>(
    alloc: Global,
    args: &[&str],
    error: &clap::Error,
    out: &mut Stream<W>,
    err: &mut Stream<V>,
) -> u8
    ensures status { (result ≡ 0) ⊎ (result ≡ 2) }
    ensures silent { result ≡ 0 → err.new ≡ err.old }
    ensures told { result ≡ 2 → TellsUsageError (Receives V.contents err.old err.new)
        ⊎ ((name : Argument) × (problem : Problem) × TellsStop name problem (Receives V.contents err.old err.new)) }
    ensures usage { kind_of error.now ≢ kind.DisplayHelp → kind_of error.now ≢ kind.DisplayVersion
        → (result ≡ 2) × (out.new ≡ out.old) }
    ensures memory { kind_of error.now ≡ kind.OutOfMemory → TellsMemory (Receives V.contents err.old err.new) }
    ensures shown { result ≡ 0 → Grows (known W.contents out.old) (known W.contents out.new) }
{
    if error.use_stderr() {
        tell_usage_error(alloc, args, error, err);
        return STOPPED;
    }
    match show(alloc, error, out) {
        Ok(()) => DONE,
        Err(problem) => {
            let stop = StopAt {
                file: OUTPUT,
                problem,
            };
            tell_stop(alloc, &stop, err);
            STOPPED
        }
    }
}

/// Writes the help or the version.
#[tactic(auto, using(crate::proofs::Growing::grows_flushed, crate::proofs::Growing::grows_appended))]
fn show<W: Write>(alloc: Global, error: &clap::Error, out: &mut Stream<W>) -> Result<(), Problem>
    ensures grows { OnOk result (Grows (known W.contents out.old) (known W.contents out.new)) }
{
    let text = format!(in alloc; "{error}")?;
    print(text.as_str().as_bytes(), out)?;
    match out.flush() {
        Ok(()) => Ok(()),
        Err(error) => Err(Problem::Write(error)),
    }
}

/// Does what the command asks for, and sees to it that all of it is written.
fn finish<'a, R: Files + Input + Clock + AllocGlobal, W: Write>(
    rt: &R,
    command: &ReplayCommand<'_, 'a>,
    out: &mut Stream<W>,
) -> Result<u8, StopAt<'a>>
    ensures status { IfOk result (λ status. status ≤ 1) }
    ensures differs { IfOk result (λ status. status ≡ 1 → IsComparison command.now) }
    ensures compares { IfOk result (λ status. IfComparison command.now (λ files.
        EndsComparison R.File R.File.remaining (length files) (known W.contents out.old) (known W.contents out.new)
        status)) }
    ensures answers { OnOk result (IfAnswers command.now (λ way names.
        AnswersInputs R.File R.Reader (held_by R.File.remaining R.Reader.remaining) way false names
        (known W.contents out.old) (known W.contents out.new))) }
    ensures stops { IfErr result (λ stop. IfAnswers command.now (λ way names.
        StopsInputs R.File R.Reader (held_by R.File.remaining R.Reader.remaining) way names
        (known W.contents out.old) (known W.contents out.new) stop.file.now stop.problem)) }
{
    match do_command(rt, command, out) {
        Ok(status) => match out.flush() {
            Ok(()) => Ok(status),
            Err(error) => Err(StopAt {
                file: OUTPUT,
                problem: Problem::Write(error),
            }),
        },
        Err(stop) => {
            let _ = out.flush();
            Err(stop)
        }
    }
}

/// Does what the command asks for, and answers the status that tells what was found.
fn do_command<'a, R: Files + Input + Clock + AllocGlobal, W: Write>(
    rt: &R,
    command: &ReplayCommand<'_, 'a>,
    out: &mut Stream<W>,
) -> Result<u8, StopAt<'a>>
    ensures status { IfOk result (λ status. status ≤ 1) }
    ensures differs { IfOk result (λ status. status ≡ 1 → IsComparison command.now) }
    ensures compares { IfOk result (λ status. IfComparison command.now (λ files.
        EndsComparison R.File R.File.remaining (length files) (known W.contents out.old) (known W.contents out.new)
        status)) }
    ensures answers { OnOk result (IfAnswers command.now (λ way names.
        AnswersInputs R.File R.Reader (held_by R.File.remaining R.Reader.remaining) way false names
        (known W.contents out.old) (known W.contents out.new))) }
    ensures stops { IfErr result (λ stop. IfAnswers command.now (λ way names.
        StopsInputs R.File R.Reader (held_by R.File.remaining R.Reader.remaining) way names
        (known W.contents out.old) (known W.contents out.new) stop.file.now stop.problem)) }
{
    match *command {
        ReplayCommand::Answer {
            texts,
            keep_going,
            inputs,
        } => answer(rt, way_of(texts, keep_going), inputs, out),
        ReplayCommand::Check { files } => check(rt, files, out),
        ReplayCommand::Repeat { times, inputs } => repeat(rt, times, inputs, out),
    }
}

/// How lines are answered, by whether that is as texts, and whether a line that is no case is answered too.
fn way_of(texts: bool, keep_going: bool) -> Way
    ensures value { result ≡ spec.way_of texts keep_going }
{
    let form = if texts {
        AnswerForm::Texts
    } else {
        AnswerForm::Json
    };
    Way { form, keep_going }
}

/// Answers the cases of the inputs.
fn answer<'a, R: Files + Input + AllocGlobal, W: Write>(
    rt: &R,
    way: Way,
    names: &[&'a str],
    out: &mut Stream<W>,
) -> Result<u8, StopAt<'a>>
    ensures status { IfOk result (λ status. status ≡ 0) }
    ensures answers { OnOk result (AnswersInputs R.File R.Reader (held_by R.File.remaining R.Reader.remaining)
        way false (arguments_at names.now) (known W.contents out.old) (known W.contents out.new)) }
    ensures stops { IfErr result (λ stop. StopsInputs R.File R.Reader (held_by R.File.remaining R.Reader.remaining)
        way (arguments_at names.now) (known W.contents out.old) (known W.contents out.new) stop.file.now stop.problem) }
{
    match answer_inputs(rt, way, names, out) {
        Ok(told) => ended(told),
        Err(stop) => Err(stop),
    }
}

/// The status where all lines are answered: it is problem if one of the answers tells that its line is no case.
fn ended<'a>(told: bool) -> Result<u8, StopAt<'a>>
    ensures status { IfOk result (λ status. status ≡ 0) }
    ensures cases { OnOk result (told ≡ false) }
    ensures stops { IfErr result (λ stop. told ≡ true × (stop.problem ≡ Problem.NotCases)
        × (stop.file.now ≡ codes "standard output")) }
{
    if told {
        Err(StopAt {
            file: OUTPUT,
            problem: Problem::NotCases,
        })
    } else {
        Ok(DONE)
    }
}

/// Compares each pair of files, and prints the counts.
fn check<'a, R: Files + AllocGlobal, W: Write>(
    rt: &R,
    files: &[&'a str],
    out: &mut Stream<W>,
) -> Result<u8, StopAt<'a>>
    ensures status { IfOk result (λ status. status ≤ 1) }
    ensures ends { IfOk result (λ status.
        EndsComparison R.File R.File.remaining (length files.now) (known W.contents out.old) (known W.contents out.new)
        status) }
{
    let mut counts = Counts::NONE;
    for pair in 0..files.len() / 2 {
        let (expected, cases) = (files[2 * pair], files[2 * pair + 1]);
        match check_pair(rt, expected, cases, out) {
            Ok(more) => counts = counts.plus(more),
            Err(problem) => {
                return Err(StopAt {
                    file: cases,
                    problem,
                });
            }
        }
    }
    or_stop(OUTPUT, print_counts(rt.alloc(), counts, out))?;
    Ok(if counts.failed == 0 { DONE } else { DIFFERS })
}

/// Prints the line that tells the counts.
fn print_counts<W: Write>(alloc: Global, counts: Counts, out: &mut Stream<W>) -> Result<(), Problem>
    ensures line { OnOk result
        (Appends (known W.contents out.old).held (known W.contents out.new).held (count_line counts)) }
{
    let Counts { passed, failed } = counts;
    let line = format!(in alloc; "{passed} passed, {failed} failed")?;
    print_line(line.as_str(), out)
}

/// Draws each case of the inputs this many times, and prints how long it took.
fn repeat<'a, R: Files + Input + Clock + AllocGlobal, W: Write>(
    rt: &R,
    times: usize,
    names: &[&'a str],
    out: &mut Stream<W>,
) -> Result<u8, StopAt<'a>>
    ensures status { IfOk result (λ status. status ≡ 0) }
{
    let mut tally = TimedTally::default();
    for name in names {
        or_stop(input_name(*name), repeat_named(rt, times, name, &mut tally))?;
    }
    or_stop(OUTPUT, print_tally(rt.alloc(), &tally, out))?;
    Ok(DONE)
}
