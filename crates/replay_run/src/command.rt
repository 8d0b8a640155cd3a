//! What matched arguments ask for.

ghost use Rattle.std.specs.Prelude.{◌≡◌, ◌≢◌, ◌⊎◌, Some, None, IfErr, IfOk, option_map};
ghost use Rattle.clap.specs.Words.{found_of, kind_of, rows_of};
ghost use Rattle.clap.specs.declared.error.kind.ErrorKind.TheVariants as kind;
ghost use Rattle.replay_run.specs.Arguments as spec;
ghost use Rattle.replay_run.specs.Arguments.{files_in, task_in, task_of, arguments_at};

use crate::usage_error::{UsageError, error_of};
use clap::{ArgMatches, Error};
use program::command_line::was_given;
use program::number::number_of;
use std::alloc::Global;

/// What a command line asks for. Inputs are files, or standard input by the name `-`.
#[derive(Clone, Copy)]
pub enum ReplayCommand<'w, 'a> {
    /// Answers the cases of these inputs.
    Answer {
        /// As texts, and not as JSON.
        texts: bool,
        /// A line that is no case is answered by what is wrong with it.
        keep_going: bool,
        inputs: &'w [&'a str],
    },
    /// Compares: each file of expected answers, and after it the file of its cases.
    Check {
        files: &'w [&'a str],
    },
    /// Draws each case of these inputs this many times.
    Repeat {
        times: usize,
        inputs: &'w [&'a str],
    },
}

/// The command that matched arguments ask for, or what is wrong with it.
pub fn command_of<'w, 'a>(
    alloc: Global,
    matches: &'w ArgMatches<'a>,
) -> Result<ReplayCommand<'w, 'a>, Error>
    ensures command { IfOk result (λ command. spec.asked (rows_of (found_of matches.now)) ≡ Some (task_of command)) }
    ensures none { IfErr result (λ error. (spec.asked (rows_of (found_of matches.now)) ≡ None)
        ⊎ (kind_of error ≡ kind.OutOfMemory)) }
    ensures mistake { IfErr result (λ error.
        (kind_of error ≢ kind.DisplayHelp) × (kind_of error ≢ kind.DisplayVersion)) }
{
    match asked(matches) {
        Ok(command) => Ok(command),
        Err(usage_error) => Err(error_of(alloc, &usage_error)),
    }
}

/// The command, or what is wrong, before it is told.
fn asked<'w, 'a>(matches: &'w ArgMatches<'a>) -> Result<ReplayCommand<'w, 'a>, UsageError<'a>>
    ensures value { task_in result ≡ spec.asked (rows_of (found_of matches.now)) }
{
    let texts = was_given(matches, "text");
    let keep_going = was_given(matches, "keep-going");
    let repeat = matches.get_str("repeat");
    let files = files_of(matches);
    if was_given(matches, "check") {
        check_of(texts, keep_going, repeat, files)
    } else {
        draw_of(texts, keep_going, repeat, files)
    }
}

/// The files that were named, or else standard input.
fn files_of<'w, 'a>(matches: &'w ArgMatches<'a>) -> &'w [&'a str]
    ensures value { arguments_at result.now ≡ files_in (rows_of (found_of matches.now)) }
{
    matches.get_strs("files").unwrap_or_default()
}

/// The command that compares these files, beside these other options.
fn check_of<'w, 'a>(
    texts: bool,
    keep_going: bool,
    repeat: Option<&'a str>,
    files: &'w [&'a str],
) -> Result<ReplayCommand<'w, 'a>, UsageError<'a>>
    ensures value { task_in result ≡ spec.asked_to_check texts keep_going (option_map (λ n. n.now) repeat.entry)
        (arguments_at files.now) }
{
    if texts {
        Err(UsageError::Together("--check", "--text"))
    } else if keep_going {
        Err(UsageError::Together("--check", "--keep-going"))
    } else if repeat.is_some() {
        Err(UsageError::Together("--check", "--repeat <N>"))
    } else if are_pairs(files) {
        Ok(ReplayCommand::Check { files })
    } else {
        Err(UsageError::NoPair)
    }
}

/// Whether there is one pair or more.
fn are_pairs(files: &[&str]) -> bool
    ensures value { result ≡ spec.are_pairs (arguments_at files.now) }
{
    !files.is_empty() && files.len() % 2 == 0
}

/// The command that draws the cases of these inputs.
fn draw_of<'w, 'a>(
    texts: bool,
    keep_going: bool,
    repeat: Option<&'a str>,
    inputs: &'w [&'a str],
) -> Result<ReplayCommand<'w, 'a>, UsageError<'a>>
    ensures value { task_in result ≡ spec.asked_to_draw texts keep_going (option_map (λ n. n.now) repeat.entry)
        (arguments_at inputs.now) }
{
    match repeat {
        Some(argument) => repeat_of(texts, keep_going, argument, inputs),
        None => Ok(ReplayCommand::Answer {
            texts,
            keep_going,
            inputs,
        }),
    }
}

/// The command that draws each case as often as this argument says.
fn repeat_of<'w, 'a>(
    texts: bool,
    keep_going: bool,
    argument: &'a str,
    inputs: &'w [&'a str],
) -> Result<ReplayCommand<'w, 'a>, UsageError<'a>>
    ensures value { task_in result ≡ spec.asked_to_repeat texts keep_going argument.now (arguments_at inputs.now) }
{
    if texts {
        return Err(UsageError::Together("--repeat <N>", "--text"));
    }
    if keep_going {
        return Err(UsageError::Together("--repeat <N>", "--keep-going"));
    }
    match number_of(argument) {
        Some(times) => Ok(ReplayCommand::Repeat { times, inputs }),
        None => Err(UsageError::NotNumber(argument)),
    }
}
