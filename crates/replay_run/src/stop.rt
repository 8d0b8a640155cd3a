//! What stops a run, and what is told of it and of wrong arguments.

ghost use Rattle.std.specs.Prelude.{◌≡◌, ℕ, List, IfOk, IsErr, string_bytes};
ghost use Rattle.clap.specs.Words.{kind_of};
ghost use Rattle.program.specs.Stream.{Receives};
ghost use Rattle.replay_run.specs.Problem as spec;
ghost use Rattle.replay_run.specs.Problem.{TellsMemory, TellsStop, TellsUsageError, stop_text};

use crate::arguments::matches_of;
use crate::command::command_of;
use crate::problem::{Problem, words_of};
use annotate_snippets::text::normalize_untrusted_str;
use clap::error::ErrorKind;
use output_stream::Stream;
use program::input::texts_lent;
use program::line::write_line;
use program::message::{lines_of, message_text};
use std::alloc::{AllocError, Global};
use std::io::Write;

/// What is told where there is no memory to tell more.
const OUT_OF_MEMORY: &str = "replay: out of memory";

/// What stopped a run, and what was read or written then, as it is called.
#[derive(Drop)]
pub struct StopAt<'a> {
    pub file: &'a str,
    pub problem: Problem,
}

/// What was tried with what is called so; problem with it stops the run.
pub fn or_stop<'a, T>(file: &'a str, tried: Result<T, Problem>) -> Result<T, StopAt<'a>>
    ensures done { IfOk result (λ done. tried ≡ Ok done) }
{
    match tried {
        Ok(done) => Ok(done),
        Err(problem) => Err(StopAt { file, problem }),
    }
}

/// Tells what stopped a run, or that there was no memory for that.
pub fn tell_stop<V: Write>(alloc: Global, stop: &StopAt<'_>, err: &mut Stream<V>)
    ensures told { TellsStop stop.now.file.now stop.now.problem (Receives V.contents err.old err.new) }
{
    match stop_message(alloc, stop) {
        Ok(message) => write_line(message.as_str(), err),
        Err(AllocError) => write_line(OUT_OF_MEMORY, err),
    };
}

/// What is told of what stopped a run.
fn stop_message(alloc: Global, stop: &StopAt<'_>) -> Result<String, AllocError>
    ensures message { IfOk result (λ text. (said : List ℕ)
        × (string_bytes text ≡ spec.message_text (stop_text stop.now.file.now stop.now.problem said))) }
{
    let file = stop.file;
    let words = words_of(alloc, &stop.problem)?;
    let message = format!(in alloc; "replay: {file}: {words}")?;
    message_text(alloc, message.as_str())
}

/// Tells what is wrong with these arguments, or that there was no memory for that. They are quoted there on one line
/// each.
pub fn tell_usage_error<V: Write>(
    alloc: Global,
    args: &[&str],
    error: &clap::Error,
    err: &mut Stream<V>,
)
    ensures told { TellsUsageError (Receives V.contents err.old err.new) }
    ensures memory { kind_of error.now ≡ ErrorKind.OutOfMemory → TellsMemory (Receives V.contents err.old err.new) }
{
    match shown_error(alloc, args, error) {
        Ok(text) => write_line(text.as_str(), err),
        Err(AllocError) => write_line(OUT_OF_MEMORY, err),
    };
}

/// What is wrong with the arguments, as it may be shown, without the line's end; unless that is that there was no
/// memory to match them.
fn shown_error(alloc: Global, args: &[&str], error: &clap::Error) -> Result<String, AllocError>
    ensures shown { IfOk result (λ text. (said : List ℕ) × (string_bytes text ≡ spec.normalized_text said)) }
    ensures memory { kind_of error.now ≡ ErrorKind.OutOfMemory → IsErr result }
{
    if let ErrorKind::OutOfMemory = error.kind() {
        return Err(AllocError);
    }
    let message = quoting_lines(alloc, args, error)?;
    normalize_untrusted_str(alloc, message.as_str().trim_end_matches('\n'))
}

/// What is wrong with these arguments, which are quoted with their line feeds shown: it is what is wrong with arguments
/// that have these pictures in place of line feeds. No name of an option has either, so what is wrong is the same.
fn quoting_lines(alloc: Global, args: &[&str], error: &clap::Error) -> Result<String, AllocError> {
    let lines = lines_of(alloc, args)?;
    let shown = texts_lent(alloc, &lines)?;
    match usage_error(alloc, &shown) {
        Some(told) => told_or(alloc, &told, error),
        None => format!(in alloc; "{error}"),
    }
}

/// An error as it is told; another one, where there was no memory for it.
fn told_or(
    alloc: Global,
    told: &clap::Error,
    otherwise: &clap::Error,
) -> Result<String, AllocError> {
    if told.kind() == ErrorKind::OutOfMemory {
        format!(in alloc; "{otherwise}")
    } else {
        format!(in alloc; "{told}")
    }
}

/// What is wrong with arguments, if anything is.
fn usage_error(alloc: Global, args: &[&str]) -> Option<clap::Error> {
    match matches_of(alloc, args) {
        Ok(matches) => command_of(alloc, &matches).err(),
        Err(error) => Some(error),
    }
}
