//! Messages to the user.
ghost use Rattle.std.specs.Prelude.{◌≡◌, ℕ, List, IfOk, string_bytes};
ghost use Rattle.output_stream.specs.Standing.{known};
ghost use Rattle.redraw_command.specs.Told as spec;
ghost use Rattle.redraw_command.specs.Told.{Tells, TellsMemory, TellsOfArguments};
ghost use Rattle.std.specs.Prelude.{IsErr};
ghost use Rattle.clap.specs.Words.{kind_of};

use crate::arguments::matches_of;
use crate::unheeded::apart;
use clap::error::ErrorKind;
use output_stream::Stream;
use program::input::texts_lent;
use program::line::write_line;
use program::message::{lines_of, message_text};
use snippet_text::normalize_untrusted_str;
use std::alloc::{AllocError, Global};
use std::fmt;
use std::io::Write;

/// What is told where there is no memory to tell more.
const OUT_OF_MEMORY: &str = "redraw: out of memory";

/// Writes a message on one line, with nothing in it that could change how a terminal shows it, and that GitHub could
/// take for the start of a command.
pub fn tell<D: fmt::Display + Drop, V: Write>(alloc: Global, message: D, err: &mut Stream<V>)
    ensures told { Tells (known V.contents err.old) (known V.contents err.new) }
{
    match shown(alloc, message) {
        Ok(text) => {
            write_line(text.as_str(), err);
        }
        Err(AllocError) => tell_memory(err),
    }
}

/// Tells that there is no memory to tell more.
pub fn tell_memory<V: Write>(err: &mut Stream<V>)
    ensures told { TellsMemory (known V.contents err.old) (known V.contents err.new) }
{
    write_line(OUT_OF_MEMORY, err);
}

/// A message as it may be shown.
fn shown<D: fmt::Display + Drop>(alloc: Global, message: D) -> Result<String, AllocError>
    ensures message { IfOk result (λ text. (said : List ℕ) × (string_bytes text ≡ spec.told_line said)) }
{
    let said = format!(in alloc; "{message}")?;
    let said = message_text(alloc, said.as_str())?;
    let said = apart(alloc, said.as_str())?;
    format!(in alloc; "redraw: {said}")
}

/// Writes what is wrong with these arguments. They are quoted there on one line each.
pub fn tell_error<V: Write>(alloc: Global, args: &[&str], error: &clap::Error, err: &mut Stream<V>)
    ensures told { TellsOfArguments (known V.contents err.old) (known V.contents err.new) }
    ensures memory { kind_of error.now ≡ ErrorKind.OutOfMemory
        → TellsMemory (known V.contents err.old) (known V.contents err.new) }
{
    match shown_error(alloc, args, error) {
        Ok(text) => {
            write_line(text.as_str(), err);
        }
        Err(AllocError) => tell_memory(err),
    }
}

/// What is wrong with arguments, as it may be shown, without the line's end; unless there was no memory to read them.
fn shown_error(alloc: Global, args: &[&str], error: &clap::Error) -> Result<String, AllocError>
    ensures shown { IfOk result (λ text. (said : List ℕ) × (string_bytes text ≡ spec.normalized_text said)) }
    ensures memory { kind_of error.now ≡ ErrorKind.OutOfMemory → IsErr result }
{
    if let ErrorKind::OutOfMemory = error.kind() {
        return Err(AllocError);
    }
    let message = quoting_lines(alloc, args, error)?;
    normalize_untrusted_str(alloc, message.as_str().trim_end_matches('\n'))
}

/// What is wrong with these arguments, which are quoted with their line feeds shown: it is what is wrong with arguments
/// that have these pictures in place of line feeds. No name of an option has either, so what is wrong is the same.
fn quoting_lines(alloc: Global, args: &[&str], error: &clap::Error) -> Result<String, AllocError> {
    let lines = lines_of(alloc, args)?;
    let shown = texts_lent(alloc, &lines)?;
    match matches_of(alloc, &shown) {
        Ok(_matches) => format!(in alloc; "{error}"),
        Err(told) => told_or(alloc, &told, error),
    }
}

/// An error as it is told; another one, where there was no memory for it.
fn told_or(
    alloc: Global,
    told: &clap::Error,
    otherwise: &clap::Error,
) -> Result<String, AllocError> {
    if told.kind() == ErrorKind::OutOfMemory {
        format!(in alloc; "{otherwise}")
    } else {
        format!(in alloc; "{told}")
    }
}
