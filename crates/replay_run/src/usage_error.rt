//! What is wrong with arguments whose options and files are known.

ghost use Rattle.std.specs.Prelude.{◌≡◌, ◌≢◌, IfOk};
ghost use Rattle.clap.specs.Words.{kind_of};

use crate::arguments::parser;
use clap::Error;
use clap::error::ErrorKind;
use std::alloc::{AllocError, Global};
use std::fmt;

/// What is wrong with arguments whose options and files are known.
#[derive(Drop)]
pub enum UsageError<'a> {
    /// Two options that exclude one another.
    Together(&'static str, &'static str),
    /// `--check` has no files, or a last one that isn't one of a pair.
    NoPair,
    /// `--repeat` has this argument after it in place of a number.
    NotNumber(&'a str),
}

impl UsageError<'_> {
    /// The kind of it, as of an error of clap's own.
    fn kind(&self) -> ErrorKind
        ensures mistake { (result ≢ ErrorKind.DisplayHelp) × (result ≢ ErrorKind.DisplayVersion) }
    {
        match self {
            UsageError::Together(_, _) => ErrorKind::ArgumentConflict,
            UsageError::NoPair => ErrorKind::WrongNumberOfValues,
            UsageError::NotNumber(_) => ErrorKind::ValueValidation,
        }
    }
}

impl fmt::Display for UsageError<'_> {
    fn fmt<W: fmt::Write>(&self, f: &mut fmt::Formatter<W>) -> fmt::Result {
        match self {
            UsageError::Together(option, other) => {
                write!(f, "the argument '{option}' cannot be used with '{other}'")
            }
            UsageError::NoPair => write!(f, "'--check' needs pairs of EXPECTED and FILE"),
            UsageError::NotNumber(argument) => {
                write!(
                    f,
                    "invalid value '{argument}' for '--repeat <N>': expected a whole number from 0 to {}",
                    u64::MAX
                )
            }
        }
    }
}

/// What is wrong, told as clap tells what is wrong; or that there was no memory to tell it.
pub fn error_of(alloc: Global, usage_error: &UsageError<'_>) -> Error
    ensures mistake { (kind_of result ≢ ErrorKind.DisplayHelp) × (kind_of result ≢ ErrorKind.DisplayVersion) }
{
    match told(alloc, usage_error) {
        Ok(error) => error,
        Err(refused) => Error::from(refused),
    }
}

/// What is wrong, told as clap tells it, where there is memory for it.
fn told(alloc: Global, usage_error: &UsageError<'_>) -> Result<Error, AllocError>
    ensures mistake { IfOk result (λ error.
        (kind_of error ≢ ErrorKind.DisplayHelp) × (kind_of error ≢ ErrorKind.DisplayVersion)) }
{
    let message = format!(in alloc; "{usage_error}")?;
    let mut command = parser(alloc)?;
    command.error(usage_error.kind(), message.as_str())
}
