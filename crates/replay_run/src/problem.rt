//! What stops a run, and what is told of it.

ghost use Rattle.std.specs.Prelude.{◌≡◌, ◌⊎◌, ℕ, List, Some, IfErr, IfOk, string_bytes};
ghost use Rattle.replay_run.specs.Problem.{IsFault, IsFinal, IsMisread, json_text, line_label, problem_text};
ghost use Rattle.replay_run.specs.Problem.{unpaired_text};

use json_lines::fault::Fault;
use replay_answer::answer::column_words;
use std::alloc::{AllocError, AllocFailed, Global};
use std::{fmt, io};

/// What stops a run.
#[derive(Drop)]
pub enum Problem {
    /// A line isn't UTF-8.
    NotText(InputLine),
    /// A line isn't valid JSON from this column on, or it ends before it is.
    NotJson(InputLine, usize, bool),
    /// A line describes no case, or no answer where one is expected: what is wrong with it, in words.
    Wrong(InputLine, String),
    /// At this line, counted from 1, there is a case or an expected answer, and not both.
    Unpaired(u64),
    /// There are more lines than can be counted.
    TooManyLines,
    /// Each line was answered, and not each was a case.
    NotCases,
    /// Input can't be read.
    Read(io::Error),
    /// The clock can't be read.
    Clock(io::Error),
    /// Output can't be written.
    Write(io::Error),
    /// A growth of memory was refused.
    Memory,
}

/// A line, counted from 1.
#[derive(Clone, Copy)]
pub enum InputLine {
    /// Of the cases.
    Case(u64),
    /// Of the expected answers.
    Expected(u64),
}

impl From<AllocError> for Problem {
    fn from(_refused: AllocError) -> Problem {
        Problem::Memory
    }
}

impl<T: Drop> From<AllocFailed<T>> for Problem {
    fn from(_refused: AllocFailed<T>) -> Problem {
        Problem::Memory
    }
}

impl fmt::Display for InputLine {
    ghost output = { λ line. Some (line_label line) };

    fn fmt<W: fmt::Write>(&self, f: &mut fmt::Formatter<W>) -> fmt::Result {
        match self {
            InputLine::Case(number) => write!(f, "line {number}"),
            InputLine::Expected(number) => write!(f, "line {number} of what is expected"),
        }
    }
}

/// The problem with a line of which this is wrong.
pub fn wrong_line(line: InputLine, fault: Fault) -> Problem
    ensures line { IsMisread line result }
{
    match fault {
        Fault::Wrong(words) => Problem::Wrong(line, words),
        Fault::Memory => Problem::Memory,
    }
}

/// What is told of problem.
pub fn words_of(alloc: Global, problem: &Problem) -> Result<String, AllocError>
    ensures words { IfOk result (λ text. (said : List ℕ) × (string_bytes text ≡ problem_text problem.now said)) }
{
    let said = said_of(alloc, problem)?;
    words_with(alloc, problem, said.as_str())
}

/// What the system says of problem with it.
fn said_of(alloc: Global, problem: &Problem) -> Result<String, AllocError> {
    match problem {
        Problem::Read(error) | Problem::Clock(error) | Problem::Write(error) => {
            format!(in alloc; "{error}")
        }
        _ => Ok(String::new(alloc)),
    }
}

/// What is told of problem, where this is what the system says of it.
fn words_with(alloc: Global, problem: &Problem, said: &str) -> Result<String, AllocError>
    ensures words { IfOk result (λ text. string_bytes text ≡ problem_text problem.now said.now) }
{
    match problem {
        Problem::NotText(line) => format!(in alloc; "{line}: not valid UTF-8"),
        Problem::NotJson(line, column, ends_early) => {
            json_words(alloc, *line, *column, *ends_early)
        }
        Problem::Wrong(line, words) => format!(in alloc; "{line}: {words}"),
        Problem::Unpaired(number) => unpaired_words(alloc, *number),
        Problem::TooManyLines => format!(in alloc; "too many lines"),
        Problem::NotCases => format!(in alloc; "not each line was a case"),
        Problem::Read(_) => format!(in alloc; "cannot read: {said}"),
        Problem::Clock(_) => format!(in alloc; "cannot read the clock: {said}"),
        Problem::Write(_) => format!(in alloc; "cannot write: {said}"),
        Problem::Memory => format!(in alloc; "out of memory"),
    }
}

/// What is told of a line that isn't valid JSON.
fn json_words(
    alloc: Global,
    line: InputLine,
    column: usize,
    ends_early: bool,
) -> Result<String, AllocError>
    ensures words { IfOk result (λ text. string_bytes text ≡ json_text line column ends_early) }
{
    if ends_early {
        format!(in alloc; "{line}, column {column}: not valid JSON: it ends too early")
    } else {
        format!(in alloc; "{line}, column {column}: not valid JSON")
    }
}

/// What is told of a line without its number, where the problem is with what the line says; else the problem.
pub fn fault_words(alloc: Global, problem: Problem) -> Result<String, Problem>
    ensures words { IfOk result (λ words. IsFault problem (string_bytes words)) }
    ensures last { IfErr result (λ stop. IsFinal stop × ((stop ≡ problem) ⊎ (stop ≡ Problem.Memory))) }
{
    match problem {
        Problem::Wrong(_, words) => Ok(words),
        Problem::NotJson(_, column, ends_early) => match column_words(alloc, column, ends_early) {
            Ok(words) => Ok(words),
            Err(AllocError) => Err(Problem::Memory),
        },
        Problem::NotText(line) => Err(Problem::NotText(line)),
        Problem::Unpaired(number) => Err(Problem::Unpaired(number)),
        Problem::TooManyLines => Err(Problem::TooManyLines),
        Problem::NotCases => Err(Problem::NotCases),
        Problem::Read(error) => Err(Problem::Read(error)),
        Problem::Clock(error) => Err(Problem::Clock(error)),
        Problem::Write(error) => Err(Problem::Write(error)),
        Problem::Memory => Err(Problem::Memory),
    }
}

/// What is told of a line that stands alone where there are to be two.
fn unpaired_words(alloc: Global, number: u64) -> Result<String, AllocError>
    ensures words { IfOk result (λ text. string_bytes text ≡ unpaired_text number) }
{
    format!(in alloc;
        "line {number}: a case without an expected answer, or an answer without a case"
    )
}
