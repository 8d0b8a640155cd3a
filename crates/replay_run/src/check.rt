//! Cases and what is expected of them, side by side.

ghost use Rattle.std.specs.Prelude.{◌≡◌, ◌+◌, ◌^◌, ◌<◌, ◌↔◌, if◌then◌else◌, min, true, IsTrue, IfOk, IsOkAnd, OnOk};
ghost use Rattle.std.specs.Prelude.{string_bytes};
ghost use Rattle.output_stream.specs.Standing.{known};
ghost use Rattle.serde_json.specs.View.{view};
ghost use Rattle.replay_run.specs.Expected.{IsExpectedOf, IsMet};
ghost use Rattle.replay_run.specs.Growth.{Grows};
ghost use Rattle.replay_run.specs.Checked.{CountsLines, ChecksCase, ChecksLine, most};

use crate::expected::{Expected, expected_of, write_wanted};
use crate::lines::{numbered_case, numbered_sources, print, value_of, write_line, write_outcome};
use crate::problem::{InputLine, Problem, wrong_line};
use output_stream::Stream;
use replay_answer::outcome::{Outcome, outcome_of};
use serde_json::Value;
use std::alloc::Global;
use std::io;
use std::io::{BufRead, Write};

/// How many cases became what is expected, and how many didn't.
#[derive(Clone, Copy)]
pub struct Counts {
    pub passed: u64,
    pub failed: u64,
}

impl Counts {
    /// No case.
    pub const NONE: Counts = Counts {
        passed: 0,
        failed: 0,
    };

    /// The counts with one case more.
    pub fn with(self, passes: bool) -> Counts
        requires room { self.passed + self.failed + 1 < 2 ^ 64 }
        ensures passed { result.passed ≡ self.passed + (if passes then 1 else 0) }
        ensures failed { result.failed ≡ self.failed + (if passes then 0 else 1) }
    {
        if passes {
            Counts {
                passed: self.passed + 1,
                failed: self.failed,
            }
        } else {
            Counts {
                passed: self.passed,
                failed: self.failed + 1,
            }
        }
    }

    /// The counts of both together, as far as they can be told.
    pub fn plus(self, more: Counts) -> Counts
        ensures passed { result.passed ≡ min (self.passed + more.passed) most }
        ensures failed { result.failed ≡ min (self.failed + more.failed) most }
    {
        Counts {
            passed: self.passed.saturating_add(more.passed),
            failed: self.failed.saturating_add(more.failed),
        }
    }
}

/// Compares each case with the answer that stands in the same line of `expected`, writes those that differ, and counts
/// the cases.
pub fn check_lines<B: BufRead + Drop, C: BufRead + Drop, W: Write>(
    alloc: Global,
    expected: B,
    cases: C,
    out: &mut Stream<W>,
) -> Result<Counts, Problem>
    ensures counts { IfOk result (CountsLines (B.remaining expected) (C.remaining cases)) }
    ensures added { OnOk result (Grows (known W.contents out.old) (known W.contents out.new)) }
    ensures silent { IfOk result (λ counts. counts.failed ≡ 0 → out.new ≡ out.old) }
{
    let mut answers = expected.lines(alloc);
    let mut lines = cases.lines(alloc);
    let mut counts = Counts::NONE;
    for number in 1..u64::MAX {
        match (answers.next(), lines.next()) {
            (None, None) => return Ok(counts),
            (Some(answer), Some(line)) => {
                let passes = check_line(alloc, number, answer, line, out)?;
                counts = counts.with(passes);
            }
            _ => return Err(Problem::Unpaired(number)),
        }
    }
    Err(Problem::TooManyLines)
}

/// Whether a case became what is expected; if not, it is written.
fn check_line<W: Write>(
    alloc: Global,
    number: u64,
    answer: io::Result<String>,
    line: io::Result<String>,
    out: &mut Stream<W>,
) -> Result<bool, Problem>
    ensures checks { IfOk result (λ passes. IsOkAnd answer (λ answer. IsOkAnd line (λ line.
        ChecksLine (string_bytes answer) (string_bytes line) passes))) }
    ensures added { OnOk result (Grows (known W.contents out.old) (known W.contents out.new)) }
    ensures silent { IfOk result (λ passes. passes ≡ true → out.new ≡ out.old) }
{
    let value = value_of(alloc, InputLine::Expected(number), answer)?;
    let expected = numbered_answer(alloc, &value, number)?;
    let passes = compare_line(alloc, number, &expected, line, out)?;
    Ok(passes)
}

/// What the line of this number says is expected.
fn numbered_answer<'v>(
    alloc: Global,
    value: &'v Value,
    number: u64,
) -> Result<Expected<'v>, Problem>
    ensures value { IfOk result (IsExpectedOf (view value.now)) }
{
    expected_of(alloc, value).map_err(|fault| wrong_line(InputLine::Expected(number), fault))
}

/// Whether the case of a line became what is expected; if not, it is written.
fn compare_line<W: Write>(
    alloc: Global,
    number: u64,
    expected: &Expected<'_>,
    line: io::Result<String>,
    out: &mut Stream<W>,
) -> Result<bool, Problem>
    ensures checks { IfOk result (λ passes. IsOkAnd line (λ line. ChecksCase expected.now (string_bytes line) passes)) }
    ensures added { OnOk result (Grows (known W.contents out.old) (known W.contents out.new)) }
    ensures silent { IfOk result (λ passes. passes ≡ true → out.new ≡ out.old) }
{
    let value = value_of(alloc, InputLine::Case(number), line)?;
    let sources = numbered_sources(alloc, &value, number)?;
    let case = numbered_case(alloc, &value, &sources, number)?;
    let outcome = outcome_of(alloc, &case)?;
    let passes = check_case(alloc, expected, case.id, &outcome, out)?;
    Ok(passes)
}

/// Whether the case of this name became what is expected; if not, it is written.
pub fn check_case<W: Write>(
    alloc: Global,
    expected: &Expected<'_>,
    id: &str,
    outcome: &Outcome,
    out: &mut Stream<W>,
) -> Result<bool, Problem>
    ensures passes { IfOk result (λ passes. IsTrue passes ↔ IsMet expected.now id.now outcome.now) }
    ensures added { OnOk result (Grows (known W.contents out.old) (known W.contents out.new)) }
    ensures silent { IfOk result (λ passes. passes ≡ true → out.new ≡ out.old) }
{
    if expected.is_met_by(id, outcome) {
        return Ok(true);
    }
    let Ok(text) = difference(alloc, expected, id, outcome) else {
        return Err(Problem::Memory);
    };
    print(text.as_slice(), out)?;
    Ok(false)
}

/// What tells what was expected, and what became of the case of this name.
fn difference(
    alloc: Global,
    expected: &Expected<'_>,
    id: &str,
    outcome: &Outcome,
) -> io::Result<Vec<u8>> {
    let name = expected.id;
    let head = format!(in alloc; "{id:?} differs\nexpected of {name:?}:")?;
    let mut text = Vec::new(alloc);
    write_line(head.as_str(), &mut text)?;
    write_wanted(&expected.wanted, &mut text)?;
    write_line("answered:", &mut text)?;
    write_outcome(outcome, &mut text)?;
    write_line("", &mut text)?;
    Ok(text)
}
