//! Lines of cases, answered one after another. Nothing of a line is kept after it.

ghost use Rattle.std.specs.Prelude.{◌≡◌, ◌⊎◌, ℕ, Bool, ◌||◌, true, List, ◌++◌, Some, OnOk, IfErr, IfOk, IsOkAnd};
ghost use Rattle.std.specs.Prelude.{codes, string_bytes};
ghost use Rattle.std.specs.Io.KnownBytes.{Appends};
ghost use Rattle.annotate_snippets.specs.Fits.{ReportFits};
ghost use Rattle.output_stream.specs.Standing.{known};
ghost use Rattle.serde_json.specs.Errors.{IsMemory};
ghost use Rattle.serde_json.specs.Read.{read};
ghost use Rattle.serde_json.specs.View.{view};
ghost use Rattle.serde_json.specs.Written.{compact_text};
ghost use Rattle.replay_answer.specs.Answer.{answer_of, told_of};
ghost use Rattle.replay_run.specs.WrittenAnswer.{AnswersCaseAs, AnswersLine, AnswersValue, answer_text, gap};
ghost use Rattle.replay_run.specs.WrittenAnswer.{ended_line};
ghost use Rattle.replay_run.specs.WrittenAnswer.{outcome_text};
ghost use Rattle.replay_run.specs.WrittenAnswer.{told_text};
ghost use Rattle.replay_run.specs.Answered.{AnswersReader, StopsFor, StopsLine, StopsReader};
ghost use Rattle.replay_answer.specs.Outcome.{IsOutcomeOf};
ghost use Rattle.replay_answer.specs.Case.{IsCaseOf};
ghost use Rattle.replay_read.specs.Report.{AreSourcesOf};
ghost use Rattle.json_lines.specs.Field.{given};
ghost use Rattle.replay_run.specs.Problem.{IsFault, IsFinal, IsMisread, IsProblemWith};
ghost use Rattle.replay_answer.specs.declared.outcome.Outcome.{Outcome};

use crate::problem::{InputLine, Problem, fault_words, wrong_line};
use output_stream::Stream;
use replay_answer::answer::{answer_json, told_json};
use replay_answer::case::Case;
use replay_answer::outcome::{Outcome, outcome_of};
use replay_answer::read::{case_of, case_sources};
use replay_read::source::NamedSource;
use serde_json::{Error, Value};
use std::alloc::{AllocError, Global};
use std::io;
use std::io::{BufRead, Write};

/// The bytes that end a line.
const LINE_END: &[u8] = b"\n";

/// How answers are written.
#[derive(Clone, Copy)]
pub enum AnswerForm {
    /// As JSON, one a line.
    Json,
    /// As texts, with a blank line between reports.
    Texts,
}

/// How lines are answered.
#[derive(Clone, Copy)]
pub struct Way {
    pub form: AnswerForm,
    /// Whether a line that is no case is answered by what is wrong with it, and the next one is read.
    pub keep_going: bool,
}

/// What answers a line.
#[derive(Drop)]
struct LineAnswer {
    /// Whether it tells that the line is no case.
    told: bool,
    text: Vec<u8>,
}

/// Answers each line before the next one is waited for, and tells whether one of them was no case. `is_first` tells
/// whether nothing was written before, and then whether that is still so.
pub fn answer_lines<B: BufRead + Drop, W: Write>(
    alloc: Global,
    input: B,
    way: Way,
    is_first: &mut bool,
    out: &mut Stream<W>,
) -> Result<bool, Problem>
    ensures answers { IfOk result (λ told. AnswersReader way told is_first.old is_first.new (B.remaining input)
        (known W.contents out.old) (known W.contents out.new)) }
    ensures stops { IfErr result (StopsReader way is_first.old (B.remaining input) (known W.contents out.old)
        (known W.contents out.new)) }
{
    let mut number = 0u64;
    let mut told = false;
    for line in input.lines(alloc) {
        number = number.saturating_add(1);
        match answer_line(alloc, line, number, way, *is_first, out) {
            Ok(here) => told = either(told, here),
            Err(problem) => return Err(problem),
        }
        match out.flush() {
            Ok(()) => {}
            Err(error) => return Err(Problem::Write(error)),
        }
        *is_first = false;
    }
    Ok(told)
}

/// Whether one of two things is so. It is a function for the prover alone.
pub fn either(one: bool, other: bool) -> bool
    ensures value { result ≡ one || other }
{
    one || other
}

/// Answers the line of this number, and tells whether it was no case.
fn answer_line<W: Write>(
    alloc: Global,
    line: io::Result<String>,
    number: u64,
    way: Way,
    is_first: bool,
    out: &mut Stream<W>,
) -> Result<bool, Problem>
    ensures answers { IfOk result (λ told. IsOkAnd line (λ line. (text : List ℕ)
        × AnswersLine way told is_first (number, string_bytes line) text
        × Appends (known W.contents out.old).held (known W.contents out.new).held text)) }
    ensures stops { IfErr result (StopsLine way is_first number line (known W.contents out.old)
        (known W.contents out.new)) }
{
    match answer_for(alloc, line, number, way, is_first) {
        Ok(answer) => match out.write(answer.text.as_slice()) {
            Ok(()) => Ok(answer.told),
            Err(error) => Err(Problem::Write(error)),
        },
        Err(problem) => Err(problem),
    }
}

/// Writes a line.
pub fn print_line<W: Write>(line: &str, out: &mut Stream<W>) -> Result<(), Problem>
    ensures added { OnOk result
        (Appends (known W.contents out.old).held (known W.contents out.new).held (ended_line line.now)) }
{
    print(line.as_bytes(), out)?;
    print(LINE_END, out)
}

/// Writes these bytes.
pub fn print<W: Write>(bytes: &[u8], out: &mut Stream<W>) -> Result<(), Problem>
    ensures added { OnOk result
        (Appends (known W.contents out.old).held (known W.contents out.new).held bytes.now) }
{
    match out.write(bytes) {
        Ok(()) => Ok(()),
        Err(error) => Err(Problem::Write(error)),
    }
}

/// What answers the line of this number.
#[tactic(auto, using(crate::proofs::Told::answer_told, crate::proofs::Told::stop_told, crate::proofs::Told::at_once))]
fn answer_for(
    alloc: Global,
    line: io::Result<String>,
    number: u64,
    way: Way,
    is_first: bool,
) -> Result<LineAnswer, Problem>
    ensures answers { IfOk result (λ answer. IsOkAnd line (λ line.
        AnswersLine way answer.told is_first (number, string_bytes line) answer.text.items)) }
    ensures stops { IfErr result (λ problem.
        IsProblemWith (InputLine.Case number) line problem × StopsFor way problem) }
{
    match text_for(alloc, line, number, way.form, is_first) {
        Ok(text) => Ok(LineAnswer { told: false, text }),
        Err(problem) => {
            if way.keep_going {
                told_for(alloc, problem, number, way.form, is_first)
            } else {
                Err(problem)
            }
        }
    }
}

/// What tells of this problem with the line of this number, where it is one with what the line says; else the problem.
fn told_for(
    alloc: Global,
    problem: Problem,
    number: u64,
    form: AnswerForm,
    is_first: bool,
) -> Result<LineAnswer, Problem>
    ensures told { IfOk result (λ answer. answer.told ≡ true) }
    ensures text { IfOk result (λ answer. (words : List ℕ) × IsFault problem words
        × (answer.text.items ≡ told_text form is_first number words)) }
    ensures last { IfErr result (λ stop. IsFinal stop × ((stop ≡ problem) ⊎ (stop ≡ Problem.Memory))) }
{
    match fault_words(alloc, problem) {
        Ok(words) => match told_line(alloc, words.as_str(), number, form, is_first) {
            Ok(text) => Ok(LineAnswer { told: true, text }),
            Err(AllocError) => Err(Problem::Memory),
        },
        Err(problem) => Err(problem),
    }
}

/// What tells that the line of this number is no case, in these words.
fn told_line(
    alloc: Global,
    words: &str,
    number: u64,
    form: AnswerForm,
    is_first: bool,
) -> Result<Vec<u8>, AllocError>
    ensures text { IfOk result (λ text. text.items ≡ told_text form is_first number words.now) }
{
    match form {
        AnswerForm::Json => told_as_json(alloc, words, number),
        AnswerForm::Texts => told_as_text(alloc, words, number, is_first),
    }
}

/// What tells that the line of this number is no case, in these words, as a line of JSON.
fn told_as_json(alloc: Global, words: &str, number: u64) -> Result<Vec<u8>, AllocError>
    ensures text { IfOk result (λ text. text.items ≡ told_text AnswerForm.Json true number words.now) }
{
    let mut text = Vec::new(alloc);
    match write_told_json(alloc, words, number, &mut text) {
        Ok(()) => Ok(text),
        Err(_) => Err(AllocError),
    }
}

/// What tells that the line of this number is no case, in these words, as a text.
fn told_as_text(
    alloc: Global,
    words: &str,
    number: u64,
    is_first: bool,
) -> Result<Vec<u8>, AllocError>
    ensures text { IfOk result (λ text. text.items ≡ told_text AnswerForm.Texts is_first number words.now) }
{
    let mut text = Vec::new(alloc);
    match write_told_text(words, number, is_first, &mut text) {
        Ok(()) => Ok(text),
        Err(_) => Err(AllocError),
    }
}

/// Writes that the line of this number is no case, as a line of JSON.
fn write_told_json<W: Write>(
    alloc: Global,
    words: &str,
    number: u64,
    out: &mut W,
) -> Result<(), Problem>
    ensures line { OnOk result (Appends (W.contents out.old) (W.contents out.new)
        (told_text AnswerForm.Json true number words.now)) }
{
    let line = told_json(alloc, words, number)?;
    write_line(line.as_str(), out).map_err(Problem::Write)
}

/// Writes that the line of this number is no case, as a text.
fn write_told_text<W: Write>(
    words: &str,
    number: u64,
    is_first: bool,
    out: &mut W,
) -> Result<(), Problem>
    ensures line { OnOk result (Appends (W.contents out.old) (W.contents out.new)
        (told_text AnswerForm.Texts is_first number words.now)) }
{
    write_gap(is_first, out).map_err(Problem::Write)?;
    out.writeln(format_args!("line {number}: no case: {words}"))
        .map_err(Problem::Write)
}

/// What is to be written for the line of this number, which is to be a case.
fn text_for(
    alloc: Global,
    line: io::Result<String>,
    number: u64,
    form: AnswerForm,
    is_first: bool,
) -> Result<Vec<u8>, Problem>
    ensures answers { IfOk result (λ text. IsOkAnd line (λ line.
        AnswersCaseAs form is_first (string_bytes line) text.items)) }
    ensures stops { IfErr result (IsProblemWith (InputLine.Case number) line) }
{
    match value_of(alloc, InputLine::Case(number), line) {
        Ok(value) => text_of(alloc, &value, number, form, is_first),
        Err(problem) => Err(problem),
    }
}

/// What is to be written for the line of this number, which holds this.
fn text_of(
    alloc: Global,
    value: &Value,
    number: u64,
    form: AnswerForm,
    is_first: bool,
) -> Result<Vec<u8>, Problem>
    ensures answers { IfOk result (λ text. AnswersValue form is_first (view value.now) text.items) }
    ensures misread { IfErr result (IsMisread (InputLine.Case number)) }
{
    let sources = numbered_sources(alloc, value, number)?;
    match numbered_case(alloc, value, &sources, number) {
        Ok(case) => match case_text(alloc, &case, form, is_first) {
            Ok(text) => Ok(text),
            Err(AllocError) => Err(Problem::Memory),
        },
        Err(problem) => Err(problem),
    }
}

/// What is to be written for a case.
fn case_text(
    alloc: Global,
    case: &Case<'_>,
    form: AnswerForm,
    is_first: bool,
) -> Result<Vec<u8>, AllocError>
    requires fits { ReportFits case.now.groups.items }
    ensures text { IfOk result (λ text. (outcome : Outcome) × IsOutcomeOf case.now outcome
        × (text.items ≡ answer_text form is_first case.now.id.now outcome)) }
{
    let mut text = Vec::new(alloc);
    match write_answer(alloc, case, form, is_first, &mut text) {
        Ok(()) => Ok(text),
        Err(_) => Err(AllocError),
    }
}

/// The sources that the case of the line of this number names.
pub fn numbered_sources<'v>(
    alloc: Global,
    value: &'v Value,
    number: u64,
) -> Result<Vec<NamedSource<'v>>, Problem>
    ensures value { IfOk result (λ sources. AreSourcesOf (given (codes "sources") (view value.now)) sources.items) }
    ensures misread { IfErr result (IsMisread (InputLine.Case number)) }
{
    match case_sources(alloc, value) {
        Ok(sources) => Ok(sources),
        Err(fault) => Err(wrong_line(InputLine::Case(number), fault)),
    }
}

/// The case that the line of this number describes, whose sources are these.
pub fn numbered_case<'v>(
    alloc: Global,
    value: &'v Value,
    sources: &'v [NamedSource<'_>],
    number: u64,
) -> Result<Case<'v>, Problem>
    requires sources { AreSourcesOf (given (codes "sources") (view value.now)) sources.now }
    ensures value { IfOk result (IsCaseOf (view value.now)) }
    ensures fits { IfOk result (λ case. ReportFits case.groups.items) }
    ensures misread { IfErr result (IsMisread (InputLine.Case number)) }
{
    match case_of(alloc, value, sources) {
        Ok(case) => Ok(case),
        Err(fault) => Err(wrong_line(InputLine::Case(number), fault)),
    }
}

/// What this line holds.
pub fn value_of(alloc: Global, line: InputLine, text: io::Result<String>) -> Result<Value, Problem>
    ensures value { IfOk result (λ value. IsOkAnd text (λ text. read (string_bytes text) ≡ Some (view value))) }
    ensures stops { IfErr result (IsProblemWith line text) }
{
    match text {
        Ok(text) => match Value::from_str(alloc, text.as_str()) {
            Ok(value) => Ok(value),
            Err(error) => Err(not_json(line, error)),
        },
        Err(error) if error.kind() == io::ErrorKind::InvalidData => Err(Problem::NotText(line)),
        Err(error) => Err(Problem::Read(error)),
    }
}

/// The problem with a line at which reading JSON met this.
fn not_json(line: InputLine, error: Error) -> Problem
    ensures memory { IsMemory error → result ≡ Problem.Memory }
    ensures text { (IsMemory error → ⊥) → (column : ℕ) × (ends_early : Bool)
        × (result ≡ Problem.NotJson line column ends_early) }
{
    if error.is_memory() {
        Problem::Memory
    } else {
        Problem::NotJson(line, error.column().max(1), error.is_eof())
    }
}

/// Writes the answer to a case.
fn write_answer<W: Write>(
    alloc: Global,
    case: &Case<'_>,
    form: AnswerForm,
    is_first: bool,
    out: &mut W,
) -> Result<(), Problem>
    requires fits { ReportFits case.now.groups.items }
    ensures answer { OnOk result ((outcome : Outcome) × IsOutcomeOf case.now outcome
        × Appends (W.contents out.old) (W.contents out.new) (answer_text form is_first case.now.id.now outcome)) }
{
    let outcome = outcome_of(alloc, case)?;
    if let AnswerForm::Texts = form {
        write_report(outcome, is_first, out)?;
        return Ok(());
    }
    write_json(alloc, case.id, outcome, out)?;
    Ok(())
}

/// Writes the answer to the case of this name as a line of JSON.
fn write_json<W: Write>(
    alloc: Global,
    id: &str,
    outcome: Outcome,
    out: &mut W,
) -> Result<(), Problem>
    ensures line { OnOk result (Appends (W.contents out.old) (W.contents out.new)
        (ended_line (compact_text (answer_of id.now outcome)))) }
{
    let line = answer_json(alloc, id, outcome)?;
    write_line(line.as_str(), out).map_err(Problem::Write)
}

/// Writes the texts of a report, after a blank line if they aren't the first.
fn write_report<W: Write>(outcome: Outcome, is_first: bool, out: &mut W) -> Result<(), Problem>
    ensures text { OnOk result (Appends (W.contents out.old) (W.contents out.new)
        (gap is_first ++ outcome_text outcome)) }
{
    write_texts(&outcome, is_first, out).map_err(Problem::Write)
}

/// Writes the texts of a report that stay, after a blank line if they aren't the first.
fn write_texts<W: Write>(outcome: &Outcome, is_first: bool, out: &mut W) -> io::Result<()>
    ensures text { OnOk result (Appends (W.contents out.old) (W.contents out.new)
        (gap is_first ++ outcome_text outcome.now)) }
{
    write_gap(is_first, out)?;
    write_outcome(outcome, out)?;
    Ok(())
}

/// Writes a blank line, but not before the first report.
fn write_gap<W: Write>(is_first: bool, out: &mut W) -> io::Result<()>
    ensures gap { OnOk result (Appends (W.contents out.old) (W.contents out.new) (gap is_first)) }
{
    if is_first {
        Ok(())
    } else {
        write_line("", out)
    }
}

/// Writes a line.
pub fn write_line<W: Write>(line: &str, out: &mut W) -> io::Result<()>
    ensures line { OnOk result (Appends (W.contents out.old) (W.contents out.new) (ended_line line.now)) }
{
    out.writeln(line)
}

/// Writes each text, or what the refusal prints and the span that it is about.
pub fn write_outcome<W: Write>(outcome: &Outcome, out: &mut W) -> io::Result<()>
    ensures text { OnOk result (Appends (W.contents out.old) (W.contents out.new) (outcome_text outcome.now)) }
{
    match outcome {
        Outcome::Texts(texts) => {
            for text in texts {
                write_line(text.as_str(), out)?;
            }
            Ok(())
        }
        Outcome::Refused(_, text, span) => out.writeln(format_args!("refused: {text}{span}")),
    }
}
