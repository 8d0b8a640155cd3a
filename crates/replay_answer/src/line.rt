//! What is answered to a line: what becomes of the case that it describes, or why it describes none.

ghost use Rattle.std.specs.Prelude.{◌≡◌, ◌⊎◌, ℕ, Bool, IfOk, string_bytes};
ghost use Rattle.annotate_snippets.specs.Fits.{ReportFits};
ghost use Rattle.serde_json.specs.Errors.{IsMemory};
ghost use Rattle.serde_json.specs.Written.{compact_text};
ghost use Rattle.serde_json.specs.View.{view};
ghost use Rattle.replay_answer.specs.Answer.{answer_of, not_json_text, told_of};
ghost use Rattle.replay_answer.specs.Line.{AnswersAlone, AnswersAs, TellsAs};
ghost use Rattle.replay_answer.specs.Outcome.{IsOutcomeOf};
ghost use Rattle.replay_answer.specs.declared.outcome.Outcome.{Outcome};

use crate::answer::{answer_json, column_words, told_json};
use crate::case::Case;
use crate::outcome::outcome_of;
use crate::read::{case_of, case_sources};
use json_lines::fault::Fault;
use serde_json::{Error, Value};
use std::alloc::{AllocError, Global};

/// The answer to a line that stands alone, as JSON without a line feed.
pub fn line_answer(alloc: Global, line: &[u8]) -> Result<String, AllocError>
    ensures answers { IfOk result (λ text. AnswersAlone line.now (string_bytes text)) }
{
    match std::str::from_utf8(line) {
        Ok(line) => text_answer(alloc, line),
        Err(_) => told_json(alloc, "not valid UTF-8", 1),
    }
}

/// The answer to a line of text.
fn text_answer(alloc: Global, line: &str) -> Result<String, AllocError>
    ensures answers { IfOk result (λ text. AnswersAlone line.now (string_bytes text)) }
{
    match Value::from_str(alloc, line) {
        Ok(value) => value_answer(alloc, &value),
        Err(error) => error_answer(alloc, error),
    }
}

/// The answer to a line at which reading JSON met this.
fn error_answer(alloc: Global, error: Error) -> Result<String, AllocError>
    ensures told { IfOk result (λ text. (IsMemory error → ⊥) × (column : ℕ) × (ends_early : Bool)
        × (string_bytes text ≡ compact_text (told_of 1 (not_json_text column ends_early)))) }
{
    if error.is_memory() {
        return Err(AllocError);
    }
    let words = column_words(alloc, error.column().max(1), error.is_eof())?;
    told_json(alloc, words.as_str(), 1)
}

/// The answer to a line that holds this value.
fn value_answer(alloc: Global, value: &Value) -> Result<String, AllocError>
    ensures answers { IfOk result (λ text. AnswersAs (view value.now) (string_bytes text)
        ⊎ TellsAs (string_bytes text)) }
{
    let sources = match case_sources(alloc, value) {
        Ok(sources) => sources,
        Err(fault) => return fault_answer(alloc, fault),
    };
    match case_of(alloc, value, &sources) {
        Ok(case) => case_answer(alloc, &case),
        Err(fault) => fault_answer(alloc, fault),
    }
}

/// The answer to a line that holds a value with this fault.
fn fault_answer(alloc: Global, fault: Fault) -> Result<String, AllocError>
    ensures told { IfOk result (λ text. TellsAs (string_bytes text)) }
{
    match fault {
        Fault::Wrong(words) => told_json(alloc, words.as_str(), 1),
        Fault::Memory => Err(AllocError),
    }
}

/// The answer to a line that describes this case.
fn case_answer(alloc: Global, case: &Case<'_>) -> Result<String, AllocError>
    requires fits { ReportFits case.now.groups.items }
    ensures answers { IfOk result (λ text. (outcome : Outcome) × IsOutcomeOf case.now outcome
        × (string_bytes text ≡ compact_text (answer_of case.now.id.now outcome))) }
{
    let outcome = outcome_of(alloc, case)?;
    answer_json(alloc, case.id, outcome)
}
