//! What is expected of a case, as a line of JSON says it.

ghost use Rattle.std.specs.Prelude.{◌≡◌, ◌↔◌, IsTrue, IfOk, OnOk, map, string_bytes};
ghost use Rattle.serde_json.specs.View.{view};
ghost use Rattle.replay_run.specs.Expected.{IsExpectedOf, IsMet, IsWanted, IsWantedOf, texts_lent};

use crate::lines::write_line;
use json_lines::fault::Fault;
use json_lines::node::Node;
use json_lines::place::JsonPath;
use replay_answer::outcome::{Outcome, name_of};
use replay_read::list::list_at;
use replay_read::shape::{Shape, has_shape};
use serde_json::Value;
use std::alloc::Global;
use std::io;

/// What is expected of a case.
#[derive(Drop)]
pub struct Expected<'v> {
    /// The case's name.
    pub id: &'v str,
    pub wanted: Wanted<'v>,
}

/// What is to become of a case.
#[derive(Drop)]
pub enum Wanted<'v> {
    /// These texts, in order.
    Texts(Vec<&'v str>),
    /// A refusal of this name, which prints this.
    Refused(&'v str, &'v str),
}

/// The answer that a line expects.
pub fn expected_of<'v>(alloc: Global, line: &'v Value) -> Result<Expected<'v>, Fault>
    ensures value { IfOk result (IsExpectedOf (view line.now)) }
{
    let answer = Node {
        alloc,
        value: line,
        place: JsonPath::Line,
    };
    Ok(Expected {
        id: answer.text("id")?,
        wanted: wanted_of(&answer)?,
    })
}

/// What the answer's other fields want.
fn wanted_of<'v>(answer: &Node<'v, '_>) -> Result<Wanted<'v>, Fault>
    ensures value { IfOk result (IsWantedOf (view answer.now.value.now)) }
{
    if let Some(refused) = answer.optional("refused") {
        let name = refused.as_text()?;
        has_shape(answer, Shape::Refusal)?;
        return Ok(Wanted::Refused(name, answer.text("text")?));
    }
    has_shape(answer, Shape::Texts)?;
    Ok(Wanted::Texts(list_at(answer, "ok")?))
}

impl Expected<'_> {
    /// Whether the case of this name became what is expected.
    pub fn is_met_by(&self, id: &str, outcome: &Outcome) -> bool
        ensures meets { IsTrue result ↔ IsMet self.now id.now outcome.now }
    {
        self.id == id && is_wanted(&self.wanted, outcome)
    }
}

/// Whether an outcome is the wanted one.
fn is_wanted(wanted: &Wanted<'_>, outcome: &Outcome) -> bool
    ensures wanted { IsTrue result ↔ IsWanted wanted.now outcome.now }
{
    match outcome {
        Outcome::Texts(texts) => match wanted {
            Wanted::Texts(wanted) => are_equal(wanted, texts),
            Wanted::Refused(_, _) => false,
        },
        Outcome::Refused(refusal, text, _) => match wanted {
            Wanted::Texts(_) => false,
            Wanted::Refused(wanted, words) => {
                *wanted == name_of(refusal) && *words == text.as_str()
            }
        },
    }
}

/// Whether the texts are equal, one by one.
fn are_equal(wanted: &[&str], texts: &[String]) -> bool
    ensures equal { IsTrue result ↔ (texts_lent wanted.now ≡ map string_bytes texts.now) }
{
    if wanted.len() != texts.len() {
        return false;
    }
    for i in 0..texts.len() {
        if !is_text(&wanted[i], &texts[i]) {
            return false;
        }
    }
    true
}

/// Whether a text is the wanted one.
fn is_text(wanted: &&str, text: &String) -> bool
    ensures value { IsTrue result ↔ (wanted.now.now ≡ string_bytes text.now) }
{
    *wanted == text.as_str()
}

/// Writes each text, or what the refusal prints.
pub fn write_wanted(wanted: &Wanted<'_>, out: &mut Vec<u8>) -> io::Result<()> {
    match wanted {
        Wanted::Texts(texts) => {
            for text in texts {
                write_line(text, out)?;
            }
        }
        Wanted::Refused(_, text) => write_line(text, out)?,
    }
    Ok(())
}
