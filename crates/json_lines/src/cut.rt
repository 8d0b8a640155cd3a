//! A log that is read without its results, which are most of it: where they stand in its text is kept, so that each can
//! be read by itself.
ghost use Rattle.std.specs.Prelude.{◌≡◌, ◌++◌, [], ◌∷◌, List, IfOk, IfSome, None, Some, codes, length, map, true};
ghost use Rattle.std.specs.Global.{Vec};
ghost use Rattle.std.specs.List.{AllZip};
ghost use Rattle.std.specs.Str.{bytes_eq};
ghost use Rattle.serde_json.specs.Data.{Data, Members, array, no_members, object};
ghost use Rattle.serde_json.specs.Read.{read};
ghost use Rattle.serde_json.specs.View.{items_of, view};
ghost use Rattle.json_lines.specs.Cut.{AreResultsKept, AreRunsKept, IsCutOf, IsFieldKept, IsMemberKept, IsRunKept};
ghost use Rattle.json_lines.specs.Cut.{empty_list, with_items, without_all_results, without_results};
ghost use Rattle.json_lines.specs.Quick.{Takes, TakesItems, TakesMembers};
ghost use Rattle.json_lines.specs.declared.cut.Stretch.{Stretch};

use crate::quick::value_of;
use json::{Reader, Scratch, Token};
use serde_json::{Map, Value, put};
use std::alloc::{AllocError, Global};

/// How deep lists and objects may nest in the fields of a log, where that may as deep as in `Value::from_str`.
const IN_LOG: u8 = 126;

/// How deep they may in the fields of a run.
const IN_RUN: u8 = 124;

/// How deep they may in a result.
const IN_RESULTS: u8 = 123;

/// Where a part of a text begins and ends, in bytes: with blanks and a comma after it, if these are there.
#[derive(Clone, Copy)]
pub struct Stretch {
    pub start: usize,
    pub end: usize,
}

/// A log without its results.
#[derive(Drop)]
pub struct CutLog {
    /// The log, in which the list of each run's results is empty.
    pub value: Value,
    /// Where the results of each run stand in the text.
    pub results: Vec<Vec<Stretch>>,
}

/// The log that a text is, an object with runs that are objects, without their results. Nothing is said of another
/// text, which may be a value or none, as one with two lists of runs, or with two of results in a run. The scratch
/// grows to the length of the text.
pub fn cut_log(
    alloc: Global,
    text: &str,
    scratch: &mut Scratch,
) -> Result<Option<CutLog>, AllocError>
    ensures reads { IfOk result (λ found. IfSome found (λ log. (d : Data) × (read text.now ≡ Some d))) }
    ensures cut { IfOk result (λ found. IfSome found (λ log. (d : Data) → read text.now ≡ Some d → IsCutOf d log)) }
{
    let mut reader = Reader::new(text, scratch)?;
    let mut results = None;
    let found = log_of(alloc, &mut reader, &mut results)?;
    match reader.next() {
        None => Ok(with_results(found, results)),
        Some(_) => Ok(None),
    }
}

/// A log with what is kept of its results, if there are both.
fn with_results(log: Option<Value>, results: Option<Vec<Vec<Stretch>>>) -> Option<CutLog>
    ensures log { IfSome result (λ cut. log ≡ Some cut.value) }
    ensures results { IfSome result (λ cut. results ≡ Some cut.results) }
{
    match (log, results) {
        (Some(value), Some(results)) => Some(CutLog { value, results }),
        _ => None,
    }
}

/// The log that comes next, if it is an object.
fn log_of(
    alloc: Global,
    reader: &mut Reader<'_>,
    results: &mut Option<Vec<Vec<Stretch>>>,
) -> Result<Option<Value>, AllocError>
    requires first { results.old ≡ None }
    ensures takes { IfOk result (λ found. IfSome found (λ value. (d : Data) × Takes 127 reader.old reader.new d
        × (view value ≡ without_all_results d) × IsFieldKept (codes "runs") AreRunsKept d results.new)) }
{
    match reader.next() {
        Some(Token::BeginObject) => Ok(log_object(alloc, reader, results)?),
        _ => Ok(None),
    }
}

/// The log whose members come next.
fn log_object(
    alloc: Global,
    reader: &mut Reader<'_>,
    results: &mut Option<Vec<Vec<Stretch>>>,
) -> Result<Option<Value>, AllocError>
    requires first { results.old ≡ None }
    ensures takes { IfOk result (λ found. IfSome found (λ value.
        (members : Members) × TakesMembers 126 no_members reader.old reader.new members
        × (view value ≡ without_all_results (object members))
        × IsFieldKept (codes "runs") AreRunsKept (object members) results.new)) }
{
    let mut members = Map::new(alloc);
    while let Ok(key) = reader.next_key() {
        let Some(key) = key else {
            return Ok(Some(Value::Object(members)));
        };
        let Some(member) = log_member(alloc, reader, key, results)? else {
            return Ok(None);
        };
        put(&mut members, alloc, key, member)?;
    }
    Ok(None)
}

/// The member of a log that comes next under this name.
fn log_member(
    alloc: Global,
    reader: &mut Reader<'_>,
    name: &str,
    results: &mut Option<Vec<Vec<Stretch>>>,
) -> Result<Option<Value>, AllocError>
    ensures takes { IfOk result (λ found. IfSome found (λ value. (d : Data) × Takes 126 reader.old reader.new d
        × IsMemberKept (with_items without_results) AreRunsKept (bytes_eq name.now (codes "runs"))
        d (view value) results.old results.new)) }
{
    if name == "runs" {
        runs_of(alloc, reader, results)
    } else {
        value_of(alloc, reader, IN_LOG)
    }
}

/// The runs that come next, if they are a list and no others were before.
fn runs_of(
    alloc: Global,
    reader: &mut Reader<'_>,
    results: &mut Option<Vec<Vec<Stretch>>>,
) -> Result<Option<Value>, AllocError>
    ensures takes { IfOk result (λ found. IfSome found (λ value. (d : Data) × Takes 126 reader.old reader.new d
        × IsMemberKept (with_items without_results) AreRunsKept true d (view value) results.old results.new)) }
{
    match reader.next() {
        Some(Token::BeginArray) if results.is_none() => {
            let mut kept = Vec::new(alloc);
            let runs = run_list(alloc, reader, &mut kept)?;
            *results = Some(kept);
            Ok(runs)
        }
        _ => Ok(None),
    }
}

/// The list whose runs come next.
fn run_list(
    alloc: Global,
    reader: &mut Reader<'_>,
    results: &mut Vec<Vec<Stretch>>,
) -> Result<Option<Value>, AllocError>
    requires first { results.old.items ≡ [] }
    ensures takes { IfOk result (λ found. IfSome found (λ value.
        (runs : List Data) × TakesItems 125 reader.old reader.new (items_of runs)
        × (view value ≡ array (items_of (map without_results runs))) × AllZip IsRunKept runs results.new.items)) }
{
    let mut runs = Vec::new(alloc);
    while !reader.take_end_array() {
        let Some(run) = run_of(alloc, reader, results)? else {
            return Ok(None);
        };
        runs.push(run)?;
    }
    Ok(Some(Value::Array(runs)))
}

/// The run that comes next, if it is an object.
fn run_of(
    alloc: Global,
    reader: &mut Reader<'_>,
    results: &mut Vec<Vec<Stretch>>,
) -> Result<Option<Value>, AllocError>
    ensures takes { IfOk result (λ found. IfSome found (λ value. (d : Data) × Takes 125 reader.old reader.new d
        × (view value ≡ without_results d) × (own : Vec Stretch) × IsRunKept d own
        × (results.new.items ≡ results.old.items ++ own ∷ []))) }
{
    match reader.next() {
        Some(Token::BeginObject) => {
            let mut own = None;
            let run = run_object(alloc, reader, &mut own)?;
            results.push(own.unwrap_or(Vec::new(alloc)))?;
            Ok(run)
        }
        _ => Ok(None),
    }
}

/// The run whose members come next.
fn run_object(
    alloc: Global,
    reader: &mut Reader<'_>,
    results: &mut Option<Vec<Stretch>>,
) -> Result<Option<Value>, AllocError>
    requires first { results.old ≡ None }
    ensures takes { IfOk result (λ found. IfSome found (λ value.
        (members : Members) × TakesMembers 124 no_members reader.old reader.new members
        × (view value ≡ without_results (object members))
        × IsFieldKept (codes "results") AreResultsKept (object members) results.new)) }
{
    let mut members = Map::new(alloc);
    while let Ok(key) = reader.next_key() {
        let Some(key) = key else {
            return Ok(Some(Value::Object(members)));
        };
        let Some(member) = run_member(alloc, reader, key, results)? else {
            return Ok(None);
        };
        put(&mut members, alloc, key, member)?;
    }
    Ok(None)
}

/// The member of a run that comes next under this name.
fn run_member(
    alloc: Global,
    reader: &mut Reader<'_>,
    name: &str,
    results: &mut Option<Vec<Stretch>>,
) -> Result<Option<Value>, AllocError>
    ensures takes { IfOk result (λ found. IfSome found (λ value. (d : Data) × Takes 124 reader.old reader.new d
        × IsMemberKept empty_list AreResultsKept (bytes_eq name.now (codes "results"))
        d (view value) results.old results.new)) }
{
    if name == "results" {
        results_of(alloc, reader, results)
    } else {
        value_of(alloc, reader, IN_RUN)
    }
}

/// An empty list in place of the results that come next, if they are a list and no others were before.
fn results_of(
    alloc: Global,
    reader: &mut Reader<'_>,
    results: &mut Option<Vec<Stretch>>,
) -> Result<Option<Value>, AllocError>
    ensures takes { IfOk result (λ found. IfSome found (λ value. (d : Data) × Takes 124 reader.old reader.new d
        × IsMemberKept empty_list AreResultsKept true d (view value) results.old results.new)) }
{
    match reader.next() {
        Some(Token::BeginArray) if results.is_none() => match result_list(alloc, reader)? {
            Some(kept) => {
                *results = Some(kept);
                Ok(Some(Value::Array(Vec::new(alloc))))
            }
            None => Ok(None),
        },
        _ => Ok(None),
    }
}

/// Where the results of the list stand that come next: each is read, and let go.
fn result_list(alloc: Global, reader: &mut Reader<'_>) -> Result<Option<Vec<Stretch>>, AllocError>
    ensures takes { IfOk result (λ found. IfSome found (λ kept.
        (results : List Data) × TakesItems 123 reader.old reader.new (items_of results)
        × (length kept.items ≡ length results))) }
{
    let mut kept = Vec::new(alloc);
    while !reader.take_end_array() {
        let start = reader.offset();
        let Some(_) = value_of(alloc, reader, IN_RESULTS)? else {
            return Ok(None);
        };
        kept.push(Stretch {
            start,
            end: reader.offset(),
        })?;
    }
    Ok(Some(kept))
}
