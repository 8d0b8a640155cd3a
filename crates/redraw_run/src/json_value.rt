//! The value of JSON that a line or a document is.
ghost use Rattle.std.specs.Prelude.{◌≡◌, ◌++◌, ◌⊎◌, ◌∷◌, [], None, Some, IfOk, IfSome, MatchResult};
ghost use Rattle.serde_json.specs.Data.{Data};
ghost use Rattle.serde_json.specs.Read.{read};
ghost use Rattle.serde_json.specs.View.{view};
ghost use Rattle.json_lines.specs.Cut.{IsCutOf};
ghost use Rattle.redraw_run.specs.Fates.{IsWithoutEnd, Reads};

use json::Scratch;
use json_lines::cut::{CutLog, cut_log};
use json_lines::quick::quick_value;
use serde_json::Value;
use std::alloc::{AllocError, Global};

/// The bytes of the longest text that is read in memory that is kept from one text to the next: as much may stay taken,
/// and no more. A longer one is read in memory that is given back when it is read.
const LONGEST_KEPT: usize = 1 << 20;

/// The bytes of the longest text of which the results of a log are kept while they are drawn.
const LONGEST_WHOLE: usize = 1 << 13;

/// The log that a line or a document is, without its results, if it is so long that they are better read again.
pub fn cut_of(alloc: Global, text: &str) -> Result<Option<CutLog>, AllocError>
    ensures reads { IfOk result (λ found. IfSome found (λ log. (d : Data) × Reads text.now (Some d) × IsCutOf d log)) }
{
    let json = without_end(text);
    if json.len() <= LONGEST_WHOLE {
        return Ok(None);
    }
    let mut scratch = Scratch::new(alloc);
    Ok(cut_log(alloc, json, &mut scratch)?)
}

/// The value of JSON that a line or a document is, or why it is none. The scratch is kept from one to the next.
pub fn json_of(
    alloc: Global,
    text: &str,
    scratch: &mut Scratch,
) -> Result<Result<Value, serde_json::Error>, AllocError>
    ensures reads { IfOk result (λ found. MatchResult found (λ value. Reads text.now (Some (view value)))
        (λ error. Reads text.now None)) }
{
    let json = without_end(text);
    match kept_value(alloc, json, scratch)? {
        Some(value) => Ok(Ok(value)),
        None => match Value::from_str(alloc, json) {
            Ok(value) => Ok(Ok(value)),
            Err(error) if error.is_memory() => Err(AllocError),
            Err(error) => Ok(Err(error)),
        },
    }
}

/// The value that a text is that isn't too long for this, if it is found in memory that is kept.
fn kept_value(alloc: Global, json: &str, scratch: &mut Scratch) -> Result<Option<Value>, AllocError>
    ensures reads { IfOk result (λ found. IfSome found (λ value. read json.now ≡ Some (view value))) }
{
    if json.len() <= LONGEST_KEPT {
        quick_value(alloc, json, scratch)
    } else {
        Ok(None)
    }
}

/// A line, or the lines of a document, without the last line's end.
fn without_end(text: &str) -> &str
    ensures cut { IsWithoutEnd text.now result.now }
{
    without_return(without_feed(text))
}

/// A text without a line feed at its end.
fn without_feed(text: &str) -> &str
    ensures cut { (text.now ≡ result.now) ⊎ (text.now ≡ result.now ++ 10 ∷ []) }
{
    match text.strip_suffix('\n') {
        Some(rest) => rest,
        None => text,
    }
}

/// A text without a carriage return at its end.
fn without_return(text: &str) -> &str
    ensures cut { (text.now ≡ result.now) ⊎ (text.now ≡ result.now ++ 13 ∷ []) }
{
    match text.strip_suffix('\r') {
        Some(rest) => rest,
        None => text,
    }
}
