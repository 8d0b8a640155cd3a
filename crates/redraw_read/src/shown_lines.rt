//! The lines of a text by what stands in them where the message of a suggestion may: for a message few of them are
//! looked at.

ghost use Rattle.std.specs.Prelude.{◌≡◌, ◌==◌, ◌<◌, ◌≤◌, ◌++◌, ◌⊎◌, ℕ, List, [], ◌∷◌, Some, IfOk, IfSome, OnOk};
ghost use Rattle.std.specs.Prelude.{false, length, slice_index_or, string_bytes, true};
ghost use Rattle.std.specs.List.{slice_split};
ghost use Rattle.std.specs.Option.{IsSomeAnd};
ghost use Rattle.std.specs.Str.{bytes_eq};
ghost use Rattle.redraw_read.specs.Rendered.{way, way_of};
ghost use Rattle.redraw_read.specs.Rendered as spec;
ghost use Rattle.redraw_read.specs.ShownLines.{AreNumbersOf, first_of, number_of, texts};
ghost use Rattle.redraw_read.specs.declared.rendered.Stand.TheVariants as stand;
ghost use Rattle.redraw_report.specs.Report.{lent};

use crate::rendered::{Manner, Stand, is_of, manner_by, shown_in, stands_in};
use crate::words::begins_with;
use std::alloc::{AllocError, Global};
use std::collections::BTreeMap;

/// The numbers of lines by what stands there where a message may; of lines with the same that of the first.
pub type LineNumbers = BTreeMap<String, usize>;

/// The lines of a text, and their numbers.
#[derive(Drop)]
pub struct ShownLines<'t> {
    pub text: &'t str,
    lines: Vec<&'t str>,
    titles: LineNumbers,
    messages: LineNumbers,
    labels: LineNumbers,
    ghost split: { texts lines.items ≡ slice_split (λ b. b == 10) text.now },
    ghost titled: { AreNumbersOf stand.Title titles (texts lines.items) },
    ghost messaged: { AreNumbersOf stand.Message messages (texts lines.items) },
    ghost labelled: { AreNumbersOf stand.Label labels (texts lines.items) },
}

impl<'t> ShownLines<'t> {
    /// Those of a text.
    pub fn new(alloc: Global, text: &'t str) -> Result<ShownLines<'t>, AllocError>
        ensures text { IfOk result (λ lines. lines.text.now ≡ text.now) }
    {
        let lines = lines_of(alloc, text)?;
        let titles = numbers_of(alloc, Stand::Title, &lines)?;
        let messages = numbers_of(alloc, Stand::Message, &lines)?;
        let labels = numbers_of(alloc, Stand::Label, &lines)?;
        Ok(ShownLines {
            text,
            lines,
            titles,
            messages,
            labels,
        })
    }

    /// How a suggestion with this message is shown in the text.
    pub fn manner_of(&self, message: &String) -> Manner<'t>
        ensures value { way_of result ≡ way (string_bytes message.now) self.now.text.now }
    {
        let title = shown_first(Stand::Title, message, &self.titles, &self.lines);
        let said = shown_first(Stand::Message, message, &self.messages, &self.lines);
        let label = shown_first(Stand::Label, message, &self.labels, &self.lines);
        manner_by(title, said, label)
    }
}

/// The lines of a text.
pub fn lines_of<'t>(alloc: Global, text: &'t str) -> Result<Vec<&'t str>, AllocError>
    ensures each { IfOk result (λ lines. texts lines.items ≡ slice_split (λ b. b == 10) text.now) }
{
    text.split('\n').collect(alloc)
}

/// The numbers of some lines by what stands there.
pub fn numbers_of(alloc: Global, place: Stand, lines: &[&str]) -> Result<LineNumbers, AllocError>
    ensures each { IfOk result (λ numbers. AreNumbersOf place numbers (texts lines.now)) }
{
    let mut numbers = BTreeMap::new(alloc);
    for (number, line) in lines.iter().enumerate() {
        add_number(alloc, &mut numbers, place, *line, number)?;
    }
    Ok(numbers)
}

/// Adds the number of a line by what stands there, unless a line before it has the same.
fn add_number(
    alloc: Global,
    numbers: &mut LineNumbers,
    place: Stand,
    line: &str,
    number: usize,
) -> Result<(), AllocError>
    ensures added { (lines : List (List ℕ)) → AreNumbersOf place numbers.old lines → number ≡ length lines
        → OnOk result (AreNumbersOf place numbers.new (lines ++ line.now ∷ [])) }
{
    if let Some(text) = stands_in(place, line) {
        add_new(alloc, numbers, text, number)?;
    }
    Ok(())
}

/// Adds a number by a text, unless there is one by it.
fn add_new(
    alloc: Global,
    numbers: &mut LineNumbers,
    text: &str,
    number: usize,
) -> Result<(), AllocError>
    ensures added { (t : List ℕ) → OnOk result (number_of numbers.new t
        ≡ first_of (number_of numbers.old t) (bytes_eq text.now t) number) }
{
    if !numbers.contains_key(text) {
        let text = String::from_str(alloc, text)?;
        numbers.insert(text, number)?;
    }
    Ok(())
}

/// What the first of some lines shows of a message, by their numbers.
fn shown_first<'t>(
    place: Stand,
    message: &String,
    numbers: &LineNumbers,
    lines: &[&'t str],
) -> Option<&'t str>
    requires numbered { AreNumbersOf place numbers.now (texts lines.now) }
    ensures value { lent result ≡ spec.first_shown place (string_bytes message.now) (texts lines.now) }
{
    match least_number(place, numbers, message) {
        Some(number) => shown_at(place, message.as_str(), lines, number),
        None => None,
    }
}

/// What the line with this number shows of a message.
fn shown_at<'t>(place: Stand, message: &str, lines: &[&'t str], number: usize) -> Option<&'t str>
    ensures value { (d : List ℕ) → number < length (texts lines.now)
        → lent result ≡ spec.shown_in place message.now (slice_index_or (texts lines.now) number d) }
{
    if number < lines.len() {
        shown_in(place, message, lines[number])
    } else {
        None
    }
}

/// The least number by a text that is a message's.
fn least_number(place: Stand, numbers: &LineNumbers, message: &String) -> Option<usize>
    ensures is { IfSome result (λ least. (t : List ℕ) × (number_of numbers.now t ≡ Some least)
        × (spec.is_of place (string_bytes message.now) t ≡ true)) }
    ensures least { (t : List ℕ) (n : ℕ) → number_of numbers.now t ≡ Some n
        → spec.is_of place (string_bytes message.now) t ≡ true → IsSomeAnd result (λ least. least ≤ n) }
{
    let mut least = None;
    for (text, number) in numbers.range(message..) {
        if !begins_with(text.as_str(), message.as_str()) {
            return least;
        }
        let is_its = is_of(place, message.as_str(), text.as_str());
        least = lesser_if(is_its, least, *number);
    }
    least
}

/// The lesser of two numbers, if there are two and the second counts.
fn lesser_if(counts: bool, one: Option<usize>, other: usize) -> Option<usize>
    ensures of { counts ≡ true → IfSome result (λ n. (n ≡ other) ⊎ (one ≡ Some n)) }
    ensures within { counts ≡ true → IsSomeAnd result (λ n. n ≤ other) }
    ensures least { IfSome one (λ n. IsSomeAnd result (λ r. r ≤ n)) }
    ensures kept { counts ≡ false → result ≡ one }
{
    if counts {
        Some(lesser(one, other))
    } else {
        one
    }
}

/// The lesser of two numbers, if there are two.
fn lesser(one: Option<usize>, other: usize) -> usize
    ensures of { (result ≡ other) ⊎ (one ≡ Some result) }
    ensures within { result ≤ other }
    ensures least { IfSome one (λ n. result ≤ n) }
{
    match one {
        Some(one) if one < other => one,
        _ => other,
    }
}
