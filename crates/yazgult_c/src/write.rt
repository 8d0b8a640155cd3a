//! Answers as bytes.

ghost use Rattle.std.specs.Prelude.{◌≡◌, ◌++◌, IfOk, OnOk, map, string_bytes};
ghost use Rattle.std.specs.List.{flat_map};
ghost use Rattle.yazgult_c.specs.AnswerBytes.{answer_bytes, element_bytes, marker_bytes, number_bytes, overlap_bytes};
ghost use Rattle.yazgult_c.specs.AnswerBytes.{refusal_bytes, refusal_fields, text_bytes, wrong_number, wrong_text};

use crate::answer::Answer;
use annotate_snippets::renderer::RenderError;
use report_bytes::Wrong;
use std::alloc::{AllocError, Global};

/// The answer that there was no memory.
pub const NO_MEMORY: [u8; 1] = [3];

/// The bytes of an answer.
pub fn written(alloc: Global, answer: &Answer) -> Result<Vec<u8>, AllocError>
    ensures bytes { IfOk result (λ bytes. bytes.items ≡ answer_bytes answer.now) }
{
    let mut out = Vec::with_capacity(alloc, room_for(answer))?;
    match answer {
        Answer::Texts(texts) => {
            out.push(0)?;
            push_number(&mut out, texts.len())?;
            push_texts(&mut out, texts)?;
        }
        Answer::Refused(refusal) => {
            out.push(1)?;
            push_refusal(alloc, &mut out, refusal)?;
        }
        Answer::NoReport(wrong, place) => {
            out.push(2)?;
            out.push(number_of(*wrong))?;
            push_number(&mut out, *place)?;
            push_text(&mut out, words_of(*wrong))?;
        }
        Answer::Memory => out.push(3)?,
    }
    Ok(out)
}

/// Room that the bytes of most answers take, so that nothing is moved as they grow.
fn room_for(answer: &Answer) -> usize {
    match answer {
        Answer::Texts(texts) => texts.iter().fold(16usize, |room, text| {
            room.saturating_add(text.len()).saturating_add(8)
        }),
        _ => 128,
    }
}

/// Adds a number.
fn push_number(out: &mut Vec<u8>, number: usize) -> Result<(), AllocError>
    ensures added { OnOk result (out.new.items ≡ out.old.items ++ number_bytes number) }
{
    out.extend_from_slice(&(number as u64).to_le_bytes())
}

/// Adds a text.
fn push_text(out: &mut Vec<u8>, text: &str) -> Result<(), AllocError>
    ensures added { OnOk result (out.new.items ≡ out.old.items ++ text_bytes text.now) }
{
    push_number(out, text.len())?;
    out.extend_from_slice(text.as_bytes())
}

/// Adds texts, one after the other.
fn push_texts(out: &mut Vec<u8>, texts: &[String]) -> Result<(), AllocError>
    ensures added { OnOk result (out.new.items ≡ out.old.items
        ++ flat_map text_bytes (map string_bytes texts.now)) }
{
    for text in texts {
        push_text(out, text.as_str())?;
    }
    Ok(())
}

/// Adds a refusal: its number, the numbers that it names, and its words.
fn push_refusal(alloc: Global, out: &mut Vec<u8>, refusal: &RenderError) -> Result<(), AllocError>
    ensures added { OnOk result (out.new.items ≡ out.old.items ++ refusal_bytes refusal.now) }
{
    let words = format!(in alloc; "{}", refusal.words())?;
    push_fields(out, refusal)?;
    push_text(out, words.as_str())
}

/// Adds the number of a refusal and the numbers that it names.
fn push_fields(out: &mut Vec<u8>, refusal: &RenderError) -> Result<(), AllocError>
    ensures added { OnOk result (out.new.items ≡ out.old.items ++ refusal_fields refusal.now) }
{
    match refusal {
        RenderError::NoGroup => Ok(out.push(0)?),
        RenderError::NoTitle => Ok(out.push(1)?),
        RenderError::SpanReversed {
            group,
            element,
            marker,
        } => push_marker(out, 2, *group, *element, *marker),
        RenderError::SpanPastEnd {
            group,
            element,
            marker,
        } => push_marker(out, 3, *group, *element, *marker),
        RenderError::SpanOffBoundary {
            group,
            element,
            marker,
        } => push_marker(out, 4, *group, *element, *marker),
        RenderError::PatchesOverlap {
            group,
            element,
            first,
            second,
        } => push_overlap(out, *group, *element, *first, *second),
        RenderError::LineNumberTooLarge { group, element } => {
            push_element(out, 6, *group, *element)
        }
        RenderError::Memory(_) => Ok(out.push(7)?),
    }
}

/// Adds the number of a refusal and those of a marker.
fn push_marker(
    out: &mut Vec<u8>,
    number: u8,
    group: usize,
    element: usize,
    marker: usize,
) -> Result<(), AllocError>
    ensures added { OnOk result (out.new.items ≡ out.old.items ++ marker_bytes number group element marker) }
{
    out.push(number)?;
    push_number(out, group)?;
    push_number(out, element)?;
    push_number(out, marker)
}

/// Adds the number of a refusal and those of two markers.
fn push_overlap(
    out: &mut Vec<u8>,
    group: usize,
    element: usize,
    first: usize,
    second: usize,
) -> Result<(), AllocError>
    ensures added { OnOk result (out.new.items ≡ out.old.items ++ overlap_bytes group element first second) }
{
    out.push(5)?;
    push_number(out, group)?;
    push_number(out, element)?;
    push_two(out, first, second)
}

/// Adds two numbers.
fn push_two(out: &mut Vec<u8>, first: usize, second: usize) -> Result<(), AllocError>
    ensures added { OnOk result (out.new.items ≡ out.old.items ++ (number_bytes first ++ number_bytes second)) }
{
    push_number(out, first)?;
    push_number(out, second)
}

/// Adds the number of a refusal and those of an element.
fn push_element(
    out: &mut Vec<u8>,
    number: u8,
    group: usize,
    element: usize,
) -> Result<(), AllocError>
    ensures added { OnOk result (out.new.items ≡ out.old.items ++ element_bytes number group element) }
{
    out.push(number)?;
    push_number(out, group)?;
    push_number(out, element)
}

/// The number of what is wrong with bytes.
fn number_of(wrong: Wrong) -> u8
    ensures number { result ≡ wrong_number wrong }
{
    match wrong {
        Wrong::Short => 0,
        Wrong::Flag => 1,
        Wrong::Kind => 2,
        Wrong::Long => 3,
        Wrong::NotText => 4,
        Wrong::Trailing => 5,
    }
}

/// What is wrong with bytes, in words.
fn words_of(wrong: Wrong) -> &'static str
    ensures words { result.now ≡ wrong_text wrong }
{
    match wrong {
        Wrong::Short => "the bytes end before what has to stand here does",
        Wrong::Flag => "neither 0 nor 1",
        Wrong::Kind => "there is no kind of this number",
        Wrong::Long => "a text has 2^56 bytes or more",
        Wrong::NotText => "a text is not UTF-8",
        Wrong::Trailing => "bytes stand after the report",
    }
}
