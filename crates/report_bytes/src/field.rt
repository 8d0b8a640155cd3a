//! What the parts of a report are made of: numbers, flags, kinds and texts.

ghost use Rattle.std.specs.Prelude.{◌≡◌, ◌<◌, ◌∷◌, ◌++◌, IfOk, length};
ghost use Rattle.std.specs.Cow.{cow_str_bytes};
ghost use Rattle.snippet_model.specs.Fits.{TextFits};
ghost use Rattle.report_bytes.specs.Bytes.{flag_then, number_then, text_then};
ghost use Rattle.report_bytes.specs.Reading.{Gives, after_text, read_flag, read_kind, read_number, read_text_of};

use crate::fault::{ReadError, Wrong};
use snippet_text::CowStr;

/// The number at the front.
pub fn number(bytes: &[u8]) -> Result<(usize, &[u8]), ReadError>
    ensures reads { Gives (λ x. (x.0, x.1.now)) result (read_number bytes.now) }
    ensures spelled { IfOk result (λ x. bytes.now ≡ number_then x.0 x.1.now) }
{
    if bytes.len() < 8 {
        return Err(ReadError::at(Wrong::Short, bytes));
    }
    let (front, rest) = bytes.split_at(8);
    let number = u64::from_le_bytes([
        front[0], front[1], front[2], front[3], front[4], front[5], front[6], front[7],
    ]);
    Ok((number as usize, rest))
}

/// The yes or no at the front.
pub fn flag(bytes: &[u8]) -> Result<(bool, &[u8]), ReadError>
    ensures reads { Gives (λ x. (x.0, x.1.now)) result (read_flag bytes.now) }
    ensures spelled { IfOk result (λ x. bytes.now ≡ flag_then x.0 x.1.now) }
{
    match bytes {
        [] => Err(ReadError::at(Wrong::Short, bytes)),
        [0, rest @ ..] => Ok((false, rest)),
        [1, rest @ ..] => Ok((true, rest)),
        [_, ..] => Err(ReadError::at(Wrong::Flag, bytes)),
    }
}

/// The byte at the front, which has to be below a bound.
pub fn kind(bound: u8, bytes: &[u8]) -> Result<(u8, &[u8]), ReadError>
    ensures reads { Gives (λ x. (x.0, x.1.now)) result (read_kind bound bytes.now) }
    ensures spelled { IfOk result (λ x. bytes.now ≡ x.0 ∷ x.1.now) }
    ensures below { IfOk result (λ x. x.0 < bound) }
{
    match bytes {
        [] => Err(ReadError::at(Wrong::Short, bytes)),
        [byte, rest @ ..] => {
            if *byte < bound {
                Ok((*byte, rest))
            } else {
                Err(ReadError::at(Wrong::Kind, bytes))
            }
        }
    }
}

/// The text of so many bytes at the front.
#[tactic(auto, using(crate::proofs::Texts::no_text, crate::proofs::Texts::a_text))]
fn text_of_size(count: usize, bytes: &[u8]) -> Result<(&str, &[u8]), ReadError>
    ensures reads { Gives (λ x. (x.0.now, x.1.now)) result (read_text_of count bytes.now) }
    ensures spelled { IfOk result (λ x. bytes.now ≡ x.0.now ++ x.1.now) }
    ensures count { IfOk result (λ x. length x.0.now ≡ count) }
    ensures fits { IfOk result (λ x. TextFits x.0.now) }
{
    if bytes.len() < count {
        return Err(ReadError::at(Wrong::Short, bytes));
    }
    if count >= 1 << 56 {
        return Err(ReadError::at(Wrong::Long, bytes));
    }
    let (front, rest) = bytes.split_at(count);
    match std::str::from_utf8(front) {
        Ok(text) => Ok((text, rest)),
        Err(_) => Err(ReadError::at(Wrong::NotText, bytes)),
    }
}

/// The text at the front.
#[tactic(auto, unfolding(crate::specs::Reading::after_text))]
pub fn text(bytes: &[u8]) -> Result<(CowStr<'_>, &[u8]), ReadError>
    ensures left { Gives (λ x. x.1.now) result (after_text bytes.now) }
    ensures spelled { IfOk result (λ x. bytes.now ≡ text_then x.0 x.1.now) }
    ensures fits { IfOk result (λ x. TextFits (cow_str_bytes x.0)) }
{
    let (count, rest) = number(bytes)?;
    let (text, rest) = text_of_size(count, rest)?;
    Ok((CowStr::Borrowed(text), rest))
}
