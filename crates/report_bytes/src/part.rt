//! What a part of a report is, and how options and lists of parts are read.

ghost use Rattle.std.specs.Prelude.{◌≡◌, ◌/◌, min, ℕ, List, Result, All, IfOk, IfSome, length};
ghost use Rattle.std.specs.Cow.{cow_str_bytes};
ghost use Rattle.snippet_model.specs.Fits.{TextFits};
ghost use Rattle.report_bytes.specs.Bytes.{list_then, members_then, number_then, option_then, text_then};
ghost use Rattle.report_bytes.specs.Reading.{Gives, after_list, after_members, after_number, after_option, after_text};
ghost use Rattle.report_bytes.specs.declared.fault.ByteFault.{ByteFault};

use crate::fault::ReadError;
use crate::field::{flag, number, text};
use snippet_text::CowStr;
use std::alloc::Global;

/// A part of a report, as it stands in bytes.
pub trait FromBytes<'v> {
    /// The bytes of a part, and then those that follow it.
    ghost part_then: { Self → List ℕ → List ℕ };

    /// What is left of bytes once a part is read, or the first fault.
    ghost after: { List ℕ → Result (List ℕ) ByteFault };

    /// What holds of each part that is read: that its texts fit.
    ghost fits: { Self → Type 0 };

    /// The part at the front, and what is left.
    fn read(alloc: Global, bytes: &'v [u8]) -> Result<(Self, &'v [u8]), ReadError>
        ensures left { Gives (λ x. x.1.now) result (after bytes.now) }
        ensures spelled { IfOk result (λ x. bytes.now ≡ part_then x.0 x.1.now) }
        ensures fits { IfOk result (λ x. fits x.0) };
}

impl<'v> FromBytes<'v> for usize {
    ghost part_then = { number_then };

    ghost after = { after_number };

    ghost fits = { λ _. Unit {0} };

    fn read(_alloc: Global, bytes: &'v [u8]) -> Result<(Self, &'v [u8]), ReadError> {
        number(bytes)
    }
}

impl<'v> FromBytes<'v> for CowStr<'v> {
    ghost part_then = { text_then };

    ghost after = { after_text };

    ghost fits = { λ text. TextFits (cow_str_bytes text) };

    fn read(_alloc: Global, bytes: &'v [u8]) -> Result<(Self, &'v [u8]), ReadError> {
        text(bytes)
    }
}

/// What may be missing at the front.
#[tactic(auto, unfolding(crate::specs::Reading::after_option))]
pub fn option<'v, T: FromBytes<'v> + Drop>(
    alloc: Global,
    bytes: &'v [u8],
) -> Result<(Option<T>, &'v [u8]), ReadError>
    ensures left { Gives (λ x. x.1.now) result (after_option T.after bytes.now) }
    ensures spelled { IfOk result (λ x. bytes.now ≡ option_then T.part_then x.0 x.1.now) }
    ensures fits { IfOk result (λ x. IfSome x.0 T.fits) }
{
    let (is_there, rest) = flag(bytes)?;
    if is_there {
        let (part, rest) = T::read(alloc, rest)?;
        Ok((Some(part), rest))
    } else {
        Ok((None, rest))
    }
}

/// The list at the front.
#[tactic(auto, unfolding(crate::specs::Reading::after_list))]
pub fn list<'v, T: FromBytes<'v> + Drop>(
    alloc: Global,
    bytes: &'v [u8],
) -> Result<(Vec<T>, &'v [u8]), ReadError>
    ensures left { Gives (λ x. x.1.now) result (after_list T.after bytes.now) }
    ensures spelled { IfOk result (λ x. bytes.now ≡ list_then T.part_then x.0.items x.1.now) }
    ensures fits { IfOk result (λ x. All T.fits x.0.items) }
{
    let (count, rest) = number(bytes)?;
    members(alloc, count, rest)
}

/// For how many members of a list memory is taken before they are read: no more than as many as bytes may hold that are
/// there.
pub fn room_for(count: usize, bytes: &[u8]) -> usize
    ensures value { result ≡ min count (length bytes.now / 16) }
{
    count.min(bytes.len() / MEMBER_BYTES)
}

/// How many bytes a member takes, but for the shortest.
const MEMBER_BYTES: usize = 16;

/// So many members at the front. No memory is taken for those that aren't there.
fn members<'v, T: FromBytes<'v> + Drop>(
    alloc: Global,
    count: usize,
    bytes: &'v [u8],
) -> Result<(Vec<T>, &'v [u8]), ReadError>
    ensures left { Gives (λ x. x.1.now) result (after_members T.after count bytes.now) }
    ensures spelled { IfOk result (λ x. bytes.now ≡ members_then T.part_then x.0.items x.1.now) }
    ensures count { IfOk result (λ x. length x.0.items ≡ count) }
    ensures fits { IfOk result (λ x. All T.fits x.0.items) }
{
    let mut parts = Vec::with_capacity(alloc, room_for(count, bytes))?;
    let mut rest = bytes;
    for _ in 0..count {
        let (part, left) = T::read(alloc, rest)?;
        parts.push(part)?;
        rest = left;
    }
    Ok((parts, rest))
}
