//! What stands over sources that are kept: groups and elements, and how lists of them are read.

ghost use Rattle.std.specs.Prelude.{◌≡◌, ℕ, List, Result, All, IfOk, length};
ghost use Rattle.report_bytes.specs.Bytes.{AreMembersThen, IsListThen};
ghost use Rattle.report_bytes.specs.Reading.{Gives, after_list, after_members};
ghost use Rattle.report_bytes.specs.declared.fault.ByteFault.{ByteFault};

use crate::fault::ReadError;
use crate::field::number;
use crate::kept::KeptSource;
use crate::part::room_for;
use std::alloc::Global;

/// A part of a report that may name kept sources by their numbers, as it stands in bytes.
pub trait OverKept<'v> {
    /// Whether bytes are those of a part over these kept texts, and then those that follow it.
    ghost IsPartThen: { List (List ℕ) → Self → List ℕ → List ℕ → Type 0 };

    /// What is left of bytes once a part over so many kept sources is read, or the first fault.
    ghost after: { ℕ → List ℕ → Result (List ℕ) ByteFault };

    /// What holds of each part that is read: that its texts fit.
    ghost fits: { Self → Type 0 };

    /// The part at the front, and what is left.
    fn read_over<'s>(
        alloc: Global,
        kept: &'v [KeptSource<'s>],
        bytes: &'v [u8],
    ) -> Result<(Self, &'v [u8]), ReadError>
        ensures left { Gives (λ x. x.1.now) result (after (length kept.now) bytes.now) }
        ensures spelled { IfOk result (λ x. IsPartThen kept.now x.0 bytes.now x.1.now) }
        ensures fits { IfOk result (λ x. fits x.0) };
}

/// The list at the front.
#[tactic(auto, unfolding(crate::specs::Reading::after_list), using(crate::proofs::OverKept::a_list))]
pub fn list_over<'v, 's, T: OverKept<'v> + Drop>(
    alloc: Global,
    kept: &'v [KeptSource<'s>],
    bytes: &'v [u8],
) -> Result<(Vec<T>, &'v [u8]), ReadError>
    ensures left { Gives (λ x. x.1.now) result (after_list (T.after (length kept.now)) bytes.now) }
    ensures spelled { IfOk result (λ x. IsListThen (T.IsPartThen kept.now) x.0.items bytes.now x.1.now) }
    ensures fits { IfOk result (λ x. All T.fits x.0.items) }
{
    let (count, rest) = number(bytes)?;
    members_over(alloc, count, kept, rest)
}

/// So many members at the front. No memory is taken for those that aren't there.
#[tactic(auto, using(crate::proofs::OverKept::no_members))]
fn members_over<'v, 's, T: OverKept<'v> + Drop>(
    alloc: Global,
    count: usize,
    kept: &'v [KeptSource<'s>],
    bytes: &'v [u8],
) -> Result<(Vec<T>, &'v [u8]), ReadError>
    ensures left { Gives (λ x. x.1.now) result (after_members (T.after (length kept.now)) count bytes.now) }
    ensures spelled { IfOk result (λ x. AreMembersThen (T.IsPartThen kept.now) x.0.items bytes.now x.1.now) }
    ensures count { IfOk result (λ x. length x.0.items ≡ count) }
    ensures fits { IfOk result (λ x. All T.fits x.0.items) }
{
    let mut parts = Vec::with_capacity(alloc, room_for(count, bytes))?;
    let mut rest = bytes;
    for _ in 0..count {
        let (part, left) = T::read_over(alloc, kept, rest)?;
        parts.push(part)?;
        rest = left;
    }
    Ok((parts, rest))
}
