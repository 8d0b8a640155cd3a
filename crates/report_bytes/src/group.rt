//! How groups and their elements are read.

ghost use Rattle.std.specs.Prelude.{◌≡◌, IfOk};
ghost use Rattle.std.specs.Cow.{cow_str_bytes};
ghost use Rattle.snippet_model.specs.Fits.{ElementFits, GroupFits, TextFits};
ghost use Rattle.report_bytes.specs.Bytes.{IsElementThen, IsGroupThen, origin_then};
ghost use Rattle.report_bytes.specs.Reading.{Gives, after_element, after_group, after_origin};

use crate::fault::ReadError;
use crate::field::{kind, text};
use crate::kept::KeptSource;
use crate::kind::severity;
use crate::over::{OverKept, list_over};
use crate::part::option;
use crate::snippet::snippet;
use crate::title::message;
use snippet_model::{Element, Group, Origin, Padding};
use std::alloc::Global;

impl<'v> OverKept<'v> for Group<'v> {
    ghost IsPartThen = { IsGroupThen };

    ghost after = { after_group };

    ghost fits = { GroupFits };

    #[tactic(auto, unfolding(crate::specs::Reading::after_group), using(crate::proofs::OverKept::a_group))]
    fn read_over<'s>(
        alloc: Global,
        kept: &'v [KeptSource<'s>],
        bytes: &'v [u8],
    ) -> Result<(Self, &'v [u8]), ReadError> {
        let (number, rest) = kind(5, bytes)?;
        let (title, rest) = option(alloc, rest)?;
        let (elements, rest) = list_over(alloc, kept, rest)?;
        let group = Group {
            level: severity(number),
            title,
            elements,
        };
        Ok((group, rest))
    }
}

impl<'v> OverKept<'v> for Element<'v> {
    ghost IsPartThen = { IsElementThen };

    ghost after = { after_element };

    ghost fits = { ElementFits };

    #[tactic(auto, unfolding(crate::specs::Reading::after_element, crate::specs::Bytes::IsElementThen))]
    fn read_over<'s>(
        alloc: Global,
        kept: &'v [KeptSource<'s>],
        bytes: &'v [u8],
    ) -> Result<(Self, &'v [u8]), ReadError> {
        let (number, rest) = kind(5, bytes)?;
        match number {
            0 => {
                let (message, rest) = message(rest)?;
                Ok((Element::Message(message), rest))
            }
            1 => {
                let (read, rest) = snippet(alloc, kept, rest)?;
                Ok((Element::Cause(read.snippet), rest))
            }
            2 => {
                let (read, rest) = snippet(alloc, kept, rest)?;
                Ok((Element::Suggestion(read.snippet), rest))
            }
            3 => {
                let (origin, rest) = origin(alloc, rest)?;
                Ok((Element::Origin(origin), rest))
            }
            _ => Ok((Element::Padding(Padding), rest)),
        }
    }
}

/// The origin at the front.
#[tactic(auto, unfolding(crate::specs::Reading::after_origin))]
fn origin(alloc: Global, bytes: &[u8]) -> Result<(Origin<'_>, &[u8]), ReadError>
    ensures left { Gives (λ x. x.1.now) result (after_origin bytes.now) }
    ensures spelled { IfOk result (λ x. bytes.now ≡ origin_then x.0 x.1.now) }
    ensures fits { IfOk result (λ x. TextFits (cow_str_bytes x.0.path)) }
{
    let (path, rest) = text(bytes)?;
    let (line, rest) = option(alloc, rest)?;
    let (char_column, rest) = option(alloc, rest)?;
    let origin = Origin {
        path,
        line,
        char_column,
    };
    Ok((origin, rest))
}
