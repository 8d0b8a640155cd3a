//! A report with all that it is drawn by, and how it is read.

ghost use Rattle.std.specs.Prelude.{◌≡◌, ◌<◌, ◌^◌, [], ◌∷◌, IfOk, IsOkUnless, length};
ghost use Rattle.snippet_model.specs.Fits.{ReportFits};
ghost use Rattle.report_bytes.specs.Request as spec;
ghost use Rattle.report_bytes.specs.Request.{AreBytesOf, IsReport, after_request, after_version};
ghost use Rattle.report_bytes.specs.declared.request.DrawRequest.{DrawRequest};
ghost use Rattle.report_bytes.specs.Reading.{Gives};
ghost use Rattle.report_bytes.specs.declared.fault.ReadError.TheVariants.{Memory};

use crate::fault::{ReadError, Wrong};
use crate::kept::KeptSource;
use crate::over::list_over;
use crate::part::list;
use crate::settings::{Settings, settings_at};
use snippet_model::Group;
use snippet_style::Stylesheet;
use std::alloc::Global;

/// What is to be drawn, and how. Its texts are those of the bytes that it was read from, and of kept sources.
#[derive(Debug, Drop)]
pub struct DrawRequest<'v> {
    pub settings: Settings,
    /// The sheets that the report is printed under, one text for each.
    pub sheets: Vec<Stylesheet>,
    pub groups: Vec<Group<'v>>,
}

/// The report that the bytes are, all of them, over these sources that are kept: a number in place of a source's text
/// stands for the text of that one.
///
/// # Errors
///
/// What is wrong with the bytes, the first fault from left to right; `Memory` where there is none.
pub fn read<'v, 's>(
    alloc: Global,
    kept: &'v [KeptSource<'s>],
    bytes: &'v [u8],
) -> Result<DrawRequest<'v>, ReadError>
    // What is read is the report that the bytes are.
    ensures spelled { IfOk result (λ request. AreBytesOf kept.now request bytes.now) }

    // The bytes of a report are read, where memory is found.
    ensures only { (request : DrawRequest) → IsReport request → AreBytesOf kept.now request bytes.now
        → IsOkUnless result Memory }

    // Bytes that are none are refused for the first fault.
    ensures left { Gives (λ request. []) result (after_request (length kept.now) bytes.now) }
    ensures fits { IfOk result (λ request. ReportFits request.groups.items) }
{
    whole(alloc, kept, bytes)
}

/// The report at the front, after which there is nothing.
#[tactic(auto, unfolding(crate::specs::Request::after_request), using(crate::proofs::OverKept::a_request))]
fn whole<'v, 's>(
    alloc: Global,
    kept: &'v [KeptSource<'s>],
    bytes: &'v [u8],
) -> Result<DrawRequest<'v>, ReadError>
    ensures spelled { IfOk result (λ request. AreBytesOf kept.now request bytes.now) }
    ensures left { Gives (λ request. []) result (after_request (length kept.now) bytes.now) }
    ensures few { length kept.now < 2 ^ 64 }
    ensures fits { IfOk result (λ request. ReportFits request.groups.items) }
{
    let rest = version(bytes)?;
    let (settings, rest) = settings_at(rest)?;
    let (sheets, rest) = list(alloc, rest)?;
    let (groups, rest) = list_over(alloc, kept, rest)?;
    if !rest.is_empty() {
        return Err(ReadError::at(Wrong::Trailing, rest));
    }
    Ok(DrawRequest {
        settings,
        sheets,
        groups,
    })
}

/// What is left after the version of the form, the first byte.
fn version(bytes: &[u8]) -> Result<&[u8], ReadError>
    ensures left { Gives (λ x. x.now) result (after_version bytes.now) }
    ensures spelled { IfOk result (λ rest. bytes.now ≡ spec.version ∷ rest.now) }
{
    match bytes {
        [] => Err(ReadError::at(Wrong::Short, bytes)),
        [3, rest @ ..] => Ok(rest),
        [_, ..] => Err(ReadError::at(Wrong::Kind, bytes)),
    }
}
