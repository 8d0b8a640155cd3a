//! Texts as they are set. What stays is lent.
ghost use Rattle.std.specs.Prelude.{◌≡◌, IfOk, IfSome, None, MatchOption, IsSomeAnd};
ghost use Rattle.std.specs.Cow.{cow_str_bytes};
ghost use Rattle.snippet_model.specs.Same.{SameOption, SameText};
ghost use Rattle.snippet_model.specs.Source.{SameSource};
ghost use Rattle.snippet_shown.specs.LineFeeds.{IsOptionAsSet, IsTextAsSet};

use crate::as_set::line_feeds::with_line_feeds_shown;
use snippet_model::SourceText;
use snippet_text::CowStr;
use std::alloc::{AllocError, Global};

/// A text as it is set: with its line feeds shown where that is asked for, and else as it is.
pub fn text_as_set<'a>(
    alloc: Global,
    feeds: bool,
    text: &'a CowStr<'a>,
) -> Result<CowStr<'a>, AllocError>
    ensures set { IfOk result (IsTextAsSet feeds text.now) }
{
    if feeds {
        with_line_feeds_shown(alloc, text.as_str())
    } else {
        Ok(lent(text))
    }
}

/// A text that may be missing, as it is set.
pub fn option_as_set<'a>(
    alloc: Global,
    feeds: bool,
    text: &'a Option<CowStr<'a>>,
) -> Result<Option<CowStr<'a>>, AllocError>
    ensures set { IfOk result (IsOptionAsSet feeds text.now) }
{
    match text {
        Some(text) => Ok(Some(text_as_set(alloc, feeds, text)?)),
        None => Ok(None),
    }
}

/// This text, lent.
pub fn lent<'a>(text: &'a CowStr<'a>) -> CowStr<'a>
    ensures same { SameText text.now result }
{
    CowStr::Borrowed(text.as_str())
}

/// This text, which may be missing, lent.
pub fn option_lent<'a>(text: &'a Option<CowStr<'a>>) -> Option<CowStr<'a>>
    ensures same { SameOption SameText text.now result }
{
    match text {
        Some(text) => Some(lent(text)),
        None => None,
    }
}

/// This source, lent, with its lines where they are known.
pub fn source_lent<'a>(source: &'a SourceText<'a>) -> Result<SourceText<'a>, AllocError>
    ensures same { IfOk result (SameSource source.now) }
{
    match source.line_starts() {
        // Lines are lent with a text that is lent, so this copies none.
        Some(_) => source.clone(),
        None => Ok(SourceText::new(CowStr::Borrowed(source.as_str()))),
    }
}
