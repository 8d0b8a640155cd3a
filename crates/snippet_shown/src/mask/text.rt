//! Characters that are masked, and texts of which they are.
ghost use Rattle.std.specs.Prelude.{◌≡◌, chars, false, string_bytes, IfOk};
ghost use Rattle.snippet_model.specs.Same.{SameOption};
ghost use Rattle.snippet_shown.specs.Masked as spec;
ghost use Rattle.snippet_shown.specs.Masked.{IsAligned, IsMaskedInPlace, IsTextMasked};

use snippet_lines::{has_masked, is_masked};
use snippet_model::SourceText;
use snippet_text::{CowStr, normalize_untrusted_str};
use std::alloc::{AllocError, Global};

/// What stands in the place of a character: of one that is masked a sign of as many bytes, of any other itself.
fn mask_of(c: char) -> char
    ensures value { result ≡ spec.mask_of c }
{
    if !is_masked(c) {
        c
    } else if c < '\u{800}' {
        '\u{a4}'
    } else {
        '\u{fffd}'
    }
}

/// A text, each of its characters masked.
fn replaced(alloc: Global, text: &str) -> Result<String, AllocError>
    ensures value { IfOk result (λ shown. chars (string_bytes shown) ≡ spec.masked (chars text.now)) }
    ensures aligned { IfOk result (λ shown. IsAligned text.now (string_bytes shown)) }
{
    let mut shown = String::new(alloc);
    for c in text.chars() {
        shown.push(mask_of(c))?;
    }
    Ok(shown)
}

/// A text, masked: the one given where it holds no character that is.
pub fn text_masked<'a>(alloc: Global, text: CowStr<'a>) -> Result<CowStr<'a>, AllocError>
    ensures masked { IfOk result (IsMaskedInPlace text.entry) }
{
    if has_masked(text.as_str()) {
        Ok(CowStr::Owned(replaced(alloc, text.as_str())?))
    } else {
        Ok(text)
    }
}

/// A text that is trusted or not, masked. In a trusted one the listed characters are shown as they are in others.
pub fn text_masked_in<'a>(
    alloc: Global,
    trusted: bool,
    text: CowStr<'a>,
) -> Result<CowStr<'a>, AllocError>
    ensures masked { IfOk result (IsTextMasked trusted text.entry) }
{
    let masked = text_masked(alloc, text)?;
    if trusted {
        Ok(CowStr::Owned(normalize_untrusted_str(alloc, masked.as_str())?))
    } else {
        Ok(masked)
    }
}

/// A text that may be missing, masked.
pub fn option_masked<'a>(
    alloc: Global,
    text: Option<CowStr<'a>>,
) -> Result<Option<CowStr<'a>>, AllocError>
    ensures masked { IfOk result (SameOption (IsTextMasked false) text.entry) }
{
    match text {
        Some(text) => Ok(Some(text_masked(alloc, text)?)),
        None => Ok(None),
    }
}

/// A source, masked: the one given, with its lines where they are known, where it holds no character that is.
pub fn source_masked<'a>(
    alloc: Global,
    source: SourceText<'a>,
) -> Result<SourceText<'a>, AllocError>
    ensures masked { IfOk result (λ masked. IsMaskedInPlace source.entry.text masked.text) }
{
    if source.has_masked() {
        let masked = replaced(alloc, source.as_str())?;
        Ok(SourceText::new(CowStr::Owned(masked)))
    } else {
        Ok(source)
    }
}
