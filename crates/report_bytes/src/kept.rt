//! Sources that are kept: reports name them by their numbers.

ghost use Rattle.std.specs.Prelude.{◌≡◌, IfOk};
ghost use Rattle.snippet_model.specs.Fits.{TextFits};

use snippet_lines::SourceLines;
use snippet_text::CowStr;
use std::alloc::{AllocError, Global};
use std::marker::Model;
use std::sync::Arc;

/// A source that is kept: its text, and the bytes at which its lines start. Owners in any threads may share it.
#[derive(Drop)]
pub struct KeptSource<'s> {
    lines: Arc<SourceLines<'s>>,
}

impl<'s> Model for KeptSource<'s> {
    ghost use Rattle.std.specs.Prelude.{ℕ, List};
    ghost use Rattle.snippet_model.specs.Fits.{TextFits};

    ghost Value = { List ℕ };

    ghost view = { λ kept. kept.lines.value };

    ghost invariant = { λ kept. TextFits kept.lines.value };
}

impl<'s> KeptSource<'s> {
    /// Copies a text and finds its lines. The one error is that memory ran out.
    pub fn new(alloc: Global, text: &str) -> Result<KeptSource<'s>, AllocError>
        requires fits { TextFits text.now }
        ensures text { IfOk result (λ kept. kept ≡ text.now) }
    {
        let own = String::from_str(alloc, text)?;
        let lines = SourceLines::new_cow(alloc, CowStr::Owned(own))?;
        Ok(KeptSource {
            lines: Arc::new(alloc, lines)?,
        })
    }

    /// Its text with its lines.
    pub fn lines(&self) -> &SourceLines<'s>
        ensures text { result.now ≡ self.now }
        ensures fits { TextFits self.now }
    {
        &self.lines
    }

    /// The same source for one more owner. The one error is that there are too many.
    pub fn share(&self) -> Result<KeptSource<'s>, AllocError>
        ensures same { IfOk result (λ kept. kept ≡ self.now) }
    {
        Ok(KeptSource {
            lines: Arc::try_clone(&self.lines)?,
        })
    }
}
