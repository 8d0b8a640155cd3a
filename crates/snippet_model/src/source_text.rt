//! The source of a snippet.
ghost use Rattle.std.specs.Prelude.{◌≡◌, IfOk, IfSome, chars, length, string_bytes, true};
ghost use Rattle.std.specs.Cow.{cow_str_bytes};
ghost use Rattle.std.specs.Option.{is_some};
ghost use Rattle.std.specs.Fmt.{debug_str};
ghost use Rattle.std.specs.List.{list_any};
ghost use Rattle.snippet_lines.specs.Controls.{is_masked};
ghost use Rattle.snippet_lines.specs.Starts as spec;
ghost use Rattle.snippet_model.specs.Source.{SameSource, unindexed};

use snippet_lines::{SourceLines, has_masked};
use snippet_text::CowStr;
use std::alloc::AllocError;
use std::fmt;
use std::marker::Model;

/// The text of a snippet's source: borrowed, owned, or that of lines that are lent.
///
/// What is drawn depends on the text alone, and not on whether its lines are known.
#[derive(Drop)]
pub struct SourceText<'a> {
    text: CowStr<'a>,
    /// The byte at which each line starts, where the lines are lent.
    starts: Option<&'a [usize]>,
    /// Whether it holds a control that `mask_controls` masks, where that is known.
    has_masked: Option<bool>,
}

impl<'a> Model for SourceText<'a> {
    ghost use Rattle.std.specs.Prelude.{◌≡◌, IfSome, chars};
    ghost use Rattle.std.specs.Cow.{cow_str_bytes};
    ghost use Rattle.std.specs.List.{list_any};
    ghost use Rattle.std.specs.Option.{is_some};
    ghost use Rattle.snippet_lines.specs.Controls.{is_masked};
    ghost use Rattle.snippet_lines.specs.Starts.{line_starts};
    ghost use Rattle.snippet_model.specs.Source.{SourceSeen};

    ghost Value = { SourceSeen };

    ghost view = { λ source. record { text = source.text; is_indexed = is_some source.starts } };

    ghost invariant = { λ source. IfSome source.starts (λ starts. starts.now ≡ line_starts (cow_str_bytes source.text))
        × IfSome source.has_masked (λ has. has ≡ list_any is_masked (chars (cow_str_bytes source.text))) };
}

impl<'a> SourceText<'a> {
    /// A text of which no lines are known.
    pub fn new(text: CowStr<'a>) -> SourceText<'a>
        ensures value { result ≡ unindexed text.entry }
    {
        SourceText {
            text,
            starts: None,
            has_masked: None,
        }
    }

    /// The text of a source whose lines were found before. It takes no memory.
    pub fn indexed(lines: &'a SourceLines<'_>) -> SourceText<'a>
        ensures text { cow_str_bytes result.text ≡ lines.now }
        ensures lines { result.is_indexed ≡ true }
    {
        SourceText {
            text: CowStr::Borrowed(lines.source()),
            starts: Some(lines.starts()),
            has_masked: Some(lines.has_masked()),
        }
    }

    /// The text.
    pub fn as_str(&self) -> &str
        ensures value { result.now ≡ cow_str_bytes self.now.text }
    {
        self.text.as_str()
    }

    /// How many bytes it has.
    pub fn len(&self) -> usize
        ensures value { result ≡ length (cow_str_bytes self.now.text) }
    {
        self.text.len()
    }

    /// The byte at which each of its lines starts, where these are lent.
    pub fn line_starts(&self) -> Option<&'a [usize]>
        ensures value { IfSome result (λ starts. starts.now ≡ spec.line_starts (cow_str_bytes self.now.text)) }
        ensures known { is_some result ≡ self.now.is_indexed }
    {
        self.starts
    }

    /// Whether it holds a control that `mask_controls` masks. If its lines are lent, no character of it is looked at.
    pub fn has_masked(&self) -> bool
        ensures value { result ≡ list_any is_masked (chars (cow_str_bytes self.now.text)) }
    {
        match self.has_masked {
            Some(known) => known,
            None => has_masked(self.as_str()),
        }
    }

    /// A copy: the same text, and the same lines. The one error is that memory ran out.
    pub fn clone(&self) -> Result<SourceText<'a>, AllocError>
        ensures same { IfOk result (SameSource self.now) }
    {
        Ok(SourceText {
            text: self.text.clone()?,
            starts: self.starts,
            has_masked: self.has_masked,
        })
    }
}

/// The text alone.
impl<'a> fmt::Debug for SourceText<'a> {
    ghost debug_output = { λ source. debug_str (cow_str_bytes source.text) };

    fn fmt<W: fmt::Write>(&self, f: &mut fmt::Formatter<W>) -> fmt::Result {
        fmt::Debug::fmt(&self.as_str(), f)
    }
}
