//! A source whose lines are found once.
ghost use Rattle.std.specs.Prelude.{◌≡◌, IfOk, chars};
ghost use Rattle.std.specs.Cow.{cow_str_bytes};
ghost use Rattle.std.specs.Fmt.{debug_str};
ghost use Rattle.std.specs.List.{list_any};
ghost use Rattle.snippet_lines.specs.Controls.{is_masked};
ghost use Rattle.snippet_lines.specs.Starts as spec;

use crate::controls::has_masked;
use memchr::memchr_iter;
use snippet_text::CowStr;
use std::alloc::{AllocError, Global};
use std::fmt;
use std::marker::Model;

/// A source with the bytes at which its lines start.
///
/// It is made once, kept, and lent to any number of snippets by `Snippet::indexed`: drawing these looks for no line
/// again, and prints what it prints of the source's text. It takes eight bytes for each line.
///
/// ```
/// let lines = SourceLines::new(alloc, source)?;
/// let snippet = Snippet::indexed(alloc, &lines).annotation(mark)?;
/// ```
#[derive(Drop)]
pub struct SourceLines<'a> {
    source: CowStr<'a>,
    /// The byte at which each line starts. An empty source has one line.
    starts: Vec<usize>,
    /// Whether it holds a control that `mask_controls` masks.
    has_masked: bool,
}

impl<'a> Model for SourceLines<'a> {
    ghost use Rattle.std.specs.Prelude.{◌≡◌, ℕ, List, chars};
    ghost use Rattle.std.specs.Cow.{cow_str_bytes};
    ghost use Rattle.std.specs.List.{list_any};
    ghost use Rattle.snippet_lines.specs.Controls.{is_masked};
    ghost use Rattle.snippet_lines.specs.Starts.{line_starts};

    ghost Value = { List ℕ };

    ghost view = { λ lines. cow_str_bytes lines.source };

    ghost invariant = { λ lines. (lines.starts.items ≡ line_starts (cow_str_bytes lines.source))
        × (lines.has_masked ≡ list_any is_masked (chars (cow_str_bytes lines.source))) };
}

impl<'a> SourceLines<'a> {
    /// Finds the lines of a source. The one error is that memory ran out.
    pub fn new(alloc: Global, source: &'a str) -> Result<SourceLines<'a>, AllocError>
        ensures ok { IfOk result (λ lines. lines ≡ source.now) }
    {
        SourceLines::new_cow(alloc, CowStr::Borrowed(source))
    }

    /// Finds the lines of a source that may be owned. The one error is that memory ran out.
    pub fn new_cow(alloc: Global, source: CowStr<'a>) -> Result<SourceLines<'a>, AllocError>
        ensures ok { IfOk result (λ lines. lines ≡ cow_str_bytes source.entry) }
    {
        let starts = line_starts(alloc, source.as_str())?;
        let has_masked = has_masked(source.as_str());
        Ok(SourceLines {
            source,
            starts,
            has_masked,
        })
    }

    /// The source.
    pub fn source(&self) -> &str
        ensures value { result.now ≡ self.now }
    {
        self.source.as_str()
    }

    /// The byte at which each line of the source starts. An empty source has one line.
    pub fn starts(&self) -> &[usize]
        ensures value { result.now ≡ spec.line_starts self.now }
    {
        self.starts.as_slice()
    }

    /// Whether the source holds a control that `mask_controls` masks.
    pub fn has_masked(&self) -> bool
        ensures value { result ≡ list_any is_masked (chars self.now) }
    {
        self.has_masked
    }
}

/// The text alone.
impl<'a> fmt::Debug for SourceLines<'a> {
    ghost debug_output = { debug_str };

    fn fmt<W: fmt::Write>(&self, f: &mut fmt::Formatter<W>) -> fmt::Result {
        fmt::Debug::fmt(&self.source(), f)
    }
}

/// The byte at which each line of a source starts. An empty source has one line. The one error is that memory ran out.
pub fn line_starts(alloc: Global, source: &str) -> Result<Vec<usize>, AllocError>
    ensures starts { IfOk result (λ starts. starts.items ≡ spec.line_starts source.now) }
{
    let mut starts = vec![in alloc; 0]?;
    for line_feed in memchr_iter(b'\n', source.as_bytes()) {
        let next = line_feed + 1;
        if next < source.len() {
            starts.push(next)?;
        }
    }
    Ok(starts)
}
