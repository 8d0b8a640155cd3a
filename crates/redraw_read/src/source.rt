//! A text that places are shown in.

ghost use Rattle.std.specs.Prelude.{◌≡◌, IfOk};
ghost use Rattle.redraw_report.specs.Region.{start_bytes as starts_of};

use redraw_report::text_lines::line_starts;
use snippet_lines::SourceLines;
use snippet_text::CowStr;
use std::alloc::{AllocError, Global};

/// A file's text, with its lines found once: those that reports draw, and those that places are told by.
#[derive(Drop)]
pub struct Source {
    /// The text, and where its lines start as reports draw them: no line comes after the last line feed.
    pub lines: SourceLines<'static>,
    /// Where its lines start as places are told: after the last line feed there is one too.
    pub starts: Vec<usize>,
    pub ghost lined: { starts.items ≡ starts_of lines },
}

impl Source {
    /// The source that this text is.
    pub fn new(alloc: Global, text: &str) -> Result<Source, AllocError>
        ensures value { IfOk result (λ source. source.lines ≡ text.now) }
    {
        let starts = line_starts(alloc, text)?;
        let text = String::from_str(alloc, text)?;
        let lines = SourceLines::new_cow(alloc, CowStr::Owned(text))?;
        Ok(Source { lines, starts })
    }

    /// The text.
    pub fn text(&self) -> &str
        ensures value { result.now ≡ self.now.lines }
    {
        self.lines.source()
    }
}
