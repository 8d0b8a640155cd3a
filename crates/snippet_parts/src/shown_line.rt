//! Lines that are shown, each measured once.
ghost use Rattle.std.specs.Prelude.{◌≡◌, chars};
ghost use Rattle.snippet_text.specs.Width.{width_of};
ghost use Rattle.snippet_text.specs.TextBounds.{TextFits};

use crate::entries::AnnotatedLineInfo;
use snippet_text::str_width;

/// A line that is shown, with its width.
#[derive(Debug, Drop)]
pub struct ShownLine<'a> {
    /// The line, with its entries.
    pub info: AnnotatedLineInfo<'a>,
    /// Whether it is shown for no other reason than that it stands alone between two lines that are kept.
    pub between: bool,
    /// The columns of its text.
    pub width: usize,
    pub ghost measured: { width ≡ width_of (chars info.line.now) },
}

impl<'a> ShownLine<'a> {
    /// A line, which is measured.
    pub fn new(info: AnnotatedLineInfo<'a>, between: bool) -> ShownLine<'a>
        requires fits { TextFits info.line.now }
        ensures info { result.info ≡ info.entry }
        ensures between { result.between ≡ between }
    {
        let width = str_width(info.line);
        ShownLine {
            info,
            between,
            width,
        }
    }
}
