//! How an origin is built.
ghost use Rattle.std.specs.Prelude.{◌≡◌, Some, None};
ghost use Rattle.std.specs.declared.borrow.CowStr.TheVariants.{Borrowed};

use super::Origin;
use snippet_text::CowStr;

impl<'a> Origin<'a> {
    /// The place of the file with this path, without a line or a column. The path isn't trusted: it is normalised where
    /// it is drawn.
    ///
    /// ```text
    /// Origin::path("a.rs")                            --> a.rs
    /// Origin::path("a.rs").line(3)                    --> a.rs:3
    /// Origin::path("a.rs").line(3).char_column(7)     --> a.rs:3:7
    /// ```
    pub fn path(path: &'a str) -> Origin<'a>
        ensures path { result.path ≡ Borrowed path.entry }
        ensures line { result.line ≡ None }
        ensures char_column { result.char_column ≡ None }
    {
        Origin::path_cow(CowStr::Borrowed(path))
    }

    /// The place of the file with this path, which may be owned.
    pub fn path_cow(path: CowStr<'a>) -> Origin<'a>
        ensures path { result.path ≡ path.entry }
        ensures line { result.line ≡ None }
        ensures char_column { result.char_column ≡ None }
    {
        Origin {
            path,
            line: None,
            char_column: None,
        }
    }

    /// The number of the line, shown after the path as it is given.
    pub fn line(mut self, line: usize) -> Origin<'a>
        ensures changed { result ≡ record self.entry { line = Some line } }
    {
        self.line = Some(line);
        self
    }

    /// The column, counted in characters from 1 and shown after the line as it is given. Rows of origins show it only
    /// where there is a line.
    pub fn char_column(mut self, char_column: usize) -> Origin<'a>
        ensures changed { result ≡ record self.entry { char_column = Some char_column } }
    {
        self.char_column = Some(char_column);
        self
    }
}

/// The path is the text: [`path_cow`](Origin::path_cow).
impl<'a> From<CowStr<'a>> for Origin<'a> {
    ghost from_gives = { λ path origin. origin ≡ record { path = path; line = None; char_column = None } };

    fn from(path: CowStr<'a>) -> Origin<'a> {
        Origin::path_cow(path)
    }
}
