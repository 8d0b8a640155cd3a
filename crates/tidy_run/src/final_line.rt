//! The rule that a source which isn't empty ends with a line feed.

ghost use Rattle.std.specs.Prelude.{codes};
ghost use Rattle.tidy_run.specs.Rules.{first_from, missing_end_at};

use crate::rule::{Edit, Rule};

/// Finds the end of a source that isn't empty and doesn't end with a line feed, and puts one in.
#[derive(Clone, Copy, Debug)]
pub struct FinalLine;

impl Rule for FinalLine {
    ghost title_of = { λ rule. codes "no final line end" };

    ghost finds = { λ rule. first_from missing_end_at };

    fn title(&self) -> &'static str {
        "no final line end"
    }

    fn find(&self, source: &str, from: usize) -> Option<Edit> {
        let bytes = source.as_bytes();
        let end = bytes.len();
        if end == 0 || end < from || bytes[end - 1] == b'\n' {
            return None;
        }
        Some(Edit {
            span: end..end,
            text: "\n",
        })
    }
}
