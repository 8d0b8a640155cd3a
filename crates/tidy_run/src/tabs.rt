//! The rule that a source holds no tab.

ghost use Rattle.std.specs.Prelude.{codes};
ghost use Rattle.tidy_run.specs.Rules.{first_from, tab_at};

use crate::rule::{Edit, Rule};

/// Finds each tab, which four spaces replace.
#[derive(Clone, Copy, Debug)]
pub struct Tabs;

impl Rule for Tabs {
    ghost title_of = { λ rule. codes "tab" };

    ghost finds = { λ rule. first_from tab_at };

    fn title(&self) -> &'static str {
        "tab"
    }

    fn find(&self, source: &str, from: usize) -> Option<Edit> {
        let bytes = source.as_bytes();
        for at in from..bytes.len() {
            if bytes[at] == b'\t' {
                return Some(Edit {
                    span: at..at + 1,
                    text: "    ",
                });
            }
        }
        None
    }
}
