//! The rule that no line ends with spaces or tabs.

ghost use Rattle.std.specs.Prelude.{◌≡◌, ◌<◌, ◌≤◌, IfSome, length, codes, option_map};
ghost use Rattle.std.specs.List.{prefix_len};
ghost use Rattle.tidy_run.specs.Findings.{IsRunAt, finding_of};
ghost use Rattle.tidy_run.specs.Rules as spec;
ghost use Rattle.tidy_run.specs.Rules.{first_from, trailing_blanks_at};

use crate::rule::{Edit, Rule};

/// Finds the spaces and tabs that end a line, and takes them away.
#[derive(Clone, Copy, Debug)]
pub struct TrailingBlanks;

/// Whether a byte is a space or a tab.
fn is_blank(byte: u8) -> bool
    ensures value { result ≡ spec.is_space_or_tab byte }
{
    matches!(byte, b' ' | b'\t')
}

/// How many blanks some bytes begin with.
fn leading_blanks(bytes: &[u8]) -> usize
    ensures value { result ≡ prefix_len spec.is_space_or_tab bytes.now }
    ensures within { result ≤ length bytes.now }
{
    let mut count = 0;
    while count < bytes.len() && is_blank(bytes[count]) {
        count += 1;
    }
    count
}

/// Whether a line ends before these bytes.
fn ends_line(bytes: &[u8]) -> bool
    ensures value { result ≡ spec.line_ends_before bytes.now }
{
    matches!(bytes, [] | [b'\n', ..] | [b'\r', b'\n', ..])
}

/// The edit that takes away the blanks which end a line, where the first of them is this byte.
fn blanks_at(bytes: &[u8], at: usize) -> Option<Edit>
    requires within { at < length bytes.now }
    ensures value { option_map finding_of result ≡ trailing_blanks_at bytes.now at }
    ensures run { IfSome result (λ edit. IsRunAt bytes.now at (finding_of edit)) }
{
    if !is_blank(bytes[at]) || (at > 0 && is_blank(bytes[at - 1])) {
        return None;
    }
    let end = at + leading_blanks(&bytes[at..]);
    if !ends_line(&bytes[end..]) {
        return None;
    }
    Some(Edit {
        span: at..end,
        text: "",
    })
}

impl Rule for TrailingBlanks {
    ghost title_of = { λ rule. codes "trailing blanks" };

    ghost finds = { λ rule. first_from trailing_blanks_at };

    fn title(&self) -> &'static str {
        "trailing blanks"
    }

    fn find(&self, source: &str, from: usize) -> Option<Edit> {
        let bytes = source.as_bytes();
        for at in from..bytes.len() {
            if let Some(edit) = blanks_at(bytes, at) {
                return Some(edit);
            }
        }
        None
    }
}
