//! What a rule is, and what it finds in a source.

ghost use Rattle.std.specs.Prelude.{◌≡◌, ◌≤◌, ℕ, List, Option, IfSome, option_map};
ghost use Rattle.tidy_run.specs.Findings.{Finding, IsFinding, IsTitle, finding_of};

use std::ops::Range;

/// An edit that a rule asks for: the text that is to stand in place of these bytes of the source.
#[derive(Clone, Debug, PartialEq, Eq, Drop)]
pub struct Edit {
    /// The bytes that go.
    pub span: Range<usize>,
    /// What stands in their place.
    pub text: &'static str,
}

/// A rule that a source has to keep. It knows nothing of how its findings are shown.
pub trait Rule: Drop {
    /// The title of the rule's findings.
    ghost title_of: { Self → List ℕ };

    /// What the rule finds first in a source, of what starts at this byte or after it.
    ghost finds: { Self → List ℕ → ℕ → Option Finding };

    /// The title of the rule's findings: printable ASCII, at most 64 bytes.
    fn title(&self) -> &'static str
        ensures value { result.now ≡ title_of self.now }
        ensures title { IsTitle result.now };

    /// The first of the rule's edits whose start is at `from` or after it. An edit lies inside the source, between
    /// characters, and takes no byte only where it stands at the source's end; its text has at most 64 bytes.
    fn find(&self, source: &str, from: usize) -> Option<Edit>
        ensures value { option_map finding_of result ≡ finds self.now source.now from }
        ensures finding { IfSome result (λ edit. IsFinding source.now from (finding_of edit)) };
}
