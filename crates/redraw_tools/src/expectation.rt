//! What is expected of a part of a log where something else stands.

use std::fmt;

/// What is expected.
#[derive(Clone, Copy)]
pub enum SarifExpectation {
    /// The level of a result.
    Level,
    /// What the columns of a run count.
    ColumnKind,
    /// A message with a text, or with the name of a text that the rule has.
    Message,
    /// Arguments of a message that aren't too long.
    ArgumentLength,
    /// Messages of a result's parts that aren't too long.
    TextLength,
    /// The number of a rule that the run has.
    Rule,
    /// A file's address, or the number of an artifact that the run has.
    Artifact,
    /// The place where a region begins.
    RegionStart,
}

impl fmt::Display for SarifExpectation {
    fn fmt<W: fmt::Write>(&self, f: &mut fmt::Formatter<W>) -> fmt::Result {
        f.write_str(match self {
            SarifExpectation::Level => "\"none\", \"note\", \"warning\" or \"error\"",
            SarifExpectation::ColumnKind => "\"utf16CodeUnits\" or \"unicodeCodePoints\"",
            SarifExpectation::Message => "a text, or the id of one of the rule's message strings",
            SarifExpectation::ArgumentLength => "arguments of at most 1 MiB in all their places",
            SarifExpectation::TextLength => {
                "texts by id or with arguments of at most 1 MiB in all parts of a result"
            }
            SarifExpectation::Rule => "the index of a rule of the run",
            SarifExpectation::Artifact => "a uri, or the index of an artifact of the run",
            SarifExpectation::RegionStart => "startLine, charOffset or byteOffset",
        })
    }
}
