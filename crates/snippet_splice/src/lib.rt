//! Suggested edits: patches trimmed to what they change, the source with them applied, and the part of it that is
//! shown.
#![tactic(auto)]

pub mod copy;
pub mod overlap;
pub mod patches;
pub mod splice;
pub mod stretches;
pub mod trim;

pub use overlap::check_patches;
pub use patches::TrimmedPatch;
pub use splice::{LineRange, SplicedLines, spliced_lines};
pub use stretches::SubstitutionHighlight;
pub use trim::as_substr;
