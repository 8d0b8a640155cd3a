//! What tools report, as values, and the reports that are drawn of it: groups of titles, annotated sources and
//! suggested edits.
#![tactic(auto)]

pub mod diagnostic;
pub mod finding;
mod gone;
pub mod locate;
mod marks;
mod offers;
pub mod report;
pub mod shown_text;
mod source_key;
mod titles;

pub use snippet_lines::text_lines;
