//! What is read for a report: the diagnostics that rustc writes as JSON, the sources that they speak of, and where
//! their places are in these.
#![tactic(auto)]

mod calls;
pub mod cargo;
mod columns;
mod edits;
pub mod expansion;
pub mod hand;
mod headings;
mod index;
pub mod json;
mod labels;
mod lines;
mod manners;
mod named_files;
mod named_places;
mod offers;
mod order;
pub mod place;
pub mod plain;
pub mod reading;
pub mod rendered;
mod roles;
pub mod rustc;
mod shown_lines;
pub mod source;
pub mod sources;
mod spans;
pub mod spot;
mod taken;
mod unsaid;
mod unseen;
mod words;
