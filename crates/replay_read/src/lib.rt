//! How the values of JSON that describe a report are read: its groups and its sheets, and what is wrong where one is no
//! such value.
#![tactic(auto)]

pub mod effect;
pub mod list;
pub mod report;
pub mod ruler;
pub mod shape;
pub mod sheet;
pub mod source;
pub mod span;
mod told;
