//! The cases of `replay`: how a case is read from the JSON of its line, what becomes of it, and the answer to it as
//! JSON.
#![tactic(auto)]

pub mod answer;
pub mod case;
pub mod line;
pub mod outcome;
pub mod read;
mod spans;
