//! What the program `replay` does, over arguments, files and writers: reports as JSON lines, drawn, compared and timed.
#![tactic(auto)]

pub mod arguments;
pub mod check;
pub mod command;
pub mod expected;
pub mod inputs;
pub mod lines;
pub mod problem;
pub mod repeat;
pub mod run;
pub mod stop;
pub mod usage_error;
