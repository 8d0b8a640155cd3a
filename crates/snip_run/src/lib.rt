//! What the program `snip` does, over arguments, the bytes of a file and two writers: one report from a command line.
#![tactic(auto)]

pub mod arguments;
pub mod run;
