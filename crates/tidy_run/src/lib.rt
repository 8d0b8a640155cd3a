//! What the program `tidy` does: it looks through a file by rules, and reports what each finds, and how to mend it.
#![tactic(auto)]

pub mod arguments;
pub mod final_line;
pub mod lint;
pub mod log;
pub mod report;
pub mod rule;
pub mod run;
pub mod tabs;
pub mod trailing_blanks;
