//! What the programs share: the arguments of the command line, the options by which reports are drawn, what a file
//! holds, lines that are written whole or cut short, and the status.
#![tactic(auto)]

pub mod command_line;
pub mod exit;
pub mod input;
pub mod inputs;
pub mod lent;
pub mod line;
pub mod message;
pub mod number;
pub mod options;
pub mod source;
pub mod standing_in;
