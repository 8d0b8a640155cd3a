//! What `redraw` is asked for, and what it does beside drawing: its arguments, which findings are chosen, what a
//! line of an input is, what was drawn before, findings as workflow commands, what is written where, and the status.
#![tactic(auto)]

pub mod ahead;
pub mod arguments;
pub mod choice;
pub mod found;
pub mod line;
pub mod relative;
pub mod scanner;
pub mod seen;
pub mod stop;
pub mod tally;
pub mod tell;
pub mod terminal;
pub mod unheeded;
pub mod workflow;
