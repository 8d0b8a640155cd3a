//! Reports as bytes: the form in which a program in another language hands one over, and its reader. `part` has how
//! options and lists are read, `over` what may name kept sources, `request` the whole.
#![tactic(auto)]

mod fault;
mod field;
mod group;
mod kept;
mod kind;
mod over;
mod part;
mod request;
mod settings;
mod sheet;
mod snippet;
mod title;

pub use fault::{ByteFault, ReadError, Wrong};
pub use kept::KeptSource;
pub use request::{DrawRequest, read};
pub use settings::Settings;
