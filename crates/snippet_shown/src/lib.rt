//! The report that settings show in place of the one given: line feeds as signs, controls masked, lines around spans,
//! rows that fit.
#![tactic(auto)]

mod as_set;
mod context;
mod mask;
mod remake;
mod wrap;

pub use as_set::{groups_as_set, shown_on_one_line};
pub use context::LinesAround;
pub use mask::Masking;
pub use remake::{Remake, groups_remade};
pub use wrap::{Wrapping, wrapped};
