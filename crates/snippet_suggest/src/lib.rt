//! The rows of suggested edits: the lines as they will be, what is removed of them, and marks below insertions.
#![tactic(auto)]

mod diff;
mod ends;
mod kind;
mod layout;
mod lines;
mod marks;
mod prepared;
mod removed;
mod roles;
mod row;
mod shown_lines;
mod suggestion;

pub use kind::{DisplaySuggestion, is_blank, overwrites};
pub use layout::{SuggestionLayout, SuggestionStart};
pub use prepared::{PreparedSuggestion, prepare_suggestion};
pub use suggestion::draw_suggestion;
