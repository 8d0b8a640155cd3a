//! Where labels stand: how many rows below its line each label of a line is drawn, so that none stands in another's
//! way.
#![tactic(auto)]

pub mod drawn_label;
mod labelled;
mod pairs;
pub mod positions;

pub use drawn_label::DrawnLabel;
pub use labelled::{beside_column, breaks_labels, shifted};
pub use pairs::overlap;
pub use positions::{PlacedEntry, are_starts, greatest_position, placed_entries};
