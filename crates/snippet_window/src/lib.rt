//! Windows and bounds: how far the lines of a snippet reach, and which part of a line that is too long is shown.
#![tactic(auto)]

pub mod extent;
pub mod margin;
pub mod near;
pub mod whitespace;
pub mod window;

pub use extent::margin_for;
pub use margin::Margin;
pub use near::{NearPart, near_part};
pub use whitespace::leading_whitespace;
pub use window::{LineWindow, window_of};
