//! Texts of titles and messages that are broken into rows no wider than the terminal.

mod code;
mod room;
mod row;
mod text;
mod titles;

pub use text::wrapped;
pub use titles::Wrapping;
