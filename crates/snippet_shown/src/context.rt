//! The lines around those that a report keeps: spans are added that keep them too.

mod snippets;
mod spans;

pub use snippets::LinesAround;
