//! Texts whose controls are masked.

mod markers;
mod parts;
mod text;

pub use parts::Masking;
