//! The lines of a source, the places and spans in it, and places by line and column, as editors name them.
#![tactic(auto)]

pub mod clamp;
pub mod columns;
pub mod controls;
pub mod counts;
pub mod line_bounds;
pub mod lines;
pub mod number;
pub mod place;
pub mod source_lines;
pub mod span;
pub mod text_lines;

pub use clamp::{Place, SpanAt, between};
pub use columns::{ColumnUnit, Position, line_start, place_after, span_at};
pub use controls::{has_masked, is_masked};
pub use counts::{ends_with_line_feed, line_feed_count, newline_count_before};
pub use lines::{CursorLines, EndLine, newline_count, without_line_end};
pub use number::{LineNumbers, number_text};
pub use place::Loc;
pub use source_lines::SourceLines;
pub use span::{SpanFault, check_span};
