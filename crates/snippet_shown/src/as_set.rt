//! A report whose texts stand on one line each: their line feeds are shown as signs.

mod elements;
mod groups;
mod line_feeds;
mod markers;
mod texts;
mod titles;

pub use groups::groups_as_set;
pub use line_feeds::shown_on_one_line;
