//! What of a source is kept: the lines that spans keep, with the entries for what starts, ends or goes on there.
#![tactic(auto)]

mod annotated_lines;
mod bars;
pub mod between;
pub mod counted;
pub mod depths;
pub mod entries;
mod kept;
pub mod label;
pub mod least;
pub mod line_place;
mod located;
pub mod location;
mod long_spans;
mod made_entries;
pub mod mark;
mod only_line;
pub mod shown_line;
pub mod snippet_map;
pub mod source_map;
mod span_entries;
mod starts;
pub mod trivial_lines;

pub use between::with_lines_between;
pub use counted::counted_number;
pub use entries::{AnnotatedLineInfo, LineAnnotation, LineAnnotationType};
pub use label::Label;
pub use least::{lesser, lesser_of};
pub use line_place::SpanFinder;
pub use location::{Location, is_marking, naming_start, secondary_place};
pub use mark::mark_of;
pub use shown_line::ShownLine;
pub use snippet_map::map_of;
pub use source_map::{LineInfo, SourceMap};
pub use trivial_lines::is_trivial;
