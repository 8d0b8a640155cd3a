//! Turns reports into the text that compilers print: titles, source lines with marked spans, labels, suggested edits.
//!
//! A report is a list of [groups](Group). A group has a [title](Title) and [elements](Element): [snippets](Snippet) of
//! source with annotations or with patches, [messages](Message), paths without a source. [`Renderer::render`] gives its
//! text. A report that is out of bounds is refused by name, with a [`RenderError`](renderer::RenderError).
//!
//! # A report
//!
//! ```text
//! error[E0308]: mismatched types                    title: level, id, text
//!  --> src/price.rs:8:5                             origin: path, line, column
//!   |
//! 2 |       let sum: u32 = prices                   source line, after its number in the gutter
//!   |  ____________________-
//! 3 | |         .iter()
//! 4 | |         .sum();
//!   | |______________- this is a `u32`              mark and label of a span of several lines
//! ...                                               elision: lines that are left out
//! 8 |       sum as u64
//!   |       ^^^^^^^^^^ expected `u32`, found `u64`  mark and label of the primary span
//!   |
//!   = note: `total` answers a `u32`                 note
//! help: leave the cast out                          title of the second group
//!   |
//! 8 -     sum as u64                                suggestion: a line that is removed
//! 8 +     sum                                       and the line in its place
//!   |
//! ```
//!
//! # What makes its parts
//!
//! | Part | Made by |
//! |---|---|
//! | title: its level, its id | [`Level::primary_title`], [`Title::id`] |
//! | origin: path, line, column | [`Snippet::path_str`]; without a source, [`Origin`] |
//! | gutter: the numbers of lines | [`Snippet::line_start`], where the first isn't 1 |
//! | source line | each line on which a span begins or ends; all lines by [`Snippet::fold`] |
//! | mark, bar | [`AnnotationKind::span`], [`Snippet::annotation`] |
//! | label | [`Annotation::label_str`] |
//! | elision | made where lines are left out |
//! | suggestion | [`Patch::new`], [`Snippet::patch`] |
//! | note | [`Level::message`], [`Group::message`] |
//! | how all of it looks | the setters of [`Renderer`] |
//!
//! A builder that takes memory takes an allocator, or has one already, and answers a `Result`. `render` asks that each
//! text has fewer than 2^56 bytes, which the check sees where it sees the texts; for texts that come from outside
//! [`report_fits`](snippet::report_fits) is the test. Spans count bytes: [`span_at`](renderer::parts::span_at) makes
//! one of lines and columns. Where many reports show one source, [`SourceLines`] finds its lines once, and
//! [`Snippet::indexed`] is a snippet of these.
//!
//! # How it is made
//!
//! ```
//! let cast = AnnotationKind::Primary.span(140..150).label_str("expected `u32`, found `u64`");
//! let sum = AnnotationKind::Context.span(53..90).label_str("this is a `u32`");
//! let snippet = Snippet::source(alloc, SOURCE)
//!     .path_str("src/price.rs")
//!     .annotation(cast)?
//!     .annotation(sum)?;
//! let error = Level::ERROR
//!     .primary_title("mismatched types")
//!     .id("E0308")
//!     .snippet(alloc, snippet)?
//!     .message(Level::NOTE.message("`total` answers a `u32`"))?;
//! let edited = Snippet::source(alloc, SOURCE)
//!     .path_str("src/price.rs")
//!     .patch(Patch::new(143..150, ""))?;
//! let help = Level::HELP
//!     .secondary_title("leave the cast out")
//!     .suggestion(alloc, edited)?;
//! Renderer::plain().render(alloc, &[error, help])
//! ```
//!
//! This is the example `price` of `crates/examples`, whole and proved: the gate runs it, and compares what it prints
//! with the text above.
#![tactic(auto)]

pub mod level;
pub mod renderer;
pub mod snippet;
pub mod text;

pub use renderer::Renderer;
pub use snippet::{
    Annotation, AnnotationKind, Element, Group, Message, OptionCow, Origin, Padding, Patch, Report,
    Snippet, SourceLines, Title,
};
pub use snippet_model::Level;
pub use snippet_text::normalize_untrusted_str;
