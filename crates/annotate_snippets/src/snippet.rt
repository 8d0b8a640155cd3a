//! What a report is made of.

pub use snippet_lines::SourceLines;
pub use snippet_model::snippet::{
    Annotation, AnnotationKind, Element, Group, Id, Marker, Message, Origin, Padding, Patch,
    Snippet, Title, report_fits,
};
pub use snippet_model::{OptionCow, SourceText};

/// A report: its groups, in order.
pub type Report<'a> = &'a [Group<'a>];
