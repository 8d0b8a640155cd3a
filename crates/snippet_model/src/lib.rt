//! What a report is made of: levels and titles, snippets of source with their annotations or patches, and the groups
//! that hold them. Each builder keeps exactly what it is given; nothing here is validated or drawn.
#![tactic(auto)]

pub mod level;
pub mod message_or_title;
pub mod option_cow;
pub mod snippet;
pub mod source_text;

pub use level::Level;
pub use message_or_title::MessageOrTitle;
pub use option_cow::OptionCow;
pub use snippet::{
    Annotation, AnnotationKind, Element, Group, Id, Marker, Message, Origin, Padding, Patch,
    Snippet, Title, report_fits,
};
pub use source_text::SourceText;
