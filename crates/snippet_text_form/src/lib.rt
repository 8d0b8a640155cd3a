//! The text form of a report, for speech and Braille: what titles, messages, annotated snippets, suggestions and
//! origins are without graphics.
#![tactic(auto)]

pub mod cause;
pub mod form;
pub mod heading;
pub mod origin;
mod position;
pub mod suggestion;

pub use cause::add_cause;
pub use form::TextForm;
pub use heading::{HeadingKind, add_heading};
pub use origin::add_origin;
pub use suggestion::{SuggestionContext, SuggestionSettings, add_suggestion};
