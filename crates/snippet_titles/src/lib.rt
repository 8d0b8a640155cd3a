//! The rows of titles and messages, of paths, and of what sets them off.
#![tactic(auto)]

pub mod head;
pub mod heading;
mod id;
pub mod origin;
pub mod printed;
mod row;
pub mod separators;
pub mod short;
pub mod style;
pub mod title;

pub use head::{draw_nameless_head, draw_opening_head, draw_primary_head, draw_secondary_head};
pub use heading::{colon, draw_heading, is_hidden, label_width, shown_name};
pub use id::{address_of, closing_bracket, is_set, opening_bracket};
pub use origin::{FileStart, OriginLayout, OriginLocation, draw_origin, origin_text};
pub use printed::{is_plain_heading, print_heading};
pub use separators::{draw_closing, draw_padding, draw_separator};
pub use short::ShortTitle;
pub use style::{HeadingRoles, MessageContext, TitleStyle, roles_of};
pub use title::draw_title;
