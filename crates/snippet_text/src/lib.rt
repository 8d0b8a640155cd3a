//! Text as the renderer sees it: listed characters and their replacements, widths in columns, and text that is
//! borrowed until it has to be owned.
#![tactic(auto)]

mod limit;
mod link_address;
mod normalize;
mod one_line;
mod plain;
mod width;

pub use limit::text_fits;
pub use link_address::is_link_address;
pub use normalize::{normalize_untrusted_str, normalized};
pub use one_line::is_one_line;
pub use plain::{is_plain, plain_prefix};
pub use std::borrow::CowStr;
pub use width::{char_width, str_width};
