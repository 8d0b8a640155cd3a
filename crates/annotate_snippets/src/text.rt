//! Text: what is shown for it, how wide it is, whether it is one line, which addresses may be links, and
//! text that may be borrowed.

pub use snippet_text::{
    CowStr, char_width, is_link_address, is_one_line, normalize_untrusted_str, str_width, text_fits,
};
