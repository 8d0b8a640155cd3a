//! How long a text may be.
ghost use Rattle.std.specs.Prelude.{◌↔◌, IsTrue};
ghost use Rattle.snippet_text.specs.TextBounds.{TextFits};

/// Whether a text is within the library's one limit: fewer than 2^56 bytes.
///
/// `render`, `render_sheets` and `str_width` ask this of each text that they are handed.
pub fn text_fits(text: &str) -> bool
    ensures fits { IsTrue result ↔ TextFits text.now }
{
    text.len() < 1 << 56
}
