//! Controls that could change how a terminal shows the text around them, and that are drawn as they are unless they are
//! masked.
ghost use Rattle.std.specs.Prelude.{◌≡◌, chars};
ghost use Rattle.std.specs.List.{list_any};
ghost use Rattle.snippet_lines.specs.Controls as spec;

/// Whether a character is masked: a control from U+0080 on, a mark of direction, or a separator of lines or paragraphs.
pub fn is_masked(c: char) -> bool
    ensures value { result ≡ spec.is_masked c }
{
    matches!(
        c,
        '\u{80}'..='\u{9f}'
            | '\u{61c}'
            | '\u{200e}'..='\u{200f}'
            | '\u{2028}'..='\u{2029}'
    )
}

/// Whether a text holds a character that is masked.
pub fn has_masked(text: &str) -> bool
    ensures value { result ≡ list_any spec.is_masked (chars text.now) }
{
    text.chars().any(|c| is_masked(c))
}
