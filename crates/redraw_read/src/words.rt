//! Words at the start of a text, at its end, and in it.

ghost use Rattle.std.specs.Prelude.{◌≡◌, eqb};
ghost use Rattle.std.specs.List.{ends_with, starts_with};
ghost use Rattle.redraw_read.specs.Rendered as spec;
ghost use Rattle.redraw_report.specs.Report.{lent};

/// Whether a text begins with these words.
pub fn begins_with(text: &str, words: &str) -> bool
    ensures value { result ≡ starts_with eqb text.now words.now }
{
    text.starts_with(words)
}

/// Whether a text ends with these words.
pub fn finishes_with(text: &str, words: &str) -> bool
    ensures value { result ≡ ends_with eqb text.now words.now }
{
    text.ends_with(words)
}

/// What comes after these words at the start of a text, where they stand there.
pub fn after<'t>(text: &'t str, words: &str) -> Option<&'t str>
    ensures value { lent result ≡ spec.after words.now text.now }
{
    text.strip_prefix(words)
}

/// What comes after the first place in a text where these words stand.
pub fn after_first<'t>(text: &'t str, words: &str) -> Option<&'t str>
    ensures value { lent result ≡ spec.after_first words.now text.now }
{
    match text.split_once(words) {
        Some((_, rest)) => Some(rest),
        None => None,
    }
}

/// What comes before these words at the end of a text, where they stand there.
pub fn before<'t>(text: &'t str, words: &str) -> Option<&'t str>
    ensures value { lent result ≡ spec.before words.now text.now }
{
    text.strip_suffix(words)
}
