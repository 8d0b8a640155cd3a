//! Texts that are cut at what stands in them, and numbers that they are.
ghost use Rattle.std.specs.Prelude.{◌≡◌};
ghost use Rattle.std.specs.Char.{is_ascii_digit};
ghost use Rattle.std.specs.List.{list_all};
ghost use Rattle.json_lines.specs.Field.{lent_text};
ghost use Rattle.redraw_tools.specs.Cut as spec;

/// What comes after these words at the start of a text, where they stand there.
pub fn after<'t>(text: &'t str, words: &str) -> Option<&'t str>
    ensures value { lent_text result ≡ spec.after words.now text.now }
{
    text.strip_prefix(words)
}

/// What comes before these words at the end of a text, where they stand there.
pub fn before<'t>(text: &'t str, words: &str) -> Option<&'t str>
    ensures value { lent_text result ≡ spec.before words.now text.now }
{
    text.strip_suffix(words)
}

/// What stands before and after the first place in a text where these words stand.
pub fn parted<'t>(text: &'t str, words: &str) -> Option<(&'t str, &'t str)>
    ensures value { spec.lent_parts result ≡ spec.parted words.now text.now }
{
    text.split_once(words)
}

/// What stands before and after the last place in a text where these words stand.
pub fn parted_last<'t>(text: &'t str, words: &str) -> Option<(&'t str, &'t str)>
    ensures value { spec.lent_parts result ≡ spec.parted_last words.now text.now }
{
    text.rsplit_once(words)
}

/// The number that a text is, of decimal digits alone.
pub fn number_of(digits: &str) -> Option<usize>
    ensures value { result ≡ spec.number_of digits.now }
{
    if is_numeral(digits.as_bytes()) {
        digits.parse().ok()
    } else {
        None
    }
}

/// Whether some bytes are decimal digits, one or more.
fn is_numeral(bytes: &[u8]) -> bool
    ensures value { result ≡ spec.is_numeral bytes.now }
{
    !bytes.is_empty() && are_digits(bytes)
}

/// Whether some bytes are nothing but decimal digits.
pub fn are_digits(bytes: &[u8]) -> bool
    ensures value { result ≡ list_all is_ascii_digit bytes.now }
{
    bytes.iter().all(|byte| is_digit(*byte))
}

/// Whether a byte is a decimal digit.
fn is_digit(byte: u8) -> bool
    ensures value { result ≡ is_ascii_digit byte }
{
    byte.is_ascii_digit()
}
