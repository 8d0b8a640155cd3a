//! Lines that say little, so that a bar needn't go down to them.
ghost use Rattle.std.specs.Prelude.{◌≡◌, [], ◌∷◌, chars};
ghost use Rattle.snippet_parts.specs.Kept as spec;
ghost use Rattle.snippet_parts.specs.Trivial.{step, is_trivial_whole};

/// What a line begins with, as far as it was read.
#[derive(Clone, Copy, Debug, PartialEq, Eq)]
enum Seen {
    /// Whitespace.
    Nothing,
    /// A bracket, and whitespace after it.
    Bracket,
    /// A slash.
    Slash,
    /// Two slashes.
    Slashes,
    /// Two slashes and something else than a third one or an exclamation mark.
    Comment,
    /// Anything else.
    Telling,
}

/// Whether a line says little: it is blank, a bracket, or a comment that documents nothing.
///
/// It is read no further than it has to be.
pub fn is_trivial(line: &str) -> bool
    ensures value { result ≡ spec.is_trivial (chars line.now) }
{
    let mut seen = Seen::Nothing;
    for c in line.chars() {
        seen = step(seen, c);
        match seen {
            Seen::Comment => return true,
            Seen::Telling => return false,
            _ => {}
        }
    }
    is_trivial_whole(seen)
}

/// Whether a line says little of which this is all.
fn is_trivial_whole(seen: Seen) -> bool
    ensures value { result ≡ is_trivial_whole seen }
{
    !matches!(seen, Seen::Slash | Seen::Telling)
}

/// What was read of a line with one more character.
fn step(seen: Seen, c: char) -> Seen
    ensures value { result ≡ step seen c }
{
    match seen {
        Seen::Nothing if c.is_whitespace() => Seen::Nothing,
        Seen::Nothing if is_bracket(c) => Seen::Bracket,
        Seen::Nothing if c == '/' => Seen::Slash,
        Seen::Bracket if c.is_whitespace() => Seen::Bracket,
        Seen::Slash if c == '/' => Seen::Slashes,
        Seen::Slashes if c != '/' && c != '!' => Seen::Comment,
        Seen::Comment => Seen::Comment,
        _ => Seen::Telling,
    }
}

/// Whether a character is one of the six brackets.
fn is_bracket(c: char) -> bool
    ensures value { result ≡ spec.is_bracket (c ∷ []) }
{
    c == '(' || c == ')' || c == '[' || c == ']' || c == '{' || c == '}'
}
