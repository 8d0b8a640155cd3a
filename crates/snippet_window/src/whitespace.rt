//! The whitespace that a line begins with.
ghost use Rattle.std.specs.Prelude.{◌≡◌, ◌≤◌, ◌==◌, chars, if◌then◌else◌};
ghost use Rattle.snippet_window.specs.Window as spec;
ghost use Rattle.snippet_text.specs.TextBounds.{TextFits};

/// The width of the whitespace that a line begins with, where a tab takes four columns and any other character one;
/// `None` of a blank line, which is nothing else.
pub fn leading_whitespace(line: &str) -> Option<usize>
    requires fits { TextFits line.now }
    ensures value { result ≡ spec.leading_whitespace (chars line.now) }
{
    let mut columns = 0;
    for c in line.chars() {
        if !c.is_whitespace() {
            return Some(columns);
        }
        columns += whitespace_width(c);
    }
    None
}

/// The columns of a character of leading whitespace.
fn whitespace_width(c: char) -> usize
    ensures value { result ≡ (if c == 9 then 4 else 1) }
    ensures bound { result ≤ 4 }
{
    if c == '\t' { 4 } else { 1 }
}
