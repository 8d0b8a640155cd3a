//! The rows that a compiler prints below a finding: lines of the source, with marks below them.
ghost use Rattle.std.specs.Prelude.{◌≡◌, ◌≤◌, length};
ghost use Rattle.std.specs.List.{list_all};
ghost use Rattle.redraw_tools.specs.Excerpt as spec;

/// What a row is.
#[derive(Clone, Copy, PartialEq, Eq)]
pub enum Row {
    /// It has a gutter: blanks, a line's number or a sign of what is put in, and a bar.
    Gutter,
    /// It has marks alone, `^` and `~`, after blanks.
    Marks,
    Other,
}

/// What a row is, which has no line feed.
pub fn row_of(row: &[u8]) -> Row {
    if gutter_length(row) > 0 {
        Row::Gutter
    } else if are_marks(row) {
        Row::Marks
    } else {
        Row::Other
    }
}

/// How many columns the marks of a row have that begin at the caret, where the row has marks alone, be they after a
/// gutter or not.
pub fn marked_width(row: &[u8]) -> Option<usize>
    ensures value { result ≡ spec.marked_width row.now }
{
    let marks = after_gutter(row);
    if are_marks(marks) {
        Some(marks_before(&marks[before_caret(marks)..]))
    } else {
        None
    }
}

/// How many bytes a gutter has with its bar; none where a row has no gutter.
fn gutter_length(row: &[u8]) -> usize
    ensures value { result ≡ spec.gutter_length row.now }
    ensures within { result ≤ length row.now }
{
    match row {
        [b' ', ..] => bar_after(row),
        _ => 0,
    }
}

/// How many bytes come up to a bar and with it; none where something that is in no gutter comes before.
fn bar_after(row: &[u8]) -> usize
    ensures value { result ≡ spec.bar_after 0 row.now }
    ensures within { result ≤ length row.now }
{
    for (at, byte) in row.iter().enumerate() {
        match *byte {
            b'|' => return at + 1,
            b' ' | b'0'..=b'9' | b'+' | b'-' => {}
            _ => return 0,
        }
    }
    0
}

/// What stands after the gutter of a row that has no number there, or the row where it has no gutter.
fn after_gutter(row: &[u8]) -> &[u8]
    ensures value { result.now ≡ spec.after_gutter row.now }
{
    let length = gutter_length(row);
    if are_blank(&row[..length.saturating_sub(1)]) {
        &row[length..]
    } else {
        row
    }
}

/// Whether some bytes are nothing but blanks.
fn are_blank(bytes: &[u8]) -> bool
    ensures value { result ≡ list_all spec.is_blank bytes.now }
{
    bytes.iter().all(|byte| is_blank(*byte))
}

/// Whether a byte is a blank.
fn is_blank(byte: u8) -> bool
    ensures value { result ≡ spec.is_blank byte }
{
    byte == b' '
}

/// Whether a row has marks alone, after blanks, and a caret among them.
fn are_marks(row: &[u8]) -> bool
    ensures value { result ≡ spec.are_marks row.now }
{
    have_marks_alone(row) && before_caret(row) < row.len()
}

/// Whether some bytes are nothing but what stands in a row of marks.
fn have_marks_alone(bytes: &[u8]) -> bool
    ensures value { result ≡ list_all spec.is_in_marks bytes.now }
{
    bytes.iter().all(|byte| is_in_marks(*byte))
}

/// Whether a byte is one of a row of marks.
fn is_in_marks(byte: u8) -> bool
    ensures value { result ≡ spec.is_in_marks byte }
{
    matches!(byte, b' ' | b'\t' | b'^' | b'~' | b'\r')
}

/// How many bytes stand before the first caret of a row.
fn before_caret(row: &[u8]) -> usize
    ensures value { result ≡ spec.before_caret row.now }
    ensures within { result ≤ length row.now }
{
    for (at, byte) in row.iter().enumerate() {
        if *byte == b'^' {
            return at;
        }
    }
    row.len()
}

/// How many marks some bytes begin with.
fn marks_before(bytes: &[u8]) -> usize
    ensures value { result ≡ spec.marks_before bytes.now }
{
    for (at, byte) in bytes.iter().enumerate() {
        if !is_mark(*byte) {
            return at;
        }
    }
    bytes.len()
}

/// Whether a byte is a mark.
fn is_mark(byte: u8) -> bool
    ensures value { result ≡ spec.is_mark byte }
{
    byte == b'^' || byte == b'~'
}

/// Whether a row that stands below marks says what is to stand at one of them: it begins there, or one column after.
pub fn stands_below(row: &[u8], marks: &[u8]) -> bool {
    for (at, byte) in row.iter().enumerate() {
        if *byte != b' ' {
            return at > 0 && (is_mark_at(marks, at) || is_mark_at(marks, at - 1));
        }
    }
    false
}

/// Whether a mark stands in a row at this column, from 0.
fn is_mark_at(marks: &[u8], at: usize) -> bool {
    match marks.get(at) {
        Some(byte) => is_mark(*byte),
        None => false,
    }
}
