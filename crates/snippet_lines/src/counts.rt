//! Counts of line feeds.
ghost use Rattle.std.specs.Prelude.{◌≡◌, ◌≤◌, ◌==◌, count_by, length, take};
ghost use Rattle.snippet_lines.specs.Lines.{is_lf, last_byte, newline_count};

/// The number of line feeds in a text.
pub fn line_feed_count(text: &str) -> usize
    ensures value { result ≡ count_by is_lf text.now }
    ensures bound { result ≤ length text.now }
{
    count_line_feeds(text.as_bytes())
}

/// The number of line feeds in the first `end` bytes of a text, not counting one that ends those.
pub fn newline_count_before(text: &str, end: usize) -> usize
    ensures value { result ≡ newline_count (take end text.now) }
    ensures bound { result ≤ length text.now }
{
    let front = &text.as_bytes()[..end.min(text.len())];
    count_line_feeds(front).saturating_sub(usize::from(ends_with_line_feed(front)))
}

/// Whether a line feed ends some bytes.
pub fn ends_with_line_feed(bytes: &[u8]) -> bool
    ensures value { result ≡ (last_byte bytes.now == 10) }
{
    matches!(bytes, [.., b'\n'])
}

/// How many bytes are counted together: as many line feeds as these can be fit in a byte.
const TOGETHER: usize = 192;

/// The number of line feeds in some bytes.
fn count_line_feeds(bytes: &[u8]) -> usize
    ensures value { result ≡ count_by is_lf bytes.now }
    ensures bound { result ≤ length bytes.now }
{
    let mut rest = bytes;
    let mut count = 0;
    while TOGETHER <= rest.len() {
        let (front, after) = rest.split_at(TOGETHER);
        count += usize::from(few_line_feeds(front));
        rest = after;
    }
    count + usize::from(few_line_feeds(rest))
}

/// The number of line feeds in a few bytes. It is counted in a byte, so that many bytes are compared at once.
fn few_line_feeds(bytes: &[u8]) -> u8
    requires few { length bytes.now ≤ 192 }
    ensures value { result ≡ count_by is_lf bytes.now }
{
    let mut count = 0;
    for byte in bytes {
        count += u8::from(*byte == b'\n');
    }
    count
}
