//! Texts of printable ASCII alone, which need no walk over their characters.
ghost use Rattle.std.specs.Prelude.{◌≡◌, ◌+◌, ◌≤◌, true, All, length, take};
ghost use Rattle.snippet_text.specs.Plain.{IsPlain};

/// How many bytes of a text are looked at together.
const SHORT_BLOCK: usize = 32;

/// Whether a text is of printable ASCII alone: each byte is a character of one column, and shown as it is.
///
/// Most texts are short. Bytes are looked at together where their number is known to the compiler, so a text is seen as
/// its first and its last bytes, which may overlap, or as blocks of which the last may overlap the one before it.
pub fn is_plain(text: &str) -> bool
    ensures yes { result ≡ true → All IsPlain text.now }
{
    let bytes = text.as_bytes();
    let len = bytes.len();
    if len >= SHORT_BLOCK {
        blocks_are_plain(bytes)
    } else if len >= 16 {
        ends_are_plain(bytes, 16)
    } else if len >= 8 {
        ends_are_plain(bytes, 8)
    } else if len >= 4 {
        ends_are_plain(bytes, 4)
    } else {
        are_plain(bytes)
    }
}

/// Whether bytes are of printable ASCII alone.
#[inline(always)]
fn are_plain(bytes: &[u8]) -> bool
    ensures yes { result ≡ true → All IsPlain bytes.now }
{
    let mut plain = true;
    for byte in bytes {
        plain &= matches!(*byte, b' '..=b'~');
    }
    plain
}

/// Whether bytes are plain, of which there are at most twice this count, and no fewer than it.
#[inline(always)]
fn ends_are_plain(bytes: &[u8], count: usize) -> bool
    requires within { count ≤ length bytes.now }
    requires meet { length bytes.now ≤ count + count }
    ensures yes { result ≡ true → All IsPlain bytes.now }
{
    let last = bytes.len() - count;
    are_plain(&bytes[..count]) && are_plain(&bytes[last..])
}

/// Whether bytes are plain, of which there is a block at least.
#[inline(always)]
fn blocks_are_plain(bytes: &[u8]) -> bool
    requires some { 32 ≤ length bytes.now }
    ensures yes { result ≡ true → All IsPlain bytes.now }
{
    let last = bytes.len() - SHORT_BLOCK;
    let mut at = 0;
    while at < last {
        if !are_plain(&bytes[at..at + SHORT_BLOCK]) {
            return false;
        }
        at += SHORT_BLOCK;
    }
    are_plain(&bytes[last..])
}

/// How many bytes of a long text are looked at together.
const BLOCK: usize = 64;

/// How many of a text's first bytes are printable ASCII, as far as they are found in whole blocks, but not more than a
/// limit. So many characters stand there, each of one byte and one column.
pub fn plain_prefix(text: &str, limit: usize) -> usize
    ensures within { result ≤ limit }
    ensures inside { result ≤ length text.now }
    ensures plain { All IsPlain (take result text.now) }
{
    let bytes = text.as_bytes();
    let most = limit.min(bytes.len());
    let mut at = 0;
    while most - at >= BLOCK {
        if !are_plain(&bytes[at..at + BLOCK]) {
            return at;
        }
        at += BLOCK;
    }
    at
}
