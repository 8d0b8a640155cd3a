//! How many cells a text takes.

ghost use Rattle.std.specs.Prelude.{◌≡◌, ◌+◌, ◌<◌, ◌≤◌, true, All, length};
ghost use Rattle.std.specs.Str.{chars};

/// How many cells a text takes: one for each character.
pub fn char_count(text: &str) -> usize
    ensures value { result ≡ length (chars text.now) }
{
    if is_ascii(text) {
        return text.len();
    }
    text.chars().count()
}

/// How many bytes of a long text are looked at together.
const BLOCK: usize = 32;

/// Whether a text is ASCII alone, so that each of its bytes is a character.
///
/// Most texts are short. Bytes are looked at together where their number is known to the compiler, so a text is seen as
/// its first and its last bytes, which may overlap, or as blocks of which the last may overlap the one before it.
#[inline(always)]
fn is_ascii(text: &str) -> bool
    ensures yes { result ≡ true → All (λ b. b < 128) text.now }
{
    let bytes = text.as_bytes();
    let len = bytes.len();
    if len >= BLOCK {
        blocks_are_ascii(bytes)
    } else if len >= 16 {
        ends_are_ascii(bytes, 16)
    } else if len >= 8 {
        ends_are_ascii(bytes, 8)
    } else if len >= 4 {
        ends_are_ascii(bytes, 4)
    } else {
        are_ascii(bytes)
    }
}

/// Whether bytes are ASCII.
#[inline(always)]
fn are_ascii(bytes: &[u8]) -> bool
    ensures yes { result ≡ true → All (λ b. b < 128) bytes.now }
{
    let mut ascii = true;
    for byte in bytes {
        ascii &= *byte < 128;
    }
    ascii
}

/// Whether bytes are ASCII, of which there are at most twice this count, and no fewer than it.
#[inline(always)]
fn ends_are_ascii(bytes: &[u8], count: usize) -> bool
    requires within { count ≤ length bytes.now }
    requires meet { length bytes.now ≤ count + count }
    ensures yes { result ≡ true → All (λ b. b < 128) bytes.now }
{
    let last = bytes.len() - count;
    are_ascii(&bytes[..count]) && are_ascii(&bytes[last..])
}

/// Whether bytes are ASCII, of which there is a block at least.
#[inline(always)]
fn blocks_are_ascii(bytes: &[u8]) -> bool
    requires some { 32 ≤ length bytes.now }
    ensures yes { result ≡ true → All (λ b. b < 128) bytes.now }
{
    let last = bytes.len() - BLOCK;
    let mut at = 0;
    while at < last {
        if !are_ascii(&bytes[at..at + BLOCK]) {
            return false;
        }
        at += BLOCK;
    }
    are_ascii(&bytes[last..])
}
