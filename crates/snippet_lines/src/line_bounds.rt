//! The line around a byte, found without a walk over the source.
ghost use Rattle.std.specs.Prelude.{◌≡◌, ◌≢◌, ℕ, ◌+◌, ◌-◌, ◌<◌, ◌≤◌, ◌⊎◌, ◌↔◌, length, slice_index};
ghost use Rattle.snippet_lines.specs.Lines.{source_lines, start_of};
ghost use Rattle.snippet_lines.specs.Place.{HoldsByte, line_of};

use crate::counts::newline_count_before;
use memchr::{memchr, memrchr};
use std::ops::Range;

/// The bytes of the line that holds a byte, line end counted.
///
/// A byte after the source is on its last line. Another byte is on the same line exactly where it lies in these
/// bounds, or after their start if they end where the source does.
pub fn line_bounds(source: &str, byte: usize) -> Range<usize>
    ensures start { let ls = source_lines source.now in result.start ≡ start_of ls (line_of ls byte) }
    ensures end { let ls = source_lines source.now in result.end ≡ start_of ls (line_of ls byte + 1) }
    // Which line holds the byte, and that no other does.
    ensures holds { let ls = source_lines source.now in HoldsByte ls byte (line_of ls byte) }
    ensures only { let ls = source_lines source.now in
        (k : ℕ) → HoldsByte ls byte k → k ≡ line_of ls byte }
    ensures same_line { let ls = source_lines source.now in
        (b : ℕ) → (line_of ls b ≡ line_of ls byte)
        ↔ ((result.start ≤ b) × ((b < result.end) ⊎ (result.end ≡ length source.now))) }
{
    let bytes = source.as_bytes();
    let at = byte.min(bytes.len().saturating_sub(1));
    line_start(bytes, at)..line_end(bytes, at)
}

/// The line that holds a byte, from 0: as many lines stand before it as line feeds. A byte after the source is on its
/// last line.
pub fn line_index(source: &str, byte: usize) -> usize
    ensures value { result ≡ line_of (source_lines source.now) byte }
{
    newline_count_before(source, byte.min(source.len()) + 1)
}

/// The byte after the last line feed before `at`, or 0.
fn line_start(bytes: &[u8], at: usize) -> usize
    requires inside { at ≤ length bytes.now }
    ensures before { result ≤ at }
    ensures opens { 0 < result → slice_index bytes.now (result - 1) ≡ 10 }
    ensures none { (j : ℕ) → result ≤ j → j < at → slice_index bytes.now j ≢ 10 }
{
    match memrchr(b'\n', &bytes[..at]) {
        Some(found) => found + 1,
        None => 0,
    }
}

/// The byte after the first line feed from `at` on, or after the last byte.
fn line_end(bytes: &[u8], at: usize) -> usize
    requires inside { at ≤ length bytes.now }
    ensures within { result ≤ length bytes.now }
    ensures after { at < length bytes.now → at < result }
    ensures closes { (slice_index bytes.now (result - 1) ≡ 10) ⊎ (result ≡ length bytes.now) }
    ensures none { (j : ℕ) → at ≤ j → j + 1 < result → slice_index bytes.now j ≢ 10 }
{
    match memchr(b'\n', &bytes[at..]) {
        Some(found) => at + found + 1,
        None => bytes.len(),
    }
}
