//! The next line of an input.
ghost use Rattle.std.specs.Prelude.{◌≡◌, ◌<◌, ◌≤◌, ◌++◌, [], false, true, IfOk, length, take};
ghost use Rattle.std.specs.Io.KnownBytes.{Keeps};
ghost use Rattle.json_lines.specs.TakenLine.{EndsAt, TakesLine, TakesNext};

use memchr::memchr;
use std::io::{self, BufRead};

/// Takes the next line with its end, and says whether there is one.
pub fn next_line<B: BufRead + Drop>(input: &mut B, line: &mut Vec<u8>) -> io::Result<bool>
    ensures next { IfOk result (λ is. TakesNext is (B.remaining input.old) (B.remaining input.new) line.new.items) }
{
    line.clear();
    if takes_at_hand(input, line) {
        return Ok(true);
    }
    let count = input.read_until(b'\n', line)?;
    Ok(count > 0)
}

/// Takes the next line, if the input has all of it at hand: then its end is looked for in many bytes at a time.
fn takes_at_hand<B: BufRead + Drop>(input: &mut B, line: &mut Vec<u8>) -> bool
    ensures taken { result ≡ true → line.old.items ≡ []
        → TakesLine (B.remaining input.old) (B.remaining input.new) line.new.items }
    ensures kept { result ≡ false → Keeps (B.remaining input.old) (B.remaining input.new) }
    ensures same { result ≡ false → line.new.items ≡ line.old.items }
{
    let Ok(bytes) = input.fill_buf() else {
        return false;
    };
    let count = add_line(bytes, line);
    input.consume(count);
    count > 0
}

/// Adds the first line of some bytes with its line feed, and answers how many bytes it has: none where there is no line
/// feed, or no memory for it.
fn add_line(bytes: &[u8], line: &mut Vec<u8>) -> usize
    ensures within { result ≤ length bytes.now }
    ensures ends { 0 < result → EndsAt result bytes.now }
    ensures added { line.new.items ≡ line.old.items ++ take result bytes.now }
{
    let Some(at) = memchr(b'\n', bytes) else {
        return 0;
    };
    match line.extend_from_slice(&bytes[..at + 1]) {
        Ok(()) => at + 1,
        Err(_) => 0,
    }
}
