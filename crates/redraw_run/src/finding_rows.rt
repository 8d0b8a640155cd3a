//! How many of the lines ahead belong to a finding that a line tells of: its notes, and the rows of its source.
ghost use Rattle.std.specs.Prelude.{◌≡◌, ◌≤◌, false, true, IfOk, IfErr, OnOk, length};
ghost use Rattle.std.specs.Io.KnownBytes.{Keeps};
ghost use Rattle.redraw_command.specs.Halt.{IsHalt};
ghost use Rattle.redraw_command.specs.Line as line;
ghost use Rattle.redraw_command.specs.LookAhead.{ahead_of, left_of};
ghost use Rattle.redraw_run.specs.FindingLines as spec;
ghost use Rattle.redraw_run.specs.FindingLines.{AreOfFinding, holds_after};
ghost use Rattle.redraw_run.specs.Pieces.{Grows};

use memchr::memchr;
use redraw_command::ahead::Ahead;
use redraw_command::line::first_of;
use redraw_command::stop::Stop;
use redraw_tools::excerpt::{Row, row_of, stands_below};
use redraw_tools::lines::is_note;
use std::io::BufRead;

/// The most lines that are kept of a finding after its first. What comes after them is a piece of its own.
const MOST_LINES: usize = 256;

/// What was read last of a finding.
#[derive(Clone, Copy)]
enum Last {
    /// A line that names a place.
    Heading,
    /// A row of marks without a gutter, which begins here.
    Marks(usize),
    /// Another row of the source.
    Row,
    /// Nothing: the finding ended before.
    Nothing,
}

/// How many bytes ahead a finding has whose first line has this many.
#[tactic(auto, using(crate::proofs::Pieced::goes_on_none, crate::proofs::Pieced::goes_on_more))]
pub fn end_of_finding<B: BufRead + Drop>(ahead: &mut Ahead<B>, first: usize) -> Result<usize, Stop>
    requires { first ≤ length (ahead_of ahead.old) }
    ensures within { IfOk result (λ end. (first ≤ end) × (end ≤ length (ahead_of ahead.new))) }
    ensures kept { OnOk result (Keeps (left_of B.remaining ahead.old) (left_of B.remaining ahead.new)) }
    ensures grows { OnOk result (Grows (ahead_of ahead.old) (ahead_of ahead.new)) }
    ensures stops { IfErr result IsHalt }
{
    let mut end = first;
    let mut last = Last::Heading;
    for _ in 0..MOST_LINES {
        let (next, what) = next_row(ahead, end, last)?;
        if matches!(what, Last::Nothing) {
            return Ok(end);
        }
        end = next;
        last = what;
    }
    Ok(end)
}

/// Where the next row of a finding ends, which was read up to here, and what it is.
#[tactic(auto, using(crate::proofs::Pieced::keeps_then, crate::proofs::Pieced::grows_then))]
fn next_row<B: BufRead + Drop>(
    ahead: &mut Ahead<B>,
    end: usize,
    last: Last,
) -> Result<(usize, Last), Stop>
    requires { end ≤ length (ahead_of ahead.old) }
    ensures within { IfOk result (λ found. (end ≤ found.0) × (found.0 ≤ length (ahead_of ahead.new))) }
    ensures kept { OnOk result (Keeps (left_of B.remaining ahead.old) (left_of B.remaining ahead.new)) }
    ensures grows { OnOk result (Grows (ahead_of ahead.old) (ahead_of ahead.new)) }
    ensures stops { IfErr result IsHalt }
{
    let next = line_end(ahead, end)?;
    let line = line_in(ahead.bytes(), end, next);
    match (row_of(line), last) {
        _ if line.is_empty() => Ok((end, Last::Nothing)),
        (Row::Gutter, _) => Ok((next, Last::Row)),
        (_, Last::Marks(marks)) if is_offer(line, line_in(ahead.bytes(), marks, end)) => Ok((
            next,
            Last::Row,
        )),
        _ if is_note(line) => Ok((next, Last::Heading)),
        (_, Last::Heading) => marked_line(ahead, end, next),
        _ => Ok((end, Last::Nothing)),
    }
}

/// Whether a row says what is to stand at one of these marks. One that begins as an object of JSON does is a piece of
/// its own.
fn is_offer(row: &[u8], marks: &[u8]) -> bool {
    stands_below(row, marks) && !begins_object(row)
}

/// Where the row of marks ends that stands below a line of the source, if one does.
#[tactic(auto, using(crate::proofs::Pieced::keeps_then, crate::proofs::Pieced::grows_then))]
fn marked_line<B: BufRead + Drop>(
    ahead: &mut Ahead<B>,
    start: usize,
    end: usize,
) -> Result<(usize, Last), Stop>
    requires { (start ≤ end) × (end ≤ length (ahead_of ahead.old)) }
    ensures within { IfOk result (λ found. (start ≤ found.0) × (found.0 ≤ length (ahead_of ahead.new))) }
    ensures kept { OnOk result (Keeps (left_of B.remaining ahead.old) (left_of B.remaining ahead.new)) }
    ensures grows { OnOk result (Grows (ahead_of ahead.old) (ahead_of ahead.new)) }
    ensures stops { IfErr result IsHalt }
{
    // One that begins as an object of JSON does is a piece of its own.
    if begins_object(line_in(ahead.bytes(), start, end)) {
        return Ok((start, Last::Nothing));
    }
    let next = line_end(ahead, end)?;
    if row_of(line_in(ahead.bytes(), end, next)) == Row::Marks {
        Ok((next, Last::Marks(end)))
    } else {
        Ok((start, Last::Nothing))
    }
}

/// Where the line ends that begins at this byte ahead, with its line feed; there, if there is none.
#[tactic(auto, using(crate::proofs::Pieced::keeps_same, crate::proofs::Pieced::ahead_steps))]
fn line_end<B: BufRead + Drop>(ahead: &mut Ahead<B>, start: usize) -> Result<usize, Stop>
    requires { start ≤ length (ahead_of ahead.old) }
    ensures within { IfOk result (λ end. (start ≤ end) × (end ≤ length (ahead_of ahead.new))) }
    ensures kept { OnOk result (Keeps (left_of B.remaining ahead.old) (left_of B.remaining ahead.new)) }
    ensures grows { OnOk result (Grows (ahead_of ahead.old) (ahead_of ahead.new)) }
    ensures stops { IfErr result IsHalt }
{
    match memchr(b'\n', &ahead.bytes()[start..]) {
        Some(at) => Ok(start + at + 1),
        None => {
            ahead.more()?;
            Ok(ahead.bytes().len())
        }
    }
}

/// Whether some lines may belong to one finding, of which the first tells.
pub fn are_of_finding(lines: &[u8]) -> bool
    ensures are { result ≡ true → AreOfFinding lines.now }
{
    names_line(lines) && !begins_object(lines) && !holds_object(lines)
}

/// Whether the first line of some bytes may name a line of a file.
fn names_line(bytes: &[u8]) -> bool
    ensures value { result ≡ spec.names_line bytes.now }
{
    let mut is_open = false;
    for byte in bytes {
        if *byte == b'\n' {
            return false;
        }
        if is_open && is_digit(*byte) {
            return true;
        }
        is_open = opens_number(*byte);
    }
    false
}

/// Whether a byte is a decimal digit.
fn is_digit(byte: u8) -> bool
    ensures value { result ≡ spec.is_digit byte }
{
    byte >= 48 && byte <= 57
}

/// Whether a number may come after this byte: a colon or an opening bracket.
fn opens_number(byte: u8) -> bool
    ensures value { result ≡ spec.opens_number byte }
{
    byte == b':' || byte == b'('
}

/// Whether some bytes begin as an object of JSON does.
fn begins_object(bytes: &[u8]) -> bool
    ensures value { result ≡ line.begins_object bytes.now }
{
    match first_of(bytes) {
        Some(byte) => byte == b'{',
        None => false,
    }
}

/// Whether a line after the first begins as an object of JSON does.
fn holds_object(bytes: &[u8]) -> bool
    ensures value { result ≡ holds_after false bytes.now }
{
    let mut is_start = false;
    for byte in bytes {
        if is_start && *byte == b'{' {
            return true;
        }
        is_start = starts_line(is_start, *byte);
    }
    false
}

/// Whether a line has nothing but blanks up to after this byte.
fn starts_line(is_start: bool, byte: u8) -> bool
    ensures value { result ≡ spec.starts_line is_start byte }
{
    byte == b'\n' || (is_start && byte.is_ascii_whitespace())
}

/// The line from one byte to before another, without its line feed.
fn line_in(bytes: &[u8], start: usize, end: usize) -> &[u8] {
    let line = &bytes[start.min(end).min(bytes.len())..end.min(bytes.len())];
    match line {
        [before @ .., b'\n'] => before,
        _ => line,
    }
}
