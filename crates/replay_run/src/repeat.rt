//! How long drawing takes.

ghost use Rattle.annotate_snippets.specs.Fits.{ReportFits};

use crate::lines::{numbered_case, numbered_sources, print_line, value_of};
use crate::problem::{InputLine, Problem};
use annotate_snippets::renderer::RenderError;
use output_stream::Stream;
use replay_answer::case::Case;
use replay_answer::outcome::texts_of;
use std::alloc::Global;
use std::io::{BufRead, Write};
use std::rt::Clock;
use std::time::{Duration, Instant};

/// What was drawn, and in which time.
#[derive(Clone, Copy, Default)]
pub struct TimedTally {
    pub texts: u64,
    pub bytes: u64,
    pub time: Duration,
}

/// Draws each case this many times.
pub fn repeat_lines<K: Clock, B: BufRead + Drop>(
    clock: &K,
    alloc: Global,
    input: B,
    times: usize,
    tally: &mut TimedTally,
) -> Result<(), Problem> {
    let mut number = 0u64;
    for line in input.lines(alloc) {
        number = number.saturating_add(1);
        let value = value_of(alloc, InputLine::Case(number), line)?;
        let sources = numbered_sources(alloc, &value, number)?;
        let case = numbered_case(alloc, &value, &sources, number)?;
        *tally = repeat_case(clock, alloc, &case, times, *tally)?;
    }
    Ok(())
}

/// The tally with one case drawn this many times more. A case that is refused adds nothing.
fn repeat_case<K: Clock>(
    clock: &K,
    alloc: Global,
    case: &Case<'_>,
    times: usize,
    tally: TimedTally,
) -> Result<TimedTally, Problem>
    requires fits { ReportFits case.now.groups.items }
{
    let start = Instant::now(clock).map_err(Problem::Clock)?;
    let mut drawn = match draw_often(alloc, case, times, tally) {
        Ok(drawn) => drawn,
        Err(RenderError::Memory(refused)) => return Err(Problem::from(refused)),
        Err(_) => return Ok(tally),
    };
    let taken = start.elapsed(clock).map_err(Problem::Clock)?;
    drawn.time = drawn.time.saturating_add(taken);
    Ok(drawn)
}

/// The tally with the texts of one case, drawn this many times.
fn draw_often(
    alloc: Global,
    case: &Case<'_>,
    times: usize,
    tally: TimedTally,
) -> Result<TimedTally, RenderError>
    requires fits { ReportFits case.now.groups.items }
{
    let mut drawn = tally;
    for _ in 0..times {
        let texts = texts_of(alloc, case)?;
        for text in &texts {
            drawn.texts = drawn.texts.saturating_add(1);
            drawn.bytes = drawn.bytes.saturating_add(text.len() as u64);
        }
    }
    Ok(drawn)
}

/// Prints what was drawn, and in which time.
pub fn print_tally<W: Write>(
    alloc: Global,
    tally: &TimedTally,
    out: &mut Stream<W>,
) -> Result<(), Problem> {
    let TimedTally { texts, bytes, time } = *tally;
    let (seconds, thousandths) = (time.as_secs(), time.subsec_millis());
    let line = format!(in alloc;
        "{texts} texts, {bytes} bytes, {seconds}.{thousandths:03} seconds"
    )?;
    print_line(line.as_str(), out)
}
