//! Inputs, which are files and standard input: what is done with the lines of each.

ghost use Rattle.std.specs.Prelude.{◌≡◌, OnOk, IfErr, IfOk};
ghost use Rattle.std.specs.Io.Buffered.{reader_inner, reader_remaining};
ghost use Rattle.output_stream.specs.Standing.{known};
ghost use Rattle.program.specs.Inputs.{held_by};
ghost use Rattle.replay_run.specs.Arguments.{arguments_at};
ghost use Rattle.replay_run.specs.Answered.{AnswersInputs, AnswersReader, StopsAtInput, StopsInputs};
ghost use Rattle.replay_run.specs.Checked.{CountsLines};
ghost use Rattle.replay_run.specs.Growth.{Grows};
ghost use Rattle.replay_run.specs.Inputs.{NamedInput};

use crate::check::{Counts, check_lines};
use crate::lines::{Way, answer_lines, either};
use crate::problem::Problem;
use crate::repeat::{TimedTally, repeat_lines};
use crate::stop::StopAt;
use output_stream::Stream;
use program::inputs::{input_name, opened, opened_file};
use std::io::{BufReader, Write};
use std::rt::{Clock, Files};

/// Answers the cases of each input, one input after another, and tells whether one of their lines was no case.
pub fn answer_inputs<'a, R: Files + Input + AllocGlobal, W: Write>(
    rt: &R,
    way: Way,
    names: &[&'a str],
    out: &mut Stream<W>,
) -> Result<bool, StopAt<'a>>
    ensures answers { IfOk result (λ told. AnswersInputs R.File R.Reader (held_by R.File.remaining R.Reader.remaining)
        way told (arguments_at names.now) (known W.contents out.old) (known W.contents out.new)) }
    ensures stops { IfErr result (λ stop. StopsInputs R.File R.Reader (held_by R.File.remaining R.Reader.remaining)
        way (arguments_at names.now) (known W.contents out.old) (known W.contents out.new) stop.file.now stop.problem) }
{
    let mut is_first = true;
    let mut told = false;
    for name in names {
        match answer_named(rt, way, name, &mut is_first, out) {
            Ok(here) => told = either(told, here),
            Err(problem) => {
                return Err(StopAt {
                    file: input_name(*name),
                    problem,
                });
            }
        }
    }
    Ok(told)
}

/// Answers the cases of one input, and tells whether a line was no case.
fn answer_named<R: Files + Input + AllocGlobal, W: Write>(
    rt: &R,
    way: Way,
    name: &str,
    is_first: &mut bool,
    out: &mut Stream<W>,
) -> Result<bool, Problem>
    ensures answers { IfOk result (λ told. (input : NamedInput R.File R.Reader) × (input.name ≡ name.now)
        × AnswersReader way told is_first.old is_first.new (held_by R.File.remaining R.Reader.remaining input.source)
        (known W.contents out.old) (known W.contents out.new)) }
    ensures stops { IfErr result (StopsAtInput R.File R.Reader (held_by R.File.remaining R.Reader.remaining) name.now
        way is_first.old (known W.contents out.old) (known W.contents out.new)) }
{
    match opened(rt, name) {
        Ok(input) => answer_lines(rt.alloc(), input, way, is_first, out),
        Err(error) => Err(Problem::Read(error)),
    }
}

/// The bytes of a file.
fn reader_of<R: Files + AllocGlobal>(rt: &R, file: &str) -> Result<BufReader<R::File>, Problem>
    ensures bytes { IfOk result (λ reader.
        reader_remaining R.File.remaining reader ≡ R.File.remaining (reader_inner reader)) }
{
    match opened_file(rt, file) {
        Ok(reader) => Ok(reader),
        Err(error) => Err(Problem::Read(error)),
    }
}

/// Compares the cases of one file with those that are expected.
pub fn check_pair<R: Files + AllocGlobal, W: Write>(
    rt: &R,
    expected: &str,
    cases: &str,
    out: &mut Stream<W>,
) -> Result<Counts, Problem>
    ensures counts { IfOk result (λ counts. (answers : R.File) × (lines : R.File)
        × CountsLines (R.File.remaining answers) (R.File.remaining lines) counts) }
    ensures added { OnOk result (Grows (known W.contents out.old) (known W.contents out.new)) }
    ensures silent { IfOk result (λ counts. counts.failed ≡ 0 → out.new ≡ out.old) }
{
    let expected = reader_of(rt, expected)?;
    let cases = reader_of(rt, cases)?;
    check_lines(rt.alloc(), expected, cases, out)
}

/// Draws each case of an input this many times.
pub fn repeat_named<R: Files + Input + Clock + AllocGlobal>(
    rt: &R,
    times: usize,
    name: &str,
    tally: &mut TimedTally,
) -> Result<(), Problem> {
    let input = opened(rt, name).map_err(Problem::Read)?;
    repeat_lines(rt, rt.alloc(), input, times, tally)
}
